//! What the definitions say, in other words.
ghost use Rattle.std.specs.Prelude.{ℕ, ◌<◌, List};
ghost use Rattle.bx_dump_columns.specs.declared.od.options.Address.{Address};
ghost use Rattle.bx_dump.specs.Behind.{DumpsBehind, RestAsksBehind};
ghost use Rattle.bx_dump.specs.Laws.{EndsAreShown, ItemsAreBytes, ItemsAreLines, PlainWithoutZeros, ValueIsSum};
ghost use Rattle.bx_dump.specs.Runs.{ShowsRuns};

/// Says that the text of `strings` shows the maximal printable runs that are long enough, each of them and no others, by
/// rising place.
pub fn shows_maximal_runs()
    ensures { (least : ℕ) (offsets : Address) (x : List ℕ) → 0 < least → ShowsRuns least offsets x }
{}

/// Says that the value `od` shows for bytes is the sum of each byte times 256 to the power of its place.
pub fn value_is_sum()
    ensures { ValueIsSum }
{}

/// Says that item i of a line of a C array is byte i of the line, in two digits behind `0x`.
pub fn items_are_bytes()
    ensures { ItemsAreBytes }
{}

/// Says that the items of a C array stand on lines of two spaces and `cols` items; each line but the last ends in a comma.
pub fn items_are_lines()
    ensures { ItemsAreLines }
{}

/// Says that the dump of what stands behind some bytes of an input is that of the whole input that skips them.
pub fn dumps_behind()
    ensures { DumpsBehind }
{}

/// Says that options of `od`, `hexdump` and `xxd` that skip n bytes fewer, and have a first address, or a shift, of n more, ask
/// for the dump of what stands behind n bytes.
pub fn rest_asks_behind()
    ensures { RestAsksBehind }
{}

/// Says that no line is left out of a dump of `xxd` with `autoskip` where none is of zeros: it is the plain dump then.
pub fn plain_without_zeros()
    ensures { PlainWithoutZeros }
{}

/// Says that with `autoskip` the first line is shown, and so is the last one, whatever stands on them.
pub fn ends_are_shown()
    ensures { EndsAreShown }
{}
