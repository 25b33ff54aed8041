//! What is unfinished at the end of a text whose lines were walked along: found by its places, and nothing of it is kept.
ghost use Rattle.std.specs.Prelude.{◌≡◌, ◌<◌, ◌≤◌, List, ℕ, IsTrue, false, drop, take, length, is_err, IfOk, IfSome};
ghost use Rattle.bx_journal_format.specs.Text.{Between as Resting, Ending as Closing, IsRest, Reading, split};
ghost use Rattle.bx_journal_format.specs.Kept.{Kept};
ghost use Rattle.bx_journal_format.specs.declared.format.version.Version.{Version as Form};
ghost use Rattle.bx_journal_format.specs.count.Mark.{IsMark};
ghost use Rattle.bx_journal_format.specs.read.Plain.{HasNoNewline};
ghost use Rattle.bx_journal_format.specs.count.Tally.{tally_of};
ghost use Rattle.bx_journal_model.specs.Looking.{OnlyReadsText};
ghost use Rattle.bx_journal_read.specs.scan.Recovery.{HasMark, IsTornFront, IsUnfinishedIn};
ghost use Rattle.bx_journal_model.specs.Restoring.{StandsAt};
ghost use Rattle.bx_journal_read.specs.scan.Windows.{IsWalkedTo, rest_to};

use crate::scan::count::{ALL, Walk, count_windows, walk_windows};
use crate::scan::shown::{shown_in, zero_from};
use bx_image::DeviceFailed;
use bx_journal_format::{Place, Tally, Version, count_lines, next_end, rest_may_follow};
use bx_journal_model::{Mark, start_size};
use bx_journal_store::TextStore;

/// What is unfinished at the end of a text: `count` finished entries stand before it, the last one records the length `told`, and it
/// begins at `begins`. Where its `save` line stands, its record stands at a mark.
#[derive(Clone, Copy)]
pub struct Torn {
    pub count: u32,
    pub told: Option<u64>,
    pub begins: u64,
    pub mark: Option<Mark>,
}

/// The most bytes that a line has which begins an entry, its newline included.
const LONGEST_START: usize = 34;

/// Whether what follows the last line in a text's first `len` bytes may stand there.
fn may_follow<T: TextStore>(
    store: &mut T,
    window: &mut [u8],
    len: u64,
    walk: Walk,
) -> Result<bool, DeviceFailed>
    requires countable { T.failures store.old < u64.MAX }
    requires within { T.faithful store.old → len ≤ length (T.text store.old) }
    requires below { walk.at ≤ len }
    requires few { walk.tally.count ≤ 65535 }
    ensures rest { T.faithful store.old → (r : Reading) → tally_of r ≡ walk.tally
        → IfOk result (λ b. IsTrue b → IsRest r.entries r.stage (rest_to len walk.at (T.text store.old)) × HasNoNewline (rest_to len walk.at (T.text store.old))) }
    ensures window { length window.new ≡ length window.old }
    ensures reads { OnlyReadsText T.TextStore (is_err result) store.old store.new }
{
    if len - walk.at > window.len() as u64 {
        return Ok(false);
    }
    let (rest, _) = window.split_at_mut((len - walk.at) as usize);
    store.read_at(walk.at, rest)?;
    if next_end(walk.tally.place, rest).is_some() {
        return Ok(false);
    }
    Ok(rest_may_follow(walk.tally, rest))
}

/// The image's length that the first line of an entry records, which begins at this place.
fn find_len<T: TextStore>(
    store: &mut T,
    window: &mut [u8],
    begins: u64,
    walk: Walk,
) -> Result<Option<u64>, DeviceFailed>
    requires countable { T.failures store.old < u64.MAX }
    requires below { begins ≤ walk.at }
    requires within { T.faithful store.old → walk.at ≤ length (T.text store.old) }
    ensures len { T.faithful store.old → (r : Reading) (v : Form) (s : Kept) → IsMark (T.text store.old) begins (record { entries = r.entries; stage = Resting })
        → IsMark (T.text store.old) walk.at r → tally_of r ≡ walk.tally → r.stage ≡ Closing v s → IfOk result (λ found. IfSome found (λ n. n ≡ s.len)) }
    ensures window { length window.new ≡ length window.old }
    ensures reads { OnlyReadsText T.TextStore (is_err result) store.old store.new }
{
    let first = (window.len().min(LONGEST_START) as u64).min(walk.at - begins) as usize;
    let (line, _) = window.split_at_mut(first);
    store.read_at(begins, line)?;
    let tally = Tally {
        count: walk.tally.count,
        told: walk.tally.told,
        place: Place::Between,
    };
    let Some(passed) = count_lines(tally, line, false, ALL) else {
        return Ok(None);
    };
    match passed.tally.place {
        Place::Saving { len, .. } => Ok(Some(len)),
        Place::Between => Ok(None),
        Place::Ending { .. } => Ok(None),
    }
}

/// Where the record of an entry stands that begins at a place, and whose save line of this form is the last line. It answers none where that
/// isn't found.
fn find_record<T: TextStore>(
    store: &mut T,
    window: &mut [u8],
    begins: u64,
    walk: Walk,
    version: Version,
) -> Result<Option<Mark>, DeviceFailed>
    requires countable { T.failures store.old < u64.MAX }
    requires below { begins ≤ walk.at }
    requires within { T.faithful store.old → walk.at ≤ length (T.text store.old) }
    ensures record_ { T.faithful store.old → (r : Reading) (s : Kept) → IsMark (T.text store.old) begins (record { entries = r.entries; stage = Resting })
        → IsMark (T.text store.old) walk.at r → tally_of r ≡ walk.tally → r.stage ≡ Closing version s
        → IfOk result (λ found. IfSome found (λ m. StandsAt (T.text store.old) m s)) }
    ensures order { IfOk result (λ found. IfSome found (λ m. m.lines ≤ m.saved)) }
    ensures ends { IfOk result (λ found. IfSome found (λ m. m.saved ≡ walk.at)) }
    ensures window { length window.new ≡ length window.old }
    ensures reads { OnlyReadsText T.TextStore (is_err result) store.old store.new }
{
    let found = find_len(store, window, begins, walk)?;
    let Some(len) = found else {
        return Ok(None);
    };
    let first = start_size(version);
    if walk.at - begins <= first {
        return Ok(None);
    }
    Ok(Some(Mark {
        lines: begins + first + 1,
        saved: walk.at,
        len,
    }))
}

/// Where the record of what is unfinished stands, if its save line does. It answers none where that isn't found.
fn find_mark<T: TextStore>(
    store: &mut T,
    window: &mut [u8],
    begins: u64,
    walk: Walk,
) -> Result<Option<Option<Mark>>, DeviceFailed>
    requires countable { T.failures store.old < u64.MAX }
    requires below { begins ≤ walk.at }
    requires within { T.faithful store.old → walk.at ≤ length (T.text store.old) }
    ensures mark { T.faithful store.old → (r : Reading) → IsMark (T.text store.old) begins (record { entries = r.entries; stage = Resting })
        → IsMark (T.text store.old) walk.at r → tally_of r ≡ walk.tally → IfOk result (λ found. IfSome found (HasMark (T.text store.old) r.stage)) }
    ensures order { IfOk result (λ found. IfSome found (λ mark. IfSome mark (λ m. m.lines ≤ m.saved))) }
    ensures ends { IfOk result (λ found. IfSome found (λ mark. IfSome mark (λ m. m.saved ≡ walk.at))) }
    ensures window { length window.new ≡ length window.old }
    ensures reads { OnlyReadsText T.TextStore (is_err result) store.old store.new }
{
    match walk.tally.place {
        Place::Between => Ok(Some(None)),
        Place::Saving { .. } => Ok(Some(None)),
        Place::Ending { version } => {
            let found = find_record(store, window, begins, walk, version)?;
            let Some(mark) = found else {
                return Ok(None);
            };
            Ok(Some(Some(mark)))
        }
    }
}

/// Finds what is unfinished at the end of a text's first `len` bytes, whose lines were walked along. It answers none where what follows the
/// last line can't stand there, and where it isn't found.
pub fn find_end<T: TextStore>(
    store: &mut T,
    window: &mut [u8],
    len: u64,
    walk: Walk,
) -> Result<Option<Torn>, DeviceFailed>
    requires countable { T.failures store.old < u64.MAX }
    requires within { T.faithful store.old → len ≤ length (T.text store.old) }
    requires walked { IsWalkedTo (T.faithful store.old) (T.text store.old) false len walk }
    ensures found { IfOk result (λ found. IfSome found (IsTornFront (T.faithful store.old) (T.text store.old) len)) }
    ensures window { length window.new ≡ length window.old }
    ensures reads { OnlyReadsText T.TextStore (is_err result) store.old store.new }
{
    let follows = may_follow(store, window, len, walk)?;
    if !follows {
        return Ok(None);
    }
    let counted = count_windows(store, window, len, false, walk.tally.count)?;
    let Some(front) = counted else {
        return Ok(None);
    };
    if front.count != walk.tally.count {
        return Ok(None);
    }
    if front.at > walk.at {
        return Ok(None);
    }
    let found = find_mark(store, window, front.at, walk)?;
    let Some(mark) = found else {
        return Ok(None);
    };
    Ok(Some(Torn {
        count: front.count,
        told: front.told,
        begins: front.at,
        mark,
    }))
}

/// Finds what is unfinished at the end of a text of `len` bytes, whose lines were walked along. It answers none where nothing is, where what
/// follows the last line can't stand there, and where a zero is among it or it isn't found.
pub fn find_torn<T: TextStore>(
    store: &mut T,
    window: &mut [u8],
    len: u64,
    walk: Walk,
) -> Result<Option<Torn>, DeviceFailed>
    requires countable { T.failures store.old < u64.MAX }
    requires long { T.faithful store.old → len ≡ length (T.text store.old) }
    requires some { 0 < length window.old }
    requires walked { IsWalkedTo (T.faithful store.old) (T.text store.old) false len walk }
    ensures found { IfOk result (λ found. IfSome found (IsUnfinishedIn (T.faithful store.old) (T.text store.old))) }
    ensures window { length window.new ≡ length window.old }
    ensures reads { OnlyReadsText T.TextStore (is_err result) store.old store.new }
{
    let found = find_end(store, window, len, walk)?;
    let Some(torn) = found else {
        return Ok(None);
    };
    if torn.begins >= len {
        return Ok(None);
    }
    let zero = zero_from(store, window, torn.begins, len)?;
    if zero < len {
        return Ok(None);
    }
    Ok(Some(torn))
}

/// Finds what is unfinished at the end of a text of `len` bytes in which a loss of power left zeros. It answers none where none did, and
/// where it isn't found.
pub fn find_faded<T: TextStore>(
    store: &mut T,
    window: &mut [u8],
    len: u64,
) -> Result<Option<Torn>, DeviceFailed>
    requires countable { T.failures store.old < u64.MAX }
    requires long { T.faithful store.old → len ≡ length (T.text store.old) }
    requires some { 0 < length window.old }
    ensures found { IfOk result (λ found. IfSome found (IsUnfinishedIn (T.faithful store.old) (T.text store.old))) }
    ensures reads { OnlyReadsText T.TextStore (is_err result) store.old store.new }
{
    let shown = shown_in(store, window, len)?;
    if shown >= len {
        return Ok(None);
    }
    let walked = walk_windows(store, window, shown, false, ALL)?;
    let Some(walk) = walked else {
        return Ok(None);
    };
    find_end(store, window, shown, walk)
}
