//! The two forms of entries.
ghost use Rattle.std.specs.Prelude.{◌≡◌};
ghost use Rattle.bx_journal_format.specs.Line.{address_width};

/// The two forms of entries: `change` with `done`, and `change2` with `done2`.
#[derive(Clone, Copy, Debug, PartialEq, Eq)]
pub enum Version {
    First,
    Second,
}

/// How many digits a length has.
pub fn width_of(version: Version) -> usize
    ensures { result ≡ address_width version }
{
    match version {
        Version::First => 8,
        Version::Second => 16,
    }
}
