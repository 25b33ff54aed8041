//! Where the record of an entry stands in a text.
ghost use Rattle.std.specs.Prelude.{◌≡◌};
ghost use Rattle.bx_journal_format.specs.Line.{start_size as size_of};

use bx_journal_format::Version;

/// Where the record of an entry stands in a text: its saved lines begin at `lines`, and its `save` line ends at `saved`. The image
/// that it restores has the length `len`.
#[derive(Clone, Copy)]
pub struct Mark {
    pub lines: u64,
    pub saved: u64,
    pub len: u64,
}

/// How long the line is that begins an entry.
pub fn start_size(version: Version) -> u64
    ensures { result ≡ size_of version }
{
    match version {
        Version::First => 24,
        Version::Second => 33,
    }
}
