//! How much of a text is in memory at a time.
ghost use Rattle.bx_journal_model.specs.Restoring.{IsEnough};

use bx_journal_format::SURELY_LONG;

/// The count of bytes of a text that are read at a time.
pub const WINDOW: u64 = 262_144;

/// How many bytes a window has that is enough to read a text of `len` bytes with.
pub fn enough_of(len: u64) -> u64
    ensures { IsEnough result }
{
    WINDOW.min(len).max(SURELY_LONG as u64 + 1)
}
