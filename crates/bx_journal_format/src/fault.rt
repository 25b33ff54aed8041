//! What stops the reading of a journal's text.
ghost use Rattle.std.specs.Prelude.{◌≡◌};
ghost use Rattle.bx_journal_format.specs.declared.fault.EntryFault.TheVariants.{NoMemory as OutOfMemory};

use std::alloc::AllocError;

/// What stopped the reading of a journal's text.
#[derive(Clone, Copy, Debug, PartialEq, Eq)]
pub enum EntryFault {
    /// A growth was refused.
    NoMemory,
    /// The text isn't accepted; the line counts from 1.
    Damaged { line: u64 },
}

impl From<AllocError> for EntryFault {
    ghost from_gives = { λ _ fault. fault ≡ OutOfMemory };

    fn from(_: AllocError) -> Self {
        EntryFault::NoMemory
    }
}
