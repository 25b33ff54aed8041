//! What is wrong with the text of a patch.
ghost use Rattle.std.specs.Prelude.{◌≡◌};
ghost use Rattle.bx_patch.specs.declared.read.fault.PatchFault.TheVariants.{NoMemory as OutOfMemory};

use bx_read::ReadFault;
use std::alloc::AllocError;
use thiserror::Error;

/// What is wrong with the text of a patch. Lines are counted from 1.
#[derive(Clone, Copy, Debug, PartialEq, Eq, Error)]
pub enum PatchFault {
    /// A growth was refused.
    #[error("out of memory")]
    NoMemory,
    /// No whole line is left, and none of those before was the last one.
    #[error("the patch has no end")]
    NoEnd,
    /// What is wrong with the line behind its sign.
    #[error(transparent)]
    Line(ReadFault),
    /// The line is of no kind, tells the lengths late, or stands behind the last one.
    #[error("line {line}: not a line of a patch")]
    OfNoKind { line: u64 },
    /// The line doesn't tell two lengths.
    #[error("line {line}: bad length")]
    BadLength { line: u64 },
    /// The line ends behind the length of its image.
    #[error("line {line}: past the length")]
    PastLength { line: u64 },
    /// The line tells how many lines stand before it, and these aren't as many.
    #[error("line {line}: bad count of lines")]
    BadCount { line: u64 },
}

impl From<AllocError> for PatchFault {
    ghost from_gives = { λ _ fault. fault ≡ OutOfMemory };

    fn from(_: AllocError) -> Self {
        PatchFault::NoMemory
    }
}
