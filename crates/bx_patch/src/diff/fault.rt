//! What stops a comparison.
use std::alloc::AllocError;
use thiserror::Error;

/// What stopped a comparison.
#[derive(Clone, Copy, Debug, PartialEq, Eq, Error)]
pub enum DiffFault {
    /// A growth was refused.
    #[error("out of memory")]
    NoMemory,
    /// One of the two is longer than an image can be.
    #[error("image too large")]
    TooLarge,
    /// A call of the first device failed.
    #[error("read failed")]
    OldFailed,
    /// A call of the second device failed.
    #[error("read failed")]
    NewFailed,
    /// The writer failed, behind the `written` bytes that it took before.
    #[error("write failed after {written} bytes")]
    WriteFailed { written: u64 },
}

impl From<AllocError> for DiffFault {
    ghost use Rattle.std.specs.Prelude.{◌≡◌};
    ghost use Rattle.bx_patch.specs.declared.diff.fault.DiffFault.TheVariants.{NoMemory as OutOfMemory};

    ghost from_gives = { λ _ fault. fault ≡ OutOfMemory };

    fn from(_: AllocError) -> Self {
        DiffFault::NoMemory
    }
}
