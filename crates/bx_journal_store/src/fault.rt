//! What stops the reading of a text.
ghost use Rattle.std.specs.Prelude.{◌≡◌};
ghost use Rattle.bx_journal_store.specs.declared.fault.TextFault.TheVariants.{DeviceFailed as Failed, NoMemory as OutOfMemory};

use bx_image::DeviceFailed;
use std::alloc::AllocError;
use thiserror::Error;

/// What stopped the reading of a text.
#[derive(Clone, Copy, Debug, PartialEq, Eq, Error)]
pub enum TextFault {
    /// A growth was refused.
    #[error("out of memory")]
    NoMemory,
    /// A call of the device failed.
    #[error("device failed")]
    DeviceFailed,
}

impl From<AllocError> for TextFault {
    ghost from_gives = { λ _ fault. fault ≡ OutOfMemory };

    fn from(_: AllocError) -> Self {
        TextFault::NoMemory
    }
}

impl From<DeviceFailed> for TextFault {
    ghost from_gives = { λ _ fault. fault ≡ Failed };

    fn from(_: DeviceFailed) -> Self {
        TextFault::DeviceFailed
    }
}
