//! What stops a call of a session.
ghost use Rattle.std.specs.Prelude.{◌≡◌};
ghost use Rattle.bx_journal_model.specs.declared.fault.SessionFault.TheVariants.{NoMemory as OutOfMemory, TooLarge as ImageTooLarge, DeviceFailed as CallFailed};
ghost use Rattle.bx_journal_model.specs.Fault.{saving_fault, reading_fault, redo_fault};

use bx_image::{DeviceFailed, ImageFault, TooLarge};
use bx_journal_store::TextFault;
use bx_text::NoMemory;
use std::alloc::AllocError;
use thiserror::Error;

/// What stops a call of a session.
#[derive(Clone, Copy, Debug, PartialEq, Eq, Error)]
pub enum SessionFault {
    /// A growth was refused.
    #[error("out of memory")]
    NoMemory,
    /// The image would have more than 2^48 - 1 bytes.
    #[error("image too large")]
    TooLarge,
    /// A device failed before anything was written.
    #[error("device failed")]
    DeviceFailed,
    /// The journal's text isn't accepted; the line counts from 1.
    #[error("journal line {line} is damaged")]
    Damaged { line: u64 },
    /// There are fewer changes than are to be taken back.
    #[error("only {have} changes to undo")]
    TooFew { have: u32 },
    /// 65,535 changes stand.
    #[error("journal is full")]
    JournalFull,
    /// A device failed after something was written: opening the three again recovers them.
    #[error("interrupted: open again to recover")]
    Interrupted,
    /// An earlier call was interrupted.
    #[error("session is broken")]
    Broken,
    /// The image hasn't the length that the journal's last finished entry tells.
    #[error("image should have {expected} bytes")]
    LengthDiffers { expected: u64 },
    /// There are fewer undone changes than are to be made again.
    #[error("only {have} changes to redo")]
    NothingToRedo { have: u32 },
    /// The redo text isn't one that belongs to the image and the journal; the line counts from 1.
    #[error("redo line {line} is damaged")]
    RedoDamaged { line: u64 },
}

impl From<NoMemory> for SessionFault {
    ghost from_gives = { λ _ e. e ≡ OutOfMemory };

    fn from(_: NoMemory) -> Self {
        SessionFault::NoMemory
    }
}

impl From<AllocError> for SessionFault {
    ghost from_gives = { λ _ e. e ≡ OutOfMemory };

    fn from(_: AllocError) -> Self {
        SessionFault::NoMemory
    }
}

impl From<DeviceFailed> for SessionFault {
    ghost from_gives = { λ _ e. e ≡ CallFailed };

    fn from(_: DeviceFailed) -> Self {
        SessionFault::DeviceFailed
    }
}

impl From<TooLarge> for SessionFault {
    ghost from_gives = { λ _ e. e ≡ ImageTooLarge };

    fn from(_: TooLarge) -> Self {
        SessionFault::TooLarge
    }
}

fn of_image(fault: ImageFault) -> SessionFault
where
    ensures { result ≡ saving_fault fault }
{
    match fault {
        ImageFault::NoMemory => SessionFault::NoMemory,
        ImageFault::TooLarge => SessionFault::TooLarge,
        ImageFault::DeviceFailed => SessionFault::DeviceFailed,
    }
}

/// What a fault of reading the text is in a session.
pub fn of_text(fault: TextFault) -> SessionFault
where
    ensures { result ≡ reading_fault fault }
{
    match fault {
        TextFault::NoMemory => SessionFault::NoMemory,
        TextFault::DeviceFailed => SessionFault::DeviceFailed,
    }
}

/// What a fault of reading a journal's text is where the text is the redo text.
pub fn of_redo(fault: SessionFault) -> SessionFault
where
    ensures { result ≡ redo_fault fault }
{
    match fault {
        SessionFault::Damaged { line } => SessionFault::RedoDamaged { line },
        other => other,
    }
}

impl From<ImageFault> for SessionFault {
    ghost from_gives = { λ f e. e ≡ saving_fault f };

    fn from(fault: ImageFault) -> Self {
        of_image(fault)
    }
}
