//! What stops a look at the changes of a text.
ghost use Rattle.std.specs.Prelude.{◌≡◌};
ghost use Rattle.bx_journal_read.specs.declared.show.fault.ShowFault.TheVariants.{Text as OfText, Io as OfIo};
ghost use Rattle.bx_journal_model.specs.declared.fault.SessionFault.TheVariants.{NoMemory as OutOfMemory, DeviceFailed as CallFailed};

use bx_image::DeviceFailed;
use bx_journal_model::SessionFault;
use bx_text::{IoFault, NoMemory};
use std::alloc::AllocError;

/// What stops a look at the changes of a text.
#[derive(Clone, Copy, Debug, PartialEq, Eq)]
pub enum ShowFault {
    /// The text can't be shown, as a call of a session answers it.
    Text(SessionFault),
    /// What is shown couldn't be written.
    Io(IoFault),
}

impl From<IoFault> for ShowFault {
    ghost from_gives = { λ fault f. f ≡ OfIo fault };

    fn from(fault: IoFault) -> Self {
        ShowFault::Io(fault)
    }
}

impl From<NoMemory> for ShowFault {
    ghost from_gives = { λ _ f. f ≡ OfText OutOfMemory };

    fn from(_: NoMemory) -> Self {
        ShowFault::Text(SessionFault::NoMemory)
    }
}

impl From<AllocError> for ShowFault {
    ghost from_gives = { λ _ f. f ≡ OfText OutOfMemory };

    fn from(_: AllocError) -> Self {
        ShowFault::Text(SessionFault::NoMemory)
    }
}

impl From<DeviceFailed> for ShowFault {
    ghost from_gives = { λ _ f. f ≡ OfText CallFailed };

    fn from(_: DeviceFailed) -> Self {
        ShowFault::Text(SessionFault::DeviceFailed)
    }
}
