//! Why the files of a session are not opened.
ghost use Rattle.std.specs.Prelude.{◌≡◌};

use crate::{Refusal, Unfit};

/// One of the three files of a session.
#[derive(Clone, Copy, Debug, PartialEq, Eq)]
pub enum FileRole {
    /// The image.
    Image,
    /// Its journal.
    Journal,
    /// Its redo text.
    Redo,
}

/// Why a file is not opened.
#[derive(Clone, Copy, Debug, PartialEq, Eq)]
pub enum OpenFailure {
    /// The system refused it, or has none of this name.
    System(Refusal),
    /// It is none that may be opened.
    Unfit(Unfit),
    /// It is one of the others by another name.
    Alias,
    /// It isn't the image that the journal was written beside.
    Another,
}

/// The file that is not opened, and why.
#[derive(Clone, Copy, Debug, PartialEq, Eq)]
pub struct OpenError {
    /// Which of the three it is.
    pub which: FileRole,
    /// Why it is not opened.
    pub why: OpenFailure,
}

impl FileRole {
    /// The file, which is not opened for this reason.
    pub fn unopened(self, why: OpenFailure) -> OpenError
        ensures { result ≡ record { which = self; why = why } }
    {
        OpenError { which: self, why }
    }

    /// The file, which the system refused to open.
    pub fn refused(self, refusal: Refusal) -> OpenError
        ensures { result ≡ record { which = self; why = OpenFailure.System refusal } }
    {
        OpenError {
            which: self,
            why: OpenFailure::System(refusal),
        }
    }

    /// The file, which is none that may be opened.
    pub fn unfit(self, unfit: Unfit) -> OpenError
        ensures { result ≡ record { which = self; why = OpenFailure.Unfit unfit } }
    {
        OpenError {
            which: self,
            why: OpenFailure::Unfit(unfit),
        }
    }

    /// The file, which is one of the others by another name.
    pub fn alias(self) -> OpenError
        ensures { result ≡ record { which = self; why = OpenFailure.Alias } }
    {
        OpenError {
            which: self,
            why: OpenFailure::Alias,
        }
    }
}
