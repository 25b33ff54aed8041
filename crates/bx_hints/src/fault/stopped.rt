//! What stopped a job. What is added to a fault hands the fault on.
ghost use Rattle.std.specs.Prelude.{◌≡◌};

use bx_cli_commands::Fault;
use bx_dd::DdFault;
use bx_image::FailedCall;
use bx_journal::SessionFault;
use bx_patch::PatchFault;
use bx_read::ReadFault;
use bx_text::IoFault;
use std::io::{self, ErrorKind};

/// What is said in place of a file's name.
pub const STANDARD_INPUT: &str = "standard input";

/// The same for the output.
pub const STANDARD_OUTPUT: &str = "standard output";

/// What is said of an image that isn't the one that the last command on it left.
const OTHER: &str = "it hasn't the bytes that the last command left";

/// What is said of an image whose older changes stand for another one.
const OLDER: &str = "it was changed between these changes, by another program";

/// What is said of an image whose journal is older than the text beside it.
const BEHIND: &str =
    "its journal is older than the text beside it, as if an old copy had been put back";

/// What is said of a dump whose lines end in CR LF.
const RETURNS: &str = "its lines end in CR LF; tr -d '\\r' takes the CR off";

/// What tells that an image isn't the one that the last command on it left.
#[derive(Clone, Copy, PartialEq, Eq)]
pub enum Since {
    /// It has other bytes.
    Changed,
    /// It was changed between those changes that would be undone.
    Between,
    /// Its journal is older than the text beside it.
    Behind,
}

/// Why a file stopped a job.
#[derive(Clone, Copy)]
pub enum Reason<'a> {
    /// Nothing is known.
    Unknown,
    /// The system's number of the error.
    System(i32),
    /// A call of a device that the system refused.
    Call(FailedCall),
    /// In words.
    Told(&'a str),
    /// Somebody may read or write this text who may not do so with the image; with these permission bits nobody could.
    Wide {
        /// The bits.
        bits: u32,
    },
    /// A change is unfinished, and the system doesn't let this file be written.
    Unfinished,
    /// A change is unfinished behind those that can be shown.
    Begun,
    /// The image is missing, and changes of it are kept.
    Gone,
    /// Something is unfinished, and the image isn't the one that it was begun on, or nothing tells whether it is.
    Another {
        /// Whether something tells it.
        is_told: bool,
    },
    /// The file has `has` bytes and can't grow, and the change wants it to have `wanted`.
    Fixed {
        /// How many it has.
        has: u64,
        /// How many it would have.
        wanted: u64,
    },
    /// The file has `has` bytes and isn't to grow, and the change wants it to have `wanted`.
    Longer {
        /// How many it has.
        has: u64,
        /// How many it would have.
        wanted: u64,
    },
    /// The file is a block device, and can't have the length that a patch brings.
    Stays,
    /// The file can't grow, and the input has more for it than fits.
    Full {
        /// How many it has.
        has: u64,
    },
    /// The image has all that the patch writes.
    Applied {
        /// Whether that is what stood before the patch.
        reverse: bool,
    },
    /// Nothing is said: the exit status is all that was asked for.
    Silent,
    /// The image has these bytes in a row, the first of them where a patch has another one.
    There(Row),
    /// The file has `has` bytes, and should have as many as `expected`.
    Lengths {
        /// How many it has.
        has: u64,
        /// How many it should have.
        expected: u64,
    },
}

/// What an image has from an address on, up to the end of its row of 16.
#[derive(Clone, Copy)]
pub struct Row {
    /// The address.
    pub at: u64,
    /// The bytes, and others behind them.
    pub bytes: [u8; 16],
    /// How many there are; none where the image ends before.
    pub count: usize,
}

impl<'a> Reason<'a> {
    /// Whether it says all that is wanted, and what is advised at the fault wouldn't help.
    pub fn is_all(&self) -> bool {
        matches!(
            self,
            Reason::Begun
                | Reason::Gone
                | Reason::Applied { .. }
                | Reason::Silent
                | Reason::Another { .. }
                | Reason::Fixed { .. }
                | Reason::Stays
                | Reason::Full { .. }
        )
    }

    /// The reason that the system gave, if it gave one.
    fn of(error: Option<i32>) -> Reason<'a> {
        match error {
            Some(code) => Reason::System(code),
            None => Reason::Unknown,
        }
    }
}

/// The fault that stopped a job, and the file that did it.
#[derive(Clone, Copy)]
pub struct Stopped<'a> {
    /// The fault.
    pub fault: Fault,
    /// The name of the file or the stream; none where no file is known.
    pub file: Option<&'a str>,
    /// Why it did.
    pub reason: Reason<'a>,
}

impl From<Fault> for Stopped<'_> {
    fn from(fault: Fault) -> Self {
        Stopped {
            fault,
            file: None,
            reason: Reason::Unknown,
        }
    }
}

impl<'a> Stopped<'a> {
    /// By a call of a file that failed with this number.
    pub fn by(fault: Fault, file: &'a str, error: Option<i32>) -> Stopped<'a>
        ensures { result.fault ≡ fault }
    {
        Stopped {
            fault,
            file: Some(file),
            reason: Reason::of(error),
        }
    }

    /// By a device, whose last failed call was this.
    pub fn failed(fault: Fault, file: &'a str, call: Option<FailedCall>) -> Stopped<'a>
        ensures { result.fault ≡ fault }
    {
        Stopped {
            fault,
            file: Some(file),
            reason: match call {
                Some(call) => Reason::Call(call),
                None => Reason::Unknown,
            },
        }
    }

    /// By a file that the system didn't open.
    pub fn unopened(file: &'a str, error: io::Error) -> Stopped<'a> {
        Stopped::by(Fault::OpenFailed, file, error.raw_os_error())
    }

    /// By a file that isn't one to be opened.
    pub fn refused(file: &'a str, why: &'static str) -> Stopped<'a> {
        Stopped {
            fault: Fault::OpenFailed,
            file: Some(file),
            reason: Reason::Told(why),
        }
    }

    /// By an image on which what is unfinished wasn't begun.
    pub fn another(image: &'a str) -> Stopped<'a> {
        Stopped {
            fault: Fault::ChangedSince,
            file: Some(image),
            reason: Reason::Another { is_told: true },
        }
    }

    /// By an image that is missing, where changes are kept.
    pub fn gone(fault: Fault, image: &'a str) -> Stopped<'a>
        ensures { result.fault ≡ fault }
    {
        Stopped {
            fault,
            file: Some(image),
            reason: Reason::Gone,
        }
    }

    /// The same stop, or, where the system doesn't let a file be written, that recovery has to.
    pub fn unrecovered(self) -> Stopped<'a>
        ensures { result.fault ≡ self.entry.fault }
    {
        match self.reason {
            Reason::System(code) if is_unwritable(code) => Stopped {
                reason: Reason::Unfinished,
                ..self
            },
            _ => self,
        }
    }

    /// The same, or, where too few changes stand, that one is unfinished beside the image.
    pub fn on_begun(self, image: &'a str) -> Stopped<'a>
        ensures { result.fault ≡ self.entry.fault }
    {
        match self.fault {
            Fault::Session(SessionFault::TooFew { .. } | SessionFault::NothingToRedo { .. }) => {
                Stopped {
                    file: Some(image),
                    reason: Reason::Begun,
                    ..self
                }
            }
            _ => self,
        }
    }

    /// The same, or that the lines of a dump or a patch end as in a text of another system, where that is what isn't read.
    pub fn on_returns(self, file: &'a str) -> Stopped<'a>
        ensures { result.fault ≡ self.entry.fault }
    {
        match self.fault {
            Fault::Patch(
                PatchFault::BadLength { .. }
                | PatchFault::BadCount { .. }
                | PatchFault::OfNoKind { .. },
            )
            | Fault::Read(
                ReadFault::BadAddress { .. }
                | ReadFault::MissingColon { .. }
                | ReadFault::BadPair { .. }
                | ReadFault::NoData { .. },
            )
            | Fault::Patch(
                PatchFault::Line(
                    ReadFault::BadAddress { .. }
                    | ReadFault::MissingColon { .. }
                    | ReadFault::BadPair { .. }
                    | ReadFault::NoData { .. },
                ),
            ) => Stopped {
                file: Some(file),
                reason: Reason::Told(RETURNS),
                ..self
            },
            _ => self,
        }
    }

    /// By an image that isn't the one that the last command on it left.
    pub fn since(file: &'a str, since: Since) -> Stopped<'a> {
        let why = match since {
            Since::Changed => OTHER,
            Since::Between => OLDER,
            Since::Behind => BEHIND,
        };
        Stopped {
            fault: Fault::ChangedSince,
            file: Some(file),
            reason: Reason::Told(why),
        }
    }

    /// By a block device, which can't have the length that a patch brings.
    pub fn fixed(file: &'a str) -> Stopped<'a> {
        Stopped {
            fault: Fault::from(SessionFault::TooLarge),
            file: Some(file),
            reason: Reason::Stays,
        }
    }

    /// By words that aren't any.
    pub fn by_words(why: &'static str) -> Stopped<'a> {
        Stopped {
            fault: Fault::Usage,
            file: None,
            reason: Reason::Told(why),
        }
    }

    /// The same, or that the input was not read, where it is that.
    pub fn on_input(self, file: &'a str, error: Option<i32>) -> Stopped<'a>
        ensures { result.fault ≡ self.entry.fault }
    {
        match self.fault {
            Fault::Io(IoFault::ReadFailed) | Fault::Dd(DdFault::ReadFailed) => {
                Stopped::by(self.fault, file, error)
            }
            _ => self,
        }
    }

    /// The same, or, where the image isn't what a patch expects, that it has what the patch writes already.
    pub fn on_applied(self, image: &'a str, reverse: bool) -> Stopped<'a>
        ensures { result.fault ≡ self.entry.fault }
    {
        match self.fault {
            Fault::Disagrees(_) => Stopped {
                file: Some(image),
                reason: Reason::Applied { reverse },
                ..self
            },
            _ => self,
        }
    }

    /// The same, or by which image, where that isn't to get longer and would.
    pub fn on_growth(self, image: &'a str) -> Stopped<'a>
        ensures { result.fault ≡ self.entry.fault }
    {
        match self.fault {
            Fault::Grows { has, wanted } => Stopped {
                file: Some(image),
                reason: Reason::Longer { has, wanted },
                ..self
            },
            _ => self,
        }
    }

    /// By two files that aren't equal, where no more was asked of them.
    pub fn differing(fault: Fault) -> Stopped<'a>
        ensures { result.fault ≡ fault }
    {
        Stopped {
            fault,
            file: None,
            reason: Reason::Silent,
        }
    }

    /// The same, where the input was read no further than shows that it doesn't fit: how long it is isn't known.
    pub fn on_more_input(self) -> Stopped<'a>
        ensures { result.fault ≡ self.entry.fault }
    {
        match self.reason {
            Reason::Fixed { has, .. } => Stopped {
                reason: Reason::Full { has },
                ..self
            },
            _ => self,
        }
    }

    /// The same, or that standard output was not written, where it is that and isn't said yet.
    pub fn on_output(self, error: Option<i32>) -> Stopped<'a>
        ensures { result.fault ≡ self.entry.fault }
    {
        match (self.fault, self.reason) {
            (_, Reason::Silent) => self,
            (Fault::Io(IoFault::WriteFailed { .. }), _) if self.file.is_none() => {
                Stopped::by(self.fault, STANDARD_OUTPUT, error)
            }
            _ => self,
        }
    }

    /// Whether nothing is written of it: it was asked so, or standard output was not written because nobody reads it any more.
    pub fn is_silent(&self) -> bool {
        match (self.fault, self.reason) {
            (_, Reason::Silent) => true,
            (Fault::Io(IoFault::WriteFailed { .. }), Reason::System(code)) => {
                io::Error::from_raw_os_error(code).kind() == ErrorKind::BrokenPipe
            }
            _ => false,
        }
    }
}

/// Whether the system's number says that a file may not be written.
fn is_unwritable(code: i32) -> bool {
    matches!(
        io::Error::from_raw_os_error(code).kind(),
        ErrorKind::PermissionDenied | ErrorKind::ReadOnlyFilesystem
    )
}
