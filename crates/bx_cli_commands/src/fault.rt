//! The faults of all crates, with their numbers.
ghost use Rattle.std.specs.Prelude.{◌≡◌};
ghost use Rattle.bx_cli_commands.specs.Fault.{fault_number, stream_fault};
ghost use Rattle.bx_cli_commands.specs.declared.fault.Fault.TheVariants as of;
ghost use Rattle.bx_text.specs.declared.fault.IoFault.TheVariants as io;

use bx_dd::DdFault;
use bx_journal::SessionFault;
use bx_patch::{Other, PatchFault};
use bx_read::ReadFault;
use bx_read_stream::StreamFault;
use bx_text::{IoFault, NoMemory};
use std::alloc::AllocError;
use thiserror::Error;

/// What can stop the program; its text is what the program shows. Want of memory is a fault of each crate's own, with one
/// number and one text: who asks for the kind alone compares numbers.
#[derive(Clone, Copy, Debug, PartialEq, Eq, Error)]
pub enum Fault {
    /// What stopped the reading of an input or the writing of an output; or a growth was refused, of the program's own too.
    #[error(transparent)]
    Io(IoFault),
    /// What is wrong with a dump's text, or with plain hexadecimal; or a growth was refused where it is read.
    #[error(transparent)]
    Read(ReadFault),
    /// A line of a dump begins before the end of what was written to a stream.
    #[error("line {line}: goes back in a stream")]
    Behind {
        /// The line, from 1.
        line: u64,
    },
    /// What is wrong with dd's operands, or stopped the reading of its input onto an image.
    #[error(transparent)]
    Dd(DdFault),
    /// What is wrong with the text of a patch; or a growth was refused where it is read, or taken.
    #[error(transparent)]
    Patch(PatchFault),
    /// What the image has otherwise than a patch expects.
    #[error(transparent)]
    Disagrees(Other),
    /// The patch is read, and its other way round is none that makes the old image of the new one.
    #[error("the patch can't be turned round")]
    NotReversible,
    /// A text was read whole that asks for a change, and has no byte for it.
    #[error("nothing to write")]
    NothingToWrite,
    /// What stopped a call of a session, or its opening.
    #[error(transparent)]
    Session(SessionFault),
    /// The image isn't to get longer, and would.
    #[error("the image would get longer")]
    Grows {
        /// How many bytes it has.
        has: u64,
        /// How many it would have.
        wanted: u64,
    },
    /// The image isn't the one that the last command on it left.
    #[error("the image was changed since")]
    ChangedSince,
    /// The words of the command line are wrong.
    #[error("bad arguments")]
    Usage,
    /// A file could not be opened.
    #[error("cannot open file")]
    OpenFailed,
}

impl Fault {
    /// The number by which documents name the fault.
    pub fn number(&self) -> u8
        ensures { result ≡ fault_number self.now }
    {
        match *self {
            Fault::Io(fault) => io_number(fault),
            Fault::Read(fault) => read_number(fault),
            Fault::Behind { .. } => 36,
            Fault::Dd(fault) => dd_number(fault),
            Fault::Patch(fault) => patch_number(fault),
            Fault::Disagrees(other) => other_number(other),
            Fault::NotReversible => 29,
            Fault::NothingToWrite => 32,
            Fault::Session(fault) => session_number(fault),
            Fault::ChangedSince => 48,
            Fault::Grows { .. } => 49,
            Fault::Usage => 50,
            Fault::OpenFailed => 51,
        }
    }
}

fn io_number(fault: IoFault) -> u8
    ensures { result ≡ fault_number (of.Io fault) }
{
    match fault {
        IoFault::NoMemory => 1,
        IoFault::ReadFailed => 2,
        IoFault::WriteFailed { .. } => 3,
        IoFault::InputTooLong => 4,
        IoFault::SkipPastEnd => 5,
    }
}

fn read_number(fault: ReadFault) -> u8
    ensures { result ≡ fault_number (of.Read fault) }
{
    match fault {
        ReadFault::NoMemory => 1,
        ReadFault::BadAddress { .. } => 10,
        ReadFault::MissingColon { .. } => 11,
        ReadFault::BadPair { .. } => 12,
        ReadFault::NoData { .. } => 13,
        ReadFault::TooWide { .. } => 14,
        ReadFault::AddressTooLarge { .. } => 15,
        ReadFault::OddDigits { .. } => 16,
    }
}

fn dd_number(fault: DdFault) -> u8
    ensures { result ≡ fault_number (of.Dd fault) }
{
    match fault {
        DdFault::NoMemory => 1,
        DdFault::ReadFailed => 2,
        DdFault::InputTooLong => 4,
        DdFault::UnknownOperand(_) => 20,
        DdFault::BadNumber(_) => 21,
        DdFault::NumberTooLarge(_) => 22,
        DdFault::ZeroSize(_) => 23,
        DdFault::Conflict => 24,
        DdFault::MissingCbs => 25,
        DdFault::Repeated(_) => 26,
        DdFault::SeekWithoutOutput => 27,
    }
}

fn patch_number(fault: PatchFault) -> u8
    ensures { result ≡ fault_number (of.Patch fault) }
{
    match fault {
        PatchFault::NoMemory => 1,
        PatchFault::Line(fault) => read_number(fault),
        PatchFault::OfNoKind { .. } => 17,
        PatchFault::BadLength { .. } => 18,
        PatchFault::PastLength { .. } => 19,
        PatchFault::NoEnd => 28,
        PatchFault::BadCount { .. } => 35,
    }
}

fn other_number(other: Other) -> u8
    ensures { result ≡ fault_number (of.Disagrees other) }
{
    match other {
        Other::Bytes { .. } => 34,
        Other::Length { .. } => 45,
    }
}

fn session_number(fault: SessionFault) -> u8
    ensures { result ≡ fault_number (of.Session fault) }
{
    match fault {
        SessionFault::NoMemory => 1,
        SessionFault::TooLarge => 30,
        SessionFault::DeviceFailed => 31,
        SessionFault::Damaged { .. } => 40,
        SessionFault::TooFew { .. } => 41,
        SessionFault::JournalFull => 42,
        SessionFault::Interrupted => 43,
        SessionFault::Broken => 44,
        SessionFault::LengthDiffers { .. } => 45,
        SessionFault::NothingToRedo { .. } => 46,
        SessionFault::RedoDamaged { .. } => 47,
    }
}

impl From<NoMemory> for Fault {
    ghost from_gives = { λ _ f. f ≡ of.Io io.NoMemory };

    fn from(_: NoMemory) -> Self {
        Fault::Io(IoFault::NoMemory)
    }
}

impl From<AllocError> for Fault {
    ghost from_gives = { λ _ f. f ≡ of.Io io.NoMemory };

    fn from(_: AllocError) -> Self {
        Fault::Io(IoFault::NoMemory)
    }
}

impl From<IoFault> for Fault {
    ghost from_gives = { λ e f. f ≡ of.Io e };

    fn from(fault: IoFault) -> Self {
        Fault::Io(fault)
    }
}

impl From<ReadFault> for Fault {
    ghost from_gives = { λ e f. f ≡ of.Read e };

    fn from(fault: ReadFault) -> Self {
        Fault::Read(fault)
    }
}

impl From<StreamFault> for Fault {
    ghost from_gives = { λ e f. f ≡ stream_fault e };

    fn from(fault: StreamFault) -> Self {
        match fault {
            StreamFault::Read(fault) => Fault::Read(fault),
            StreamFault::Behind { line } => Fault::Behind { line },
            StreamFault::Io(fault) => Fault::Io(fault),
        }
    }
}

impl From<DdFault> for Fault {
    ghost from_gives = { λ e f. f ≡ of.Dd e };

    fn from(fault: DdFault) -> Self {
        Fault::Dd(fault)
    }
}

impl From<PatchFault> for Fault {
    ghost from_gives = { λ e f. f ≡ of.Patch e };

    fn from(fault: PatchFault) -> Self {
        Fault::Patch(fault)
    }
}

impl From<SessionFault> for Fault {
    ghost from_gives = { λ e f. f ≡ of.Session e };

    fn from(fault: SessionFault) -> Self {
        Fault::Session(fault)
    }
}
