//! Why the changes of an image are not shown.
ghost use Rattle.std.specs.Prelude.{◌≡◌};
ghost use Rattle.bx_run_report.specs.report.Looks.{unseen_of};

use bx_cli_commands::Fault;
use bx_journal::SessionFault;
use bx_world::OpenError;

/// Why the changes of an image are not shown.
#[derive(Clone, Copy, Debug, PartialEq, Eq)]
pub enum ReportError {
    /// A file was not opened.
    Unopened(OpenError),
    /// A change is unfinished, and only a command that may write recovers it.
    Unfinished,
    /// A change is unfinished that was made on another image, or may have been.
    Another,
    /// Another fault stopped it.
    Stopped(Fault),
}

/// What an opening that was refused says. One that was interrupted began to recover what is unfinished.
pub fn reason_of(fault: SessionFault) -> ReportError
    ensures { result ≡ unseen_of fault }
{
    match fault {
        SessionFault::Interrupted => ReportError::Unfinished,
        SessionFault::NoMemory
        | SessionFault::TooLarge
        | SessionFault::DeviceFailed
        | SessionFault::Damaged { .. }
        | SessionFault::TooFew { .. }
        | SessionFault::JournalFull
        | SessionFault::Broken
        | SessionFault::LengthDiffers { .. }
        | SessionFault::NothingToRedo { .. }
        | SessionFault::RedoDamaged { .. } => ReportError::Stopped(Fault::Session(fault)),
    }
}
