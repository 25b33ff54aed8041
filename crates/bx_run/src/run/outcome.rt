//! How a command ended, as the crate says it that did it, and in which fault.
ghost use Rattle.std.specs.Prelude.{◌≡◌};
ghost use Rattle.bx_cli_commands.specs.Replies.{stands_by};
ghost use Rattle.bx_run.specs.run.Outcome.{diff_fault, ended_by, ended_with, look_fault, dump_fault, preview_fault, renewed_end, stop_fault, task_fault, unopened_fault};

use crate::renew::Renewed;
use bx_cli_commands::{Done as Dump, Fault};
use bx_dd::Counts;
use bx_journal::SessionFault;
use bx_patch::DiffFault;
use bx_run_report::{DumpError, ReportError};
use bx_run_session::{Answer, DiffError, Moved, PreviewError};
use bx_text::IoFault;
use bx_world::{OpenError, OpenFailure};

/// How a command ended.
#[derive(Drop)]
pub enum Outcome {
    /// Of an undo or a redo.
    Moved(Moved<()>),
    /// Of a change.
    Changed(Answer),
    /// Of a dump: what was dumped, or why it is not whole.
    Dumped(Result<Dump, DumpError>),
    /// Of a comparison: that the patch is whole, or why not.
    Compared(Result<(), DiffError>),
    /// Of a change that isn't made: dd's counts, where it is dd's, or why its patch is not whole.
    Previewed(Result<Option<Counts>, PreviewError>),
    /// Of a report: that it is whole, or why not.
    Looked(Result<(), ReportError>),
    /// Of a history: that it is dropped, or why not.
    Forgotten(Result<(), ReportError>),
    /// Of a change with which a history begins anew.
    Renewed(Renewed),
}

/// The fault of a file that was not opened, or is another image.
fn fault_of_unopened(why: OpenFailure) -> Fault
    ensures { result ≡ unopened_fault why }
{
    match why {
        OpenFailure::System(_) | OpenFailure::Unfit(_) | OpenFailure::Alias => Fault::OpenFailed,
        OpenFailure::Another => Fault::ChangedSince,
    }
}

/// The fault of a task on files, which is that of a file that was not opened, where one wasn't.
fn fault_of_task(unopened: Option<OpenError>, fault: Fault) -> Fault
    ensures { result ≡ task_fault unopened fault }
{
    match unopened {
        None => fault,
        Some(file) => fault_of_unopened(file.why),
    }
}

/// How a task on files ended.
fn end_of_task(answer: Answer) -> Result<(), Fault>
    ensures { result ≡ ended_with (task_fault answer.unopened) (stands_by answer.reply) }
{
    match answer.reply.standing() {
        Ok(_) => Ok(()),
        Err(fault) => Err(fault_of_task(answer.unopened, fault)),
    }
}

/// How an undo or a redo ended.
fn end_of_move(moved: &Moved<()>) -> Result<(), Fault>
    ensures { result ≡ ended_with (task_fault moved.now.unopened) moved.now.outcome }
{
    match moved.outcome {
        Ok(()) => Ok(()),
        Err(fault) => Err(fault_of_task(moved.unopened, fault)),
    }
}

/// The fault of a dump that is not whole.
fn fault_of_dump(undumped: DumpError) -> Fault
    ensures { result ≡ dump_fault undumped }
{
    match undumped {
        DumpError::Unopened(_) => Fault::OpenFailed,
        DumpError::Unplaced(_) => Fault::Io(IoFault::ReadFailed),
        DumpError::Stopped(fault) => fault,
    }
}

/// The fault of a patch that is not whole.
fn fault_of_diff(undiffed: DiffError) -> Fault
    ensures { result ≡ diff_fault undiffed }
{
    match undiffed {
        DiffError::OldUnopened(why) | DiffError::NewUnopened(why) => fault_of_unopened(why),
        DiffError::Stopped(DiffFault::NoMemory) => Fault::Io(IoFault::NoMemory),
        DiffError::Stopped(DiffFault::TooLarge) => Fault::Session(SessionFault::TooLarge),
        DiffError::Stopped(DiffFault::OldFailed | DiffFault::NewFailed) => {
            Fault::Io(IoFault::ReadFailed)
        }
        DiffError::Stopped(DiffFault::WriteFailed { written }) => {
            Fault::Io(IoFault::WriteFailed { written })
        }
    }
}

/// The fault of a comparison that a preview makes.
fn fault_of_stop(fault: DiffFault) -> Fault
    ensures { result ≡ stop_fault fault }
{
    match fault {
        DiffFault::NoMemory => Fault::Io(IoFault::NoMemory),
        DiffFault::TooLarge => Fault::Session(SessionFault::TooLarge),
        DiffFault::OldFailed | DiffFault::NewFailed => Fault::Session(SessionFault::DeviceFailed),
        DiffFault::WriteFailed { written } => Fault::Io(IoFault::WriteFailed { written }),
    }
}

/// The fault of the patch of a change that isn't made.
fn fault_of_preview(unpreviewed: PreviewError) -> Fault
    ensures { result ≡ preview_fault unpreviewed }
{
    match unpreviewed {
        PreviewError::Unopened(why) => fault_of_unopened(why),
        PreviewError::Refused(fault) => fault,
        PreviewError::Unfitting { .. } => Fault::Session(SessionFault::TooLarge),
        PreviewError::Stopped(fault) => fault_of_stop(fault),
    }
}

/// The fault of a report that is not whole.
fn fault_of_look(unseen: ReportError) -> Fault
    ensures { result ≡ look_fault unseen }
{
    match unseen {
        ReportError::Unopened(file) => fault_of_unopened(file.why),
        ReportError::Unfinished => Fault::Session(SessionFault::Interrupted),
        ReportError::Another => Fault::ChangedSince,
        ReportError::Stopped(fault) => fault,
    }
}

/// How a change ended with which a history begins anew.
fn end_of_renewal(renewed: Renewed) -> Result<(), Fault>
    ensures { result ≡ renewed_end renewed }
{
    match renewed {
        Renewed::Kept(answer) | Renewed::Changed(answer) => end_of_task(answer),
        Renewed::Undropped(unseen) => Err(fault_of_look(unseen)),
    }
}

impl Outcome {
    /// That the command is done, or the fault that it ended in.
    pub fn ended(&self) -> Result<(), Fault>
        ensures { result ≡ ended_by self.now }
    {
        match self {
            Outcome::Moved(moved) => end_of_move(moved),
            Outcome::Changed(answer) => end_of_task(*answer),
            Outcome::Renewed(renewed) => end_of_renewal(*renewed),
            Outcome::Dumped(Ok(_))
            | Outcome::Compared(Ok(()))
            | Outcome::Previewed(Ok(_))
            | Outcome::Looked(Ok(()))
            | Outcome::Forgotten(Ok(())) => Ok(()),
            Outcome::Dumped(Err(undumped)) => Err(fault_of_dump(*undumped)),
            Outcome::Compared(Err(undiffed)) => Err(fault_of_diff(*undiffed)),
            Outcome::Previewed(Err(unpreviewed)) => Err(fault_of_preview(*unpreviewed)),
            Outcome::Looked(Err(unseen)) | Outcome::Forgotten(Err(unseen)) => {
                Err(fault_of_look(*unseen))
            }
        }
    }
}
