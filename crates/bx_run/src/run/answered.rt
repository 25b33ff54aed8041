//! What is answered of how a command ended.
ghost use Rattle.std.specs.Prelude.{◌≡◌};
ghost use Rattle.bx_run.specs.run.Answer.{answer_by, counts_by, diff_stop, dump_stop, dumped_by, how_by, look_stop, outgrown_stop, preview_stop, renewed_stop, role_of, standing_by, step_by, stop_by, task_stop};
ghost use Rattle.bx_run.specs.run.Outcome.{grown_fault};

use crate::renew::Renewed;
use crate::run::answer::{Cause, CommandFile, Done, Failure, Step, Stop};
use crate::run::outcome::Outcome;
use bx_cli_commands::{Done as Dump, Fault};
use bx_dd::Counts;
use bx_journal::{RecoveryOutcome, SessionFault};
use bx_patch::DiffFault;
use bx_run_report::{DumpError, ReportError};
use bx_run_session::{DiffError, PreviewError};
use bx_world::{FileRole, OpenError, OpenFailure, Outgrown};

/// What opening the image found unfinished.
fn how_of(outcome: &Outcome) -> Option<RecoveryOutcome>
    ensures { result ≡ how_by outcome.now }
{
    match outcome {
        Outcome::Moved(moved) => moved.how,
        Outcome::Changed(answer)
        | Outcome::Renewed(Renewed::Kept(answer) | Renewed::Changed(answer)) => answer.how,
        Outcome::Renewed(Renewed::Undropped(_))
        | Outcome::Dumped(_)
        | Outcome::Compared(_)
        | Outcome::Previewed(_)
        | Outcome::Looked(_)
        | Outcome::Forgotten(_) => None,
    }
}

/// How many changes stand behind a change.
fn standing_of(outcome: &Outcome) -> Option<u32>
    ensures { result ≡ standing_by outcome.now }
{
    match outcome {
        Outcome::Changed(answer)
        | Outcome::Renewed(Renewed::Kept(answer) | Renewed::Changed(answer)) => {
            answer.reply.standing().ok()
        }
        Outcome::Renewed(Renewed::Undropped(_))
        | Outcome::Moved(_)
        | Outcome::Dumped(_)
        | Outcome::Compared(_)
        | Outcome::Previewed(_)
        | Outcome::Looked(_)
        | Outcome::Forgotten(_) => None,
    }
}

/// How many bytes were dumped.
fn dumped_of(outcome: &Outcome) -> Option<u64>
    ensures { result ≡ dumped_by outcome.now }
{
    match outcome {
        Outcome::Dumped(Ok(Dump::Dumped(count))) => Some(*count),
        Outcome::Dumped(Ok(Dump::Copied(_)) | Err(_))
        | Outcome::Moved(_)
        | Outcome::Changed(_)
        | Outcome::Renewed(_)
        | Outcome::Compared(_)
        | Outcome::Previewed(_)
        | Outcome::Looked(_)
        | Outcome::Forgotten(_) => None,
    }
}

/// What dd counted.
fn counts_of(outcome: &Outcome) -> Option<Counts>
    ensures { result ≡ counts_by outcome.now }
{
    match outcome {
        Outcome::Changed(answer)
        | Outcome::Renewed(Renewed::Kept(answer) | Renewed::Changed(answer)) => {
            answer.reply.counts()
        }
        Outcome::Dumped(Ok(Dump::Copied(counts))) => Some(*counts),
        Outcome::Previewed(Ok(counts)) => *counts,
        Outcome::Dumped(Ok(Dump::Dumped(_)) | Err(_))
        | Outcome::Previewed(Err(_))
        | Outcome::Renewed(Renewed::Undropped(_))
        | Outcome::Moved(_)
        | Outcome::Compared(_)
        | Outcome::Looked(_)
        | Outcome::Forgotten(_) => None,
    }
}

/// The step that a command ended in.
fn step_of(outcome: &Outcome) -> Step
    ensures { result ≡ step_by outcome.now }
{
    match outcome {
        Outcome::Renewed(Renewed::Kept(_)) => Step::Opening,
        Outcome::Renewed(Renewed::Undropped(_)) => Step::Dropping,
        Outcome::Renewed(Renewed::Changed(_))
        | Outcome::Moved(_)
        | Outcome::Changed(_)
        | Outcome::Dumped(_)
        | Outcome::Compared(_)
        | Outcome::Previewed(_)
        | Outcome::Looked(_)
        | Outcome::Forgotten(_) => Step::Work,
    }
}

/// What one of the three files of an image is to a command.
fn role_of(which: FileRole) -> CommandFile
    ensures { result ≡ role_of which }
{
    match which {
        FileRole::Image => CommandFile::Image,
        FileRole::Journal => CommandFile::Journal,
        FileRole::Redo => CommandFile::Redo,
    }
}

/// The file of an image that was not opened, where one wasn't.
fn stop_of_task(unopened: Option<OpenError>) -> Option<Stop>
    ensures { result ≡ task_stop unopened }
{
    match unopened {
        None => None,
        Some(OpenError { which, why }) => Some(Stop {
            file: role_of(which),
            cause: Cause::Unopened(why),
        }),
    }
}

/// The file that stopped a dump.
fn stop_of_dump(undumped: DumpError) -> Option<Stop>
    ensures { result ≡ dump_stop undumped }
{
    let cause = match undumped {
        DumpError::Unopened(refusal) => Cause::Unopened(OpenFailure::System(refusal)),
        DumpError::Unplaced(refusal) => Cause::Unplaced(refusal),
        DumpError::Stopped(_) => return None,
    };
    Some(Stop {
        file: CommandFile::Image,
        cause,
    })
}

/// The file that stopped a comparison.
fn stop_of_diff(undiffed: DiffError) -> Option<Stop>
    ensures { result ≡ diff_stop undiffed }
{
    let (file, cause) = match undiffed {
        DiffError::OldUnopened(why) => (CommandFile::Old, Cause::Unopened(why)),
        DiffError::NewUnopened(why) => (CommandFile::New, Cause::Unopened(why)),
        DiffError::Stopped(DiffFault::OldFailed) => (CommandFile::Old, Cause::Failed),
        DiffError::Stopped(DiffFault::NewFailed) => (CommandFile::New, Cause::Failed),
        DiffError::Stopped(
            DiffFault::NoMemory | DiffFault::TooLarge | DiffFault::WriteFailed { .. },
        ) => return None,
    };
    Some(Stop { file, cause })
}

/// The image, where it stopped the patch of a change that isn't made.
fn stop_of_preview(unpreviewed: PreviewError) -> Option<Stop>
    ensures { result ≡ preview_stop unpreviewed }
{
    let cause = match unpreviewed {
        PreviewError::Unopened(why) => Cause::Unopened(why),
        PreviewError::Unfitting { has, wanted } => Cause::Outgrown(Outgrown { has, wanted }),
        PreviewError::Stopped(DiffFault::OldFailed | DiffFault::NewFailed) => Cause::Failed,
        PreviewError::Stopped(
            DiffFault::NoMemory | DiffFault::TooLarge | DiffFault::WriteFailed { .. },
        )
        | PreviewError::Refused(_) => return None,
    };
    Some(Stop {
        file: CommandFile::Image,
        cause,
    })
}

/// The file that stopped a report, or the dropping of a history.
fn stop_of_look(unseen: ReportError) -> Option<Stop>
    ensures { result ≡ look_stop unseen }
{
    let (file, cause) = match unseen {
        ReportError::Unopened(unopened) => (role_of(unopened.which), Cause::Unopened(unopened.why)),
        ReportError::Unfinished => (CommandFile::Image, Cause::Unfinished),
        ReportError::Another => (CommandFile::Image, Cause::Another),
        ReportError::Stopped(_) => return None,
    };
    Some(Stop { file, cause })
}

/// The file that stopped a change with which a history begins anew.
fn stop_of_renewal(renewed: Renewed) -> Option<Stop>
    ensures { result ≡ renewed_stop renewed }
{
    match renewed {
        Renewed::Kept(answer) | Renewed::Changed(answer) => stop_of_task(answer.unopened),
        Renewed::Undropped(unseen) => stop_of_look(unseen),
    }
}

/// The file that stopped a command.
fn stop_of(outcome: &Outcome) -> Option<Stop>
    ensures { result ≡ stop_by outcome.now }
{
    match outcome {
        Outcome::Moved(moved) => stop_of_task(moved.unopened),
        Outcome::Changed(answer) => stop_of_task(answer.unopened),
        Outcome::Renewed(renewed) => stop_of_renewal(*renewed),
        Outcome::Dumped(Err(undumped)) => stop_of_dump(*undumped),
        Outcome::Compared(Err(undiffed)) => stop_of_diff(*undiffed),
        Outcome::Previewed(Err(unpreviewed)) => stop_of_preview(*unpreviewed),
        Outcome::Looked(Err(unseen)) | Outcome::Forgotten(Err(unseen)) => stop_of_look(*unseen),
        Outcome::Dumped(Ok(_))
        | Outcome::Compared(Ok(()))
        | Outcome::Previewed(Ok(_))
        | Outcome::Looked(Ok(()))
        | Outcome::Forgotten(Ok(())) => None,
    }
}

/// The file that stopped a command with a fault, which is the image where that was refused a length that it can't have.
fn stop_with(outcome: &Outcome, outgrown: Option<Outgrown>, fault: Fault) -> Option<Stop>
    ensures { result ≡ outgrown_stop outgrown fault (stop_by outcome.now) }
{
    match (outgrown, fault) {
        (Some(outgrown), Fault::Session(SessionFault::NoMemory)) => Some(Stop {
            file: CommandFile::Image,
            cause: Cause::Outgrown(outgrown),
        }),
        (_, _) => stop_of(outcome),
    }
}

/// The fault where an image was refused a length that it can't have: no memory is short then, but the change is too large.
fn fault_of_growth(outgrown: Option<Outgrown>, fault: Fault) -> Fault
    ensures { result ≡ grown_fault outgrown fault }
{
    match (outgrown, fault) {
        (Some(_), Fault::Session(SessionFault::NoMemory)) => {
            Fault::Session(SessionFault::TooLarge)
        }
        (_, fault) => fault,
    }
}

/// What is answered of a command that ended so: what it tells that is done, or its fault, and the file that stopped it. The world says
/// whether the image was refused a length that it can't have.
pub fn answer_of(outcome: &Outcome, outgrown: Option<Outgrown>) -> Result<Done, Failure>
    ensures { result ≡ answer_by outgrown outcome.now }
{
    match outcome.ended() {
        Ok(()) => Ok(Done {
            how: how_of(outcome),
            standing: standing_of(outcome),
            dumped: dumped_of(outcome),
            counts: counts_of(outcome),
        }),
        Err(fault) => Err(Failure {
            fault: fault_of_growth(outgrown, fault),
            stop: stop_with(outcome, outgrown, fault),
            step: step_of(outcome),
            how: how_of(outcome),
        }),
    }
}
