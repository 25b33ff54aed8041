//! What the one call answers, in the words of the cases.
use bx_cli_commands::{Fault, Reply};
use bx_journal::RecoveryOutcome;
use bx_run::{Cause, CommandFile, Done, Failure};
use bx_world::{FileRole, OpenError};

/// How a command ended.
#[derive(Clone, Copy)]
pub struct Ended {
    /// The reply to a change; none of a move, which writes what it has to tell. Or the fault that stopped it.
    pub outcome: Result<Option<Reply>, Fault>,
    /// Why the files were not opened; none where they were.
    pub unopened: Option<OpenError>,
    /// What opening found unfinished; none where it was refused, and where the files were not opened.
    pub how: Option<RecoveryOutcome>,
}

/// Which of two or three files it is that has a part in a command.
pub fn which_of(file: CommandFile) -> FileRole {
    match file {
        CommandFile::Image | CommandFile::Old => FileRole::Image,
        CommandFile::Journal | CommandFile::New => FileRole::Journal,
        CommandFile::Redo => FileRole::Redo,
    }
}

/// The file that was not opened, where one wasn't.
fn unopened_by(failure: Failure) -> Option<OpenError> {
    let stop = failure.stop?;
    match stop.cause {
        Cause::Unopened(why) => Some(OpenError {
            which: which_of(stop.file),
            why,
        }),
        Cause::Unplaced(_)
        | Cause::Failed
        | Cause::Unfinished
        | Cause::Another
        | Cause::Outgrown(_) => None,
    }
}

/// The reply to a change that is done.
fn reply_to(done: Done) -> Option<Reply> {
    let number = done.standing?;
    Some(match done.counts {
        Some(counts) => Reply::Copied { number, counts },
        None => Reply::Changed { number },
    })
}

/// How a command ended that was answered so.
pub fn end_of(answer: Result<Done, Failure>) -> Ended {
    match answer {
        Ok(done) => Ended {
            outcome: Ok(reply_to(done)),
            unopened: None,
            how: done.how,
        },
        Err(failure) => Ended {
            outcome: Err(failure.fault),
            unopened: unopened_by(failure),
            how: failure.how,
        },
    }
}
