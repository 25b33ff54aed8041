//! What a command on named files answers.
use bx_cli_commands::Fault;
use bx_dd::Counts;
use bx_journal::RecoveryOutcome;
use bx_world::{OpenFailure, Outgrown, Refusal};

/// What a command tells that is done.
#[derive(Clone, Copy, Debug, PartialEq, Eq)]
pub struct Done {
    /// What opening the image found unfinished, and recovered; none of a command that changes no image.
    pub how: Option<RecoveryOutcome>,
    /// How many changes stand behind a change of an image; none of another command.
    pub standing: Option<u32>,
    /// How many bytes were dumped; none of another command, and of `dd`.
    pub dumped: Option<u64>,
    /// What `dd` counted; none of another command, and of a change that was read before.
    pub counts: Option<Counts>,
}

/// Which of the files that a command names.
#[derive(Clone, Copy, Debug, PartialEq, Eq)]
pub enum CommandFile {
    /// The image, or the file that is dumped.
    Image,
    /// The image's journal.
    Journal,
    /// Its redo text.
    Redo,
    /// The file that a patch is for.
    Old,
    /// What a patch makes of it.
    New,
}

/// What a file did.
#[derive(Clone, Copy, Debug, PartialEq, Eq)]
pub enum Cause {
    /// It was not opened, or it isn't the image that the journal was written beside.
    Unopened(OpenFailure),
    /// It was opened, and could not be placed behind the bytes that are skipped.
    Unplaced(Refusal),
    /// A call of it as a device failed.
    Failed,
    /// A change of it is unfinished, and only a command that may write recovers it.
    Unfinished,
    /// A change is unfinished that was made on another image, or may have been.
    Another,
    /// It can't grow as far as it was to.
    Outgrown(Outgrown),
}

/// The file that stopped a command, and by what.
#[derive(Clone, Copy, Debug, PartialEq, Eq)]
pub struct Stop {
    /// The file.
    pub file: CommandFile,
    /// What it did.
    pub cause: Cause,
}

/// The step in which a command ended. All but a change with which a history begins anew have one alone, their work.
#[derive(Clone, Copy, Debug, PartialEq, Eq)]
pub enum Step {
    /// The files were opened to be changed, and the history was kept.
    Opening,
    /// The history was dropped, but for what stopped that.
    Dropping,
    /// The work that was asked for; where it begins a history, the one before it was dropped.
    Work,
}

/// Why a command is not done: the one fault that the program writes, and makes its status of.
#[derive(Clone, Copy, Debug, PartialEq, Eq)]
pub struct Failure {
    /// The fault that it ended in.
    pub fault: Fault,
    /// The file that stopped it; none where the fault says all.
    pub stop: Option<Stop>,
    /// The step that it ended in.
    pub step: Step,
    /// What opening the image found unfinished, and recovered; none where it was refused, and of a command that changes no image.
    pub how: Option<RecoveryOutcome>,
}
