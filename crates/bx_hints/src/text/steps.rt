//! How many changes stand and are undone: before a command, behind it, and where it was stopped.
use crate::text::commands::operands_of;
use crate::text::quoted::quoted;
use bx_cli_commands::{ChangeJob, Job, StepsJob, Target};
use bx_journal::Direction;
use std::alloc::{AllocError, Global};

/// The last entry of a text.
#[derive(Clone, Copy)]
pub enum Tail {
    /// It is finished, and has this number; 0 where there is none, and where the text is missing.
    Finished(u32),
    /// It is unfinished behind its `save` line, and has this number.
    Begun(u32),
    /// What it is isn't known.
    Unknown,
}

impl Tail {
    /// How many finished entries stand in the text, where that is known.
    pub fn finished(self) -> Option<u32> {
        match self {
            Tail::Finished(number) => Some(number),
            Tail::Begun(number) => Some(number.saturating_sub(1)),
            Tail::Unknown => None,
        }
    }
}

/// The ends of a journal and its redo file.
#[derive(Clone, Copy)]
pub struct Standing {
    /// The journal's.
    pub journal: Tail,
    /// The redo file's.
    pub redo: Tail,
}

impl Standing {
    /// How many changes a history has that is dropped, and how many that are undone; what is unfinished is recovered before,
    /// and nothing is undone then.
    fn dropped(self) -> Option<(u32, u32)> {
        let changes = self.journal.finished()?;
        let undone = match self.journal {
            Tail::Finished(_) => self.redo.finished()?,
            Tail::Begun(_) | Tail::Unknown => 0,
        };
        Some((changes, undone))
    }
}

/// Says of an undo or a redo, behind a recovery, that it first took back what was unfinished, and what it then did.
pub fn tell_of_begun<R: Eprint + AllocGlobal>(
    rt: &R,
    standing: &Standing,
    way: Direction,
    job: &StepsJob,
) {
    let Tail::Begun(number) = standing.journal else {
        return;
    };
    if job.count == 0 {
        return;
    }
    if let Ok(text) = begun_text(rt.alloc(), &job.target, way, number) {
        let _ = eprintln!(rt; "hint: {text}");
    }
}

/// What is said of it.
fn begun_text(
    alloc: Global,
    target: &Target,
    way: Direction,
    number: u32,
) -> Result<String, AllocError> {
    let name = quoted(alloc, target.image.as_str())?;
    match way {
        Direction::Undo => {
            let operands = operands_of(alloc, target)?;
            format!(in alloc;
                "{name}: change {number} is unfinished and is taken back first, and then the undo is made too; where it was an undo that was stopped, bx undo -k 0{operands} would have finished it alone"
            )
        }
        Direction::Redo => {
            format!(in alloc;
                "{name}: change {number} is unfinished and is taken back first, and then nothing can be made again"
            )
        }
    }
}

/// Says which changes were taken back or made again, and how many are left.
pub fn tell_of_steps<R>(rt: &R, name: &str, way: Direction, job: &StepsJob, now: &Standing)
where
    R: Eprint + AllocGlobal,
{
    let (Some(changes), Some(undone)) = (now.journal.finished(), now.redo.finished()) else {
        return;
    };
    if job.count == 0 {
        return;
    }
    let text = match way {
        Direction::Undo => undone_text(rt.alloc(), changes, job.count),
        Direction::Redo => redone_text(rt.alloc(), changes, job.count, undone),
    };
    if let Ok(text) = text {
        let _ = eprintln!(rt; "hint: {name}: {text}");
    }
}

/// What is said of `count` changes that were taken back, before which `left` stand.
fn undone_text(alloc: Global, left: u32, count: u32) -> Result<String, AllocError> {
    let last = left.saturating_add(1);
    let first = left.saturating_add(count);
    if count == 1 {
        return format!(in alloc; "change {first} is taken back; left to undo: {left}");
    }
    format!(in alloc; "changes {first} to {last} are taken back; left to undo: {left}")
}

/// The same of changes that were made again; the last has this number.
fn redone_text(alloc: Global, last: u32, count: u32, left: u32) -> Result<String, AllocError> {
    let first = last.saturating_sub(count).saturating_add(1);
    if count == 1 {
        return format!(in alloc; "change {last} is made again; left to redo: {left}");
    }
    format!(in alloc; "changes {first} to {last} are made again; left to redo: {left}")
}

/// Says how much of a history was dropped.
pub fn tell_of_dropped<R: Eprint>(rt: &R, name: &str, standing: &Standing) {
    match standing.dropped() {
        Some((changes, undone)) if changes > 0 || undone > 0 => {
            let _ = eprintln!(rt;
                "hint: {name}: its history is dropped; changes: {changes}, undone: {undone}"
            );
        }
        Some(_) | None => {}
    }
}

/// What is said of an undo or a redo that was stopped in the middle, at the change of this number: what the next command makes of it.
/// None of another job.
pub fn stopped_text(alloc: Global, job: &Job, number: u32) -> Result<Option<String>, AllocError> {
    let (way, target) = match job {
        Job::Change(ChangeJob::Undo(job)) => (Direction::Undo, &job.target),
        Job::Change(ChangeJob::Redo(job)) => (Direction::Redo, &job.target),
        _ => return Ok(None),
    };
    Ok(Some(stopped_at(alloc, target, way, number)?))
}

/// What is said of one that was stopped at this change.
fn stopped_at(
    alloc: Global,
    target: &Target,
    way: Direction,
    number: u32,
) -> Result<String, AllocError> {
    let operands = operands_of(alloc, target)?;
    match way {
        Direction::Undo => format!(in alloc;
            "the undo of change {number} was stopped, and the next command of any kind but bx show finishes it; a second bx undo then takes back one change more, and bx undo -k 0{operands} none"
        ),
        Direction::Redo => format!(in alloc;
            "the redo of change {number} was stopped, and the next command of any kind but bx show takes it back and gives up what was undone; look by bx show{operands}, which writes nothing"
        ),
    }
}
