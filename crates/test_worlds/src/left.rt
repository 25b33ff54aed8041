//! What a command leaves: files, and what was written.
use crate::answers::Ended;
use crate::changes::is_answer;
use crate::moves::move_in;
use crate::plays::{Asked, Play};
use crate::report::Wrong;
use crate::setting::{Held, There, has_other, held_by, there_in, world_of};
use bx_cli_commands::{Fault, Reply};
use bx_dd::DdFault;
use bx_journal::{Direction, RecoveryOutcome, SessionFault};
use bx_text::IoFault;
use bx_world::OpenFailure;
use test_world::{MemoryWorld, Plan};

/// What fails in a play, as far as it decides which faults may be.
#[derive(Clone, Copy, Debug, PartialEq, Eq)]
pub enum Cause {
    /// Calls of the world.
    World,
    /// Calls of a device.
    Device,
    /// Reads of an input.
    Input,
    /// Writes of an output.
    Output,
    /// Calls of a text that is emptied.
    Emptying,
    /// Calls of the world where a history is dropped: one that drops the note may be refused, and the history is gone all the same.
    Dropping,
}

/// How many of the changes may be found moved or made.
#[derive(Clone, Copy)]
pub struct Reach {
    pub least: u32,
    pub most: u32,
}

/// No fewer and no more.
fn exactly(steps: u32) -> Reach {
    Reach {
        least: steps,
        most: steps,
    }
}

fn same(is_same: bool, wrong: Wrong) -> Result<(), Wrong> {
    if is_same { Ok(()) } else { Err(wrong) }
}

/// What is wanted of a text, where the case tells it.
fn is_told(told: &Option<Vec<u8>>, found: &[u8]) -> bool {
    match told {
        Some(text) => text.as_slice() == found,
        None => true,
    }
}

/// The three files are there, and nothing else.
fn are_there(world: &MemoryWorld) -> Result<(), Wrong> {
    same(there_in(world) == There::ALL, Wrong::Files)
}

/// The files hold what the last line of the case tells.
fn are_as_told(play: &Play<'_>, world: &MemoryWorld) -> Result<(), Wrong> {
    let Some(row) = play.last() else {
        return Err(Wrong::Unknown);
    };
    let held = held_by(world);
    let is_same = held.image == row.left.image.as_slice()
        && is_told(&row.left.journal, held.journal)
        && is_told(&row.left.redo, held.redo);
    same(is_same, Wrong::Files)?;
    are_there(world)
}

/// The files hold what they held, and none is there that wasn't but those that the world refused to take away.
fn are_kept(play: &Play<'_>, world: &MemoryWorld) -> Result<(), Wrong> {
    let news = there_in(world).news(play.there);
    same(
        held_by(world).is_same(play.first()) && news == Some(world.stuck()),
        Wrong::Files,
    )
}

/// The image is the one that opening recovers, and its texts are there.
fn are_recovered(play: &Play<'_>, world: &MemoryWorld) -> Result<(), Wrong> {
    same(
        play.image_behind(0) == Some(held_by(world).image),
        Wrong::Files,
    )?;
    are_there(world)
}

/// A front of the number of changes that stand is written; all of it, where it is whole.
fn has_number(play: &Play<'_>, world: &MemoryWorld, is_whole: bool) -> Result<(), Wrong> {
    let number = play.standing_behind(play.count());
    let line = format!(in play.alloc; "{number}\n")?;
    let output = world.output();
    let is_same = if is_whole {
        output == line.as_bytes()
    } else {
        line.as_bytes().starts_with(output)
    };
    same(is_same, Wrong::Streams)
}

/// The reply to a change is what the case tells, and nothing is written.
fn has_reply(play: &Play<'_>, world: &MemoryWorld, reply: Option<Reply>) -> Result<(), Wrong> {
    let (Some(row), Some(reply)) = (play.last(), reply) else {
        return Err(Wrong::Outcome);
    };
    same(is_answer(&row.answer, reply), Wrong::Outcome)?;
    same(world.output().is_empty(), Wrong::Streams)
}

/// What a command answers that is done: a move on standard output, a change by its reply.
fn has_answer(play: &Play<'_>, world: &MemoryWorld, reply: Option<Reply>) -> Result<(), Wrong> {
    match play.asked {
        Asked::Moves { .. } => has_number(play, world, true),
        Asked::Change => has_reply(play, world, reply),
    }
}

/// What is said of a recovery.
fn recovered_text(play: &Play<'_>, how: RecoveryOutcome) -> Result<String, Wrong> {
    match how {
        RecoveryOutcome::Clean => Ok(String::new(play.alloc)),
        RecoveryOutcome::Dropped => {
            Ok(format!(in play.alloc; "bx: recovered: an unfinished entry was dropped\n")?)
        }
        RecoveryOutcome::Restored { number } => {
            Ok(format!(in play.alloc; "bx: recovered: change {number} was taken back\n")?)
        }
    }
}

/// What was recovered is what the case tells, and is said; where the files weren't opened nothing is.
fn has_recovered(
    play: &Play<'_>,
    world: &MemoryWorld,
    how: Option<RecoveryOutcome>,
) -> Result<(), Wrong> {
    let Some(how) = how else {
        return same(world.errors().is_empty(), Wrong::Streams);
    };
    same(how == play.how(), Wrong::Outcome)?;
    let line = recovered_text(play, how)?;
    same(world.errors() == line.as_bytes(), Wrong::Streams)
}

/// Whether the fault is the one that the case tells, or that of a call which failed.
fn is_due(play: &Play<'_>, cause: Cause, ended: &Ended, fault: Fault) -> Result<bool, Wrong> {
    match fault {
        Fault::OpenFailed | Fault::ChangedSince => {
            Ok(cause == Cause::World && ended.unopened.is_some())
        }
        // the note that keeps an older line is a device that failed, though a call of the world did
        Fault::Session(SessionFault::DeviceFailed) => {
            Ok(cause == Cause::Device || cause == Cause::World)
        }
        Fault::Dd(DdFault::ReadFailed) => Ok(cause == Cause::Input),
        fault => {
            let text = format!(in play.alloc; "{fault}")?;
            Ok(play.fault() == Some(text.as_str()))
        }
    }
}

/// The command was refused: files are as they were, unless something was recovered.
fn is_refused(
    play: &Play<'_>,
    world: &MemoryWorld,
    cause: Cause,
    ended: &Ended,
    fault: Fault,
) -> Result<Reach, Wrong> {
    same(is_due(play, cause, ended, fault)?, Wrong::Outcome)?;
    same(world.output().is_empty(), Wrong::Streams)?;
    match ended.how {
        None | Some(RecoveryOutcome::Clean) => are_kept(play, world)?,
        Some(RecoveryOutcome::Dropped | RecoveryOutcome::Restored { .. }) => are_recovered(
            play, world,
        )?,
    }
    Ok(exactly(0))
}

/// The command is done.
fn is_done(play: &Play<'_>, world: &MemoryWorld, ended: &Ended) -> Result<Reach, Wrong> {
    same(
        play.fault().is_none() && ended.how.is_some(),
        Wrong::Outcome,
    )?;
    are_as_told(play, world)?;
    Ok(exactly(play.count()))
}

/// The command was stopped in the middle: nothing that it made is taken away.
fn is_interrupted(play: &Play<'_>, world: &MemoryWorld, cause: Cause) -> Result<Reach, Wrong> {
    same(cause == Cause::Device, Wrong::Outcome)?;
    same(world.output().is_empty(), Wrong::Streams)?;
    are_there(world)?;
    let most = match play.fault() {
        Some(_) => 0,
        None => play.count(),
    };
    Ok(Reach { least: 0, most })
}

/// The number of a move that is done can't be written in full.
fn is_unwritten(
    play: &Play<'_>,
    world: &MemoryWorld,
    cause: Cause,
    ended: &Ended,
) -> Result<Reach, Wrong> {
    let is_move = matches!(play.asked, Asked::Moves { .. });
    same(is_move && cause == Cause::World, Wrong::Outcome)?;
    has_number(play, world, false)?;
    is_done(play, world, ended)
}

/// The command ended as it may, by its outcome.
fn ended_so(
    play: &Play<'_>,
    world: &MemoryWorld,
    cause: Cause,
    ended: &Ended,
) -> Result<Reach, Wrong> {
    match ended.outcome {
        Ok(reply) => {
            has_answer(play, world, reply)?;
            is_done(play, world, ended)
        }
        Err(Fault::Io(IoFault::WriteFailed { .. })) => is_unwritten(play, world, cause, ended),
        Err(Fault::Session(SessionFault::Interrupted)) => is_interrupted(play, world, cause),
        Err(fault) => is_refused(play, world, cause, ended, fault),
    }
}

/// Whether the image counts as another one, as it does behind a stop where the note can't be read, which counts as no refusal.
fn is_another(ended: &Ended) -> bool {
    ended
        .unopened
        .is_some_and(|unopened| unopened.why == OpenFailure::Another)
}

/// A command ended as it may, and left what it may. Tells what may be found behind it.
pub fn judge(
    play: &Play<'_>,
    world: &MemoryWorld,
    cause: Cause,
    ended: &Ended,
) -> Result<Reach, Wrong> {
    same(has_other(world), Wrong::Files)?;
    let is_unopened = matches!(ended.outcome, Err(Fault::OpenFailed | Fault::ChangedSince));
    same(ended.unopened.is_some() == is_unopened, Wrong::Unopened)?;
    let is_unread = cause == Cause::World && is_another(ended);
    same(
        !is_unopened || world.was_refused() || is_unread,
        Wrong::Unopened,
    )?;
    has_recovered(play, world, ended.how)?;
    ended_so(play, world, cause, ended)
}

/// Whether no call failed, and the command ended as the case tells.
pub fn is_as_told(play: &Play<'_>, world: &MemoryWorld, ended: &Ended) -> Result<bool, Wrong> {
    let is_told = match ended.outcome {
        Ok(_) => true,
        Err(fault) => {
            let text = format!(in play.alloc; "{fault}")?;
            play.fault() == Some(text.as_str())
        }
    };
    Ok(is_told && !world.was_refused() && world.stuck() == 0)
}

/// Whether opening found the first `steps` changes moved or made: the number that stands, and the image behind them.
fn is_behind(play: &Play<'_>, world: &MemoryWorld, steps: u32) -> Result<bool, Wrong> {
    let number = play.standing_behind(steps);
    let line = format!(in play.alloc; "{number}\n")?;
    let image = Some(held_by(world).image);
    Ok(world.output() == line.as_bytes() && image == play.image_behind(steps))
}

/// Opens what is left in a world, by an undo of no change, which finds an image that it may.
fn finds_in(play: &Play<'_>, world: &mut MemoryWorld, reach: Reach) -> Result<(), Wrong> {
    let moved = move_in(
        world,
        play.alloc,
        &play.names,
        Plan::NOTHING,
        Direction::Undo,
        0,
    );
    same(moved.is_ok(), Wrong::Found)?;
    for steps in reach.least..reach.most.saturating_add(1) {
        if is_behind(play, world, steps)? {
            return Ok(());
        }
    }
    Err(Wrong::Found)
}

/// Opening what is left finds an image that it may; what the case begins with needs no opening.
pub fn finds(play: &Play<'_>, held: Held<'_>, reach: Reach) -> Result<(), Wrong> {
    if reach.least == 0 && held.is_same(play.first()) {
        return Ok(());
    }
    let mut world = world_of(play.alloc, held)?;
    finds_in(play, &mut world, reach)
}
