//! Files that may not be opened: each stands in the place of one of the three of a case. The command is refused for it, or for a call
//! that the world refuses before, and leaves all files as they were.
use crate::answers::Ended;
use crate::oddities::{Odd, Oddity, world_of_odd};
use crate::plays::Play;
use crate::report::{Failure, Wrong};
use crate::setting::{Kept, There, has_other, held_by, there_in};
use crate::sweeps::MOST_CALLS;
use bx_cli_commands::Fault;
use bx_image::Fuse;
use bx_world::OpenError;
use test_world::{MemoryWorld, Plan};

/// The calls of the world up to the one that makes an image: three looks, an opening that finds none, and that one.
const CALLS_UP_TO_MAKING: u64 = 5;

/// Whether the command was refused for the odd file, or for a call that the world refused.
fn is_due(world: &MemoryWorld, odd: &Odd, call: u64, ended: &Ended) -> bool {
    let (_, which, _, why) = *odd;
    let due = OpenError { which, why };
    let is_refused = match ended.outcome {
        Err(Fault::OpenFailed) => true,
        Ok(_) | Err(_) => false,
    };
    let is_other = world.was_refused() && !is_passed(world, odd, call);
    is_refused && ended.how.is_none() && (is_other || ended.unopened == Some(due))
}

/// Nothing was written, and files are as they were: none is there that wasn't but those that the world refused to take away.
pub fn is_untouched(world: &MemoryWorld, kept: &Kept, before: There) -> Result<(), Wrong> {
    if !world.output().is_empty() || !world.errors().is_empty() {
        return Err(Wrong::Streams);
    }
    let is_same = held_by(world).is_same(kept.held()) && has_other(world);
    if !is_same || there_in(world).news(before) != Some(world.stuck()) {
        return Err(Wrong::Files);
    }
    Ok(())
}

/// Whether the world makes no file under this name, which it counts as a refusal like that of any other call.
fn is_refused_by_itself(odd: &Odd) -> bool {
    let (_, _, oddity, _) = *odd;
    oddity == Oddity::Itself
}

/// Whether no call is refused but one that is refused by itself, where this is the first that is refused on purpose.
fn is_passed(world: &MemoryWorld, odd: &Odd, call: u64) -> bool {
    if is_refused_by_itself(odd) {
        call >= CALLS_UP_TO_MAKING
    } else {
        !world.was_refused() && world.stuck() == 0
    }
}

/// Plays a case with an odd file, where one call of the world is refused. Tells whether none was.
fn play_once(play: &Play<'_>, odd: &Odd, call: u64) -> Result<bool, Wrong> {
    let mut world = world_of_odd(play.alloc, play.first(), play.there, odd)?;
    let kept = Kept::of(play.alloc, held_by(&world))?;
    let before = there_in(&world);
    let mut plan = Plan::NOTHING;
    plan.calls = Fuse::new(call, true);
    let ended = play.run(&mut world, plan)?;
    if !is_due(&world, odd, call, &ended) {
        return Err(Wrong::Outcome);
    }
    is_untouched(&world, &kept, before)?;
    Ok(is_passed(&world, odd, call))
}

/// Plays a case with an odd file: one call of the world after another is refused, until none is. Tells how often.
pub fn play_refused(play: &Play<'_>, odd: &Odd) -> Result<u64, Failure> {
    for call in 0..MOST_CALLS {
        match play_once(play, odd, call) {
            Ok(false) => {}
            Ok(true) => return Ok(call.saturating_add(1)),
            Err(wrong) => {
                return Err(Failure {
                    way: 0,
                    call,
                    wrong,
                });
            }
        }
    }
    Err(Failure {
        way: 0,
        call: MOST_CALLS,
        wrong: Wrong::Calls,
    })
}
