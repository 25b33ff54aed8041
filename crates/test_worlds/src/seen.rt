//! Named files that are only read or whose history is dropped, and an input, in a world in memory: each call fails in turn.
pub mod asked;
pub mod diffs;
pub mod dumps;
pub mod forgets;
mod leaves;
pub mod looks;
mod output;
pub mod previews;
pub mod told;

use crate::oddities::{Odd, world_of_odd};
use crate::report::{Failure, Wrong};
use crate::seen::asked::{Asked, ask};
use crate::seen::leaves::Leaves;
use crate::seen::output::Output;
use crate::seen::told::{Told, judge};
use crate::setting::{Held, Kept, held_by, there_in, there_of, world_of};
use crate::sweeps::{Failing, MOST_CALLS};
use bx_world::Names;
use std::alloc::Global;
use test_world::{Fails, MemoryWorld, Plan};

/// What the note has, which is no line on an image.
const NOTE: &[u8] = b"a note";

/// What is asked, the files, and what has to come of it.
#[derive(Clone, Copy)]
pub struct Asking<'a> {
    pub alloc: Global,
    pub names: &'a Names,
    pub held: Held<'a>,
    /// A file that is odd.
    pub odd: Option<&'a Odd>,
    pub asked: Asked<'a>,
    pub told: Told<'a>,
}

/// The same calls of a device fail, and else it takes writes: as many reads pass as there are.
fn taking_writes(fails: Fails) -> Fails {
    if fails.on_reads {
        return fails;
    }
    Fails {
        on_reads: true,
        ..Fails::NEVER
    }
}

impl<'a> Asking<'a> {
    /// The same where a file is odd, and this has to come of it.
    pub fn of_odd(self, odd: &'a Odd, told: Told<'a>) -> Asking<'a> {
        Asking {
            odd: Some(odd),
            told,
            ..self
        }
    }

    /// A world with the files.
    fn world(&self) -> Result<MemoryWorld, Wrong> {
        let world = match self.odd {
            Some(odd) => world_of_odd(self.alloc, self.held, there_of(self.held), odd)?,
            None => world_of(self.alloc, self.held)?,
        };
        Ok(world)
    }

    /// What the world doesn't do where a call fails. Where something is unfinished its devices take writes, which no file gets: an
    /// opening recovers it on them.
    fn plan(&self, failing: Failing, way: u32, call: u64) -> Plan {
        let mut plan = failing.plan(way, call);
        if let Told::Unfinished = self.told {
            plan.image = taking_writes(plan.image);
            plan.journal = taking_writes(plan.journal);
            plan.redo = taking_writes(plan.redo);
        }
        plan
    }

    /// Asks where a call fails. Tells whether none did. What is left is what may be, and also once the power is lost.
    fn play_once(&self, failing: Failing, way: u32, call: u64) -> Result<bool, Wrong> {
        let mut world = self.world()?;
        world.plant_note(NOTE)?;
        let kept = Kept::of(self.alloc, held_by(&world))?;
        let before = there_in(&world);
        let mut out = Output::new(self.alloc, failing.writes(way, call));
        let plan = self.plan(failing, way, call);
        let outcome = ask(
            &mut world, self.alloc, self.names, plan, self.asked, &mut out,
        );
        let leaves = Leaves::of(self.asked, outcome);
        leaves.are_left(&world, &kept, before)?;
        let cause = self.asked.cause(failing);
        let output = out.taken.as_slice();
        let is_told = judge(self.alloc, &world, self.told, cause, outcome, output)?;
        leaves.are_found(self.alloc, &mut world, &kept, before)?;
        Ok(is_told)
    }

    /// Asks in one way: one call after another fails, until none does. Tells how often.
    fn play_way(&self, failing: Failing, way: u32) -> Result<u64, Failure> {
        for call in 0..MOST_CALLS {
            match self.play_once(failing, way, call) {
                Ok(false) => {}
                Ok(true) => return Ok(call.saturating_add(1)),
                Err(wrong) => return Err(Failure { way, call, wrong }),
            }
        }
        Err(Failure {
            way,
            call: MOST_CALLS,
            wrong: Wrong::Calls,
        })
    }

    /// Asks where one thing fails, in each way. Tells how often.
    pub fn play_sweep(&self, failing: Failing) -> Result<u64, Failure> {
        let mut plays = 0u64;
        for way in 0..failing.ways() {
            plays = plays.saturating_add(self.play_way(failing, way)?);
        }
        Ok(plays)
    }
}

/// Tells how often it was asked where one thing fails, or what is wrong. Tells whether all is right.
pub fn tell(rt: &HostRuntime, what: &str, played: Result<u64, Failure>) -> bool {
    match played {
        Ok(plays) => {
            let _ = print!(rt; ", {what} {plays}");
            true
        }
        Err(failure) => {
            let wrong = failure.wrong.text();
            let _ = print!(rt;
                ", {what} way {} call {}: {wrong}",
                failure.way, failure.call
            );
            false
        }
    }
}

/// Asks where each of these fails, behind the name of the case, and ends its line. Tells whether all is right.
pub fn play_each(rt: &HostRuntime, asking: &Asking<'_>, each: &[Failing]) -> bool {
    let mut right = true;
    for failing in each {
        right = tell(rt, failing.name(), asking.play_sweep(*failing)) && right;
    }
    let _ = println!(rt; "");
    right
}
