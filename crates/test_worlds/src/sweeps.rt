//! The ways in which a case is played: which calls fail.
use crate::answers::Ended;
use crate::left::{Cause, Reach, finds, is_as_told, judge};
use crate::plays::Play;
use crate::report::{Failure, Wrong};
use crate::setting::{Held, Kept, held_by};
use bx_image::{Fuse, Part};
use bx_journal::RecoveryOutcome;
use test_world::{Fails, MemoryWorld, Plan};

/// More calls than a case makes.
pub const MOST_CALLS: u64 = 200;

/// What fails: calls of the world, those of a device that write, or that read, reads of an input, or writes of an output.
#[derive(Clone, Copy, Debug, PartialEq, Eq)]
pub enum Failing {
    World,
    Image,
    Journal,
    Redo,
    ImageReads,
    JournalReads,
    RedoReads,
    Input,
    Output,
}

impl Failing {
    /// What a command calls.
    pub const EACH: &'static [Failing] = &[
        Failing::World,
        Failing::Image,
        Failing::Journal,
        Failing::Redo,
        Failing::ImageReads,
        Failing::JournalReads,
        Failing::RedoReads,
        Failing::Input,
    ];

    pub fn name(self) -> &'static str {
        match self {
            Failing::World => "world",
            Failing::Image => "image",
            Failing::Journal => "journal",
            Failing::Redo => "redo text",
            Failing::ImageReads => "image reads",
            Failing::JournalReads => "journal reads",
            Failing::RedoReads => "redo text reads",
            Failing::Input => "input reads",
            Failing::Output => "output writes",
        }
    }

    /// In how many ways a call of it fails.
    pub fn ways(self) -> u32 {
        match self {
            Failing::World | Failing::Input | Failing::Output => 2,
            Failing::Image | Failing::Journal | Failing::Redo => 6,
            Failing::ImageReads | Failing::JournalReads | Failing::RedoReads => 1,
        }
    }

    /// Whether it is reads of a device that fail.
    fn on_reads(self) -> bool {
        match self {
            Failing::World
            | Failing::Image
            | Failing::Journal
            | Failing::Redo
            | Failing::Input
            | Failing::Output => false,
            Failing::ImageReads | Failing::JournalReads | Failing::RedoReads => true,
        }
    }

    /// Which faults may come of it.
    pub fn cause(self) -> Cause {
        match self {
            Failing::World => Cause::World,
            Failing::Image
            | Failing::Journal
            | Failing::Redo
            | Failing::ImageReads
            | Failing::JournalReads
            | Failing::RedoReads => Cause::Device,
            Failing::Input => Cause::Input,
            Failing::Output => Cause::Output,
        }
    }

    /// Whether a play has any such call.
    pub fn is_in(self, play: &Play<'_>) -> bool {
        self != Failing::Input || play.reads_input()
    }

    /// The plan by which `pass` calls are passed first: in an even way one call fails, in an odd one all from it on; and of a write
    /// nothing takes effect, or half, or all. Of reads of a device all fail from one on.
    pub fn plan(self, way: u32, pass: u64) -> Plan {
        let once = way & 1 == 0;
        let part = match way {
            0 | 1 => Part::Nothing,
            2 | 3 => Part::Half,
            _ => Part::All,
        };
        let on_reads = self.on_reads();
        let fails = Fails {
            pass,
            on_reads,
            part,
            once,
        };
        let mut plan = Plan::NOTHING;
        match self {
            Failing::World => plan.calls = Fuse::new(pass, once),
            Failing::Image | Failing::ImageReads => plan.image = fails,
            Failing::Journal | Failing::JournalReads => plan.journal = fails,
            Failing::Redo | Failing::RedoReads => plan.redo = fails,
            Failing::Input => plan.input = Fuse::new(pass, once),
            Failing::Output => {}
        }
        plan
    }

    /// Which writes of an output fail by that plan.
    pub fn writes(self, way: u32, pass: u64) -> Fuse {
        if self == Failing::Output {
            Fuse::new(pass, way & 1 == 0)
        } else {
            Fuse::Never
        }
    }
}

/// The first or the second.
fn either<'a>(is_first: bool, first: &'a [u8], second: &'a [u8]) -> &'a [u8] {
    if is_first { first } else { second }
}

/// Of each file the first or the second of two contents is left, in all combinations; and opening finds an image that it may.
fn finds_each(play: &Play<'_>, kept: &Kept, disk: Held<'_>, reach: Reach) -> Result<(), Wrong> {
    for loss in 0..8u32 {
        let left = Held {
            image: either(loss & 1 == 0, kept.image.as_slice(), disk.image),
            journal: either(loss & 2 == 0, kept.journal.as_slice(), disk.journal),
            redo: either(loss & 4 == 0, kept.redo.as_slice(), disk.redo),
        };
        finds(play, left, reach)?;
    }
    Ok(())
}

/// The power is lost: of each file what it has is left, or what is on its disk.
fn lose(play: &Play<'_>, world: &mut MemoryWorld, reach: Reach) -> Result<(), Wrong> {
    let kept = Kept::of(play.alloc, held_by(world))?;
    world.lose_power()?;
    finds_each(play, &kept, held_by(world), reach)
}

/// Whether a command was refused for a call that failed, and nothing is left of it.
fn is_undone(play: &Play<'_>, ended: &Ended, reach: Reach) -> bool {
    let is_clean = match ended.how {
        None | Some(RecoveryOutcome::Clean) => true,
        Some(RecoveryOutcome::Dropped | RecoveryOutcome::Restored { .. }) => false,
    };
    is_clean && reach.most == 0 && play.fault().is_none()
}

/// Where no call fails any more, a case does what it tells, in a world in which it was refused: an empty file that couldn't be taken
/// away is in nobody's way.
fn play_again(play: &Play<'_>, world: &mut MemoryWorld) -> Result<(), Wrong> {
    let ended = play.run(world, Plan::NOTHING)?;
    judge(play, world, Cause::World, &ended)?;
    if is_as_told(play, world, &ended)? {
        Ok(())
    } else {
        Err(Wrong::Again)
    }
}

/// Plays a case in a world with a plan. Tells whether no call failed.
fn play_in(
    play: &Play<'_>,
    world: &mut MemoryWorld,
    cause: Cause,
    plan: Plan,
) -> Result<bool, Wrong> {
    let ended = play.run(world, plan)?;
    let reach = judge(play, world, cause, &ended)?;
    let is_passed = is_as_told(play, world, &ended)?;
    lose(play, world, reach)?;
    if is_undone(play, &ended, reach) && play.count() > 0 {
        play_again(play, world)?;
    }
    Ok(is_passed)
}

/// Plays a case with a plan. Tells whether no call failed.
fn play_planned(play: &Play<'_>, cause: Cause, plan: Plan) -> Result<bool, Wrong> {
    let mut world = play.world()?;
    play_in(play, &mut world, cause, plan)
}

/// Plays a case in one way: one call after another fails, until none does. Tells how often.
fn play_way(play: &Play<'_>, failing: Failing, way: u32) -> Result<u64, Failure> {
    for call in 0..MOST_CALLS {
        match play_planned(play, failing.cause(), failing.plan(way, call)) {
            Ok(false) => {}
            Ok(true) => return Ok(call.saturating_add(1)),
            Err(wrong) => return Err(Failure { way, call, wrong }),
        }
    }
    Err(Failure {
        way,
        call: MOST_CALLS,
        wrong: Wrong::Calls,
    })
}

/// Plays a case where one thing fails, in each way. Tells how often.
pub fn play_sweep(play: &Play<'_>, failing: Failing) -> Result<u64, Failure> {
    let mut plays = 0u64;
    for way in 0..failing.ways() {
        plays = plays.saturating_add(play_way(play, failing, way)?);
    }
    Ok(plays)
}
