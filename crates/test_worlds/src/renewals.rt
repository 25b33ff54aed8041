//! Plays a change with which the history begins anew, where some of an image and its texts are missing: each call fails in turn. Where it
//! is refused no file is there that wasn't, and an image that was there holds what it held.
use crate::changes::{copied, read_as};
use crate::report::{Failure, Wrong};
use crate::setting::{CAREFUL, Held, There, has_other, held_by, names, there_in, world_with};
use crate::sweeps::{Failing, MOST_CALLS};
use bx_cli_commands::{Fault, Form};
use bx_journal::SessionFault;
use bx_read::ReadFault;
use bx_run::{Done, Edit, Failure as Refused, Request, Step, run_request};
use bx_world::Names;
use std::alloc::Global;
use std::io::{Empty, sink};
use test_world::{MemoryWorld, Plan};

/// What the image holds behind the change.
const NEW: &[u8] = b"new bytes of it";

/// What it holds before, where it is there.
const OLD: &[u8] = b"ABxyEFGH";

/// A change of it, as FORMATS.md has it of a journal and of a redo file.
const TEXT: &[u8] =
    b"change2 00000001 0000000000000008\n00000002: 4344                                     CD\nsave 00000001\ndone2 00000001 0000000000000008\n";

/// What the note has, which is no line on an image.
const NOTE: &[u8] = b"a note";

/// A dump that can't be read.
const FAULTY: &[u8] = b"00000000:\n";

/// Its fault.
const UNREAD: ReadFault = ReadFault::NoData { line: 1 };

/// How many calls in a row have to fail without a difference, so that no later one is made.
const QUIET: u64 = 8;

/// What fails in turn.
const EACH: [Failing; 7] = [
    Failing::World,
    Failing::Image,
    Failing::Journal,
    Failing::Redo,
    Failing::ImageReads,
    Failing::JournalReads,
    Failing::RedoReads,
];

/// Files, and whether the change of them can be read.
#[derive(Clone, Copy)]
struct Renewal<'a> {
    alloc: Global,
    names: &'a Names,
    there: There,
    reads: bool,
}

/// The bytes of a file that is there.
fn bytes_if(there: bool, bytes: &[u8]) -> &[u8] {
    if there { bytes } else { b"" }
}

fn same(is_same: bool, wrong: Wrong) -> Result<(), Wrong> {
    if is_same { Ok(()) } else { Err(wrong) }
}

impl Renewal<'_> {
    /// What the files hold before.
    fn first(&self) -> Held<'_> {
        Held {
            image: bytes_if(self.there.image, OLD),
            journal: bytes_if(self.there.journal, TEXT),
            redo: bytes_if(self.there.redo, TEXT),
        }
    }

    /// The change that is asked for.
    fn edit(&self) -> Result<Edit<Empty>, Wrong> {
        if self.reads {
            Ok(Edit::Read(copied(self.alloc, "of=disk", NEW, false)?))
        } else {
            Ok(Edit::Read(read_as(self.alloc, FAULTY, Form::Dump, 0, false)?))
        }
    }

    /// Runs it in a world that does what its plan says.
    fn run(&self, world: &mut MemoryWorld, plan: Plan) -> Result<Result<Done, Refused>, Wrong> {
        let edit = self.edit()?;
        world.begin(plan);
        let request = Request::Renew {
            names: self.names,
            guard: CAREFUL,
            edit,
        };
        Ok(run_request(world, self.alloc, request, &mut sink()))
    }

    /// The change is made, and is the history.
    fn is_done(&self, world: &MemoryWorld) -> Result<(), Wrong> {
        let held = held_by(world);
        same(self.reads, Wrong::Outcome)?;
        same(
            held.image == NEW && !held.journal.is_empty() && held.redo.is_empty(),
            Wrong::Files,
        )?;
        same(there_in(world) == There::ALL, Wrong::Files)
    }

    /// The image is missing again, unless the world refused to take it away, or holds what it held.
    fn has_image(&self, world: &MemoryWorld) -> bool {
        let held = held_by(world);
        if self.there.image {
            return held.image == OLD;
        }
        !there_in(world).image || (world.stuck() > 0 && held.image.is_empty())
    }

    /// The texts hold what they held, or where the history was dropped nothing, beside no note.
    fn has_texts(&self, world: &MemoryWorld, step: Step) -> bool {
        let held = held_by(world);
        let first = self.first();
        match step {
            Step::Opening | Step::Dropping => {
                held.journal == first.journal && held.redo == first.redo
            }
            Step::Work => held.journal.is_empty() && held.redo.is_empty() && has_no_note(world),
        }
    }

    /// No file is there that wasn't, but for those that the world refused to take away.
    fn has_no_news(&self, world: &MemoryWorld) -> bool {
        let news = there_in(world).news(self.there);
        news.is_some_and(|news| news <= world.stuck())
    }

    /// It was refused for this.
    fn is_refused(&self, world: &MemoryWorld, refused: Refused) -> Result<(), Wrong> {
        same(self.has_image(world), Wrong::Files)?;
        same(self.has_no_news(world), Wrong::Files)?;
        same(self.has_texts(world, refused.step), Wrong::Files)
    }

    /// It ended as it may, and left what it may.
    fn judge(
        &self,
        world: &MemoryWorld,
        failing: Failing,
        answer: Result<Done, Refused>,
    ) -> Result<(), Wrong> {
        same(has_other(world), Wrong::Files)?;
        same(world.output().is_empty(), Wrong::Streams)?;
        match answer {
            Ok(_) => self.is_done(world),
            Err(refused) if is_interrupted(refused) => {
                same(failing != Failing::World, Wrong::Outcome)
            }
            Err(refused) => self.is_refused(world, refused),
        }
    }

    /// Whether it ended as it does where nothing fails.
    fn is_as_told(&self, world: &MemoryWorld, answer: Result<Done, Refused>) -> bool {
        let is_told = match answer {
            Ok(_) => self.reads,
            Err(refused) => {
                !self.reads && refused.fault == Fault::Read(UNREAD) && refused.step == Step::Work
            }
        };
        is_told && !world.was_refused() && world.stuck() == 0
    }

    /// Plays it with a plan. Tells whether it ended as it does where nothing fails.
    fn play_planned(&self, failing: Failing, plan: Plan) -> Result<bool, Wrong> {
        let mut world = world_with(self.alloc, self.first(), self.there, true)?;
        world.plant_note(NOTE)?;
        let answer = self.run(&mut world, plan)?;
        self.judge(&world, failing, answer)?;
        Ok(self.is_as_told(&world, answer))
    }

    /// Plays it in one way: one call after another fails, until none makes a difference. Tells how often.
    fn play_way(&self, failing: Failing, way: u32) -> Result<u64, Failure> {
        let mut quiet = 0u64;
        for call in 0..MOST_CALLS {
            match self.play_planned(failing, failing.plan(way, call)) {
                Ok(true) => quiet = quiet.saturating_add(1),
                Ok(false) => quiet = 0,
                Err(wrong) => return Err(Failure { way, call, wrong }),
            }
            if quiet == QUIET {
                return Ok(call.saturating_sub(QUIET).saturating_add(1));
            }
        }
        Err(Failure {
            way,
            call: MOST_CALLS,
            wrong: Wrong::Calls,
        })
    }

    /// Plays it where one thing fails, in each way. Tells how often.
    fn play_sweep(&self, failing: Failing) -> Result<u64, Failure> {
        let mut plays = 0u64;
        for way in 0..failing.ways() {
            plays = plays.saturating_add(self.play_way(failing, way)?);
        }
        Ok(plays)
    }
}

/// Whether the note is gone, unless a call was refused.
fn has_no_note(world: &MemoryWorld) -> bool {
    world.note().is_empty() || world.was_refused()
}

/// Whether writing was stopped in the middle.
fn is_interrupted(refused: Refused) -> bool {
    refused.fault == Fault::Session(SessionFault::Interrupted)
}

/// Which files are there, and what is said of it.
const SETTINGS: [(&str, There); 4] = [
    (
        "all three",
        There {
            image: true,
            journal: true,
            redo: true,
            elsewhere: false,
        },
    ),
    (
        "an image and a journal",
        There {
            image: true,
            journal: true,
            redo: false,
            elsewhere: false,
        },
    ),
    (
        "a journal whose image is missing",
        There {
            image: false,
            journal: true,
            redo: false,
            elsewhere: false,
        },
    ),
    (
        "a redo text alone",
        There {
            image: false,
            journal: false,
            redo: true,
            elsewhere: false,
        },
    ),
];

/// Plays one with each that fails, and tells how often, or what is wrong. Tells whether all are right.
fn play_each(rt: &HostRuntime, renewal: &Renewal<'_>) -> bool {
    let mut right = true;
    for failing in EACH {
        let name = failing.name();
        match renewal.play_sweep(failing) {
            Ok(plays) => {
                let _ = print!(rt; ", {name} {plays}");
            }
            Err(failure) => {
                let what = failure.wrong.text();
                let (way, call) = (failure.way, failure.call);
                let _ = print!(rt; ", {name} way {way} call {call}: {what}");
                right = false;
            }
        }
    }
    let _ = println!(rt; "");
    right
}

/// Plays a change that can be read, and one that can't, where these files are there. Tells whether all are right.
fn play_both(rt: &HostRuntime, names: &Names, what: &str, there: There) -> bool {
    let alloc = rt.alloc();
    let _ = print!(rt; "{what}, begun anew");
    let done = Renewal {
        alloc,
        names,
        there,
        reads: true,
    };
    let right = play_each(rt, &done);
    let _ = print!(rt; "{what}, a change that can't be read, begun anew");
    let refused = Renewal {
        alloc,
        names,
        there,
        reads: false,
    };
    play_each(rt, &refused) && right
}

/// Plays changes with which the history begins anew. Tells whether all are right.
pub fn play_renewals(rt: &HostRuntime) -> Result<bool, Wrong> {
    let names = names(rt.alloc())?;
    let mut right = true;
    for (what, there) in &SETTINGS {
        right = play_both(rt, &names, *what, *there) && right;
    }
    Ok(right)
}
