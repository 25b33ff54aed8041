//! Plays changes that are shown and not made: that of a text that was read, that of a patch, and a copy, each of them from the one file of a
//! case to the other; and the patch of the change that was made, while it stands and once it is taken back.
mod made;

use crate::report::Wrong;
use crate::seen::asked::{Asked, Proposed};
use crate::seen::previews::made::{changed, taken_back};
use crate::seen::told::Told;
use crate::seen::{Asking, play_each};
use crate::setting::{Held, Kept, names};
use crate::sweeps::Failing;
use bx_cli_commands::Done;
use bx_dd::Counts;
use bx_journal::Direction;
use bx_world::Names;
use std::alloc::Global;
use test_case_files::{Case, PatchCase, PatchWritten, Test};

/// What fails in turn where a change is proposed.
const PROPOSED: [Failing; 4] = [
    Failing::World,
    Failing::ImageReads,
    Failing::Input,
    Failing::Output,
];

/// What fails in turn where the patch of a change that stands or is undone is shown.
const SHOWN: [Failing; 5] = [
    Failing::World,
    Failing::ImageReads,
    Failing::JournalReads,
    Failing::RedoReads,
    Failing::Output,
];

/// What dd counts of an input of as many bytes, by blocks of 512.
fn counts_of(length: u64) -> Counts {
    let (whole, rest) = (length / 512, length % 512);
    let part = if rest > 0 { 1 } else { 0 };
    Counts {
        whole_in: whole,
        part_in: part,
        whole_out: whole,
        part_out: part,
        cut: 0,
    }
}

/// What has to come of a proposal: the patch, and of a copy its counts.
fn told_of(proposed: Proposed, case: &PatchWritten) -> Told<'_> {
    let counts = match proposed {
        Proposed::Read | Proposed::Patch => None,
        Proposed::Copy => Some(Done::Copied(counts_of(case.new.len() as u64))),
    };
    Told::Text(case.output.as_slice(), counts)
}

/// Plays each proposal of a case. Tells whether all are right.
fn play_proposed<'a>(
    rt: &HostRuntime,
    case: &Case,
    written: &'a PatchWritten,
    names: &'a Names,
) -> bool {
    let mut right = true;
    for proposed in &Proposed::EACH {
        let asking = Asking {
            alloc: rt.alloc(),
            names,
            held: Held {
                image: written.old.as_slice(),
                journal: b"",
                redo: b"",
            },
            odd: None,
            asked: Asked::Preview(*proposed, written),
            told: told_of(*proposed, written),
        };
        let _ = print!(rt; "{}, {}", case.name, proposed.name());
        right = play_each(rt, &asking, &PROPOSED) && right;
    }
    right
}

/// Plays the patch of the change that stands, or of the one that is undone. Tells whether all are right.
fn play_shown<'a>(
    rt: &HostRuntime,
    case: &'a Case,
    kept: &'a Kept,
    names: &'a Names,
    way: Direction,
) -> Result<bool, Wrong> {
    let written = written_of(case)?;
    let asking = Asking {
        alloc: rt.alloc(),
        names,
        held: kept.held(),
        odd: None,
        asked: Asked::Patch(way),
        told: Told::Text(written.output.as_slice(), None),
    };
    let what = match way {
        Direction::Undo => "show -p",
        Direction::Redo => "show -p -r",
    };
    let _ = print!(rt; "{}, {what}", case.name);
    Ok(play_each(rt, &asking, &SHOWN))
}

/// The two files of a case, and what is written of them.
fn written_of(case: &Case) -> Result<&PatchWritten, Wrong> {
    match &case.test {
        Test::Patch(PatchCase::Written(written)) => Ok(written),
        _ => Err(Wrong::Unknown),
    }
}

/// Plays a case. Tells whether all are right.
fn play_case(rt: &HostRuntime, case: &Case, names: &Names) -> Result<bool, Wrong> {
    let written = written_of(case)?;
    let mut right = play_proposed(rt, case, written, names);
    let standing = changed(rt.alloc(), names, written)?;
    right = play_shown(rt, case, &standing, names, Direction::Undo)? && right;
    let undone = taken_back(rt.alloc(), names, standing.held())?;
    Ok(play_shown(rt, case, &undone, names, Direction::Redo)? && right)
}

/// Plays all cases. Tells whether all are right.
pub fn play_previews(rt: &HostRuntime, cases: &[Case]) -> Result<bool, Wrong> {
    let names = names(rt.alloc())?;
    let mut right = true;
    for case in cases {
        right = play_case(rt, case, &names)? && right;
    }
    Ok(right)
}
