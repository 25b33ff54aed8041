//! Plays looks at the changes of an image, and the same where one of its files is odd.
mod views;

use crate::oddities::{ODDS, Odd, Oddity};
use crate::report::Wrong;
use crate::seen::looks::views::{View, log_of, views_of};
use crate::seen::told::Told;
use crate::seen::{Asking, play_each, tell};
use crate::setting::{Held, names};
use crate::sweeps::Failing;
use bx_world::{Names, OpenError};
use std::alloc::Global;
use test_case_files::{Case, LooksCase, Test};

/// What fails in turn.
const EACH: [Failing; 5] = [
    Failing::World,
    Failing::ImageReads,
    Failing::JournalReads,
    Failing::RedoReads,
    Failing::Output,
];

/// What the files hold.
fn held_of(case: &LooksCase) -> Held<'_> {
    Held {
        image: case.image.as_slice(),
        journal: case.journal.as_slice(),
        redo: case.redo.as_slice(),
    }
}

/// What has to come of a look where a file is odd: it isn't opened, but for a device that may be read.
fn told_of_odd<'a>(view: &View<'a>, odd: &Odd) -> Told<'a> {
    let (_, which, oddity, why) = *odd;
    match oddity {
        Oddity::Mounted | Oddity::ReadOnly => view.told,
        _ => Told::Unopened(OpenError { which, why }),
    }
}

/// What a look asks of files that hold this, where none is odd.
fn asking_of<'a>(alloc: Global, names: &'a Names, held: Held<'a>, view: &View<'a>) -> Asking<'a> {
    Asking {
        alloc,
        names,
        held,
        odd: None,
        asked: view.asked,
        told: view.told,
    }
}

/// Plays each look of a case. Tells whether all are right.
fn play_case<'a>(rt: &HostRuntime, case: &'a Case, names: &'a Names) -> Result<bool, Wrong> {
    let Test::Looks(looks) = &case.test else {
        return Err(Wrong::Unknown);
    };
    let alloc = rt.alloc();
    let log = log_of(alloc, looks)?;
    let mut right = true;
    for view in &views_of(alloc, looks, log.as_slice())? {
        let _ = print!(rt; "{}, {}", case.name, view.name);
        let asking = asking_of(alloc, names, held_of(looks), view);
        right = play_each(rt, &asking, &EACH) && right;
    }
    Ok(right)
}

/// Plays each look of a case where a file is odd. Tells whether all are right.
fn play_odd<'a>(
    rt: &HostRuntime,
    case: &'a Case,
    names: &'a Names,
    odd: &'a Odd,
) -> Result<bool, Wrong> {
    let Test::Looks(looks) = &case.test else {
        return Err(Wrong::Unknown);
    };
    let alloc = rt.alloc();
    let log = log_of(alloc, looks)?;
    let mut right = true;
    let (name, _, _, _) = *odd;
    let _ = print!(rt; "{name}");
    for view in &views_of(alloc, looks, log.as_slice())? {
        let asking = Asking {
            alloc,
            names,
            held: held_of(looks),
            odd: Some(odd),
            asked: view.asked,
            told: told_of_odd(view, odd),
        };
        let played = asking.play_sweep(Failing::World);
        right = tell(rt, view.name.as_str(), played) && right;
    }
    let _ = println!(rt; "");
    Ok(right)
}

/// Plays the first case where each file is odd, and then all cases. Tells whether all are right.
pub fn play_looks(rt: &HostRuntime, cases: &[Case]) -> Result<bool, Wrong> {
    let names = names(rt.alloc())?;
    let Some(first) = cases.first() else {
        return Err(Wrong::Unknown);
    };
    let mut right = true;
    for odd in &ODDS {
        right = play_odd(rt, first, &names, odd)? && right;
    }
    for case in cases {
        right = play_case(rt, case, &names)? && right;
    }
    Ok(right)
}
