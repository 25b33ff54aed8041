//! Plays a forgetting of the changes of an image, over the cases of looks, and the same where one of its files is odd.
use crate::oddities::{ODDS, Odd, Oddity};
use crate::report::Wrong;
use crate::seen::asked::Asked;
use crate::seen::told::Told;
use crate::seen::{Asking, play_each, tell};
use crate::setting::{Held, names};
use crate::sweeps::Failing;
use bx_world::{FileRole, Names, OpenError};
use std::alloc::Global;
use test_case_files::{Case, LooksCase, Shows, Test};

/// What fails in turn.
const EACH: [Failing; 7] = [
    Failing::World,
    Failing::Image,
    Failing::Journal,
    Failing::Redo,
    Failing::ImageReads,
    Failing::JournalReads,
    Failing::RedoReads,
];

/// That the history is dropped.
const DONE: Told<'static> = Told::Text(b"", None);

/// Whether a fault is damage at a text's first line, which may be any file's.
fn is_of_first_line(fault: &str) -> bool {
    fault == "journal line 1 is damaged" || fault == "redo line 1 is damaged"
}

/// Whether a fault is one of texts that are an image's: of another length, or damaged behind the first line.
fn is_of_texts(fault: &str) -> bool {
    let is_damaged = fault.ends_with(" is damaged") && !is_of_first_line(fault);
    is_damaged || fault.starts_with("image should have ")
}

/// What has to come of a forgetting: it is done where nothing is unfinished, or the fault is one of texts that are an image's.
fn told_of(case: &LooksCase) -> Result<Told<'_>, Wrong> {
    if case.ranges.is_some() {
        return Ok(DONE);
    }
    let Some(look) = case.looks.first() else {
        return Err(Wrong::Unknown);
    };
    match &look.shows {
        Shows::Refused(text) if is_of_texts(text.as_str()) => Ok(DONE),
        Shows::Refused(text) => Ok(Told::Fault(text.as_str())),
        Shows::Text { .. } => Ok(Told::Unfinished),
    }
}

/// Whether it is the journal that is missing.
fn is_gone(odd: &Odd) -> bool {
    let (_, which, oddity, _) = *odd;
    which == FileRole::Journal && oddity == Oddity::Missing
}

/// What has to come of it where a file is odd: it isn't opened, but for a device that may be read, and beside a journal that is missing.
fn told_of_odd<'a>(told: Told<'a>, odd: &Odd) -> Told<'a> {
    let (_, which, oddity, why) = *odd;
    match oddity {
        Oddity::Mounted | Oddity::ReadOnly => told,
        Oddity::Missing if is_gone(odd) => told,
        _ => Told::Unopened(OpenError { which, why }),
    }
}

/// What is asked of the files of a case, and what has to come of it.
fn asking_of<'a>(alloc: Global, names: &'a Names, case: &'a Case) -> Result<Asking<'a>, Wrong> {
    let Test::Looks(looks) = &case.test else {
        return Err(Wrong::Unknown);
    };
    Ok(Asking {
        alloc,
        names,
        held: Held {
            image: looks.image.as_slice(),
            journal: looks.journal.as_slice(),
            redo: looks.redo.as_slice(),
        },
        odd: None,
        asked: Asked::Forget,
        told: told_of(looks)?,
    })
}

/// Plays a case, and where it has a redo text and no change the same without a journal. Tells whether all is right.
fn play_case(rt: &HostRuntime, case: &Case, names: &Names) -> Result<bool, Wrong> {
    let asking = asking_of(rt.alloc(), names, case)?;
    let _ = print!(rt; "{}, forget", case.name);
    let right = play_each(rt, &asking, &EACH);
    let is_alone = asking.held.journal.is_empty() && !asking.held.redo.is_empty();
    let Some(odd) = ODDS.iter().find(|odd| is_alone && is_gone(odd)) else {
        return Ok(right);
    };
    let alone = asking.of_odd(odd, asking.told);
    let _ = print!(rt; "{}, forget without a journal", case.name);
    Ok(play_each(rt, &alone, &EACH) && right)
}

/// Plays a case where each of its files is odd. Tells whether all are right.
fn play_odds(rt: &HostRuntime, case: &Case, names: &Names) -> Result<bool, Wrong> {
    let whole = asking_of(rt.alloc(), names, case)?;
    let mut right = true;
    for odd in &ODDS {
        let (name, _, _, _) = *odd;
        let _ = print!(rt; "{name}");
        let asking = whole.of_odd(odd, told_of_odd(whole.told, odd));
        right = tell(rt, "forget", asking.play_sweep(Failing::World)) && right;
        let _ = println!(rt; "");
    }
    Ok(right)
}

/// Plays the first case where each file is odd, and then all cases. Tells whether all are right.
pub fn play_forgets(rt: &HostRuntime, cases: &[Case]) -> Result<bool, Wrong> {
    let names = names(rt.alloc())?;
    let Some(first) = cases.first() else {
        return Err(Wrong::Unknown);
    };
    let mut right = play_odds(rt, first, &names)?;
    for case in cases {
        right = play_case(rt, case, &names)? && right;
    }
    Ok(right)
}
