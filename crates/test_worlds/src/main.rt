//! Plays commands, looks, forgettings, dumps and comparisons on named files in a world in memory, over cases of the kinds `commands`, `looks`,
//! `words` and `patches`.
//!
//! `docs/CASES.md` says what a case is, and how each kind is played.
//!
//! The lines of a case of commands are one undo or redo of as many changes; or the last one is a change, a revert, dd or a patch. A first
//! `undo: 0` tells what opening recovers.
//!
//! A change is asked for whole, and once more as the program does it, by what was read before. A text without bytes is missing, and so
//! is an image whose journal has none either: they are made, and taken away again where the change is refused. Asked for whole it is
//! played once more where the image's name is a link to nothing, and where all three are there, and stay.
//!
//! Each call of the world in turn is refused, alone or with all behind it, and each write, cut or sync of the image, of the journal
//! and of the redo text fails (none, half or all of it taking effect, once or for good), each read of them with all behind it, and each
//! read of what dd reads (once or for good), until no call does. Answer, streams and files have to be those of the case, or as before
//! with nothing made and a fault of what failed; of an interrupted command an opening decides. Then the power is lost: of each of the
//! three what it has or what is on its disk is left, in all combinations, and opening finds the image behind some of the changes: behind
//! all where the command is done, behind none where it is refused.
//!
//! Looks, dumps and comparisons only read. With each call of the world refused, each read of a file failing and each write of the output, what is
//! written is the text of the case or a front of it, beside the fault of what failed; and the world is as it was, streams too. Looks are
//! a log, one with ranges, and each look of a case; a dump is also one of a file without a length, of one that is missing, and of an
//! input; a comparison is by bytes and by rows. So it is of the patch that a change would be, of a text, a patch or a copy that makes the
//! second file of a comparison, and of the patch that is shown of the change once it is made, and once it is taken back.
//!
//! A forgetting is played over the cases of looks, and leaves the image as it is: beside empty texts, or where it is refused beside
//! texts as they were, or where it is interrupted beside fronts of them, and so once the power is lost.
//!
//! A change with which the history begins anew is played last, where some files are missing: one that can be read, and one that can't.
//!
//! A line of the output has a case, and how often it was played with each that fails; before them stand the files of `oddities.rt` that
//! may not be opened: in the first case, in the first change, in the first one whose files are made, in the first of looks and of
//! forgettings, and in the first of comparisons.
#![tactic(auto)]

mod answers;
mod changes;
mod left;
mod moves;
mod odd;
mod oddities;
mod plays;
mod renewals;
mod report;
mod seen;
mod setting;
mod sweeps;

use crate::odd::play_refused;
use crate::oddities::{ODDS, ODDS_OF_MADE, Odd, Oddity, names_of_odd};
use crate::plays::{Play, Setting};
use crate::renewals::play_renewals;
use crate::report::Wrong;
use crate::seen::diffs::play_diffs;
use crate::seen::dumps::play_dumps;
use crate::seen::forgets::play_forgets;
use crate::seen::looks::play_looks;
use crate::seen::previews::play_previews;
use crate::sweeps::{Failing, play_sweep};
use std::fs;
use std::process::ExitCode;
use test_case_files::{Case, CaseFile, Test, read_cases};

/// Plays a case where one thing fails, and tells how often, or what is wrong. Tells whether all are right.
fn play_told(rt: &HostRuntime, play: &Play<'_>, failing: Failing) -> bool {
    let name = failing.name();
    match play_sweep(play, failing) {
        Ok(plays) => {
            let _ = print!(rt; ", {name} {plays}");
            true
        }
        Err(failure) => {
            let what = failure.wrong.text();
            let _ = print!(rt;
                ", {name} way {} call {}: {what}",
                failure.way, failure.call
            );
            false
        }
    }
}

/// Plays a case, as it is asked for, in each way. Tells whether all are right.
fn play_ways(rt: &HostRuntime, play: &Play<'_>) -> bool {
    let mut right = true;
    for failing in Failing::EACH {
        if failing.is_in(play) {
            right = play_told(rt, play, *failing) && right;
        }
    }
    let _ = println!(rt; "");
    right
}

/// Plays a case in each setting. Tells whether all are right.
fn play_case(rt: &HostRuntime, case: &Case) -> Result<bool, Wrong> {
    let Test::Commands(commands) = &case.test else {
        return Err(Wrong::Unknown);
    };
    let mut right = true;
    for setting in Setting::EACH {
        if let Some(play) = Play::new(rt.alloc(), commands, *setting)? {
            let _ = print!(rt; "{}{}", case.name, setting.text());
            right = play_ways(rt, &play) && right;
        }
    }
    Ok(right)
}

/// Plays a case with a file that may not be opened. Tells whether it is right.
fn play_odd(rt: &HostRuntime, play: &Play<'_>, odd: &Odd, what: &str) -> bool {
    let (name, _, _, _) = *odd;
    match play_refused(play, odd) {
        Ok(plays) => {
            let _ = println!(rt; "{name}, {what} {plays}");
            true
        }
        Err(failure) => {
            let wrong = failure.wrong.text();
            let _ = println!(rt; "{name}, {what}, call {}: {wrong}", failure.call);
            false
        }
    }
}

/// The play of the first case that has one in this setting.
fn first_in<'a>(rt: &HostRuntime, cases: &'a [Case], setting: Setting) -> Result<Play<'a>, Wrong> {
    for case in cases {
        let Test::Commands(commands) = &case.test else {
            return Err(Wrong::Unknown);
        };
        if let Some(play) = Play::new(rt.alloc(), commands, setting)? {
            return Ok(play);
        }
    }
    Err(Wrong::Unknown)
}

/// Plays the first case, whose files are there, with each file that may not be opened. Tells whether all are right.
fn play_odds(rt: &HostRuntime, cases: &[Case]) -> Result<bool, Wrong> {
    let play = first_in(rt, cases, Setting::Bare)?;
    let mut right = true;
    for odd in &ODDS {
        right = play_odd(rt, &play, odd, "not opened") && right;
    }
    Ok(right)
}

/// Plays the first change, with all three files there, with each of them that may not be opened. Tells whether all are right.
fn play_odds_of_change(rt: &HostRuntime, cases: &[Case]) -> Result<bool, Wrong> {
    let play = first_in(rt, cases, Setting::Full)?;
    let mut right = true;
    for odd in &ODDS {
        let (_, _, oddity, _) = *odd;
        if oddity != Oddity::Missing {
            right = play_odd(rt, &play, odd, "not changed") && right;
        }
    }
    Ok(right)
}

/// Plays the first case whose files are made, behind a link, with each file that may not be opened. Tells whether all are right.
fn play_odds_of_made(rt: &HostRuntime, cases: &[Case]) -> Result<bool, Wrong> {
    let mut play = first_in(rt, cases, Setting::Linked)?;
    let mut right = true;
    for odd in &ODDS_OF_MADE {
        play.names = names_of_odd(rt.alloc(), odd)?;
        right = play_odd(rt, &play, odd, "nothing made") && right;
    }
    Ok(right)
}

/// Plays these cases. Tells whether all are right.
fn play_each(rt: &HostRuntime, cases: &[Case]) -> Result<bool, Wrong> {
    let mut right = play_odds(rt, cases)?;
    right = play_odds_of_change(rt, cases)? && right;
    right = play_odds_of_made(rt, cases)? && right;
    for case in cases {
        right = play_case(rt, case)? && right;
    }
    Ok(right)
}

/// The cases of a file.
fn cases_of(rt: &HostRuntime, name: &str) -> Result<CaseFile, Wrong> {
    let text = fs::read(rt, name).map_err(|_| Wrong::Unknown)?;
    read_cases(rt.alloc(), text.as_slice()).map_err(|_| Wrong::Unknown)
}

/// Plays the cases of each file. Tells whether all are right.
fn play_all(rt: &HostRuntime) -> Result<bool, Wrong> {
    let worlds = cases_of(rt, "worlds.cases")?;
    let looks = cases_of(rt, "looks.cases")?;
    let dumps = cases_of(rt, "dumps.cases")?;
    let diffs = cases_of(rt, "diffs.cases")?;
    let mut right = play_each(rt, worlds.cases.as_slice())?;
    right = play_looks(rt, looks.cases.as_slice())? && right;
    right = play_forgets(rt, looks.cases.as_slice())? && right;
    right = play_dumps(rt, dumps.cases.as_slice())? && right;
    right = play_diffs(rt, diffs.cases.as_slice())? && right;
    right = play_previews(rt, diffs.cases.as_slice())? && right;
    right = play_renewals(rt)? && right;
    Ok(right)
}

fn main(rt: HostRuntime) -> ExitCode {
    match play_all(&rt) {
        Ok(true) => ExitCode::SUCCESS,
        Ok(false) => ExitCode::from(1),
        Err(wrong) => {
            let _ = println!(rt; "{}", wrong.text());
            ExitCode::from(1)
        }
    }
}
