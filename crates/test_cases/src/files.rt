//! The case files of a folder.
use crate::commands::{self, play_commands};
use crate::looks::{self, play_looks};
use crate::patches::{self, play_patch};
use crate::reading::{self, play_reading};
use crate::texts::{self, play_text};
use crate::words::{self, play_words};
use std::alloc::AllocError;
use std::{fs, io};
use test_case_files::{Case, CaseFile, Test, read_cases};
use test_case_sessions::report::tally::{Failure, Tally};
use test_case_sessions::session::places::clear;

/// What a name ends with that is a case file's.
const ENDING: &str = ".cases";

/// The names of the case files in a folder, in order.
fn names(rt: &HostRuntime, folder: &str) -> io::Result<Vec<String>> {
    let mut names = Vec::new(rt.alloc());
    for entry in fs::read_dir(rt, folder)? {
        let entry = entry?;
        if entry.file_name().ends_with(ENDING) {
            names.push(String::from_str(rt.alloc(), entry.file_name())?)?;
        }
    }
    names.sort()?;
    Ok(names)
}

/// Plays the case files of a folder. Tells whether there are any, and all are right.
pub fn play_folder(rt: &HostRuntime, folder: &str) -> bool {
    let names = match names(rt, folder) {
        Ok(names) => names,
        Err(error) => {
            let _ = println!(rt; "{folder}: {error}");
            return false;
        }
    };
    if names.is_empty() {
        let _ = println!(rt; "{folder}: no case files");
        return false;
    }
    let mut right = true;
    for name in &names {
        right = play_file(rt, folder, name.as_str()) && right;
    }
    right
}

/// Plays a case file. Tells whether it can be read, and all its cases are right.
fn play_file(rt: &HostRuntime, folder: &str, name: &str) -> bool {
    match read_file(rt, folder, name) {
        Some(file) => match play_cases(rt, name, &file) {
            Ok(right) => right,
            Err(_) => {
                let _ = println!(rt; "{name}: out of memory");
                false
            }
        },
        None => false,
    }
}

/// Reads a case file. Where it is bad, its line is reported.
fn read_file(rt: &HostRuntime, folder: &str, name: &str) -> Option<CaseFile> {
    let alloc = rt.alloc();
    let path = format!(in alloc; "{folder}/{name}").ok()?;
    let text = match fs::read(rt, path.as_str()) {
        Ok(text) => text,
        Err(error) => {
            let _ = println!(rt; "{name}: {error}");
            return None;
        }
    };
    match read_cases(alloc, text.as_slice()) {
        Ok(file) => Some(file),
        Err(fault) => {
            let _ = println!(rt; "{name}: {fault}");
            None
        }
    }
}

/// The sweeps of the kind that the first case has.
fn sweeps(file: &CaseFile) -> &'static [&'static str] {
    match file.cases.first() {
        Some(case) => match &case.test {
            Test::Words(_) => &words::SWEEPS,
            Test::Reading(_) => &reading::SWEEPS,
            Test::Commands(_) => &commands::SWEEPS,
            Test::Text(_) => &texts::SWEEPS,
            Test::Looks(_) => &looks::SWEEPS,
            Test::Patch(_) => &patches::SWEEPS,
        },
        None => &[],
    }
}

/// Plays the cases of a file. Tells whether all are right.
fn play_cases(rt: &HostRuntime, name: &str, file: &CaseFile) -> Result<bool, AllocError> {
    let sweeps = sweeps(file);
    let mut tally = Tally::new(rt.alloc(), name, sweeps)?;
    for case in &file.cases {
        tally.cases = tally.cases.saturating_add(1);
        if !play_case(rt, case, &mut tally) {
            tally.failed = tally.failed.saturating_add(1);
        }
    }
    clear(rt);
    tally.tell_counts(rt);
    Ok(tally.failed == 0)
}

/// Plays a case in each way. Tells whether all are right.
fn play_case(rt: &HostRuntime, case: &Case, tally: &mut Tally<'_>) -> bool {
    let mut right = true;
    for (sweep, name) in tally.sweeps.iter().enumerate() {
        match play(rt, &case.test, sweep) {
            Ok(plays) => tally.add(sweep, plays),
            Err(failure) => {
                tally.tell(rt, case, name, &failure);
                right = false;
            }
        }
    }
    right
}

/// Plays a case in one way. Tells how often.
fn play(rt: &HostRuntime, test: &Test, sweep: usize) -> Result<u32, Failure> {
    match test {
        Test::Words(case) => play_words(rt.alloc(), case, sweep),
        Test::Reading(case) => Ok(play_reading(rt.alloc(), case, sweep)?),
        Test::Commands(case) => play_commands(rt, case, sweep),
        Test::Text(case) => Ok(play_text(rt, case, sweep)?),
        Test::Looks(case) => Ok(play_looks(rt, case, sweep)?),
        Test::Patch(case) => Ok(play_patch(rt.alloc(), case, sweep)?),
    }
}
