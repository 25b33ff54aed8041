//! Cases of words: run whole, byte by byte, and with something that happens at each call, or each growth refused, in turn.
mod growths;
mod job;
pub(crate) mod outcome;
mod run;
pub(crate) mod streams;

use crate::words::job::same_job;
use crate::words::outcome::{allowed, refused, right, turned_right};
use crate::words::run::{RunOf, run_freely, run_turned};
use crate::words::streams::{Act, Turn};
use bx_cli::{DumpJob, Job, plan_words};
use std::alloc::Global;
use test_case_files::WordsCase;
use test_case_sessions::report::compare::Wrong;
use test_case_sessions::report::tally::{Failure, at};
use test_case_sessions::sweep::hunt::each_growth;
use test_case_sessions::sweep::weight::is_small;

/// The ways in which a case of words is played.
pub static SWEEPS: [&str; 13] = [
    "planned",
    "run whole",
    "behind a seek",
    "bytes one by one",
    "reads interrupted",
    "reads failing",
    "reads of half",
    "reads that end",
    "writes interrupted",
    "writes failing",
    "writes of nothing",
    "writes of half",
    "growths refused",
];

/// The last sweep of cases that give a sum in place of the output.
const BYTE_BY_BYTE: usize = 3;

/// More calls than any play makes.
const MOST_CALLS: u32 = 100_000;

/// Plays a case in one way. Tells how often.
pub fn play_words(alloc: Global, case: &WordsCase, sweep: usize) -> Result<u32, Failure> {
    if sweep > 0 && case.input.is_none() || sweep > BYTE_BY_BYTE && case.sum.is_some() {
        return Ok(0);
    }
    match plan_words(alloc, &case.words) {
        Ok(job) => play_job(alloc, case, &job, sweep),
        Err(fault) => {
            refused(alloc, &case.fault, fault)?;
            Ok(if sweep == 0 { 1 } else { 0 })
        }
    }
}

/// Plays a case whose words ask for this job.
fn play_job(alloc: Global, case: &WordsCase, job: &Job, sweep: usize) -> Result<u32, Failure> {
    if sweep == 0 {
        return Ok(planned(alloc, case, job)?);
    }
    match job {
        Job::Dump(job) => play_dump(alloc, case, job, sweep),
        Job::Lay(_) | Job::Change(_) | Job::Look(_) | Job::Diff(_) | Job::Help { .. } => Err(at(
            0,
            Wrong::Unknown,
        )),
    }
}

/// Plays a case whose words ask for this dump.
fn play_dump(alloc: Global, case: &WordsCase, job: &DumpJob, sweep: usize) -> Result<u32, Failure> {
    let input = match &case.input {
        Some(input) => input.as_slice(),
        None => b"",
    };
    let length = case.length.unwrap_or(0);
    let run = RunOf {
        case,
        job,
        input,
        length,
    };
    match sweep {
        1 => Ok(whole(alloc, run, usize::MAX)?),
        2 => Ok(behind(alloc, run)?),
        3 => Ok(whole(alloc, run, 1)?),
        4 => calls(alloc, run, Act::Interrupt, true),
        5 => calls(alloc, run, Act::Fail, true),
        6 => calls(alloc, run, Act::Half, true),
        7 => calls(alloc, run, Act::Nothing, true),
        8 => calls(alloc, run, Act::Interrupt, false),
        9 => calls(alloc, run, Act::Fail, false),
        10 => calls(alloc, run, Act::Nothing, false),
        11 => calls(alloc, run, Act::Half, false),
        _ if is_small(input, case.output.as_slice()) => Ok(each_growth(alloc, &run)?),
        _ => Ok(0),
    }
}

/// The words were planned as the case tells.
fn planned(alloc: Global, case: &WordsCase, job: &Job) -> Result<u32, Wrong> {
    if case.input.is_none() {
        allowed(alloc, &case.fault)?;
    }
    if let Some(wanted) = &case.job {
        same_job(alloc, wanted, job)?;
    }
    Ok(1)
}

/// Runs the job with nothing in its way.
fn whole(alloc: Global, run: RunOf<'_>, each: usize) -> Result<u32, Wrong> {
    let ran = run_freely(alloc, run, each);
    right(alloc, run.case, ran.done, ran.output.as_slice())?;
    Ok(1)
}

/// Runs the job on what stands behind the bytes that a seek passes, where there are some and the case doesn't give that itself.
fn behind(alloc: Global, run: RunOf<'_>) -> Result<u32, Wrong> {
    let length = run.input.len() as u64;
    let passed = run.job.skip().seekable(length);
    if run.length > 0 || passed == 0 {
        return Ok(0);
    }
    let input = &run.input[passed as usize..];
    whole(
        alloc,
        RunOf {
            input,
            length,
            ..run
        },
        usize::MAX,
    )
}

/// Something happens at each read, or at each write, in turn. Tells how many there are.
fn calls(alloc: Global, run: RunOf<'_>, act: Act, reads: bool) -> Result<u32, Failure> {
    let mut call = 0u32;
    for plays in 0..MOST_CALLS {
        match one_call(alloc, run, Turn::new(act, call), reads) {
            Ok(true) => call = next_call(call),
            Ok(false) => return Ok(plays),
            Err(wrong) => return Err(at(call, wrong)),
        }
    }
    Ok(MOST_CALLS)
}

/// The call that is played behind this one: the next, and behind many a later one.
fn next_call(call: u32) -> u32 {
    call.saturating_add(1).saturating_add(call / 16)
}

/// Something happens at one read or write. Tells whether the call came.
fn one_call(alloc: Global, run: RunOf<'_>, turn: Turn, reads: bool) -> Result<bool, Wrong> {
    let ran = run_turned(alloc, run, turn, reads);
    if ran.came {
        turned_right(alloc, run, turn.act, reads, &ran)?;
    }
    Ok(ran.came)
}
