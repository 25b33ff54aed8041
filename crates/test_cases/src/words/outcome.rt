//! What a run came to, beside what its case tells.
use crate::words::run::{Ran, RunOf, run_freely};
use crate::words::streams::Act;
use bx_cli::{Done, Fault};
use bx_dd::{Counts, report};
use bx_text::IoFault;
use md5::{Digest, Md5};
use std::alloc::{AllocError, Global};
use std::fmt::Write;
use test_case_files::{Records, Refusal, WordsCase};
use test_case_sessions::report::compare::{
    Wrong, differs, fault_text, front, front_of, no_fault, same_bytes, same_fault, same_faults,
    same_number, same_text,
};

/// A fault is the one that the case tells, and so is its status: 2 where the words are wrong, else 1.
fn same_refusal(alloc: Global, wanted: &Refusal, fault: Fault) -> Result<(), Wrong> {
    same_fault(alloc, wanted.text.as_str(), fault)?;
    let found = if fault == Fault::Usage { 2 } else { 1 };
    same_number(alloc, "status", wanted.status as u64, found)
}

/// A fault, where the case tells it or none should be.
pub fn refused(alloc: Global, wanted: &Option<Refusal>, fault: Fault) -> Result<(), Wrong> {
    match wanted {
        Some(refusal) => same_refusal(alloc, refusal, fault),
        None => same_fault(alloc, "no fault", fault),
    }
}

/// No fault, where the case tells none.
pub fn allowed(alloc: Global, wanted: &Option<Refusal>) -> Result<(), Wrong> {
    match wanted {
        Some(refusal) => Err(no_fault(alloc, refusal.text.as_str())),
        None => Ok(()),
    }
}

fn push_blocks(text: &mut String, whole: u64, part: u64, way: &str) -> Result<(), AllocError> {
    write!(text, "{whole}+{part} records {way}\n")
}

fn push_cut(text: &mut String, cut: u64) -> Result<(), AllocError> {
    match cut {
        0 => Ok(()),
        1 => text.push_str("1 truncated record\n"),
        _ => write!(text, "{cut} truncated records\n"),
    }
}

/// The report of dd's counts, as POSIX has it.
fn push_report(text: &mut String, records: Records) -> Result<(), AllocError> {
    push_blocks(text, records.whole_in, records.part_in, "in")?;
    push_blocks(text, records.whole_out, records.part_out, "out")?;
    push_cut(text, records.cut)
}

/// What dd counted is what the case tells, and so is its report.
fn same_counts(alloc: Global, wanted: Records, counts: Counts) -> Result<(), Wrong> {
    let mut text = String::new(alloc);
    push_report(&mut text, wanted)?;
    same_report(alloc, text.as_bytes(), counts)
}

fn same_report(alloc: Global, wanted: &[u8], counts: Counts) -> Result<(), Wrong> {
    match report(alloc, &counts) {
        Ok(found) => same_bytes(alloc, "report", wanted, found.as_slice()),
        Err(_) => Err(Wrong::NoMemory),
    }
}

/// What was counted is what the case tells, where it tells it.
fn counted(alloc: Global, case: &WordsCase, done: Done) -> Result<(), Wrong> {
    match (done, case.count, case.records) {
        (Done::Dumped(found), Some(wanted), _) => same_number(alloc, "count", wanted, found),
        (Done::Copied(counts), _, Some(wanted)) => same_counts(alloc, wanted, counts),
        _ => Ok(()),
    }
}

/// What was written is what the case tells, or has the sum that it tells.
fn same_output(alloc: Global, case: &WordsCase, output: &[u8]) -> Result<(), Wrong> {
    let Some(sum) = &case.sum else {
        return same_bytes(alloc, "output", case.output.as_slice(), output);
    };
    same_number(alloc, "length of output", sum.len, output.len() as u64)?;
    let found = digest_of(alloc, output)?;
    same_text(alloc, "MD5 of output", sum.md5.as_str(), found.as_str())
}

/// The MD5 digest in 32 digits.
pub fn digest_of(alloc: Global, bytes: &[u8]) -> Result<String, AllocError> {
    let mut text = String::new(alloc);
    for byte in Md5::digest(bytes) {
        write!(text, "{byte:02x}")?;
    }
    Ok(text)
}

/// What a run came to that nothing stopped.
pub fn right(
    alloc: Global,
    case: &WordsCase,
    done: Result<Done, Fault>,
    output: &[u8],
) -> Result<(), Wrong> {
    same_output(alloc, case, output)?;
    match done {
        Err(fault) => refused(alloc, &case.fault, fault),
        Ok(done) => {
            allowed(alloc, &case.fault)?;
            counted(alloc, case, done)
        }
    }
}

/// What a run came to that was stopped: some front of the output was written.
fn stopped(
    alloc: Global,
    case: &WordsCase,
    done: Result<Done, Fault>,
    wanted: Fault,
    output: &[u8],
) -> Result<(), Wrong> {
    front_of(alloc, "output", case.output.as_slice(), output)?;
    match done {
        Err(fault) => same_faults(alloc, wanted, fault),
        Ok(_) => {
            let wanted = fault_text(alloc, wanted)?;
            Err(no_fault(alloc, wanted.as_str()))
        }
    }
}

/// What a run came to at one of whose calls something happened.
pub fn turned_right(
    alloc: Global,
    run: RunOf<'_>,
    act: Act,
    reads: bool,
    ran: &Ran,
) -> Result<(), Wrong> {
    let output = ran.output.as_slice();
    let fault = match act {
        Act::Interrupt | Act::Half => return right(alloc, run.case, ran.done, output),
        Act::Nothing if reads => return ended(alloc, run, ran),
        Act::Fail if reads => IoFault::ReadFailed,
        Act::Fail | Act::Nothing => IoFault::WriteFailed {
            written: output.len() as u64,
        },
    };
    stopped(alloc, run.case, ran.done, Fault::Io(fault), output)
}

/// What a run came to whose input ended early: what comes of that front of the input.
fn ended(alloc: Global, run: RunOf<'_>, ran: &Ran) -> Result<(), Wrong> {
    let input = front(run.input, ran.given);
    let wanted = run_freely(alloc, RunOf { input, ..run }, usize::MAX);
    let output = wanted.output.as_slice();
    same_bytes(alloc, "output of a front", output, ran.output.as_slice())?;
    if wanted.done == ran.done {
        return Ok(());
    }
    Err(differs(
        alloc,
        "answer of a front",
        "that of the front alone",
        "another",
    ))
}
