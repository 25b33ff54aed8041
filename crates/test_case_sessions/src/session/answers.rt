//! What commands and openings answer, beside what a case tells.
use crate::report::compare::{
    Wrong, differs, fault_text, no_fault, same_fault, same_text, unwanted,
};
use bx_cli::{Fault, Reply};
use bx_dd::Counts;
use std::alloc::{AllocError, Global};
use std::fmt::Write;
use test_case_files::{Answer, Found, Opening, Records};

/// An opening, as a case file writes it.
fn opening_text(alloc: Global, opening: Opening) -> Result<String, AllocError> {
    match opening {
        Opening::Clean { changes, undone: 0 } => format!(in alloc; "clean {changes}"),
        Opening::Clean { changes, undone } => format!(in alloc; "clean {changes} {undone}"),
        Opening::Dropped { changes } => format!(in alloc; "dropped {changes}"),
        Opening::Restored { number, changes } => {
            format!(in alloc; "restored {number} {changes}")
        }
    }
}

/// This is what opening found.
pub fn same_opening(alloc: Global, wanted: Opening, found: Opening) -> Result<(), Wrong> {
    if wanted == found {
        return Ok(());
    }
    let wanted = opening_text(alloc, wanted)?;
    let found = opening_text(alloc, found)?;
    Err(differs(alloc, "opening", wanted.as_str(), found.as_str()))
}

/// dd's counts, as a case file has them.
fn records_of(counts: Counts) -> Records {
    Records {
        whole_in: counts.whole_in,
        part_in: counts.part_in,
        whole_out: counts.whole_out,
        part_out: counts.part_out,
        cut: counts.cut,
    }
}

fn push_blocks(text: &mut String, whole: u64, part: u64) -> Result<(), AllocError> {
    write!(text, " {whole}+{part}")
}

fn push_records(text: &mut String, records: Records) -> Result<(), AllocError> {
    push_blocks(text, records.whole_in, records.part_in)?;
    push_blocks(text, records.whole_out, records.part_out)?;
    let cut = records.cut;
    write!(text, " {cut}")
}

fn counts_text(alloc: Global, number: u32, records: Records) -> Result<String, AllocError> {
    let mut text = format!(in alloc; "copied {number}")?;
    push_records(&mut text, records)?;
    Ok(text)
}

/// A reply, as a case file writes it.
fn reply_text(alloc: Global, reply: Reply) -> Result<String, AllocError> {
    match reply {
        Reply::Changed { number } => format!(in alloc; "changed {number}"),
        Reply::Copied { number, counts } => counts_text(alloc, number, records_of(counts)),
        Reply::Undone { left } => format!(in alloc; "undone {left}"),
        Reply::Redone { changes } => format!(in alloc; "redone {changes}"),
        Reply::Refused(fault) => fault_text(alloc, fault),
    }
}

fn answer_text(alloc: Global, answer: &Answer) -> Result<String, AllocError> {
    match answer {
        Answer::Changed(number) => format!(in alloc; "changed {number}"),
        Answer::Copied(number, records) => counts_text(alloc, *number, *records),
        Answer::Undone(left) => format!(in alloc; "undone {left}"),
        Answer::Redone(left) => format!(in alloc; "redone {left}"),
        Answer::Opened(opening) => opening_text(alloc, *opening),
        Answer::Refused(text) => String::from_str(alloc, text.as_str()),
    }
}

/// This is the reply to a command.
pub fn same_reply(alloc: Global, wanted: &Answer, reply: Reply) -> Result<(), Wrong> {
    let wanted = answer_text(alloc, wanted)?;
    same_reply_text(alloc, wanted.as_str(), reply)
}

/// These replies are the same.
pub fn same_replies(alloc: Global, wanted: Reply, found: Reply) -> Result<(), Wrong> {
    let wanted = reply_text(alloc, wanted)?;
    same_reply_text(alloc, wanted.as_str(), found)
}

/// The reply to a command has this text.
pub fn same_reply_text(alloc: Global, wanted: &str, reply: Reply) -> Result<(), Wrong> {
    let found = reply_text(alloc, reply)?;
    same_text(alloc, "reply", wanted, found.as_str())
}

/// Opening answered what the case tells: an opening or a fault.
pub fn found_so(alloc: Global, wanted: &Found, found: Result<Opening, Fault>) -> Result<(), Wrong> {
    match (wanted, found) {
        (Found::Opened(wanted), Ok(found)) => same_opening(alloc, *wanted, found),
        (Found::Opened(_), Err(fault)) => Err(unwanted(alloc, "opening", fault)),
        (Found::Refused(text), Ok(_)) => Err(no_fault(alloc, text.as_str())),
        (Found::Refused(text), Err(fault)) => same_fault(alloc, text.as_str(), fault),
    }
}
