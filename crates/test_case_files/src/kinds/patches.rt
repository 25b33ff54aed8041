//! Cases of patches.
use crate::cursor::Cursor;
use crate::fault::{CaseFault, Trouble};
use crate::kinds::told::{needed_bytes, placed};
use crate::kinds::words::{Sum, written};
use crate::values::{number, split_space};
use std::alloc::Global;

/// Two images, and the patch from one to the other.
#[derive(Drop)]
pub struct PatchWritten {
    pub old: Vec<u8>,
    pub new: Vec<u8>,
    /// What is written; empty where its sum is given.
    pub output: Vec<u8>,
    /// The sum of what is written, in its place.
    pub sum: Option<Sum>,
    /// What is written with whole rows, where the case says it.
    pub rows: Option<Vec<u8>>,
}

/// What a patch asks.
#[derive(Drop)]
pub struct PatchAsks {
    /// The length before and the one after, where a line states them.
    pub lengths: Option<(u64, u64)>,
    /// The bytes that are expected, each with its address.
    pub expected: Vec<(u64, Vec<u8>)>,
    /// The bytes that are written, each with its address.
    pub written: Vec<(u64, Vec<u8>)>,
}

/// What the text of a patch gives.
#[derive(Drop)]
pub enum PatchReads {
    /// What it asks.
    Asks(PatchAsks),
    /// A fault, by its text.
    Fault(String),
}

/// The text of a patch, and what it gives.
#[derive(Drop)]
pub struct PatchRead {
    pub text: Vec<u8>,
    pub reads: PatchReads,
}

/// A patch that is written, or one that is read.
#[derive(Drop)]
pub enum PatchCase {
    Written(PatchWritten),
    Read(PatchRead),
}

/// The case whose lines follow.
pub fn patch_case(alloc: Global, cursor: &mut Cursor<'_>) -> Result<PatchCase, CaseFault> {
    match cursor.bytes(alloc, "patch")? {
        Some(text) => Ok(PatchCase::Read(PatchRead {
            text,
            reads: reads_of(alloc, cursor)?,
        })),
        None => Ok(PatchCase::Written(written_case(alloc, cursor)?)),
    }
}

/// Two images, and what is written of them.
fn written_case(alloc: Global, cursor: &mut Cursor<'_>) -> Result<PatchWritten, CaseFault> {
    let old = needed_bytes(alloc, cursor, "old")?;
    let new = needed_bytes(alloc, cursor, "new")?;
    let (output, sum) = written(alloc, cursor)?;
    let rows = cursor.bytes(alloc, "rows")?;
    Ok(PatchWritten {
        old,
        new,
        output,
        sum,
        rows,
    })
}

/// What a text gives.
fn reads_of(alloc: Global, cursor: &mut Cursor<'_>) -> Result<PatchReads, CaseFault> {
    if let Some(text) = cursor.text(alloc, "fault")? {
        return Ok(PatchReads::Fault(text));
    }
    let lengths = lengths(cursor)?;
    let expected = pieces(alloc, cursor, "expected")?;
    let written = pieces(alloc, cursor, "written")?;
    Ok(PatchReads::Asks(PatchAsks {
        lengths,
        expected,
        written,
    }))
}

/// The two lengths, if the next line tells them.
fn lengths(cursor: &mut Cursor<'_>) -> Result<Option<(u64, u64)>, CaseFault> {
    let Some(value) = cursor.value("lengths")? else {
        return Ok(None);
    };
    let (old, new) = split_space(value);
    match (number(old), new.and_then(number)) {
        (Some(old), Some(new)) => Ok(Some((old, new))),
        _ => Err(cursor.trouble(Trouble::BadNumber)),
    }
}

/// The pieces that the next lines of this word tell.
fn pieces(
    alloc: Global,
    cursor: &mut Cursor<'_>,
    word: &str,
) -> Result<Vec<(u64, Vec<u8>)>, CaseFault> {
    let mut list = Vec::new(alloc);
    for _ in 0..cursor.len() {
        let Some(value) = cursor.value(word)? else {
            break;
        };
        list.push(placed(alloc, cursor, value)?)?;
    }
    Ok(list)
}
