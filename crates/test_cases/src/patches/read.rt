//! Texts of patches that are read.
use bx_patch::{Patch, PatchFault, PatchLengths, read_patch};
use bx_text::Piece;
use std::alloc::{Allocator, Global};
use test_case_files::{PatchAsks, PatchRead, PatchReads};
use test_case_sessions::report::compare::{
    Wrong, differs, no_fault, same_bytes, same_number, same_text,
};

/// Reads the text of a case with memory enough.
pub fn read_once(alloc: Global, case: &PatchRead) -> Result<u32, Wrong> {
    if reads(alloc, alloc, case)? {
        return Ok(1);
    }
    Err(Wrong::NoMemory)
}

/// Whether there was memory of `memory` to read the text. What was read is what the case tells.
pub fn reads<A: Allocator + Clone>(
    alloc: Global,
    memory: A,
    case: &PatchRead,
) -> Result<bool, Wrong> {
    match read_patch(memory, case.text.as_slice()) {
        Ok(patch) => {
            read_right(alloc, &case.reads, &patch)?;
            Ok(true)
        }
        Err(PatchFault::NoMemory) => Ok(false),
        Err(fault) => {
            refused(alloc, &case.reads, fault)?;
            Ok(true)
        }
    }
}

/// What was read is what the case tells.
fn read_right<A: Allocator>(
    alloc: Global,
    reads: &PatchReads,
    patch: &Patch<A>,
) -> Result<(), Wrong> {
    match reads {
        PatchReads::Asks(asks) => same_asks(alloc, asks, patch),
        PatchReads::Fault(wanted) => Err(no_fault(alloc, wanted.as_str())),
    }
}

/// A fault is the one that the case tells.
fn refused(alloc: Global, reads: &PatchReads, fault: PatchFault) -> Result<(), Wrong> {
    let found = format!(in alloc; "{fault}")?;
    match reads {
        PatchReads::Fault(wanted) => same_text(alloc, "fault", wanted.as_str(), found.as_str()),
        PatchReads::Asks(_) => Err(differs(alloc, "fault", "no fault", found.as_str())),
    }
}

/// A patch asks this.
fn same_asks<A: Allocator>(
    alloc: Global,
    wanted: &PatchAsks,
    found: &Patch<A>,
) -> Result<(), Wrong> {
    if wanted.lengths != told(found.lengths) {
        return Err(differs(alloc, "lengths", "those of the case", "others"));
    }
    same_pieces(
        alloc,
        "expected",
        wanted.expected.as_slice(),
        found.expected.as_slice(),
    )?;
    same_pieces(
        alloc,
        "written",
        wanted.written.as_slice(),
        found.written.as_slice(),
    )
}

/// The lengths, as a case has them.
fn told(lengths: Option<PatchLengths>) -> Option<(u64, u64)> {
    let lengths = lengths?;
    Some((lengths.old, lengths.new))
}

/// These are the pieces.
fn same_pieces<A: Allocator>(
    alloc: Global,
    what: &'static str,
    wanted: &[(u64, Vec<u8>)],
    found: &[Piece<A>],
) -> Result<(), Wrong> {
    same_number(alloc, what, wanted.len() as u64, found.len() as u64)?;
    for (wanted, found) in wanted.iter().zip(found.iter()) {
        same_number(alloc, what, wanted.0, found.at)?;
        same_bytes(alloc, what, wanted.1.as_slice(), found.bytes.as_slice())?;
    }
    Ok(())
}
