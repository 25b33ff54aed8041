//! Patches that are written, to a writer that may fail.
use crate::words::outcome::digest_of;
use crate::words::streams::{Act, Output, Turn};
use bx_image::{Device, MemImage};
use bx_patch::{DiffFault, Extent, Unknown, write_patch};
use std::alloc::{Allocator, Global};
use std::io::Write;
use test_case_files::PatchWritten;
use test_case_sessions::report::compare::{
    Wrong, differs, front_of, same_bytes, same_number, same_text,
};
use test_case_sessions::session::MANY;

/// How many calls of a writer fail at most, one after another.
const MOST_CALLS: u32 = 100_000;

/// The most bytes that a writer takes in one call; of a long text more, so that the calls stay few.
const EACH_WRITE: usize = 61;

const FEW_CALLS: usize = 400;

/// An image in memory.
fn image<A: Allocator + Clone>(memory: &A, bytes: &[u8]) -> Result<MemImage<A>, Wrong> {
    let image = MemImage::from_vec(bytes.to_vec(memory.clone()?)?);
    if image.faults() > MANY {
        return Err(Wrong::Unknown);
    }
    Ok(image)
}

/// The images of a case, in this memory.
pub fn images<A: Allocator + Clone>(
    memory: &A,
    case: &PatchWritten,
) -> Result<(MemImage<A>, MemImage<A>), Wrong> {
    let old = image(memory, case.old.as_slice())?;
    Ok((old, image(memory, case.new.as_slice())?))
}

/// Writes the patch of two images.
pub fn write<A: Allocator + Clone, W: Write>(
    memory: &A,
    images: (MemImage<A>, MemImage<A>),
    extent: Extent,
    to: &mut W,
) -> Result<Result<(), DiffFault>, Wrong> {
    let (mut old, mut new) = images;
    if old.faults() > MANY {
        return Err(Wrong::Unknown);
    }
    if new.faults() > MANY {
        return Err(Wrong::Unknown);
    }
    Ok(write_patch(memory, &mut old, &mut new, to, extent, &Unknown))
}

/// The patch of a case, which nothing stops.
pub fn written(
    alloc: Global,
    case: &PatchWritten,
    extent: Extent,
    each: usize,
) -> Result<Vec<u8>, Wrong> {
    let mut to = Output::new(alloc, each, Turn::never());
    if let Err(fault) = write(&alloc, images(&alloc, case)?, extent, &mut to)? {
        let found = format!(in alloc; "{fault}")?;
        return Err(differs(alloc, "fault", "no fault", found.as_str()));
    }
    Ok(to.taken)
}

/// The patch is what the case tells, written `each` bytes a call.
pub fn whole(alloc: Global, case: &PatchWritten, extent: Extent, each: usize) -> Result<(), Wrong> {
    let found = written(alloc, case, extent, each)?;
    match (extent, &case.rows, &case.sum) {
        (Extent::Rows, Some(rows), _) => {
            same_bytes(alloc, "rows", rows.as_slice(), found.as_slice())
        }
        (_, _, Some(sum)) => {
            same_number(alloc, "length of output", sum.len, found.len() as u64)?;
            let md5 = digest_of(alloc, found.as_slice())?;
            same_text(alloc, "MD5 of output", sum.md5.as_str(), md5.as_str())
        }
        _ => same_bytes(alloc, "output", case.output.as_slice(), found.as_slice()),
    }
}

/// Each call of the writer fails in turn, of many some. Tells how many did.
pub fn calls(alloc: Global, case: &PatchWritten) -> Result<u32, Wrong> {
    let text = written(alloc, case, Extent::Bytes, usize::MAX)?;
    let mut call = 0u32;
    for plays in 0..MOST_CALLS {
        if !one_call(alloc, case, text.as_slice(), call)? {
            return Ok(plays);
        }
        call = call.saturating_add(1).saturating_add(call / 16);
    }
    Ok(MOST_CALLS)
}

/// A call of the writer fails: a front of the text was written, and the fault tells how much. Tells whether the call came.
fn one_call(alloc: Global, case: &PatchWritten, text: &[u8], call: u32) -> Result<bool, Wrong> {
    let each = EACH_WRITE.max(text.len() / FEW_CALLS);
    let mut to = Output::new(alloc, each, Turn::new(Act::Fail, call));
    let done = write(&alloc, images(&alloc, case)?, Extent::Bytes, &mut to)?;
    let came = to.turn.is_over;
    if !came {
        return Ok(false);
    }
    front_of(alloc, "output", text, to.taken.as_slice())?;
    let written = to.taken.len() as u64;
    if done == Err(DiffFault::WriteFailed { written }) {
        return Ok(true);
    }
    Err(differs(alloc, "fault", "that of the write", "another"))
}
