//! Cases of reading whose bytes are written as they stand in nothing.
use crate::reading::wanted::refused;
use bumpalo::Bump;
use bx_cli::Fault;
use bx_read_stream::{StreamFault, lay_dump, lay_plain};
use bx_text::{IoFault, Source};
use std::alloc::{Allocator, Global};
use std::io::{self, ErrorKind, Write};
use test_case_files::{ReadingCase, Reads};
use test_case_sessions::report::compare::{Wrong, differs, no_fault, same_bytes, same_number};
use test_case_sessions::session::ask::{Limit, eased, limit_to};
use test_case_sessions::sweep::hunt::Call;

/// No text of a case is longer.
const MOST: u64 = 1 << 40;

/// The longest image that is written.
const MOST_BYTES: usize = 1 << 20;

/// A case whose bytes are written.
#[derive(Drop)]
pub struct Laid<'a> {
    pub case: &'a ReadingCase,
}

/// Writes the bytes with memory enough.
pub fn once_laid(alloc: Global, case: &ReadingCase) -> Result<u32, Wrong> {
    if lays(alloc, alloc, case)? {
        return Ok(1);
    }
    Err(Wrong::NoMemory)
}

impl Call for Laid<'_> {
    fn make<'a>(
        &self,
        alloc: Global,
        bump: &'a Bump,
        limit: Limit<'_>,
    ) -> Result<Option<usize>, Wrong> {
        limit_to(limit)?;
        let has_room = lays(alloc, bump, self.case)?;
        Ok(eased(limit, !has_room))
    }
}

/// A writer of an image that isn't too long.
#[derive(Drop)]
struct Room {
    taken: Vec<u8>,
}

impl Write for Room {
    fn write(&mut self, buf: &[u8]) -> io::Result<usize> {
        if self.taken.len().saturating_add(buf.len()) > MOST_BYTES {
            return Err(io::Error::from(ErrorKind::Other));
        }
        self.taken.write(buf)
    }

    fn flush(&mut self) -> io::Result<()> {
        Ok(())
    }
}

/// Whether there was memory of `memory` to write what the text makes of nothing. It is what the case tells.
fn lays<A: Allocator + Clone>(alloc: Global, memory: A, case: &ReadingCase) -> Result<bool, Wrong> {
    let mut room = Room {
        taken: Vec::new(alloc),
    };
    let outcome = if case.plain {
        let mut source = Source::new(case.text.as_slice(), MOST);
        lay_plain(&memory, &mut source, &mut room, 0, 0)
    } else {
        let mut text = case.text.as_slice();
        lay_dump(memory, &mut text, &mut room, 0)
    };
    match outcome {
        Ok(count) => same_image(alloc, &case.reads, count, room.taken.as_slice())?,
        Err(StreamFault::Read(fault)) => refused(alloc, &case.reads, Fault::from(fault))?,
        Err(StreamFault::Behind { .. }) => goes_back(alloc, &case.reads)?,
        Err(StreamFault::Io(IoFault::NoMemory)) => return Ok(false),
        Err(StreamFault::Io(fault)) => is_far(alloc, &case.reads, fault)?,
    }
    Ok(true)
}

/// The image that was written is the one of the case's bytes.
fn same_image(alloc: Global, reads: &Reads, count: u64, found: &[u8]) -> Result<(), Wrong> {
    same_number(alloc, "bytes", found.len() as u64, count)?;
    match reads {
        Reads::Pieces(wanted) => same_bytes(
            alloc,
            "image",
            image(alloc, wanted)?.as_slice(),
            found,
        ),
        Reads::Runs(wanted) => same_bytes(alloc, "image", image(alloc, wanted)?.as_slice(), found),
        Reads::Bytes(wanted) => same_bytes(alloc, "image", wanted.as_slice(), found),
        Reads::Fault(wanted) => Err(no_fault(alloc, wanted.as_str())),
    }
}

/// The image of pieces that each begin where nothing was written.
fn image(alloc: Global, pieces: &[(u64, Vec<u8>)]) -> Result<Vec<u8>, Wrong> {
    let mut image = Vec::new(alloc);
    for piece in pieces {
        let end = image.len() as u64;
        if piece.0 < end {
            return Err(differs(alloc, "line", "one that goes back", "none"));
        }
        for _ in end..piece.0 {
            image.push(0)?;
        }
        image.extend_from_slice(piece.1.as_slice())?;
    }
    Ok(image)
}

/// How far the pieces reach that the case tells, and whether one of them goes back.
fn reach(pieces: &[(u64, Vec<u8>)]) -> (u64, bool) {
    let mut end = 0u64;
    let mut back = false;
    for piece in pieces {
        back |= piece.0 < end;
        end = end.max(piece.0.saturating_add(piece.1.len() as u64));
    }
    (end, back)
}

/// One of the pieces begins where something was written. A text with a fault may have such lines before it.
fn goes_back(alloc: Global, reads: &Reads) -> Result<(), Wrong> {
    let back = match reads {
        Reads::Pieces(wanted) => reach(wanted.as_slice()).1,
        Reads::Runs(wanted) => reach(wanted.as_slice()).1,
        Reads::Fault(_) => true,
        Reads::Bytes(_) => false,
    };
    if back {
        return Ok(());
    }
    Err(differs(alloc, "line", "one that goes on", "one that goes back"))
}

/// The pieces reach further than an image that is written, and writing failed. A text with a fault may have such lines before it.
fn is_far(alloc: Global, reads: &Reads, fault: IoFault) -> Result<(), Wrong> {
    let far = match reads {
        Reads::Pieces(wanted) => reach(wanted.as_slice()).0 > MOST_BYTES as u64,
        Reads::Runs(wanted) => reach(wanted.as_slice()).0 > MOST_BYTES as u64,
        Reads::Fault(_) => true,
        Reads::Bytes(_) => false,
    };
    if far && matches!(fault, IoFault::WriteFailed { .. }) {
        return Ok(());
    }
    refused(alloc, reads, Fault::Io(fault))
}
