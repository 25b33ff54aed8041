//! Cases of reading.
use crate::reading::joined::same_runs;
use crate::reading::laid::{Laid, once_laid};
use crate::reading::source::{Streamed, once_from};
use crate::reading::wanted::{refused, same_plain};
use bumpalo::Bump;
use bx_cli::Fault;
use bx_read::{ReadFault, read_dump, read_plain};
use bx_text::Piece;
use std::alloc::{Allocator, Global};
use test_case_files::{ReadingCase, Reads};
use test_case_sessions::report::compare::{Wrong, differs, no_fault, same_bytes, same_number};
use test_case_sessions::session::ask::{Limit, eased, limit_to};
use test_case_sessions::sweep::hunt::{Call, each_growth};

mod joined;
mod laid;
mod source;
mod wanted;

/// The ways in which a case of reading is played.
pub static SWEEPS: [&str; 6] = [
    "read",
    "growths refused",
    "from a source",
    "from a source, growths refused",
    "written",
    "written, growths refused",
];

/// The longest text whose every piece is refused its memory.
const MOST_IN_PIECES: usize = 8192;

/// The longest text that is read from a source with its memory refused: more than a window.
const MOST_FROM_SOURCE: usize = 65537;

/// Plays a case in one way. Tells how often.
pub fn play_reading(alloc: Global, case: &ReadingCase, sweep: usize) -> Result<u32, Wrong> {
    match sweep {
        0 => once(alloc, case),
        1 if case.text.len() > MOST_IN_PIECES => Ok(0),
        1 => each_growth(alloc, &Whole { case }),
        2 => once_from(alloc, case),
        3 if case.text.len() > MOST_FROM_SOURCE => Ok(0),
        3 => each_growth(alloc, &Streamed { case }),
        4 => once_laid(alloc, case),
        _ if case.text.len() > MOST_FROM_SOURCE => Ok(0),
        _ => each_growth(alloc, &Laid { case }),
    }
}

/// Reads the text with memory enough.
fn once(alloc: Global, case: &ReadingCase) -> Result<u32, Wrong> {
    if reads(alloc, alloc, case)? {
        return Ok(1);
    }
    Err(Wrong::NoMemory)
}

/// A case whose text is read whole.
#[derive(Clone, Copy)]
struct Whole<'a> {
    case: &'a ReadingCase,
}

impl Call for Whole<'_> {
    fn make<'a>(
        &self,
        alloc: Global,
        bump: &'a Bump,
        limit: Limit<'_>,
    ) -> Result<Option<usize>, Wrong> {
        limit_to(limit)?;
        let has_room = reads(alloc, bump, self.case)?;
        Ok(eased(limit, !has_room))
    }
}

/// Whether there was memory of `memory` to read the text. What was read is what the case tells.
fn reads<A: Allocator + Clone>(
    alloc: Global,
    memory: A,
    case: &ReadingCase,
) -> Result<bool, Wrong> {
    if case.plain {
        plain(alloc, memory, case)
    } else {
        dump(alloc, memory, case)
    }
}

/// A text that can't be read: there was no memory, or the fault is the one that the case tells.
fn unread(alloc: Global, case: &ReadingCase, fault: ReadFault) -> Result<bool, Wrong> {
    if fault == ReadFault::NoMemory {
        return Ok(false);
    }
    refused(alloc, &case.reads, Fault::from(fault))?;
    Ok(true)
}

/// Reads plain hexadecimal.
fn plain<A: Allocator>(alloc: Global, memory: A, case: &ReadingCase) -> Result<bool, Wrong> {
    match read_plain(memory, case.text.as_slice()) {
        Ok(found) => {
            same_plain(alloc, &case.reads, found.as_slice())?;
            Ok(true)
        }
        Err(fault) => unread(alloc, case, fault),
    }
}

/// Reads a dump.
fn dump<A: Allocator + Clone>(alloc: Global, memory: A, case: &ReadingCase) -> Result<bool, Wrong> {
    match read_dump(memory, case.text.as_slice()) {
        Ok(found) => {
            same_dump(alloc, &case.reads, found.as_slice())?;
            Ok(true)
        }
        Err(fault) => unread(alloc, case, fault),
    }
}

/// A dump reads as these pieces.
fn same_dump<A: Allocator>(alloc: Global, reads: &Reads, found: &[Piece<A>]) -> Result<(), Wrong> {
    match reads {
        Reads::Pieces(wanted) => same_pieces(alloc, wanted.as_slice(), found),
        Reads::Runs(wanted) => same_runs(alloc, wanted.as_slice(), found),
        Reads::Fault(wanted) => Err(no_fault(alloc, wanted.as_str())),
        Reads::Bytes(_) => Err(differs(alloc, "pieces", "plain bytes", "pieces")),
    }
}

/// These are the pieces.
fn same_pieces<A: Allocator>(
    alloc: Global,
    wanted: &[(u64, Vec<u8>)],
    found: &[Piece<A>],
) -> Result<(), Wrong> {
    same_number(alloc, "pieces", wanted.len() as u64, found.len() as u64)?;
    for (wanted, found) in wanted.iter().zip(found.iter()) {
        same_piece(alloc, wanted, found)?;
    }
    Ok(())
}

fn same_piece<A: Allocator>(
    alloc: Global,
    wanted: &(u64, Vec<u8>),
    found: &Piece<A>,
) -> Result<(), Wrong> {
    same_number(alloc, "address", wanted.0, found.at)?;
    same_bytes(alloc, "piece", wanted.1.as_slice(), found.bytes.as_slice())
}
