//! Cases of reading whose text comes from a source, as a revert reads it.
use crate::reading::joined::are_runs_of;
use crate::reading::wanted::{refused, same_plain};
use bumpalo::Bump;
use bx_cli::{Fault, Form, change_from};
use bx_image::Change;
use bx_text::{IoFault, Source};
use std::alloc::{Allocator, Global};
use test_case_files::{ReadingCase, Reads};
use test_case_sessions::report::compare::{Wrong, differs, no_fault, same_number};
use test_case_sessions::session::ask::{Limit, eased, limit_to};
use test_case_sessions::sweep::hunt::Call;

/// No text of a case is longer.
const MOST: u64 = 1 << 40;

/// A case whose text comes from a source.
#[derive(Drop)]
pub struct Streamed<'a> {
    pub case: &'a ReadingCase,
}

/// Reads the text with memory enough.
pub fn once_from(alloc: Global, case: &ReadingCase) -> Result<u32, Wrong> {
    if reads_from(alloc, &alloc, case)? {
        return Ok(1);
    }
    Err(Wrong::NoMemory)
}

impl Call for Streamed<'_> {
    fn make<'a>(
        &self,
        alloc: Global,
        bump: &'a Bump,
        limit: Limit<'_>,
    ) -> Result<Option<usize>, Wrong> {
        limit_to(limit)?;
        let has_room = reads_from(alloc, &bump, self.case)?;
        Ok(eased(limit, !has_room))
    }
}

/// Whether there was memory of `memory` for the change that the text asks for. It is the one that the case tells.
fn reads_from<A: Allocator + Clone>(
    alloc: Global,
    memory: &A,
    case: &ReadingCase,
) -> Result<bool, Wrong> {
    let form = if case.plain { Form::Plain } else { Form::Dump };
    let mut source = Source::new(case.text.as_slice(), MOST);
    let expected = case.text.len() as u64;
    match change_from(memory, &mut source, form, 0, expected) {
        Ok(Ok(change)) => same_change(alloc, &case.reads, &change)?,
        Ok(Err(fault)) => refused(alloc, &case.reads, Fault::from(fault))?,
        Err(Fault::Io(IoFault::NoMemory)) => return Ok(false),
        Err(Fault::NothingToWrite) => no_bytes(alloc, &case.reads)?,
        Err(fault) => refused(alloc, &case.reads, fault)?,
    }
    Ok(true)
}

/// The case tells no bytes.
fn no_bytes(alloc: Global, reads: &Reads) -> Result<(), Wrong> {
    let count = match reads {
        Reads::Pieces(wanted) => wanted.len(),
        Reads::Runs(wanted) => wanted.len(),
        Reads::Bytes(wanted) => wanted.len(),
        Reads::Fault(wanted) => return Err(no_fault(alloc, wanted.as_str())),
    };
    same_number(alloc, "bytes", count as u64, 0)
}

/// The change places the bytes that the case tells, by one write for each run.
fn same_change<A: Allocator>(
    alloc: Global,
    reads: &Reads,
    change: &Change<A>,
) -> Result<(), Wrong> {
    match reads {
        Reads::Pieces(wanted) => are_runs_of(alloc, wanted.as_slice(), change.writes.as_slice()),
        Reads::Runs(wanted) => are_runs_of(alloc, wanted.as_slice(), change.writes.as_slice()),
        Reads::Fault(wanted) => Err(no_fault(alloc, wanted.as_str())),
        Reads::Bytes(_) => same_digits(alloc, reads, change),
    }
}

/// The change of plain hexadecimal places its bytes by one write.
fn same_digits<A: Allocator>(
    alloc: Global,
    reads: &Reads,
    change: &Change<A>,
) -> Result<(), Wrong> {
    match change.writes.as_slice() {
        [write] => same_plain(alloc, reads, write.bytes.as_slice()),
        _ => Err(differs(alloc, "writes", "one", "another number")),
    }
}
