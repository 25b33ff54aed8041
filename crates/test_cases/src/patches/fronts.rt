//! Fronts of patches: where even a single byte is missing, it is none.
use crate::patches::write::written;
use bx_patch::{Extent, PatchFault, read_patch};
use std::alloc::Global;
use test_case_files::{PatchRead, PatchReads, PatchWritten};
use test_case_sessions::report::compare::{Wrong, differs, no_fault};

/// What is wrong with each front.
const NO_END: &str = "the patch has no end";

/// The fronts of what is written of a case. Tells how many these are.
pub fn of_written(alloc: Global, case: &PatchWritten) -> Result<u32, Wrong> {
    let text = written(alloc, case, Extent::Bytes, usize::MAX)?;
    each_front(alloc, text.as_slice())
}

/// The fronts of a case's text, where that is a patch.
pub fn of_read(alloc: Global, case: &PatchRead) -> Result<u32, Wrong> {
    match case.reads {
        PatchReads::Asks(_) => each_front(alloc, case.text.as_slice()),
        PatchReads::Fault(_) => Ok(0),
    }
}

/// Each front of a text that is shorter than it has no end.
fn each_front(alloc: Global, text: &[u8]) -> Result<u32, Wrong> {
    let mut count: u32 = 0;
    for len in 0..text.len() {
        has_no_end(alloc, &text[..len])?;
        count = count.saturating_add(1);
    }
    Ok(count)
}

/// A text is refused, since it has no end.
fn has_no_end(alloc: Global, text: &[u8]) -> Result<(), Wrong> {
    match read_patch(alloc, text) {
        Ok(_) => Err(no_fault(alloc, NO_END)),
        Err(PatchFault::NoEnd) => Ok(()),
        Err(fault) => {
            let found = format!(in alloc; "{fault}")?;
            Err(differs(alloc, "fault", NO_END, found.as_str()))
        }
    }
}
