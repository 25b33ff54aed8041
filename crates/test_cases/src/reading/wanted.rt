//! What a case of reading tells: a fault, or the bytes of plain hexadecimal.
use bx_cli::Fault;
use std::alloc::Global;
use test_case_files::Reads;
use test_case_sessions::report::compare::{Wrong, differs, no_fault, same_bytes, same_fault};

/// A fault is the one that the case tells.
pub fn refused(alloc: Global, reads: &Reads, fault: Fault) -> Result<(), Wrong> {
    match reads {
        Reads::Fault(text) => same_fault(alloc, text.as_str(), fault),
        _ => same_fault(alloc, "no fault", fault),
    }
}

/// Plain hexadecimal reads as these bytes.
pub fn same_plain(alloc: Global, reads: &Reads, found: &[u8]) -> Result<(), Wrong> {
    match reads {
        Reads::Bytes(wanted) => same_bytes(alloc, "bytes", wanted.as_slice(), found),
        Reads::Fault(wanted) => Err(no_fault(alloc, wanted.as_str())),
        _ => Err(differs(alloc, "bytes", "pieces", "plain bytes")),
    }
}
