//! A dump that is read: bx_read.
use anyhow::Result;
use bx_read::{ReadFault, read_dump};
use std::alloc::Allocator;

/// How many bytes the lines of a dump have, or the fault of its first faulty line.
fn bytes_in<A: Allocator + Clone>(alloc: A, dump: &str) -> Result<usize, ReadFault> {
    let mut count = 0usize;
    let pieces = read_dump(alloc, dump.as_bytes())?;
    for piece in pieces.as_slice() {
        count = count.saturating_add(piece.bytes.as_slice().len());
    }
    Ok(count)
}

pub fn show<R: Print + AllocGlobal>(rt: &R) -> Result<()> {
    let count = bytes_in(rt.alloc(), "00000010: 6278  bx\n00000020: 0a\n")?;
    println!(rt; "{count} bytes")?;
    if let Err(fault) = bytes_in(rt.alloc(), "00000010: 6278  bx\n00000020: 0g\n") {
        println!(rt; "{fault}")?;
    }
    Ok(())
}
