//! A dump in memory: bx_dump.
use anyhow::Result;
use bx_dump::xxd::{XxdOptions, XxdStyle, xxd};
use bx_text::IoFault;
use std::alloc::Allocator;
use std::io::{self, Write};

/// The dump of bytes that xxd writes where it has no options.
fn dump_of<A: Allocator>(alloc: A, bytes: &[u8]) -> Result<Vec<u8, A>, IoFault> {
    let options = XxdOptions {
        cols: 16,
        group: 2,
        limit: None,
        seek: 0,
        shift: 0,
        upper: false,
        autoskip: false,
    };
    let mut input = bytes;
    let mut out = Vec::new(alloc);
    xxd(&mut input, &mut out, XxdStyle::Normal, &options)?;
    Ok(out)
}

pub fn show<R: Print + AllocGlobal>(rt: &R) -> Result<()> {
    let text = dump_of(rt.alloc(), b"a dump of 17 byte")?;
    io::writer(rt).write_all(text.as_slice())?;
    Ok(())
}
