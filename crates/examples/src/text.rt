//! A number that is read, and a line of xxd: bx_text.
use anyhow::Result;
use bx_text::{LineText, SizeFault, SizeStyle, read_size, xxd_line};
use std::io::{self, Write};

/// xxd's line for two bytes at the address that a text says.
fn line_at(address: &str) -> Result<LineText, SizeFault> {
    let at = read_size(address.as_bytes(), SizeStyle::Count)?;
    let line = xxd_line(at, b"bx");
    Ok(line)
}

pub fn show<R: Print>(rt: &R) -> Result<()> {
    let line = line_at("0x1f0")?;
    io::writer(rt).write_all(line.as_bytes())?;
    Ok(())
}
