//! Lines of a dump, byte by byte, as the definition of xxd's default lines has them.
use std::alloc::{AllocError, Global};
use std::fmt::Write;

/// How many bytes a line shows.
const COLUMNS: usize = 16;

/// The address, and the digits of each byte or the room for them.
fn push_digits(line: &mut String, at: u64, row: &[u8]) -> Result<(), AllocError> {
    write!(line, "{at:08x}:")?;
    for i in 0..COLUMNS {
        if i % 2 == 0 {
            line.push(' ')?;
        }
        match row.get(i) {
            Some(byte) => write!(line, "{byte:02x}")?,
            None => line.push_str("  ")?,
        }
    }
    Ok(())
}

/// A byte as the text column shows it.
fn shown(byte: u8) -> u8 {
    if (0x20..=0x7e).contains(&byte) {
        byte
    } else {
        b'.'
    }
}

/// Puts the line of these bytes, at most sixteen, behind the others.
fn push_line(alloc: Global, out: &mut Vec<u8>, at: u64, row: &[u8]) -> Result<(), AllocError> {
    let mut digits = String::new(alloc);
    push_digits(&mut digits, at, row)?;
    out.extend_from_slice(digits.as_bytes())?;
    out.extend_from_slice(b"  ")?;
    for byte in row {
        out.push(shown(*byte))?;
    }
    out.push(b'\n')?;
    Ok(())
}

/// Puts the lines of these bytes behind the others, the first of them for an address.
pub fn push_dump(
    alloc: Global,
    out: &mut Vec<u8>,
    at: u64,
    bytes: &[u8],
) -> Result<(), AllocError> {
    let mut at = at;
    for row in bytes.chunks(COLUMNS) {
        push_line(alloc, out, at, row)?;
        at = at.saturating_add(row.len() as u64);
    }
    Ok(())
}
