//! The system's tables of devices, and the numbers that they have there.
use crate::system::System;
use std::alloc::{AllocError, Global};
use std::fs;
use std::io::ErrorKind;

/// Why it isn't known whether a device is in use.
#[derive(Clone, Copy, Debug, PartialEq, Eq)]
pub enum Unknown {
    /// Memory is short.
    NoMemory,
    /// A table of the system can't be read.
    NoTable,
}

impl From<AllocError> for Unknown {
    fn from(_: AllocError) -> Self {
        Unknown::NoMemory
    }
}

/// A table of the system; none where it has no such table.
///
/// # Errors
/// Where the table can't be read.
pub fn table_of<R: System>(rt: &R, name: &str) -> Result<Option<Vec<u8>>, Unknown> {
    match fs::read(rt, name) {
        Ok(table) => Ok(Some(table)),
        Err(e) if e.kind() == ErrorKind::NotFound => Ok(None),
        Err(e) if e.kind() == ErrorKind::OutOfMemory => Err(Unknown::NoMemory),
        Err(_) => Err(Unknown::NoTable),
    }
}

/// A field of a line, whatever the others are; empty where there is none, or where it isn't UTF-8.
pub fn field(line: &[u8], place: usize) -> &str {
    let found = line.split(|byte| *byte == b' ').nth(place);
    str::from_utf8(found.unwrap_or(b"")).unwrap_or("")
}

/// The same of a table whose columns are filled up with spaces.
pub fn column(line: &[u8], place: usize) -> &str {
    let found = line
        .split(|byte| *byte == b' ')
        .filter(|part| !part.is_empty())
        .nth(place);
    str::from_utf8(found.unwrap_or(b"")).unwrap_or("")
}

/// A device's number as the system's tables have it, MAJOR:MINOR, from Linux's encoding in one number.
pub fn number_text(alloc: Global, number: u64) -> Result<String, AllocError> {
    let major = ((number >> 32) & 0xffff_f000) | ((number >> 8) & 0xfff);
    let minor = ((number >> 12) & 0xffff_ff00) | (number & 0xff);
    format!(in alloc; "{major}:{minor}")
}

/// Whether the device with the number `used` is this one, or a partition of it; also where the system doesn't say.
pub fn is_part<R: System>(rt: &R, used: &str, number: &str) -> bool {
    if used == number {
        return true;
    }
    let Ok(name) = format!(in rt.alloc(); "/sys/dev/block/{used}/../dev") else {
        return true;
    };
    match fs::read_to_string(rt, name.as_str()) {
        Ok(whole) => whole.as_str().trim_end() == number,
        // what is no partition has no such file
        Err(e) => e.kind() != ErrorKind::NotFound,
    }
}
