//! Block devices that others stand on, as an array, a volume or an encrypted device, which the system calls their holders.
//!
//! A device has a folder with a link by the name of each holder. Whether a folder has a name in it is asked for each name in
//! the table of all devices, since listing a folder takes bounds that each caller would have to have too.
use crate::facts::tables::{Unknown, column, is_part, table_of};
use crate::system::System;
use std::alloc::AllocError;
use std::fs;
use std::io::ErrorKind;

/// All block devices that have a length, a line for each: its number in two columns, its length and its name.
const DEVICES: &str = "/proc/partitions";

/// Whether another device stands on this one, on a partition of it, or on the disk that it is a partition of. Where the system
/// has no table of devices, none does.
///
/// # Errors
/// Where it isn't known.
pub fn is_held<R: System>(rt: &R, number: &str) -> Result<bool, Unknown> {
    let Some(table) = table_of(rt, DEVICES)? else {
        return Ok(false);
    };
    let table = table.as_slice();
    // above what is no partition is a folder that has no holders
    let above = format!(in rt.alloc(); "{number}/..")?;
    Ok(has_holder(rt, table, above.as_str())? || is_part_held(rt, table, number)?)
}

/// Whether a device of the table stands on this one or on a partition of it.
fn is_part_held<R: System>(rt: &R, table: &[u8], number: &str) -> Result<bool, AllocError> {
    for line in table.split(|byte| *byte == b'\n') {
        let (major, minor) = (column(line, 0), column(line, 1));
        let used = format!(in rt.alloc(); "{major}:{minor}")?;
        let used = used.as_str();
        if is_part(rt, used, number) && has_holder(rt, table, used)? {
            return Ok(true);
        }
    }
    Ok(false)
}

/// Whether a device of the table stands on the one in this place below `/sys/dev/block`.
fn has_holder<R: System>(rt: &R, table: &[u8], place: &str) -> Result<bool, AllocError> {
    for line in table.split(|byte| *byte == b'\n') {
        let name = column(line, 3);
        if !name.is_empty() && is_holder(rt, place, name)? {
            return Ok(true);
        }
    }
    Ok(false)
}

/// Whether the device with this name stands on the one in this place; also where the system doesn't say. In its folders `!`
/// stands for the `/` of a name.
fn is_holder<R: System>(rt: &R, place: &str, name: &str) -> Result<bool, AllocError> {
    let name = name.replace(rt.alloc(), '/', "!")?;
    let name = name.as_str();
    let link = format!(in rt.alloc(); "/sys/dev/block/{place}/holders/{name}")?;
    match fs::symlink_metadata(rt, link.as_str()) {
        Ok(_) => Ok(true),
        Err(e) => Ok(e.kind() != ErrorKind::NotFound),
    }
}
