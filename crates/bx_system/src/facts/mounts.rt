//! Block devices that are in use, and those that can't be written.
//!
//! The files of the kit can't be opened with `O_EXCL`, which the system answers itself, so its tables are read: the mounts
//! that this process sees, the swap files, and the devices that stand on others. A device that is read-only is opened for
//! writing all the same, and then refuses each write; its table is read before.
use crate::facts::holders::is_held;
use crate::facts::tables::{Unknown, field, is_part, number_text, table_of};
use crate::system::System;
use std::alloc::AllocError;
use std::fs::{self, Metadata};
use std::os::unix::fs::{FileTypeExt, MetadataExt};

/// The mounts that this process sees, a line for each.
const MOUNTS: &str = "/proc/self/mountinfo";

/// The swap files and devices, a line for each.
const SWAPS: &str = "/proc/swaps";

/// Whether a block device counts as mounted: a file system is mounted from it, it is used as swap, or another device stands on
/// it; each of them also by a partition.
///
/// # Errors
/// Where it isn't known.
pub fn is_mounted<R: System>(rt: &R, device: &Metadata) -> Result<bool, Unknown> {
    let Some(table) = table_of(rt, MOUNTS)? else {
        return Err(Unknown::NoTable);
    };
    let number = number_text(rt.alloc(), device.rdev())?;
    let number = number.as_str();
    Ok(is_in_table(rt, table.as_slice(), number) || is_swap(rt, number)? || is_held(rt, number)?)
}

/// Whether a block device is read-only, or is a partition of one that is. Where the system has no table, it counts as one that
/// can be written.
///
/// # Errors
/// Where memory is short.
pub fn is_read_only<R: System>(rt: &R, device: &Metadata) -> Result<bool, AllocError> {
    let number = number_text(rt.alloc(), device.rdev())?;
    let number = number.as_str();
    // The second is that of the disk that a partition stands on.
    for table in ["ro", "../ro"] {
        let table = format!(in rt.alloc(); "/sys/dev/block/{number}/{table}")?;
        if fs::read_to_string(rt, table.as_str()).is_ok_and(|whole| whole.as_str().trim_end()
            == "1")
        {
            return Ok(true);
        }
    }
    Ok(false)
}

/// Whether a line of the mounts names this device or a partition of it: by its number, or, where the file system has a number of
/// its own, as btrfs has, by its name.
fn is_in_table<R: System>(rt: &R, table: &[u8], number: &str) -> bool {
    for line in table.split(|byte| *byte == b'\n') {
        if is_part(rt, field(line, 2), number) || is_named(rt, source(line), number) {
            return true;
        }
    }
    false
}

/// What is mounted, as the line names it: behind the fields that may be missing, and a type.
fn source(line: &[u8]) -> &str {
    match line
        .windows(3)
        .position(|part| matches!(part, [b' ', b'-', b' ']))
    {
        Some(at) => field(&line[at..], 3),
        None => "",
    }
}

/// Whether this is a name of the device, or of a partition of it.
fn is_named<R: System>(rt: &R, name: &str, number: &str) -> bool {
    if !name.starts_with('/') {
        return false;
    }
    match fs::metadata(rt, name) {
        Ok(file) if file.file_type().is_block_device() => {
            match number_text(rt.alloc(), file.rdev()) {
                Ok(used) => is_part(rt, used.as_str(), number),
                Err(_) => true,
            }
        }
        Ok(_) | Err(_) => false,
    }
}

/// Whether the device, or a partition of it, is used as swap. A system without swap has no such table.
///
/// # Errors
/// Where it isn't known.
fn is_swap<R: System>(rt: &R, number: &str) -> Result<bool, Unknown> {
    let Some(table) = table_of(rt, SWAPS)? else {
        return Ok(false);
    };
    for line in table.as_slice().split(|byte| *byte == b'\n') {
        if is_named(rt, field(line, 0), number) {
            return Ok(true);
        }
    }
    Ok(false)
}
