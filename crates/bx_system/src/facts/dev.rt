//! The folder of devices, where no file is made.
use crate::system::System;
use std::fs;
use std::os::unix::fs::MetadataExt;

/// The folder that the system keeps its devices in.
const DEVICES: &str = "/dev";

/// Whether a folder is of the file system that has the devices. One in it that is a file system of its own, as `/dev/shm`, isn't.
/// Where the devices have none of their own, the folder is theirs or below it.
pub fn is_among_devices<R: System>(rt: &R, folder: &str) -> bool {
    let (Ok(found), Ok(devices)) = (fs::metadata(rt, folder), fs::metadata(rt, DEVICES)) else {
        return false;
    };
    if found.dev() != devices.dev() {
        return false;
    }
    let is_own = fs::metadata(rt, "/").is_ok_and(|root| root.dev() != devices.dev());
    is_own || is_below(rt, folder)
}

/// Whether a folder is that of the devices, or below it, once all links are followed.
fn is_below<R: System>(rt: &R, folder: &str) -> bool {
    let Ok(place) = fs::canonicalize(rt, folder) else {
        return false;
    };
    match place.as_path().as_str().strip_prefix(DEVICES) {
        Some(rest) => rest.is_empty() || rest.starts_with('/'),
        None => false,
    }
}
