//! The folders that names stand in.
use crate::system::System;
use std::fs::File;
use std::io::{self, ErrorKind};

/// The folder of a name.
pub fn folder_of(name: &str) -> &str {
    match name.rsplit_once('/') {
        None => ".",
        Some(("", _)) => "/",
        Some((folder, _)) => folder,
    }
}

/// Whether the system says that such a folder can't be synced at all, or not by this user.
fn is_passed(error: &io::Error) -> bool {
    matches!(
        error.kind(),
        ErrorKind::InvalidInput | ErrorKind::Unsupported | ErrorKind::PermissionDenied
    )
}

/// Puts the names that a folder has on the disk.
///
/// # Errors
/// Where the folder can't be opened or synced. One of a file system without such a sync, and one that this user may not read, is
/// passed by.
pub fn sync_folder<R: System>(rt: &R, folder: &str) -> io::Result<()> {
    match File::open(rt, folder).and_then(|opened| opened.sync_all()) {
        Ok(()) => Ok(()),
        Err(error) if is_passed(&error) => Ok(()),
        Err(error) => Err(error),
    }
}
