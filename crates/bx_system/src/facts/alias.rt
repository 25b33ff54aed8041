//! Two names of one file.
use crate::system::System;
use std::fs::{self, File, Metadata};
use std::io;
use std::os::unix::fs::MetadataExt;

/// Which file it is: the device that it stands on, and its number there.
#[derive(Clone, Copy, PartialEq, Eq)]
pub struct Identity {
    device: u64,
    inode: u64,
}

impl Identity {
    /// By what the system tells of a file.
    pub fn of(found: &Metadata) -> Identity {
        Identity {
            device: found.dev(),
            inode: found.ino(),
        }
    }
}

/// Whether both are the same file.
pub fn is_same(a: &Metadata, b: &Metadata) -> bool {
    Identity::of(a) == Identity::of(b)
}

/// Whether a file is empty, and the name its own and no link.
pub fn is_untouched<R: System>(rt: &R, name: &str, file: &File) -> io::Result<bool> {
    let opened = file.metadata()?;
    let named = fs::symlink_metadata(rt, name)?;
    Ok(opened.len() == 0 && is_same(&opened, &named))
}
