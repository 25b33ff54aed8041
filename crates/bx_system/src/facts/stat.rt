//! What the system tells of a file, as the rule on files takes it; and whom this process acts for.
ghost use Rattle.std.specs.Prelude.{◌≡◌, ◌≤◌, IfOk, length};

use crate::facts::mounts::{is_mounted, is_read_only};
use crate::folders::folder_of;
use crate::system::System;
use bx_world::{Classes, Kind, Stat};
use std::alloc::AllocError;
use std::fs::{self, File, Metadata};
use std::io::{self, Read};
use std::os::unix::fs::{FileTypeExt, MetadataExt};

/// The number of root.
const ROOT: u32 = 0;

/// A number that no user has.
const NOBODY: u32 = u32::MAX;

/// The bit of a folder that its group may write, and that of one that others may write.
const GROUP_WRITES: u32 = 0o020;

const OTHERS_WRITE: u32 = 0o002;

/// What the system says of this process, a line for each fact.
const STATUS: &str = "/proc/self/status";

/// More than stands before its line of users, and behind it: this much takes one read.
const STATUS_FRONT: usize = 1024;

/// What the system tells of a file, but for what is asked of a device alone. `is_group_given` says whether its folder gives its
/// group to whatever anybody makes there.
///
/// A file system that doesn't count names tells none: such a file counts as one of one name.
pub fn stat_of(file: &Metadata, is_group_given: bool) -> Stat {
    let bits = file.mode();
    Stat {
        kind: kind_of(file),
        owner: file.uid(),
        group: file.gid(),
        is_group_given,
        reads: classes(bits, 0o040, 0o004),
        writes: classes(bits, 0o020, 0o002),
        links: file.nlink().max(1),
        is_mounted: false,
        is_read_only: false,
    }
}

/// The same, with what is asked of a device. One counts as mounted where that isn't known.
///
/// # Errors
/// Where memory is short.
pub fn whole_stat_of<R: System>(
    rt: &R,
    file: &Metadata,
    is_group_given: bool,
) -> Result<Stat, AllocError> {
    let stat = stat_of(file, is_group_given);
    match stat.kind {
        Kind::Block => Ok(Stat {
            is_mounted: is_mounted(rt, file).unwrap_or(true),
            is_read_only: is_read_only(rt, file)?,
            ..stat
        }),
        Kind::Regular | Kind::Other => Ok(stat),
    }
}

/// What a file is.
fn kind_of(file: &Metadata) -> Kind {
    if file.is_file() {
        Kind::Regular
    } else if file.file_type().is_block_device() {
        Kind::Block
    } else {
        Kind::Other
    }
}

/// The classes that have a permission, by the bit of each.
fn classes(bits: u32, group: u32, others: u32) -> Classes {
    Classes {
        group: bits & group != 0,
        others: bits & others != 0,
    }
}

/// Whether the group of a file of this name says nothing of its owner, who may have got it from a folder that gives its own: where
/// others may write the file's folder, or another group may, or it is the owner's. A file keeps its group where it is moved. Also
/// where that isn't known.
pub fn is_group_given<R: System>(rt: &R, name: &str, file: &Metadata) -> bool {
    match fs::metadata(rt, folder_of(name)) {
        Ok(folder) => {
            let bits = folder.mode();
            let others = bits & OTHERS_WRITE != 0;
            let another = bits & GROUP_WRITES != 0 && folder.gid() != file.gid();
            others || another || folder.uid() == file.uid()
        }
        Err(_) => true,
    }
}

/// Whether a user is root, or the one that this process acts for.
pub fn is_root_or_caller<R: System>(rt: &R, user: u32) -> bool {
    user == ROOT || user == caller_of(rt)
}

/// Reads the front of a file, as much as one read gives.
fn read_front<R: System>(rt: &R, name: &str, front: &mut [u8]) -> io::Result<usize>
    ensures within { IfOk result (λ count. count ≤ length front.old) }
    ensures length { length front.new ≡ length front.old }
{
    let mut file = File::open(rt, name)?;
    file.read(front)
}

/// The user that this process acts for. Where the system doesn't say, it acts for nobody.
pub fn caller_of<R: System>(rt: &R) -> u32 {
    let mut front = [0; STATUS_FRONT];
    let Ok(count) = read_front(rt, STATUS, &mut front) else {
        return NOBODY;
    };
    for line in front[..count].split(|byte| *byte == b'\n') {
        if let Some(users) = str::from_utf8(line).unwrap_or("").strip_prefix("Uid:\t") {
            return effective(users).unwrap_or(NOBODY);
        }
    }
    NOBODY
}

/// The second of the four users that the system names: the real one, the effective one, and two more.
fn effective(users: &str) -> Option<u32> {
    users.split('\t').nth(1)?.parse::<u32>().ok()
}
