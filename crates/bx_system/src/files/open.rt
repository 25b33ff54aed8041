//! Opening one file, its lock, and taking away what was made.
use crate::facts::alias::is_untouched;
use crate::system::System;
use std::fs::{self, File, Metadata, TryLockError};
use std::io::{self, ErrorKind, Seek, SeekFrom};
use std::os::unix::fs::FileTypeExt;

/// Opens a file that is there.
pub fn open_there<R: System>(rt: &R, name: &str, writes: bool) -> io::Result<File> {
    let mut how = File::options();
    how.read(true).write(writes);
    how.open(rt, name)
}

/// Opens a regular file to read it. Where it may be written it is opened for that too: a pipe that has taken its place by now is
/// then open at once, and else not before somebody writes it. The system can't be asked for that in another way here.
pub fn open_regular<R: System>(rt: &R, name: &str) -> io::Result<File> {
    match open_there(rt, name, true) {
        Ok(file) => Ok(file),
        Err(error) if error.kind() == ErrorKind::NotFound => Err(error),
        Err(_) => open_there(rt, name, false),
    }
}

/// Opens a regular file or a block device to read it, and refuses any other one that has taken its place.
pub fn open_to_read<R: System>(rt: &R, name: &str) -> io::Result<File> {
    let kind = fs::metadata(rt, name)?.file_type();
    let file = if kind.is_file() {
        open_regular(rt, name)?
    } else if kind.is_block_device() {
        open_there(rt, name, false)?
    } else {
        return Err(io::Error::from(ErrorKind::InvalidInput));
    };
    let kind = file.metadata()?.file_type();
    if kind.is_file() || kind.is_block_device() {
        Ok(file)
    } else {
        Err(io::Error::from(ErrorKind::InvalidInput))
    }
}

/// The length of a file that can't have another one: of a block device.
pub fn fixed_length(file: &File) -> io::Result<Option<u64>> {
    fixed_length_of(file, &file.metadata()?)
}

/// The same, by what the system has of the file.
pub fn fixed_length_of(mut file: &File, found: &Metadata) -> io::Result<Option<u64>> {
    if found.file_type().is_block_device() {
        // The system tells the length of a device by no other call of the kit.
        return Ok(Some(file.seek(SeekFrom::End(0))?));
    }
    Ok(None)
}

/// How many bytes a file has that has a place for each of them, a regular file or a block device, and can be moved; none of
/// another one, or where it doesn't tell. It stays where it stands.
pub fn length_of(mut file: &File) -> Option<u64> {
    let kind = file.metadata().ok()?.file_type();
    if !kind.is_file() && !kind.is_block_device() {
        return None;
    }
    let at = file.seek(SeekFrom::Current(0)).ok()?;
    let length = file.seek(SeekFrom::End(0)).ok()?;
    file.seek(SeekFrom::Start(at)).ok()?;
    Some(length)
}

/// Where the file system has no locks it goes on without.
fn where_there_are_locks(outcome: Result<(), TryLockError>) -> Result<(), TryLockError> {
    match outcome {
        // Else no command would work there; `man bx`, CAVEATS, says so.
        Err(TryLockError::Error(e)) if e.kind() == ErrorKind::Unsupported => Ok(()),
        outcome => outcome,
    }
}

/// Locks a file, without waiting, up to its closing. A lock belongs to one opening, so a file that this run has open under
/// another name is refused like one that another program holds.
pub fn lock(file: &File) -> Result<(), TryLockError> {
    where_there_are_locks(file.try_lock())
}

/// The same for one that is only read: such locks are held beside one another.
pub fn lock_shared(file: &File) -> Result<(), TryLockError> {
    where_there_are_locks(file.try_lock_shared())
}

/// Takes a file away that this run made, if it is still empty and still has its name. Where the name is a link to it, the link
/// stays.
pub fn take_away<R: System>(rt: &R, name: &str, file: &File) {
    if is_untouched(rt, name, file).is_ok_and(|is| is) {
        let _ = fs::remove_file(rt, name);
    } else if let Ok(place) = fs::canonicalize(rt, name) {
        let place = place.as_path().as_str();
        if is_untouched(rt, place, file).is_ok_and(|is| is) {
            let _ = fs::remove_file(rt, place);
        }
    }
}
