//! What stands at the end of a journal or a redo file, as far as a hint tells it: nothing else rests on it.
use bx_cli::Target;
use bx_hints::{Standing, Tail};
use bx_journal_image::end_of;
use bx_system::{System, open_to_read};
use std::fs;
use std::io::{ErrorKind, Seek, SeekFrom};
use std::os::unix::fs::FileExt;

/// How many bytes are read: an end line, and the `save` line before it.
const LAST: usize = 128;

/// What stands at the ends of the texts of an image.
pub fn standing_of<R: System>(rt: &R, target: &Target) -> Standing {
    Standing {
        journal: tail_of(rt, target.texts.journal.as_str()),
        redo: tail_of(rt, target.texts.redo.as_str()),
    }
}

/// What stands at the end of the text of this name.
pub fn tail_of<R: System>(rt: &R, name: &str) -> Tail {
    match fs::symlink_metadata(rt, name) {
        Ok(found) if found.is_file() && found.len() == 0 => Tail::Finished(0),
        Ok(found) if found.is_file() => read_tail(rt, name).unwrap_or(Tail::Unknown),
        Ok(_) => Tail::Unknown,
        Err(error) if error.kind() == ErrorKind::NotFound => Tail::Finished(0),
        Err(_) => Tail::Unknown,
    }
}

/// The same of a regular file that isn't empty; none where it isn't read.
fn read_tail<R: System>(rt: &R, name: &str) -> Option<Tail> {
    let file = open_to_read(rt, name).ok()?;
    let length = (&file).seek(SeekFrom::End(0)).ok()?;
    let mut bytes = [0u8; LAST];
    let count = length.min(LAST as u64) as usize;
    let read = file
        .read_at(&mut bytes[..count], length - count as u64)
        .ok()?;
    Some(judged(&bytes[..read.min(count)]))
}

/// What the last bytes of a text tell.
fn judged(bytes: &[u8]) -> Tail {
    match end_of(bytes) {
        Some(number) => Tail::Finished(number),
        None => match saved(bytes) {
            Some(number) => Tail::Begun(number),
            None => Tail::Unknown,
        },
    }
}

/// The number of a `save` line behind which no whole line stands.
fn saved(bytes: &[u8]) -> Option<u32> {
    let mut lines = bytes.rsplit(|byte| *byte == b'\n');
    let _behind = lines.next();
    let digits = lines.next()?.strip_prefix(b"save ")?;
    if digits.len() != 8 {
        return None;
    }
    u32::from_str_radix(str::from_utf8(digits).ok()?, 16).ok()
}
