//! What a revert makes of its image: a gap, a much longer image, or no other byte.
use bx_image::Change;
use bx_text::Piece;
use std::alloc::Global;
use std::fs::File;
use std::io::{self, Seek, SeekFrom};
use std::os::unix::fs::FileExt;

/// A gap of more bytes than this is worth a hint.
const GAP: u64 = 1 << 20;

/// The count of bytes of the image that are read at a time.
const PAGE: usize = 65_536;

/// The lengths of an image before and after a change, and what the change makes of it.
#[derive(Clone, Copy)]
pub struct Effect {
    /// The length before.
    pub before: u64,
    /// The length after.
    pub after: u64,
    /// How many bytes behind the old end the change doesn't give.
    pub gap: u64,
    /// How many bytes of the image the change overwrites.
    pub saved: u64,
    /// Whether no byte is another one.
    pub is_same: bool,
}

impl Effect {
    /// What a change will make of an image, which is none where it is missing, and then as an empty one; none where the image can't
    /// be read.
    pub fn new(alloc: Global, image: &Option<File>, change: &Change) -> Option<Effect> {
        let before = length_of(image).ok()?;
        let mut after = before;
        let mut given = 0u64;
        let mut saved = 0u64;
        for write in change.writes.as_slice() {
            let end = end_of(write);
            after = after.max(end);
            given = given.saturating_add(end.saturating_sub(write.at.max(before)));
            saved = saved.saturating_add(end.min(before).saturating_sub(write.at));
        }
        Some(Effect {
            before,
            after,
            gap: after.saturating_sub(before).saturating_sub(given),
            saved,
            is_same: after == before && are_there(alloc, image, change),
        })
    }

    /// Whether the image became longer than may be meant: by a gap, or to more than twice its length.
    pub fn is_long(&self) -> bool {
        self.gap > GAP || (self.before > 0 && self.after.saturating_sub(self.before) > self.before)
    }
}

/// How many bytes an image has; one that is missing has none.
fn length_of(image: &Option<File>) -> io::Result<u64> {
    match image {
        Some(file) => (&*file).seek(SeekFrom::End(0)),
        None => Ok(0),
    }
}

/// Where a write ends; 0 of one that is empty.
fn end_of(write: &Piece) -> u64 {
    match write.bytes.as_slice().len() as u64 {
        0 => 0,
        count => write.at.saturating_add(count),
    }
}

/// Whether an image has the bytes of a change already; one that is missing has those of a change without any.
fn are_there(alloc: Global, image: &Option<File>, change: &Change) -> bool {
    let Some(file) = image else {
        return true;
    };
    let Ok(mut page) = vec![in alloc; 0u8; PAGE] else {
        return false;
    };
    change
        .writes
        .as_slice()
        .iter()
        .all(|write| is_there(file, page.as_mut_slice(), write))
}

/// Whether it has those of one write.
fn is_there(file: &File, page: &mut [u8], write: &Piece) -> bool {
    let mut at = write.at;
    for bytes in write.bytes.as_slice().chunks(PAGE) {
        if bytes.len() > page.len() {
            return false;
        }
        let now = &mut page[..bytes.len()];
        if file.read_exact_at(now, at).is_err() || &*now != bytes {
            return false;
        }
        at = at.saturating_add(bytes.len() as u64);
    }
    true
}
