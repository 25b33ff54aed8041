//! What a note has: whether a text is one whose place a note may take.
use bx_world::{MOST_NOTE, is_note};
use std::fs::File;
use std::io;
use std::os::unix::fs::FileExt;

/// How many bytes the first word of a note has, with its blank. A text of no more says nothing.
pub const WORD: usize = 7;

/// What the name of a note ends with that stands beside the journal of an image's own name.
const OWN: &str = ".bxj.image";

/// Reads the first bytes of a file into a buffer, up to its end, and says how many.
pub fn read_front(file: &File, buf: &mut [u8]) -> io::Result<usize> {
    let mut done = 0;
    for _ in 0..buf.len() {
        if done >= buf.len() {
            break;
        }
        let more = file.read_at(&mut buf[done..], done as u64)?;
        if more == 0 {
            break;
        }
        done += more.min(buf.len() - done);
    }
    Ok(done)
}

/// Whether a name is that of a note beside the journal of an image's own name.
pub fn has_own_name(name: &str) -> bool {
    name.ends_with(OWN)
}

/// Whether a file of this name is one whose place a note may take. One without bytes may be anybody's, as an empty `disk.image`
/// beside a journal `disk`; beside the journal of an image's own name it is what a run left that was killed as it made one.
pub fn is_own(file: &File, name: &str) -> io::Result<bool> {
    let mut room = [0u8; MOST_NOTE + 1];
    let count = read_front(file, &mut room)?;
    if count == 0 {
        return Ok(has_own_name(name));
    }
    Ok(room.get(..count).is_some_and(|text| is_note(text)))
}

/// Writes bytes over the first ones of a file, gives it their length, and answers which length it had. It is never cut to nothing in
/// between: whoever reads it meanwhile finds old bytes or new ones. No file takes its place, so whoever has it open has it still.
pub fn put_in_place(file: &File, bytes: &[u8]) -> io::Result<u64> {
    let had = file.metadata()?.len();
    file.write_all_at(bytes, 0)?;
    if had > bytes.len() as u64 {
        file.set_len(bytes.len() as u64)?;
    }
    Ok(had)
}
