//! What lines of several kinds tell.
use crate::cursor::Cursor;
use crate::fault::{CaseFault, Trouble};
use crate::outcome::Opening;
use crate::values::{number, opening, split_space};
use std::alloc::Global;

/// The bytes of the next line, which has this word.
pub fn needed_bytes(
    alloc: Global,
    cursor: &mut Cursor<'_>,
    word: &'static str,
) -> Result<Vec<u8>, CaseFault> {
    match cursor.bytes(alloc, word)? {
        Some(bytes) => Ok(bytes),
        None => Err(cursor.next_trouble(Trouble::MissingLine(word))),
    }
}

/// The bytes of the next line, if it has this word; else none.
pub fn some_bytes(
    alloc: Global,
    cursor: &mut Cursor<'_>,
    word: &str,
) -> Result<Vec<u8>, CaseFault> {
    match cursor.bytes(alloc, word)? {
        Some(bytes) => Ok(bytes),
        None => Ok(Vec::new(alloc)),
    }
}

/// An image, a journal's text and the text of what was taken back.
pub type Begun = (Vec<u8>, Vec<u8>, Vec<u8>);

/// What a case begins with. The journal's text may be left out where it isn't needed, and so may the other one.
pub fn begun_with(
    alloc: Global,
    cursor: &mut Cursor<'_>,
    needs_journal: bool,
) -> Result<Begun, CaseFault> {
    let image = needed_bytes(alloc, cursor, "image")?;
    let (journal, redo) = begun_texts(alloc, cursor, needs_journal)?;
    Ok((image, journal, redo))
}

/// The texts that a case begins with.
fn begun_texts(
    alloc: Global,
    cursor: &mut Cursor<'_>,
    needs_journal: bool,
) -> Result<(Vec<u8>, Vec<u8>), CaseFault> {
    let journal = if needs_journal {
        needed_bytes(alloc, cursor, "journal")?
    } else {
        some_bytes(alloc, cursor, "journal")?
    };
    let redo = some_bytes(alloc, cursor, "redo-text")?;
    Ok((journal, redo))
}

/// The bytes of the next two lines, of those that have these words.
pub fn two_told(
    alloc: Global,
    cursor: &mut Cursor<'_>,
    first: &str,
    second: &str,
) -> Result<(Option<Vec<u8>>, Option<Vec<u8>>), CaseFault> {
    let told = cursor.bytes(alloc, first)?;
    Ok((told, cursor.bytes(alloc, second)?))
}

/// An address, and the bytes at it.
pub fn placed(
    alloc: Global,
    cursor: &mut Cursor<'_>,
    value: &[u8],
) -> Result<(u64, Vec<u8>), CaseFault> {
    let (at, parts) = split_space(value);
    let Some(at) = number(at) else {
        return Err(cursor.trouble(Trouble::BadNumber));
    };
    let bytes = cursor.parts(alloc, parts.unwrap_or(b""))?;
    Ok((at, bytes))
}

/// What an opening finds, if the next line tells it.
pub fn opening_of(cursor: &mut Cursor<'_>) -> Result<Option<Opening>, CaseFault> {
    let Some(value) = cursor.value("open")? else {
        return Ok(None);
    };
    match opening(value) {
        Some(opening) => Ok(Some(opening)),
        None => Err(cursor.trouble(Trouble::BadAnswer)),
    }
}
