//! Cases of reading.
use crate::cursor::Cursor;
use crate::fault::{CaseFault, Trouble};
use crate::kinds::told::{needed_bytes, placed};
use std::alloc::Global;

/// What a text that is read gives.
#[derive(Drop)]
pub enum Reads {
    /// The pieces of a dump: addresses and bytes.
    Pieces(Vec<(u64, Vec<u8>)>),
    /// The runs of a dump, in place of its pieces.
    Runs(Vec<(u64, Vec<u8>)>),
    /// The bytes of plain hexadecimal.
    Bytes(Vec<u8>),
    /// A fault, by its text.
    Fault(String),
}

/// A text, and what it gives.
#[derive(Drop)]
pub struct ReadingCase {
    /// Whether it is plain hexadecimal.
    pub plain: bool,
    pub text: Vec<u8>,
    pub reads: Reads,
}

/// Whether a text is plain hexadecimal, and the text.
fn read_text(alloc: Global, cursor: &mut Cursor<'_>) -> Result<(bool, Vec<u8>), CaseFault> {
    if let Some(text) = cursor.bytes(alloc, "dump")? {
        return Ok((false, text));
    }
    match cursor.bytes(alloc, "plain")? {
        Some(text) => Ok((true, text)),
        None => Err(cursor.next_trouble(Trouble::MissingLine("dump"))),
    }
}

/// What a text gives.
fn reads_of(alloc: Global, cursor: &mut Cursor<'_>, plain: bool) -> Result<Reads, CaseFault> {
    if let Some(text) = cursor.text(alloc, "fault")? {
        return Ok(Reads::Fault(text));
    }
    if plain {
        return Ok(Reads::Bytes(needed_bytes(alloc, cursor, "bytes")?));
    }
    let runs = placed_lines(alloc, cursor, "run")?;
    if !runs.is_empty() {
        return Ok(Reads::Runs(runs));
    }
    Ok(Reads::Pieces(placed_lines(alloc, cursor, "piece")?))
}

/// The case whose lines follow.
pub fn reading_case(alloc: Global, cursor: &mut Cursor<'_>) -> Result<ReadingCase, CaseFault> {
    let (plain, text) = read_text(alloc, cursor)?;
    let reads = reads_of(alloc, cursor, plain)?;
    Ok(ReadingCase { plain, text, reads })
}

/// The bytes with places that the next lines of this word tell.
fn placed_lines(
    alloc: Global,
    cursor: &mut Cursor<'_>,
    word: &str,
) -> Result<Vec<(u64, Vec<u8>)>, CaseFault> {
    let mut list = Vec::new(alloc);
    for _ in 0..cursor.len() {
        let Some(value) = cursor.value(word)? else {
            break;
        };
        list.push(placed(alloc, cursor, value)?)?;
    }
    Ok(list)
}
