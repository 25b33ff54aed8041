//! Cases of texts that are opened.
use crate::cursor::Cursor;
use crate::fault::{CaseFault, Trouble};
use crate::kinds::told::{begun_with, opening_of, two_told};
use crate::outcome::Opening;
use std::alloc::Global;

/// What opening answers.
#[derive(Drop)]
pub enum Found {
    Opened(Opening),
    /// A fault, by its text.
    Refused(String),
}

/// What opening answers, and what is left: none is as before.
#[derive(Drop)]
pub struct Outcome {
    pub found: Found,
    pub image: Option<Vec<u8>>,
    pub journal: Option<Vec<u8>>,
    pub redo: Option<Vec<u8>>,
    /// The image once all that stands is undone, where the case says it.
    pub first: Option<Vec<u8>>,
}

/// A journal's text and an image, and what opening answers and leaves.
#[derive(Drop)]
pub struct TextCase {
    pub image: Vec<u8>,
    pub journal: Vec<u8>,
    /// The text of what was taken back.
    pub redo: Vec<u8>,
    pub outcome: Outcome,
    /// Whether each byte of the text is changed in every way, and not in some.
    pub all_changes: bool,
}

/// What opening answers.
fn found_of(alloc: Global, cursor: &mut Cursor<'_>) -> Result<Found, CaseFault> {
    if let Some(text) = cursor.text(alloc, "fault")? {
        return Ok(Found::Refused(text));
    }
    match opening_of(cursor)? {
        Some(opening) => Ok(Found::Opened(opening)),
        None => Err(cursor.next_trouble(Trouble::MissingLine("open"))),
    }
}

/// What opening answers, and what it leaves.
fn outcome_of(alloc: Global, cursor: &mut Cursor<'_>) -> Result<Outcome, CaseFault> {
    let found = found_of(alloc, cursor)?;
    let (image, journal) = two_told(alloc, cursor, "image-left", "journal-left")?;
    let (redo, first) = two_told(alloc, cursor, "redo-left", "first")?;
    Ok(Outcome {
        found,
        image,
        journal,
        redo,
        first,
    })
}

/// The case whose lines follow.
pub fn text_case(alloc: Global, cursor: &mut Cursor<'_>) -> Result<TextCase, CaseFault> {
    let (image, journal, redo) = begun_with(alloc, cursor, true)?;
    let outcome = outcome_of(alloc, cursor)?;
    let all_changes = all_changes(cursor)?;
    Ok(TextCase {
        image,
        journal,
        redo,
        outcome,
        all_changes,
    })
}

/// Whether the next line asks for all changes of bytes.
fn all_changes(cursor: &mut Cursor<'_>) -> Result<bool, CaseFault> {
    match cursor.value("changes")? {
        None => Ok(false),
        Some(b"all") => Ok(true),
        Some(_) => Err(cursor.trouble(Trouble::UnknownWord)),
    }
}
