//! Cases of looks at an image's changes.
use crate::cursor::Cursor;
use crate::fault::{CaseFault, Trouble};
use crate::kinds::told::{begun_with, needed_bytes};
use crate::values::small;
use std::alloc::Global;

/// What a look shows.
#[derive(Drop)]
pub enum Shows {
    /// A text, and where the case says it the one beside what the image has.
    Text {
        plain: Vec<u8>,
        compared: Option<Vec<u8>>,
    },
    /// A fault, by its text.
    Refused(String),
}

/// A look at what an undo or a redo would do.
#[derive(Drop)]
pub struct Look {
    /// Whether it is at a redo.
    pub is_redo: bool,
    /// At how many changes.
    pub count: u32,
    pub shows: Shows,
}

/// An image and its texts, and what is shown of them.
#[derive(Drop)]
pub struct LooksCase {
    pub image: Vec<u8>,
    pub journal: Vec<u8>,
    /// The text of what was taken back.
    pub redo: Vec<u8>,
    /// The log with ranges, where the case says it.
    pub ranges: Option<Vec<u8>>,
    pub looks: Vec<Look>,
}

/// The case whose lines follow.
pub fn looks_case(alloc: Global, cursor: &mut Cursor<'_>) -> Result<LooksCase, CaseFault> {
    let (image, journal, redo) = begun_with(alloc, cursor, true)?;
    let ranges = cursor.bytes(alloc, "ranges")?;
    let looks = looks(alloc, cursor)?;
    Ok(LooksCase {
        image,
        journal,
        redo,
        ranges,
        looks,
    })
}

/// The looks that the next lines tell.
fn looks(alloc: Global, cursor: &mut Cursor<'_>) -> Result<Vec<Look>, CaseFault> {
    let mut list = Vec::new(alloc);
    for _ in 0..cursor.len() {
        match next_look(alloc, cursor)? {
            Some(look) => list.push(look)?,
            None => break,
        }
    }
    Ok(list)
}

/// The look that the next lines tell; none where they tell of another thing.
fn next_look(alloc: Global, cursor: &mut Cursor<'_>) -> Result<Option<Look>, CaseFault> {
    let undone = cursor.value("undo")?;
    let (is_redo, value) = match undone {
        Some(value) => (false, Some(value)),
        None => (true, cursor.value("redo")?),
    };
    let Some(value) = value else {
        return Ok(None);
    };
    let Some(count) = small(value) else {
        return Err(cursor.trouble(Trouble::BadNumber));
    };
    let shows = shows_of(alloc, cursor)?;
    Ok(Some(Look {
        is_redo,
        count,
        shows,
    }))
}

/// What a look shows.
fn shows_of(alloc: Global, cursor: &mut Cursor<'_>) -> Result<Shows, CaseFault> {
    if let Some(text) = cursor.text(alloc, "fault")? {
        return Ok(Shows::Refused(text));
    }
    let plain = needed_bytes(alloc, cursor, "output")?;
    let compared = cursor.bytes(alloc, "compared")?;
    Ok(Shows::Text { plain, compared })
}
