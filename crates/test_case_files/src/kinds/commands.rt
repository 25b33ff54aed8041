//! Cases of commands on an image.
use crate::cursor::Cursor;
use crate::fault::{CaseFault, Trouble};
use crate::kinds::told::{begun_with, needed_bytes, opening_of, placed, two_told};
use crate::outcome::{Opening, Records};
use crate::values::{number, records, small, split_space};
use bx_text::Words;
use std::alloc::Global;

/// Bytes that a change puts at a place.
#[derive(Drop)]
pub struct Write {
    pub at: u64,
    pub bytes: Vec<u8>,
}

/// One command.
#[derive(Drop)]
pub enum Ask {
    /// Puts a dump onto the image, each piece so far behind its address.
    Revert {
        dump: Vec<u8>,
        shift: u64,
    },
    /// Puts plain hexadecimal onto the image from a place on.
    Plain {
        digits: Vec<u8>,
        at: u64,
    },
    /// Puts what dd's operands make of the input onto the image.
    Dd {
        operands: Words,
        input: Vec<u8>,
    },
    /// Makes the change of a patch, or of the same the other way round.
    Patch {
        text: Vec<u8>,
        reversed: bool,
    },
    /// Takes back a count of changes.
    Undo(u32),
    /// Makes a count of changes again.
    Redo(u32),
    /// Cuts the image to `base` bytes, or leaves it, and then writes.
    Change {
        base: Option<u64>,
        writes: Vec<Write>,
    },
    /// Closes the pair and opens it again.
    Open,
}

/// The answer to a command.
#[derive(Drop)]
pub enum Answer {
    Changed(u32),
    Copied(u32, Records),
    Undone(u32),
    Redone(u32),
    Opened(Opening),
    /// A fault, by its text.
    Refused(String),
}

/// What a command leaves. Where something is none, the case doesn't say it.
#[derive(Drop)]
pub struct Left {
    pub image: Vec<u8>,
    pub journal: Option<Vec<u8>>,
    pub redo: Option<Vec<u8>>,
    pub log: Option<Vec<u8>>,
}

/// A command, its answer, and what it leaves.
#[derive(Drop)]
pub struct Row {
    /// The line of the command.
    pub line: u64,
    pub ask: Ask,
    pub answer: Answer,
    pub left: Left,
}

/// A first image, and commands on it.
#[derive(Drop)]
pub struct CommandsCase {
    pub image: Vec<u8>,
    pub journal: Vec<u8>,
    /// The text of what was taken back.
    pub redo: Vec<u8>,
    pub opening: Opening,
    pub rows: Vec<Row>,
}

/// A reply; none where it is bad.
fn reply(value: &[u8]) -> Option<Answer> {
    let (word, rest) = split_space(value);
    let rest = rest?;
    match word {
        b"changed" => Some(Answer::Changed(small(rest)?)),
        b"undone" => Some(Answer::Undone(small(rest)?)),
        b"redone" => Some(Answer::Redone(small(rest)?)),
        b"copied" => {
            let (first, counts) = split_space(rest);
            Some(Answer::Copied(small(first)?, records(counts?)?))
        }
        _ => None,
    }
}

/// The answer that the next line tells.
fn answer_of(alloc: Global, cursor: &mut Cursor<'_>) -> Result<Answer, CaseFault> {
    if let Some(text) = cursor.text(alloc, "fault")? {
        return Ok(Answer::Refused(text));
    }
    let value = cursor.needed("reply")?;
    match reply(value) {
        Some(answer) => Ok(answer),
        None => Err(cursor.trouble(Trouble::BadAnswer)),
    }
}

/// How many changes the next line names, if it has this word.
fn count(cursor: &mut Cursor<'_>, word: &str) -> Result<Option<u32>, CaseFault> {
    let Some(value) = cursor.value(word)? else {
        return Ok(None);
    };
    match small(value) {
        Some(count) => Ok(Some(count)),
        None => Err(cursor.trouble(Trouble::BadNumber)),
    }
}

/// The writes that the next lines tell.
fn writes(alloc: Global, cursor: &mut Cursor<'_>) -> Result<Vec<Write>, CaseFault> {
    let mut list = Vec::new(alloc);
    for _ in 0..cursor.len() {
        let Some(value) = cursor.value("write")? else {
            break;
        };
        let (at, bytes) = placed(alloc, cursor, value)?;
        list.push(Write { at, bytes })?;
    }
    Ok(list)
}

/// The length to which a change cuts the image; `none` leaves it.
fn base(cursor: &Cursor<'_>, value: &[u8]) -> Result<Option<u64>, CaseFault> {
    if value == b"none".as_slice() {
        return Ok(None);
    }
    match number(value) {
        Some(len) => Ok(Some(len)),
        None => Err(cursor.trouble(Trouble::BadNumber)),
    }
}

/// A patch.
fn patch(text: Vec<u8>, reversed: bool) -> Ask {
    Ask::Patch { text, reversed }
}

/// A command that changes the image, if the next lines tell one.
fn change(alloc: Global, cursor: &mut Cursor<'_>) -> Result<Option<Ask>, CaseFault> {
    if let Some(dump) = cursor.bytes(alloc, "revert")? {
        let shift = cursor.number("shift")?.unwrap_or(0);
        return Ok(Some(Ask::Revert { dump, shift }));
    }
    if let Some(digits) = cursor.bytes(alloc, "plain")? {
        let at = cursor.number("at")?.unwrap_or(0);
        return Ok(Some(Ask::Plain { digits, at }));
    }
    if let Some(operands) = cursor.words(alloc, "dd")? {
        let input = needed_bytes(alloc, cursor, "input")?;
        return Ok(Some(Ask::Dd { operands, input }));
    }
    if let Some(text) = cursor.bytes(alloc, "patch")? {
        return Ok(Some(patch(text, false)));
    }
    if let Some(text) = cursor.bytes(alloc, "reversed")? {
        return Ok(Some(patch(text, true)));
    }
    let Some(value) = cursor.value("change")? else {
        return Ok(None);
    };
    let base = base(cursor, value)?;
    let writes = writes(alloc, cursor)?;
    Ok(Some(Ask::Change { base, writes }))
}

/// The command that the next lines tell, if they tell one, and an opening's answer.
fn next_ask(
    alloc: Global,
    cursor: &mut Cursor<'_>,
) -> Result<Option<(Ask, Option<Opening>)>, CaseFault> {
    if let Some(ask) = change(alloc, cursor)? {
        return Ok(Some((ask, None)));
    }
    if let Some(opening) = opening_of(cursor)? {
        return Ok(Some((Ask::Open, Some(opening))));
    }
    if let Some(k) = count(cursor, "undo")? {
        return Ok(Some((Ask::Undo(k), None)));
    }
    match count(cursor, "redo")? {
        Some(k) => Ok(Some((Ask::Redo(k), None))),
        None => Ok(None),
    }
}

/// A command and its answer, if the next lines tell them.
fn asked(alloc: Global, cursor: &mut Cursor<'_>) -> Result<Option<(Ask, Answer)>, CaseFault> {
    let Some((ask, opening)) = next_ask(alloc, cursor)? else {
        return Ok(None);
    };
    match opening {
        Some(opening) => Ok(Some((ask, Answer::Opened(opening)))),
        None => Ok(Some((ask, answer_of(alloc, cursor)?))),
    }
}

/// The image that a command leaves: the one before where the next line doesn't tell it.
fn image_left(alloc: Global, cursor: &mut Cursor<'_>, before: &[u8]) -> Result<Vec<u8>, CaseFault> {
    match cursor.bytes(alloc, "image")? {
        Some(image) => Ok(image),
        None => Ok(before.to_vec(alloc)?),
    }
}

/// What a command leaves.
fn left_of(alloc: Global, cursor: &mut Cursor<'_>, before: &[u8]) -> Result<Left, CaseFault> {
    let image = image_left(alloc, cursor, before)?;
    let (journal, redo) = two_told(alloc, cursor, "journal", "redo-text")?;
    let log = cursor.bytes(alloc, "log")?;
    Ok(Left {
        image,
        journal,
        redo,
        log,
    })
}

/// The command that the next lines tell, with what it gives, if they tell one.
fn next_row(
    alloc: Global,
    cursor: &mut Cursor<'_>,
    before: &[u8],
) -> Result<Option<Row>, CaseFault> {
    let line = cursor.next_line();
    let Some((ask, answer)) = asked(alloc, cursor)? else {
        return Ok(None);
    };
    let left = left_of(alloc, cursor, before)?;
    Ok(Some(Row {
        line,
        ask,
        answer,
        left,
    }))
}

/// The commands that the next lines tell.
fn rows(alloc: Global, cursor: &mut Cursor<'_>, first: &[u8]) -> Result<Vec<Row>, CaseFault> {
    let mut list: Vec<Row> = Vec::new(alloc);
    for _ in 0..cursor.len() {
        let before = match list.last() {
            Some(row) => row.left.image.as_slice(),
            None => first,
        };
        let Some(row) = next_row(alloc, cursor, before)? else {
            break;
        };
        list.push(row)?;
    }
    Ok(list)
}

/// The case whose lines follow.
pub fn commands_case(alloc: Global, cursor: &mut Cursor<'_>) -> Result<CommandsCase, CaseFault> {
    let (image, journal, redo) = begun_with(alloc, cursor, false)?;
    let (opening, rows) = played(alloc, cursor, image.as_slice())?;
    Ok(CommandsCase {
        image,
        journal,
        redo,
        opening,
        rows,
    })
}

/// What is opened, and the commands on it.
fn played(
    alloc: Global,
    cursor: &mut Cursor<'_>,
    first: &[u8],
) -> Result<(Opening, Vec<Row>), CaseFault> {
    let opening = match opening_of(cursor)? {
        Some(opening) => opening,
        None => Opening::Clean {
            changes: 0,
            undone: 0,
        },
    };
    Ok((opening, rows(alloc, cursor, first)?))
}
