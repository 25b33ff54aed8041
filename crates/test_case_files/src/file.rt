//! Whole case files.
use crate::case::{Case, CaseFile, Test};
use crate::cursor::Cursor;
use crate::entries::entries;
use crate::fault::{CaseFault, Trouble};
use crate::kinds::commands::commands_case;
use crate::kinds::looks::looks_case;
use crate::kinds::patches::patch_case;
use crate::kinds::reading::reading_case;
use crate::kinds::texts::text_case;
use crate::kinds::words::words_case;
use crate::values::text;
use std::alloc::Global;

/// What the cases of a file are.
#[derive(Clone, Copy)]
enum Kind {
    Words,
    Commands,
    Texts,
    Reading,
    Looks,
    Patches,
}

/// The words of lines.
static KNOWN: [&str; 49] = [
    "kind",
    "case",
    "from",
    "words",
    "input",
    "output",
    "sum",
    "count",
    "records",
    "fault",
    "status",
    "job",
    "image",
    "journal",
    "redo-text",
    "open",
    "revert",
    "shift",
    "plain",
    "at",
    "dd",
    "undo",
    "redo",
    "change",
    "write",
    "reply",
    "log",
    "image-left",
    "journal-left",
    "redo-left",
    "first",
    "changes",
    "dump",
    "piece",
    "run",
    "bytes",
    "ranges",
    "compared",
    "old",
    "new",
    "rows",
    "patch",
    "reversed",
    "lengths",
    "expected",
    "written",
    "|",
    "+",
    ">",
];

/// Whether lines of this word are known.
fn is_known(word: &[u8]) -> bool {
    KNOWN.iter().any(|known| known.as_bytes() == word)
}

/// The trouble of a next line that isn't taken.
fn not_taken(cursor: &Cursor<'_>) -> CaseFault {
    match cursor.word() {
        Some(word) if !is_known(word) => cursor.next_trouble(Trouble::UnknownWord),
        _ => cursor.next_trouble(Trouble::Misplaced),
    }
}

fn kind_of(value: &[u8]) -> Option<Kind> {
    match value {
        b"words" => Some(Kind::Words),
        b"commands" => Some(Kind::Commands),
        b"texts" => Some(Kind::Texts),
        b"reading" => Some(Kind::Reading),
        b"looks" => Some(Kind::Looks),
        b"patches" => Some(Kind::Patches),
        _ => None,
    }
}

/// What a case of this kind asks for.
fn test_of(alloc: Global, cursor: &mut Cursor<'_>, kind: Kind) -> Result<Test, CaseFault> {
    match kind {
        Kind::Words => Ok(Test::Words(words_case(alloc, cursor)?)),
        Kind::Commands => Ok(Test::Commands(commands_case(alloc, cursor)?)),
        Kind::Texts => Ok(Test::Text(text_case(alloc, cursor)?)),
        Kind::Reading => Ok(Test::Reading(reading_case(alloc, cursor)?)),
        Kind::Looks => Ok(Test::Looks(looks_case(alloc, cursor)?)),
        Kind::Patches => Ok(Test::Patch(patch_case(alloc, cursor)?)),
    }
}

/// The case that begins at the next line; none behind the last.
fn next_case(
    alloc: Global,
    cursor: &mut Cursor<'_>,
    kind: Kind,
) -> Result<Option<Case>, CaseFault> {
    let Some(name) = cursor.value("case")? else {
        return if cursor.len() == 0 {
            Ok(None)
        } else {
            Err(not_taken(cursor))
        };
    };
    let line = cursor.line();
    let name = text(alloc, line, name)?;
    cursor.needed("from")?;
    let test = test_of(alloc, cursor, kind)?;
    Ok(Some(Case { name, line, test }))
}

/// Reads a case file: its cases, in order.
///
/// # Errors
/// The first line that is wrong.
pub fn read_cases(alloc: Global, text: &[u8]) -> Result<CaseFile, CaseFault> {
    let entries = entries(alloc, text)?;
    let mut cursor = Cursor::new(entries.as_slice());
    let Some(kind) = kind_of(cursor.needed("kind")?) else {
        return Err(cursor.trouble(Trouble::UnknownWord));
    };
    let mut cases = Vec::new(alloc);
    for _ in 0..cursor.len().saturating_add(1) {
        match next_case(alloc, &mut cursor, kind)? {
            Some(case) => cases.push(case)?,
            None => break,
        }
    }
    Ok(CaseFile { cases })
}
