//! The lines of a case file that say something.
use crate::fault::{CaseFault, Trouble};
use std::alloc::Global;

/// A line: the word before its colon, or its mark `|`, `+` or `>`; and the value behind it. Lines are counted from 1.
#[derive(Clone, Copy)]
pub struct Entry<'a> {
    pub line: u64,
    pub word: &'a [u8],
    pub value: &'a [u8],
}

/// The lines that say something, in order.
pub fn entries(alloc: Global, text: &[u8]) -> Result<Vec<Entry<'_>>, CaseFault> {
    let mut list = Vec::new(alloc);
    let mut line = 0u64;
    for part in text.split(|b| *b == b'\n') {
        line = line.saturating_add(1);
        if let Some(entry) = entry_of(line, part)? {
            list.push(entry)?;
        }
    }
    Ok(list)
}

/// What a line says; none where it is empty or a comment.
fn entry_of(line: u64, part: &[u8]) -> Result<Option<Entry<'_>>, CaseFault> {
    let split = match part {
        [] | [b'#', ..] => return Ok(None),
        [b'|' | b'+' | b'>', ..] => 1,
        _ => match part.iter().position(|b| *b == b':') {
            Some(colon) => colon,
            None => return Err(CaseFault::at(line, Trouble::NoColon)),
        },
    };
    let (word, rest) = part.split_at(split.min(part.len()));
    let rest = rest.strip_prefix(b":").unwrap_or(rest);
    match value(rest) {
        Some(value) => Ok(Some(Entry { line, word, value })),
        None => Err(CaseFault::at(line, Trouble::NoColon)),
    }
}

/// What stands behind the space, or nothing.
fn value(rest: &[u8]) -> Option<&[u8]> {
    if rest.is_empty() {
        return Some(rest);
    }
    rest.strip_prefix(b" ")
}
