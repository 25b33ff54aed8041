//! Values of one line: numbers, words, counts and openings.
use crate::fault::{CaseFault, Trouble};
use crate::outcome::{Opening, Records};
use crate::quoted::push_quoted;
use bx_text::Words;
use std::alloc::Global;

/// The most times that a part is written, and the most bytes of a seed.
pub const MOST_TIMES: u32 = 100_000_000;

/// The number that decimal digits write; none where it is 2^64 or more.
pub fn number(value: &[u8]) -> Option<u64> {
    if value.is_empty() || !value.iter().all(|b| b.is_ascii_digit()) {
        return None;
    }
    str::from_utf8(value).ok()?.parse::<u64>().ok()
}

/// The same, below 2^32.
pub fn small(value: &[u8]) -> Option<u32> {
    u32::try_from(number(value)?).ok()
}

/// The text as it stands.
pub fn text(alloc: Global, line: u64, value: &[u8]) -> Result<String, CaseFault> {
    match str::from_utf8(value) {
        Ok(text) => Ok(String::from_str(alloc, text)?),
        Err(_) => Err(CaseFault::at(line, Trouble::NotUtf8)),
    }
}

/// What stands before the first space, and what stands behind it.
pub fn split_space(value: &[u8]) -> (&[u8], Option<&[u8]>) {
    let end = value.iter().position(|b| *b == b' ').unwrap_or(value.len());
    let (front, rest) = value.split_at(end.min(value.len()));
    (front, rest.strip_prefix(b" "))
}

/// Puts the word that a row begins with behind the others. Answers what follows it.
fn push_word<'a>(
    alloc: Global,
    words: &mut Words,
    line: u64,
    row: &'a [u8],
) -> Result<&'a [u8], CaseFault> {
    let mut bytes = Vec::new(alloc);
    let behind = match row {
        [b'"', quoted @ ..] => push_quoted(&mut bytes, line, quoted)?,
        _ => {
            let end = row.iter().position(|b| *b == b' ').unwrap_or(row.len());
            let (word, behind) = row.split_at(end.min(row.len()));
            bytes.extend_from_slice(word)?;
            behind
        }
    };
    match str::from_utf8(bytes.as_slice()) {
        Ok(word) => words.push(word)?,
        Err(_) => return Err(CaseFault::at(line, Trouble::NotUtf8)),
    }
    Ok(behind)
}

/// Puts the words of a row behind the others.
pub fn push_words(
    alloc: Global,
    words: &mut Words,
    line: u64,
    row: &[u8],
) -> Result<(), CaseFault> {
    let mut rest = row;
    for _ in 0..row.len() {
        let behind = push_word(alloc, words, line, rest)?;
        if behind.is_empty() {
            break;
        }
        match behind.strip_prefix(b" ") {
            Some(next) => rest = next,
            None => return Err(CaseFault::at(line, Trouble::BadQuoted)),
        }
    }
    Ok(())
}

/// Whole and short blocks, as `1+0`.
fn blocks(value: &[u8]) -> Option<(u64, u64)> {
    let plus = value.iter().position(|b| *b == b'+')?;
    let (whole, part) = value.split_at(plus.min(value.len()));
    Some((number(whole)?, number(part.strip_prefix(b"+")?)?))
}

/// Blocks in, blocks out and records that were cut, as `0+1 0+1 0`.
pub fn records(value: &[u8]) -> Option<Records> {
    let (blocks_in, rest) = split_space(value);
    let (blocks_out, rest) = split_space(rest?);
    let (whole_in, part_in) = blocks(blocks_in)?;
    let (whole_out, part_out) = blocks(blocks_out)?;
    Some(Records {
        whole_in,
        part_in,
        whole_out,
        part_out,
        cut: number(rest?)?,
    })
}

/// What a clean opening finds: changes, and where there is a second number undone ones.
fn clean(value: &[u8]) -> Option<Opening> {
    let (changes, undone) = split_space(value);
    Some(Opening::Clean {
        changes: small(changes)?,
        undone: small(undone.unwrap_or(b"0"))?,
    })
}

/// What an opening finds, as `clean 2`, `clean 2 1`, `dropped 2` or `restored 3 2`.
pub fn opening(value: &[u8]) -> Option<Opening> {
    let (word, rest) = split_space(value);
    match word {
        b"clean" => clean(rest?),
        b"dropped" => Some(Opening::Dropped {
            changes: small(rest?)?,
        }),
        b"restored" => {
            let (first, second) = split_space(rest?);
            Some(Opening::Restored {
                number: small(first)?,
                changes: small(second?)?,
            })
        }
        _ => None,
    }
}
