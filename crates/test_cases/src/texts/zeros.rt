//! Texts in which a loss of power left zeros, opened beside the slow judge.
use crate::texts::damage::judged;
use std::alloc::Global;
use test_case_sessions::report::compare::{Wrong, front};
use test_case_sessions::session::devices::Texts;
use test_case_sessions::sweep::weight::is_taken;
use test_oracle::judge::judge;

/// Opens each front of a journal, or of a long one some, with its last 1, 2, 4 .. bytes zero, and with one zero in each line
/// that is not of a finished entry. Beside a redo text none. Tells how often.
pub fn fronts_with_zeros(alloc: Global, texts: Texts<'_>) -> Result<u32, Wrong> {
    if !texts.redo.is_empty() {
        return Ok(0);
    }
    let text = texts.journal;
    let mut count = 0u32;
    for n in 0..=text.len() {
        if is_taken(n, text.len()) {
            let begun = front(text, n);
            count = count.saturating_add(zero_ends(alloc, texts, begun)?);
            count = count.saturating_add(zero_in_lines(alloc, texts, begun)?);
        }
    }
    Ok(count)
}

/// The same with another journal.
fn with_journal<'a>(texts: Texts<'a>, journal: &'a [u8]) -> Texts<'a> {
    Texts { journal, ..texts }
}

/// Opens a front with its last 1, 2, 4 .. bytes zero. Tells how often.
fn zero_ends(alloc: Global, texts: Texts<'_>, front: &[u8]) -> Result<u32, Wrong> {
    let mut left = front.to_vec(alloc)?;
    let mut zeros = 1usize;
    let mut count = 0u32;
    for _ in 0..usize::BITS {
        if zeros > front.len() {
            break;
        }
        for byte in left.iter_mut().rev().take(zeros) {
            *byte = 0;
        }
        judged(alloc, with_journal(texts, left.as_slice()))?;
        zeros = zeros.saturating_mul(2);
        count = count.saturating_add(1);
    }
    Ok(count)
}

/// How many bytes in front of a journal are finished entries; all where opening refuses it.
fn finished(alloc: Global, texts: Texts<'_>, front: &[u8]) -> Result<usize, Wrong> {
    match judge(alloc, texts.image, front, texts.redo)? {
        Ok(found) => Ok(found.kept.min(front.len())),
        Err(_) => Ok(front.len()),
    }
}

/// Opens a front with one zero in each line that is not of a finished entry: at a place that goes on with the front's length,
/// the newline's too. Tells how often.
fn zero_in_lines(alloc: Global, texts: Texts<'_>, front: &[u8]) -> Result<u32, Wrong> {
    let mut left = front.to_vec(alloc)?;
    let mut begins = finished(alloc, texts, front)?;
    let (_, unfinished) = front.split_at(begins.min(front.len()));
    let mut count = 0u32;
    for line in unfinished.split(|b| *b == b'\n') {
        let len = line.len().saturating_add(1);
        let within = front.len().checked_rem(len).unwrap_or(0);
        if zeroed(alloc, texts, &mut left, begins.saturating_add(within))? {
            count = count.saturating_add(1);
        }
        begins = begins.saturating_add(len);
    }
    Ok(count)
}

/// Opens a text with a zero at a place, if there is one, and puts its byte back.
fn zeroed(
    alloc: Global,
    texts: Texts<'_>,
    left: &mut Vec<u8>,
    place: usize,
) -> Result<bool, Wrong> {
    let Some(byte) = left.get_mut(place) else {
        return Ok(false);
    };
    let before = std::mem::replace(byte, 0);
    judged(alloc, with_journal(texts, left.as_slice()))?;
    if let Some(byte) = left.get_mut(place) {
        *byte = before;
    }
    Ok(true)
}
