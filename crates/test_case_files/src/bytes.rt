//! Bytes as a row of parts.
use crate::fault::{CaseFault, Trouble};
use crate::quoted::{digit, pair, push_quoted};
use crate::seeds::{push_seeded, seeded};
use crate::values::{MOST_TIMES, small};
use std::alloc::Global;

/// How many times a part is written, and the part.
fn times_of(line: u64, rest: &[u8]) -> Result<(u32, &[u8]), CaseFault> {
    let Some(star) = rest.iter().position(|b| !b.is_ascii_digit()) else {
        return Ok((1, rest));
    };
    let (digits, behind) = rest.split_at(star.min(rest.len()));
    let Some(part) = behind.strip_prefix(b"*") else {
        return Ok((1, rest));
    };
    match small(digits) {
        Some(times) if times <= MOST_TIMES => Ok((times, part)),
        _ => Err(CaseFault::at(line, Trouble::BadNumber)),
    }
}

/// Puts the bytes of a row of digits behind the others.
fn push_pairs(out: &mut Vec<u8>, line: u64, digits: &[u8]) -> Result<(), CaseFault> {
    for two in digits.chunks(2) {
        match two {
            [high, low] => match pair(*high, *low) {
                Some(byte) => out.push(byte)?,
                None => return Err(CaseFault::at(line, Trouble::BadBytes)),
            },
            _ => return Err(CaseFault::at(line, odd(digits))),
        }
    }
    Ok(())
}

/// The trouble of a row whose last byte has no second one.
fn odd(digits: &[u8]) -> Trouble {
    if digits.iter().all(|b| digit(*b).is_some()) {
        Trouble::OddDigits
    } else {
        Trouble::BadBytes
    }
}

/// Puts the bytes of the part that a row begins with behind the others. Answers what follows it.
fn push_part<'a>(
    alloc: Global,
    out: &mut Vec<u8>,
    line: u64,
    row: &'a [u8],
) -> Result<&'a [u8], CaseFault> {
    if let Some((count, seed, behind)) = seeded(line, row)? {
        push_seeded(out, count, seed)?;
        return Ok(behind);
    }
    let (times, part) = times_of(line, row)?;
    let mut bytes = Vec::new(alloc);
    let behind = match part {
        [b'"', text @ ..] => push_quoted(&mut bytes, line, text)?,
        _ => {
            let end = part.iter().position(|b| *b == b' ').unwrap_or(part.len());
            let (digits, behind) = part.split_at(end.min(part.len()));
            if digits.is_empty() {
                return Err(CaseFault::at(line, Trouble::BadBytes));
            }
            push_pairs(&mut bytes, line, digits)?;
            behind
        }
    };
    for _ in 0..times {
        out.extend_from_slice(bytes.as_slice())?;
    }
    Ok(behind)
}

/// Puts the bytes of a row of parts behind the others.
pub fn push_parts(
    alloc: Global,
    out: &mut Vec<u8>,
    line: u64,
    row: &[u8],
) -> Result<(), CaseFault> {
    let mut rest = row;
    for _ in 0..row.len() {
        let behind = push_part(alloc, out, line, rest)?;
        if behind.is_empty() {
            break;
        }
        match behind.strip_prefix(b" ") {
            Some(next) => rest = next,
            None => return Err(CaseFault::at(line, Trouble::BadBytes)),
        }
    }
    Ok(())
}
