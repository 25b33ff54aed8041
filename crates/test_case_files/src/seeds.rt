//! Bytes that a seed begins.
use crate::fault::{CaseFault, Trouble};
use crate::values::{MOST_TIMES, small};
use std::alloc::{AllocFailed, Global};

/// The factor and the summand of the C standard's example of `rand`.
const FACTOR: u32 = 1_103_515_245;

const SUMMAND: u32 = 12_345;

/// The count, the seed and what follows them, where a row of parts begins with `COUNT@SEED`.
pub fn seeded(line: u64, row: &[u8]) -> Result<Option<(u32, u32, &[u8])>, CaseFault> {
    let end = row.iter().position(|b| *b == b' ').unwrap_or(row.len());
    let (part, behind) = row.split_at(end.min(row.len()));
    let digits = part.iter().position(|b| !b.is_ascii_digit());
    let (count, rest) = part.split_at(digits.unwrap_or(0).min(part.len()));
    let Some(seed) = rest.strip_prefix(b"@") else {
        return Ok(None);
    };
    match (small(count), small(seed)) {
        (Some(count), Some(seed)) if count <= MOST_TIMES => Ok(Some((count, seed, behind))),
        _ => Err(CaseFault::at(line, Trouble::BadNumber)),
    }
}

/// Puts the first bytes of a seed behind the others: of each state its third byte from below.
pub fn push_seeded(out: &mut Vec<u8>, count: u32, seed: u32) -> Result<(), CaseFault> {
    let mut state = seed;
    for _ in 0..count {
        state = state.wrapping_mul(FACTOR).wrapping_add(SUMMAND);
        let [_, byte, _, _] = state.to_be_bytes();
        out.push(byte)?;
    }
    Ok(())
}
