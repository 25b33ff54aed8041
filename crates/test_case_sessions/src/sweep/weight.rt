//! How many places of a dear sweep are taken, by the size of what is played.
use test_case_files::{Ask, CommandsCase, Row};

/// The count of bytes that weigh as much as a command.
const COMMAND: usize = 8;

/// The count of bytes of a case for which one more call is passed over between two that fail.
const BYTES_A_STOP: usize = 64;

/// The most bytes of a case that has all that its stops leave opened and stopped again.
const LIGHT: usize = 64;

/// The count of bytes of others for which one more stop is passed over.
const BYTES_AN_OPENING: usize = 2;

/// For as many bytes of a case one more loss of power is passed over where what is left goes on.
const BYTES_A_LOSS: usize = 32;

/// The count of rows of a case for which one more is passed over between two that are swept alone.
const ROWS: usize = 16;

/// About how many of the changes of a text's bytes are made.
const CHANGES: usize = 400;

/// The most bytes of a text that is cut off and changed at each place.
const LONG_TEXT: usize = 8_192;

/// The count of places at which longer ones are.
const PLACES: usize = 32;

/// The most bytes of input and output with which runs of words have their growths refused.
const SMALL: usize = 4;

/// Cases whose image has more bytes than this, or what a command of theirs is given and leaves, are large.
const LARGE: usize = 16_384;

/// Whether the growths of a run of words are refused.
pub fn is_small(input: &[u8], output: &[u8]) -> bool {
    input.len().saturating_add(output.len()) <= SMALL
}

/// A command, and the bytes that it is given and leaves.
fn row_weight(row: &Row) -> usize {
    let given = match &row.ask {
        Ask::Revert { dump, .. } => dump.len(),
        Ask::Plain { digits, .. } => digits.len(),
        Ask::Dd { input, .. } => input.len(),
        Ask::Patch { text, .. } => text.len(),
        Ask::Undo(_) | Ask::Redo(_) | Ask::Change { .. } | Ask::Open => 0,
    };
    given
        .saturating_add(row.left.image.len())
        .saturating_add(COMMAND)
}

/// Whether nothing is in the way of a case in any play, since it is large.
pub fn is_large(case: &CommandsCase) -> bool {
    case.image.len() > LARGE || case.rows.iter().any(|row| row_weight(row) > LARGE)
}

/// The bytes that a case begins with, and what its commands weigh.
pub fn weight(case: &CommandsCase) -> usize {
    let mut sum = case.image.len();
    sum = sum.saturating_add(case.journal.len());
    sum = sum.saturating_add(case.redo.len());
    for row in &case.rows {
        sum = sum.saturating_add(row_weight(row));
    }
    sum
}

/// Of how many calls of a case one fails.
pub fn stop_step(case: &CommandsCase) -> u64 {
    let step = weight(case) / BYTES_A_STOP;
    (step as u64).saturating_add(1)
}

/// Of how many calls of a case one fails, where what is left is stopped again.
pub fn opening_step(case: &CommandsCase) -> u64 {
    let bytes = weight(case);
    if bytes <= LIGHT {
        return 1;
    }
    let step = bytes / BYTES_AN_OPENING;
    (step as u64).saturating_add(1)
}

/// How far losses of power are apart where what is left goes on, in calls.
pub fn loss_step(case: &CommandsCase) -> u64 {
    let more = weight(case) / BYTES_A_LOSS;
    odd(opening_step(case).saturating_add(more as u64))
}

/// The same step where it is odd, else one more: so of calls that write and syncs, which take turns, it takes both.
pub fn odd(step: u64) -> u64 {
    step | 1
}

/// Whether this row of a case is one of those that are swept alone: at most `ROWS`, at even distances from the first.
pub fn is_swept(row: usize, rows: usize) -> bool {
    let step = (rows / ROWS).saturating_add(1);
    row.checked_rem(step) == Some(0)
}

/// Of how many of the 255 changes of each byte of a text of `len` bytes one is made.
pub fn change_step(len: usize) -> usize {
    let step = len.saturating_mul(255) / CHANGES;
    step.saturating_add(1).min(255)
}

/// Whether a text of this length is cut off, or changed, at a place: a long one at some places, and at the first.
pub fn is_taken(place: usize, len: usize) -> bool {
    if len <= LONG_TEXT {
        return true;
    }
    place.checked_rem((len / PLACES).saturating_add(1)) == Some(0)
}
