//! How long the text of an entry is.
ghost use Rattle.std.specs.Prelude.{◌≡◌, ◌+◌, ◌-◌, ◌^◌, ◌<◌, ◌≤◌, List, ℕ, length, min, false};
ghost use Rattle.bx_image.specs.Change.{AllWithin};
ghost use Rattle.bx_image.specs.Image.{end_of};
ghost use Rattle.bx_text.specs.Field.{hex_text};
ghost use Rattle.bx_journal_format.specs.Kept.{run_of, kept_of};
ghost use Rattle.bx_journal_format.specs.DumpLine.{saved_run_line};
ghost use Rattle.bx_journal_format.specs.Entry.{rows, head_text, rows_text};
ghost use Rattle.bx_journal_format.specs.Text.{ended};

use bx_image::Saved;
use bx_text::{Piece, hex_field};
use std::alloc::Allocator;

/// The line that begins an entry and the one that ends what it saves, with their newlines.
const OUTER_LINES: u64 = 48;

/// How many digits an address has.
fn address_len(at: u64) -> u64
    ensures long { result ≡ length (hex_text false 8 at) }
    ensures most { result ≤ 22 }
{
    if at <= u32::MAX as u64 {
        return 8;
    }
    hex_field(at, 8, false).as_bytes().len() as u64
}

/// How long a saved line of `count` bytes is, with its newline.
fn row_len(at: u64, count: usize) -> u64
    requires { count ≤ 16 }
    ensures { (bytes : List ℕ) → length bytes ≡ count → result ≡ length (ended (saved_run_line at bytes)) }
{
    address_len(at) + 44 + count as u64
}

/// The first address that has more than 8 digits.
const NINE_DIGITS: u64 = 1 << 32;

/// What a saved line has beside the text of its bytes: 8 digits, a colon, the columns with the spaces around them, a newline.
const BESIDE_TEXT: u64 = 52;

/// How long the saved lines of a run are, at most `u64::MAX`.
fn run_len<A: Allocator>(run: &Piece<A>) -> u64
    requires { end_of run.now.at run.now.bytes < 2 ^ 64 }
    ensures { result ≡ min (length (rows_text (rows (run_of run.now)))) (2 ^ 64 - 1) }
{
    let len = run.bytes.as_slice().len() as u64;
    if len < NINE_DIGITS.saturating_sub(run.at) {
        return BESIDE_TEXT * ((len + 15) / 16) + len;
    }
    far_run_len(run)
}

/// The same, line by line.
fn far_run_len<A: Allocator>(run: &Piece<A>) -> u64
    requires { end_of run.now.at run.now.bytes < 2 ^ 64 }
    ensures { result ≡ min (length (rows_text (rows (run_of run.now)))) (2 ^ 64 - 1) }
{
    let len = run.bytes.as_slice().len();
    let count = (len + 15) / 16;
    let mut total: u64 = 0;
    for k in 0..count {
        let from = 16 * k;
        let to = (from + 16).min(len);
        total = total.saturating_add(row_len(run.at + from as u64, to - from));
    }
    total
}

/// How long the text of an entry is up to and with its save line, at most `u64::MAX`.
pub fn head_len<A: Allocator>(kept: &Saved<A>) -> u64
    requires within { AllWithin kept.now.len kept.now.runs }
    ensures { (n : ℕ) → result ≡ min (length (head_text n (kept_of kept.now))) (2 ^ 64 - 1) }
{
    // (that this is a u64 bounds where each run ends)
    let _within_u64 = kept.len;
    let mut total = OUTER_LINES;
    for run in kept.runs.as_slice() {
        total = total.saturating_add(run_len(run));
    }
    total
}
