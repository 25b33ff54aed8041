//! The length of saved lines of ranges, in bytes.
ghost use Rattle.std.specs.Prelude.{◌≡◌, ◌+◌, ◌-◌, ◌^◌, ◌<◌, ◌≤◌, List, ℕ, length, min};
ghost use Rattle.bx_journal_protocol.specs.write.Page.{row_text};
ghost use Rattle.bx_journal_protocol.specs.write.Ranges.{range_len, left_len, AreRanges};

use bx_image::Span;
use bx_journal_format::row_of;

/// The length of a saved line of `count` bytes, its newline included.
fn line_len(at: u64, count: usize) -> u64
    requires some { 0 < count }
    requires few { count ≤ 16 }
    ensures { (bytes : List ℕ) → length bytes ≡ count → result ≡ length (row_text at bytes) }
{
    let zeros = [0u8; 16];
    let (part, _) = zeros.as_slice().split_at(count);
    row_of(at, part).as_bytes().len() as u64
}

/// The length of the saved lines of `len` bytes, counted line by line, at most `u64::MAX`.
fn far_len(at: u64, len: u64) -> u64
    requires { at + len < 2 ^ 63 }
    ensures { result ≡ min (range_len at (at + len)) (2 ^ 64 - 1) }
{
    let count = (len + 15) / 16;
    let mut total: u64 = 0;
    for k in 0..count {
        let from = 16 * k;
        let size = (len - from).min(16);
        total = total.saturating_add(line_len(at + from, size as usize));
    }
    total
}

/// The first address that has more than 8 digits.
const NINE_DIGITS: u64 = 1 << 32;

/// The length of the saved lines of a range, at most `u64::MAX`.
fn lines_len(at: u64, end: u64) -> u64
    requires order { at < end }
    requires bound { end < 2 ^ 63 }
    ensures { result ≡ min (range_len at end) (2 ^ 64 - 1) }
{
    let len = end - at;
    if end < NINE_DIGITS {
        return 52 * ((len + 15) / 16) + len;
    }
    far_len(at, len)
}

/// The length of the saved lines of some ranges, at most `u64::MAX`.
pub fn ranges_len(ranges: &[Span]) -> u64
    requires { AreRanges (2 ^ 62) ranges.now }
    ensures { result ≡ min (left_len ranges.now 0) (2 ^ 64 - 1) }
{
    let mut total: u64 = 0;
    for range in ranges {
        total = total.saturating_add(lines_len(range.at, range.end));
    }
    total
}
