//! Saved lines, put into a page.
ghost use Rattle.std.specs.Prelude.{◌≡◌, ◌+◌, ◌*◌, ◌<◌, ◌≤◌, ◌^◌, ◌++◌, length, map, vec_capacity};
ghost use Rattle.std.specs.List.{range_with_len};
ghost use Rattle.bx_journal_format.specs.DumpLine.{saved_run_line};
ghost use Rattle.bx_journal_format.specs.Entry.{rows_text, row};
ghost use Rattle.bx_journal_format.specs.Text.{ended};

use bx_text::{LineText, put_full_line, xxd_line};
use std::alloc::Allocator;

/// The most rows that are written at once.
const ROWS: usize = 128;

/// Writes rows from this one on into the page: as many as it has room for, at most `ROWS`, and not the last of the run. The
/// answer is how many.
pub fn push_rows<A: Allocator>(page: &mut Vec<u8, A>, at: u64, bytes: &[u8], first: usize) -> usize
    requires inside { 16 * first < length bytes.now }
    ensures inside { 16 * (first + result) < length bytes.now }
    ensures rows { page.new.items ≡ page.old.items ++ rows_text (map (row (record { at = at; bytes = bytes.now })) (range_with_len first result)) }
    ensures long { length page.new.items ≡ length page.old.items + 68 * result }
    ensures room { vec_capacity page.old ≤ vec_capacity page.new }
{
    if at > u32::MAX as u64 {
        return 0;
    }
    if bytes.len() as u64 > u32::MAX as u64 - at {
        return 0;
    }
    let whole = (bytes.len() - 16 * first - 1) / 16;
    let free = (page.capacity() - page.len()) / 68;
    let count = whole.min(free).min(ROWS);
    push_full_rows(page, at as u32, bytes, first, count);
    count
}

/// Writes rows of 16 bytes into the page, behind what waits there.
fn push_full_rows<A: Allocator>(
    page: &mut Vec<u8, A>,
    at: u32,
    bytes: &[u8],
    first: usize,
    count: usize,
)
    requires inside { 16 * (first + count) ≤ length bytes.now }
    requires address { at + length bytes.now < 2 ^ 32 }
    requires free { length page.old.items + 68 * count ≤ vec_capacity page.old }
    ensures rows { page.new.items ≡ page.old.items ++ rows_text (map (row (record { at = at; bytes = bytes.now })) (range_with_len first count)) }
    ensures long { length page.new.items ≡ length page.old.items + 68 * count }
    ensures room { vec_capacity page.old ≤ vec_capacity page.new }
{
    let from = page.len();
    let _ = page.resize(from + 68 * count, b' ');
    let (_, lines) = page.as_mut_slice().split_at_mut(from);
    full_rows(lines, at, bytes, first, count);
}

/// The lines of rows of 16 bytes at their places.
fn full_rows(lines: &mut [u8], at: u32, bytes: &[u8], first: usize, count: usize)
    requires inside { 16 * (first + count) ≤ length bytes.now }
    requires address { at + length bytes.now < 2 ^ 32 }
    requires long { length lines.old ≡ 68 * count }
    ensures { lines.new ≡ rows_text (map (row (record { at = at; bytes = bytes.now })) (range_with_len first count)) }
{
    for k in 0..count {
        let from = 16 * (first + k);
        whole_row(
            &mut lines[68 * k..68 * k + 68],
            at + from as u32,
            &bytes[from..from + 16],
        );
    }
}

/// The line of 16 bytes at its place.
#[inline(always)]
fn whole_row(line: &mut [u8], at: u32, bytes: &[u8])
    requires line { length line.old ≡ 68 }
    requires bytes { length bytes.now ≡ 16 }
    ensures { line.new ≡ ended (saved_run_line at bytes.now) }
{
    let mut all = [0; 16];
    all.copy_from_slice(bytes);
    full_row(line, at, &all);
}

/// A saved line of 1 to 16 bytes, with its newline.
#[tactic(auto, unfolding(crate::specs::DumpLine::saved_run_line))]
pub fn row_of(at: u64, bytes: &[u8]) -> LineText
    requires some { 0 < length bytes.now }
    requires few { length bytes.now ≤ 16 }
    ensures { result ≡ ended (saved_run_line at bytes.now) }
{
    xxd_line(at, bytes)
}

/// Writes the line into the page, behind what waits there.
pub fn push_full_row<A: Allocator>(page: &mut Vec<u8, A>, at: u32, bytes: &[u8; 16])
    requires { length page.old.items + 68 ≤ vec_capacity page.old }
    ensures line { page.new.items ≡ page.old.items ++ ended (saved_run_line at bytes.now) }
    ensures room { vec_capacity page.old ≤ vec_capacity page.new }
{
    let from = page.len();
    let _ = page.extend_from_slice(&[b' '; 68]);
    let (_, line) = page.as_mut_slice().split_at_mut(from);
    full_row(line, at, bytes);
}

/// The line at its place.
#[inline]
#[tactic(auto, unfolding(crate::specs::DumpLine::saved_run_line))]
fn full_row(line: &mut [u8], at: u32, bytes: &[u8; 16])
    requires { length line.old ≡ 68 }
    ensures { line.new ≡ ended (saved_run_line at bytes.now) }
{
    put_full_line(line, at, bytes);
}
