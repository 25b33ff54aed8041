//! Lines of xxd without an address: plain digits, and items of a C array.
ghost use Rattle.std.specs.Prelude.{◌≡◌, ℕ, ◌+◌, ◌-◌, ◌*◌, ◌/◌, ◌<◌, ◌≤◌, false, List, [], ◌∷◌, ◌++◌, length, take, codes};
ghost use Rattle.std.specs.List.{flat_map};
ghost use Rattle.bx_text.specs.Dump.{pair_of};
ghost use Rattle.bx_dump.specs.Laws.{items};
ghost use Rattle.bx_dump_columns.specs.Lines.{in_lines};
ghost use Rattle.bx_dump.specs.private.Rows.{include_line, next_item, plain_line};

use crate::driver::pages::{BLOCK, Pages, START};
use crate::xxd::lines::{LineForm, Put};
use bx_dump_columns::hex_lanes::put_sixteen;
use bx_dump_columns::xxd::cells::put_pairs;
use bx_text::digits_of;
use std::simd::prelude::*;

/// Lines of hexadecimal digits alone.
#[derive(Clone, Copy)]
pub struct Plain {
    cols: usize,
    upper: bool,
    ghost some: { 0 < cols },
    ghost few: { cols ≤ 256 },
}

impl Plain {
    /// Lines of `cols` bytes.
    pub fn new(cols: usize, upper: bool) -> Self
        requires some { 0 < cols }
        requires few { cols ≤ 256 }
        ensures cols { result.cols ≡ cols }
        ensures upper { result.upper ≡ upper }
    {
        Plain { cols, upper }
    }
}

/// Puts a full line: 30 bytes as 16 and 16, so that two are put twice.
#[inline(always)]
fn put_thirty(line: &mut [u8], bytes: &[u8], upper: bool)
    requires line { length line.old ≡ 61 }
    requires bytes { length bytes.now ≡ 30 }
    ensures { line.new ≡ flat_map (pair_of upper) bytes.now ++ 10 ∷ [] }
{
    put_sixteen(&mut line[..32], &bytes[..16], upper);
    put_sixteen(&mut line[28..60], &bytes[14..], upper);
    line[60] = b'\n';
}

/// Puts all full lines of 30 bytes. `upper` is written out at the call, so that the loop is made for it.
#[inline(always)]
fn put_lines_of_30(text: &mut [u8], at: u64, bytes: &[u8], upper: bool) -> Put
    requires room { 61 * ((length bytes.now + 29) / 30) ≤ length text.old }
    ensures inside { 30 * result.lines ≤ length bytes.now }
    ensures most { result.used ≤ 61 * result.lines }
    ensures text { take result.used text.new ≡ in_lines (plain_line upper) 30 at (take (30 * result.lines) bytes.now) }
{
    let lines = bytes.len() / 30;
    for k in 0..lines {
        put_thirty(
            &mut text[61 * k..61 * k + 61],
            &bytes[30 * k..30 * k + 30],
            upper,
        );
    }
    Put {
        lines,
        used: 61 * lines,
    }
}

impl LineForm for Plain {
    ghost line = { λ p. plain_line p.upper };

    ghost cell = { λ p. pair_of p.upper };

    ghost width = { λ p. 2 };

    ghost cols = { λ p. p.cols };

    ghost room = { λ p. 2 * p.cols + 1 };

    fn line_len(&self) -> usize {
        self.cols
    }

    fn room_len(&self) -> usize {
        2 * self.cols + 1
    }

    fn cell_len(&self) -> usize {
        2
    }

    fn put_cells(&self, cells: &mut [u8], bytes: &[u8]) {
        put_pairs(cells, bytes, self.upper);
    }

    #[inline]
    fn put_line(&self, text: &mut [u8], _at: u64, _bytes: &[u8], cells: &[u8]) -> usize {
        text[..cells.len()].copy_from_slice(cells);
        text[cells.len()] = b'\n';
        cells.len() + 1
    }

    fn put_alone(&self, text: &mut [u8], at: u64, bytes: &[u8]) -> Put {
        match (self.cols, self.upper) {
            (30, true) => put_lines_of_30(text, at, bytes, true),
            (30, false) => put_lines_of_30(text, at, bytes, false),
            _ => Put { lines: 0, used: 0 },
        }
    }

    fn put_common(&self, _text: &mut [u8], _at: u64, _bytes: &[u8], _cells: &[u8]) -> Put {
        Put { lines: 0, used: 0 }
    }

    fn even(&self) {}
}

/// Hexadecimal digits alone, with no line's end.
#[derive(Drop)]
pub struct Unbroken {
    pub upper: bool,
}

impl Pages for Unbroken {
    ghost written = { λ p. flat_map (pair_of p.upper) };

    ghost text = { λ p. flat_map (pair_of p.upper) };

    ghost kept = { λ _. 0 };

    ghost Seen = { λ _ _. Unit {0} };

    ghost block = { λ _. 16384 };

    ghost room = { λ _ n. 2 * n };

    fn block_len(&self) -> usize {
        BLOCK
    }

    fn start_len(&self) -> usize {
        START
    }

    fn put(&mut self, page: &mut [u8], _done: u64, bytes: &[u8]) -> usize {
        let size = 2 * bytes.len();
        let (digits, _) = page.split_at_mut(size);
        put_pairs(digits, bytes, self.upper);
        size
    }

    fn grows(&self) {}
}

/// Puts each byte as an item that follows another.
fn put_items(cells: &mut [u8], bytes: &[u8])
    requires { length cells.old ≡ 6 * length bytes.now }
    ensures { cells.new ≡ flat_map next_item bytes.now }
{
    for (i, byte) in bytes.iter().enumerate() {
        let [high, low] = digits_of(*byte);
        cells[6 * i..6 * i + 6].copy_from_slice(&[b',', b' ', b'0', b'x', high, low]);
    }
}

/// Lines of items of a C array. Each but the first ends the line before it.
#[derive(Clone, Copy)]
pub struct Items {
    cols: usize,
    ghost some: { 0 < cols },
    ghost few: { cols ≤ 256 },
}

impl Items {
    /// Lines of `cols` items.
    pub fn new(cols: usize) -> Self
        requires some { 0 < cols }
        requires few { cols ≤ 256 }
        ensures { result.cols ≡ cols }
    {
        Items { cols }
    }
}

/// Puts 12 items by their digits, with what stands in front of a line behind another.
#[inline(always)]
fn put_digits(line: &mut [u8], digits: &[u8; 32])
    requires { length line.old ≡ 74 }
    ensures { (bytes : List ℕ) → length bytes ≡ 16 → digits.now ≡ flat_map (pair_of false) bytes → line.new ≡ codes ",\n  " ++ items (take 12 bytes) }
{
    let cells = u8x32::from_array(*digits);
    let signs = u8x32::from_array(*b",\n 0x                           ");
    let front: u8x32 = cells.shuffle(
        signs,
        [
            32, 33, 34, 34, 35, 36, 0, 1, 32, 34, 35, 36, 2, 3, 32, 34, 35, 36, 4, 5, 32, 34, 35,
            36, 6, 7, 32, 34, 35, 36, 8, 9,
        ],
    );
    let middle: u8x32 = cells.shuffle(
        signs,
        [
            32, 34, 35, 36, 10, 11, 32, 34, 35, 36, 12, 13, 32, 34, 35, 36, 14, 15, 32, 34, 35, 36,
            16, 17, 32, 34, 35, 36, 18, 19, 32, 34,
        ],
    );
    let back: u8x8 = cells.shuffle(signs, [35, 36, 20, 21, 32, 34, 35, 36]);
    let (first, rest) = line.split_at_mut(32);
    let (second, rest) = rest.split_at_mut(32);
    let (third, last) = rest.split_at_mut(8);
    front.copy_to_slice(first);
    middle.copy_to_slice(second);
    back.copy_to_slice(third);
    last.copy_from_slice(&digits[22..24]);
}

/// Puts the line of the first 12 of 16 bytes behind another line.
#[inline(always)]
fn put_twelve(line: &mut [u8], bytes: &[u8])
    requires line { length line.old ≡ 74 }
    requires bytes { length bytes.now ≡ 16 }
    ensures { line.new ≡ codes ",\n  " ++ items (take 12 bytes.now) }
{
    let mut digits = [0; 32];
    put_sixteen(&mut digits, bytes, false);
    put_digits(line, &digits);
}

/// Puts the lines of 12 items, all behind another, for which 16 bytes can be looked at.
fn put_lines_of_12(text: &mut [u8], at: u64, bytes: &[u8]) -> Put
    requires behind { 0 < at }
    requires room { 76 * ((length bytes.now + 11) / 12) ≤ length text.old }
    ensures inside { 12 * result.lines ≤ length bytes.now }
    ensures most { result.used ≤ 76 * result.lines }
    ensures text { take result.used text.new ≡ in_lines include_line 12 at (take (12 * result.lines) bytes.now) }
{
    let lines = bytes.len().saturating_sub(4) / 12;
    for k in 0..lines {
        put_twelve(&mut text[74 * k..74 * k + 74], &bytes[12 * k..12 * k + 16]);
    }
    Put {
        lines,
        used: 74 * lines,
    }
}

impl LineForm for Items {
    ghost line = { λ _. include_line };

    ghost cell = { λ _. next_item };

    ghost width = { λ _. 6 };

    ghost cols = { λ p. p.cols };

    ghost room = { λ p. 6 * p.cols + 4 };

    fn line_len(&self) -> usize {
        self.cols
    }

    fn room_len(&self) -> usize {
        6 * self.cols + 4
    }

    fn cell_len(&self) -> usize {
        6
    }

    fn put_cells(&self, cells: &mut [u8], bytes: &[u8]) {
        put_items(cells, bytes);
    }

    #[inline]
    fn put_line(&self, text: &mut [u8], at: u64, _bytes: &[u8], cells: &[u8]) -> usize {
        let items = &cells[2..];
        let front = if at == 0 { 2 } else { 4 };
        let (lead, rest) = text.split_at_mut(front);
        let (line, _) = rest.split_at_mut(items.len());
        if at == 0 {
            lead.copy_from_slice(b"  ");
        } else {
            lead.copy_from_slice(b",\n  ");
        }
        line.copy_from_slice(items);
        front + items.len()
    }

    fn put_alone(&self, text: &mut [u8], at: u64, bytes: &[u8]) -> Put {
        if self.cols == 12 && at > 0 {
            put_lines_of_12(text, at, bytes)
        } else {
            Put { lines: 0, used: 0 }
        }
    }

    fn put_common(&self, _text: &mut [u8], _at: u64, _bytes: &[u8], _cells: &[u8]) -> Put {
        Put { lines: 0, used: 0 }
    }

    fn even(&self) {}
}
