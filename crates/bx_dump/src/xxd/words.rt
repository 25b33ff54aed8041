//! Lines of xxd whose columns are little-endian numbers.
ghost use Rattle.std.specs.Prelude.{◌≡◌, ℕ, ◌+◌, ◌-◌, ◌*◌, ◌/◌, ◌^◌, ◌<◌, ◌≤◌, false, List, [], ◌∷◌, length, take};
ghost use Rattle.bx_dump_columns.specs.Lines.{in_lines};
ghost use Rattle.bx_dump_columns.specs.Words.{IsUsualGroup};
ghost use Rattle.bx_dump.specs.Xxd.{address_in, words_line};

use crate::xxd::lines::{LineForm, Put};
use bx_dump_columns::xxd::cells::{put_at, put_decimal_at};
use bx_dump_columns::xxd::words::{put_sixteen_words, put_words_body};
use bx_text::put_address;

/// Columns of numbers of `group` bytes, between the address and the text.
#[derive(Clone, Copy)]
pub struct Words {
    decimal: bool,
    upper: bool,
    cols: usize,
    group: usize,
    count: usize,
    ghost some: { 0 < cols },
    ghost few: { cols ≤ 256 },
    ghost some_group: { 0 < group },
    ghost few_groups: { group ≤ 256 },
    ghost groups: { count ≡ (cols + group - 1) / group },
    ghost few_words: { count ≤ 256 },
    ghost narrow: { (2 * group + 1) * count ≤ 1280 },
}

impl Words {
    /// Lines of `cols` bytes, in numbers of `group`.
    pub fn new(decimal: bool, upper: bool, cols: usize, group: usize) -> Self
        requires some { 0 < cols }
        requires few { cols ≤ 256 }
        requires some_group { 0 < group }
        requires few_groups { group ≤ 256 }
        ensures decimal { result.decimal ≡ decimal }
        ensures upper { result.upper ≡ upper }
        ensures cols { result.cols ≡ cols }
        ensures group { result.group ≡ group }
    {
        Words {
            decimal,
            upper,
            cols,
            group,
            count: (cols + group - 1) / group,
        }
    }

    /// How wide the columns are.
    #[inline]
    fn field_len(&self) -> usize
        ensures value { result ≡ (2 * self.now.group + 1) * self.now.count }
        ensures most { result ≤ 1280 }
    {
        (2 * self.group + 1) * self.count
    }
}

/// Puts an address of at least 8 digits at the front, and answers how long it is.
#[inline]
fn put_place(line: &mut [u8], at: u64, decimal: bool) -> usize
    requires { 22 ≤ length line.old }
    ensures most { result ≤ 22 }
    ensures text { take result line.new ≡ address_in decimal at }
{
    if decimal {
        put_decimal_at(line, at)
    } else {
        put_at(line, at)
    }
}

/// Puts a full line of 16 bytes, for an address of 8 digits.
#[inline(always)]
fn put_line_of_16(line: &mut [u8], at: u32, bytes: &[u8], upper: bool, group: usize)
    requires usual { IsUsualGroup group }
    requires bytes { length bytes.now ≡ 16 }
    requires line { length line.old ≡ (2 * group + 1) * (16 / group) + 28 }
    ensures { line.new ≡ words_line false upper 16 group at bytes.now }
{
    let (address, body) = line.split_at_mut(8);
    put_address(address, at);
    put_sixteen_words(body, bytes, upper, group);
}

/// Puts all full lines of 16 bytes, for addresses of 8 digits. `group`, and how long a line is, are written out at the call, so that
/// the loop is made for them.
#[inline(always)]
fn put_lines_of_16(
    text: &mut [u8],
    at: u32,
    bytes: &[u8],
    upper: bool,
    group: usize,
    size: usize,
) -> Put
    requires usual { IsUsualGroup group }
    requires size { size ≡ (2 * group + 1) * (16 / group) + 28 }
    requires room { (size + 14) * ((length bytes.now + 15) / 16) ≤ length text.old }
    requires address { at + length bytes.now < 2 ^ 32 }
    ensures inside { 16 * result.lines ≤ length bytes.now }
    ensures most { result.used ≤ size * result.lines }
    ensures text { take result.used text.new ≡ in_lines (words_line false upper 16 group) 16 at (take (16 * result.lines) bytes.now) }
{
    let lines = bytes.len() / 16;
    for k in 0..lines {
        put_line_of_16(
            &mut text[size * k..size * k + size],
            at + (16 * k) as u32,
            &bytes[16 * k..16 * k + 16],
            upper,
            group,
        );
    }
    Put {
        lines,
        used: size * lines,
    }
}

impl LineForm for Words {
    ghost line = { λ p. words_line p.decimal p.upper p.cols p.group };

    ghost cell = { λ _ b. b ∷ [] };

    ghost width = { λ _. 1 };

    ghost cols = { λ p. p.cols };

    ghost room = { λ p. (2 * p.group + 1) * p.count + p.cols + 26 };

    fn line_len(&self) -> usize {
        self.cols
    }

    fn room_len(&self) -> usize {
        self.field_len() + self.cols + 26
    }

    fn cell_len(&self) -> usize {
        1
    }

    fn put_cells(&self, cells: &mut [u8], bytes: &[u8]) {
        cells.copy_from_slice(bytes);
    }

    #[inline]
    fn put_line(&self, text: &mut [u8], at: u64, bytes: &[u8], _cells: &[u8]) -> usize {
        let front = put_place(text, at, self.decimal);
        let (_, rest) = text.split_at_mut(front);
        let size = self.field_len() + bytes.len() + 4;
        let (body, _) = rest.split_at_mut(size);
        put_words_body(body, bytes, self.upper, self.group, self.count);
        front + size
    }

    fn put_alone(&self, text: &mut [u8], at: u64, bytes: &[u8]) -> Put {
        if self.decimal || at + bytes.len() as u64 >= 1 << 32 {
            return Put { lines: 0, used: 0 };
        }
        let at = at as u32;
        match (self.cols, self.group) {
            (16, 2) => put_lines_of_16(text, at, bytes, self.upper, 2, 68),
            (16, 4) => put_lines_of_16(text, at, bytes, self.upper, 4, 64),
            (16, 8) => put_lines_of_16(text, at, bytes, self.upper, 8, 62),
            _ => Put { lines: 0, used: 0 },
        }
    }

    fn put_common(&self, _text: &mut [u8], _at: u64, _bytes: &[u8], _cells: &[u8]) -> Put {
        Put { lines: 0, used: 0 }
    }

    fn even(&self) {}
}
