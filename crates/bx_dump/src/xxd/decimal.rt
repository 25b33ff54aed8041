//! Lines of xxd with columns, whose addresses are decimal.
ghost use Rattle.std.specs.Prelude.{◌≡◌, ◌+◌, ◌*◌, ◌/◌, ◌^◌, ◌≤◌, length, take};
ghost use Rattle.bx_dump_columns.specs.Lines.{in_lines};
ghost use Rattle.bx_dump.specs.private.Xxd.{cell_of, cell_width, decimal_line};

use crate::xxd::columns::{Columns, Digits};
use crate::xxd::lines::{LineForm, Put};
use bx_dump_columns::hex_lanes::put_sixteen;
use bx_dump_columns::xxd::cells::{put_body, put_decimal_at};

/// Lines with the columns of others.
#[derive(Clone, Copy)]
pub struct Decimal {
    pub columns: Columns,
}

/// Puts a line of 16 bytes in groups of two at the front, and answers how long it is.
#[inline(always)]
fn put_line_of_16(text: &mut [u8], at: u64, bytes: &[u8], upper: bool) -> usize
    requires room { 82 ≤ length text.old }
    requires bytes { length bytes.now ≡ 16 }
    ensures most { result ≤ 82 }
    ensures text { take result text.new ≡ decimal_line (Digits.Hexadecimal upper) 16 2 at bytes.now }
{
    let front = put_decimal_at(text, at);
    let (_, rest) = text.split_at_mut(front);
    let (body, _) = rest.split_at_mut(60);
    let mut cells = [0; 32];
    put_sixteen(&mut cells, bytes, upper);
    put_body(body, bytes, &cells, 40, 4, 8);
    front + 60
}

/// Puts all full lines of 16 bytes in groups of two.
fn put_lines_of_16(text: &mut [u8], at: u64, bytes: &[u8], upper: bool) -> Put
    requires room { 82 * ((length bytes.now + 15) / 16) ≤ length text.old }
    requires few { length bytes.now ≤ 16384 }
    requires address { at ≤ 2 ^ 63 + 2 ^ 40 }
    ensures inside { 16 * result.lines ≤ length bytes.now }
    ensures most { result.used ≤ 82 * result.lines }
    ensures text { take result.used text.new ≡ in_lines (decimal_line (Digits.Hexadecimal upper) 16 2) 16 at (take (16 * result.lines) bytes.now) }
{
    let lines = bytes.len() / 16;
    let mut used = 0;
    for k in 0..lines {
        let line = &bytes[16 * k..16 * k + 16];
        used += put_line_of_16(&mut text[used..], at + (16 * k) as u64, line, upper);
    }
    Put { lines, used }
}

impl LineForm for Decimal {
    ghost line = { λ p. decimal_line p.columns.digits p.columns.cols p.columns.group };

    ghost cell = { λ p. cell_of p.columns.digits };

    ghost width = { λ p. cell_width p.columns.digits };

    ghost cols = { λ p. p.columns.cols };

    ghost room = { λ p. p.columns.field + p.columns.cols + 26 };

    fn line_len(&self) -> usize {
        self.columns.line_len()
    }

    fn room_len(&self) -> usize {
        self.columns.room_len()
    }

    fn cell_len(&self) -> usize {
        self.columns.cell_len()
    }

    fn put_cells(&self, cells: &mut [u8], bytes: &[u8]) {
        self.columns.put_cells(cells, bytes);
    }

    #[inline]
    fn put_line(&self, text: &mut [u8], at: u64, bytes: &[u8], cells: &[u8]) -> usize {
        let front = put_decimal_at(text, at);
        let (_, rest) = text.split_at_mut(front);
        front + self.columns.put_behind(rest, bytes, cells)
    }

    fn put_alone(&self, text: &mut [u8], at: u64, bytes: &[u8]) -> Put {
        match (self.columns.digits, self.columns.cols, self.columns.group) {
            (Digits::Hexadecimal { upper }, 16, 2) => { put_lines_of_16(text, at, bytes, upper) }
            _ => Put { lines: 0, used: 0 },
        }
    }

    fn put_common(&self, _text: &mut [u8], _at: u64, _bytes: &[u8], _cells: &[u8]) -> Put {
        Put { lines: 0, used: 0 }
    }

    fn even(&self) {
        self.columns.even();
    }
}
