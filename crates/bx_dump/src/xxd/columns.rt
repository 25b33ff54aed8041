//! Lines of xxd with columns.
ghost use Rattle.std.specs.Prelude.{◌≡◌, ℕ, ◌+◌, ◌-◌, ◌*◌, ◌/◌, ◌^◌, ◌<◌, ◌≤◌, length, take};
ghost use Rattle.std.specs.List.{flat_map};
ghost use Rattle.bx_dump.specs.private.Xxd.{cell_of, cell_width, columns_line, laid_columns, columns_width, columns_lines};
ghost use Rattle.bx_dump.specs.Xxd.{behind_address};

use crate::xxd::lines::{LineForm, Put};
use bx_dump_columns::xxd::binary::put_six;
use bx_dump_columns::xxd::cells::{put_at, put_bits, put_body, put_pairs};
use bx_text::put_address;

/// How a byte is written.
#[derive(Clone, Copy, Debug, PartialEq, Eq)]
pub enum Digits {
    Hexadecimal { upper: bool },
    Binary,
}

impl Digits {
    /// How many digits a byte has.
    #[inline]
    fn width(self) -> usize
        ensures { result ≡ cell_width self }
    {
        match self {
            Digits::Hexadecimal { .. } => 2,
            Digits::Binary => 8,
        }
    }
}

/// Columns of digits in groups, between the address and the text.
#[derive(Clone, Copy)]
pub struct Columns {
    pub(super) digits: Digits,
    pub(super) cols: usize,
    pub(super) group: usize,
    whole: usize,
    field: usize,
    ghost some: { 0 < cols },
    ghost few: { cols ≤ 256 },
    ghost some_group: { 0 < group },
    ghost few_groups: { group ≤ 256 },
    ghost groups: { whole ≡ cols / group },
    ghost wide: { field ≡ columns_width (cell_width digits) cols group },
}

impl Columns {
    /// Lines of `cols` bytes, in groups of `group`.
    pub fn new(digits: Digits, cols: usize, group: usize) -> Self
        requires some { 0 < cols }
        requires few { cols ≤ 256 }
        requires some_group { 0 < group }
        requires few_groups { group ≤ 256 }
        ensures digits { result.digits ≡ digits }
        ensures cols { result.cols ≡ cols }
        ensures group { result.group ≡ group }
    {
        Columns {
            digits,
            cols,
            group,
            whole: cols / group,
            field: digits.width() * cols + (cols + group - 1) / group,
        }
    }
}

impl Columns {
    /// Puts what stands behind the address of a line at the front, and answers how long it is.
    pub fn put_behind(&self, text: &mut [u8], bytes: &[u8], cells: &[u8]) -> usize
        requires room { self.now.field + length bytes.now + 4 ≤ length text.old }
        requires fits { length bytes.now ≤ self.now.cols }
        requires cells { cells.now ≡ flat_map (cell_of self.now.digits) bytes.now }
        ensures most { result ≡ self.now.field + length bytes.now + 4 }
        ensures text { take result text.new ≡ behind_address (laid_columns self.now.digits self.now.cols self.now.group bytes.now) bytes.now }
    {
        let size = self.field + bytes.len() + 4;
        let (body, _) = text.split_at_mut(size);
        let count = self.groups_in(bytes.len());
        let piece = self.digits.width() * self.group;
        put_body(body, bytes, cells, self.field, piece, count);
        size
    }
}

impl Columns {
    /// How many whole groups there are among `len` bytes.
    #[inline]
    fn groups_in(&self, len: usize) -> usize
        ensures { result ≡ len / self.now.group }
    {
        if len == self.cols {
            self.whole
        } else {
            len / self.group
        }
    }
}

/// The numbers of a form, each written out where its lines are put, so that the loop is made for them: the bytes and the digits of a
/// line, the characters between address and text, the digits of a group, and how many groups are whole.
#[derive(Clone, Copy)]
struct Sizes {
    cols: usize,
    wide: usize,
    field: usize,
    piece: usize,
    count: usize,
}

/// Puts a full line, for an address of 8 digits.
#[inline(always)]
fn put_fixed(form: &Columns, line: &mut [u8], at: u32, bytes: &[u8], cells: &[u8], sizes: Sizes)
    requires full { length bytes.now ≡ form.now.cols }
    requires cells { cells.now ≡ flat_map (cell_of form.now.digits) bytes.now }
    requires field { sizes.field ≡ form.now.field }
    requires piece { sizes.piece ≡ cell_width form.now.digits * form.now.group }
    requires count { sizes.count ≡ form.now.whole }
    requires long { length line.old ≡ sizes.field + length bytes.now + 12 }
    ensures { line.new ≡ columns_line form.now.digits form.now.cols form.now.group at bytes.now }
{
    let (address, body) = line.split_at_mut(8);
    put_address(address, at);
    put_body(body, bytes, cells, sizes.field, sizes.piece, sizes.count);
}

/// Puts all full lines, for addresses of 8 digits.
#[inline(always)]
fn put_full(
    form: &Columns,
    text: &mut [u8],
    at: u32,
    bytes: &[u8],
    cells: &[u8],
    sizes: Sizes,
) -> Put
    requires cols { sizes.cols ≡ form.now.cols }
    requires wide { sizes.wide ≡ cell_width form.now.digits * form.now.cols }
    requires field { sizes.field ≡ form.now.field }
    requires piece { sizes.piece ≡ cell_width form.now.digits * form.now.group }
    requires count { sizes.count ≡ form.now.whole }
    requires room { (sizes.field + sizes.cols + 26) * ((length bytes.now + sizes.cols - 1) / sizes.cols) ≤ length text.old }
    requires address { at + length bytes.now < 2 ^ 32 }
    requires cells { cells.now ≡ flat_map (cell_of form.now.digits) bytes.now }
    requires long { length cells.now ≡ cell_width form.now.digits * length bytes.now }
    ensures inside { form.now.cols * result.lines ≤ length bytes.now }
    ensures most { result.used ≤ (form.now.field + form.now.cols + 26) * result.lines }
    ensures text { take result.used text.new ≡ columns_lines form.now.digits form.now.cols form.now.group at bytes.now result.lines }
{
    let cols = sizes.cols;
    let wide = sizes.wide;
    let lines = bytes.len() / cols;
    let size = sizes.field + cols + 12;
    for k in 0..lines {
        put_fixed(
            form,
            &mut text[size * k..size * k + size],
            at + (cols * k) as u32,
            &bytes[cols * k..cols * k + cols],
            &cells[wide * k..wide * k + wide],
            sizes,
        );
    }
    Put {
        lines,
        used: size * lines,
    }
}

/// Puts the line of the first six of 16 bytes, for an address of 8 digits.
#[inline(always)]
fn put_line_of_6(line: &mut [u8], at: u32, bytes: &[u8])
    requires line { length line.old ≡ 72 }
    requires bytes { length bytes.now ≡ 16 }
    ensures { line.new ≡ columns_line Digits.Binary 6 1 at (take 6 bytes.now) }
{
    let (address, body) = line.split_at_mut(8);
    put_address(address, at);
    put_six(body, bytes);
}

/// Puts all lines of six bytes for which 16 can be looked at, for addresses of 8 digits.
fn put_lines_of_6(text: &mut [u8], at: u32, bytes: &[u8]) -> Put
    requires room { 86 * ((length bytes.now + 5) / 6) ≤ length text.old }
    requires address { at + length bytes.now < 2 ^ 32 }
    ensures inside { 6 * result.lines ≤ length bytes.now }
    ensures most { result.used ≤ 86 * result.lines }
    ensures text { take result.used text.new ≡ columns_lines Digits.Binary 6 1 at bytes.now result.lines }
{
    let lines = bytes.len().saturating_sub(10) / 6;
    for k in 0..lines {
        put_line_of_6(
            &mut text[72 * k..72 * k + 72],
            at + (6 * k) as u32,
            &bytes[6 * k..6 * k + 16],
        );
    }
    Put {
        lines,
        used: 72 * lines,
    }
}

impl LineForm for Columns {
    ghost line = { λ c. columns_line c.digits c.cols c.group };

    ghost cell = { λ c. cell_of c.digits };

    ghost width = { λ c. cell_width c.digits };

    ghost cols = { λ c. c.cols };

    ghost room = { λ c. c.field + c.cols + 26 };

    fn line_len(&self) -> usize {
        self.cols
    }

    fn room_len(&self) -> usize {
        self.field + self.cols + 26
    }

    fn cell_len(&self) -> usize {
        self.digits.width()
    }

    fn put_cells(&self, cells: &mut [u8], bytes: &[u8]) {
        match self.digits {
            Digits::Hexadecimal { upper } => put_pairs(cells, bytes, upper),
            Digits::Binary => put_bits(cells, bytes),
        }
    }

    #[inline]
    fn put_line(&self, text: &mut [u8], at: u64, bytes: &[u8], cells: &[u8]) -> usize {
        let front = put_at(text, at);
        let (_, rest) = text.split_at_mut(front);
        let size = self.field + bytes.len() + 4;
        let (body, _) = rest.split_at_mut(size);
        let count = self.groups_in(bytes.len());
        let piece = self.digits.width() * self.group;
        put_body(body, bytes, cells, self.field, piece, count);
        front + size
    }

    fn put_alone(&self, text: &mut [u8], at: u64, bytes: &[u8]) -> Put {
        if at + bytes.len() as u64 >= 1 << 32 {
            return Put { lines: 0, used: 0 };
        }
        match (self.digits, self.cols, self.group) {
            (Digits::Binary, 6, 1) => put_lines_of_6(text, at as u32, bytes),
            _ => Put { lines: 0, used: 0 },
        }
    }

    fn put_common(&self, text: &mut [u8], at: u64, bytes: &[u8], cells: &[u8]) -> Put {
        if at + bytes.len() as u64 >= 1 << 32 {
            return Put { lines: 0, used: 0 };
        }
        let at = at as u32;
        match (self.digits.width(), self.cols, self.group) {
            (2, 16, 2) => {
                let sizes = Sizes {
                    cols: 16,
                    wide: 32,
                    field: 40,
                    piece: 4,
                    count: 8,
                };
                put_full(self, text, at, bytes, cells, sizes)
            }
            (2, 32, 4) => {
                let sizes = Sizes {
                    cols: 32,
                    wide: 64,
                    field: 72,
                    piece: 8,
                    count: 8,
                };
                put_full(self, text, at, bytes, cells, sizes)
            }
            _ => Put { lines: 0, used: 0 },
        }
    }

    fn even(&self) {}
}
