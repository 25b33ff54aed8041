//! Lines of `cols` bytes each, one after another.
ghost use Rattle.std.specs.Prelude.{◌≡◌, ℕ, ◌+◌, ◌-◌, ◌*◌, ◌/◌, ◌^◌, ◌<◌, ◌≤◌, List, length, take, drop, min};
ghost use Rattle.std.specs.List.{flat_map};
ghost use Rattle.bx_dump_columns.specs.Lines.{in_lines};

use crate::driver::pages::{Pages, SMALL_PAGE, START};

/// How many lines were put, and how long they are.
#[derive(Clone, Copy)]
pub struct Put {
    pub lines: usize,
    pub used: usize,
}

/// How a line is written.
pub trait LineForm {
    /// The line for some bytes at an address.
    ghost line: { Self → ℕ → List ℕ → List ℕ };

    /// The digits of a byte.
    ghost cell: { Self → ℕ → List ℕ };

    /// How many digits each byte has.
    ghost width: { Self → ℕ };

    /// The bytes of a line.
    ghost cols: { Self → ℕ };

    /// The most characters of a line.
    ghost room: { Self → ℕ };

    /// The bytes of a line.
    fn line_len(&self) -> usize
        ensures value { result ≡ cols self.now }
        ensures some { 0 < result }
        ensures most { result ≤ 256 };

    /// The most characters of a line.
    fn room_len(&self) -> usize
        ensures value { result ≡ room self.now }
        ensures some { 0 < result }
        ensures most { result ≤ 4096 };

    /// How many digits each byte has.
    fn cell_len(&self) -> usize
        ensures value { result ≡ width self.now }
        ensures some { 0 < result }
        ensures most { result ≤ 8 };

    /// Puts the digits of each byte.
    fn put_cells(&self, cells: &mut [u8], bytes: &[u8])
        requires { length cells.old ≡ width self.now * length bytes.now }
        ensures { cells.new ≡ flat_map (cell self.now) bytes.now };

    /// Puts the line for bytes with these digits at the front, and answers how long it is.
    fn put_line(&self, text: &mut [u8], at: u64, bytes: &[u8], cells: &[u8]) -> usize
        requires room { room self.now ≤ length text.old }
        requires some { 0 < length bytes.now }
        requires fits { length bytes.now ≤ cols self.now }
        requires cells { cells.now ≡ flat_map (cell self.now) bytes.now }
        requires long { length cells.now ≡ width self.now * length bytes.now }
        ensures most { result ≤ room self.now }
        ensures text { take result text.new ≡ line self.now at bytes.now };

    /// Puts the first lines at the front, those of them for which there is code of their own that needs no digits.
    fn put_alone(&self, text: &mut [u8], at: u64, bytes: &[u8]) -> Put
        requires room { room self.now * ((length bytes.now + cols self.now - 1) / cols self.now) ≤ length text.old }
        requires few { length bytes.now ≤ 16384 }
        requires address { at ≤ 2 ^ 63 + 2 ^ 40 }
        ensures inside { cols self.now * result.lines ≤ length bytes.now }
        ensures most { result.used ≤ room self.now * result.lines }
        ensures text { take result.used text.new ≡ in_lines (line self.now) (cols self.now) at (take (cols self.now * result.lines) bytes.now) };

    /// Puts the first lines at the front, those of them for which there is code of their own.
    fn put_common(&self, text: &mut [u8], at: u64, bytes: &[u8], cells: &[u8]) -> Put
        requires room { room self.now * ((length bytes.now + cols self.now - 1) / cols self.now) ≤ length text.old }
        requires few { length bytes.now ≤ 16384 }
        requires address { at ≤ 2 ^ 63 + 2 ^ 40 }
        requires cells { cells.now ≡ flat_map (cell self.now) bytes.now }
        requires long { length cells.now ≡ width self.now * length bytes.now }
        ensures inside { cols self.now * result.lines ≤ length bytes.now }
        ensures most { result.used ≤ room self.now * result.lines }
        ensures text { take result.used text.new ≡ in_lines (line self.now) (cols self.now) at (take (cols self.now * result.lines) bytes.now) };

    /// Says that each byte has as many digits.
    fn even(&self)
        ensures { (b : ℕ) → length (cell self.now b) ≡ width self.now };
}

/// Puts the line for the bytes from place `begin` on.
#[inline]
fn put_next<F: LineForm>(
    form: &F,
    text: &mut [u8],
    at: u64,
    bytes: &[u8],
    cells: &[u8],
    begin: usize,
) -> usize
    requires room { F.room form.now ≤ length text.old }
    requires inside { begin < length bytes.now }
    requires few { length bytes.now ≤ 16384 }
    requires address { at ≤ 2 ^ 63 + 2 ^ 40 }
    requires cells { cells.now ≡ flat_map (F.cell form.now) bytes.now }
    ensures most { result ≤ F.room form.now }
    ensures text { take result text.new ≡
        F.line form.now (at + begin) (take (min (begin + F.cols form.now) (length bytes.now) - begin) (drop begin bytes.now)) }
{
    form.even();
    let width = form.cell_len();
    let end = (begin + form.line_len()).min(bytes.len());
    let digits = &cells[width * begin..width * end];
    form.put_line(text, at + begin as u64, &bytes[begin..end], digits)
}

/// Puts the lines for some bytes with these digits, and answers how long they are.
fn put_lines<F: LineForm>(form: &F, text: &mut [u8], at: u64, bytes: &[u8], cells: &[u8]) -> usize
    requires room { F.room form.now * ((length bytes.now + F.cols form.now - 1) / F.cols form.now) ≤ length text.old }
    requires few { length bytes.now ≤ 16384 }
    requires address { at ≤ 2 ^ 63 + 2 ^ 40 }
    requires cells { cells.now ≡ flat_map (F.cell form.now) bytes.now }
    requires long { length cells.now ≡ F.width form.now * length bytes.now }
    ensures within { result ≤ length text.old }
    ensures most { result ≤ F.room form.now * ((length bytes.now + F.cols form.now - 1) / F.cols form.now) }
    ensures text { take result text.new ≡ in_lines (F.line form.now) (F.cols form.now) at bytes.now }
{
    let cols = form.line_len();
    let first = form.put_common(text, at, bytes, cells);
    let mut used = first.used;
    let count = (bytes.len() + cols - 1) / cols;
    for k in first.lines..count {
        used += put_next(form, &mut text[used..], at, bytes, cells, cols * k);
    }
    used
}

/// Puts the lines for some bytes, the digits of those that need them in front into `cells`, and answers how long they are.
pub fn put_text<F: LineForm>(
    form: &F,
    text: &mut [u8],
    cells: &mut [u8],
    at: u64,
    bytes: &[u8],
) -> usize
    requires room { F.room form.now * ((length bytes.now + F.cols form.now - 1) / F.cols form.now) ≤ length text.old }
    requires few { length bytes.now ≤ 16384 }
    requires address { at + length bytes.now ≤ 2 ^ 63 + 2 ^ 40 }
    requires cells { F.width form.now * length bytes.now ≤ length cells.old }
    ensures within { result ≤ length text.old }
    ensures most { result ≤ F.room form.now * ((length bytes.now + F.cols form.now - 1) / F.cols form.now) }
    ensures text { take result text.new ≡ in_lines (F.line form.now) (F.cols form.now) at bytes.now }
{
    form.even();
    let first = form.put_alone(text, at, bytes);
    let begin = form.line_len() * first.lines;
    let rest = &bytes[begin..];
    let (digits, _) = cells.split_at_mut(form.cell_len() * rest.len());
    form.put_cells(digits, rest);
    let (_, more) = text.split_at_mut(first.used);
    first.used + put_lines(form, more, at + begin as u64, rest, digits)
}

/// Lines of a form, with the place of the first byte.
#[derive(Drop)]
pub struct Lines<F: LineForm> {
    pub form: F,
    pub start: u64,
    pub lines: usize,
    ghost low: { start ≤ 2 ^ 63 },
    ghost broad: { 0 < F.cols form },
    ghost some: { 0 < lines },
    ghost few: { F.cols form * lines ≤ 16384 },
    ghost short: { F.room form * lines ≤ 65536 },
    ghost narrow: { F.width form * (F.cols form * lines) ≤ 32768 },
}

impl<F: LineForm> Lines<F> {
    /// As many lines at once as there is room for.
    pub fn new(form: F, start: u64) -> Self
        requires { start ≤ 2 ^ 63 }
        ensures form { result.form ≡ form }
        ensures start { result.start ≡ start }
    {
        let cols = form.line_len();
        let by_room = 65536 / form.room_len();
        let by_cells = 32768 / (form.cell_len() * cols);
        let lines = by_room.min(by_cells).min(16384 / cols);
        Lines { form, start, lines }
    }
}

impl<F: LineForm> Pages for Lines<F> {
    ghost written = { λ p. in_lines (F.line p.form) (F.cols p.form) p.start };

    ghost text = { λ p. in_lines (F.line p.form) (F.cols p.form) p.start };

    ghost kept = { λ _. 0 };

    ghost Seen = { λ p input. (k : ℕ) × (length input ≡ F.cols p.form * k) };

    ghost block = { λ p. F.cols p.form * p.lines };

    ghost room = { λ p n. F.room p.form * ((n + F.cols p.form - 1) / F.cols p.form) + F.width p.form * n };

    fn block_len(&self) -> usize {
        self.form.line_len() * self.lines
    }

    fn start_len(&self) -> usize {
        let cols = self.form.line_len();
        let room = self.form.room_len() + self.form.cell_len() * cols;
        (cols * (SMALL_PAGE / room)).min(START)
    }

    fn put(&mut self, page: &mut [u8], done: u64, bytes: &[u8]) -> usize {
        let (text, cells) = page.split_at_mut(page.len() - self.form.cell_len() * bytes.len());
        put_text(&self.form, text, cells, self.start + done, bytes)
    }

    fn grows(&self) {}
}
