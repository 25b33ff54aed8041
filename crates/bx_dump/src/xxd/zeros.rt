//! Lines in which a row of zeros is shown as its first line and a star (autoskip).
ghost use Rattle.std.specs.Prelude.{◌≡◌, ℕ, ◌+◌, ◌-◌, ◌*◌, ◌/◌, ◌^◌, ◌<◌, ◌≤◌, ◌==◌, false, true, if◌then◌else◌, List, [], ◌++◌, length, take, drop, replicate, min};
ghost use Rattle.bx_dump_columns.specs.Lines.{in_lines};
ghost use Rattle.bx_dump.specs.FoldBy.{line_bytes_by};
ghost use Rattle.bx_dump.specs.Zeros.{all_zeros, zeros_skipped};
ghost use Rattle.bx_dump.specs.private.Zeros.{dump_end, row_end, row_room, zeros_put, HasCounted, PutsRows};

use crate::driver::pages::{Pages, SMALL_PAGE, START};
use crate::xxd::lines::{LineForm, Lines, Put, put_text};

/// The most bytes of a line.
const WIDEST: usize = 256;

/// The most digits of a line.
const CELLS: usize = 2048;

/// As many zeros as the longest line has bytes.
#[inline]
fn blank() -> [u8; WIDEST]
    ensures { result ≡ replicate 256 0 }
{
    [0; WIDEST]
}

/// Whether all bytes of a line are zeros.
#[inline]
fn is_zeros(line: &[u8]) -> bool
    requires { length line.now ≤ 256 }
    ensures { result ≡ all_zeros line.now }
{
    let zeros = blank();
    line == &zeros[..line.len()]
}

/// How many lines stand in front of the first one of zeros, of the whole lines.
fn busy_lines(cols: usize, bytes: &[u8]) -> usize
    requires some { 0 < cols }
    requires most { cols ≤ 256 }
    ensures inside { cols * result ≤ length bytes.now }
    ensures busy { (k : ℕ) → k < result → all_zeros (line_bytes_by cols bytes.now k) ≡ false }
    ensures stops { result ≡ 0 → cols ≤ length bytes.now → all_zeros (line_bytes_by cols bytes.now 0) ≡ true }
{
    let count = bytes.len() / cols;
    for k in 0..count {
        if is_zeros(&bytes[cols * k..cols * k + cols]) {
            return k;
        }
    }
    count
}

/// Puts a line of zeros at the front, and answers how long it is.
fn put_zero_line<F: LineForm>(form: &F, text: &mut [u8], at: u64) -> usize
    requires room { F.room form.now ≤ length text.old }
    requires address { at + F.cols form.now ≤ 2 ^ 63 + 2 ^ 40 }
    ensures most { result ≤ F.room form.now }
    ensures text { take result text.new ≡ F.line form.now at (replicate (F.cols form.now) 0) }
{
    let mut cells = [0; CELLS];
    let zeros = blank();
    let cols = form.line_len();
    let (digits, _) = cells.split_at_mut(form.cell_len() * cols);
    put_text(form, text, digits, at, &zeros[..cols])
}

/// Puts what ends a row of zeros before a line at an address, and answers how long it is.
fn put_row_end<F: LineForm>(form: &F, text: &mut [u8], at: u64, zeros: usize) -> usize
    requires room { row_room (F.room form.now) zeros ≤ length text.old }
    requires star { 2 ≤ F.room form.now }
    requires address { at ≤ 2 ^ 63 + 2 ^ 40 }
    ensures most { result ≤ row_room (F.room form.now) zeros }
    ensures text { take result text.new ≡ row_end (F.line form.now) (F.cols form.now) at zeros }
{
    if zeros < 2 {
        return 0;
    }
    if zeros < 3 {
        return put_zero_line(form, text, at.saturating_sub(form.line_len() as u64));
    }
    text[..2].copy_from_slice(b"*\n");
    2
}

/// Puts lines that are shown, behind what ends a row of zeros before them, and answers how long that is.
fn put_shown<F: LineForm>(
    form: &F,
    text: &mut [u8],
    cells: &mut [u8],
    at: u64,
    bytes: &[u8],
    zeros: usize,
) -> usize
    requires room { row_room (F.room form.now) zeros + F.room form.now * ((length bytes.now + F.cols form.now - 1) / F.cols form.now) ≤ length text.old }
    requires star { 2 ≤ F.room form.now }
    requires small { length bytes.now ≤ 16384 }
    requires address { at + length bytes.now ≤ 2 ^ 63 + 2 ^ 40 }
    requires cells { F.width form.now * length bytes.now ≤ length cells.old }
    ensures most { result ≤ row_room (F.room form.now) zeros + F.room form.now * ((length bytes.now + F.cols form.now - 1) / F.cols form.now) }
    ensures text { take result text.new ≡
        row_end (F.line form.now) (F.cols form.now) at zeros ++ in_lines (F.line form.now) (F.cols form.now) at bytes.now }
{
    let first = put_row_end(form, text, at, zeros);
    let (_, rest) = text.split_at_mut(first);
    first + put_text(form, rest, cells, at, bytes)
}

/// Puts a line of zeros that others follow if it's the first of its row, and answers how long it is. 4 stands for more too.
fn put_zeros<F: LineForm>(form: &F, text: &mut [u8], at: u64, zeros: &mut usize) -> usize
    requires few { zeros.old ≤ 4 }
    requires room { F.room form.now ≤ length text.old }
    requires address { at + F.cols form.now ≤ 2 ^ 63 + 2 ^ 40 }
    ensures count { zeros.new ≡ min (zeros.old + 1) 4 }
    ensures most { result + row_room (F.room form.now) zeros.new ≤ row_room (F.room form.now) zeros.old + F.room form.now }
    ensures text { take result text.new ≡ if zeros.old == 0 then F.line form.now at (replicate (F.cols form.now) 0) else [] }
{
    let first = *zeros == 0;
    *zeros = (*zeros + 1).min(4);
    if first {
        return put_zero_line(form, text, at);
    }
    0
}

/// Puts the lines up to the next one of zeros, or one of zeros, and answers how many lines these are.
fn put_row<F: LineForm>(
    form: &F,
    zeros: &mut usize,
    text: &mut [u8],
    cells: &mut [u8],
    at: u64,
    bytes: &[u8],
) -> Put
    requires few { zeros.old ≤ 4 }
    requires star { 2 ≤ F.room form.now }
    requires line { F.cols form.now ≤ length bytes.now }
    requires small { length bytes.now ≤ 16384 }
    requires address { at + length bytes.now ≤ 2 ^ 63 + 2 ^ 40 }
    requires room { row_room (F.room form.now) zeros.old + F.room form.now * (length bytes.now / F.cols form.now) ≤ length text.old }
    requires cells { F.width form.now * length bytes.now ≤ length cells.old }
    ensures few { zeros.new ≤ 4 }
    ensures some { 0 < result.lines }
    ensures inside { F.cols form.now * result.lines ≤ length bytes.now }
    ensures most { result.used + row_room (F.room form.now) zeros.new ≤ row_room (F.room form.now) zeros.old + F.room form.now * result.lines }
    ensures text { PutsRows (F.line form.now) (F.cols form.now) result.lines zeros.old zeros.new at
        (take (F.cols form.now * result.lines) bytes.now) (take result.used text.new) }
{
    let cols = form.line_len();
    let busy = busy_lines(cols, bytes);
    if busy == 0 {
        return Put {
            lines: 1,
            used: put_zeros(form, text, at, zeros),
        };
    }
    let used = put_shown(form, text, cells, at, &bytes[..cols * busy], *zeros);
    *zeros = 0;
    Put { lines: busy, used }
}

/// Puts whole lines that others follow, and answers how long that is.
fn put_rows<F: LineForm>(
    form: &F,
    zeros: &mut usize,
    text: &mut [u8],
    cells: &mut [u8],
    at: u64,
    bytes: &[u8],
) -> usize
    requires few { zeros.old ≤ 4 }
    requires star { 2 ≤ F.room form.now }
    requires small { length bytes.now ≤ 16384 }
    requires address { at + length bytes.now ≤ 2 ^ 63 + 2 ^ 40 }
    requires room { F.room form.now * (length bytes.now / F.cols form.now + 1) ≤ length text.old }
    requires cells { F.width form.now * length bytes.now ≤ length cells.old }
    ensures few { zeros.new ≤ 4 }
    ensures most { result + row_room (F.room form.now) zeros.new ≤ F.room form.now * (length bytes.now / F.cols form.now + 1) }
    ensures text { PutsRows (F.line form.now) (F.cols form.now) (length bytes.now / F.cols form.now) zeros.old zeros.new at
        (take (F.cols form.now * (length bytes.now / F.cols form.now)) bytes.now) (take result text.new) }
{
    let cols = form.line_len();
    let count = bytes.len() / cols;
    let mut done = 0;
    let mut used = 0;
    while done < count {
        let begin = cols * done;
        let rest = &bytes[begin..cols * count];
        let row = put_row(
            form,
            zeros,
            &mut text[used..],
            cells,
            at + begin as u64,
            rest,
        );
        used += row.used;
        done += row.lines;
    }
    used
}

/// Puts what ends the dump behind whole lines, and answers how long it is.
fn put_end<F: LineForm>(form: &F, text: &mut [u8], at: u64, zeros: usize) -> usize
    requires room { 2 * F.room form.now ≤ length text.old }
    requires star { 2 ≤ F.room form.now }
    requires address { at ≤ 2 ^ 63 + 2 ^ 40 }
    ensures most { result ≤ 2 * F.room form.now }
    ensures text { take result text.new ≡ dump_end (F.line form.now) (F.cols form.now) at zeros }
{
    if zeros < 2 {
        return 0;
    }
    let back = at.saturating_sub(form.line_len() as u64);
    let first = put_row_end(form, text, back, zeros - 1);
    let (_, rest) = text.split_at_mut(first);
    first + put_zero_line(form, rest, back)
}

/// Puts the last bytes, one at least, and answers how long that is.
fn put_last<F: LineForm>(
    form: &F,
    zeros: &mut usize,
    text: &mut [u8],
    cells: &mut [u8],
    at: u64,
    bytes: &[u8],
) -> usize
    requires few { zeros.old ≤ 4 }
    requires star { 2 ≤ F.room form.now }
    requires some { 0 < length bytes.now }
    requires small { length bytes.now ≤ 16384 }
    requires address { at + length bytes.now ≤ 2 ^ 63 + 2 ^ 40 }
    requires room { F.room form.now * ((length bytes.now + F.cols form.now - 1) / F.cols form.now + 2) ≤ length text.old }
    requires cells { F.width form.now * length bytes.now ≤ length cells.old }
    ensures few { zeros.new ≤ 4 }
    ensures within { result ≤ length text.old }
    ensures text { (xs : List ℕ) (m start : ℕ) → HasCounted (F.cols form.now) zeros.old xs m → at ≡ start + length xs →
        zeros_skipped (F.line form.now) (F.cols form.now) start (xs ++ bytes.now) ≡
        zeros_put (F.line form.now) (F.cols form.now) start xs ++ take result text.new }
{
    let cols = form.line_len();
    let whole = cols * ((bytes.len() - 1) / cols);
    let used = put_rows(form, zeros, text, cells, at, &bytes[..whole]);
    let (_, rest) = text.split_at_mut(used);
    used + put_shown(
        form,
        rest,
        cells,
        at + whole as u64,
        &bytes[whole..],
        *zeros,
    )
}

/// Lines, and how many of zeros stand in a row behind those that were put.
#[derive(Drop)]
pub struct SkippingPages<F: LineForm> {
    lines: Lines<F>,
    zeros: usize,
    ghost few: { zeros ≤ 4 },
    ghost star: { 2 ≤ F.room lines.form },
    ghost thin: { F.room lines.form ≤ 4096 },
    ghost short: { (at : ℕ) (bytes : List ℕ) → length bytes ≤ F.cols lines.form → length (F.line lines.form at bytes) ≤ 2 ^ 12 },
}

impl<F: LineForm> SkippingPages<F> {
    /// Lines; none was put yet.
    pub fn new(lines: Lines<F>) -> Self
        requires star { 2 ≤ F.room lines.form }
        requires thin { F.room lines.form ≤ 4096 }
        requires short { (at : ℕ) (bytes : List ℕ) → length bytes ≤ F.cols lines.form → length (F.line lines.form at bytes) ≤ 2 ^ 12 }
        ensures lines { result.lines ≡ lines }
        ensures zeros { result.zeros ≡ 0 }
    {
        SkippingPages { lines, zeros: 0 }
    }
}

impl<F: LineForm> Pages for SkippingPages<F> {
    ghost written = { λ p. zeros_put (F.line p.lines.form) (F.cols p.lines.form) p.lines.start };

    ghost text = { λ p. zeros_skipped (F.line p.lines.form) (F.cols p.lines.form) p.lines.start };

    ghost kept = { λ _. 2 ^ 13 };

    ghost Seen = { λ p input. (m : ℕ) × HasCounted (F.cols p.lines.form) p.zeros input m };

    ghost block = { λ p. F.cols p.lines.form * p.lines.lines };

    ghost room = { λ p n. F.room p.lines.form * ((n + F.cols p.lines.form - 1) / F.cols p.lines.form + 2) + F.width p.lines.form * n };

    fn block_len(&self) -> usize {
        self.lines.form.line_len() * self.lines.lines
    }

    fn start_len(&self) -> usize {
        let cols = self.lines.form.line_len();
        let room = self.lines.form.room_len() + self.lines.form.cell_len() * cols;
        (cols * (SMALL_PAGE / room).saturating_sub(2)).min(START)
    }

    fn put(&mut self, page: &mut [u8], done: u64, bytes: &[u8]) -> usize {
        let lines = &self.lines;
        let at = lines.start + done;
        if bytes.is_empty() {
            return put_end(&lines.form, page, at, self.zeros);
        }
        let full = lines.form.line_len() * lines.lines;
        let (text, cells) = page.split_at_mut(page.len() - lines.form.cell_len() * bytes.len());
        if bytes.len() == full {
            return put_rows(&lines.form, &mut self.zeros, text, cells, at, bytes);
        }
        put_last(&lines.form, &mut self.zeros, text, cells, at, bytes)
    }

    fn grows(&self) {}
}
