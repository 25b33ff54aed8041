//! Lines of any length, those that repeat the line before folded.
ghost use Rattle.std.specs.Prelude.{◌≡◌, ℕ, ◌+◌, ◌-◌, ◌*◌, ◌/◌, ◌^◌, ◌<◌, ◌≤◌, List, [], length, take};
ghost use Rattle.bx_dump.specs.FoldBy.{folded_by};
ghost use Rattle.bx_dump.specs.private.FoldBy.{IsTakenInLines, PutsBy, PutsLinesBy, ShowsBy, TakesBy, TakesLinesBy, line_count_by};

mod fold;

use crate::driver::pages::{BLOCK, PAGE, Pages, SMALL_PAGE, START};
use bx_text::Show;
use fold::WideFold;

/// The form of lines that have up to 256 bytes.
pub trait WideForm {
    /// The line for some bytes at an address.
    ghost line: { Self → ℕ → List ℕ → List ℕ };

    /// The bytes of a line.
    ghost cols: { Self → ℕ };

    /// The most characters of a line.
    ghost room: { Self → ℕ };

    /// The bytes of a line.
    fn line_len(&self) -> usize
        ensures value { result ≡ cols self.now }
        ensures some { 0 < result }
        ensures most { result ≤ 256 };

    /// The most characters of a line.
    fn room_len(&self) -> usize
        ensures value { result ≡ room self.now }
        ensures some { 2 ≤ result }
        ensures most { result ≤ 65536 };

    /// Puts the line for some bytes at the front, and answers how long it is.
    fn put(&self, page: &mut [u8], at: u64, bytes: &[u8]) -> usize
        requires room { room self.now ≤ length page.old }
        requires some { 0 < length bytes.now }
        requires fits { length bytes.now ≤ cols self.now }
        ensures most { result ≤ room self.now }
        ensures text { take result page.new ≡ line self.now at bytes.now };
}

/// Says what stands for the next line, where `all` folds none.
#[inline]
fn show_next(all: bool, fold: &mut WideFold, bytes: &[u8]) -> Show
    requires some { 0 < length bytes.now }
    requires fits { length bytes.now ≤ 256 }
    ensures show { (n : ℕ) → ShowsBy n all fold.old bytes.now result }
    ensures taken { (n : ℕ) → TakesBy n all fold.old fold.new bytes.now }
{
    if all {
        return Show::Line;
    }
    fold.step(bytes)
}

/// Puts what stands for a line, where `all` folds none.
#[inline]
fn put_next<F: WideForm>(
    page: &mut [u8],
    form: &F,
    all: bool,
    fold: &mut WideFold,
    at: u64,
    bytes: &[u8],
) -> usize
    requires room { F.room form.now ≤ length page.old }
    requires star { 2 ≤ F.room form.now }
    requires some { 0 < length bytes.now }
    requires fits { length bytes.now ≤ F.cols form.now }
    requires few { length bytes.now ≤ 256 }
    ensures most { result ≤ F.room form.now }
    ensures text { PutsBy (F.cols form.now) (F.line form.now) all fold.old at bytes.now (take result page.new) }
    ensures taken { TakesBy (F.cols form.now) all fold.old fold.new bytes.now }
{
    match show_next(all, fold, bytes) {
        Show::Line => form.put(page, at, bytes),
        Show::Star => {
            page[..2].copy_from_slice(b"*\n");
            2
        }
        Show::Nothing => 0,
    }
}

/// Puts what stands for the lines of some bytes.
fn put_lines<F: WideForm>(
    page: &mut [u8],
    form: &F,
    all: bool,
    fold: &mut WideFold,
    at: u64,
    bytes: &[u8],
) -> usize
    requires room { F.room form.now * line_count_by (F.cols form.now) bytes.now ≤ length page.old }
    requires star { 2 ≤ F.room form.now }
    requires few { length bytes.now ≤ 16384 }
    requires address { at ≤ 2 ^ 63 + 2 ^ 40 }
    ensures within { result ≤ F.room form.now * line_count_by (F.cols form.now) bytes.now }
    ensures text { PutsLinesBy (F.cols form.now) (F.line form.now) all fold.old at bytes.now (take result page.new) }
    ensures taken { TakesLinesBy (F.cols form.now) all fold.old fold.new bytes.now }
{
    let cols = form.line_len();
    let mut used = 0;
    let count = (bytes.len() + (cols - 1)) / cols;
    for k in 0..count {
        let begin = cols * k;
        let end = (begin + cols).min(bytes.len());
        used += put_next(
            &mut page[used..],
            form,
            all,
            fold,
            at + begin as u64,
            &bytes[begin..end],
        );
    }
    used
}

/// Folded lines of a form, with what the next line is compared with, and the address of the first.
#[derive(Drop)]
pub struct WidePages<F: WideForm> {
    form: F,
    all: bool,
    start: u64,
    lines: usize,
    fold: WideFold,
    ghost low: { start ≤ 2 ^ 63 },
    ghost broad: { 0 < F.cols form },
    ghost star: { 2 ≤ F.room form },
    ghost some: { 0 < lines },
    ghost few: { F.cols form * lines ≤ 16384 },
    ghost short: { F.room form * lines ≤ 131072 },
}

impl<F: WideForm> WidePages<F> {
    /// Lines, as many at once as there is room for; none was put yet.
    pub fn new(form: F, all: bool, start: u64) -> Self
        requires { start ≤ 2 ^ 63 }
        ensures form { result.form ≡ form }
        ensures all { result.all ≡ all }
        ensures start { result.start ≡ start }
        ensures fresh { IsTakenInLines (F.cols result.form) result.all result.fold [] 0 }
    {
        let lines = (PAGE / form.room_len()).min(BLOCK / form.line_len());
        WidePages {
            form,
            all,
            start,
            lines,
            fold: WideFold::new(),
        }
    }
}

impl<F: WideForm> Pages for WidePages<F> {
    ghost written = { λ p. folded_by (F.cols p.form) (F.line p.form) p.all p.start };

    ghost text = { λ p. folded_by (F.cols p.form) (F.line p.form) p.all p.start };

    ghost kept = { λ _. 0 };

    ghost Seen = { λ p input. (k : ℕ) × (length input ≡ F.cols p.form * k) × IsTakenInLines (F.cols p.form) p.all p.fold input k };

    ghost block = { λ p. F.cols p.form * p.lines };

    ghost room = { λ p n. F.room p.form * ((n + (F.cols p.form - 1)) / F.cols p.form) };

    fn block_len(&self) -> usize {
        self.form.line_len() * self.lines
    }

    fn start_len(&self) -> usize {
        (self.form.line_len() * (SMALL_PAGE / self.form.room_len())).min(START)
    }

    fn put(&mut self, page: &mut [u8], done: u64, bytes: &[u8]) -> usize {
        put_lines(
            page,
            &self.form,
            self.all,
            &mut self.fold,
            self.start + done,
            bytes,
        )
    }

    fn grows(&self) {}
}
