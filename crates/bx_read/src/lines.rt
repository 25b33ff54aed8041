//! The lines of a dump, one after another.
ghost use Rattle.std.specs.Prelude.{◌≡◌, ◌+◌, ◌^◌, ◌<◌, ◌≤◌, ◌∷◌, [], ℕ, List, length, MatchResult, IfErr, IfOk, IfSome, IfNone, Some, None, Ok, Err};
ghost use Rattle.bx_read.specs.Text.{lines_of, is_skipped, answers};

use crate::fault::ReadFault;
use crate::full::rows::extend_run;
use crate::full::{ENDED, FullLine, full_line};
use crate::line::Line;
use memchr::memchr;
use std::alloc::Allocator;

/// The lines of a text that hold bytes: empty lines and lines `*` are left out, and after a fault there are none.
#[derive(Drop)]
pub struct DumpLines<'a> {
    text: &'a [u8],
    passed: u64,
    ghost fits: { passed + length text.now < 2 ^ 64 },
}

impl<'a> DumpLines<'a> {
    ghost use Rattle.bx_read.specs.Text.{lines_of, answers};
    ghost use Rattle.bx_read.specs.Lines.{coming, line_view};
    ghost use Rattle.bx_read.specs.private.NextLine.{runs_with};
    ghost use Rattle.bx_read.specs.Line.{read_line};
    ghost use Rattle.bx_read.specs.Digits.{pairs_of};

    /// The lines of `text`, whose last newline may be missing.
    pub fn new(text: &'a [u8]) -> DumpLines<'a>
        ensures { coming result ≡ answers 1 (lines_of text.now) }
    {
        let _len = text.len();
        DumpLines { text, passed: 0 }
    }

    /// The same of a text that follows `passed` lines.
    pub(crate) fn behind(text: &'a [u8], passed: u64) -> DumpLines<'a>
        requires { passed + length text.now < 2 ^ 64 }
        ensures { coming result ≡ answers (passed + 1) (lines_of text.now) }
    {
        DumpLines { text, passed }
    }

    /// Takes the next line, without its newline.
    fn take_line(&mut self) -> &'a [u8]
        requires { 0 < length self.old.text.now }
        ensures lines { lines_of self.old.text.now ≡ result.now ∷ lines_of self.new.text.now }
        ensures passed { self.new.passed ≡ self.old.passed + 1 }
        ensures shorter { length self.new.text.now < length self.old.text.now }
    {
        let text = self.text;
        self.passed += 1;
        match memchr(b'\n', text) {
            Some(end) => {
                self.text = &text[end + 1..];
                &text[..end]
            }
            None => {
                self.text = &text[text.len()..];
                text
            }
        }
    }

    /// Takes the next line if it is one of xxd's default form with 16 bytes, which most lines of most dumps are.
    #[inline]
    pub(crate) fn take_full(&mut self) -> Option<FullLine>
        ensures some { IfSome result (λ l. (hex : List ℕ) × (pairs_of hex ≡ Some l.bytes)
            × (coming self.old ≡ Ok (l.at, hex, self.old.passed + 1) ∷ coming self.new)) }
        ensures none { IfNone result (self.new ≡ self.old) }
    {
        if self.text.len() < ENDED {
            return None;
        }
        let line = full_line(self.text)?;
        self.text = &self.text[ENDED..];
        self.passed += 1;
        Some(line)
    }

    /// Takes the full lines that go on with a run, and adds their bytes.
    pub(crate) fn take_row<A: Allocator>(
        &mut self,
        at: u64,
        bytes: &mut Vec<u8, A>,
    ) -> Result<(), ReadFault>
        ensures run { IfOk result (λ _. runs_with (at, bytes.old.items) (coming self.old) ≡ runs_with (at, bytes.new.items) (coming self.new)) }
        ensures err { IfErr result (λ e. e ≡ ReadFault.NoMemory) }
        ensures fewer { IfOk result (λ _. length (coming self.new) ≤ length (coming self.old)) }
    {
        let taken = extend_run(at, bytes, self.text)?;
        self.text = taken.rest;
        self.passed += taken.count as u64;
        Ok(())
    }

    /// Reads the line that was taken last. A fault is the end.
    fn read(&mut self, line: &'a [u8]) -> Result<Line<'a>, ReadFault>
        ensures exact { MatchResult result (λ l. read_line self.old.passed line.now ≡ Ok (l.at, l.hex.now)) (λ e. read_line self.old.passed line.now ≡ Err e) }
        ensures number { MatchResult result (λ l. l.number ≡ self.old.passed) (λ _. self.new.text.now ≡ []) }
        ensures kept { MatchResult result (λ _. self.new ≡ self.old) (λ _. self.new.passed ≡ self.old.passed) }
    {
        match Line::parse(line, self.passed) {
            Ok(read) => Ok(read),
            Err(fault) => {
                self.text = &[];
                Err(fault)
            }
        }
    }
}

impl<'a> Iterator for DumpLines<'a> {
    type Item = Result<Line<'a>, ReadFault>;

    ghost use Rattle.bx_read.specs.Lines.{coming, line_view};
    ghost use Rattle.std.specs.Iterator.{YieldsFirstBy, item_count};

    ghost next_gives = { YieldsFirstBy line_view coming };

    ghost remaining = { item_count coming };

    fn next(&mut self) -> Option<Result<Line<'a>, ReadFault>> {
        while !self.text.is_empty() {
            let line = self.take_line();
            if !is_skipped(line) {
                return Some(self.read(line));
            }
        }
        None
    }
}

/// Whether the line stands for none: it is empty, or a star.
fn is_skipped(line: &[u8]) -> bool
    ensures { result ≡ is_skipped line.now }
{
    line.is_empty() || (line.len() == 1 && line[0] == b'*')
}
