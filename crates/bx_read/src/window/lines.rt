//! The lines of a text that comes in windows: runs of those that are whole, and what can still matter of the one behind them.
ghost use Rattle.std.specs.Prelude.{◌≡◌, ◌≢◌, ◌⊎◌, ◌+◌, ◌^◌, ◌<◌, ◌≤◌, ◌++◌, ◌∷◌, [], ℕ, List, length, All, Err, MatchResult, IfOk, IfErr, OnErr};
ghost use Rattle.bx_read.specs.Text.{lines_of, answers, gathered, contents};
ghost use Rattle.bx_read.specs.Window.{ArePiecesRuns, IsDumpFault, IsFaultBehind, HasLines};
ghost use Rattle.bx_read.specs.private.Window.{newlines, TakesText};

use crate::fault::ReadFault;
use crate::runs::gather_runs;
use crate::window::joining::push_runs;
use crate::window::unfinished::{MOST, shorten};
use bx_text::Piece;
use memchr::memrchr;
use std::alloc::Allocator;

/// What was read of lines while there was no fault.
#[derive(Drop)]
pub struct LinesRead<A: Allocator> {
    /// The runs of the whole lines.
    pub runs: Vec<Piece<A>, A>,
    /// How many lines these were.
    pub lines: u64,
    /// What stands for the line behind the last newline, as far as it is known.
    pub held: Vec<u8, A>,
}

impl<A: Allocator + Clone> LinesRead<A> {
    /// Nothing was read yet.
    pub fn new(alloc: &A) -> Result<LinesRead<A>, ReadFault>
        ensures read { IfOk result (λ r. HasLines [] (contents r.runs.items) r.lines r.held.items) }
        ensures count { IfOk result (λ r. r.lines + length r.held.items ≡ 0) }
        ensures fault { IfErr result (λ e. e ≡ ReadFault.NoMemory) }
    {
        Ok(LinesRead {
            runs: Vec::new(alloc.clone()?),
            lines: 0,
            held: Vec::new(alloc.clone()?),
        })
    }

    /// Reads a window up to its last newline, and holds what can still matter of the rest.
    pub fn take_window(&mut self, alloc: &A, window: &[u8]) -> Result<(), ReadFault>
        requires countable { self.old.lines + length self.old.held.items + length window.now < 2 ^ 64 }
        ensures read { IfOk result (λ _. (text : List ℕ) → HasLines text (contents self.old.runs.items) self.old.lines self.old.held.items
            → HasLines (text ++ window.now) (contents self.new.runs.items) self.new.lines self.new.held.items) }
        ensures fault { IfErr result (λ e. (text : List ℕ) → HasLines text (contents self.old.runs.items) self.old.lines self.old.held.items
            → IsFaultBehind (text ++ window.now) e) }
        ensures count { IfOk result (λ _. self.new.lines + length self.new.held.items ≤ self.old.lines + length self.old.held.items + length window.now) }
        ensures few { IfOk result (λ _. length self.new.held.items ≤ 1024) }
        ensures kept { OnErr result (self.new.lines ≤ self.old.lines + length self.old.held.items + length window.now) }
    {
        match memrchr(b'\n', window) {
            None => self.hold_more(alloc, window),
            Some(end) => {
                let (lines, rest) = window.split_at(end + 1);
                match self.take_lines(alloc, lines) {
                    Ok(()) => {}
                    Err(fault) => return Err(fault),
                }
                match self.hold_more(alloc, rest) {
                    Ok(()) => Ok(()),
                    Err(fault) => Err(fault),
                }
            }
        }
    }

    /// The runs of all lines. The last one ends here.
    pub fn take_last(mut self, alloc: &A) -> Result<Vec<Piece<A>, A>, ReadFault>
        requires countable { self.lines + length self.held.items < 2 ^ 64 }
        ensures exact { (text : List ℕ) → HasLines text (contents self.runs.items) self.lines self.held.items
            → MatchResult result (λ v. ArePiecesRuns text v.items) (IsDumpFault text) }
    {
        match self.take_held(alloc) {
            Ok(()) => {}
            Err(fault) => return Err(fault),
        }
        let LinesRead { runs, .. } = self;
        Ok(runs)
    }

    /// Reads lines that end in a newline.
    fn take_lines(&mut self, alloc: &A, lines: &[u8]) -> Result<(), ReadFault>
        requires countable { self.old.lines + length self.old.held.items + length lines.now < 2 ^ 64 }
        requires ends { (front : List ℕ) × (lines.now ≡ front ++ 10 ∷ []) }
        ensures read { IfOk result (λ _. (text : List ℕ) → HasLines text (contents self.old.runs.items) self.old.lines self.old.held.items
            → HasLines (text ++ lines.now) (contents self.new.runs.items) self.new.lines self.new.held.items) }
        ensures fault { IfErr result (λ e. (text : List ℕ) → HasLines text (contents self.old.runs.items) self.old.lines self.old.held.items
            → IsFaultBehind (text ++ lines.now) e) }
        ensures held { IfOk result (λ _. self.new.held.items ≡ []) }
        ensures count { IfOk result (λ _. self.new.lines ≤ self.old.lines + length self.old.held.items + length lines.now) }
        ensures kept { OnErr result (self.new.lines ≡ self.old.lines) }
    {
        match self.hold(lines) {
            Ok(()) => {}
            Err(fault) => return Err(fault),
        }
        match self.take_held(alloc) {
            Ok(()) => Ok(()),
            Err(fault) => Err(fault),
        }
    }

    /// Holds what can still matter of the line whose next bytes these are.
    fn hold_more(&mut self, alloc: &A, bytes: &[u8]) -> Result<(), ReadFault>
        requires countable { self.old.lines + length self.old.held.items + length bytes.now < 2 ^ 64 }
        requires apart { All (λ c. c ≢ 10) bytes.now }
        ensures read { IfOk result (λ _. (text : List ℕ) → HasLines text (contents self.old.runs.items) self.old.lines self.old.held.items
            → HasLines (text ++ bytes.now) (contents self.new.runs.items) self.new.lines self.new.held.items) }
        ensures fault { IfErr result (λ e. (text : List ℕ) → HasLines text (contents self.old.runs.items) self.old.lines self.old.held.items
            → IsFaultBehind (text ++ bytes.now) e) }
        ensures count { IfOk result (λ _. length self.new.held.items ≤ length self.old.held.items + length bytes.now) }
        ensures few { IfOk result (λ _. length self.new.held.items ≤ 1024) }
        ensures lines { self.new.lines ≡ self.old.lines }
    {
        match self.hold(bytes) {
            Ok(()) => {}
            Err(fault) => return Err(fault),
        }
        if self.held.len() <= MOST {
            return Ok(());
        }
        let number = self.lines + 1;
        match shorten(alloc, &mut self.held, number) {
            Ok(()) => Ok(()),
            Err(fault) => Err(fault),
        }
    }

    /// Holds bytes behind those that are held.
    fn hold(&mut self, bytes: &[u8]) -> Result<(), ReadFault>
        ensures held { IfOk result (λ _. self.new.held.items ≡ self.old.held.items ++ bytes.now) }
        ensures lines { self.new.lines ≡ self.old.lines }
        ensures runs { self.new.runs ≡ self.old.runs }
        ensures fault { IfErr result (λ e. e ≡ ReadFault.NoMemory) }
    {
        self.held.extend_from_slice(bytes)?;
        Ok(())
    }

    /// Reads what is held, as lines behind those that were read.
    fn take_held(&mut self, alloc: &A) -> Result<(), ReadFault>
        requires countable { self.old.lines + length self.old.held.items < 2 ^ 64 }
        ensures runs { IfOk result (λ _. TakesText self.old.lines self.old.held.items (contents self.old.runs.items) (contents self.new.runs.items)) }
        ensures lines { IfOk result (λ _. self.new.lines ≡ self.old.lines + newlines self.old.held.items) }
        ensures held { IfOk result (λ _. self.new.held.items ≡ []) }
        ensures within { IfOk result (λ _. self.new.lines ≤ self.old.lines + length self.old.held.items) }
        ensures fault { IfErr result (λ e. (e ≡ ReadFault.NoMemory) ⊎ (gathered (answers (self.old.lines + 1) (lines_of self.old.held.items)) ≡ Err e)) }
        ensures kept { OnErr result (self.new.lines ≡ self.old.lines) }
    {
        let text = self.held.as_slice();
        let more = match gather_runs(alloc.clone()?, text, self.lines) {
            Ok(more) => more,
            Err(fault) => return Err(fault),
        };
        let count = newlines(text);
        push_runs(&mut self.runs, more)?;
        self.lines += count;
        self.held.clear();
        Ok(())
    }
}

/// How many newlines the text has.
fn newlines(text: &[u8]) -> u64
    ensures count { result ≡ newlines text.now }
    ensures within { result ≤ length text.now }
{
    let mut count = 0u64;
    for byte in text {
        if *byte == b'\n' {
            count += 1;
        }
    }
    count
}
