//! Lines that are written one after another.
ghost use Rattle.std.specs.Prelude.{◌≡◌, ◌≢◌, ◌+◌, ◌^◌, ◌<◌, ◌≤◌, ◌++◌, ◌∷◌, [], ℕ, List, length, All, Option, Result, IfOk, IfErr, OnOk};
ghost use Rattle.bx_read.specs.Text.{ReadLine, lines_of, answers};
ghost use Rattle.bx_read_stream.specs.Laid.{image_made, reads_then, StopsLaying};
ghost use Rattle.bx_read_stream.specs.private.Blocks.{IsPending};
ghost use Rattle.bx_read_stream.specs.private.Laying.{IsEnded};

use crate::blocks::Blocks;
use crate::fault::StreamFault;
use crate::line::{is_skipped, read};
use memchr::memchr;
use std::alloc::Allocator;
use std::io::Write;

/// What was read and written so far.
#[derive(Drop)]
pub struct Laying<A: Allocator> {
    /// What is added to each address.
    pub shift: u64,
    /// How many lines were read.
    pub lines: u64,
    /// The bytes that they make.
    pub blocks: Blocks<A>,
    ghost near: { shift ≤ 2 ^ 62 },
}

impl<A: Allocator> Laying<A> {
    /// Writes the whole lines of a text, and answers what stands behind them.
    pub fn lay_lines<'a, W: Write>(
        &mut self,
        w: &mut W,
        text: &'a [u8],
    ) -> Result<&'a [u8], StreamFault>
        requires countable { self.old.lines + length text.now < 2 ^ 64 }
        requires near { self.old.blocks.sent + length self.old.blocks.pending.items ≤ 2 ^ 63 + 256 }
        ensures ok { IfOk result (λ rest. (w0 : Option (List ℕ)) (before : List ReadLine)
            → IsPending w0 (W.contents w.old) self.old.blocks.sent self.old.blocks.pending.items (image_made self.old.shift before)
            → (next : List ReadLine)
            × IsPending w0 (W.contents w.new) self.new.blocks.sent self.new.blocks.pending.items (image_made self.old.shift (before ++ next))
            × ((more : List ℕ) → answers (self.old.lines + 1) (lines_of (text.now ++ more))
            ≡ reads_then next (answers (self.new.lines + 1) (lines_of (rest.now ++ more))))) }
        ensures err { IfErr result (λ e. (w0 : Option (List ℕ)) (before : List ReadLine)
            → IsPending w0 (W.contents w.old) self.old.blocks.sent self.old.blocks.pending.items (image_made self.old.shift before)
            → StopsLaying self.old.shift w0 (W.contents w.new) (reads_then before (answers (self.old.lines + 1) (lines_of text.now))) e) }
        ensures rest { IfOk result (λ rest. All (λ c. c ≢ 10) rest.now) }
        ensures countable { IfOk result (λ rest. self.new.lines + length rest.now ≤ self.old.lines + length text.now) }
        ensures near { OnOk result (self.new.blocks.sent + length self.new.blocks.pending.items ≤ 2 ^ 63 + 256) }
        ensures shift { OnOk result (self.new.shift ≡ self.old.shift) }
    {
        let mut rest = text;
        loop {
            let Some(end) = memchr(b'\n', rest) else {
                return Ok(rest);
            };
            match self.lay_line(w, &rest[..end]) {
                Ok(()) => rest = &rest[end + 1..],
                Err(fault) => return Err(fault),
            }
        }
    }

    /// Writes what the next line gives.
    pub fn lay_line<W: Write>(&mut self, w: &mut W, line: &[u8]) -> Result<(), StreamFault>
        requires countable { self.old.lines + 1 < 2 ^ 64 }
        requires near { self.old.blocks.sent + length self.old.blocks.pending.items ≤ 2 ^ 63 + 256 }
        ensures ok { OnOk result ((w0 : Option (List ℕ)) (before : List ReadLine)
            → IsPending w0 (W.contents w.old) self.old.blocks.sent self.old.blocks.pending.items (image_made self.old.shift before)
            → (next : List ReadLine)
            × IsPending w0 (W.contents w.new) self.new.blocks.sent self.new.blocks.pending.items (image_made self.old.shift (before ++ next))
            × ((lines : List (List ℕ)) → answers (self.old.lines + 1) (line.now ∷ lines) ≡ reads_then next (answers (self.new.lines + 1) lines))) }
        ensures err { IfErr result (λ e. (w0 : Option (List ℕ)) (before : List ReadLine) (lines : List (List ℕ))
            → IsPending w0 (W.contents w.old) self.old.blocks.sent self.old.blocks.pending.items (image_made self.old.shift before)
            → StopsLaying self.old.shift w0 (W.contents w.new) (reads_then before (answers (self.old.lines + 1) (line.now ∷ lines))) e) }
        ensures counted { OnOk result (self.new.lines ≡ self.old.lines + 1) }
        ensures near { OnOk result (self.new.blocks.sent + length self.new.blocks.pending.items ≤ 2 ^ 63 + 256) }
        ensures shift { OnOk result (self.new.shift ≡ self.old.shift) }
    {
        self.lines += 1;
        if is_skipped(line) {
            return Ok(());
        }
        let mut out = [0u8; 256];
        let found = match read(line, self.lines, &mut out) {
            Ok(found) => found,
            Err(fault) => return Err(self.stop(w, StreamFault::Read(fault))),
        };
        let at = found.at + self.shift;
        let end = self.blocks.len();
        if at < end {
            let line = self.lines;
            return Err(self.stop(w, StreamFault::Behind { line }));
        }
        match self.blocks.push_behind(w, at - end, &out[..found.count]) {
            Ok(()) => Ok(()),
            Err(fault) => Err(StreamFault::Io(fault)),
        }
    }

    /// Writes what is pending, and answers the fault that stops it, or the one that this has.
    pub fn stop<W: Write>(&mut self, w: &mut W, fault: StreamFault) -> StreamFault
        requires near { self.old.blocks.sent + length self.old.blocks.pending.items ≤ 2 ^ 63 + 256 }
        ensures { (w0 : Option (List ℕ)) (x : List ℕ) → IsPending w0 (W.contents w.old) self.old.blocks.sent self.old.blocks.pending.items x
            → IsEnded w0 (W.contents w.new) x fault result }
    {
        match self.blocks.flush(w) {
            Ok(()) => fault,
            Err(fault) => StreamFault::Io(fault),
        }
    }
}
