//! Whole dumps.
ghost use Rattle.std.specs.Prelude.{◌≡◌, ◌≢◌, ◌+◌, ◌^◌, ◌<◌, ◌≤◌, ◌++◌, [], ℕ, List, length, All, Option, IfOk, IfErr, OnOk};
ghost use Rattle.std.specs.Io.KnownBytes.{Consumes, IsAtEnd};
ghost use Rattle.bx_read.specs.Text.{lines_of, answers};
ghost use Rattle.bx_read_stream.specs.Laid.{LaysAll, LaysFrontOf, StopsLaying};
ghost use Rattle.bx_read_stream.specs.private.Dump.{HasLaid, HasLaidAll, HasWritten};

use crate::blocks::Blocks;
use crate::fault::StreamFault;
use crate::laying::Laying;
use bx_text::{IoFault, Meter};
use std::alloc::{AllocError, Allocator};
use std::io::{Read, Write};

/// How many bytes of a text are read at a time.
const WINDOW: usize = 65536;

/// The most bytes of a text.
const MOST: u64 = 1 << 40;

/// Reads a dump line by line up to the reader's end, and writes the bytes that it makes of nothing, which are counted: those of each
/// line stand at its address, which `shift` is added to, at most 2^62, and gaps are zeros. A line is refused whose bytes have a place
/// that was written. On a fault of a line what stands before it was written. No more is held than blocks of 64 KiB, and a line.
pub fn lay_dump<R: Read, W: Write, A: Allocator + Clone>(
    alloc: A,
    r: &mut R,
    w: &mut W,
    shift: u64,
) -> Result<u64, StreamFault>
    requires { shift ≤ 2 ^ 62 }
    ensures ok { IfOk result (LaysAll shift (R.remaining r.old) (R.remaining r.new) (W.contents w.old) (W.contents w.new)) }
    ensures err { IfErr result (LaysFrontOf shift (R.remaining r.old) (R.remaining r.new) (W.contents w.old) (W.contents w.new)) }
{
    let Ok(mut lines) = Windows::new(&alloc, shift) else {
        return Err(StreamFault::Io(IoFault::NoMemory));
    };
    match lines.lay_windows(r, w) {
        Ok(()) => {}
        Err(fault) => return Err(fault),
    }
    match lines.finish(w) {
        Ok(count) => Ok(count),
        Err(fault) => Err(fault),
    }
}

/// Lines of a text that comes in windows.
#[derive(Drop)]
struct Windows<A: Allocator> {
    laying: Laying<A>,
    /// The front of a line that isn't whole yet.
    held: Vec<u8, A>,
    /// It, and a window.
    text: Vec<u8, A>,
}

impl<A: Allocator + Clone> Windows<A> {
    /// Nothing was read yet.
    fn new(alloc: &A, shift: u64) -> Result<Windows<A>, AllocError>
        requires { shift ≤ 2 ^ 62 }
        ensures shift { IfOk result (λ s. s.laying.shift ≡ shift) }
        ensures lines { IfOk result (λ s. s.laying.lines ≡ 0) }
        ensures sent { IfOk result (λ s. s.laying.blocks.sent ≡ 0) }
        ensures pending { IfOk result (λ s. s.laying.blocks.pending.items ≡ []) }
        ensures held { IfOk result (λ s. s.held.items ≡ []) }
    {
        let blocks = Blocks::new(alloc.clone()?)?;
        let laying = Laying {
            shift,
            lines: 0,
            blocks,
        };
        Ok(Windows {
            laying,
            held: Vec::new(alloc.clone()?),
            text: Vec::new(alloc.clone()?),
        })
    }
}

impl<A: Allocator> Windows<A> {
    /// Writes what the whole lines give of a text up to the reader's end.
    fn lay_windows<R: Read, W: Write>(&mut self, r: &mut R, w: &mut W) -> Result<(), StreamFault>
        requires new { HasLaid self.old.laying self.old.held.items (W.contents w.old) (W.contents w.old) [] }
        requires none { self.old.laying.lines + length self.old.held.items ≡ 0 }
        requires near { self.old.laying.blocks.sent + length self.old.laying.blocks.pending.items ≤ 2 ^ 63 + 256 }
        ensures ok { OnOk result ((text : List ℕ) × Consumes (R.remaining r.old) (R.remaining r.new) text × IsAtEnd (R.remaining r.new)
            × HasLaid self.new.laying self.new.held.items (W.contents w.old) (W.contents w.new) text) }
        ensures err { IfErr result (LaysFrontOf self.old.laying.shift (R.remaining r.old) (R.remaining r.new) (W.contents w.old) (W.contents w.new)) }
        ensures apart { OnOk result (All (λ c. c ≢ 10) self.new.held.items) }
        ensures countable { OnOk result (self.new.laying.lines + length self.new.held.items ≤ 2 ^ 40) }
        ensures near { OnOk result (self.new.laying.blocks.sent + length self.new.laying.blocks.pending.items ≤ 2 ^ 63 + 256) }
        ensures shift { OnOk result (self.new.laying.shift ≡ self.old.laying.shift) }
    {
        let mut meter = Meter::new(MOST);
        let mut window = [0u8; WINDOW];
        loop {
            let count = match meter.fill(r, &mut window) {
                Ok(count) => count,
                Err(fault) => return Err(self.laying.stop(w, StreamFault::Io(fault))),
            };
            match self.lay_window(w, &window[..count]) {
                Ok(()) => {}
                Err(fault) => return Err(fault),
            }
            if count < WINDOW {
                return Ok(());
            }
        }
    }

    /// Writes what the whole lines give of a window and of what is held, and holds the rest.
    fn lay_window<W: Write>(&mut self, w: &mut W, window: &[u8]) -> Result<(), StreamFault>
        requires countable { self.old.laying.lines + length self.old.held.items + length window.now < 2 ^ 64 }
        requires near { self.old.laying.blocks.sent + length self.old.laying.blocks.pending.items ≤ 2 ^ 63 + 256 }
        ensures ok { OnOk result ((w0 : Option (List ℕ)) (text : List ℕ) → HasLaid self.old.laying self.old.held.items w0 (W.contents w.old) text
            → HasLaid self.new.laying self.new.held.items w0 (W.contents w.new) (text ++ window.now)) }
        ensures err { IfErr result (λ e. (w0 : Option (List ℕ)) (text : List ℕ) → HasLaid self.old.laying self.old.held.items w0 (W.contents w.old) text
            → StopsLaying self.old.laying.shift w0 (W.contents w.new) (answers 1 (lines_of (text ++ window.now))) e) }
        ensures apart { OnOk result (All (λ c. c ≢ 10) self.new.held.items) }
        ensures countable { OnOk result (self.new.laying.lines + length self.new.held.items
            ≤ self.old.laying.lines + length self.old.held.items + length window.now) }
        ensures near { OnOk result (self.new.laying.blocks.sent + length self.new.laying.blocks.pending.items ≤ 2 ^ 63 + 256) }
        ensures shift { OnOk result (self.new.laying.shift ≡ self.old.laying.shift) }
    {
        match self.gather(window) {
            Ok(()) => {}
            Err(_) => return Err(self.laying.stop(w, StreamFault::Io(IoFault::NoMemory))),
        }
        let rest = match self.laying.lay_lines(w, self.text.as_slice()) {
            Ok(rest) => rest,
            Err(fault) => return Err(fault),
        };
        self.held.clear();
        match self.held.extend_from_slice(rest) {
            Ok(()) => Ok(()),
            Err(_) => Err(self.laying.stop(w, StreamFault::Io(IoFault::NoMemory))),
        }
    }

    /// Puts what is held and a window behind one another.
    fn gather(&mut self, window: &[u8]) -> Result<(), AllocError>
        ensures text { OnOk result (self.new.text.items ≡ self.old.held.items ++ window.now) }
        ensures laying { self.new.laying ≡ self.old.laying }
        ensures held { self.new.held ≡ self.old.held }
    {
        self.text.clear();
        self.text.extend_from_slice(self.held.as_slice())?;
        self.text.extend_from_slice(window)?;
        Ok(())
    }

    /// Writes what the last line gives, which has no newline, and all that is pending. Answers how many bytes were written.
    fn finish<W: Write>(&mut self, w: &mut W) -> Result<u64, StreamFault>
        requires countable { self.old.laying.lines + length self.old.held.items ≤ 2 ^ 40 }
        requires near { self.old.laying.blocks.sent + length self.old.laying.blocks.pending.items ≤ 2 ^ 63 + 256 }
        requires apart { All (λ c. c ≢ 10) self.old.held.items }
        ensures ok { IfOk result (λ n. (w0 : Option (List ℕ)) (text : List ℕ) → HasLaid self.old.laying self.old.held.items w0 (W.contents w.old) text
            → HasWritten self.old.laying.shift w0 (W.contents w.new) text n) }
        ensures err { IfErr result (λ e. (w0 : Option (List ℕ)) (text : List ℕ) → HasLaid self.old.laying self.old.held.items w0 (W.contents w.old) text
            → StopsLaying self.old.laying.shift w0 (W.contents w.new) (answers 1 (lines_of text)) e) }
    {
        match self.lay_last(w) {
            Ok(()) => {}
            Err(fault) => return Err(fault),
        }
        match self.laying.blocks.flush(w) {
            Ok(()) => Ok(self.laying.blocks.sent),
            Err(fault) => Err(StreamFault::Io(fault)),
        }
    }

    /// Puts what the last line gives, which has no newline.
    fn lay_last<W: Write>(&mut self, w: &mut W) -> Result<(), StreamFault>
        requires countable { self.old.laying.lines + length self.old.held.items ≤ 2 ^ 40 }
        requires near { self.old.laying.blocks.sent + length self.old.laying.blocks.pending.items ≤ 2 ^ 63 + 256 }
        requires apart { All (λ c. c ≢ 10) self.old.held.items }
        ensures ok { OnOk result ((w0 : Option (List ℕ)) (text : List ℕ) → HasLaid self.old.laying self.old.held.items w0 (W.contents w.old) text
            → HasLaidAll self.new.laying w0 (W.contents w.new) text) }
        ensures err { IfErr result (λ e. (w0 : Option (List ℕ)) (text : List ℕ) → HasLaid self.old.laying self.old.held.items w0 (W.contents w.old) text
            → StopsLaying self.old.laying.shift w0 (W.contents w.new) (answers 1 (lines_of text)) e) }
        ensures near { OnOk result (self.new.laying.blocks.sent + length self.new.laying.blocks.pending.items ≤ 2 ^ 63 + 256) }
        ensures shift { OnOk result (self.new.laying.shift ≡ self.old.laying.shift) }
    {
        let line = self.held.as_slice();
        if line.is_empty() {
            return Ok(());
        }
        match self.laying.lay_line(w, line) {
            Ok(()) => Ok(()),
            Err(fault) => Err(fault),
        }
    }
}
