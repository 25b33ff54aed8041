//! Whole texts that are read from a source, a window at a time.
ghost use Rattle.std.specs.Prelude.{◌≡◌, ◌≢◌, ◌⊎◌, ◌+◌, ◌-◌, ◌^◌, ◌<◌, ◌≤◌, ◌++◌, [], ℕ, List, length, Some, Ok, MatchResult, IfOk, IfErr, IfSome, OnOk, IsErrOf, All};
ghost use Rattle.std.specs.Io.KnownBytes.{Consumes, IsAtEnd};
ghost use Rattle.bx_text.specs.Stream.{fault_of, IsRestCause, StopsIn};
ghost use Rattle.bx_text.specs.declared.stream.State.{State};
ghost use Rattle.bx_text.specs.declared.fault.IoFault.{IoFault};
ghost use Rattle.bx_read.specs.Plain.{plain_answer};
ghost use Rattle.bx_read.specs.PlainWindow.{HasReadPlain, IsPlainFault};
ghost use Rattle.bx_read.specs.Window.{ArePiecesRuns, HasReadDump, IsDumpFault, IsRefused};
ghost use Rattle.bx_read.specs.declared.fault.ReadFault.{ReadFault};

use crate::fault::ReadFault;
use crate::plain_window::PlainRead;
use crate::window::DumpRead;
use bx_text::{IoFault, Piece, Source};
use std::alloc::Allocator;
use std::io::Read;

/// How many bytes of a text are read at a time.
const WINDOW: usize = 65536;

/// What reads a text that comes in windows.
trait ReadsText {
    /// The text was read, as far as this can be done without what follows it.
    ghost HasRead: { Self → List ℕ → Type 0 };

    /// How much was counted: no more than the bytes of the text.
    ghost counted: { Self → ℕ };

    /// Reads the next window. Answers whether there was memory for it.
    fn read_next(&mut self, window: &[u8]) -> bool
        requires countable { counted self.old + length window.now < 2 ^ 64 }
        ensures read { (text : List ℕ) → HasRead self.old text → HasRead self.new (text ++ window.now) }
        ensures count { counted self.new ≤ counted self.old + length window.now };
}

impl<A: Allocator> ReadsText for PlainRead<A> {
    ghost HasRead = { λ read text. HasReadPlain text read };

    ghost counted = { λ read. read.passed };

    fn read_next(&mut self, window: &[u8]) -> bool {
        self.read_window(window);
        has_memory(self.fault())
    }
}

/// A reader of a dump with its allocator.
#[derive(Drop)]
struct DumpWindows<'a, A: Allocator> {
    alloc: &'a A,
    read: DumpRead<A>,
}

impl<'a, A: Allocator + Clone> ReadsText for DumpWindows<'a, A> {
    ghost HasRead = { λ windows text. HasReadDump text windows.read };

    ghost counted = { λ windows. windows.read.lines + length windows.read.held };

    fn read_next(&mut self, window: &[u8]) -> bool {
        self.read.read_window(self.alloc, window);
        has_memory(self.read.fault())
    }
}

/// Whether a reading wasn't stopped by want of memory.
fn has_memory(fault: Option<ReadFault>) -> bool {
    !matches!(fault, Some(ReadFault::NoMemory))
}

/// Stops a source whose text memory was refused for.
fn stop<R: Read + Drop>(source: &mut Source<R>)
    ensures reader { source.new.reader ≡ source.old.reader }
    ensures state { source.new.meter.state ≡ State.Failed }
{
    source.give_up();
}

/// Gives up the source where memory was refused for its text: nobody takes what is left, which is nothing, for the text.
fn give_up_refused<R: Read + Drop, V>(source: &mut Source<R>, read: &Result<V, ReadFault>)
    ensures reader { source.new.reader ≡ source.old.reader }
    ensures memory { IsErrOf read.now ReadFault.NoMemory → source.new.meter.state ≡ State.Failed }
    ensures kept { (IsErrOf read.now ReadFault.NoMemory → ⊥) → source.new ≡ source.old }
{
    if let Err(ReadFault::NoMemory) = read {
        stop(source);
    }
}

/// Reads a text up to the source's end, a window at a time. Where memory is refused, nothing more is read, and reading has failed from
/// then on.
fn read_all<R: Read + Drop, T: ReadsText>(
    source: &mut Source<R>,
    reader: &mut T,
) -> Result<(), IoFault>
    requires new { T.HasRead reader.old [] }
    requires none { T.counted reader.old ≡ 0 }
    ensures text { IfOk result (λ _. (text : List ℕ) × Consumes (R.remaining source.old.reader) (R.remaining source.new.reader) text
        × (length text ≤ source.old.meter.limit - source.old.meter.taken) × T.HasRead reader.new text) }
    ensures countable { OnOk result (T.counted reader.new < 2 ^ 64) }
    ensures end { OnOk result (source.old.meter.state ≡ State.Open → IsAtEnd (R.remaining source.new.reader)) }
    ensures err { IfErr result (λ e. (e ≡ IoFault.NoMemory) ⊎ (fault_of source.new.meter.state ≡ Some e)) }
    ensures stopped { IfErr result (λ e. StopsIn source.old.meter (R.remaining source.old.reader) (R.remaining source.new.reader) (IsRestCause e)) }
    ensures memory { IsErrOf result IoFault.NoMemory → source.new.meter.state ≡ State.Failed }

    // Where nothing more can be read, nothing is.
    ensures none_left { source.old.meter.state ≡ State.Ended → OnOk result (T.HasRead reader.new []) }
    ensures lasting { IfSome (fault_of source.old.meter.state) (λ e. IsErrOf result e) }
    ensures closed { source.old.meter.state ≢ State.Open → source.new.reader ≡ source.old.reader }
{
    let mut window = [0u8; WINDOW];
    loop {
        let count = match source.fill(&mut window) {
            Ok(count) => count,
            Err(fault) => return Err(fault),
        };
        let _taken = source.taken();
        if !reader.read_next(&window[..count]) {
            stop(source);
            return Err(IoFault::NoMemory);
        }
        if count < WINDOW {
            return Ok(());
        }
    }
}

/// Reads the text of a dump up to the source's end: what `read_runs` answers of it. Of the text no more is held than a window and
/// what can still matter of a line, which is at most 1024 bytes. A fault of the text is answered once the source is at its end; one
/// of the source, or want of memory, as soon as it comes. Where memory is refused once a byte was read, later calls answer that reading
/// failed: what is left isn't taken for the whole text.
pub fn read_runs_from<R: Read + Drop, A: Allocator + Clone>(
    alloc: &A,
    source: &mut Source<R>,
) -> Result<Result<Vec<Piece<A>, A>, ReadFault>, IoFault>
    // What was read is the text, up to the end.
    ensures runs { IfOk result (λ read. (text : List ℕ) × Consumes (R.remaining source.old.reader) (R.remaining source.new.reader) text
        × (length text ≤ source.old.meter.limit - source.old.meter.taken) × MatchResult read (λ v. ArePiecesRuns text v.items) (IsDumpFault text)) }
    ensures near { IfOk result (λ read. IfOk read (λ v. All (λ run. run.at < 2 ^ 62) v.items)) }
    ensures end { OnOk result (source.old.meter.state ≡ State.Open → IsAtEnd (R.remaining source.new.reader)) }

    // A fault of the source is the same from then on.
    ensures err { IfErr result (λ e. (e ≡ IoFault.NoMemory) ⊎ (fault_of source.new.meter.state ≡ Some e)) }
    ensures stopped { IfErr result (λ e. StopsIn source.old.meter (R.remaining source.old.reader) (R.remaining source.new.reader) (IsRestCause e)) }

    // Where memory is refused, nothing was done, or reading has failed.
    ensures memory { IsRefused result → (source.new ≡ source.old) ⊎ (source.new.meter.state ≡ State.Failed) }

    // Where nothing more can be read, nothing is: no text is left.
    ensures none_left { source.old.meter.state ≡ State.Ended → IfOk result (λ read. MatchResult read (λ v. ArePiecesRuns [] v.items) (IsDumpFault [])) }
    ensures lasting { IfSome (fault_of source.old.meter.state) (λ e. IsErrOf result e ⊎ IsErrOf result IoFault.NoMemory) }
    ensures closed { source.old.meter.state ≢ State.Open → source.new.reader ≡ source.old.reader }
{
    let Ok(read) = DumpRead::new(alloc) else {
        return Err(IoFault::NoMemory);
    };
    let mut windows = DumpWindows { alloc, read };
    match read_all(source, &mut windows) {
        Ok(()) => {}
        Err(fault) => return Err(fault),
    }
    let DumpWindows { read, .. } = windows;
    let runs = read.finish(alloc);
    give_up_refused(source, &runs);
    Ok(runs)
}

/// Reads plain hexadecimal up to the source's end: what `read_plain` answers of it. Of the text no more is held than a window.
/// `expected` is the length of the text as far as it is known before, else 0: where memory allows it, room for that many digits is
/// taken at once. The answer doesn't depend on it.
pub fn read_plain_from<R: Read + Drop, A: Allocator>(
    alloc: A,
    source: &mut Source<R>,
    expected: u64,
) -> Result<Result<Vec<u8, A>, ReadFault>, IoFault>
    ensures bytes { IfOk result (λ read. (text : List ℕ) × Consumes (R.remaining source.old.reader) (R.remaining source.new.reader) text
        × (length text ≤ source.old.meter.limit - source.old.meter.taken)
        × MatchResult read (λ v. plain_answer text ≡ Ok v.items) (IsPlainFault text)) }
    ensures end { OnOk result (source.old.meter.state ≡ State.Open → IsAtEnd (R.remaining source.new.reader)) }
    ensures err { IfErr result (λ e. (e ≡ IoFault.NoMemory) ⊎ (fault_of source.new.meter.state ≡ Some e)) }
    ensures stopped { IfErr result (λ e. StopsIn source.old.meter (R.remaining source.old.reader) (R.remaining source.new.reader) (IsRestCause e)) }

    // Where memory is refused, nothing was done, or reading has failed.
    ensures memory { IsRefused result → (source.new ≡ source.old) ⊎ (source.new.meter.state ≡ State.Failed) }

    // Where nothing more can be read, nothing is: no text is left.
    ensures none_left { source.old.meter.state ≡ State.Ended → IfOk result (λ read. MatchResult read (λ v. plain_answer [] ≡ Ok v.items) (IsPlainFault [])) }
    ensures lasting { IfSome (fault_of source.old.meter.state) (λ e. IsErrOf result e ⊎ IsErrOf result IoFault.NoMemory) }
    ensures closed { source.old.meter.state ≢ State.Open → source.new.reader ≡ source.old.reader }
{
    let mut read = PlainRead::with_room(alloc, (expected / 2) as usize);
    match read_all(source, &mut read) {
        Ok(()) => {}
        Err(fault) => return Err(fault),
    }
    let bytes = read.finish();
    give_up_refused(source, &bytes);
    Ok(bytes)
}
