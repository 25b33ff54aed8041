//! The changes of texts that are read from a source, a window at a time.
ghost use Rattle.std.specs.Prelude.{◌≡◌, ◌≢◌, ◌⊎◌, ◌-◌, ◌+◌, ◌^◌, ◌<◌, ◌≤◌, ◌↔◌, [], ℕ, List, length, All, Some, Ok, Err, IsTrue, MatchResult, IfOk, IfErr, IfSome, OnOk, IsErrOf};
ghost use Rattle.std.specs.Io.KnownBytes.{Consumes, IsAtEnd};
ghost use Rattle.bx_text.specs.Stream.{fault_of, IsRestCause, StopsIn};
ghost use Rattle.bx_text.specs.declared.stream.State.{State};
ghost use Rattle.bx_text.specs.declared.fault.IoFault.{IoFault};
ghost use Rattle.bx_image.specs.declared.change.Change.{Change};
ghost use Rattle.bx_cli_commands.specs.Reading.{IsChangeOf, IsSomeChangeOf, IsTextFault, IsUnread, WritesNothing};

use crate::changes::{change_of_bytes, change_of_runs};
use crate::fault::Fault;
use bx_image::Change;
use bx_read::{ReadFault, read_plain_from, read_runs_from};
use bx_text::{IoFault, Piece, Source};
use std::alloc::Allocator;
use std::io::Read;

/// How the text of a revert is written.
#[derive(Clone, Copy, Debug, PartialEq, Eq)]
pub enum Form {
    /// Lines with addresses.
    Dump,
    /// Plain hexadecimal.
    Plain,
}

/// The change that a text asks for, which is read up to the source's end: `at` is added to the addresses of a dump, and is the place of
/// plain hexadecimal. No more is held than the bytes, a window, and what can still matter of a line of a dump. A fault of the text is
/// answered once the source is at its end; one of the source, or want of memory, as soon as it comes, and nothing more is read.
/// `expected` is the length of the text as far as it is known before, else 0: the answer doesn't depend on it, but plain hexadecimal
/// of a known length takes its memory at once.
///
/// # Errors
/// `Io` where the source fails or memory is refused, and `NothingToWrite` where the text was read whole, and has no byte: nothing is no
/// change.
pub fn change_from<R: Read + Drop, A: Allocator + Clone>(
    alloc: &A,
    source: &mut Source<R>,
    form: Form,
    at: u64,
    expected: u64,
) -> Result<Result<Change<A>, ReadFault>, Fault>
    requires { at ≤ 2 ^ 62 }

    // What was read is the text, up to the end, and it has a byte.
    ensures change { IfOk result (λ read. (text : List ℕ) × Consumes (R.remaining source.old.reader) (R.remaining source.new.reader) text
        × MatchResult read (IsSomeChangeOf form text at) (IsTextFault form text)) }
    ensures end { OnOk result (source.old.meter.state ≡ State.Open → IsAtEnd (R.remaining source.new.reader)) }

    // A fault of the source is the same from then on; a text that is refused was read up to the end, and has no byte.
    ensures err { IfErr result (IsUnread A form at (R.remaining source.old.reader) (R.remaining source.new.reader) (fault_of source.new.meter.state)) }
    ensures stopped { IfErr result (λ e. (fault : IoFault) → e ≡ Fault.Io fault
        → StopsIn source.old.meter (R.remaining source.old.reader) (R.remaining source.new.reader) (IsRestCause fault)) }

    // Where memory is refused, nothing was done, or reading has failed: what is left isn't taken for the whole text.
    ensures memory { IsErrOf result (Fault.Io IoFault.NoMemory) → (source.new ≡ source.old) ⊎ (source.new.meter.state ≡ State.Failed) }

    // Where nothing more can be read, nothing is: no text is left.
    ensures none_left { source.old.meter.state ≡ State.Ended → IfOk result (λ read. MatchResult read (IsSomeChangeOf form [] at) (IsTextFault form [])) }
    ensures lasting { IfSome (fault_of source.old.meter.state) (λ e. IsErrOf result (Fault.Io e) ⊎ IsErrOf result (Fault.Io IoFault.NoMemory)) }
    ensures closed { source.old.meter.state ≢ State.Open → source.new.reader ≡ source.old.reader }
{
    match read_change(alloc, source, form, at, expected) {
        Ok(read) => some_change(read),
        Err(fault) => Err(Fault::Io(fault)),
    }
}

/// Whether none of the pieces has a byte.
fn have_no_bytes<A: Allocator>(pieces: &[Piece<A>]) -> bool
    ensures { IsTrue result ↔ All (λ piece. piece.bytes ≡ []) pieces.now }
{
    for piece in pieces {
        if !piece.bytes.as_slice().is_empty() {
            return false;
        }
    }
    true
}

/// Whether a change writes no byte, and keeps the length.
fn writes_nothing<A: Allocator>(change: &Change<A>) -> bool
    ensures { IsTrue result ↔ WritesNothing change.now }
{
    if change.base.is_some() {
        return false;
    }
    have_no_bytes(change.writes.as_slice())
}

/// What was read, unless it is a change that writes nothing.
fn some_change<A: Allocator>(
    read: Result<Change<A>, ReadFault>,
) -> Result<Result<Change<A>, ReadFault>, Fault>
    ensures { MatchResult result (λ same. (same ≡ read) × IfOk same (λ c. WritesNothing c → ⊥))
        (λ e. (e ≡ Fault.NothingToWrite) × ((c : Change A) × (read ≡ Ok c) × WritesNothing c)) }
{
    match read {
        Ok(change) => {
            if writes_nothing(&change) {
                return Err(Fault::NothingToWrite);
            }
            Ok(Ok(change))
        }
        Err(fault) => Ok(Err(fault)),
    }
}

/// What a text reads as, which is read up to the source's end.
fn read_change<R: Read + Drop, A: Allocator + Clone>(
    alloc: &A,
    source: &mut Source<R>,
    form: Form,
    at: u64,
    expected: u64,
) -> Result<Result<Change<A>, ReadFault>, IoFault>
    requires { at ≤ 2 ^ 62 }
    ensures change { IfOk result (λ read. (text : List ℕ) × Consumes (R.remaining source.old.reader) (R.remaining source.new.reader) text
        × MatchResult read (IsChangeOf form text at) (IsTextFault form text)) }
    ensures end { OnOk result (source.old.meter.state ≡ State.Open → IsAtEnd (R.remaining source.new.reader)) }
    ensures err { IfErr result (λ e. (e ≡ IoFault.NoMemory) ⊎ (fault_of source.new.meter.state ≡ Some e)) }
    ensures stopped { IfErr result (λ e. StopsIn source.old.meter (R.remaining source.old.reader) (R.remaining source.new.reader) (IsRestCause e)) }
    ensures memory { IsErrOf result IoFault.NoMemory → (source.new ≡ source.old) ⊎ (source.new.meter.state ≡ State.Failed) }
    ensures none_left { source.old.meter.state ≡ State.Ended → IfOk result (λ read. MatchResult read (IsChangeOf form [] at) (IsTextFault form [])) }
    ensures lasting { IfSome (fault_of source.old.meter.state) (λ e. IsErrOf result e ⊎ IsErrOf result IoFault.NoMemory) }
    ensures closed { source.old.meter.state ≢ State.Open → source.new.reader ≡ source.old.reader }
{
    match form {
        Form::Dump => dump_from(alloc, source, at),
        Form::Plain => plain_from(alloc, source, at, expected),
    }
}

/// The change of a dump.
fn dump_from<R: Read + Drop, A: Allocator + Clone>(
    alloc: &A,
    source: &mut Source<R>,
    offset: u64,
) -> Result<Result<Change<A>, ReadFault>, IoFault>
    requires { offset ≤ 2 ^ 62 }
    ensures change { IfOk result (λ read. (text : List ℕ) × Consumes (R.remaining source.old.reader) (R.remaining source.new.reader) text
        × MatchResult read (IsChangeOf Form.Dump text offset) (IsTextFault Form.Dump text)) }
    ensures end { OnOk result (source.old.meter.state ≡ State.Open → IsAtEnd (R.remaining source.new.reader)) }
    ensures err { IfErr result (λ e. (e ≡ IoFault.NoMemory) ⊎ (fault_of source.new.meter.state ≡ Some e)) }
    ensures stopped { IfErr result (λ e. StopsIn source.old.meter (R.remaining source.old.reader) (R.remaining source.new.reader) (IsRestCause e)) }
    ensures memory { IsErrOf result IoFault.NoMemory → (source.new ≡ source.old) ⊎ (source.new.meter.state ≡ State.Failed) }
    ensures none_left { source.old.meter.state ≡ State.Ended
        → IfOk result (λ read. MatchResult read (IsChangeOf Form.Dump [] offset) (IsTextFault Form.Dump [])) }
    ensures lasting { IfSome (fault_of source.old.meter.state) (λ e. IsErrOf result e ⊎ IsErrOf result IoFault.NoMemory) }
    ensures closed { source.old.meter.state ≢ State.Open → source.new.reader ≡ source.old.reader }
{
    match read_runs_from(alloc, source) {
        Ok(Ok(runs)) => Ok(Ok(change_of_runs(runs, offset))),
        Ok(Err(ReadFault::NoMemory)) => Err(IoFault::NoMemory),
        Ok(Err(fault)) => Ok(Err(fault)),
        Err(fault) => Err(fault),
    }
}

/// The change of plain hexadecimal.
fn plain_from<R: Read + Drop, A: Allocator + Clone>(
    alloc: &A,
    source: &mut Source<R>,
    at: u64,
    expected: u64,
) -> Result<Result<Change<A>, ReadFault>, IoFault>
    ensures change { IfOk result (λ read. (text : List ℕ) × Consumes (R.remaining source.old.reader) (R.remaining source.new.reader) text
        × MatchResult read (IsChangeOf Form.Plain text at) (IsTextFault Form.Plain text)) }
    ensures end { OnOk result (source.old.meter.state ≡ State.Open → IsAtEnd (R.remaining source.new.reader)) }
    ensures err { IfErr result (λ e. (e ≡ IoFault.NoMemory) ⊎ (fault_of source.new.meter.state ≡ Some e)) }
    ensures stopped { IfErr result (λ e. StopsIn source.old.meter (R.remaining source.old.reader) (R.remaining source.new.reader) (IsRestCause e)) }
    ensures memory { IsErrOf result IoFault.NoMemory → (source.new ≡ source.old) ⊎ (source.new.meter.state ≡ State.Failed) }
    ensures none_left { source.old.meter.state ≡ State.Ended
        → IfOk result (λ read. MatchResult read (IsChangeOf Form.Plain [] at) (IsTextFault Form.Plain [])) }
    ensures lasting { IfSome (fault_of source.old.meter.state) (λ e. IsErrOf result e ⊎ IsErrOf result IoFault.NoMemory) }
    ensures closed { source.old.meter.state ≢ State.Open → source.new.reader ≡ source.old.reader }
{
    let Ok(memory) = alloc.clone() else {
        return Err(IoFault::NoMemory);
    };
    match read_plain_from(memory, source, expected) {
        Ok(Ok(bytes)) => match change_of_bytes(alloc, bytes, at) {
            Ok(change) => Ok(Ok(change)),
            Err(_) => {
                source.give_up();
                Err(IoFault::NoMemory)
            }
        },
        Ok(Err(ReadFault::NoMemory)) => Err(IoFault::NoMemory),
        Ok(Err(fault)) => Ok(Err(fault)),
        Err(fault) => Err(fault),
    }
}
