//! Plain hexadecimal.
ghost use Rattle.std.specs.Prelude.{◌≡◌, ◌⊎◌, ◌+◌, ◌^◌, ◌<◌, ◌≤◌, [], ℕ, length, replicate, Some, IfOk, IfErr, OnOk};
ghost use Rattle.std.specs.Io.KnownBytes.{Appends, IsAtEnd};
ghost use Rattle.bx_text.specs.Stream.{fault_of};
ghost use Rattle.bx_text.specs.declared.stream.State.{State};
ghost use Rattle.bx_image.specs.Image.{place};
ghost use Rattle.bx_read_stream.specs.Plain.{LaysPlain, StopsPlain};
ghost use Rattle.bx_read_stream.specs.Writing.{FailsIn};

use crate::blocks::Blocks;
use crate::fault::StreamFault;
use bx_read::read_plain_from;
use bx_text::{IoFault, Source, emit_after};
use std::alloc::Allocator;
use std::io::{Read, Write};

/// Reads plain hexadecimal up to the source's end, and then writes its bytes, which are counted, at a place of at most 2^62: behind
/// zeros. Without a byte nothing is written, and where the text is faulty. The bytes are held, and of the text no more than a window.
/// `expected` is the length of the text as far as it is known before, else 0; the answer doesn't depend on it.
pub fn lay_plain<R: Read + Drop, W: Write, A: Allocator + Clone>(
    alloc: &A,
    source: &mut Source<R>,
    w: &mut W,
    at: u64,
    expected: u64,
) -> Result<u64, StreamFault>
    requires { at ≤ 2 ^ 62 }
    ensures ok { IfOk result (LaysPlain at (R.remaining source.old.reader) (R.remaining source.new.reader) (W.contents w.old) (W.contents w.new)) }
    ensures end { OnOk result (source.old.meter.state ≡ State.Open → IsAtEnd (R.remaining source.new.reader)) }
    ensures err { IfErr result (StopsPlain at (R.remaining source.old.reader) (R.remaining source.new.reader) (W.contents w.old) (W.contents w.new)) }
{
    let Ok(clone) = alloc.clone() else {
        return Err(StreamFault::Io(IoFault::NoMemory));
    };
    let read = match read_plain_from(clone, source, expected) {
        Ok(read) => read,
        Err(fault) => return Err(StreamFault::Io(fault)),
    };
    let bytes = match read {
        Ok(bytes) => bytes,
        Err(fault) => return Err(StreamFault::Read(fault)),
    };
    match write_at(alloc, w, at, bytes.as_slice()) {
        Ok(count) => Ok(count),
        Err(fault) => Err(StreamFault::Io(fault)),
    }
}

/// Writes bytes at a place of nothing, and answers how many bytes that were.
fn write_at<W: Write, A: Allocator + Clone>(
    alloc: &A,
    w: &mut W,
    at: u64,
    bytes: &[u8],
) -> Result<u64, IoFault>
    requires { at + length bytes.now < 2 ^ 64 }
    ensures ok { OnOk result (Appends (W.contents w.old) (W.contents w.new) (place [] at bytes.now)) }
    ensures count { IfOk result (λ n. length (place [] at bytes.now) ≡ n) }
    ensures err { IfErr result (FailsIn (W.contents w.old) (W.contents w.new) (place [] at bytes.now)) }
{
    if bytes.is_empty() {
        return Ok(0);
    }
    match write_zeros(alloc, w, at) {
        Ok(()) => {}
        Err(fault) => return Err(fault),
    }
    match emit_after(w, at, bytes) {
        Ok(()) => Ok(at + bytes.len() as u64),
        Err(fault) => Err(fault),
    }
}

/// Writes zeros.
fn write_zeros<W: Write, A: Allocator + Clone>(
    alloc: &A,
    w: &mut W,
    count: u64,
) -> Result<(), IoFault>
    ensures ok { OnOk result (Appends (W.contents w.old) (W.contents w.new) (replicate count 0)) }
    ensures err { IfErr result (FailsIn (W.contents w.old) (W.contents w.new) (replicate count 0)) }
{
    let Ok(clone) = alloc.clone() else {
        return Err(IoFault::NoMemory);
    };
    let Ok(mut blocks) = Blocks::new(clone) else {
        return Err(IoFault::NoMemory);
    };
    match blocks.push_zeros(w, count) {
        Ok(()) => {}
        Err(fault) => return Err(fault),
    }
    match blocks.flush(w) {
        Ok(()) => Ok(()),
        Err(fault) => Err(fault),
    }
}
