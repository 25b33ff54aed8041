//! `xxd -r` to a stream: what a dump makes of nothing.
ghost use Rattle.std.specs.Prelude.{◌≡◌, ◌≤◌, ◌^◌, true, false, IfOk, IfErr};
ghost use Rattle.bx_cli_commands.specs.jobs.Lay.{LaysForm, StopsForm, StopsLay};

use crate::Fault;
use bx_read_stream::{StreamFault, lay_dump, lay_plain};
use bx_text::{Name, Source};
use std::alloc::Allocator;
use std::io::{Read, Write};

/// `xxd -r` without a file that is written: the dump. `at` is added to the addresses, or with `plain` the place of the first byte.
#[derive(Drop)]
pub struct LayJob {
    /// The dump's name; none is standard input.
    pub dump: Option<Name>,
    /// Whether the dump is plain hexadecimal, without addresses.
    pub plain: bool,
    /// What is added to each address in bytes, or the first byte's place; at most 2^62.
    pub at: u64,
    ghost near: { at ≤ 2 ^ 62 },
}

/// The most bytes of a text.
const MOST: u64 = 1 << 40;

/// Reads a text up to its end, and writes the bytes that it makes of nothing, which are counted: of a dump as it is read, of plain
/// hexadecimal once it is read whole. `expected` is the length of the text as far as it is known before, else 0; the answer doesn't
/// depend on it.
///
/// # Errors
/// `Behind` where a line goes back to bytes that were written, and `Read` where the text is faulty: of a dump what stands before that
/// line was written. `Io` where a stream or memory fails.
pub fn run_lay<R: Read + Drop, W: Write, A: Allocator + Clone>(
    alloc: A,
    job: &LayJob,
    r: R,
    w: &mut W,
    expected: u64,
) -> Result<u64, Fault>
    ensures ok { IfOk result (LaysForm job.now.plain job.now.at (R.remaining r) (W.contents w.old) (W.contents w.new)) }
    ensures err { IfErr result (StopsLay job.now.plain job.now.at (R.remaining r) (W.contents w.old) (W.contents w.new)) }
{
    if job.plain {
        return match plain(&alloc, job.at, r, w, expected) {
            Ok(count) => Ok(count),
            Err(fault) => Err(Fault::from(fault)),
        };
    }
    match lines(alloc, job.at, r, w) {
        Ok(count) => Ok(count),
        Err(fault) => Err(Fault::from(fault)),
    }
}

/// Writes what plain hexadecimal makes of nothing.
fn plain<R: Read + Drop, W: Write, A: Allocator + Clone>(
    alloc: &A,
    at: u64,
    r: R,
    w: &mut W,
    expected: u64,
) -> Result<u64, StreamFault>
    requires { at ≤ 2 ^ 62 }
    ensures ok { IfOk result (LaysForm true at (R.remaining r) (W.contents w.old) (W.contents w.new)) }
    ensures err { IfErr result (StopsForm true at (R.remaining r) (W.contents w.old) (W.contents w.new)) }
{
    let mut source = Source::new(r, MOST);
    match lay_plain(alloc, &mut source, w, at, expected) {
        Ok(count) => Ok(count),
        Err(fault) => Err(fault),
    }
}

/// Writes what the lines of a dump make of nothing.
fn lines<R: Read + Drop, W: Write, A: Allocator + Clone>(
    alloc: A,
    at: u64,
    r: R,
    w: &mut W,
) -> Result<u64, StreamFault>
    requires { at ≤ 2 ^ 62 }
    ensures ok { IfOk result (LaysForm false at (R.remaining r) (W.contents w.old) (W.contents w.new)) }
    ensures err { IfErr result (StopsForm false at (R.remaining r) (W.contents w.old) (W.contents w.new)) }
{
    let mut reader = r;
    match lay_dump(alloc, &mut reader, w, at) {
        Ok(count) => Ok(count),
        Err(fault) => Err(fault),
    }
}
