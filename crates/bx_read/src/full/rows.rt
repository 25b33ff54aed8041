//! Full lines that go on with a run, as most lines of most dumps do.
ghost use Rattle.std.specs.Prelude.{◌≡◌, ◌≤◌, ◌+◌, ◌==◌, length, MatchResult, IfSome};
ghost use Rattle.bx_read.specs.private.Full.{IsFull};
ghost use Rattle.bx_read.specs.private.Rows.{GoesOnWith};

use crate::fault::ReadFault;
use crate::full::{ENDED, full_line};
use std::alloc::Allocator;

/// What stands behind lines that were taken, and how many they were.
#[derive(Clone, Copy)]
pub struct Taken<'a> {
    pub rest: &'a [u8],
    pub count: usize,
}

/// Whether what begins at `next` goes on with `count` bytes at `at`.
#[inline]
pub fn goes_on(at: u64, count: usize, next: u64) -> bool
    ensures { result ≡ (next == at + count) }
{
    next >= at && next - at == count as u64
}

/// The bytes of the full line that the text begins with, where it goes on with `count` bytes at an address.
#[inline(always)]
fn next_full(at: u64, count: usize, text: &[u8]) -> Option<[u8; 16]>
    ensures full { IfSome result (λ bytes. IsFull text.now (at + count) bytes) }
    ensures long { IfSome result (λ _. 68 ≤ length text.now) }
{
    if text.len() < ENDED {
        return None;
    }
    let line = full_line(text)?;
    if !goes_on(at, count, line.at) {
        return None;
    }
    Some(line.bytes)
}

/// Adds the bytes of the full lines that go on with a run.
pub fn extend_run<'a, A: Allocator>(
    at: u64,
    bytes: &mut Vec<u8, A>,
    text: &'a [u8],
) -> Result<Taken<'a>, ReadFault>
    ensures { MatchResult result (λ t. GoesOnWith text.now t.rest.now t.count at bytes.old.items bytes.new.items) (λ e. e ≡ ReadFault.NoMemory) }
{
    let mut count = 0;
    let mut rest = text;
    while let Some(more) = next_full(at, bytes.len(), rest) {
        bytes.extend_from_slice(&more)?;
        let (_, behind) = rest.split_at(ENDED);
        rest = behind;
        count += 1;
    }
    Ok(Taken { rest, count })
}
