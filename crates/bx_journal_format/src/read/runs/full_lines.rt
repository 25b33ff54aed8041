//! Full saved lines that go on with a run, as most lines of most entries do.
ghost use Rattle.std.specs.Prelude.{◌+◌, List, IfOk, IfSome, IsTrue};
ghost use Rattle.bx_journal_format.specs.Kept.{Run};
ghost use Rattle.bx_journal_format.specs.read.Followed.{AreFullSaved, BeginsFull, IsFullSaved, GoesOnBy, with_last};

use crate::format::lanes::full_address;
use crate::format::line::{SavedLine, full_in, within};
use crate::format::newline::{FULL, end_at};
use bx_text::NoMemory;
use std::alloc::Allocator;

/// How long a full line is with its newline.
pub const ENDED: usize = FULL + 1;

/// The bytes of the full line that the text begins with, where it goes on with a run of this address and size.
#[inline(always)]
pub fn next_full(len: u64, at: u64, size: usize, text: &[u8]) -> Option<[u8; 16]>
    ensures { IfSome result (λ bytes. IsFullSaved len (at + size) text.now bytes) }
{
    let _ = end_at(FULL, text)?;
    let full = full_in(&text[..FULL])?;
    if full.at < at {
        return None;
    }
    if full.at - at != size as u64 {
        return None;
    }
    let bytes = full.bytes;
    let read = SavedLine {
        at: full.at,
        bytes,
        count: 16,
    };
    let _ = within(len, read)?;
    Some(bytes)
}

/// Whether the text begins with a full saved line in an entry of an image of this length.
#[inline(always)]
fn is_full(len: u64, text: &[u8]) -> bool
    ensures { IsTrue result → BeginsFull len text.now }
{
    let Some(at) = full_address(text) else {
        return false;
    };
    if len < 16 || at > len - 16 {
        return false;
    }
    true
}

/// How many full saved lines the text begins with, in an entry of an image of this length. They are only looked at: nothing is
/// decoded.
pub fn count_full(len: u64, text: &[u8]) -> usize
    ensures { AreFullSaved len text.now result }
{
    let mut count = 0;
    let mut rest = text;
    while is_full(len, rest) {
        let (_, behind) = rest.split_at(ENDED);
        rest = behind;
        count += 1;
    }
    count
}

/// Adds the bytes of the full lines that go on with a run, and answers how many lines they are.
pub fn extend_run<A: Allocator>(
    len: u64,
    at: u64,
    bytes: &mut Vec<u8, A>,
    text: &[u8],
) -> Result<usize, NoMemory>
    ensures { IfOk result (λ count. (front : List Run)
        → GoesOnBy len text.now (with_last front at bytes.old.items) (with_last front at bytes.new.items) count) }
{
    let mut count = 0;
    let mut rest = text;
    while let Some(more) = next_full(len, at, bytes.len(), rest) {
        if bytes.extend_from_slice(&more).is_err() {
            return Err(NoMemory);
        }
        let (_, behind) = rest.split_at(ENDED);
        rest = behind;
        count += 1;
    }
    Ok(count)
}
