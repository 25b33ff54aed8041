//! A run in the memory of the text that it is read from: its bytes take the place of lines that were read.
ghost use Rattle.std.specs.Prelude.{◌≡◌, ◌+◌, ◌*◌, ◌≤◌, ◌++◌, length, take, drop, IfOk};
ghost use Rattle.bx_journal_format.specs.read.Followed.{RunGoesOnBy};

use crate::read::runs::full_lines::{ENDED, extend_run, next_full};
use crate::read::runs::text::{Unread, behind, rest_of};
use bx_text::NoMemory;
use std::alloc::{Allocator, Global};

/// How many bytes a run has at most when it is moved to the text's memory: one line's, so that each is moved once.
const FIRST: usize = 16;

/// A run's bytes, how many lines were put behind them, and the text behind those lines.
#[derive(Drop)]
pub struct Extended<A: Allocator = Global> {
    pub bytes: Vec<u8, A>,
    pub count: usize,
    pub text: Unread<A>,
}

/// A run's bytes, and the text behind the lines that they were read from.
#[derive(Drop)]
struct Parted<A: Allocator = Global> {
    bytes: Vec<u8, A>,
    text: Unread<A>,
}

/// Puts bytes over those at a place.
#[inline(always)]
pub fn put_over(text: &mut [u8], at: usize, bytes: &[u8])
    requires { at + length bytes.now ≤ length text.old }
    ensures { text.new ≡ take at text.old ++ bytes.now ++ drop (at + length bytes.now) text.old }
{
    text[at..at + bytes.len()].copy_from_slice(bytes);
}

/// Puts the bytes of the full lines at a place that go on with a run behind it, where the run is the text's first bytes.
/// It answers how many lines they are.
fn extend_over(len: u64, at: u64, size: usize, from: usize, text: &mut [u8]) -> usize
    requires order { size ≤ from }
    requires within { from ≤ length text.old }
    ensures within { from + 68 * result ≤ length text.old }
    ensures same_length { length text.new ≡ length text.old }
    ensures kept { take size text.new ≡ take size text.old }
    ensures goes_on { RunGoesOnBy len (drop from text.old) at (take size text.old) (take (size + 16 * result) text.new) result }
    ensures left { drop (from + 68 * result) text.new ≡ drop (from + 68 * result) text.old }
{
    let mut count = 0;
    while let Some(more) = next_full(len, at, size + 16 * count, &text[from + ENDED * count..]) {
        put_over(text, size + 16 * count, &more);
        count += 1;
    }
    count
}

/// Puts the first bytes of a run, and those of the full lines at a place that go on with it, at the beginning of the text.
/// It answers how many lines they are.
fn put_run(len: u64, at: u64, first: &[u8], from: usize, text: &mut [u8]) -> usize
    requires order { length first.now ≤ from }
    requires within { from ≤ length text.old }
    ensures within { from + 68 * result ≤ length text.old }
    ensures same_length { length text.new ≡ length text.old }
    ensures first { take (length first.now) text.new ≡ first.now }
    ensures goes_on { RunGoesOnBy len (drop from text.old) at first.now (take (length first.now + 16 * result) text.new) result }
    ensures left { drop (from + 68 * result) text.new ≡ drop (from + 68 * result) text.old }
{
    put_over(text, 0, first);
    extend_over(len, at, first.len(), from, text)
}

/// Parts a run, which is the text's first bytes, from what isn't read yet. The longer of the two keeps the text's memory;
/// a shorter run goes on in its own.
fn part<A: Allocator + Clone>(
    alloc: &A,
    mut first: Vec<u8, A>,
    mut text: Vec<u8, A>,
    size: usize,
    from: usize,
) -> Result<Parted<A>, NoMemory>
    requires first { first.items ≡ take (length first.items) text.items }
    requires longer { length first.items ≤ size }
    requires order { size ≤ from }
    requires within { from ≤ length text.items }
    ensures bytes { IfOk result (λ p. p.bytes.items ≡ take size text.items) }
    ensures left { IfOk result (λ p. drop p.text.from p.text.bytes.items ≡ drop from text.items) }
{
    if text.len() - from > size {
        let (run, _) = text.as_slice().split_at(size);
        let (_, more) = run.split_at(first.len());
        if first.extend_from_slice(more).is_err() {
            return Err(NoMemory);
        }
        let text = Unread { bytes: text, from };
        return Ok(Parted { bytes: first, text });
    }
    let alloc = alloc.clone().map_err(|_| NoMemory)?;
    let (_, left) = text.as_slice().split_at(from);
    let left = Vec::from_slice(alloc, left).map_err(|_| NoMemory)?;
    text.truncate(size);
    let left = Unread {
        bytes: left,
        from: 0,
    };
    Ok(Parted {
        bytes: text,
        text: left,
    })
}

/// Adds the bytes of the full lines that go on with a run, in the run's own memory.
fn extend_apart<A: Allocator>(
    len: u64,
    at: u64,
    mut bytes: Vec<u8, A>,
    text: Unread<A>,
) -> Result<Extended<A>, NoMemory>
    ensures goes_on { IfOk result (λ e. RunGoesOnBy len (drop text.from text.bytes.items) at bytes.items e.bytes.items e.count) }
    ensures left { IfOk result (λ e. drop e.text.from e.text.bytes.items ≡ drop (68 * e.count) (drop text.from text.bytes.items)) }
{
    let count = extend_run(len, at, &mut bytes, rest_of(&text))?;
    let text = behind(text, ENDED * count);
    Ok(Extended { bytes, count, text })
}

/// Adds the bytes of the full lines that go on with a run: in the text's memory where the run is one line so far, which
/// takes time and memory in proportion to those lines, else in its own.
pub fn extend_in_place<A: Allocator + Clone>(
    alloc: &A,
    len: u64,
    at: u64,
    bytes: Vec<u8, A>,
    text: Unread<A>,
) -> Result<Extended<A>, NoMemory>
    ensures goes_on { IfOk result (λ e. RunGoesOnBy len (drop text.from text.bytes.items) at bytes.items e.bytes.items e.count) }
    ensures left { IfOk result (λ e. drop e.text.from e.text.bytes.items ≡ drop (68 * e.count) (drop text.from text.bytes.items)) }
{
    let size = bytes.len();
    if size > FIRST || text.from < FIRST {
        return extend_apart(len, at, bytes, text);
    }
    let Unread {
        bytes: mut held,
        from,
    } = text;
    let count = put_run(len, at, bytes.as_slice(), from, held.as_mut_slice());
    let Parted { bytes, text } = part(alloc, bytes, held, size + 16 * count, from + ENDED * count)?;
    Ok(Extended { bytes, count, text })
}
