//! A line whose first bytes alone are at hand, as it is longer than a window: they say what it is.
ghost use Rattle.std.specs.Prelude.{◌≡◌, ◌+◌, ◌^◌, ◌<◌, ◌≤◌, ◌++◌, List, ℕ, Some, length, IfOk, IfSome};
ghost use Rattle.bx_journal_format.specs.Parsed.{told_by};
ghost use Rattle.bx_journal_format.specs.Text.{Entry, ended};
ghost use Rattle.bx_journal_format.specs.count.Marks.{IsMarked};
ghost use Rattle.bx_journal_format.specs.read.Lines.{IsReadUpTo};
ghost use Rattle.bx_journal_format.specs.read.Plain.{HasNoNewline};
ghost use Rattle.bx_journal_format.specs.read.TakeLine.{TakesLine};

use crate::read::classify::{Event, MOST_CHANGES, classify};
use crate::read::lines::{LinesRead, without_room};
use crate::read::marks::{Mark, Marking};
use crate::read::rows::sum_event;
use crate::read::take_line::{event_at, with_line};
use crate::{EntryRead, Front, StageRead};
use bx_text::NoMemory;
use std::alloc::Allocator;

/// The stage with a saved line more that begins with these bytes. The answer is none where it isn't a saved line.
fn take_long<A: Allocator + Clone>(
    alloc: &A,
    front: Front,
    entries: &[EntryRead<A>],
    stage: StageRead<A>,
    line: &[u8],
) -> Result<Option<StageRead<A>>, NoMemory>
    requires few { front.count + length entries.now ≤ 65535 }
    requires long { 1024 ≤ length line.now }
    ensures { (older : List Entry) → front.count ≡ length older → front.told ≡ told_by older → (at : ℕ) (more : List ℕ)
        → IfOk result (λ found. IfSome found (λ s. TakesLine older entries.now stage at (line.now ++ more) entries.now (Some s))) }
{
    let Some(event) = event_at(front, entries, &stage, line) else {
        return Ok(None);
    };
    match event {
        Event::Saved { line } => Ok(Some(with_line(alloc, stage, line)?)),
        Event::Begun { .. } => Ok(None),
        Event::Complete { .. } => Ok(None),
        Event::Committed { .. } => Ok(None),
    }
}

/// Takes a saved line of `size` bytes that begins with these, with which the text goes on behind what was read. It answers none where it isn't a
/// saved line.
pub fn read_long<A: Allocator + Clone>(
    alloc: &A,
    front: Front,
    read: LinesRead<A>,
    line: &[u8],
    size: u64,
) -> Result<Option<LinesRead<A>>, NoMemory>
    requires countable { read.at + size + 1 < 2 ^ 64 }
    requires long { 1024 ≤ length line.now }
    ensures { (text : List ℕ) (older : List Entry) (more : List ℕ) → IsReadUpTo text older front read → HasNoNewline (line.now ++ more)
        → size ≡ length line.now + length more → IfOk result (λ found. IfSome found (IsReadUpTo (text ++ ended (line.now ++ more)) older front)) }
{
    let LinesRead {
        entries,
        stage,
        at,
        has_room,
    } = read;
    if front.count as usize + entries.len() > MOST_CHANGES as usize {
        return Ok(None);
    }
    let old = without_room(stage, has_room)?;
    let taken = take_long(alloc, front, &entries, old, line)?;
    let Some(next) = taken else {
        return Ok(None);
    };
    Ok(Some(LinesRead {
        entries,
        stage: next,
        at: at + size + 1,
        has_room: false,
    }))
}

/// The marking after a saved line that begins with these bytes and ends at `after`. It answers none where it isn't a saved line.
pub fn mark_long(now: Marking, line: &[u8], after: u64) -> Option<Marking>
    requires { 1024 ≤ length line.now }
    ensures { (text : List ℕ) (marks : List Mark) (more : List ℕ) → IsMarked text now marks → HasNoNewline (line.now ++ more)
        → after ≡ length text + length (line.now ++ more) + 1 → IfSome result (λ next. IsMarked (text ++ ended (line.now ++ more)) next marks) }
{
    if now.sums.tally.count >= MOST_CHANGES {
        return None;
    }
    let event = classify(now.sums.tally, line)?;
    let sums = sum_event(now.sums, event)?;
    match event {
        Event::Saved { .. } => Some(Marking {
            sums,
            from: now.from,
            to: after,
        }),
        Event::Begun { .. } => None,
        Event::Complete { .. } => None,
        Event::Committed { .. } => None,
    }
}
