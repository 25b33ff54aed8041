//! Entries that are only marked: where the saved lines of each stand in a text, and what a log tells of it.
ghost use Rattle.std.specs.Prelude.{◌≡◌, ◌+◌, ◌<◌, ◌^◌, ◌++◌, [], List, ℕ, length, IfOk, IfSome, OnOk};
ghost use Rattle.bx_journal_format.specs.Text.{ended};
ghost use Rattle.bx_journal_format.specs.count.Marks.{IsMarked, IsMarkedIn, IsMarkedOn, ended_mark};
ghost use Rattle.bx_journal_format.specs.read.Plain.{HasNoNewline};

use crate::read::classify::{Event, MOST_CHANGES, classify};
use crate::read::count::{Place, full_behind, next_end};
use crate::read::rows::{Summed, nothing_summed, sum_event, sum_full};
use crate::read::runs::full_lines::ENDED;
use bx_text::NoMemory;
use std::alloc::Allocator;

/// Where the saved lines of a finished entry begin and end in a text, the image's length before its change and, where the
/// entry tells it, after it, and how many bytes its saved lines have.
#[derive(Clone, Copy)]
pub struct Mark {
    pub from: u64,
    pub to: u64,
    pub len: u64,
    pub after: Option<u64>,
    pub saved: u64,
}

/// Sums, and where the saved lines of the newest entry, finished or not, begin and end so far.
#[derive(Clone, Copy)]
pub struct Marking {
    pub sums: Summed,
    pub from: u64,
    pub to: u64,
}

/// Where the whole lines of a window lead, and how many bytes they have.
#[derive(Clone, Copy)]
pub struct MarkedLines {
    pub marking: Marking,
    pub taken: usize,
}

/// The marking of no text.
pub fn nothing_marked() -> Marking
    ensures { IsMarked [] result [] }
{
    Marking {
        sums: nothing_summed(),
        from: 0,
        to: 0,
    }
}

/// The marking after one more line, which ends at `after`, where the line is in place.
#[inline]
pub fn mark_one(now: Marking, line: &[u8], after: u64) -> Option<Marking>
    ensures { (text : List ℕ) (marks : List Mark) → IsMarked text now marks → HasNoNewline line.now → after ≡ length text + length line.now + 1
        → IfSome result (λ next. IsMarked (text ++ ended line.now) next (marks ++ ended_mark next.sums.tally.place next)) }
{
    if now.sums.tally.count >= MOST_CHANGES {
        return None;
    }
    let event = classify(now.sums.tally, line)?;
    let sums = sum_event(now.sums, event)?;
    let Marking { from, to, .. } = now;
    match event {
        Event::Begun { .. } => Some(Marking {
            sums,
            from: after,
            to: after,
        }),
        Event::Saved { .. } => Some(Marking {
            sums,
            from,
            to: after,
        }),
        Event::Complete { .. } => Some(Marking { sums, from, to }),
        Event::Committed { .. } => Some(Marking { sums, from, to }),
    }
}

/// The marking after `count` full saved lines more.
#[inline]
fn mark_full(now: Marking, count: usize) -> Option<Marking>
    ensures { IfSome result (IsMarkedOn now count) }
{
    let sums = sum_full(now.sums, count)?;
    let more = (count as u64).checked_mul(ENDED as u64)?;
    let to = now.to.checked_add(more)?;
    Some(Marking {
        sums,
        from: now.from,
        to,
    })
}

/// Adds the mark of the entry that the last line ended, if it ended one.
fn push_ended<A: Allocator>(marks: &mut Vec<Mark, A>, now: Marking) -> Result<(), NoMemory>
    ensures { OnOk result (marks.new.items ≡ marks.old.items ++ ended_mark now.sums.tally.place now) }
{
    match now.sums.tally.place {
        Place::Between => {
            let mark = Mark {
                from: now.from,
                to: now.to,
                len: now.sums.len,
                after: now.sums.tally.told,
                saved: now.sums.saved,
            };
            if marks.push(mark).is_err() {
                return Err(NoMemory);
            }
            Ok(())
        }
        Place::Saving { .. } => Ok(()),
        Place::Ending { .. } => Ok(()),
    }
}

/// Adds the marks of the whole lines at the start of a window, with which a text of `at` bytes goes on. It answers none
/// where a line isn't in place.
pub fn mark_lines<A: Allocator>(
    marks: &mut Vec<Mark, A>,
    from: Marking,
    at: u64,
    window: &[u8],
) -> Result<Option<MarkedLines>, NoMemory>
    requires { at + length window.now < 2 ^ 64 }
    ensures { IfOk result (λ found. IfSome found (IsMarkedIn window.now at from marks.old.items marks.new.items)) }
{
    let mut marking = from;
    let mut taken: usize = 0;
    let mut rest = window;
    while let Some(i) = next_end(marking.sums.tally.place, rest) {
        let after = at + (taken + i) as u64 + 1;
        let Some(next) = mark_one(marking, &rest[..i], after) else {
            return Ok(None);
        };
        push_ended(marks, next)?;
        let (_, behind) = rest.split_at(i + 1);
        let full = full_behind(next.sums.tally.place, behind);
        let Some(all) = mark_full(next, full) else {
            return Ok(None);
        };
        let (_, left) = behind.split_at(ENDED * full);
        marking = all;
        rest = left;
        taken += i + 1 + ENDED * full;
    }
    Ok(Some(MarkedLines { marking, taken }))
}
