//! A journal's text that is counted a window at a time: no line of it is kept.
ghost use Rattle.std.specs.Prelude.{◌≡◌, ◌+◌, ◌<◌, ◌≤◌, ◌++◌, ◌∷◌, [], Bool, List, ℕ, length, take, drop, IfSome, IsTrue};
ghost use Rattle.bx_journal_format.specs.Text.{Reading};
ghost use Rattle.bx_journal_format.specs.read.Plain.{HasNoNewline};
ghost use Rattle.bx_journal_format.specs.count.Tally.{IsTallied, IsPassed, IsCountedAll, LeadsTo, TellsLength, tally_of};

use crate::read::classify::{Event, MOST_CHANGES, classify, count_event};
use crate::read::count::{Place, Tally, full_behind, next_end};
use crate::read::runs::full_lines::ENDED;

/// Where the whole lines of a window lead, how many they are, and how many bytes they have.
#[derive(Clone, Copy)]
pub struct Passed {
    pub tally: Tally,
    pub lines: u64,
    pub taken: usize,
}

/// How many entries a text has, and the length that the last one tells.
#[derive(Clone, Copy)]
pub struct Counted {
    pub count: u32,
    pub told: Option<u64>,
}

/// The tally of no text.
pub fn no_entries() -> Tally
    ensures tallied { (only : Bool) → IsTallied only [] result 0 }
    ensures count { result.count ≡ 0 }
{
    Tally {
        count: 0,
        told: None,
        place: Place::Between,
    }
}

/// Where the first newline is, while fewer entries than the limit are counted.
#[inline(always)]
fn end_below(limit: u32, tally: Tally, text: &[u8]) -> Option<usize>
    ensures { IfSome result (λ i. (i < length text.now) × HasNoNewline (take i text.now) × (text.now ≡ take i text.now ++ 10 ∷ drop (i + 1) text.now)) }
{
    if tally.count >= limit {
        return None;
    }
    next_end(tally.place, text)
}

/// Whether a line isn't the end of an entry that tells no length.
#[inline]
fn tells(event: Event) -> bool
    ensures { IsTrue result → TellsLength event }
{
    match event {
        Event::Committed { after } => after.is_some(),
        Event::Begun { .. } => true,
        Event::Saved { .. } => true,
        Event::Complete { .. } => true,
    }
}

/// The tally after one more line, where the line is in place. With `only_second` an entry that tells no length isn't
/// counted.
#[inline]
pub fn count_one(tally: Tally, line: &[u8], only_second: bool) -> Option<Tally>
    ensures leads { (r : Reading) → tally_of r ≡ tally → IfSome result (LeadsTo only_second r line.now) }
    ensures few { tally.count ≤ 65535 → IfSome result (λ t. t.count ≤ 65535) }
{
    if tally.count >= MOST_CHANGES {
        return None;
    }
    let event = classify(tally, line)?;
    if only_second && !tells(event) {
        return None;
    }
    Some(count_event(tally, event))
}

/// Counts the whole lines at the start of a window, where each is in place: all of them, or those up to the end of the
/// entry whose number is the limit. It answers none where one isn't in place, and with `only_second` also where an entry
/// tells no length.
pub fn count_lines(tally: Tally, window: &[u8], only_second: bool, limit: u32) -> Option<Passed>
    ensures tallied { (front : List ℕ) (n : ℕ) → IsTallied only_second front tally n
        → IfSome result (IsPassed only_second front n window.now) }
    ensures within { IfSome result (λ p. p.taken ≤ length window.now) }
    ensures lines { IfSome result (λ p. p.lines ≤ p.taken) }
    ensures few { tally.count ≤ 65535 → IfSome result (λ p. p.tally.count ≤ 65535) }
{
    let mut now = tally;
    let mut lines: u64 = 0;
    let mut taken: usize = 0;
    let mut rest = window;
    while let Some(i) = end_below(limit, now, rest) {
        now = count_one(now, &rest[..i], only_second)?;
        let (_, behind) = rest.split_at(i + 1);
        let full = full_behind(now.place, behind);
        let (_, left) = behind.split_at(ENDED * full);
        rest = left;
        lines += 1 + full as u64;
        taken += i + 1 + ENDED * full;
    }
    Some(Passed {
        tally: now,
        lines,
        taken,
    })
}

/// What was counted, where no entry is unfinished.
pub fn counted_by(tally: Tally) -> Option<Counted>
    ensures counted { (only : Bool) (text : List ℕ) (n : ℕ) → IsTallied only text tally n
        → IfSome result (λ c. IsCountedAll only text c.count c.told n) }
    ensures few { tally.count ≤ 65535 → IfSome result (λ c. c.count ≤ 65535) }
{
    match tally.place {
        Place::Between => Some(Counted {
            count: tally.count,
            told: tally.told,
        }),
        Place::Saving { .. } => None,
        Place::Ending { .. } => None,
    }
}
