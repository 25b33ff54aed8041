//! One more line of a journal's text that is read for a log: what an entry saves is summed, and not kept.
ghost use Rattle.std.specs.Prelude.{◌≡◌, ◌*◌, ◌≤◌, IfSome};
ghost use Rattle.bx_journal_format.specs.count.Rows.{IsMore, SumsTo, summed_behind, summed_of};
ghost use Rattle.bx_journal_format.specs.Text.{Reading, start};

use crate::read::classify::{Event, MOST_CHANGES, classify, count_event};
use crate::read::count::Tally;
use crate::read::window::no_entries;

/// A tally, and of the newest entry, finished or not, the length that it begins with and how many bytes its saved lines
/// have so far.
#[derive(Clone, Copy)]
pub struct Summed {
    pub tally: Tally,
    pub len: u64,
    pub saved: u64,
}

/// The sums of no text.
pub fn nothing_summed() -> Summed
    ensures { result ≡ summed_of start }
{
    Summed {
        tally: no_entries(),
        len: 0,
        saved: 0,
    }
}

/// The sums behind a line.
#[inline]
pub fn sum_event(now: Summed, event: Event) -> Option<Summed>
    requires { now.tally.count ≤ 65535 }
    ensures { IfSome result (λ s. s ≡ summed_behind now event) }
{
    let tally = count_event(now.tally, event);
    let Summed { len, saved, .. } = now;
    match event {
        Event::Begun { len, .. } => Some(Summed {
            tally,
            len,
            saved: 0,
        }),
        Event::Saved { line } => {
            let saved = saved.checked_add(line.count as u64)?;
            Some(Summed { tally, len, saved })
        }
        Event::Complete { .. } => Some(Summed { tally, len, saved }),
        Event::Committed { .. } => Some(Summed { tally, len, saved }),
    }
}

/// The sums after one more line, where the line is in place.
#[inline]
pub fn sum_one(now: Summed, line: &[u8]) -> Option<Summed>
    ensures { (r : Reading) → summed_of r ≡ now → IfSome result (SumsTo r line.now) }
{
    if now.tally.count >= MOST_CHANGES {
        return None;
    }
    let event = classify(now.tally, line)?;
    sum_event(now, event)
}

/// The sums after `count` full saved lines more, each of 16 bytes.
#[inline]
pub fn sum_full(now: Summed, count: usize) -> Option<Summed>
    ensures { IfSome result (IsMore now (16 * count)) }
{
    let more = (count as u64).checked_mul(16)?;
    let saved = now.saved.checked_add(more)?;
    Some(Summed {
        tally: now.tally,
        len: now.len,
        saved,
    })
}
