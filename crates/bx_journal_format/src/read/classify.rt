//! What one line of a journal's text is, at its place.
ghost use Rattle.std.specs.Prelude.{◌≡◌, ◌≤◌, List, length, suc};
ghost use Rattle.bx_journal_format.specs.Kept.{Kept as Record};
ghost use Rattle.bx_journal_format.specs.Parsed.{told_by};
ghost use Rattle.bx_journal_format.specs.Text.{Between as Resting, Saving as Keeping, Entry, Reading};
ghost use Rattle.bx_journal_format.specs.read.Event.{BeginsAs, IsClassified, tally_behind};
ghost use Rattle.bx_journal_format.specs.count.Tally.{tally_of};

use crate::Version;
use crate::format::line::{SavedLine, after_in, is_save, length_in, saved_in};
use crate::read::count::{Place, Tally};

/// How many changes a journal holds.
pub const MOST_CHANGES: u32 = 65_535;

/// What a line is: it begins an entry, is a line of its undo record, completes the record, or is the commit mark.
#[derive(Clone, Copy)]
pub enum Event {
    Begun { version: Version, len: u64 },
    Saved { line: SavedLine },
    Complete { version: Version },
    Committed { after: Option<u64> },
}

/// The length in a line that begins an entry of this version, where the entry may begin with it.
#[inline]
fn begin(version: Version, number: u32, told: Option<u64>, line: &[u8]) -> Option<u64>
    ensures { (es : List Entry) → suc (length es) ≡ number → told ≡ told_by es → BeginsAs es version line.now result }
{
    let len = length_in(version, number, line)?;
    match told {
        Some(after) => { if len == after { Some(len) } else { None } }
        None => Some(len),
    }
}

/// What a line is between two entries.
#[inline]
fn between(number: u32, told: Option<u64>, line: &[u8]) -> Option<Event>
    ensures { (es : List Entry) → suc (length es) ≡ number → told ≡ told_by es → IsClassified es Resting line.now result }
{
    if number > MOST_CHANGES {
        return None;
    }
    if let Some(len) = begin(Version::First, number, told, line) {
        return Some(Event::Begun {
            version: Version::First,
            len,
        });
    }
    let len = begin(Version::Second, number, told, line)?;
    Some(Event::Begun {
        version: Version::Second,
        len,
    })
}

/// What a line is among the saved lines of an entry.
#[inline]
fn among(number: u32, version: Version, len: u64, line: &[u8]) -> Option<Event>
    ensures { (es : List Entry) (s : Record) → suc (length es) ≡ number → s.len ≡ len → IsClassified es (Keeping version s) line.now result }
{
    if is_save(number, line) {
        return Some(Event::Complete { version });
    }
    let line = saved_in(len, line)?;
    Some(Event::Saved { line })
}

/// What a line is behind what a tally counts. The answer is none where it is out of place.
#[inline]
pub fn classify(tally: Tally, line: &[u8]) -> Option<Event>
    requires { tally.count ≤ 65535 }
    ensures { (r : Reading) → tally_of r ≡ tally → IsClassified r.entries r.stage line.now result }
{
    let number = tally.count + 1;
    match tally.place {
        Place::Between => between(number, tally.told, line),
        Place::Saving { version, len } => among(number, version, len, line),
        Place::Ending { version } => {
            let after = after_in(version, number, line)?;
            Some(Event::Committed { after })
        }
    }
}

/// The tally behind a line.
#[inline]
pub fn count_event(tally: Tally, event: Event) -> Tally
    requires { tally.count ≤ 65535 }
    ensures { result ≡ tally_behind tally event }
{
    let Tally { count, told, .. } = tally;
    match event {
        Event::Begun { version, len } => Tally {
            count,
            told,
            place: Place::Saving { version, len },
        },
        Event::Saved { .. } => tally,
        Event::Complete { version } => Tally {
            count,
            told,
            place: Place::Ending { version },
        },
        Event::Committed { after } => Tally {
            count: count + 1,
            told: after,
            place: Place::Between,
        },
    }
}
