//! What is left of a journal's text whose entries are counted: where it stands, and how far whole lines go from there.
ghost use Rattle.std.specs.Prelude.{◌≡◌, ◌+◌, ◌*◌, ◌<◌, ◌≤◌, ◌++◌, ◌∷◌, length, take, drop, IfSome, IfNone};
ghost use Rattle.bx_journal_format.specs.read.Plain.{HasNoNewline};
ghost use Rattle.bx_journal_format.specs.count.Tally.{AreFullAt};

use crate::Version;
use crate::format::newline::{end_at, line_end};
use crate::read::runs::full_lines::count_full;

/// Between two entries, or in one: among its saved lines, or behind its save line.
#[derive(Clone, Copy)]
pub enum Place {
    Between,
    Saving { version: Version, len: u64 },
    Ending { version: Version },
}

/// How many entries are finished, the length that the last one tells, and where the next line stands.
#[derive(Clone, Copy)]
pub struct Tally {
    pub count: u32,
    pub told: Option<u64>,
    pub place: Place,
}

/// How many full saved lines a text begins with, where it stands among the saved lines of an entry. They leave the tally as it
/// is.
#[inline]
pub fn full_behind(place: Place, text: &[u8]) -> usize
    ensures full { AreFullAt place text.now result }
    ensures within { 68 * result ≤ length text.now }
{
    match place {
        Place::Saving { len, .. } => count_full(len, text),
        Place::Between => 0,
        Place::Ending { .. } => 0,
    }
}

/// Where the first newline is, if the line is of the length that most lines have at this place: those of the second
/// version, and saved lines of 16 bytes.
#[inline(always)]
fn usual_end(place: Place, text: &[u8]) -> Option<usize>
    ensures { IfSome result (λ i. (i < length text.now) × HasNoNewline (take i text.now) × (text.now ≡ take i text.now ++ 10 ∷ drop (i + 1) text.now)) }
{
    match place {
        Place::Between => end_at(33, text),
        Place::Saving { .. } => match end_at(67, text) {
            Some(i) => Some(i),
            None => end_at(13, text),
        },
        Place::Ending { .. } => end_at(31, text),
    }
}

/// Where the first newline is.
#[inline(always)]
pub fn next_end(place: Place, text: &[u8]) -> Option<usize>
    ensures found { IfSome result (λ i. (i < length text.now) × HasNoNewline (take i text.now) × (text.now ≡ take i text.now ++ 10 ∷ drop (i + 1) text.now)) }
    ensures none { IfNone result (HasNoNewline text.now) }
{
    match usual_end(place, text) {
        Some(i) => Some(i),
        None => line_end(text),
    }
}
