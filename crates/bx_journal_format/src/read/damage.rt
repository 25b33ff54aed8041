//! The lines of a text that are in place, and whether it is damaged behind them.
ghost use Rattle.std.specs.Prelude.{◌≡◌, ◌+◌, ◌≤◌, ◌++◌, None, [], List, ℕ, IsTrue, false, length, take, drop};
ghost use Rattle.bx_journal_format.specs.Text.{Reading, next};
ghost use Rattle.bx_journal_format.specs.count.Tally.{IsPassed, IsTallied, tally_of};
ghost use Rattle.bx_journal_format.specs.read.Stops.{StopsAt};

use crate::read::classify::classify;
use crate::read::count::{Tally, full_behind, next_end};
use crate::read::runs::full_lines::ENDED;
use crate::read::tail::rest_may_follow;
use crate::read::window::{Passed, count_one};

/// What stands in front of the text column of a saved line has fewer bytes, and so has any other line that may be in place.
pub const SURELY_LONG: usize = 1024;

/// Counts the whole lines at the start of a window up to the first that is out of place.
pub fn lines_in_place(tally: Tally, window: &[u8]) -> Passed
    ensures tallied { (front : List ℕ) (n : ℕ) → IsTallied false front tally n → IsPassed false front n window.now result }
    ensures within { result.taken ≤ length window.now }
    ensures lines { result.lines ≤ result.taken }
    ensures few { tally.count ≤ 65535 → result.tally.count ≤ 65535 }
{
    let mut now = tally;
    let mut lines: u64 = 0;
    let mut taken: usize = 0;
    let mut rest = window;
    while let Some(i) = next_end(now.place, rest) {
        let Some(next) = count_one(now, &rest[..i], false) else {
            return Passed {
                tally: now,
                lines,
                taken,
            };
        };
        now = next;
        let (_, behind) = rest.split_at(i + 1);
        let full = full_behind(now.place, behind);
        let (_, left) = behind.split_at(ENDED * full);
        rest = left;
        lines += 1 + full as u64;
        taken += i + 1 + ENDED * full;
    }
    Passed {
        tally: now,
        lines,
        taken,
    }
}

/// Whether a line is out of place.
fn is_misplaced(tally: Tally, line: &[u8]) -> bool
    requires { tally.count ≤ 65535 }
    ensures { (r : Reading) → tally_of r ≡ tally → IsTrue result → next r line.now ≡ None }
{
    classify(tally, line).is_none()
}

/// Whether a text whose lines so far lead to this tally is damaged at its next line, which begins with these bytes: with `is_all` they are
/// all that follows, and otherwise it is damaged whatever does.
pub fn is_damaged(tally: Tally, bytes: &[u8], is_all: bool) -> bool
    requires { tally.count ≤ 65535 }
    ensures { (r : Reading) → tally_of r ≡ tally → IsTrue result
        → (more : List ℕ) → (IsTrue is_all → more ≡ []) → StopsAt r (bytes.now ++ more) }
{
    if let Some(i) = next_end(tally.place, bytes) {
        return is_misplaced(tally, &bytes[..i]);
    }
    if is_all {
        return !rest_may_follow(tally, bytes);
    }
    if bytes.len() < SURELY_LONG {
        return false;
    }
    is_misplaced(tally, bytes)
}
