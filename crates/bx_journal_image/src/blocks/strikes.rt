//! The blocks that the saved lines of an entry touch.
ghost use Rattle.std.specs.Prelude.{◌≡◌, ◌<◌, ◌≤◌, [], ◌∷◌, length, take, is_err, true, false, IfOk};
ghost use Rattle.bx_journal_format.specs.Text.{split};
ghost use Rattle.bx_journal_model.specs.Looking.{OnlyReadsText};
ghost use Rattle.bx_journal_read.specs.scan.Windows.{rest_to};
ghost use Rattle.bx_journal_image.specs.Blocks.{AreStruck, HasLongLine, ranges_in};

use crate::blocks::places::strike;
use crate::line::marks::Marks;
use crate::line::ranges::Range;
use bx_image::{DeviceFailed, MAX_LEN};
use bx_journal_format::{line_end, saved_in};
use bx_journal_store::TextStore;

/// Strikes the blocks that a whole line touches, if it is a saved one.
fn strike_line(marks: &mut Marks, total: u64, line: &[u8])
    ensures { AreStruck total (ranges_in (line.now ∷ [])) marks.old marks.new }
{
    let Some(saved) = saved_in(MAX_LEN, line) else {
        return;
    };
    let bytes = &saved.bytes[..saved.count];
    let range = Range {
        at: saved.at,
        count: bytes.len() as u64,
    };
    strike(marks, total, range);
}

/// Strikes the blocks of an image of this length that the whole lines of a text touch, and says how many bytes these lines have. Lines
/// that aren't saved ones touch none.
pub fn strike_lines(marks: &mut Marks, total: u64, text: &[u8]) -> usize
    ensures struck { AreStruck total (ranges_in (split text.now).lines) marks.old marks.new }
    ensures within { result ≤ length text.now }
    ensures lines { (split (take result text.now)).lines ≡ (split text.now).lines }
    ensures whole { (split (take result text.now)).rest ≡ [] }
{
    let mut rest = text;
    let mut taken = 0;
    while let Some(i) = line_end(rest) {
        strike_line(marks, total, &rest[..i]);
        let (_, behind) = rest.split_at(i + 1);
        taken += i + 1;
        rest = behind;
    }
    taken
}

/// Strikes the blocks that the lines between two places of a text touch, which are read a window at a time. It says no where these end with
/// no newline, or a line is longer than the window: then not all may be struck.
pub fn strike_text<T: TextStore>(
    store: &mut T,
    window: &mut [u8],
    marks: &mut Marks,
    total: u64,
    from: u64,
    to: u64,
) -> Result<bool, DeviceFailed>
    requires countable { T.failures store.old < u64.MAX }
    requires order { from ≤ to }
    requires within { T.faithful store.old → to ≤ length (T.text store.old) }
    ensures struck { T.faithful store.old
        → IfOk result (λ all. all ≡ true → AreStruck total (ranges_in (split (rest_to to from (T.text store.old))).lines) marks.old marks.new) }
    ensures long { T.faithful store.old → IfOk result (λ all. all ≡ false → HasLongLine (length window.old) from to (T.text store.old)) }
    ensures window { length window.new ≡ length window.old }
    ensures reads { OnlyReadsText T.TextStore (is_err result) store.old store.new }
{
    let mut at = from;
    while at < to {
        let size = (window.len() as u64).min(to - at) as usize;
        let (now, _) = window.split_at_mut(size);
        store.read_at(at, now)?;
        let taken = strike_lines(marks, total, now);
        if taken == 0 {
            return Ok(false);
        }
        at += taken as u64;
    }
    Ok(true)
}
