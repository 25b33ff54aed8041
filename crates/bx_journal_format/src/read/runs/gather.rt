//! Full saved lines in a window that go on with a run: their bytes are gathered at the window's beginning, over lines that
//! were read, and put behind the run all at once.
ghost use Rattle.std.specs.Prelude.{◌≡◌, ◌+◌, ◌*◌, ◌<◌, ◌≤◌, ◌++◌, ◌^◌, length, map, drop, IfOk, OnOk};
ghost use Rattle.bx_journal_format.specs.Kept.{run_of};
ghost use Rattle.bx_journal_format.specs.read.Followed.{GoesOnBy, IsGathered, RunGoesOnBy};

use crate::format::line::push;
use crate::read::runs::full_lines::{ENDED, next_full};
use crate::read::runs::reuse_text::put_over;
use bx_text::{Bytes, NoMemory, Piece};
use std::alloc::{Allocator, Global};

/// How many bytes a run has room for beside those of the full lines that are read: one line's, as the last may be short.
const SPARE: usize = 16;

/// How many full lines of a window were put behind a run, and whether the run has room for lines of the windows to come.
#[derive(Clone, Copy)]
pub struct Gathered {
    pub count: usize,
    pub has_room: bool,
}

/// A run's bytes, and what was put behind them.
#[derive(Drop)]
struct Longer<A: Allocator = Global> {
    bytes: Vec<u8, A>,
    gathered: Gathered,
}

/// Puts the bytes of the full lines at a place of a window, that go on with a run of this address and size, at the window's
/// beginning. It answers how many lines they are.
fn gather(len: u64, at: u64, size: usize, from: usize, window: &mut [u8]) -> usize
    requires within { from ≤ length window.old }
    requires countable { size < 2 ^ 63 }
    ensures { IsGathered len at size from window.old window.new result }
{
    let mut count = 0;
    while let Some(more) = next_full(len, at, size + 16 * count, &window[from + ENDED * count..]) {
        put_over(window, 16 * count, &more);
        count += 1;
    }
    count
}

/// For how many bytes more room is made behind a run that ends at this address. Where its lines go on up to the end of a
/// window, that is what it may get from the windows to come: no more than the image has behind it, and 16 bytes for each full
/// line in the text that is left.
fn spare(goes_on: bool, len: u64, end: u64, left: u64) -> usize {
    if !goes_on {
        return SPARE;
    }
    let lines = left / ENDED as u64 + 1;
    (16 * lines).min(len.saturating_sub(end)) as usize
}

/// Makes room for `more` bytes behind a run, and where there is none, for `spare` others too.
fn make_room<A: Allocator>(
    bytes: &mut Vec<u8, A>,
    more: usize,
    spare: usize,
) -> Result<(), NoMemory>
    ensures { bytes.new.items ≡ bytes.old.items }
{
    if more <= bytes.capacity() - bytes.len() {
        return Ok(());
    }
    if bytes.reserve_exact(more.saturating_add(spare)).is_err() {
        return Err(NoMemory);
    }
    Ok(())
}

/// Puts bytes behind a run.
fn put_behind<A: Allocator>(bytes: &mut Vec<u8, A>, more: &[u8]) -> Result<(), NoMemory>
    ensures { OnOk result (bytes.new.items ≡ bytes.old.items ++ more.now) }
{
    if bytes.extend_from_slice(more).is_err() {
        return Err(NoMemory);
    }
    Ok(())
}

/// Adds the bytes of the full lines at a place of a window that go on with a run. Where they go on up to its end, room is
/// made for those that `left` bytes of text behind the window may give.
fn lengthen<A: Allocator>(
    len: u64,
    at: u64,
    mut bytes: Vec<u8, A>,
    left: u64,
    from: usize,
    window: &mut [u8],
) -> Result<Longer<A>, NoMemory>
    requires within { from ≤ length window.old }
    ensures goes_on { IfOk result (λ l. RunGoesOnBy len (drop from window.old) at bytes.items l.bytes.items l.gathered.count) }
    ensures left { IfOk result (λ l. drop (from + 68 * l.gathered.count) window.new ≡ drop (from + 68 * l.gathered.count) window.old) }
    ensures same_length { length window.new ≡ length window.old }
{
    let count = gather(len, at, bytes.len(), from, window);
    let size = 16 * count;
    let has_room = count > 0 && window.len() - (from + ENDED * count) < ENDED;
    let end = at.saturating_add((bytes.len() + size) as u64);
    let (more, _) = window.split_at(size);
    make_room(&mut bytes, size, spare(has_room, len, end, left))?;
    put_behind(&mut bytes, more)?;
    let gathered = Gathered { count, has_room };
    Ok(Longer { bytes, gathered })
}

/// Adds the bytes of the full lines at a place of a window that go on with the last run.
pub fn gather_last<A: Allocator>(
    len: u64,
    runs: &mut Vec<Piece<A>, A>,
    left: u64,
    from: usize,
    window: &mut [u8],
) -> Result<Gathered, NoMemory>
    requires within { from ≤ length window.old }
    ensures goes_on { IfOk result (λ g. GoesOnBy len (drop from window.old) (map run_of runs.old.items) (map run_of runs.new.items) g.count) }
    ensures left { IfOk result (λ g. drop (from + 68 * g.count) window.new ≡ drop (from + 68 * g.count) window.old) }
    ensures same_length { length window.new ≡ length window.old }
{
    let Some(last) = runs.pop() else {
        return Ok(Gathered {
            count: 0,
            has_room: false,
        });
    };
    let Piece { at, bytes } = last;
    let Longer { bytes, gathered } = lengthen(len, at, bytes.into_vec(), left, from, window)?;
    let bytes = Bytes::from_vec(bytes);
    push(runs, Piece { at, bytes })?;
    Ok(gathered)
}

/// Gives back what room the last run has beyond one line's bytes.
pub fn trim_last<A: Allocator>(runs: &mut Vec<Piece<A>, A>) -> Result<(), NoMemory>
    ensures { OnOk result (map run_of runs.new.items ≡ map run_of runs.old.items) }
{
    let Some(last) = runs.pop() else {
        return Ok(());
    };
    let Piece { at, bytes } = last;
    let mut bytes = bytes.into_vec();
    let room = bytes.len() + SPARE;
    bytes.shrink_to(room);
    let bytes = Bytes::from_vec(bytes);
    push(runs, Piece { at, bytes })
}
