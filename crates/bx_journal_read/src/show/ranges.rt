//! The saved lines of an entry that is marked, as ranges.
ghost use Rattle.std.specs.Prelude.{◌≡◌, ◌+◌, ◌<◌, ◌≤◌, length, OnOk, IfOk, IfErr};
ghost use Rattle.std.specs.Io.KnownBytes.{Appends};
ghost use Rattle.bx_journal_read.specs.show.Showing.{PutsOn, StopsRanges, WritesFrom, ranges_at};
ghost use Rattle.bx_journal_read.specs.show.Stopping.{CountsBytes, StopsPrefix};

use crate::show::fault::ShowFault;
use crate::show::writing::put;
use bx_journal_format::{Mark, RangedLines, Ranging, nothing_ranged, range_last, range_lines};
use bx_journal_model::{SessionFault, passed, read_cut};
use bx_journal_store::TextStore;
use std::alloc::Allocator;
use std::io::Write;

/// What is done of an entry's lines: what the ranges are so far, where reading stands, and how many bytes were written.
#[derive(Clone, Copy)]
pub struct Done {
    pub ranging: Ranging,
    pub at: u64,
    pub written: u64,
}

/// Writes the ranges that the whole lines of the window at a place end.
fn put_window<T: TextStore, A: Allocator + Clone, W: Write>(
    alloc: &A,
    store: &mut T,
    window: &mut [u8],
    mark: Mark,
    done: Done,
    out: &mut W,
) -> Result<Done, ShowFault>
    requires countable { T.failures store.old < u64.MAX }
    requires within { T.faithful store.old → mark.to ≤ length (T.text store.old) }
    requires at { done.at ≤ mark.to }
    requires below { done.ranging.at + done.ranging.count ≤ mark.len }
    ensures put { IfOk result (λ next. PutsOn (T.faithful store.old) (T.text store.old) mark done next (W.contents out.old) (W.contents out.new)) }
    ensures stops { T.faithful store.old → IfErr result (StopsRanges (T.text store.old) mark done (W.contents out.old) (W.contents out.new)) }
    ensures puts { WritesFrom T.faithful T.text T.survives T.failures result store.old store.new }
{
    let cut = read_cut(store, window, done.at, mark.to)?;
    let (now, _) = window.split_at(cut.count);
    let mut text = String::new(alloc.clone()?);
    let lines = range_lines(&mut text, done.ranging, mark.len, now)?;
    if lines.taken == 0 {
        return Err(ShowFault::Text(SessionFault::NoMemory));
    }
    let written = put(out, done.written, text.as_bytes())?;
    Ok(Done {
        ranging: lines.ranging,
        at: done.at + passed(cut, lines.taken),
        written,
    })
}

/// Writes the ranges of an entry's saved lines.
pub fn put_ranges<T: TextStore, A: Allocator + Clone, W: Write>(
    alloc: &A,
    store: &mut T,
    window: &mut [u8],
    mark: Mark,
    written: u64,
    out: &mut W,
) -> Result<u64, ShowFault>
    requires countable { T.failures store.old < u64.MAX }
    requires within { T.faithful store.old → mark.to ≤ length (T.text store.old) }
    requires order { mark.from ≤ mark.to }
    ensures put { T.faithful store.old → OnOk result (Appends (W.contents out.old) (W.contents out.new) (ranges_at (T.text store.old) mark)) }
    ensures counted { T.faithful store.old → IfOk result (CountsBytes written (ranges_at (T.text store.old) mark)) }
    ensures stops { T.faithful store.old → IfErr result
        (StopsPrefix written (ranges_at (T.text store.old) mark) (W.contents out.old) (W.contents out.new)) }
    ensures puts { WritesFrom T.faithful T.text T.survives T.failures result store.old store.new }
{
    let mut done = Done {
        ranging: nothing_ranged(),
        at: mark.from,
        written,
    };
    while done.at < mark.to {
        done = put_window(alloc, store, window, mark, done, out)?;
    }
    let mut text = String::new(alloc.clone()?);
    range_last(&mut text, done.ranging)?;
    put(out, done.written, text.as_bytes())
}
