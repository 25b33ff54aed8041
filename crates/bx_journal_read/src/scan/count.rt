//! A text that is counted in windows.
ghost use Rattle.std.specs.Prelude.{◌≡◌, ◌<◌, ◌≤◌, length, take, is_err, IfOk, IfErr, IfSome};
ghost use Rattle.bx_image.specs.Power.{NoMore};
ghost use Rattle.bx_journal_model.specs.Looking.{LooksAt, LooksThrough, OnlyReadsText};
ghost use Rattle.bx_journal_model.specs.Fault.{LacksOrFails};
ghost use Rattle.bx_journal_read.specs.scan.Windows.{IsAllCounted, IsCountedBy, IsFrontCounted, IsWalkedTo};

use crate::scan::windows::{Scan, Taken, scan_start};
use bx_image::DeviceFailed;
use bx_journal_format::{
    Counted, Front, MOST_CHANGES, Tally, count_lines, count_one, counted_by, no_entries,
};
use bx_journal_model::{SessionFault, WINDOW};
use bx_journal_store::TextStore;
use bx_text::NoMemory;
use std::alloc::Allocator;

/// More entries than a text can have.
pub const ALL: u32 = MOST_CHANGES + 1;

/// What a text's entries were counted as, and how many lines it has.
#[derive(Clone, Copy)]
pub struct CountedText {
    pub counted: Counted,
    pub lines: u64,
}

/// How far the lines of a text were walked along: up to the place `at` there are `lines` of them, which lead to a tally.
#[derive(Clone, Copy)]
pub struct Walk {
    pub tally: Tally,
    pub at: u64,
    pub lines: u64,
}

/// The lines of a text, counted up to the end of the entry whose number is the limit.
#[derive(Clone, Copy)]
pub struct CountScan {
    pub tally: Tally,
    pub lines: u64,
    pub only_second: bool,
    pub limit: u32,
}

impl Scan for CountScan {
    ghost Leads = { IsCountedBy };

    fn is_done(&self) -> bool {
        self.tally.count >= self.limit
    }

    fn take_lines(
        self,
        _at: u64,
        _left: u64,
        window: &mut [u8],
    ) -> Result<Option<Taken<CountScan>>, NoMemory> {
        let Some(passed) = count_lines(self.tally, window, self.only_second, self.limit) else {
            return Ok(None);
        };
        Ok(Some(Taken {
            scan: CountScan {
                tally: passed.tally,
                lines: self.lines + passed.lines,
                only_second: self.only_second,
                limit: self.limit,
            },
            taken: passed.taken,
        }))
    }

    fn take_long(
        self,
        _at: u64,
        _size: u64,
        line: &[u8],
    ) -> Result<Option<Taken<CountScan>>, NoMemory> {
        let Some(tally) = count_one(self.tally, line, self.only_second) else {
            return Ok(None);
        };
        Ok(Some(Taken {
            scan: CountScan {
                tally,
                lines: self.lines + 1,
                only_second: self.only_second,
                limit: self.limit,
            },
            taken: line.len(),
        }))
    }

    ghost whole = { λ first now text h. h.tallied.whole };
}

/// Walks along the lines of a text's first `len` bytes, a window at a time: up to the end of the entry whose number is the limit, or as far as
/// whole lines go. What is left of a window's last line is read again with the next one. It answers none where a line is out of
/// place, with `only_second` also where an entry tells no length.
pub fn walk_windows<T: TextStore>(
    store: &mut T,
    window: &mut [u8],
    len: u64,
    only_second: bool,
    limit: u32,
) -> Result<Option<Walk>, DeviceFailed>
    requires countable { T.failures store.old < u64.MAX }
    requires within { T.faithful store.old → len ≤ length (T.text store.old) }
    ensures walked { IfOk result (λ found. IfSome found (IsWalkedTo (T.faithful store.old) (T.text store.old) only_second len)) }
    ensures window { length window.new ≡ length window.old }
    ensures reads { OnlyReadsText T.TextStore (is_err result) store.old store.new }
{
    let scan = CountScan {
        tally: no_entries(),
        lines: 0,
        only_second,
        limit,
    };
    let found = scan_start(store, window, scan, len)?;
    let Some(end) = found else {
        return Ok(None);
    };
    Ok(Some(Walk {
        tally: end.scan.tally,
        at: end.at,
        lines: end.scan.lines,
    }))
}

/// Counts the first entries in a text's first `len` bytes, a window at a time: as many as the limit says, or all. It answers none where the
/// text is anything but finished entries up to there, with `only_second` also where one tells no length.
pub fn count_windows<T: TextStore>(
    store: &mut T,
    window: &mut [u8],
    len: u64,
    only_second: bool,
    limit: u32,
) -> Result<Option<Front>, DeviceFailed>
    requires countable { T.failures store.old < u64.MAX }
    requires within { T.faithful store.old → len ≤ length (T.text store.old) }
    ensures counted { IfOk result (λ found. IfSome found (IsFrontCounted (T.faithful store.old) (T.text store.old) only_second)) }
    ensures window { length window.new ≡ length window.old }
    ensures within { IfOk result (λ found. IfSome found (λ f. f.at ≤ len)) }
    ensures reads { OnlyReadsText T.TextStore (is_err result) store.old store.new }
{
    let found = walk_windows(store, window, len, only_second, limit)?;
    let Some(walk) = found else {
        return Ok(None);
    };
    if walk.at < len && walk.tally.count < limit {
        return Ok(None);
    }
    let Some(counted) = counted_by(walk.tally) else {
        return Ok(None);
    };
    Ok(Some(Front {
        count: counted.count,
        told: counted.told,
        at: walk.at,
        lines: walk.lines,
    }))
}

/// Counts the first entries of a text of `len` bytes, as many as the limit says or all, in as much memory for any length. It
/// answers none where they aren't finished entries, with `only_second` also where one tells no length.
pub fn count_front<T: TextStore, A: Allocator + Clone>(
    alloc: &A,
    store: &mut T,
    len: u64,
    only_second: bool,
    limit: u32,
) -> Result<Option<Front>, SessionFault>
    requires countable { T.failures store.old < u64.MAX }
    requires long { T.faithful store.old → len ≡ length (T.text store.old) }
    ensures counted { IfOk result (λ found. IfSome found (IsFrontCounted (T.faithful store.old) (T.text store.old) only_second)) }
    ensures within { IfOk result (λ found. IfSome found (λ f. f.at ≤ len)) }
    ensures reads { LooksThrough T.TextStore result store.old store.new }
{
    let size = WINDOW.min(len) as usize;
    let mut window = vec![in alloc.clone()?; 0u8; size]?;
    let found = count_windows(store, window.as_mut_slice(), len, only_second, limit)?;
    Ok(found)
}

/// Counts the entries of a text in as much memory for any length. It answers none where it is anything but
/// finished entries, with `only_second` also where one tells no length.
pub fn count_text<T: TextStore, A: Allocator + Clone>(
    alloc: &A,
    store: &mut T,
    only_second: bool,
) -> Result<Option<CountedText>, SessionFault>
    requires { T.failures store.old < u64.MAX }
    ensures counted { IfOk result (λ found. IfSome found (IsAllCounted (T.faithful store.old) (T.text store.old) only_second)) }
    ensures fault { IfErr result LacksOrFails }
    ensures looks { LooksAt T.faithful T.text T.failures result store.old store.new }
    ensures survives { T.faithful store.old → NoMore (T.survives store.old) (T.survives store.new) }
{
    let len = store.len()?;
    let found = count_front(alloc, store, len, only_second, ALL)?;
    let Some(front) = found else {
        return Ok(None);
    };
    if front.at != len {
        return Ok(None);
    }
    let counted = Counted {
        count: front.count,
        told: front.told,
    };
    Ok(Some(CountedText {
        counted,
        lines: front.lines,
    }))
}
