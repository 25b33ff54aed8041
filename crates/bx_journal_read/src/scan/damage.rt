//! At which line a text is damaged: found a window at a time, however long the text or the line is.
ghost use Rattle.std.specs.Prelude.{◌≡◌, ◌+◌, ◌<◌, ◌≤◌, length, take, false, IsTrue, is_err, IfOk, IfErr, IfSome};
ghost use Rattle.bx_journal_format.specs.Shown.{shown};
ghost use Rattle.bx_journal_read.specs.scan.Damage.{IsDamagedIn, IsInPlace, read_of};
ghost use Rattle.bx_journal_model.specs.Long.{IsPlainTo};
ghost use Rattle.bx_journal_model.specs.Looking.{LooksThrough, OnlyReadsText};
ghost use Rattle.bx_journal_read.specs.scan.Windows.{IsWalkedTo};

use crate::scan::count::Walk;
use crate::scan::shown::shown_in;
use crate::scan::windows::{Scan, Taken, scan_start};
use bx_image::DeviceFailed;
use bx_journal_format::{SURELY_LONG, Tally, count_one, is_damaged, lines_in_place, no_entries};
use bx_journal_model::{SessionFault, WINDOW, newline_from};
use bx_journal_store::TextStore;
use bx_text::NoMemory;
use std::alloc::Allocator;

/// The lines of a text that are in place: how many they are, and their tally.
#[derive(Clone, Copy)]
pub struct PlaceScan {
    pub tally: Tally,
    pub lines: u64,
}

impl Scan for PlaceScan {
    ghost Leads = { λ first now text. IsInPlace now text };

    fn take_lines(
        self,
        _at: u64,
        _left: u64,
        window: &mut [u8],
    ) -> Result<Option<Taken<PlaceScan>>, NoMemory> {
        let passed = lines_in_place(self.tally, window);
        Ok(Some(Taken {
            scan: PlaceScan {
                tally: passed.tally,
                lines: self.lines + passed.lines,
            },
            taken: passed.taken,
        }))
    }

    fn take_long(
        self,
        _at: u64,
        _size: u64,
        line: &[u8],
    ) -> Result<Option<Taken<PlaceScan>>, NoMemory> {
        let Some(tally) = count_one(self.tally, line, false) else {
            return Ok(Some(Taken {
                scan: self,
                taken: 0,
            }));
        };
        Ok(Some(Taken {
            scan: PlaceScan {
                tally,
                lines: self.lines + 1,
            },
            taken: line.len(),
        }))
    }

    ghost whole = { λ first now text h. h.tallied.whole };
}

/// Walks along the lines of a text's first `len` bytes that are in place, a window at a time: up to the first that isn't, or as far as
/// whole lines go.
fn walk_in_place<T: TextStore>(
    store: &mut T,
    window: &mut [u8],
    len: u64,
) -> Result<Option<Walk>, DeviceFailed>
    requires countable { T.failures store.old < u64.MAX }
    requires within { T.faithful store.old → len ≤ length (T.text store.old) }
    ensures walked { IfOk result (λ found. IfSome found (IsWalkedTo (T.faithful store.old) (T.text store.old) false len)) }
    ensures window { length window.new ≡ length window.old }
    ensures reads { OnlyReadsText T.TextStore (is_err result) store.old store.new }
{
    let scan = PlaceScan {
        tally: no_entries(),
        lines: 0,
    };
    let found = scan_start(store, window, scan, len)?;
    let Some(end) = found else {
        return Ok(None);
    };
    Ok(Some(Walk {
        tally: end.scan.tally,
        at: end.at,
        lines: end.scan.lines,
    }))
}

/// Whether a text's first `len` bytes are damaged at the line behind those that were walked along: by all that follows there, or by as much
/// as a window holds.
fn is_damaged_behind<T: TextStore>(
    store: &mut T,
    window: &mut [u8],
    len: u64,
    walk: Walk,
) -> Result<bool, DeviceFailed>
    requires countable { T.failures store.old < u64.MAX }
    requires within { T.faithful store.old → len ≤ length (T.text store.old) }
    requires walked { IsWalkedTo (T.faithful store.old) (T.text store.old) false len walk }
    ensures damaged { IfOk result (λ b. IsTrue b → IsDamagedIn (T.faithful store.old) (take len (T.text store.old)) (walk.lines + 1)) }
    ensures window { length window.new ≡ length window.old }
    ensures reads { OnlyReadsText T.TextStore (is_err result) store.old store.new }
{
    let left = len - walk.at;
    let size = (window.len() as u64).min(left) as usize;
    let (bytes, _) = window.split_at_mut(size);
    store.read_at(walk.at, bytes)?;
    Ok(is_damaged(walk.tally, bytes, size as u64 == left))
}

/// Whether a text's first `len` bytes have no newline from a place on.
fn is_endless<T: TextStore>(
    store: &mut T,
    window: &mut [u8],
    from: u64,
    len: u64,
) -> Result<bool, DeviceFailed>
    requires countable { T.failures store.old < u64.MAX }
    requires within { T.faithful store.old → len ≤ length (T.text store.old) }
    requires below { from ≤ len }
    requires some { 0 < length window.old }
    ensures plain { IfOk result (λ b. IsTrue b → IsPlainTo (T.faithful store.old) (T.text store.old) from len) }
    ensures window { length window.new ≡ length window.old }
    ensures reads { OnlyReadsText T.TextStore (is_err result) store.old store.new }
{
    let end = newline_from(store, window, from, len)?;
    Ok(end == len)
}

/// Whether a text's first `len` bytes end in a line that is surely too long to stand there, behind those that were walked along.
fn ends_long<T: TextStore>(
    store: &mut T,
    window: &mut [u8],
    len: u64,
    walk: Walk,
) -> Result<bool, DeviceFailed>
    requires countable { T.failures store.old < u64.MAX }
    requires within { T.faithful store.old → len ≤ length (T.text store.old) }
    requires walked { IsWalkedTo (T.faithful store.old) (T.text store.old) false len walk }
    ensures damaged { IfOk result (λ b. IsTrue b → IsDamagedIn (T.faithful store.old) (take len (T.text store.old)) (walk.lines + 1)) }
    ensures reads { OnlyReadsText T.TextStore (is_err result) store.old store.new }
{
    if len - walk.at < SURELY_LONG as u64 {
        return Ok(false);
    }
    if window.is_empty() {
        return Ok(false);
    }
    is_endless(store, window, walk.at, len)
}

/// Whether a text's first `len` bytes are damaged at the line behind those that were walked along.
fn is_damaged_at<T: TextStore>(
    store: &mut T,
    window: &mut [u8],
    len: u64,
    walk: Walk,
) -> Result<bool, DeviceFailed>
    requires countable { T.failures store.old < u64.MAX }
    requires within { T.faithful store.old → len ≤ length (T.text store.old) }
    requires walked { IsWalkedTo (T.faithful store.old) (T.text store.old) false len walk }
    ensures damaged { IfOk result (λ b. IsTrue b → IsDamagedIn (T.faithful store.old) (take len (T.text store.old)) (walk.lines + 1)) }
    ensures reads { OnlyReadsText T.TextStore (is_err result) store.old store.new }
{
    let damaged = is_damaged_behind(store, window, len, walk)?;
    if damaged {
        return Ok(true);
    }
    ends_long(store, window, len, walk)
}

/// The line, from 1, at which a text's first `len` bytes are damaged. It answers none where they aren't.
fn find_line<T: TextStore>(
    store: &mut T,
    window: &mut [u8],
    len: u64,
) -> Result<Option<u64>, DeviceFailed>
    requires countable { T.failures store.old < u64.MAX }
    requires within { T.faithful store.old → len ≤ length (T.text store.old) }
    ensures line { IfOk result (λ found. IfSome found (IsDamagedIn (T.faithful store.old) (take len (T.text store.old)))) }
    ensures reads { OnlyReadsText T.TextStore (is_err result) store.old store.new }
{
    let found = walk_in_place(store, window, len)?;
    let Some(walk) = found else {
        return Ok(None);
    };
    if walk.at >= len {
        return Ok(None);
    }
    let damaged = is_damaged_at(store, window, len, walk)?;
    if damaged {
        return Ok(Some(walk.lines + 1));
    }
    Ok(None)
}

/// The line at which what is read of a journal's text of `len` bytes is damaged, if it is found so.
fn find_shown<T: TextStore>(
    store: &mut T,
    window: &mut [u8],
    len: u64,
) -> Result<Option<u64>, DeviceFailed>
    requires countable { T.failures store.old < u64.MAX }
    requires long { T.faithful store.old → len ≡ length (T.text store.old) }
    ensures line { IfOk result (λ found. IfSome found (IsDamagedIn (T.faithful store.old) (shown (T.text store.old)))) }
    ensures reads { OnlyReadsText T.TextStore (is_err result) store.old store.new }
{
    if window.is_empty() {
        return Ok(None);
    }
    let shown = shown_in(store, window, len)?;
    find_line(store, window, shown)
}

/// The line at which a text of `len` bytes is damaged, if it is found so: with `fades` at which what is read of it is, where a loss of power may have left
/// zeros in it.
fn find_read<T: TextStore>(
    store: &mut T,
    window: &mut [u8],
    len: u64,
    fades: bool,
) -> Result<Option<u64>, DeviceFailed>
    requires countable { T.failures store.old < u64.MAX }
    requires long { T.faithful store.old → len ≡ length (T.text store.old) }
    ensures line { IfOk result (λ found. IfSome found (IsDamagedIn (T.faithful store.old) (read_of fades (T.text store.old)))) }
    ensures reads { OnlyReadsText T.TextStore (is_err result) store.old store.new }
{
    if fades {
        return find_shown(store, window, len);
    }
    find_line(store, window, len)
}

/// The line at which a text is damaged, in as much memory for any length; with `fades` at which what is read of a journal's text is. It answers none
/// where it isn't damaged.
pub fn text_damage<T: TextStore, A: Allocator + Clone>(
    alloc: &A,
    store: &mut T,
    fades: bool,
) -> Result<Option<u64>, SessionFault>
    requires { T.failures store.old < u64.MAX }
    ensures line { IfOk result (λ found. IfSome found (IsDamagedIn (T.faithful store.old) (read_of fades (T.text store.old)))) }
    ensures reads { LooksThrough T.TextStore result store.old store.new }
{
    let len = store.len()?;
    let size = WINDOW.min(len) as usize;
    let mut window = vec![in alloc.clone()?; 0u8; size]?;
    let found = find_read(store, window.as_mut_slice(), len, fades)?;
    Ok(found)
}
