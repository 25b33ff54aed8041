//! At which line a text isn't a redo text: found a window at a time, however long the text is.
ghost use Rattle.std.specs.Prelude.{◌≡◌, ◌<◌, ◌≤◌, IsTrue, length, is_err, IfOk, IfSome};
ghost use Rattle.bx_journal_read.specs.scan.Judging.{IsUnfitIn};
ghost use Rattle.bx_journal_model.specs.Looking.{LooksThrough, OnlyReadsText};
ghost use Rattle.bx_journal_read.specs.scan.Windows.{AreAround, AreMoreThan};

use crate::scan::count::{ALL, count_windows, walk_windows};
use crate::scan::newlines::newlines_to;
use crate::scan::torn::find_end;
use bx_image::DeviceFailed;
use bx_journal_format::{Front, MOST_CHANGES};
use bx_journal_model::{SessionFault, WINDOW};
use bx_journal_store::TextStore;
use std::alloc::Allocator;

/// The line at which what is unfinished begins in a text of `len` bytes, if that is found.
fn tail_line<T: TextStore>(
    store: &mut T,
    window: &mut [u8],
    len: u64,
    changes: u32,
) -> Result<Option<u64>, DeviceFailed>
    requires countable { T.failures store.old < u64.MAX }
    requires long { T.faithful store.old → len ≡ length (T.text store.old) }
    requires some { 0 < length window.old }
    ensures line { IfOk result (λ found. IfSome found (IsUnfitIn (T.faithful store.old) (T.text store.old) changes)) }
    ensures window { length window.new ≡ length window.old }
    ensures reads { OnlyReadsText T.TextStore (is_err result) store.old store.new }
{
    let walked = walk_windows(store, window, len, false, ALL)?;
    let Some(walk) = walked else {
        return Ok(None);
    };
    let found = find_end(store, window, len, walk)?;
    let Some(torn) = found else {
        return Ok(None);
    };
    if torn.begins >= len {
        return Ok(None);
    }
    let before = newlines_to(store, window, torn.begins)?;
    Ok(Some(before + 1))
}

/// How many of a text's first `count` entries tell their lengths, up to the first that tells none: as far as that is found.
fn told_entries<T: TextStore>(
    store: &mut T,
    window: &mut [u8],
    len: u64,
    count: u32,
) -> Result<u32, DeviceFailed>
    requires countable { T.failures store.old < u64.MAX }
    requires long { T.faithful store.old → len ≡ length (T.text store.old) }
    ensures few { IfOk result (λ n. n ≤ count) }
    ensures window { length window.new ≡ length window.old }
    ensures reads { OnlyReadsText T.TextStore (is_err result) store.old store.new }
{
    let mut told = 0;
    let mut most = count;
    while told < most {
        let middle = told + (most - told) / 2 + 1;
        let found = count_windows(store, window, len, true, middle)?;
        if found.is_some() {
            told = middle;
        } else {
            most = middle - 1;
        }
    }
    Ok(told)
}

/// Whether one front is all of a text of `len` bytes, and another one entry more than a third, which tells no length.
fn is_untold(whole: Front, front: Front, next: Front, len: u64) -> bool
    requires few { front.count ≤ 65535 }
    ensures { IsTrue result → AreAround whole front next len }
{
    if whole.at != len {
        return false;
    }
    if next.count != front.count + 1 {
        return false;
    }
    if next.told.is_some() {
        return false;
    }
    if front.at >= next.at {
        return false;
    }
    next.at <= len
}

/// The line at which the entry begins that is the first to tell no length, in a text of `len` bytes: behind `told` that tell theirs, if that is so.
fn untold_behind<T: TextStore>(
    store: &mut T,
    window: &mut [u8],
    len: u64,
    told: u32,
    changes: u32,
) -> Result<Option<u64>, DeviceFailed>
    requires countable { T.failures store.old < u64.MAX }
    requires long { T.faithful store.old → len ≡ length (T.text store.old) }
    requires few { told ≤ 65535 }
    ensures line { IfOk result (λ found. IfSome found (IsUnfitIn (T.faithful store.old) (T.text store.old) changes)) }
    ensures window { length window.new ≡ length window.old }
    ensures reads { OnlyReadsText T.TextStore (is_err result) store.old store.new }
{
    let all = count_windows(store, window, len, false, ALL)?;
    let Some(whole) = all else {
        return Ok(None);
    };
    let before = count_windows(store, window, len, true, told)?;
    let Some(front) = before else {
        return Ok(None);
    };
    let behind = count_windows(store, window, len, false, told + 1)?;
    let Some(next) = behind else {
        return Ok(None);
    };
    if is_untold(whole, front, next, len) {
        return Ok(Some(front.lines + 1));
    }
    Ok(None)
}

/// The line at which the first entry begins that tells no length, in a text of `len` bytes, if that is found.
fn untold_line<T: TextStore>(
    store: &mut T,
    window: &mut [u8],
    len: u64,
    changes: u32,
) -> Result<Option<u64>, DeviceFailed>
    requires countable { T.failures store.old < u64.MAX }
    requires long { T.faithful store.old → len ≡ length (T.text store.old) }
    ensures line { IfOk result (λ found. IfSome found (IsUnfitIn (T.faithful store.old) (T.text store.old) changes)) }
    ensures window { length window.new ≡ length window.old }
    ensures reads { OnlyReadsText T.TextStore (is_err result) store.old store.new }
{
    let told = told_entries(store, window, len, MOST_CHANGES)?;
    untold_behind(store, window, len, told, changes)
}

/// Whether one front is all of a text of `len` bytes, and another the first `most` of more entries.
fn is_beyond(whole: Front, front: Front, most: u32, len: u64) -> bool
    ensures { IsTrue result → AreMoreThan whole front most len }
{
    if whole.at != len {
        return false;
    }
    if front.count != most {
        return false;
    }
    if whole.count <= most {
        return false;
    }
    front.at < len
}

/// The line at which the first entry begins that is too many beside `changes` changes, in a text of `len` bytes, if that is found.
fn beyond_line<T: TextStore>(
    store: &mut T,
    window: &mut [u8],
    len: u64,
    changes: u32,
) -> Result<Option<u64>, DeviceFailed>
    requires countable { T.failures store.old < u64.MAX }
    requires long { T.faithful store.old → len ≡ length (T.text store.old) }
    requires few { changes ≤ 65535 }
    ensures line { IfOk result (λ found. IfSome found (IsUnfitIn (T.faithful store.old) (T.text store.old) changes)) }
    ensures window { length window.new ≡ length window.old }
    ensures reads { OnlyReadsText T.TextStore (is_err result) store.old store.new }
{
    let most = MOST_CHANGES - changes;
    let all = count_windows(store, window, len, true, ALL)?;
    let Some(whole) = all else {
        return Ok(None);
    };
    let before = count_windows(store, window, len, true, most)?;
    let Some(front) = before else {
        return Ok(None);
    };
    if is_beyond(whole, front, most, len) {
        return Ok(Some(front.lines + 1));
    }
    Ok(None)
}

/// The line at which a text of `len` bytes, which isn't damaged, is no redo text beside `changes` changes, if that is found.
fn find_unfit<T: TextStore>(
    store: &mut T,
    window: &mut [u8],
    len: u64,
    changes: u32,
) -> Result<Option<u64>, DeviceFailed>
    requires countable { T.failures store.old < u64.MAX }
    requires long { T.faithful store.old → len ≡ length (T.text store.old) }
    requires few { changes ≤ 65535 }
    ensures line { IfOk result (λ found. IfSome found (IsUnfitIn (T.faithful store.old) (T.text store.old) changes)) }
    ensures reads { OnlyReadsText T.TextStore (is_err result) store.old store.new }
{
    if window.is_empty() {
        return Ok(None);
    }
    let tail = tail_line(store, window, len, changes)?;
    if tail.is_some() {
        return Ok(tail);
    }
    let beyond = beyond_line(store, window, len, changes)?;
    if beyond.is_some() {
        return Ok(beyond);
    }
    untold_line(store, window, len, changes)
}

/// The line, from 1, at which a text is no redo text beside `changes` changes, in as much memory for any length: where what is unfinished
/// begins, or the first entry that tells no length, or else the first that is too many. It answers none where there is none, and where the
/// text is damaged.
pub fn unfit_line<T: TextStore, A: Allocator + Clone>(
    alloc: &A,
    store: &mut T,
    changes: u32,
) -> Result<Option<u64>, SessionFault>
    requires countable { T.failures store.old < u64.MAX }
    requires few { changes ≤ 65535 }
    ensures line { IfOk result (λ found. IfSome found (IsUnfitIn (T.faithful store.old) (T.text store.old) changes)) }
    ensures reads { LooksThrough T.TextStore result store.old store.new }
{
    let len = store.len()?;
    let size = WINDOW.min(len) as usize;
    let mut window = vec![in alloc.clone()?; 0u8; size]?;
    let found = find_unfit(store, window.as_mut_slice(), len, changes)?;
    Ok(found)
}
