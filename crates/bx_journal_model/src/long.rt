//! A line that is longer than a window: its first bytes say what it is, and its end is found a window at a time.
ghost use Rattle.std.specs.Prelude.{◌≡◌, ◌+◌, ◌-◌, ◌^◌, ◌<◌, ◌≤◌, ◌++◌, codes, length, take, drop, is_err, IfOk, IfSome, IfNone};
ghost use Rattle.bx_journal_model.specs.Long.{BeginsAlike, HasShortLine, IsCut, IsCutLine, IsLongLine, IsNewlineFrom, passed_of};
ghost use Rattle.bx_journal_model.specs.Looking.{OnlyReadsText};

use bx_image::DeviceFailed;
use bx_journal_format::{SURELY_LONG, line_end};
use bx_journal_store::TextStore;

/// Where the first newline of a text's first `len` bytes stands from a place on, or else `len`.
pub fn newline_from<T: TextStore>(
    store: &mut T,
    window: &mut [u8],
    from: u64,
    len: u64,
) -> Result<u64, DeviceFailed>
    requires countable { T.failures store.old < u64.MAX }
    requires within { T.faithful store.old → len ≤ length (T.text store.old) }
    requires below { from ≤ len }
    requires some { 0 < length window.old }
    ensures newline { IfOk result (IsNewlineFrom (T.faithful store.old) (T.text store.old) from len) }
    ensures window { length window.new ≡ length window.old }
    ensures reads { OnlyReadsText T.TextStore (is_err result) store.old store.new }
{
    let mut at = from;
    while at < len {
        let count = (len - at).min(window.len() as u64) as usize;
        let (part, _) = window.split_at_mut(count);
        store.read_at(at, part)?;
        if let Some(i) = line_end(part) {
            return Ok(at + i as u64);
        }
        at += count as u64;
    }
    Ok(len)
}

/// How many bytes the line has that begins at a place of a text's first `len` bytes, where it ends there and its first bytes alone say what it
/// is. These are then the window's first.
pub fn long_line<T: TextStore>(
    store: &mut T,
    window: &mut [u8],
    at: u64,
    len: u64,
) -> Result<Option<u64>, DeviceFailed>
    requires countable { T.failures store.old < u64.MAX }
    requires within { T.faithful store.old → len ≤ length (T.text store.old) }
    requires below { at ≤ len }
    requires room { 1024 ≤ length window.old }
    ensures long { IfOk result (λ found. IfSome found (IsLongLine (T.faithful store.old) (T.text store.old) at len (take 1024 window.new))) }
    ensures none { IfOk result (λ found. IfNone found (HasShortLine (T.faithful store.old) (T.text store.old) at len)) }
    ensures window { length window.new ≡ length window.old }
    ensures reads { OnlyReadsText T.TextStore (is_err result) store.old store.new }
{
    let end = newline_from(store, window, at, len)?;
    if end >= len {
        return Ok(None);
    }
    if end - at < SURELY_LONG as u64 {
        return Ok(None);
    }
    let (front, _) = window.split_at_mut(SURELY_LONG);
    store.read_at(at, front)?;
    if let Some(_) = line_end(front) {
        return Ok(None);
    }
    Ok(Some(end - at))
}

/// How many bytes at the start of a window are lines of a text, and how many bytes of their last line were left out.
#[derive(Clone, Copy)]
pub struct Cut {
    pub count: usize,
    pub left: u64,
}

/// How many bytes of the text the first bytes of a window stand for, where these are whole lines.
pub fn passed(cut: Cut, taken: usize) -> u64
    requires within { taken ≤ cut.count }
    requires countable { cut.count + cut.left < 2 ^ 64 }
    ensures { result ≡ passed_of cut taken }
{
    if taken < cut.count {
        return taken as u64;
    }
    taken as u64 + cut.left
}

/// Puts a newline at a place of a window.
fn put_newline(window: &mut [u8], at: usize)
    requires room { at < length window.old }
    ensures text { take (at + 1) window.new ≡ take at window.old ++ codes "\n" }
    ensures window { length window.new ≡ length window.old }
{
    window[at] = b'\n';
}

/// Cuts the line at a place of a text's first `len` bytes behind its first bytes, if these say what it is.
fn cut_line<T: TextStore>(
    store: &mut T,
    window: &mut [u8],
    at: u64,
    len: u64,
) -> Result<Cut, DeviceFailed>
    requires countable { T.failures store.old < u64.MAX }
    requires within { T.faithful store.old → len ≤ length (T.text store.old) }
    requires below { at ≤ len }
    requires room { 1024 < length window.old }
    ensures cut { IfOk result (IsCut (T.faithful store.old) (T.text store.old) at len window.new) }
    ensures long { IfOk result (λ c. 0 < c.count
        → IsCutLine (T.faithful store.old) (take c.count window.new) (T.text store.old) at (c.count + c.left)) }
    ensures none { IfOk result (λ c. c.count ≡ 0 → HasShortLine (T.faithful store.old) (T.text store.old) at len) }
    ensures window { length window.new ≡ length window.old }
    ensures reads { OnlyReadsText T.TextStore (is_err result) store.old store.new }
{
    let found = long_line(store, window, at, len)?;
    let Some(size) = found else {
        return Ok(Cut { count: 0, left: 0 });
    };
    put_newline(window, SURELY_LONG);
    Ok(Cut {
        count: SURELY_LONG + 1,
        left: size - SURELY_LONG as u64,
    })
}

/// Reads a window of lines at a place of a text's first `len` bytes. Of a line that is longer than the window it has only the first bytes, with a newline:
/// they say what the line is.
pub fn read_cut<T: TextStore>(
    store: &mut T,
    window: &mut [u8],
    at: u64,
    len: u64,
) -> Result<Cut, DeviceFailed>
    requires countable { T.failures store.old < u64.MAX }
    requires within { T.faithful store.old → len ≤ length (T.text store.old) }
    requires below { at ≤ len }
    ensures cut { IfOk result (IsCut (T.faithful store.old) (T.text store.old) at len window.new) }
    ensures begins { 1024 < length window.old → T.faithful store.old → IfOk result (λ c. BeginsAlike (take (len - at) (drop at (T.text store.old)))
        (take c.count window.new)) }
    ensures window { length window.new ≡ length window.old }
    ensures reads { OnlyReadsText T.TextStore (is_err result) store.old store.new }
{
    let size = (window.len() as u64).min(len - at) as usize;
    let (now, _) = window.split_at_mut(size);
    store.read_at(at, now)?;
    if let Some(_) = line_end(now) {
        return Ok(Cut {
            count: size,
            left: 0,
        });
    }
    if window.len() <= SURELY_LONG {
        return Ok(Cut { count: 0, left: 0 });
    }
    let cut = cut_line(store, window, at, len)?;
    Ok(cut)
}
