//! How much of a text is read, where a loss of power may have left zeros in it: found a window at a time.
ghost use Rattle.std.specs.Prelude.{◌≡◌, ◌+◌, ◌<◌, ◌≤◌, length, take, drop, is_err, IfOk};
ghost use Rattle.bx_journal_format.specs.Shown.{before_zero, shown};
ghost use Rattle.bx_journal_format.specs.read.Left.{is_torn};
ghost use Rattle.bx_journal_model.specs.Looking.{OnlyReadsText};

use bx_image::DeviceFailed;
use bx_journal_format::{LastLine, follow_zero, zero_at};
use bx_journal_store::TextStore;

/// Where the first zero of a text of `len` bytes stands from a place on, or else how long the text is.
pub fn zero_from<T: TextStore>(
    store: &mut T,
    window: &mut [u8],
    from: u64,
    len: u64,
) -> Result<u64, DeviceFailed>
    requires countable { T.failures store.old < u64.MAX }
    requires long { T.faithful store.old → len ≡ length (T.text store.old) }
    requires below { from ≤ len }
    requires some { 0 < length window.old }
    ensures zero { T.faithful store.old → IfOk result (λ n. n ≡ from + length (before_zero (drop from (T.text store.old)))) }
    ensures within { IfOk result (λ n. n ≤ len) }
    ensures window { length window.new ≡ length window.old }
    ensures reads { OnlyReadsText T.TextStore (is_err result) store.old store.new }
{
    let mut at = from;
    while at < len {
        let count = (len - at).min(window.len() as u64) as usize;
        let (part, _) = window.split_at_mut(count);
        store.read_at(at, part)?;
        let zero = zero_at(part);
        if zero < count {
            return Ok(at + zero as u64);
        }
        at += count as u64;
    }
    Ok(len)
}

/// Whether a loss of power may have left what a text of `len` bytes has from its first zero on, which stands at a place.
fn is_torn_from<T: TextStore>(
    store: &mut T,
    window: &mut [u8],
    from: u64,
    len: u64,
) -> Result<bool, DeviceFailed>
    requires countable { T.failures store.old < u64.MAX }
    requires long { T.faithful store.old → len ≡ length (T.text store.old) }
    requires below { from ≤ len }
    requires some { 0 < length window.old }
    ensures torn { T.faithful store.old → IfOk result (λ b. b ≡ is_torn LastLine.Other (drop from (T.text store.old))) }
    ensures window { length window.new ≡ length window.old }
    ensures reads { OnlyReadsText T.TextStore (is_err result) store.old store.new }
{
    let mut at = from;
    let mut line = LastLine::Other;
    while at < len {
        let count = (len - at).min(window.len() as u64) as usize;
        let (part, _) = window.split_at_mut(count);
        store.read_at(at, part)?;
        let Some(next) = follow_zero(line, part) else {
            return Ok(false);
        };
        line = next;
        at += count as u64;
    }
    Ok(true)
}

/// How many bytes are read of a text that has `len` of them.
pub fn shown_in<T: TextStore>(
    store: &mut T,
    window: &mut [u8],
    len: u64,
) -> Result<u64, DeviceFailed>
    requires countable { T.failures store.old < u64.MAX }
    requires long { T.faithful store.old → len ≡ length (T.text store.old) }
    requires some { 0 < length window.old }
    ensures shown { T.faithful store.old → IfOk result (λ n. take n (T.text store.old) ≡ shown (T.text store.old)) }
    ensures within { IfOk result (λ n. n ≤ len) }
    ensures window { length window.new ≡ length window.old }
    ensures reads { OnlyReadsText T.TextStore (is_err result) store.old store.new }
{
    let zero = zero_from(store, window, 0, len)?;
    if zero == 0 {
        if len > 1 {
            return Ok(len);
        }
    }
    let torn = is_torn_from(store, window, zero, len)?;
    if torn {
        return Ok(zero);
    }
    Ok(len)
}
