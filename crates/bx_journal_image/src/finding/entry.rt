//! The last entry of a text: where it begins, and what its first line and its last one tell.
ghost use Rattle.std.specs.Prelude.{◌≡◌, ◌+◌, ◌<◌, ◌≤◌, ◌^◌, ℕ, length, take, drop, is_err, IfOk, IfSome, IfNone};
ghost use Rattle.bx_journal_model.specs.Looking.{OnlyReadsText};
ghost use Rattle.bx_journal_image.specs.Entry.{IsBefore, IsLastEntryAt, beginning_line};
ghost use Rattle.bx_journal_image.specs.Ranges.{EndsIn};

use crate::line::form::{LineText, number_behind, push_field};
use crate::line::ranges::{END, end_of};
use bx_image::DeviceFailed;
use bx_journal_store::TextStore;
use memchr::memmem::rfind;

/// What stands where an entry begins, but for the text's first one.
const BEGINS: &[u8] = b"\nchange";

/// How many bytes the line has that begins an entry of the newer form.
pub(crate) const FIRST: usize = 34;

/// The number of the entry that a text of `len` bytes ends with; none where its last bytes are no end line of the newer form.
pub fn number_at_end<T: TextStore>(
    store: &mut T,
    window: &mut [u8],
    len: u64,
) -> Result<Option<u32>, DeviceFailed>
    requires countable { T.failures store.old < u64.MAX }
    requires long { T.faithful store.old → len ≡ length (T.text store.old) }
    requires room { length window.old ≡ 65536 }
    ensures some { T.faithful store.old → IfOk result (λ found. IfSome found (EndsIn (T.text store.old))) }
    ensures none { T.faithful store.old → IfOk result (λ found. IfNone found ((n : ℕ) → EndsIn (T.text store.old) n → ⊥)) }
    ensures room { length window.new ≡ 65536 }
    ensures reads { OnlyReadsText T.TextStore (is_err result) store.old store.new }
{
    if len < END as u64 {
        return Ok(None);
    }
    let (last, _) = window.split_at_mut(END);
    store.read_at(len - END as u64, last)?;
    Ok(end_of(last))
}

/// Where the last entry of a text of `len` bytes begins. The text is read backwards, a window at a time.
pub fn last_entry<T: TextStore>(
    store: &mut T,
    window: &mut [u8],
    len: u64,
) -> Result<u64, DeviceFailed>
    requires countable { T.failures store.old < u64.MAX }
    requires long { T.faithful store.old → len ≡ length (T.text store.old) }
    requires room { length window.old ≡ 65536 }
    ensures entry { T.faithful store.old → IfOk result (IsLastEntryAt (T.text store.old)) }
    ensures within { IfOk result (λ at. at ≤ len) }
    ensures room { length window.new ≡ 65536 }
    ensures reads { OnlyReadsText T.TextStore (is_err result) store.old store.new }
{
    let mut end = len;
    while end >= BEGINS.len() as u64 {
        let size = (window.len() as u64).min(end) as usize;
        let from = end - size as u64;
        let (now, _) = window.split_at_mut(size);
        store.read_at(from, now)?;
        if let Some(i) = rfind(now, BEGINS) {
            return Ok(from + i as u64 + 1);
        }
        end = from + BEGINS.len() as u64 - 1;
    }
    Ok(0)
}

/// The line that begins an entry of the newer form.
fn write_beginning(n: u64, before: u64) -> LineText
    requires number { n < 16 ^ 8 }
    requires length { before < 16 ^ 16 }
    ensures { result ≡ beginning_line n before }
{
    let mut text = LineText::new();
    push_field(&mut text, b"change2 ", 8, n);
    push_field(&mut text, b" ", 16, before);
    text.push_all(b"\n");
    text
}

/// The length that an entry restores, by its first bytes, as many as such a line has; none where these are no such line.
pub(crate) fn length_in(first: &[u8]) -> Option<u64>
    requires { length first.now ≤ 34 }
    ensures { IsBefore first.now result }
{
    if first.len() < FIRST {
        return None;
    }
    let number = number_behind(first, 8, 8);
    let before = number_behind(number.rest, 1, 16);
    let written = write_beginning(number.number, before.number);
    if written.as_bytes() == first {
        Some(before.number)
    } else {
        None
    }
}

/// The length that the entry at a place of a text of `len` bytes restores, if its first line is of the newer form.
pub fn length_before<T: TextStore>(
    store: &mut T,
    window: &mut [u8],
    at: u64,
    len: u64,
) -> Result<Option<u64>, DeviceFailed>
    requires countable { T.failures store.old < u64.MAX }
    requires long { T.faithful store.old → len ≡ length (T.text store.old) }
    requires within { at ≤ len }
    requires room { length window.old ≡ 65536 }
    ensures before { T.faithful store.old → IfOk result (IsBefore (drop at (T.text store.old))) }
    ensures room { length window.new ≡ 65536 }
    ensures reads { OnlyReadsText T.TextStore (is_err result) store.old store.new }
{
    let size = (FIRST as u64).min(len - at) as usize;
    let (first, _) = window.split_at_mut(size);
    store.read_at(at, first)?;
    Ok(length_in(first))
}
