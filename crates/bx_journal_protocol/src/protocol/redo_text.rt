//! What is written to the redo text (after-images of what was undone): an entry more, or a cut.
ghost use Rattle.std.specs.Prelude.{◌≡◌, ◌+◌, ◌<◌, ◌≤◌, ◌++◌, [], length, take, vec_capacity, OnOk, is_err};
ghost use Rattle.bx_image.specs.Change.{AllWithin};
ghost use Rattle.bx_image.specs.Device.{GoesOn};
ghost use Rattle.bx_image.specs.Power.{Only};
ghost use Rattle.bx_journal_format.specs.Kept.{kept_of};
ghost use Rattle.bx_journal_format.specs.Entry.{entry_text};
ghost use Rattle.bx_journal_protocol.specs.protocol.Turns.{kept_text};

use crate::write::entry::put_head;
use bx_image::{DeviceFailed, MAX_LEN, Saved};
use bx_journal_format::entry_end;
use bx_journal_store::TextStore;
use std::alloc::Allocator;

/// What the step of a change cuts off the redo text.
#[derive(Clone, Copy)]
pub enum RedoCut {
    /// All of it, before the image is changed.
    All,
    /// What stands from a place on, once the image is changed.
    From(u64),
}

/// Leaves the first `n` bytes, and puts that on the disk.
pub fn cut_redo<T: TextStore>(redo: &mut T, n: u64) -> Result<(), DeviceFailed>
    requires countable { T.failures redo.old < u64.MAX }
    requires within { T.faithful redo.old → n ≤ length (T.text redo.old) }
    ensures settled { T.faithful redo.old → OnOk result (Only (T.text redo.new) (T.survives redo.new)) }
    ensures redo { T.faithful redo.old → OnOk result (T.text redo.new ≡ take n (T.text redo.old)) }
    ensures goes_on { GoesOn T.faithful T.room T.failures (is_err result) redo.old redo.new }
{
    redo.cut(n)?;
    redo.sync()
}

/// Appends a whole entry, and puts it on the disk. The page is empty before it and behind it.
fn put_entry<T: TextStore, A: Allocator>(
    redo: &mut T,
    page: &mut Vec<u8, A>,
    number: u32,
    kept: &Saved<A>,
    after: u64,
) -> Result<(), DeviceFailed>
    requires countable { T.failures redo.old < u64.MAX }
    requires within { AllWithin kept.now.len kept.now.runs }
    requires fits { T.faithful redo.old → length (T.text redo.old) + length (entry_text number (kept_of kept.now) after) ≤ T.room redo.old }
    requires empty { page.old.items ≡ [] }
    requires room { 82 ≤ vec_capacity page.old }
    ensures settled { T.faithful redo.old → OnOk result (Only (T.text redo.new) (T.survives redo.new)) }
    ensures redo { T.faithful redo.old → OnOk result (T.text redo.new ≡ T.text redo.old ++ entry_text number (kept_of kept.now) after) }
    ensures emptied { OnOk result (page.new.items ≡ []) }
    ensures page_room { vec_capacity page.old ≤ vec_capacity page.new }
    ensures goes_on { GoesOn T.faithful T.room T.failures (is_err result) redo.old redo.new }
{
    put_head(redo, page, number, kept)?;
    redo.append(entry_end(number, after).as_bytes())?;
    redo.sync()
}

/// Keeps an image that is undone: as an entry with what was taken of it, unless it is longer than an entry can
/// tell. Then none is kept.
pub fn keep_undone<T: TextStore, A: Allocator>(
    redo: &mut T,
    page: &mut Vec<u8, A>,
    number: u32,
    taken: &Saved<A>,
    after: u64,
) -> Result<(), DeviceFailed>
    requires countable { T.failures redo.old < u64.MAX }
    requires within { AllWithin taken.now.len taken.now.runs }
    requires fits { T.faithful redo.old → length (T.text redo.old) + length (entry_text number (kept_of taken.now) after) ≤ T.room redo.old }
    requires empty { page.old.items ≡ [] }
    requires room { 82 ≤ vec_capacity page.old }
    ensures settled { T.faithful redo.old → OnOk result (Only (T.text redo.new) (T.survives redo.new)) }
    ensures redo { T.faithful redo.old → OnOk result (T.text redo.new ≡ kept_text (T.text redo.old) (kept_of taken.now) number after) }
    ensures emptied { OnOk result (page.new.items ≡ []) }
    ensures page_room { vec_capacity page.old ≤ vec_capacity page.new }
    ensures goes_on { GoesOn T.faithful T.room T.failures (is_err result) redo.old redo.new }
{
    if taken.len > MAX_LEN {
        return cut_redo(redo, 0);
    }
    put_entry(redo, page, number, taken, after)
}
