//! The first byte of a journal, which is on the disk before any other.
ghost use Rattle.std.specs.Prelude.{◌≡◌, ◌+◌, ◌<◌, ◌≤◌, length, vec_capacity, OnOk, OnErr, is_err};
ghost use Rattle.bx_image.specs.Device.{GoesOn};
ghost use Rattle.bx_image.specs.Power.{FadesBehind, Only};
ghost use Rattle.bx_journal_store.specs.Store.{IsPartlyAppended};
ghost use Rattle.bx_journal_protocol.specs.write.First.{AllKeptOrShort};
ghost use Rattle.bx_journal_protocol.specs.write.Page.{IsPaged};

use bx_image::DeviceFailed;
use bx_journal_store::TextStore;
use std::alloc::Allocator;

/// Where a text is empty, appends the first byte that waits in the page, puts it on the disk, and takes it from the page. So no
/// loss of power leaves a text that begins with a zero and goes on behind it, as a blank image does.
pub fn put_first<T: TextStore, A: Allocator>(
    store: &mut T,
    page: &mut Vec<u8, A>,
) -> Result<(), DeviceFailed>
    requires countable { T.failures store.old < u64.MAX }
    requires some { 0 < length page.old.items }
    requires fits { T.faithful store.old → length (T.text store.old) + length page.old.items ≤ T.room store.old }
    ensures ok { T.faithful store.old → OnOk result (IsPaged page.old.items (T.text store.old) (T.text store.new) page.new.items) }
    ensures fault { T.faithful store.old → OnErr result (IsPartlyAppended page.old.items (T.text store.old) (T.text store.new)) }
    ensures fades { T.faithful store.old → FadesBehind (T.text store.old) page.old.items (T.survives store.old) (T.survives store.new) }
    ensures first { T.faithful store.old → OnOk result (0 < length (T.text store.new)) }
    ensures settled { T.faithful store.old → Only (T.text store.old) (T.survives store.old) → OnOk result (Only (T.text store.new) (T.survives store.new)) }
    ensures short { T.faithful store.old → Only (T.text store.old) (T.survives store.old)
        → OnErr result (AllKeptOrShort (T.text store.old) (T.survives store.new)) }
    ensures room { vec_capacity page.old ≤ vec_capacity page.new }
    ensures goes_on { GoesOn T.faithful T.room T.failures (is_err result) store.old store.new }
{
    if store.len()? > 0 {
        return Ok(());
    }
    store.append(&[page[0]])?;
    store.sync()?;
    let _ = page.remove(0);
    Ok(())
}
