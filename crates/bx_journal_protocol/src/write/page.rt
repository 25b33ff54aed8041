//! Text that is gathered in a page, and appended when the page is full.
ghost use Rattle.std.specs.Prelude.{◌≡◌, ◌+◌, ◌<◌, ◌≤◌, ◌++◌, [], length, vec_capacity, OnOk, OnErr, is_err};
ghost use Rattle.bx_image.specs.Device.{GoesOn};
ghost use Rattle.bx_image.specs.Power.{FadesBehind};
ghost use Rattle.bx_journal_store.specs.Store.{IsPartlyAppended};
ghost use Rattle.bx_journal_protocol.specs.write.Page.{IsPaged};

use bx_image::DeviceFailed;
use bx_journal_store::TextStore;
use std::alloc::Allocator;

/// Appends what waits in the page, and empties it.
pub fn append_page<T: TextStore, A: Allocator>(
    store: &mut T,
    page: &mut Vec<u8, A>,
) -> Result<(), DeviceFailed>
    requires countable { T.failures store.old < u64.MAX }
    requires fits { T.faithful store.old → length (T.text store.old) + length page.old.items ≤ T.room store.old }
    ensures ok { T.faithful store.old → OnOk result (T.text store.new ≡ T.text store.old ++ page.old.items) }
    ensures fault { T.faithful store.old → OnErr result (IsPartlyAppended page.old.items (T.text store.old) (T.text store.new)) }
    ensures fades { T.faithful store.old → FadesBehind (T.text store.old) page.old.items (T.survives store.old) (T.survives store.new) }
    ensures empty { OnOk result (page.new.items ≡ []) }
    ensures room { vec_capacity page.old ≤ vec_capacity page.new }
    ensures goes_on { GoesOn T.faithful T.room T.failures (is_err result) store.old store.new }
{
    store.append(page.as_slice())?;
    page.clear();
    Ok(())
}

/// Makes room in the page for `more` bytes: where it has none, the page is appended.
#[inline]
pub fn make_room<T: TextStore, A: Allocator>(
    store: &mut T,
    page: &mut Vec<u8, A>,
    more: usize,
) -> Result<(), DeviceFailed>
    requires countable { T.failures store.old < u64.MAX }
    requires fits { T.faithful store.old → length (T.text store.old) + length page.old.items ≤ T.room store.old }
    requires room { more ≤ vec_capacity page.old }
    ensures ok { T.faithful store.old → OnOk result (IsPaged page.old.items (T.text store.old) (T.text store.new) page.new.items) }
    ensures fault { T.faithful store.old → OnErr result (IsPartlyAppended page.old.items (T.text store.old) (T.text store.new)) }
    ensures fades { T.faithful store.old → FadesBehind (T.text store.old) page.old.items (T.survives store.old) (T.survives store.new) }
    ensures free { OnOk result (length page.new.items + more ≤ vec_capacity page.new) }
    ensures room { vec_capacity page.old ≤ vec_capacity page.new }
    ensures goes_on { GoesOn T.faithful T.room T.failures (is_err result) store.old store.new }
{
    if more > page.capacity() - page.len() {
        append_page(store, page)?;
    }
    Ok(())
}

/// Puts bytes behind those that wait in the page. Where it has no room for them, it is appended first.
pub fn put_bytes<T: TextStore, A: Allocator>(
    store: &mut T,
    page: &mut Vec<u8, A>,
    bytes: &[u8],
) -> Result<(), DeviceFailed>
    requires countable { T.failures store.old < u64.MAX }
    requires fits { T.faithful store.old → length (T.text store.old) + length page.old.items ≤ T.room store.old }
    requires room { length bytes.now ≤ vec_capacity page.old }
    ensures ok { T.faithful store.old → OnOk result (IsPaged (page.old.items ++ bytes.now) (T.text store.old) (T.text store.new) page.new.items) }
    ensures fault { T.faithful store.old → OnErr result (IsPartlyAppended (page.old.items ++ bytes.now) (T.text store.old) (T.text store.new)) }
    ensures fades { T.faithful store.old → FadesBehind (T.text store.old) (page.old.items ++ bytes.now) (T.survives store.old) (T.survives store.new) }
    ensures room { vec_capacity page.old ≤ vec_capacity page.new }
    ensures goes_on { GoesOn T.faithful T.room T.failures (is_err result) store.old store.new }
{
    make_room(store, page, bytes.len())?;
    let _ = page.extend_from_slice(bytes);
    Ok(())
}
