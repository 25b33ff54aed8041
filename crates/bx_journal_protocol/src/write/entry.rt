//! The text of an entry, put to a store page by page.
ghost use Rattle.std.specs.Prelude.{◌≡◌, ◌+◌, ◌*◌, ◌<◌, ◌≤◌, ◌^◌, ◌++◌, [], length, vec_capacity, OnOk, OnErr, is_err};
ghost use Rattle.bx_image.specs.Change.{AllWithin};
ghost use Rattle.bx_image.specs.Device.{GoesOn};
ghost use Rattle.bx_image.specs.Image.{end_of};
ghost use Rattle.bx_journal_store.specs.Store.{IsPartlyAppended};
ghost use Rattle.bx_journal_format.specs.Kept.{kept_of};
ghost use Rattle.bx_journal_format.specs.Entry.{head_text};
ghost use Rattle.bx_journal_protocol.specs.write.Page.{FadesWith, IsPaged, row_text, run_text, runs_text};
ghost use Rattle.bx_journal_format.specs.Text.{ended};

use crate::write::page::{append_page, make_room, put_bytes};
use bx_image::{DeviceFailed, Saved};
use bx_journal_format::{Words, push_full_row, push_rows, row_of, save_text, start_words};
use bx_journal_store::TextStore;
use bx_text::Piece;
use std::alloc::Allocator;

/// Appends the text of an entry up to and with its save line, page by page. The page is empty before it.
pub fn put_head<T: TextStore, A: Allocator>(
    store: &mut T,
    page: &mut Vec<u8, A>,
    number: u32,
    kept: &Saved<A>,
) -> Result<(), DeviceFailed>
    requires countable { T.failures store.old < u64.MAX }
    requires within { AllWithin kept.now.len kept.now.runs }
    requires fits { T.faithful store.old → length (T.text store.old) + length (head_text number (kept_of kept.now)) ≤ T.room store.old }
    requires empty { page.old.items ≡ [] }
    requires room { 82 ≤ vec_capacity page.old }
    ensures ok { T.faithful store.old → OnOk result (T.text store.new ≡ T.text store.old ++ head_text number (kept_of kept.now)) }
    ensures fault { T.faithful store.old → OnErr result (IsPartlyAppended (head_text number (kept_of kept.now)) (T.text store.old) (T.text store.new)) }
    ensures fades { FadesWith T.TextStore store.old (head_text number (kept_of kept.now)) store.new }
    ensures emptied { OnOk result (page.new.items ≡ []) }
    ensures page_room { vec_capacity page.old ≤ vec_capacity page.new }
    ensures goes_on { GoesOn T.faithful T.room T.failures (is_err result) store.old store.new }
{
    put_words(store, page, start_words(number, kept.len))?;
    put_runs(store, page, kept)?;
    put_words(store, page, save_text(number))?;
    append_page(store, page)
}

/// Puts a line with its newline.
pub fn put_words<T: TextStore, A: Allocator>(
    store: &mut T,
    page: &mut Vec<u8, A>,
    line: Words,
) -> Result<(), DeviceFailed>
    requires countable { T.failures store.old < u64.MAX }
    requires fits { T.faithful store.old → length (T.text store.old) + length page.old.items ≤ T.room store.old }
    requires room { 82 ≤ vec_capacity page.old }
    requires short { length line < 34 }
    ensures ok { T.faithful store.old → OnOk result (IsPaged (page.old.items ++ ended line) (T.text store.old) (T.text store.new) page.new.items) }
    ensures fault { T.faithful store.old → OnErr result (IsPartlyAppended (page.old.items ++ ended line) (T.text store.old) (T.text store.new)) }
    ensures fades { FadesWith T.TextStore store.old (page.old.items ++ ended line) store.new }
    ensures room { vec_capacity page.old ≤ vec_capacity page.new }
    ensures goes_on { GoesOn T.faithful T.room T.failures (is_err result) store.old store.new }
{
    let mut line = line;
    line.push(b'\n');
    put_bytes(store, page, line.as_bytes())
}

/// Puts the saved lines of each run.
fn put_runs<T: TextStore, A: Allocator>(
    store: &mut T,
    page: &mut Vec<u8, A>,
    kept: &Saved<A>,
) -> Result<(), DeviceFailed>
    requires countable { T.failures store.old < u64.MAX }
    requires within { AllWithin kept.now.len kept.now.runs }
    requires fits { T.faithful store.old → length (T.text store.old) + length page.old.items + length (runs_text kept.now.runs) ≤ T.room store.old }
    requires room { 82 ≤ vec_capacity page.old }
    ensures ok { T.faithful store.old → OnOk result (IsPaged (page.old.items ++ runs_text kept.now.runs) (T.text store.old) (T.text store.new) page.new.items) }
    ensures fault { T.faithful store.old → OnErr result (IsPartlyAppended (page.old.items ++ runs_text kept.now.runs) (T.text store.old) (T.text store.new)) }
    ensures fades { FadesWith T.TextStore store.old (page.old.items ++ runs_text kept.now.runs) store.new }
    ensures room { vec_capacity page.old ≤ vec_capacity page.new }
    ensures goes_on { GoesOn T.faithful T.room T.failures (is_err result) store.old store.new }
{
    // (that this is a u64 bounds where each run ends)
    let _within_u64 = kept.len;
    for run in kept.runs.as_slice() {
        put_run(store, page, run)?;
    }
    Ok(())
}

/// Puts the saved lines of a run: 16 bytes on each, the last perhaps fewer.
fn put_run<T: TextStore, A: Allocator>(
    store: &mut T,
    page: &mut Vec<u8, A>,
    run: &Piece<A>,
) -> Result<(), DeviceFailed>
    requires countable { T.failures store.old < u64.MAX }
    requires within { end_of run.now.at run.now.bytes < 2 ^ 64 }
    requires fits { T.faithful store.old → length (T.text store.old) + length page.old.items + length (run_text run.now) ≤ T.room store.old }
    requires room { 82 ≤ vec_capacity page.old }
    ensures ok { T.faithful store.old → OnOk result (IsPaged (page.old.items ++ run_text run.now) (T.text store.old) (T.text store.new) page.new.items) }
    ensures fault { T.faithful store.old → OnErr result (IsPartlyAppended (page.old.items ++ run_text run.now) (T.text store.old) (T.text store.new)) }
    ensures fades { FadesWith T.TextStore store.old (page.old.items ++ run_text run.now) store.new }
    ensures room { vec_capacity page.old ≤ vec_capacity page.new }
    ensures goes_on { GoesOn T.faithful T.room T.failures (is_err result) store.old store.new }
{
    let bytes = run.bytes.as_slice();
    let count = (bytes.len() + 15) / 16;
    let mut k = 0;
    while k < count {
        let more = push_rows(page, run.at, bytes, k);
        let from = 16 * (k + more);
        let to = (from + 16).min(bytes.len());
        put_row(store, page, run.at + from as u64, &bytes[from..to])?;
        k = k + more + 1;
    }
    Ok(())
}

/// Puts a saved line of at most 16 bytes.
fn put_row<T: TextStore, A: Allocator>(
    store: &mut T,
    page: &mut Vec<u8, A>,
    at: u64,
    bytes: &[u8],
) -> Result<(), DeviceFailed>
    requires countable { T.failures store.old < u64.MAX }
    requires some { 0 < length bytes.now }
    requires few { length bytes.now ≤ 16 }
    requires fits { T.faithful store.old → length (T.text store.old) + length page.old.items ≤ T.room store.old }
    requires room { 82 ≤ vec_capacity page.old }
    ensures ok { T.faithful store.old → OnOk result (IsPaged (page.old.items ++ row_text at bytes.now) (T.text store.old) (T.text store.new) page.new.items) }
    ensures fault { T.faithful store.old → OnErr result (IsPartlyAppended (page.old.items ++ row_text at bytes.now) (T.text store.old) (T.text store.new)) }
    ensures fades { FadesWith T.TextStore store.old (page.old.items ++ row_text at bytes.now) store.new }
    ensures room { vec_capacity page.old ≤ vec_capacity page.new }
    ensures goes_on { GoesOn T.faithful T.room T.failures (is_err result) store.old store.new }
{
    if at > u32::MAX as u64 {
        return put_bytes(store, page, row_of(at, bytes).as_bytes());
    }
    match bytes.as_array::<16>() {
        Some(full) => put_full_row(store, page, at as u32, full),
        None => put_bytes(store, page, row_of(at, bytes).as_bytes()),
    }
}

/// Puts a saved line of 16 bytes at an address of 8 digits.
fn put_full_row<T: TextStore, A: Allocator>(
    store: &mut T,
    page: &mut Vec<u8, A>,
    at: u32,
    bytes: &[u8; 16],
) -> Result<(), DeviceFailed>
    requires countable { T.failures store.old < u64.MAX }
    requires fits { T.faithful store.old → length (T.text store.old) + length page.old.items ≤ T.room store.old }
    requires room { 82 ≤ vec_capacity page.old }
    ensures ok { T.faithful store.old → OnOk result (IsPaged (page.old.items ++ row_text at bytes.now) (T.text store.old) (T.text store.new) page.new.items) }
    ensures fault { T.faithful store.old → OnErr result (IsPartlyAppended (page.old.items ++ row_text at bytes.now) (T.text store.old) (T.text store.new)) }
    ensures fades { FadesWith T.TextStore store.old (page.old.items ++ row_text at bytes.now) store.new }
    ensures room { vec_capacity page.old ≤ vec_capacity page.new }
    ensures goes_on { GoesOn T.faithful T.room T.failures (is_err result) store.old store.new }
{
    make_room(store, page, 68)?;
    push_full_row(page, at, bytes);
    Ok(())
}
