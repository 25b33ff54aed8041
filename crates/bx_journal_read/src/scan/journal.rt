//! What reading a journal finds when a pair is opened for recovery.
ghost use Rattle.std.specs.Prelude.{◌≡◌, ◌^◌, ◌<◌, ◌≤◌, List, ℕ, length, is_err, IfOk, IfSome, IfNone};
ghost use Rattle.bx_journal_format.specs.Shown.{shown};
ghost use Rattle.bx_journal_format.specs.read.Journal.{HasRead};
ghost use Rattle.bx_journal_format.specs.count.Tally.{IsCounted};

use crate::scan::count::{ALL, walk_windows};
use crate::scan::damage::text_damage;
use crate::scan::torn::{Torn, find_faded, find_torn};
use crate::scan::whole::read_journal;
use bx_image::DeviceFailed;
use bx_journal_format::{Counted, JournalRead, StageRead, counted_by, shown_len, told_length};
use bx_journal_model::{Mark, SessionFault, WINDOW, of_text, start_size};
use bx_journal_store::TextStore;
use std::alloc::Allocator;

/// What a journal's text is.
#[derive(Clone, Copy)]
pub enum Found {
    /// Finished entries alone, which were counted.
    Finished(Counted),
    /// Anything else that is accepted: something is to be cut off or taken back.
    Unfinished(Torn),
}

/// The count of what was read in the front of a text of `len` bytes, where it is finished entries alone and all of the text.
fn as_counted<A: Allocator>(journal: &JournalRead<A>, len: u64) -> Option<Counted>
    requires few { length journal.now.entries.items ≤ 65535 }
    ensures some { (text : List ℕ) → HasRead text journal.now → length text ≤ len → IfSome result (λ c. IsCounted text c.count c.told) }
    ensures whole { (text : List ℕ) → HasRead text journal.now → length text ≤ len → IfSome result (λ c. len ≡ length text) }
    ensures few { IfSome result (λ c. c.count ≤ 65535) }
    ensures none { IfNone result (journal.now.stage ≡ StageRead.Between → journal.now.whole ≡ len → ⊥) }
{
    match &journal.stage {
        StageRead::Between => {
            if journal.whole != len {
                return None;
            }
            Some(Counted {
                count: journal.entries.len() as u32,
                told: told_length(&journal.entries),
            })
        }
        StageRead::Saving { .. } => None,
        StageRead::Ending { .. } => None,
    }
}

ghost use Rattle.bx_journal_model.specs.Looking.{LooksThrough, OnlyReadsText};
ghost use Rattle.bx_journal_read.specs.scan.Recovery.{FindsText, IsFoundIn, IsTorn};
ghost use Rattle.bx_journal_format.specs.Parsed.{reading_of};

/// What is unfinished in a text that was read.
fn as_torn<A: Allocator>(journal: &JournalRead<A>) -> Torn
    requires read { (text : List ℕ) × HasRead text journal.now × (length text < 2 ^ 64) }
    ensures torn { (text : List ℕ) → HasRead text journal.now → IsTorn text (reading_of journal.now.entries.items journal.now.stage) result }
    ensures few { result.count ≤ 65535 }
    ensures order { IfSome result.mark (λ m. m.lines ≤ m.saved) }
{
    let count = journal.entries.len() as u32;
    let told = told_length(&journal.entries);
    match &journal.stage {
        StageRead::Between => Torn {
            count,
            told,
            begins: journal.whole,
            mark: None,
        },
        StageRead::Saving { begins, .. } => Torn {
            count,
            told,
            begins: *begins,
            mark: None,
        },
        StageRead::Ending {
            version,
            kept,
            begins,
            saved,
        } => Torn {
            count,
            told,
            begins: *begins,
            mark: Some(Mark {
                lines: *begins + start_size(*version) + 1,
                saved: *saved,
                len: kept.len,
            }),
        },
    }
}

/// What is read of a text.
fn as_shown<A: Allocator>(bytes: Vec<u8, A>) -> Vec<u8, A>
    ensures { result.items ≡ shown bytes.items }
{
    let mut front = bytes;
    let n = shown_len(&front);
    front.truncate(n);
    front
}

/// Reads all of a journal's text, but for what a loss of power left without its bytes. It changes nothing.
fn read_whole<T: TextStore, A: Allocator + Clone>(
    alloc: &A,
    store: &mut T,
) -> Result<Found, SessionFault>
    requires { T.failures store.old < u64.MAX }
    ensures { FindsText T.TextStore result store.old store.new }
{
    let bytes = match store.read_all(alloc.clone()?) {
        Ok(bytes) => bytes,
        Err(fault) => return Err(of_text(fault)),
    };
    let len = bytes.len() as u64;
    let journal = match read_journal(alloc, as_shown(bytes)) {
        Ok(journal) => journal,
        Err(fault) => return Err(fault),
    };
    match as_counted(&journal, len) {
        Some(counted) => Ok(Found::Finished(counted)),
        None => Ok(Found::Unfinished(as_torn(&journal))),
    }
}

/// What a text of `len` bytes is, where no zero is in what is unfinished: found a window at a time, and nothing of it is kept. It answers none
/// where that can't be found so.
fn find_plain<T: TextStore>(
    store: &mut T,
    window: &mut [u8],
    len: u64,
) -> Result<Option<Found>, DeviceFailed>
    requires countable { T.failures store.old < u64.MAX }
    requires long { T.faithful store.old → len ≡ length (T.text store.old) }
    ensures found { IfOk result (λ found. IfSome found (IsFoundIn (T.faithful store.old) (T.text store.old))) }
    ensures window { length window.new ≡ length window.old }
    ensures reads { OnlyReadsText T.TextStore (is_err result) store.old store.new }
{
    let walked = walk_windows(store, window, len, false, ALL)?;
    let Some(walk) = walked else {
        return Ok(None);
    };
    if walk.at == len {
        if let Some(counted) = counted_by(walk.tally) {
            return Ok(Some(Found::Finished(counted)));
        }
    }
    if window.is_empty() {
        return Ok(None);
    }
    let found = find_torn(store, window, len, walk)?;
    let Some(torn) = found else {
        return Ok(None);
    };
    Ok(Some(Found::Unfinished(torn)))
}

/// What a text of `len` bytes is, found a window at a time: nothing of it is kept. It answers none where that can't be found so.
fn find_in<T: TextStore>(
    store: &mut T,
    window: &mut [u8],
    len: u64,
) -> Result<Option<Found>, DeviceFailed>
    requires countable { T.failures store.old < u64.MAX }
    requires long { T.faithful store.old → len ≡ length (T.text store.old) }
    ensures found { IfOk result (λ found. IfSome found (IsFoundIn (T.faithful store.old) (T.text store.old))) }
    ensures reads { OnlyReadsText T.TextStore (is_err result) store.old store.new }
{
    let plain = find_plain(store, window, len)?;
    if let Some(found) = plain {
        return Ok(Some(found));
    }
    if window.is_empty() {
        return Ok(None);
    }
    let faded = find_faded(store, window, len)?;
    let Some(torn) = faded else {
        return Ok(None);
    };
    Ok(Some(Found::Unfinished(torn)))
}

/// What a text is, found in as much memory for any length. It answers none where it can't be found so, as where the text is damaged.
fn find_text<T: TextStore, A: Allocator + Clone>(
    alloc: &A,
    store: &mut T,
) -> Result<Option<Found>, SessionFault>
    requires { T.failures store.old < u64.MAX }
    ensures found { IfOk result (λ found. IfSome found (IsFoundIn (T.faithful store.old) (T.text store.old))) }
    ensures reads { LooksThrough T.TextStore result store.old store.new }
{
    let len = store.len()?;
    let size = WINDOW.min(len) as usize;
    let mut window = vec![in alloc.clone()?; 0u8; size]?;
    let found = find_in(store, window.as_mut_slice(), len)?;
    Ok(found)
}

/// Reads a journal's text that wasn't found in windows: the line at which it is damaged is, and only what isn't found so is read whole.
fn read_unfound<T: TextStore, A: Allocator + Clone>(
    alloc: &A,
    store: &mut T,
) -> Result<Found, SessionFault>
    requires { T.failures store.old < u64.MAX }
    ensures { FindsText T.TextStore result store.old store.new }
{
    let damage = match text_damage(alloc, store, true) {
        Ok(damage) => damage,
        Err(fault) => return Err(fault),
    };
    match damage {
        Some(line) => Err(SessionFault::Damaged { line }),
        None => read_whole(alloc, store),
    }
}

/// Reads a journal's text. It changes nothing. What the text is, or where it is damaged, is found a window at a time, and only what isn't found
/// so is read whole.
pub fn read_text<T: TextStore, A: Allocator + Clone>(
    alloc: &A,
    store: &mut T,
) -> Result<Found, SessionFault>
    requires { T.failures store.old < u64.MAX }
    ensures { FindsText T.TextStore result store.old store.new }
{
    let found = match find_text(alloc, store) {
        Ok(found) => found,
        Err(fault) => return Err(fault),
    };
    match found {
        Some(what) => Ok(what),
        None => read_unfound(alloc, store),
    }
}
