//! The journal of an open session, read once more: all of it, or its last entries alone.
ghost use Rattle.std.specs.Prelude.{◌≡◌, ◌<◌, ◌≤◌, List, ℕ, false, length, take, IfOk, IfErr, IfSome, IfNone};
ghost use Rattle.bx_image.specs.Power.{NoMore};
ghost use Rattle.bx_journal_format.specs.Text.{Entry};
ghost use Rattle.bx_journal_format.specs.read.Journal.{HasRead};
ghost use Rattle.bx_journal_format.specs.read.Lines.{IsReadUpTo};
ghost use Rattle.bx_journal_model.specs.Looking.{LooksAt, LooksThrough};
ghost use Rattle.bx_journal_model.specs.Undoing.{AgainFault, HasCount, IsLastFrom};
ghost use Rattle.bx_journal_read.specs.scan.Entries.{FindsLast, IsReadAgain, IsReadBehind, IsReadFrom, LooksForLast, read_whole};
ghost use Rattle.bx_journal_read.specs.scan.Windows.{IsFrontCounted};

use crate::scan::count::count_front;
use crate::scan::whole::read_journal;
use crate::scan::windows::{Scan, Taken, scan_windows};
use bx_journal_format::{
    EntryRead, Front, JournalRead, LinesRead, StageRead, nothing_read, read_lines, read_long,
};
use bx_journal_model::{FinishedRead, SessionFault, WINDOW, of_text};
use bx_journal_store::TextStore;
use bx_text::NoMemory;
use std::alloc::{Allocator, Global};

/// What was read in a text of `len` bytes, where it is `count` finished entries alone.
fn finished<A: Allocator>(len: u64, journal: JournalRead<A>, count: u32) -> Option<FinishedRead<A>>
    ensures some { (text : List ℕ) → HasRead text journal → len ≡ length text → IfSome result (λ o. IsReadAgain text o.entries.items count) }
    ensures len { IfSome result (λ o. o.len ≡ len) }
    ensures none { (text : List ℕ) → HasRead text journal → len ≡ length text → IfNone result (HasCount text count → ⊥) }
{
    let JournalRead {
        entries,
        stage,
        whole,
    } = journal;
    match stage {
        StageRead::Between => {
            if whole != len {
                return None;
            }
            if entries.len() != count as usize {
                return None;
            }
            Some(FinishedRead { len, entries })
        }
        StageRead::Saving { .. } => None,
        StageRead::Ending { .. } => None,
    }
}

/// Reads a text that is to be `count` finished entries alone. It changes nothing.
pub fn read_again<T: TextStore, A: Allocator + Clone>(
    alloc: &A,
    store: &mut T,
    count: u32,
) -> Result<FinishedRead<A>, SessionFault>
    requires { T.failures store.old < u64.MAX }
    ensures read { IfOk result (λ o. IsReadFrom (T.faithful store.old) (T.text store.old) o.len o.entries.items count) }
    ensures fault { IfErr result (AgainFault (T.faithful store.old) (T.text store.old) count) }
    ensures looks { LooksAt T.faithful T.text T.failures result store.old store.new }
    ensures survives { T.faithful store.old → NoMore (T.survives store.old) (T.survives store.new) }
{
    let bytes = match store.read_all(alloc.clone()?) {
        Ok(bytes) => bytes,
        Err(fault) => return Err(of_text(fault)),
    };
    let len = bytes.len() as u64;
    let journal = match read_journal(alloc, bytes) {
        Ok(journal) => journal,
        Err(fault) => return Err(fault),
    };
    match finished(len, journal, count) {
        Some(read) => Ok(read),
        None => Err(SessionFault::Damaged { line: 1 }),
    }
}

/// What is read behind a front.
#[derive(Drop)]
pub struct EntryScan<'a, A: Allocator = Global> {
    pub alloc: &'a A,
    pub front: Front,
    pub read: LinesRead<A>,
}

impl<'a, A: Allocator + Clone> Scan for EntryScan<'a, A> {
    ghost Leads = { λ first now text. (older : List Entry) × IsReadUpTo text older first.front now.read × (now.front ≡ first.front) };

    fn take_lines(
        self,
        at: u64,
        left: u64,
        window: &mut [u8],
    ) -> Result<Option<Taken<EntryScan<'a, A>>>, NoMemory> {
        let EntryScan { alloc, front, read } = self;
        let Some(next) = read_lines(alloc, front, read, left, window)? else {
            return Ok(None);
        };
        let taken = (next.at - at) as usize;
        Ok(Some(Taken {
            scan: EntryScan {
                alloc,
                front,
                read: next,
            },
            taken,
        }))
    }

    fn take_long(
        self,
        _at: u64,
        size: u64,
        line: &[u8],
    ) -> Result<Option<Taken<EntryScan<'a, A>>>, NoMemory> {
        let EntryScan { alloc, front, read } = self;
        let Some(next) = read_long(alloc, front, read, line, size)? else {
            return Ok(None);
        };
        Ok(Some(Taken {
            scan: EntryScan {
                alloc,
                front,
                read: next,
            },
            taken: line.len(),
        }))
    }

    ghost whole = { λ first now text h. read_whole text h.0 first.front now.read h.1 };
}

/// Reads what stands behind a front in a text of `len` bytes, a window at a time. What is left of a window's last line is
/// read again with the next one. It answers none where a line is out of place.
fn read_windows<T: TextStore, A: Allocator + Clone>(
    alloc: &A,
    store: &mut T,
    window: &mut [u8],
    front: Front,
    len: u64,
) -> Result<Option<LinesRead<A>>, SessionFault>
    requires countable { T.failures store.old < u64.MAX }
    requires within { front.at ≤ len }
    requires long { T.faithful store.old → len ≡ length (T.text store.old) }
    requires front { IsFrontCounted (T.faithful store.old) (T.text store.old) false front }
    ensures read { IfOk result (λ found. IfSome found (IsReadBehind (T.faithful store.old) (T.text store.old) front)) }
    ensures all { IfOk result (λ found. IfSome found (λ r. r.at ≡ len)) }
    ensures reads { LooksThrough T.TextStore result store.old store.new }
{
    let read = nothing_read(alloc, front)?;
    let scan = EntryScan { alloc, front, read };
    let found = scan_windows(store, window, scan, front.at, len)??;
    let Some(end) = found else {
        return Ok(None);
    };
    if end.at < len {
        return Ok(None);
    }
    Ok(Some(end.scan.read))
}

/// What was read behind a front of `first` entries, in a text of `len` bytes, where that is all of its `count` entries, and at
/// least k.
fn last_of<A: Allocator>(
    len: u64,
    first: u32,
    read: LinesRead<A>,
    k: u32,
    count: u32,
) -> Option<FinishedRead<A>>
    ensures some { FindsLast read first len count result }
    ensures len { IfSome result (λ o. o.len ≡ len) }
    ensures few { IfSome result (λ o. k ≤ length o.entries.items) }
{
    let LinesRead { entries, stage, .. } = read;
    match stage {
        StageRead::Between => {
            if first as usize + entries.len() != count as usize {
                return None;
            }
            if entries.len() < k as usize {
                return None;
            }
            Some(FinishedRead { len, entries })
        }
        StageRead::Saving { .. } => None,
        StageRead::Ending { .. } => None,
    }
}

/// Reads what stands behind a front of finished entries in a text of `len` bytes: the last k entries at least, of `count` in
/// all. It takes the memory of their saved bytes, and of a window. It answers none where the text isn't `count` finished
/// entries alone. It changes nothing.
fn read_from<T: TextStore, A: Allocator + Clone>(
    alloc: &A,
    store: &mut T,
    front: Front,
    len: u64,
    k: u32,
    count: u32,
) -> Result<Option<FinishedRead<A>>, SessionFault>
    requires countable { T.failures store.old < u64.MAX }
    requires within { front.at ≤ len }
    requires long { T.faithful store.old → len ≡ length (T.text store.old) }
    requires front { IsFrontCounted (T.faithful store.old) (T.text store.old) false front }
    ensures { LooksForLast T.TextStore count k result store.old store.new }
{
    let size = WINDOW.min(len - front.at) as usize;
    let mut window = vec![in alloc.clone()?; 0u8; size]?;
    let found = read_windows(alloc, store, window.as_mut_slice(), front, len)?;
    let Some(read) = found else {
        return Ok(None);
    };
    Ok(last_of(len, front.count, read, k, count))
}

/// Reads the last k entries of a text that is to be `count` finished entries alone. It answers none where the text isn't
/// that. It changes nothing.
fn find_last<T: TextStore, A: Allocator + Clone>(
    alloc: &A,
    store: &mut T,
    count: u32,
    k: u32,
) -> Result<Option<FinishedRead<A>>, SessionFault>
    requires countable { T.failures store.old < u64.MAX }
    requires few { k ≤ count }
    ensures { LooksForLast T.TextStore count k result store.old store.new }
{
    let len = store.len()?;
    let found = count_front(alloc, store, len, false, count - k)?;
    let Some(front) = found else {
        return Ok(None);
    };
    read_from(alloc, store, front, len, k, count)
}

/// Reads the last k entries of a text that is to be `count` finished entries alone: what it takes of memory is in proportion
/// to their text. Where they can't be found so, all of the text is read, which says where it is damaged. It changes nothing.
pub fn read_last_of<T: TextStore, A: Allocator + Clone>(
    alloc: &A,
    store: &mut T,
    count: u32,
    k: u32,
) -> Result<FinishedRead<A>, SessionFault>
    requires countable { T.failures store.old < u64.MAX }
    requires few { k ≤ count }
    ensures read { IfOk result (λ o. IsLastFrom (T.faithful store.old) (T.text store.old) o.len o.entries.items count) }
    ensures few { IfOk result (λ o. k ≤ length o.entries.items) }
    ensures fault { IfErr result (AgainFault (T.faithful store.old) (T.text store.old) count) }
    ensures looks { LooksAt T.faithful T.text T.failures result store.old store.new }
    ensures survives { T.faithful store.old → NoMore (T.survives store.old) (T.survives store.new) }
{
    let found = match find_last(alloc, store, count, k) {
        Ok(found) => found,
        Err(fault) => return Err(fault),
    };
    match found {
        Some(read) => Ok(read),
        None => read_again(alloc, store, count),
    }
}
