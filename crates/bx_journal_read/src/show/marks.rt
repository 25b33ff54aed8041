//! The marks of a text's entries, from a text that is read in windows.
ghost use Rattle.std.specs.Prelude.{◌≡◌, ◌<◌, ◌≤◌, length, true, IfOk, IfErr, IfSome};
ghost use Rattle.bx_journal_format.specs.count.Marks.{IsMarked};
ghost use Rattle.bx_image.specs.Power.{NoMore};
ghost use Rattle.bx_journal_model.specs.Looking.{LooksAt};
ghost use Rattle.bx_journal_model.specs.Fault.{LacksOrFails};
ghost use Rattle.bx_journal_read.specs.show.Showing.{AreAllMarks, AreMarksOf, FindsMarks};

use crate::{Scan, Taken, read_text, scan_windows};
use bx_journal_format::{Mark, Marking, Place, mark_lines, mark_long, nothing_marked};
use bx_journal_model::{SessionFault, WINDOW};
use bx_journal_store::TextStore;
use bx_text::NoMemory;
use std::alloc::{Allocator, Global};

/// The marks of a text's lines so far, and where they lead.
#[derive(Drop)]
pub struct MarkScan<A: Allocator = Global> {
    pub marks: Vec<Mark, A>,
    pub marking: Marking,
}

impl<A: Allocator> Scan for MarkScan<A> {
    ghost Leads = { λ first now text. IsMarked text now.marking now.marks.items };

    fn take_lines(
        self,
        at: u64,
        _left: u64,
        window: &mut [u8],
    ) -> Result<Option<Taken<MarkScan<A>>>, NoMemory> {
        let MarkScan { mut marks, marking } = self;
        let Some(lines) = mark_lines(&mut marks, marking, at, window)? else {
            return Ok(None);
        };
        Ok(Some(Taken {
            scan: MarkScan {
                marks,
                marking: lines.marking,
            },
            taken: lines.taken,
        }))
    }

    fn take_long(
        self,
        at: u64,
        size: u64,
        line: &[u8],
    ) -> Result<Option<Taken<MarkScan<A>>>, NoMemory> {
        let MarkScan { marks, marking } = self;
        let Some(next) = mark_long(marking, line, at + size + 1) else {
            return Ok(None);
        };
        Ok(Some(Taken {
            scan: MarkScan {
                marks,
                marking: next,
            },
            taken: line.len(),
        }))
    }

    ghost whole = { λ first now text h. h.whole };
}

/// Whether a text stands between two entries.
fn is_between(marking: Marking) -> bool
    ensures { result ≡ true → marking.sums.tally.place ≡ Place.Between }
{
    match marking.sums.tally.place {
        Place::Between => true,
        Place::Saving { .. } => false,
        Place::Ending { .. } => false,
    }
}

/// The marks of the entries that are the first `len` bytes of a text. It answers none where these are anything but finished
/// entries.
pub fn marks_to<T: TextStore, A: Allocator + Clone>(
    alloc: &A,
    store: &mut T,
    len: u64,
) -> Result<Option<Vec<Mark, A>>, SessionFault>
    requires countable { T.failures store.old < u64.MAX }
    requires long { T.faithful store.old → len ≤ length (T.text store.old) }
    ensures marks { IfOk result (λ found. IfSome found (λ marks. AreMarksOf (T.faithful store.old) (T.text store.old) len marks.items)) }
    ensures fault { IfErr result LacksOrFails }
    ensures looks { LooksAt T.faithful T.text T.failures result store.old store.new }
    ensures survives { T.faithful store.old → NoMore (T.survives store.old) (T.survives store.new) }
{
    let size = WINDOW.min(len) as usize;
    let mut window = vec![in alloc.clone()?; 0u8; size]?;
    let scan = MarkScan {
        marks: Vec::new(alloc.clone()?),
        marking: nothing_marked(),
    };
    let found = scan_windows(store, window.as_mut_slice(), scan, 0, len)??;
    let Some(end) = found else {
        return Ok(None);
    };
    if end.at < len {
        return Ok(None);
    }
    if !is_between(end.scan.marking) {
        return Ok(None);
    }
    Ok(Some(end.scan.marks))
}

/// The marks of the entries of a text, in as much memory beside them for any length. It answers none where the text is
/// anything but finished entries.
pub fn marks_in_windows<T: TextStore, A: Allocator + Clone>(
    alloc: &A,
    store: &mut T,
) -> Result<Option<Vec<Mark, A>>, SessionFault>
    requires { T.failures store.old < u64.MAX }
    ensures marks { IfOk result (λ found. IfSome found (λ marks. AreAllMarks (T.faithful store.old) (T.text store.old) marks.items)) }
    ensures fault { IfErr result LacksOrFails }
    ensures looks { LooksAt T.faithful T.text T.failures result store.old store.new }
    ensures survives { T.faithful store.old → NoMore (T.survives store.old) (T.survives store.new) }
{
    let len = store.len()?;
    let found = marks_to(alloc, store, len)?;
    Ok(found)
}

/// Why a text can't be marked: as opening reads it.
fn refuse_marks<T: TextStore, A: Allocator + Clone>(
    alloc: &A,
    store: &mut T,
) -> Result<Vec<Mark, A>, SessionFault>
    requires { T.failures store.old < u64.MAX }
    ensures { FindsMarks T.faithful T.text T.survives T.failures result store.old store.new }
{
    match read_text(alloc, store) {
        Ok(_) => Err(SessionFault::NoMemory),
        Err(fault) => Err(fault),
    }
}

/// The marks of the entries of a text that is to be finished entries alone. It changes nothing.
pub fn all_marks<T: TextStore, A: Allocator + Clone>(
    alloc: &A,
    store: &mut T,
) -> Result<Vec<Mark, A>, SessionFault>
    requires { T.failures store.old < u64.MAX }
    ensures { FindsMarks T.faithful T.text T.survives T.failures result store.old store.new }
{
    let found = match marks_in_windows(alloc, store) {
        Ok(found) => found,
        Err(fault) => return Err(fault),
    };
    match found {
        Some(marks) => Ok(marks),
        None => refuse_marks(alloc, store),
    }
}
