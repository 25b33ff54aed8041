//! The rows of a log, from a text that is read in windows.
ghost use Rattle.std.specs.Prelude.{◌≡◌, ◌<◌, ◌++◌, true, OnOk, IfOk, IfErr, IfSome};
ghost use Rattle.bx_image.specs.Power.{NoMore};
ghost use Rattle.bx_journal_model.specs.Looking.{LooksAt};
ghost use Rattle.bx_journal_model.specs.Fault.{LacksOrFails};
ghost use Rattle.bx_journal.specs.private.Rows.{AreRowsOf, IsListed, IsListedIn, ended_row};

use bx_journal_format::{
    ENDED, Place, Summed, full_behind, next_end, nothing_summed, sum_full, sum_one,
};
use bx_journal_model::{LogRow, SessionFault, WINDOW};
use bx_journal_read::{Scan, Taken, scan_windows};
use bx_journal_store::TextStore;
use bx_text::NoMemory;
use std::alloc::{Allocator, Global};

/// Where the whole lines of a window lead, and how many bytes they have.
#[derive(Clone, Copy)]
pub struct Listed {
    pub sums: Summed,
    pub taken: usize,
}

/// Adds the row of the entry that the last line ended, if it ended one.
fn push_ended<A: Allocator>(rows: &mut Vec<LogRow, A>, sums: Summed) -> Result<(), NoMemory>
    ensures { OnOk result (rows.new.items ≡ rows.old.items ++ ended_row sums.tally.place sums) }
{
    match sums.tally.place {
        Place::Between => {
            let row = LogRow {
                number: sums.tally.count,
                old_len: sums.len,
                saved: sums.saved,
            };
            if rows.push(row).is_err() {
                return Err(NoMemory);
            }
            Ok(())
        }
        Place::Saving { .. } => Ok(()),
        Place::Ending { .. } => Ok(()),
    }
}

/// Adds the rows of the whole lines at the start of a window. It answers none where a line isn't in place.
fn list_lines<A: Allocator>(
    rows: &mut Vec<LogRow, A>,
    from: Summed,
    window: &[u8],
) -> Result<Option<Listed>, NoMemory>
    ensures { IfOk result (λ found. IfSome found (IsListedIn window.now from rows.old.items rows.new.items)) }
{
    let mut sums = from;
    let mut taken: usize = 0;
    let mut rest = window;
    while let Some(i) = next_end(sums.tally.place, rest) {
        let Some(next) = sum_one(sums, &rest[..i]) else {
            return Ok(None);
        };
        push_ended(rows, next)?;
        let (_, behind) = rest.split_at(i + 1);
        let full = full_behind(next.tally.place, behind);
        let Some(all) = sum_full(next, full) else {
            return Ok(None);
        };
        let (_, left) = behind.split_at(ENDED * full);
        sums = all;
        rest = left;
        taken += i + 1 + ENDED * full;
    }
    Ok(Some(Listed { sums, taken }))
}

/// The rows of a text's lines so far, and what is summed of them.
#[derive(Drop)]
pub struct RowScan<A: Allocator = Global> {
    pub rows: Vec<LogRow, A>,
    pub sums: Summed,
}

impl<A: Allocator> Scan for RowScan<A> {
    ghost Leads = { λ first now text. IsListed text now.sums now.rows.items };

    fn take_lines(
        self,
        _at: u64,
        _left: u64,
        window: &mut [u8],
    ) -> Result<Option<Taken<RowScan<A>>>, NoMemory> {
        let RowScan { mut rows, sums } = self;
        let Some(listed) = list_lines(&mut rows, sums, window)? else {
            return Ok(None);
        };
        Ok(Some(Taken {
            scan: RowScan {
                rows,
                sums: listed.sums,
            },
            taken: listed.taken,
        }))
    }

    fn take_long(
        self,
        _at: u64,
        _size: u64,
        line: &[u8],
    ) -> Result<Option<Taken<RowScan<A>>>, NoMemory> {
        let RowScan { mut rows, sums } = self;
        let Some(next) = sum_one(sums, line) else {
            return Ok(None);
        };
        push_ended(&mut rows, next)?;
        Ok(Some(Taken {
            scan: RowScan { rows, sums: next },
            taken: line.len(),
        }))
    }

    ghost whole = { λ first now text h. h.whole };
}

/// Whether these are the sums of `count` entries, and none is unfinished.
fn are_all(sums: Summed, count: u32) -> bool
    ensures { result ≡ true → (sums.tally.place ≡ Place.Between) × (sums.tally.count ≡ count) }
{
    match sums.tally.place {
        Place::Between => sums.tally.count == count,
        Place::Saving { .. } => false,
        Place::Ending { .. } => false,
    }
}

/// The rows of a text, in as much memory beside them for any length. It answers none where the text is anything but `count` finished
/// entries.
pub fn rows_in_windows<T: TextStore, A: Allocator + Clone>(
    alloc: &A,
    journal: &mut T,
    count: u32,
) -> Result<Option<Vec<LogRow, A>>, SessionFault>
    requires { T.failures journal.old < u64.MAX }
    ensures rows { IfOk result (λ found. IfSome found (λ rows. AreRowsOf (T.faithful journal.old) (T.text journal.old) rows.items count)) }
    ensures fault { IfErr result LacksOrFails }
    ensures looks { LooksAt T.faithful T.text T.failures result journal.old journal.new }
    ensures survives { T.faithful journal.old → NoMore (T.survives journal.old) (T.survives journal.new) }
{
    let len = journal.len()?;
    let size = WINDOW.min(len) as usize;
    let mut window = vec![in alloc.clone()?; 0u8; size]?;
    let scan = RowScan {
        rows: Vec::new(alloc.clone()?),
        sums: nothing_summed(),
    };
    let found = scan_windows(journal, window.as_mut_slice(), scan, 0, len)??;
    let Some(end) = found else {
        return Ok(None);
    };
    if end.at < len {
        return Ok(None);
    }
    if !are_all(end.scan.sums, count) {
        return Ok(None);
    }
    Ok(Some(end.scan.rows))
}
