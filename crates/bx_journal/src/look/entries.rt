//! The entries of a text that are marked, a row for each.
ghost use Rattle.std.specs.Prelude.{◌≡◌, ◌<◌, ◌≤◌, ◌++◌, ℕ, All, OnOk, IfOk, IfErr, length, string_bytes};
ghost use Rattle.std.specs.Io.KnownBytes.{Appends};
ghost use Rattle.bx_image.specs.Power.{NoMore};
ghost use Rattle.bx_journal_read.specs.show.Showing.{CountsNone, LiesWithin, LookCounts, PutFault, Stays, mark_row, mark_rows, places_at, row_front};
ghost use Rattle.bx_journal_read.specs.show.Stopping.{CountsBytes, StopsPrefix};

use bx_journal_format::Mark;
use bx_journal_model::WINDOW;
use bx_journal_read::{ShowFault, put, put_ranges};
use bx_journal_store::TextStore;
use std::alloc::{AllocError, Allocator};
use std::fmt::Write as _;
use std::io::Write;

/// What stands before the ranges in the row of a change.
fn push_front<A: Allocator>(text: &mut String<A>, number: u64, mark: Mark) -> Result<(), AllocError>
    ensures { OnOk result (string_bytes text.new ≡ string_bytes text.old ++ row_front number mark) }
{
    match mark.after {
        Some(after) => write!(text, "{} {} {} {} ", number, mark.len, after, mark.saved),
        None => write!(text, "{} {} - {} ", number, mark.len, mark.saved),
    }
}

/// Writes what stands before the ranges in the row of a change.
fn put_front<A: Allocator + Clone, W: Write>(
    alloc: &A,
    number: u64,
    mark: Mark,
    written: u64,
    out: &mut W,
) -> Result<u64, ShowFault>
    ensures front { OnOk result (Appends (W.contents out.old) (W.contents out.new) (row_front number mark)) }
    ensures kind { IfErr result PutFault }
    ensures counts { IfErr result CountsNone }
    ensures counted { IfOk result (CountsBytes written (row_front number mark)) }
    ensures stops { IfErr result (StopsPrefix written (row_front number mark) (W.contents out.old) (W.contents out.new)) }
{
    let mut front = String::new(alloc.clone()?);
    push_front(&mut front, number, mark)?;
    put(out, written, front.as_bytes())
}

/// Writes the ranges of a change, or `-` where it saved no bytes.
fn put_places<T: TextStore, A: Allocator + Clone, W: Write>(
    alloc: &A,
    journal: &mut T,
    window: &mut [u8],
    mark: Mark,
    written: u64,
    out: &mut W,
) -> Result<u64, ShowFault>
    requires countable { T.failures journal.old < u64.MAX }
    requires within { T.faithful journal.old → mark.to ≤ length (T.text journal.old) }
    requires order { mark.from ≤ mark.to }
    ensures put { T.faithful journal.old → OnOk result (Appends (W.contents out.old) (W.contents out.new) (places_at (T.text journal.old) mark)) }
    ensures counted { T.faithful journal.old → IfOk result (CountsBytes written (places_at (T.text journal.old) mark)) }
    ensures stops { T.faithful journal.old → IfErr result
        (StopsPrefix written (places_at (T.text journal.old) mark) (W.contents out.old) (W.contents out.new)) }
    ensures kind { IfErr result PutFault }
    ensures stays { Stays T.faithful T.text T.failures result journal.old journal.new }
    ensures survives { T.faithful journal.old → NoMore (T.survives journal.old) (T.survives journal.new) }
    ensures counts { IfErr result (λ f. LookCounts f (T.failures journal.old) 0 (T.failures journal.new) 0) }
{
    if mark.saved == 0 {
        return put(out, written, b"-");
    }
    put_ranges(alloc, journal, window, mark, written, out)
}

/// A change of a text: its number, and the mark of its entry.
#[derive(Clone, Copy)]
struct Change {
    number: u64,
    mark: Mark,
}

/// Writes the row of a change.
fn put_row<T: TextStore, A: Allocator + Clone, W: Write>(
    alloc: &A,
    journal: &mut T,
    window: &mut [u8],
    change: Change,
    written: u64,
    out: &mut W,
) -> Result<u64, ShowFault>
    requires countable { T.failures journal.old < u64.MAX }
    requires within { T.faithful journal.old → change.mark.to ≤ length (T.text journal.old) }
    requires order { change.mark.from ≤ change.mark.to }
    ensures row { T.faithful journal.old → OnOk result
        (Appends (W.contents out.old) (W.contents out.new) (mark_row (T.text journal.old) change.number change.mark)) }
    ensures counted { T.faithful journal.old → IfOk result (CountsBytes written (mark_row (T.text journal.old) change.number change.mark)) }
    ensures stops { T.faithful journal.old → IfErr result
        (StopsPrefix written (mark_row (T.text journal.old) change.number change.mark) (W.contents out.old) (W.contents out.new)) }
    ensures kind { IfErr result PutFault }
    ensures stays { Stays T.faithful T.text T.failures result journal.old journal.new }
    ensures survives { T.faithful journal.old → NoMore (T.survives journal.old) (T.survives journal.new) }
    ensures counts { IfErr result (λ f. LookCounts f (T.failures journal.old) 0 (T.failures journal.new) 0) }
{
    let front = put_front(alloc, change.number, change.mark, written, out)?;
    let places = put_places(alloc, journal, window, change.mark, front, out)?;
    put(out, places, b"\n")
}

/// Writes a row for each mark, in their order.
pub fn put_rows<T: TextStore, A: Allocator + Clone, W: Write>(
    alloc: &A,
    journal: &mut T,
    marks: &[Mark],
    out: &mut W,
) -> Result<(), ShowFault>
    requires countable { T.failures journal.old < u64.MAX }
    requires lie { (len : ℕ) × (T.faithful journal.old → len ≤ length (T.text journal.old)) × All (LiesWithin len) marks.now }
    ensures rows { T.faithful journal.old → OnOk result (Appends (W.contents out.old) (W.contents out.new) (mark_rows (T.text journal.old) 1 marks.now)) }
    ensures stops { T.faithful journal.old → IfErr result
        (StopsPrefix 0 (mark_rows (T.text journal.old) 1 marks.now) (W.contents out.old) (W.contents out.new)) }
    ensures kind { IfErr result PutFault }
    ensures stays { Stays T.faithful T.text T.failures result journal.old journal.new }
    ensures survives { T.faithful journal.old → NoMore (T.survives journal.old) (T.survives journal.new) }
    ensures counts { IfErr result (λ f. LookCounts f (T.failures journal.old) 0 (T.failures journal.new) 0) }
{
    let mut window = vec![in alloc.clone()?; 0u8; WINDOW as usize]?;
    let mut written: u64 = 0;
    for i in 0..marks.len() {
        let mark = &marks[i];
        let number = i as u64 + 1;
        written = put_row(
            alloc,
            journal,
            window.as_mut_slice(),
            Change {
                number,
                mark: *mark,
            },
            written,
            out,
        )?;
    }
    Ok(())
}
