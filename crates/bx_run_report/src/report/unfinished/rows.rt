//! The rows of entries by their marks, with ranges or without.
ghost use Rattle.std.specs.Prelude.{◌≡◌, ◌<◌, ◌≤◌, ◌++◌, ℕ, All, OnOk, IfOk, IfErr, length, string_bytes};
ghost use Rattle.std.specs.Io.KnownBytes.{Appends};
ghost use Rattle.bx_journal_read.specs.show.Stopping.{CountsBytes, StopsPrefix};
ghost use Rattle.bx_journal.specs.Showing.{CountsNone, LiesWithin, LookCounts, PutFault, Stays};
ghost use Rattle.bx_run_report.specs.report.Unfinished.{front_at, ranges_if, row_at, rows_at};

use bx_journal::ShowFault;
use bx_journal_format::Mark;
use bx_journal_model::WINDOW;
use bx_journal_read::{put, put_ranges};
use bx_journal_store::TextStore;
use std::alloc::{AllocError, Global};
use std::fmt::Write as _;
use std::io::Write;

/// A change: its number, the mark of its entry, and whether its ranges are listed.
#[derive(Clone, Copy)]
struct Change {
    number: u64,
    mark: Mark,
    verbose: bool,
}

/// What stands before the ranges in the row of a change.
fn push_row_start(text: &mut String, change: Change) -> Result<(), AllocError>
    ensures { OnOk result (string_bytes text.new ≡ string_bytes text.old ++ front_at change.verbose change.number change.mark) }
{
    let mark = change.mark;
    if !change.verbose {
        return write!(text, "{} {} {}", change.number, mark.len, mark.saved);
    }
    match mark.after {
        Some(after) => write!(
            text,
            "{} {} {} {} ",
            change.number, mark.len, after, mark.saved
        ),
        None => write!(text, "{} {} - {} ", change.number, mark.len, mark.saved),
    }
}

/// Writes what stands before the ranges in the row of a change.
fn put_row_start<O: Write>(
    alloc: Global,
    change: Change,
    written: u64,
    out: &mut O,
) -> Result<u64, ShowFault>
    ensures front { OnOk result (Appends (O.contents out.old) (O.contents out.new) (front_at change.verbose change.number change.mark)) }
    ensures kind { IfErr result PutFault }
    ensures counts { IfErr result CountsNone }
    ensures counted { IfOk result (CountsBytes written (front_at change.verbose change.number change.mark)) }
    ensures stops { IfErr result
        (StopsPrefix written (front_at change.verbose change.number change.mark) (O.contents out.old) (O.contents out.new)) }
{
    let mut front = String::new(alloc);
    push_row_start(&mut front, change)?;
    put(out, written, front.as_bytes())
}

/// Writes the ranges of a change where they are listed, or `-` where it saved no bytes.
fn put_ranges_if<T: TextStore, O: Write>(
    alloc: Global,
    journal: &mut T,
    window: &mut [u8],
    change: Change,
    written: u64,
    out: &mut O,
) -> Result<u64, ShowFault>
    requires countable { T.failures journal.old < u64.MAX }
    requires within { T.faithful journal.old → change.mark.to ≤ length (T.text journal.old) }
    requires order { change.mark.from ≤ change.mark.to }
    ensures put { T.faithful journal.old
        → OnOk result (Appends (O.contents out.old) (O.contents out.new) (ranges_if change.verbose (T.text journal.old) change.mark)) }
    ensures counted { T.faithful journal.old → IfOk result (CountsBytes written (ranges_if change.verbose (T.text journal.old) change.mark)) }
    ensures stops { T.faithful journal.old → IfErr result
        (StopsPrefix written (ranges_if change.verbose (T.text journal.old) change.mark) (O.contents out.old) (O.contents out.new)) }
    ensures kind { IfErr result PutFault }
    ensures stays { Stays T.faithful T.text T.failures result journal.old journal.new }
    ensures counts { IfErr result (λ f. LookCounts f (T.failures journal.old) 0 (T.failures journal.new) 0) }
{
    if !change.verbose {
        return Ok(written);
    }
    if change.mark.saved == 0 {
        return put(out, written, b"-");
    }
    put_ranges(&alloc, journal, window, change.mark, written, out)
}

/// Writes the row of a change.
fn put_listed_row<T: TextStore, O: Write>(
    alloc: Global,
    journal: &mut T,
    window: &mut [u8],
    change: Change,
    written: u64,
    out: &mut O,
) -> Result<u64, ShowFault>
    requires countable { T.failures journal.old < u64.MAX }
    requires within { T.faithful journal.old → change.mark.to ≤ length (T.text journal.old) }
    requires order { change.mark.from ≤ change.mark.to }
    ensures row { T.faithful journal.old → OnOk result
        (Appends (O.contents out.old) (O.contents out.new) (row_at change.verbose (T.text journal.old) change.number change.mark)) }
    ensures counted { T.faithful journal.old
        → IfOk result (CountsBytes written (row_at change.verbose (T.text journal.old) change.number change.mark)) }
    ensures stops { T.faithful journal.old → IfErr result (StopsPrefix written
        (row_at change.verbose (T.text journal.old) change.number change.mark) (O.contents out.old) (O.contents out.new)) }
    ensures kind { IfErr result PutFault }
    ensures stays { Stays T.faithful T.text T.failures result journal.old journal.new }
    ensures counts { IfErr result (λ f. LookCounts f (T.failures journal.old) 0 (T.failures journal.new) 0) }
{
    let front = put_row_start(alloc, change, written, out)?;
    let places = put_ranges_if(alloc, journal, window, change, front, out)?;
    put(out, places, b"\n")
}

/// Writes a row for each mark, in their order, behind `before` bytes.
pub fn put_listed_rows<T: TextStore, O: Write>(
    alloc: Global,
    journal: &mut T,
    marks: &[Mark],
    verbose: bool,
    before: u64,
    out: &mut O,
) -> Result<(), ShowFault>
    requires countable { T.failures journal.old < u64.MAX }
    requires lie { (len : ℕ) × (T.faithful journal.old → len ≤ length (T.text journal.old)) × All (LiesWithin len) marks.now }
    ensures rows { T.faithful journal.old
        → OnOk result (Appends (O.contents out.old) (O.contents out.new) (rows_at verbose (T.text journal.old) 1 marks.now)) }
    ensures stops { T.faithful journal.old → IfErr result
        (StopsPrefix before (rows_at verbose (T.text journal.old) 1 marks.now) (O.contents out.old) (O.contents out.new)) }
    ensures kind { IfErr result PutFault }
    ensures counts { IfErr result (λ f. LookCounts f (T.failures journal.old) 0 (T.failures journal.new) 0) }
{
    let mut window = vec![in alloc; 0u8; WINDOW as usize]?;
    let mut written = before;
    for i in 0..marks.len() {
        let mark = &marks[i];
        let change = Change {
            number: i as u64 + 1,
            mark: *mark,
            verbose,
        };
        written = put_listed_row(alloc, journal, window.as_mut_slice(), change, written, out)?;
    }
    Ok(())
}
