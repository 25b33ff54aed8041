//! A look at the changes of a text, without a session: nothing is recovered, and the text stays.
ghost use Rattle.std.specs.Prelude.{◌≡◌, ◌<◌, ◌≤◌, ◌++◌, ℕ, All, IsTrue, length, OnOk, IfOk, IfErr, IfSome, IfNone};
ghost use Rattle.bx_image.specs.Power.{NoMore};
ghost use Rattle.bx_journal_read.specs.show.Showing.{RangesOf, StopsLog, StopsRows, LiesWithin, LookCounts, PutFault, Stays};
ghost use Rattle.bx_journal_read.specs.show.ShownSteps.{RefusesSteps, StopsFound, StopsSteps, CannotStep, FindsSteps, IsChecked, IsFoundPut, IsLeftIn, IsSettled, few_that, fault_that, newest_steps, torn_text};
ghost use Rattle.bx_journal_read.specs.show.Stopping.{CountsBytes};
ghost use Rattle.bx_journal.specs.ShownText.{ShowsText, StopsShownPatch};

mod entries;
mod step;

use crate::look::entries::put_rows;
use crate::look::step::{put_last, put_steps};
use bx_image::{Device, DeviceFailed};
use bx_journal_model::{SessionFault, of_redo};
use bx_journal_read::{
    Direction, Marked, ShowFault, Steps, Torn, all_marks, begin_writing, front_marks, line_from,
    put_torn,
};
use bx_journal_store::TextStore;
use std::alloc::Allocator;
use std::io::Write;

/// Writes a line for each change of a text that is finished entries alone, the oldest first: its number, the lengths before
/// and after it, how many bytes were saved, and at which ranges.
///
/// A length after a change that an entry doesn't tell is `-`, and so are the ranges of an entry that saved no bytes. Of memory
/// it takes windows of 256 KiB, and 56 bytes for each entry.
///
/// # Errors
/// `NoMemory`, `DeviceFailed`, and `Damaged` with the line from 1; `WriteFailed` with how many bytes were written.
pub fn log_ranges<T: TextStore, A: Allocator + Clone, W: Write>(
    alloc: &A,
    journal: &mut T,
    out: &mut W,
) -> Result<(), ShowFault>
    requires { T.failures journal.old < u64.MAX }
    ensures rows { T.faithful journal.old → OnOk result (RangesOf (T.text journal.old) (W.contents out.old) (W.contents out.new)) }
    ensures fault { IfErr result (StopsLog (T.faithful journal.old) (T.text journal.old)) }
    ensures stops { T.faithful journal.old → IfErr result (StopsRows (T.text journal.old) (W.contents out.old) (W.contents out.new)) }
    ensures text { Stays T.faithful T.text T.failures result journal.old journal.new }
    ensures survives { T.faithful journal.old → NoMore (T.survives journal.old) (T.survives journal.new) }
    ensures counts { IfErr result (λ f. LookCounts f (T.failures journal.old) 0 (T.failures journal.new) 0) }
{
    let marks = match all_marks(alloc, journal) {
        Ok(marks) => marks,
        Err(fault) => return Err(ShowFault::Text(fault)),
    };
    put_rows(alloc, journal, marks.as_slice(), out)
}

/// A fault of reading the text, as the call that steps over its changes answers it.
fn fault_on(way: Direction, fault: SessionFault) -> SessionFault
    ensures { result ≡ fault_that way fault }
{
    match way {
        Direction::Undo => fault,
        Direction::Redo => of_redo(fault),
    }
}

/// What is answered where a text has fewer entries than there are to be steps.
fn too_few(way: Direction, have: u32) -> SessionFault
    ensures { result ≡ few_that way have }
{
    match way {
        Direction::Undo => SessionFault::TooFew { have },
        Direction::Redo => SessionFault::NothingToRedo { have },
    }
}

/// What is unfinished, where steps this way don't deal with it.
fn left_of(way: Direction, torn: Option<Torn>) -> Option<Torn>
    ensures some { IfSome result (IsLeftIn way torn) }
    ensures none { IfNone result (IsSettled way torn) }
{
    match way {
        Direction::Undo => None,
        Direction::Redo => torn,
    }
}

/// The marks that were found, where there are as many as there are to be steps.
fn check_steps<A: Allocator>(steps: Steps, found: Marked<A>) -> Result<Marked<A>, SessionFault>
    requires few { length found.marks.items ≤ 65535 }
    requires settled { IsSettled steps.way found.torn }
    ensures ok { IfOk result (IsChecked steps found) }
    ensures fault { IfErr result (CannotStep steps found) }
{
    let have = found.marks.len();
    if have < steps.count as usize {
        return Err(too_few(steps.way, have as u32));
    }
    Ok(found)
}

/// The marks of the entries of a text that are to be stepped over. A redo text with something unfinished is damaged at the line
/// where that begins.
fn find_steps<T: TextStore, A: Allocator + Clone>(
    alloc: &A,
    journal: &mut T,
    steps: Steps,
) -> Result<Marked<A>, SessionFault>
    requires { T.failures journal.old < u64.MAX }
    ensures { FindsSteps T.faithful T.text T.survives T.failures steps result journal.old journal.new }
{
    let found = match front_marks(alloc, journal) {
        Ok(found) => found,
        Err(fault) => return Err(fault_on(steps.way, fault)),
    };
    let Some(left) = left_of(steps.way, found.torn) else {
        return check_steps(steps, found);
    };
    match line_from(alloc, journal, left.begins) {
        Ok(line) => Err(SessionFault::RedoDamaged { line }),
        Err(fault) => Err(fault),
    }
}

/// Writes the line on what is unfinished, and the steps, and answers how many bytes these are.
fn put_found<D: Device, T: TextStore, A: Allocator + Clone, W: Write>(
    alloc: &A,
    image: &mut D,
    journal: &mut T,
    found: &Marked<A>,
    steps: Steps,
    out: &mut W,
) -> Result<u64, ShowFault>
    requires countable { D.failures image.old < u64.MAX }
    requires also_countable { T.failures journal.old < u64.MAX }
    requires enough { steps.count ≤ length found.now.marks.items }
    requires lie { (len : ℕ) × (T.faithful journal.old → len ≤ length (T.text journal.old)) × All (LiesWithin len) found.now.marks.items }
    ensures put { T.faithful journal.old → (IsTrue steps.compares → D.faithful image.old) → OnOk result
        (IsFoundPut steps (D.image image.old) (T.text journal.old) found.now (W.contents out.old) (W.contents out.new)) }
    ensures counted { T.faithful journal.old → (IsTrue steps.compares → D.faithful image.old) → IfOk result (CountsBytes 0
        (torn_text found.now.torn ++ newest_steps steps (D.image image.old) (T.text journal.old) steps.count found.now.marks.items)) }
    ensures stops { T.faithful journal.old → (IsTrue steps.compares → D.faithful image.old) → IfErr result
        (StopsFound steps (D.image image.old) (T.text journal.old) found.now (W.contents out.old) (W.contents out.new)) }
    ensures kind { IfErr result PutFault }
    ensures image { Stays D.faithful D.image D.failures result image.old image.new }
    ensures stays { Stays T.faithful T.text T.failures result journal.old journal.new }
    ensures image_survives { D.faithful image.old → NoMore (D.survives image.old) (D.survives image.new) }
    ensures text_survives { T.faithful journal.old → NoMore (T.survives journal.old) (T.survives journal.new) }
    ensures counts { IfErr result (λ f. LookCounts f (D.failures image.old) (T.failures journal.old) (D.failures image.new) (T.failures journal.new)) }
{
    let before = put_torn(alloc, found.torn, out)?;
    let mut writing = begin_writing(alloc, before)?;
    match put_steps(
        image,
        journal,
        &mut writing,
        found.marks.as_slice(),
        steps,
        out,
    ) {
        Ok(()) => Ok(writing.written),
        Err(fault) => Err(fault),
    }
}

/// Writes what the next undos of a journal's text, or the next redos of a redo text, would do: for each step a heading, the
/// saved lines of the entry, each made from the bytes that it gives, where they are compared beside what the image has there, and
/// an empty line. One step that is compared is a patch, and ends as one.
///
/// Where something is unfinished at the end of a journal, a line says so first, and the steps are over the entries before it.
/// Of memory it takes windows of 256 KiB, 56 bytes for each entry, and about 1 MiB for lines.
///
/// # Errors
/// `TooFew` or `NothingToRedo` where the text has fewer entries, `Damaged` or `RedoDamaged` with the line from 1, before
/// anything is written: a redo text with something unfinished is damaged at the line where that begins. `NoMemory`, and
/// `DeviceFailed`; `WriteFailed` with how many bytes were written.
pub fn show_steps<D: Device, T: TextStore, A: Allocator + Clone, W: Write>(
    alloc: &A,
    image: &mut D,
    journal: &mut T,
    steps: Steps,
    out: &mut W,
) -> Result<(), ShowFault>
    requires countable { D.failures image.old < u64.MAX }
    requires also_countable { T.failures journal.old < u64.MAX }
    ensures shows { T.faithful journal.old → (IsTrue steps.compares → D.faithful image.old) → OnOk result
        (ShowsText (T.text journal.old) (D.image image.old) steps (W.contents out.old) (W.contents out.new)) }
    ensures fault { IfErr result (StopsSteps (T.faithful journal.old) (T.text journal.old) steps) }
    ensures quiet { IfErr result (λ fault. RefusesSteps fault → W.contents out.new ≡ W.contents out.old) }
    ensures stops { T.faithful journal.old → (IsTrue steps.compares → D.faithful image.old) → IfErr result
        (StopsShownPatch (T.text journal.old) (D.image image.old) steps (W.contents out.old) (W.contents out.new)) }
    ensures image { Stays D.faithful D.image D.failures result image.old image.new }
    ensures text { Stays T.faithful T.text T.failures result journal.old journal.new }
    ensures image_survives { D.faithful image.old → NoMore (D.survives image.old) (D.survives image.new) }
    ensures text_survives { T.faithful journal.old → NoMore (T.survives journal.old) (T.survives journal.new) }
    ensures counts { IfErr result (λ f. LookCounts f (D.failures image.old) (T.failures journal.old) (D.failures image.new) (T.failures journal.new)) }
{
    let found = match find_steps(alloc, journal, steps) {
        Ok(found) => found,
        Err(fault) => return Err(ShowFault::Text(fault)),
    };
    match put_found(alloc, image, journal, &found, steps, out) {
        Ok(written) => put_last(steps, written, out),
        Err(fault) => Err(fault),
    }
}
