//! The log of a session as text.
ghost use Rattle.std.specs.Prelude.{◌≡◌, ◌<◌, ◌++◌, IfErr, IfOk, OnOk, IsOkUnless, IsTrue, string_bytes};
ghost use Rattle.std.specs.List.{flat_map};
ghost use Rattle.bx_image.specs.Power.{NoMore};
ghost use Rattle.bx_journal.specs.Showing.{RangesOf, Stays};
ghost use Rattle.bx_journal.specs.ShownText.{ShowsText};
ghost use Rattle.bx_cli_commands.specs.Listing.{ListCounts, RefusesShowing, StopsListed, StopsListing, StopsShowing, StopsShownList, log_line};

use crate::Fault;
use bx_image::Device;
use bx_journal::{LogRow, ShowFault, Steps, log_ranges, show_steps};
use bx_journal_store::TextStore;
use bx_text::IoFault;
use std::alloc::{AllocError, Allocator};
use std::fmt::Write as _;
use std::io::Write;

/// A line for each change: its number, the length before it, and how many bytes were saved, in decimal. The one fault is
/// want of memory.
pub fn log_text<A: Allocator>(alloc: A, rows: &[LogRow]) -> Result<String<A>, Fault>
    ensures text { IfOk result (λ text. string_bytes text ≡ flat_map log_line rows.now) }
    ensures fault { IsOkUnless result (Fault.Io IoFault.NoMemory) }
{
    let mut text = String::new(alloc);
    for row in rows {
        push_row(&mut text, *row)?;
    }
    Ok(text)
}

/// The line of one change.
fn push_row<A: Allocator>(text: &mut String<A>, row: LogRow) -> Result<(), AllocError>
    ensures { OnOk result (string_bytes text.new ≡ string_bytes text.old ++ log_line row) }
{
    write!(text, "{} {} {}\n", row.number, row.old_len, row.saved)
}

/// Writes a line for each change of a journal's text that is finished entries alone, the oldest first: its number, the lengths
/// before and after it, how many bytes were saved, and at which ranges. The text stays.
///
/// # Errors
/// As of `bx_journal::log_ranges`.
pub fn list_ranges<T: TextStore, A: Allocator + Clone, W: Write>(
    alloc: &A,
    journal: &mut T,
    out: &mut W,
) -> Result<(), Fault>
    requires { T.failures journal.old < u64.MAX }
    ensures rows { T.faithful journal.old → OnOk result (RangesOf (T.text journal.old) (W.contents out.old) (W.contents out.new)) }
    ensures fault { IfErr result (StopsListing (T.faithful journal.old) (T.text journal.old)) }
    ensures stops { T.faithful journal.old → IfErr result (StopsListed (T.text journal.old) (W.contents out.old) (W.contents out.new)) }
    ensures text { Stays T.faithful T.text T.failures result journal.old journal.new }
    ensures survives { T.faithful journal.old → NoMore (T.survives journal.old) (T.survives journal.new) }
    ensures counts { IfErr result (λ f. ListCounts f (T.failures journal.old) 0 (T.failures journal.new) 0) }
{
    match log_ranges(alloc, journal, out) {
        Ok(()) => Ok(()),
        Err(ShowFault::Text(fault)) => Err(Fault::Session(fault)),
        Err(ShowFault::Io(fault)) => Err(Fault::Io(fault)),
    }
}

/// Writes what the next undos of a journal's text, or the next redos of a redo text, would do: for each step a heading, the saved
/// lines, and an empty line. One step that is compared is a patch, and ends as one. The text and the image stay.
///
/// # Errors
/// As of `bx_journal::show_steps`.
pub fn list_steps<D: Device, T: TextStore, A: Allocator + Clone, W: Write>(
    alloc: &A,
    image: &mut D,
    journal: &mut T,
    steps: Steps,
    out: &mut W,
) -> Result<(), Fault>
    requires countable { D.failures image.old < u64.MAX }
    requires also_countable { T.failures journal.old < u64.MAX }
    ensures shows { T.faithful journal.old → (IsTrue steps.compares → D.faithful image.old) → OnOk result
        (ShowsText (T.text journal.old) (D.image image.old) steps (W.contents out.old) (W.contents out.new)) }
    ensures fault { IfErr result (StopsShowing (T.faithful journal.old) (T.text journal.old) steps) }
    ensures quiet { IfErr result (λ fault. RefusesShowing fault → W.contents out.new ≡ W.contents out.old) }
    ensures stops { T.faithful journal.old → (IsTrue steps.compares → D.faithful image.old) → IfErr result
        (StopsShownList (T.text journal.old) (D.image image.old) steps (W.contents out.old) (W.contents out.new)) }
    ensures image { Stays D.faithful D.image D.failures result image.old image.new }
    ensures text { Stays T.faithful T.text T.failures result journal.old journal.new }
    ensures image_survives { D.faithful image.old → NoMore (D.survives image.old) (D.survives image.new) }
    ensures text_survives { T.faithful journal.old → NoMore (T.survives journal.old) (T.survives journal.new) }
    ensures counts { IfErr result (λ f. ListCounts f (D.failures image.old) (T.failures journal.old) (D.failures image.new) (T.failures journal.new)) }
{
    match show_steps(alloc, image, journal, steps, out) {
        Ok(()) => Ok(()),
        Err(ShowFault::Text(fault)) => Err(Fault::Session(fault)),
        Err(ShowFault::Io(fault)) => Err(Fault::Io(fault)),
    }
}
