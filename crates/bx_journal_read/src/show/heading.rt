//! The heading of a step: which change, and what the step writes.
ghost use Rattle.std.specs.Prelude.{◌≡◌, ◌<◌, ◌≤◌, ◌++◌, length, Some, OnOk, IfOk, IfErr, string_bytes};
ghost use Rattle.std.specs.Io.KnownBytes.{Appends};
ghost use Rattle.bx_journal_read.specs.show.Showing.{CountsNone, PutFault, WritesFrom};
ghost use Rattle.bx_journal_read.specs.show.ShownSteps.{amount_text, changed_end, heading_at, heading_end, heading_front, heading_start, kept_end, length_told, told_end, where_at, keeps_length};
ghost use Rattle.bx_journal_read.specs.show.Stopping.{CountsBytes, StopsPrefix};

use crate::show::fault::ShowFault;
use crate::show::lengths::push_told_length;
use crate::show::ranges::put_ranges;
use crate::show::way::{Direction, Step};
use crate::show::writing::{Writing, put};
use bx_journal_format::Mark;
use bx_journal_store::TextStore;
use std::alloc::{AllocError, Allocator};
use std::fmt::Write as _;
use std::io::Write;

/// The number of the change, and which way it is stepped over.
fn push_front<A: Allocator>(
    text: &mut String<A>,
    way: Direction,
    number: u64,
) -> Result<(), AllocError>
    ensures { OnOk result (string_bytes text.new ≡ string_bytes text.old ++ heading_front way number) }
{
    match way {
        Direction::Undo => write!(text, "# change {}: undo writes ", number),
        Direction::Redo => write!(text, "# change {}: redo writes ", number),
    }
}

/// How many bytes are written, up to where they stand.
fn push_amount<A: Allocator>(text: &mut String<A>, saved: u64) -> Result<(), AllocError>
    ensures { OnOk result (string_bytes text.new ≡ string_bytes text.old ++ amount_text saved) }
{
    if saved == 0 {
        return write!(text, "no bytes");
    }
    if saved == 1 {
        return write!(text, "1 byte at ");
    }
    write!(text, "{} bytes at ", saved)
}

/// Whether a change kept the length.
fn is_kept(after: u64, len: u64) -> bool
    ensures { result ≡ keeps_length (Some after) len }
{
    after == len
}

/// What becomes of a length that stays.
fn push_kept<A: Allocator>(text: &mut String<A>, len: u64) -> Result<(), AllocError>
    ensures { OnOk result (string_bytes text.new ≡ string_bytes text.old ++ kept_end len) }
{
    write!(text, ", keeps length {}\n", len)
}

/// What becomes of another length.
fn push_changed<A: Allocator>(text: &mut String<A>, after: u64, len: u64) -> Result<(), AllocError>
    ensures { OnOk result (string_bytes text.new ≡ string_bytes text.old ++ changed_end after len) }
{
    write!(text, ", length {} to {}\n", after, len)
}

/// What becomes of a length that the entry tells.
fn push_told<A: Allocator>(
    text: &mut String<A>,
    keeps: bool,
    after: u64,
    len: u64,
) -> Result<(), AllocError>
    ensures { OnOk result (string_bytes text.new ≡ string_bytes text.old ++ told_end keeps after len) }
{
    match keeps {
        true => push_kept(text, len),
        false => push_changed(text, after, len),
    }
}

/// What becomes of the length. One that the entry doesn't tell is `-`.
fn push_length<A: Allocator>(
    text: &mut String<A>,
    after: Option<u64>,
    len: u64,
) -> Result<(), AllocError>
    ensures { OnOk result (string_bytes text.new ≡ string_bytes text.old ++ heading_end after len) }
{
    match after {
        Some(after) => push_told(text, is_kept(after, len), after, len),
        None => write!(text, ", length - to {}\n", len),
    }
}

/// Writes what stands before the ranges.
fn put_start<A: Allocator + Clone, W: Write>(
    alloc: &A,
    way: Direction,
    number: u64,
    saved: u64,
    written: u64,
    out: &mut W,
) -> Result<u64, ShowFault>
    ensures start { OnOk result (Appends (W.contents out.old) (W.contents out.new) (heading_start way number saved)) }
    ensures kind { IfErr result PutFault }
    ensures counts { IfErr result CountsNone }
    ensures counted { IfOk result (CountsBytes written (heading_start way number saved)) }
    ensures stops { IfErr result (StopsPrefix written (heading_start way number saved) (W.contents out.old) (W.contents out.new)) }
{
    let mut text = String::new(alloc.clone()?);
    push_front(&mut text, way, number)?;
    push_amount(&mut text, saved)?;
    put(out, written, text.as_bytes())
}

/// Writes the ranges, if any.
fn put_where<T: TextStore, A: Allocator + Clone, W: Write>(
    alloc: &A,
    store: &mut T,
    window: &mut [u8],
    mark: Mark,
    written: u64,
    out: &mut W,
) -> Result<u64, ShowFault>
    requires countable { T.failures store.old < u64.MAX }
    requires within { T.faithful store.old → mark.to ≤ length (T.text store.old) }
    requires order { mark.from ≤ mark.to }
    ensures put { T.faithful store.old → OnOk result (Appends (W.contents out.old) (W.contents out.new) (where_at (T.text store.old) mark)) }
    ensures counted { T.faithful store.old → IfOk result (CountsBytes written (where_at (T.text store.old) mark)) }
    ensures stops { T.faithful store.old → IfErr result
        (StopsPrefix written (where_at (T.text store.old) mark) (W.contents out.old) (W.contents out.new)) }
    ensures puts { WritesFrom T.faithful T.text T.survives T.failures result store.old store.new }
{
    if mark.saved == 0 {
        return Ok(written);
    }
    put_ranges(alloc, store, window, mark, written, out)
}

/// Writes what stands behind the ranges.
fn put_end<A: Allocator + Clone, W: Write>(
    alloc: &A,
    step: Step,
    written: u64,
    out: &mut W,
) -> Result<u64, ShowFault>
    ensures end { OnOk result (Appends (W.contents out.old) (W.contents out.new)
        (heading_end step.mark.after step.mark.len ++ length_told step.steps step.mark.after step.mark.len)) }
    ensures kind { IfErr result PutFault }
    ensures counts { IfErr result CountsNone }
    ensures counted { IfOk result (CountsBytes written
        (heading_end step.mark.after step.mark.len ++ length_told step.steps step.mark.after step.mark.len)) }
    ensures stops { IfErr result (StopsPrefix written
        (heading_end step.mark.after step.mark.len ++ length_told step.steps step.mark.after step.mark.len)
        (W.contents out.old) (W.contents out.new)) }
{
    let mut text = String::new(alloc.clone()?);
    push_length(&mut text, step.mark.after, step.mark.len)?;
    push_told_length(&mut text, step.steps, step.mark)?;
    put(out, written, text.as_bytes())
}

/// Writes the heading of the step over a change, and behind it what a patch tells of the length.
pub fn put_heading<T: TextStore, A: Allocator + Clone, W: Write>(
    store: &mut T,
    writing: &mut Writing<A>,
    step: Step,
    out: &mut W,
) -> Result<(), ShowFault>
    requires countable { T.failures store.old < u64.MAX }
    requires within { T.faithful store.old → step.mark.to ≤ length (T.text store.old) }
    requires order { step.mark.from ≤ step.mark.to }
    ensures heading { T.faithful store.old → OnOk result
        (Appends (W.contents out.old) (W.contents out.new)
        (heading_at (T.text store.old) step.steps.way step.number step.mark ++ length_told step.steps step.mark.after step.mark.len)) }
    ensures counted { T.faithful store.old → OnOk result (CountsBytes writing.old.written
        (heading_at (T.text store.old) step.steps.way step.number step.mark ++ length_told step.steps step.mark.after step.mark.len)
        writing.new.written) }
    ensures stops { T.faithful store.old → IfErr result (StopsPrefix writing.old.written
        (heading_at (T.text store.old) step.steps.way step.number step.mark ++ length_told step.steps step.mark.after step.mark.len)
        (W.contents out.old) (W.contents out.new)) }
    ensures puts { WritesFrom T.faithful T.text T.survives T.failures result store.old store.new }
{
    let alloc = &writing.alloc;
    let way = step.steps.way;
    let window = writing.window.as_mut_slice();
    let start = put_start(
        alloc,
        way,
        step.number,
        step.mark.saved,
        writing.written,
        out,
    )?;
    let places = put_where(alloc, store, window, step.mark, start, out)?;
    writing.written = put_end(alloc, step, places, out)?;
    Ok(())
}
