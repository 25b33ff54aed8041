//! Two devices that are compared, a window at a time.
ghost use Rattle.std.specs.Prelude.{◌≡◌, ◌<◌, ◌≤◌, ◌+◌, ◌++◌, ◌%◌, ◌^◌, ℕ, max, false, List, Option, length, take, IfErr, OnOk};
ghost use Rattle.std.specs.Io.KnownBytes.{Appends};
ghost use Rattle.bx_patch.specs.Text.{PatchLine, with_end, headed, patch_lines, row_count};
ghost use Rattle.bx_patch.specs.Diff.{OnlyReads, WritesPrefix, fails, of_new, of_old};
ghost use Rattle.bx_patch.specs.private.Diff.{HasPut, IsLengthHead, IsLate, IsWritingFault, WritesUpTo, lines_of_window};
ghost use Rattle.bx_patch.specs.private.Row.{AreSame, window_lines};

use crate::diff::alike::Alike;
use crate::diff::device::{Lengths, WINDOW, fill_window};
use crate::diff::fault::DiffFault;
use crate::diff::lines::gather;
use crate::diff::row::Extent;
use crate::diff::writing::{Writing, put_end, put_text};
use bx_image::Device;
use std::alloc::Allocator;
use std::io::Write;

/// Where a comparison stands: at an address, of two devices of these lengths. The text begins with a line, and has these bytes of a row.
#[derive(Clone, Copy)]
pub struct Place<'a> {
    pub at: u64,
    pub lengths: Lengths,
    pub extent: Extent,
    pub head: &'a [u8],
}

/// A comparison that begins at a place, and what is known of the two devices.
#[derive(Drop)]
pub struct Walk<'a, 'b, S: Alike> {
    pub place: Place<'a>,
    pub alike: &'b S,
}

/// Where a comparison goes on that has come to the start of a window: there, or at the first window behind it that isn't known to be the
/// same, or at the end where there is none.
fn next_window<S: Alike>(alike: &S, at: u64, end: u64) -> u64
    requires within { at ≤ end }
    requires whole { at < end → at % 32768 ≡ 0 }
    ensures least { at ≤ result }
    ensures most { result ≤ end }
    ensures whole { result < end → result % 32768 ≡ 0 }
    ensures same { (x y : List ℕ) → S.AreAlike alike.now x y → AreSame x y at result }
{
    let until = alike.same_until(at);
    if until >= end {
        return end;
    }
    at.max(until - until % WINDOW as u64)
}

/// The first bytes of a window.
fn front(window: &[u8], count: usize) -> &[u8]
    requires { count ≤ length window.now }
    ensures bytes { result.now ≡ take count window.now }
    ensures most { length result.now ≤ length window.now }
{
    &window[..count]
}

/// Writes the lines for two windows at a place, behind those that were written.
fn put_window<W: Write, A: Allocator>(
    out: &mut W,
    writing: &mut Writing<A>,
    place: Place<'_>,
    old: &[u8],
    new: &[u8],
) -> Result<(), DiffFault>
    requires small { place.at + length old.now + 32 < 2 ^ 64 }
    requires little { place.at + length new.now + 32 < 2 ^ 64 }
    ensures put { (lines : List PatchLine) (first : Option (List ℕ))
        → HasPut place.entry.head.now lines writing.old.number writing.old.written first (W.contents out.old)
        → OnOk result (HasPut place.entry.head.now
        (lines ++ window_lines place.entry.extent place.entry.at old.now new.now (row_count old.now new.now))
        writing.new.number writing.new.written first (W.contents out.new)) }
    ensures part { (lines : List PatchLine) (first : Option (List ℕ))
        → HasPut place.entry.head.now lines writing.old.number writing.old.written first (W.contents out.old)
        → IfErr result (WritesUpTo first (W.contents out.new) (headed place.entry.head.now
        (lines ++ window_lines place.entry.extent place.entry.at old.now new.now (row_count old.now new.now)))) }
    ensures kind { IfErr result IsWritingFault }
{
    match gather(&mut writing.text, place.extent, place.at, old, new) {
        Ok(()) => put_text(out, writing, place.head),
        Err(_) => Err(DiffFault::NoMemory),
    }
}

/// Writes the lines for the window at a place, behind those that were written.
fn put_next<D: Device, E: Device, W: Write, A: Allocator>(
    old: &mut D,
    new: &mut E,
    out: &mut W,
    buffer: &mut [u8],
    writing: &mut Writing<A>,
    place: Place<'_>,
) -> Result<(), DiffFault>
    requires old_countable { D.failures old.old < u64.MAX }
    requires new_countable { E.failures new.old < u64.MAX }
    requires old_len { D.faithful old.old → place.lengths.old ≡ length (D.image old.old) }
    requires new_len { E.faithful new.old → place.lengths.new ≡ length (E.image new.old) }
    requires room { length buffer.old ≡ 65536 }
    requires small { place.at ≤ 2 ^ 48 }
    ensures put { D.faithful old.old → E.faithful new.old → (lines : List PatchLine) (first : Option (List ℕ))
        → HasPut place.entry.head.now lines writing.old.number writing.old.written first (W.contents out.old)
        → OnOk result (HasPut place.entry.head.now
        (lines ++ lines_of_window place.entry.extent (D.image old.old) (E.image new.old) place.entry.at)
        writing.new.number writing.new.written first (W.contents out.new)) }
    ensures part { D.faithful old.old → E.faithful new.old → (lines : List PatchLine) (first : Option (List ℕ))
        → HasPut place.entry.head.now lines writing.old.number writing.old.written first (W.contents out.old)
        → IfErr result (WritesUpTo first (W.contents out.new)
        (headed place.entry.head.now (lines ++ lines_of_window place.entry.extent (D.image old.old) (E.image new.old) place.entry.at))) }
    ensures kind { IfErr result IsLate }
    ensures old { OnlyReads D.faithful D.image D.room D.failures D.survives (fails of_old result) old.old old.new }
    ensures new { OnlyReads E.faithful E.image E.room E.failures E.survives (fails of_new result) new.old new.new }
{
    let (old_window, new_window) = buffer.split_at_mut(WINDOW);
    let Ok(old_count) = fill_window(old, place.lengths.old, place.at, old_window) else {
        return Err(DiffFault::OldFailed);
    };
    let Ok(new_count) = fill_window(new, place.lengths.new, place.at, new_window) else {
        return Err(DiffFault::NewFailed);
    };
    let old_bytes = front(old_window, old_count);
    let new_bytes = front(new_window, new_count);
    put_window(out, writing, place, old_bytes, new_bytes)
}

/// Writes the lines of two devices from their start on, where none were written. Windows that are known to be the same aren't read.
fn compare_lines<D: Device, E: Device, W: Write, S: Alike, A: Allocator>(
    old: &mut D,
    new: &mut E,
    out: &mut W,
    buffer: &mut [u8],
    writing: &mut Writing<A>,
    walk: Walk<'_, '_, S>,
) -> Result<(), DiffFault>
    requires old_countable { D.failures old.old < u64.MAX }
    requires new_countable { E.failures new.old < u64.MAX }
    requires old_len { D.faithful old.old → walk.place.lengths.old ≡ length (D.image old.old) }
    requires new_len { E.faithful new.old → walk.place.lengths.new ≡ length (E.image new.old) }
    requires room { length buffer.old ≡ 65536 }
    requires small { max walk.place.lengths.old walk.place.lengths.new ≤ 2 ^ 48 }
    requires fresh { writing.old.number ≡ 0 }
    requires none { writing.old.written ≡ 0 }
    ensures put { D.faithful old.old → E.faithful new.old → S.AreAlike walk.entry.alike.now (D.image old.old) (E.image new.old)
        → OnOk result (HasPut walk.entry.place.head.now (patch_lines walk.entry.place.extent (D.image old.old) (E.image new.old))
        writing.new.number writing.new.written (W.contents out.old) (W.contents out.new)) }
    ensures part { D.faithful old.old → E.faithful new.old → S.AreAlike walk.entry.alike.now (D.image old.old) (E.image new.old)
        → IfErr result (WritesUpTo (W.contents out.old) (W.contents out.new)
        (headed walk.entry.place.head.now (patch_lines walk.entry.place.extent (D.image old.old) (E.image new.old)))) }
    ensures kind { IfErr result IsLate }
    ensures old { OnlyReads D.faithful D.image D.room D.failures D.survives (fails of_old result) old.old old.new }
    ensures new { OnlyReads E.faithful E.image E.room E.failures E.survives (fails of_new result) new.old new.new }
{
    let Walk { place, alike } = walk;
    let end = place.lengths.old.max(place.lengths.new);
    let mut at = next_window(alike, 0, end);
    while at < end {
        match put_next(old, new, out, buffer, writing, Place { at, ..place }) {
            Ok(()) => at = next_window(alike, at + (WINDOW as u64).min(end - at), end),
            Err(fault) => return Err(fault),
        }
    }
    Ok(())
}

/// Writes the patch from one device to another, where nothing of it was written: their lines, and the last one, which isn't written after a
/// fault.
pub fn compare_devices<D: Device, E: Device, W: Write, S: Alike, A: Allocator>(
    old: &mut D,
    new: &mut E,
    out: &mut W,
    buffer: &mut [u8],
    writing: &mut Writing<A>,
    walk: Walk<'_, '_, S>,
) -> Result<(), DiffFault>
    requires old_countable { D.failures old.old < u64.MAX }
    requires new_countable { E.failures new.old < u64.MAX }
    requires old_len { D.faithful old.old → walk.place.lengths.old ≡ length (D.image old.old) }
    requires new_len { E.faithful new.old → walk.place.lengths.new ≡ length (E.image new.old) }
    requires room { length buffer.old ≡ 65536 }
    requires small { max walk.place.lengths.old walk.place.lengths.new ≤ 2 ^ 48 }
    requires fresh { writing.old.number ≡ 0 }
    requires none { writing.old.written ≡ 0 }
    requires head { IsLengthHead walk.place.head.now }
    ensures text { D.faithful old.old → E.faithful new.old → S.AreAlike walk.entry.alike.now (D.image old.old) (E.image new.old)
        → OnOk result (Appends (W.contents out.old) (W.contents out.new)
        (with_end (headed walk.entry.place.head.now (patch_lines walk.entry.place.extent (D.image old.old) (E.image new.old))))) }
    ensures part { D.faithful old.old → E.faithful new.old → S.AreAlike walk.entry.alike.now (D.image old.old) (E.image new.old)
        → IfErr result (WritesPrefix (W.contents out.old) (W.contents out.new)
        (with_end (headed walk.entry.place.head.now (patch_lines walk.entry.place.extent (D.image old.old) (E.image new.old))))) }
    ensures kind { IfErr result IsLate }
    ensures old { OnlyReads D.faithful D.image D.room D.failures D.survives (fails of_old result) old.old old.new }
    ensures new { OnlyReads E.faithful E.image E.room E.failures E.survives (fails of_new result) new.old new.new }
{
    match compare_lines(old, new, out, buffer, writing, walk) {
        Ok(()) => put_end(out, writing.number, writing.written),
        Err(fault) => Err(fault),
    }
}
