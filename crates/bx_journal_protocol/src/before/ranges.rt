//! What some redos take before their first write: the ranges that they will touch, a page with the begin of the first entry, a
//! window, and room.
ghost use Rattle.std.specs.Prelude.{◌≡◌, ◌+◌, ◌-◌, ◌^◌, ◌<◌, ◌≤◌, [], length, drop, min, reverse, vec_capacity, All, IfOk, IfErr, OnOk, is_err};
ghost use Rattle.bx_image.specs.Device.{GoesOn};
ghost use Rattle.bx_image.specs.Power.{NoMore};
ghost use Rattle.bx_journal_model.specs.Fault.{DeviceFault};
ghost use Rattle.bx_journal_model.specs.Power.{FoundBefore};
ghost use Rattle.bx_journal_protocol.specs.before.Again.{IsReadyAgain};
ghost use Rattle.bx_journal_model.specs.ThreeDevices.{AreCounted, AreUnfailed, HaveStayed};
ghost use Rattle.bx_journal_protocol.specs.protocol.Takens.{length_at};
ghost use Rattle.bx_journal_protocol.specs.write.Touched.{AreTouched, AreToldRanges, HasRoomForRanges, IsFirstBegun, IsFirstWithin, IsTouched, entries_over as entries_long};
ghost use Rattle.bx_journal_model.specs.Undoing.{HasRoomFor};
ghost use Rattle.bx_journal_protocol.specs.protocol.Written.{AreSettled};

use crate::before::head::{SPARE, WINDOW};
use crate::before::overwritten::length_above;
use crate::before::records::longest_of;
use crate::before::room::make_room;
use crate::{Head, Place, begin_last, ranges_len, settle};
use bx_image::{Device, DeviceFailed, MAX_LEN, Span, touched_to_restore};
use bx_journal_format::{EntryRead, new_page};
use bx_journal_model::{Devices, FinishedRead, SessionFault};
use bx_journal_store::TextStore;
use std::alloc::{Allocator, Global};

/// The ranges that each entry which is to be restored touches, in their order; the head of the last one's text, and the length of all
/// texts, at most `u64::MAX`.
#[derive(Drop)]
pub struct Again<A: Allocator = Global> {
    pub takens: Vec<Vec<Span, A>, A>,
    pub head: Head<A>,
    pub len: u64,
}

/// The bytes that an entry has beside its saved lines: its first line, its save line and its end line.
const LINES: u64 = 80;

/// The ranges that restoring an entry touches in an image of this length, which an entry has to be able to tell.
fn ranges_of<A: Allocator + Clone>(
    alloc: A,
    entry: &EntryRead<A>,
    len: u64,
) -> Result<Vec<Span, A>, SessionFault>
    ensures touched { IfOk result (λ r. IsTouched len entry.now r.items) }
    ensures kind { IfErr result (λ e. e ≡ SessionFault.NoMemory) }
{
    if len > MAX_LEN {
        return Err(SessionFault::NoMemory);
    }
    match touched_to_restore(alloc, &entry.kept, len) {
        Ok(ranges) => Ok(ranges),
        Err(_) => Err(SessionFault::NoMemory),
    }
}

/// The ranges for each of the last k entries, in their order, where the image has `len` bytes.
fn all_ranges<A: Allocator + Clone>(
    alloc: &A,
    entries: &[EntryRead<A>],
    k: u32,
    len: u64,
) -> Result<Vec<Vec<Span, A>, A>, SessionFault>
    requires few { k ≤ length entries.now }
    ensures touched { IfOk result (λ ts. AreTouched len (reverse entries.now) (reverse ts.items)) }
    ensures told { IfOk result (λ ts. AreToldRanges ts.items) }
    ensures count { IfOk result (λ ts. length ts.items ≡ k) }
    ensures kind { IfErr result (λ e. e ≡ SessionFault.NoMemory) }
{
    let count = entries.len();
    let mut takens = Vec::with_capacity(alloc.clone()?, k as usize)?;
    for place in count - k as usize..count {
        let above = length_above(entries, place, len);
        let ranges = ranges_of(alloc.clone()?, &entries[place], above)?;
        if takens.push(ranges).is_err() {
            return Err(SessionFault::NoMemory);
        }
    }
    Ok(takens)
}

/// How long the entries of the ranges are, at most `u64::MAX`.
fn entries_len<A: Allocator>(takens: &[Vec<Span, A>]) -> u64
    requires told { AreToldRanges takens.now }
    ensures { result ≡ min (entries_long takens.now) (2 ^ 64 - 1) }
{
    let mut total: u64 = 0;
    for ranges in takens {
        total = total
            .saturating_add(ranges_len(ranges.as_slice()))
            .saturating_add(LINES);
    }
    total
}

/// Takes all the memory of restoring the last k entries, where the image has `len` bytes. No text is begun yet.
fn take_memory<A: Allocator + Clone>(
    alloc: &A,
    entries: &[EntryRead<A>],
    k: u32,
    len: u64,
) -> Result<Again<A>, SessionFault>
    requires few { k ≤ length entries.now }
    ensures touched { IfOk result (λ o. AreTouched len (reverse entries.now) (reverse o.takens.items)) }
    ensures count { IfOk result (λ o. length o.takens.items ≡ k) }
    ensures long { IfOk result (λ o. o.len ≡ min (entries_long o.takens.items) (2 ^ 64 - 1)) }
    ensures empty { IfOk result (λ o. o.head.page.items ≡ []) }
    ensures page_room { IfOk result (λ o. 82 ≤ vec_capacity o.head.page) }
    ensures window { IfOk result (λ o. 16 ≤ length o.head.window.items) }
    ensures kind { IfErr result (λ e. e ≡ SessionFault.NoMemory) }
{
    let takens = all_ranges(alloc, entries, k, len)?;
    let total = entries_len(takens.as_slice());
    let page = new_page(alloc.clone()?, total.saturating_add(SPARE))?;
    let window = vec![in alloc.clone()?; 0u8; WINDOW.min(total).max(16) as usize]?;
    let head = Head {
        number: 0,
        place: Place { range: 0, done: 0 },
        page,
        window,
    };
    Ok(Again {
        takens,
        head,
        len: total,
    })
}

/// Looks at what the first of the entries is to keep of an image of `len` bytes, and begins its text. It changes nothing.
fn begin_first<D: Device, A: Allocator>(
    image: &mut D,
    again: Again<A>,
    number: u32,
    len: u64,
) -> Result<Again<A>, DeviceFailed>
    requires countable { D.failures image.old < u64.MAX }
    requires long { D.faithful image.old → len ≡ length (D.image image.old) }
    requires within { IsFirstWithin len (reverse again.takens.items) }
    requires empty { again.head.page.items ≡ [] }
    requires room { 82 ≤ vec_capacity again.head.page }
    requires window { 16 ≤ length again.head.window.items }
    ensures begun { IfOk result (λ o. IsFirstBegun (D.faithful image.old) (D.image image.old) number (reverse o.takens.items) o.head.page.items o.head.place) }
    ensures takens { IfOk result (λ o. o.takens ≡ again.takens) }
    ensures room { IfOk result (λ o. 82 ≤ vec_capacity o.head.page) }
    ensures window { IfOk result (λ o. 16 ≤ length o.head.window.items) }
    ensures image { D.faithful image.old → D.image image.new ≡ D.image image.old }
    ensures survives { D.faithful image.old → NoMore (D.survives image.old) (D.survives image.new) }
    ensures goes_on { GoesOn D.faithful D.room D.failures (is_err result) image.old image.new }
{
    let Again {
        takens,
        head,
        len: total,
    } = again;
    let mut head = head;
    let part = head.window.as_mut_slice();
    let page = &mut head.page;
    let place = begin_last(image, page, part, takens.as_slice(), number, len)?;
    head.place = place;
    Ok(Again {
        takens,
        head,
        len: total,
    })
}

/// The greatest length that one of the last k entries restores.
fn longest_of_last<A: Allocator>(read: &FinishedRead<A>, k: u32) -> u64
    requires few { k ≤ length read.now.entries.items }
    ensures { All (λ e. e.kept.len ≤ result) (drop (length read.now.entries.items - k) read.now.entries.items) }
{
    let first = read.entries.len() - k as usize;
    let (_, last) = read.entries.as_slice().split_at(first);
    longest_of(last)
}

/// Takes all that restoring the last k entries of the redo text needs: each gives the journal an entry, of this number and on.
/// Then it looks at what the first of them overwrites, and begins its text. It changes nothing.
fn take_ranges<D: Device, T: TextStore, A: Allocator + Clone>(
    alloc: &A,
    devices: &mut Devices<D, T>,
    read: &FinishedRead<A>,
    k: u32,
    number: u32,
) -> Result<Again<A>, SessionFault>
    requires image_countable { D.failures devices.old.image < u64.MAX }
    requires to_countable { T.failures devices.old.journal < u64.MAX }
    requires few { k ≤ length read.now.entries.items }
    ensures kept { HasRoomFor (D.room devices.new.image) read.now.entries.items k result }
    ensures ready { IfOk result (IsReadyAgain (D.faithful devices.old.image) (D.image devices.old.image) read.now.entries.items k number) }
    ensures roomed { T.faithful devices.old.journal → IfOk result (λ o. HasRoomForRanges T.TextStore devices.new.journal o.takens.items) }
    ensures kind { IfErr result DeviceFault }
    ensures stayed { HaveStayed D.Device T.TextStore devices.old devices.new }
    ensures found_before { FoundBefore D.Device T.TextStore devices.old devices.new }
    ensures no_failure { AreUnfailed D.Device T.TextStore devices.old devices.new result }
    ensures counts { AreCounted D.Device T.TextStore devices.old devices.new result }
{
    let len = devices.image.len()?;
    let to_len = devices.journal.len()?;
    let again = take_memory(alloc, read.entries.as_slice(), k, len)?;
    let longest = longest_of_last(read, k);
    make_room(devices, longest, to_len.saturating_add(again.len), read.len)?;
    let begun = begin_first(&mut devices.image, again, number, len)?;
    Ok(begun)
}

/// Takes all that making the last k entries of the redo text again needs: each gives the journal an entry, of this number and on. It looks at what the first of them overwrites, and puts on the disk what all three have. It changes nothing.
///
/// # Errors
/// `DeviceFailed` of the lengths of image and journal, `NoMemory`, also of an image that an entry can't tell, `DeviceFailed` of
/// reading the image, in this order, and then `DeviceFailed` of what can't be put on the disk.
pub fn prepare_redo<D: Device, T: TextStore, A: Allocator + Clone>(
    alloc: &A,
    devices: &mut Devices<D, T>,
    read: &FinishedRead<A>,
    k: u32,
    number: u32,
) -> Result<Again<A>, SessionFault>
    requires image_countable { D.failures devices.old.image < u64.MAX }
    requires from_countable { T.failures devices.old.redo < u64.MAX }
    requires to_countable { T.failures devices.old.journal < u64.MAX }
    requires few { k ≤ length read.now.entries.items }
    ensures kept { HasRoomFor (D.room devices.new.image) read.now.entries.items k result }
    ensures ready { IfOk result (IsReadyAgain (D.faithful devices.old.image) (D.image devices.old.image) read.now.entries.items k number) }
    ensures roomed { T.faithful devices.old.journal → IfOk result (λ o. HasRoomForRanges T.TextStore devices.new.journal o.takens.items) }
    ensures settled { D.faithful devices.old.image → T.faithful devices.old.journal → T.faithful devices.old.redo
        → OnOk result (AreSettled D.Device T.TextStore devices.new) }
    ensures kind { IfErr result DeviceFault }
    ensures stayed { HaveStayed D.Device T.TextStore devices.old devices.new }
    ensures found_before { FoundBefore D.Device T.TextStore devices.old devices.new }
    ensures no_failure { AreUnfailed D.Device T.TextStore devices.old devices.new result }
    ensures counts { AreCounted D.Device T.TextStore devices.old devices.new result }
{
    let again = match take_ranges(alloc, devices, read, k, number) {
        Ok(again) => again,
        Err(fault) => return Err(fault),
    };
    settle(devices)?;
    Ok(again)
}
