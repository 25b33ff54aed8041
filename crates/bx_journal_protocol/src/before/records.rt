//! What some undos take before their first write: records of what they will overwrite, the places of their entries, a page and room.
ghost use Rattle.std.specs.Prelude.{◌≡◌, ◌+◌, ◌-◌, ◌^◌, ◌<◌, ◌≤◌, [], length, drop, map, min, reverse, vec_capacity, All, IfOk, IfErr, OnOk};
ghost use Rattle.bx_image.specs.Power.{NoMore};
ghost use Rattle.bx_journal_model.specs.Fault.{DeviceFault, LacksOrFails};
ghost use Rattle.bx_journal_model.specs.Looking.{LooksAt};
ghost use Rattle.bx_journal_model.specs.Power.{FoundBefore};
ghost use Rattle.bx_journal_model.specs.ThreeDevices.{AreCounted, AreUnfailed, HaveStayed};
ghost use Rattle.bx_journal_protocol.specs.protocol.Written.{AreSettled};
ghost use Rattle.bx_journal_protocol.specs.before.Overwritten.{AreOrdered, AreOverwrittenOf, place_in};
ghost use Rattle.bx_journal_protocol.specs.protocol.Placed.{AllFit, ArePreparedIn};
ghost use Rattle.bx_journal_protocol.specs.before.Plan.{IsPlan, IsTakenFor};
ghost use Rattle.bx_journal_protocol.specs.protocol.Takens.{AreReadyLast, AreRoomFrom, AllShaped, HasRoomForEntries, entries_len as entries_long};
ghost use Rattle.bx_journal_model.specs.Undoing.{AreReadFrom, HasRoomFor};

use crate::before::overwritten::{Overwritten, all_zeros, overwritten_from};
use crate::before::places::places;
use crate::before::room::make_room;
use crate::{Buffers, Placed, buffers_of, fill_last, settle};
use bx_image::{Device, Saved};
use bx_journal_format::{EntryRead, head_len, new_page};
use bx_journal_model::{Devices, FinishedRead, SessionFault};
use bx_journal_store::TextStore;
use std::alloc::{Allocator, Global};

/// A record for each entry that is to be restored, in their order, and where these stand in their text; the length of the longest image
/// that they restore, an empty page for the text of the entries that the records are kept in, and what restoring takes.
#[derive(Drop)]
pub struct Taking<A: Allocator = Global> {
    pub takens: Vec<Saved<A>, A>,
    pub placed: Vec<Placed, A>,
    pub longest: u64,
    pub page: Vec<u8, A>,
    pub buffers: Buffers<A>,
}

/// Where the entries stand that are to be restored, what restoring them overwrites, and the length of the longest image that they
/// restore.
#[derive(Drop)]
pub struct Plan<A: Allocator = Global> {
    pub placed: Vec<Placed, A>,
    pub overwritten: Vec<Overwritten<A>, A>,
    pub longest: u64,
}

/// How long the line is that ends an entry.
const END_LINE: u64 = 32;

/// The greatest length that one of the entries restores.
pub fn longest_of<A: Allocator>(entries: &[EntryRead<A>]) -> u64
    ensures { All (λ e. e.kept.len ≤ result) entries.now }
{
    let mut longest = 0;
    for entry in entries {
        longest = longest.max(entry.kept.len);
    }
    longest
}

/// Where the last k entries of a text stand, and what restoring them overwrites where the image has `len` bytes.
fn plan_last<D: Device, A: Allocator + Clone>(
    alloc: &A,
    image: &mut D,
    read: &FinishedRead<A>,
    k: u32,
    len: u64,
) -> Result<Plan<A>, SessionFault>
    requires countable { D.failures image.old < u64.MAX }
    requires long { D.faithful image.old → len ≡ length (D.image image.old) }
    requires few { k ≤ length read.now.entries.items }
    requires order { AreOrdered read.now.entries.items }
    ensures plan { IfOk result (IsPlan read.now.entries.items k) }
    ensures overwritten { D.faithful image.old
        → IfOk result (λ p. AreOverwrittenOf (D.image image.old) (reverse read.now.entries.items) (reverse p.overwritten.items)) }
    ensures fault { IfErr result LacksOrFails }
    ensures looks { LooksAt D.faithful D.image D.failures result image.old image.new }
    ensures survives { D.faithful image.old → NoMore (D.survives image.old) (D.survives image.new) }
{
    let entries = read.entries.as_slice();
    let (_, last) = entries.split_at(entries.len() - k as usize);
    let placed = places(alloc, last)?;
    let overwritten = overwritten_from(alloc, image, last, len)?;
    Ok(Plan {
        placed,
        overwritten,
        longest: longest_of(last),
    })
}

/// The same, and the bytes that were read are given up.
fn plan_of<D: Device, A: Allocator + Clone>(
    alloc: &A,
    image: &mut D,
    read: FinishedRead<A>,
    k: u32,
    len: u64,
) -> Result<Plan<A>, SessionFault>
    requires countable { D.failures image.old < u64.MAX }
    requires long { D.faithful image.old → len ≡ length (D.image image.old) }
    requires few { k ≤ length read.entries.items }
    requires order { AreOrdered read.entries.items }
    ensures plan { IfOk result (IsPlan read.entries.items k) }
    ensures overwritten { D.faithful image.old
        → IfOk result (λ p. AreOverwrittenOf (D.image image.old) (reverse read.entries.items) (reverse p.overwritten.items)) }
    ensures fault { IfErr result LacksOrFails }
    ensures looks { LooksAt D.faithful D.image D.failures result image.old image.new }
    ensures survives { D.faithful image.old → NoMore (D.survives image.old) (D.survives image.new) }
{
    plan_last(alloc, image, &read, k, len)
}

/// How long the entries of the records are, at most `u64::MAX`.
fn entries_len<A: Allocator>(takens: &[Saved<A>]) -> u64
    requires shaped { AllShaped takens.now }
    ensures { result ≡ min (entries_long takens.now) (2 ^ 64 - 1) }
{
    let mut total: u64 = 0;
    for taken in takens {
        total = total
            .saturating_add(head_len(taken))
            .saturating_add(END_LINE);
    }
    total
}

/// Takes the memory of restoring the last k entries, where the image has `len` bytes. What was read of them is given up before
/// their records are taken, so that their bytes are held once.
fn take_memory<D: Device, A: Allocator + Clone>(
    alloc: &A,
    image: &mut D,
    read: FinishedRead<A>,
    k: u32,
    len: u64,
) -> Result<Taking<A>, SessionFault>
    requires countable { D.failures image.old < u64.MAX }
    requires long { D.faithful image.old → len ≡ length (D.image image.old) }
    requires few { k ≤ length read.entries.items }
    requires order { AreOrdered read.entries.items }
    ensures taken { IfOk result (IsTakenFor read.entries.items k) }
    ensures room { D.faithful image.old → IfOk result (λ o. AreRoomFrom (D.image image.old) (reverse read.entries.items) (reverse o.takens.items)) }
    ensures fault { IfErr result LacksOrFails }
    ensures looks { LooksAt D.faithful D.image D.failures result image.old image.new }
    ensures survives { D.faithful image.old → NoMore (D.survives image.old) (D.survives image.new) }
{
    let text_len = read.len;
    let plan = plan_of(alloc, image, read, k, len)?;
    let Plan {
        placed,
        overwritten,
        longest,
    } = plan;
    let takens = all_zeros(alloc, overwritten.as_slice())?;
    let page = new_page(alloc.clone()?, entries_len(takens.as_slice()))?;
    let buffers = buffers_of(alloc, text_len)?;
    Ok(Taking {
        takens,
        placed,
        longest,
        page,
        buffers,
    })
}

/// Takes all the memory of restoring the last k entries of the journal; each gives the redo text an entry,
/// and then reads what the first of them overwrites. It changes nothing.
fn take_records<D: Device, T: TextStore, A: Allocator + Clone>(
    alloc: &A,
    devices: &mut Devices<D, T>,
    read: FinishedRead<A>,
    k: u32,
) -> Result<Taking<A>, SessionFault>
    requires image_countable { D.failures devices.old.image < u64.MAX }
    requires to_countable { T.failures devices.old.redo < u64.MAX }
    requires few { k ≤ length read.entries.items }
    requires order { AreOrdered read.entries.items }
    ensures places { IfOk result (λ o. o.placed.items ≡ map place_in (drop (length read.entries.items - k) read.entries.items)) }
    ensures fit { IfOk result (λ o. AllFit (D.room devices.new.image) (length o.buffers.window.items) o.placed.items) }
    ensures parts { IfOk result (λ o. 0 < vec_capacity o.buffers.parts) }
    ensures filled { D.faithful devices.old.image → IfOk result (λ o. AreReadyLast (D.image devices.old.image) read.entries.items o.takens.items) }
    ensures shaped { IfOk result (λ o. AllShaped o.takens.items) }
    ensures count { IfOk result (λ o. length o.takens.items ≡ k) }
    ensures roomed { T.faithful devices.old.redo → IfOk result (λ o. HasRoomForEntries T.TextStore devices.new.redo o.takens.items) }
    ensures empty { IfOk result (λ o. o.page.items ≡ []) }
    ensures page_room { IfOk result (λ o. 82 ≤ vec_capacity o.page) }
    ensures kind { IfErr result DeviceFault }
    ensures stayed { HaveStayed D.Device T.TextStore devices.old devices.new }
    ensures found_before { FoundBefore D.Device T.TextStore devices.old devices.new }
    ensures no_failure { AreUnfailed D.Device T.TextStore devices.old devices.new result }
    ensures counts { AreCounted D.Device T.TextStore devices.old devices.new result }
{
    let len = devices.image.len()?;
    let to_len = devices.redo.len()?;
    let from_len = read.len;
    let mut taking = match take_memory(alloc, &mut devices.image, read, k, len) {
        Ok(taking) => taking,
        Err(fault) => return Err(fault),
    };
    let more = entries_len(taking.takens.as_slice());
    make_room(
        devices,
        taking.longest,
        from_len,
        to_len.saturating_add(more),
    )?;
    fill_last(&mut devices.image, &mut taking.takens)?;
    Ok(taking)
}

/// Takes all the memory of restoring the last k entries of the journal; each gives the redo text an entry,
/// reads what the first of them overwrites, and puts on the disk what all three have. It changes nothing.
///
/// # Errors
/// `DeviceFailed` of the lengths of image and redo text, `NoMemory`, `DeviceFailed` of looking for zeros, `NoMemory`, `DeviceFailed` of
/// reading the image, in this order, and then `DeviceFailed` of what can't be put on the disk.
pub fn prepare_takens<D: Device, T: TextStore, A: Allocator + Clone>(
    alloc: &A,
    devices: &mut Devices<D, T>,
    read: FinishedRead<A>,
    k: u32,
) -> Result<Taking<A>, SessionFault>
    requires image_countable { D.failures devices.old.image < u64.MAX }
    requires from_countable { T.failures devices.old.journal < u64.MAX }
    requires to_countable { T.failures devices.old.redo < u64.MAX }
    requires few { k ≤ length read.entries.items }
    requires read { AreReadFrom (T.faithful devices.old.journal) (T.text devices.old.journal) read.entries.items }
    ensures prepared { IfOk result (λ o. ArePreparedIn D.Device T.TextStore devices.new o.placed.items o.takens.items) }
    ensures fit { IfOk result (λ o. AllFit (D.room devices.new.image) (length o.buffers.window.items) o.placed.items) }
    ensures parts { IfOk result (λ o. 0 < vec_capacity o.buffers.parts) }
    ensures same { IfOk result (λ o. length o.placed.items ≡ length o.takens.items) }
    ensures shaped { IfOk result (λ o. AllShaped o.takens.items) }
    ensures count { IfOk result (λ o. length o.takens.items ≡ k) }
    ensures roomed { T.faithful devices.old.redo → IfOk result (λ o. HasRoomForEntries T.TextStore devices.new.redo o.takens.items) }
    ensures empty { IfOk result (λ o. o.page.items ≡ []) }
    ensures page_room { IfOk result (λ o. 82 ≤ vec_capacity o.page) }
    ensures settled { D.faithful devices.old.image → T.faithful devices.old.journal → T.faithful devices.old.redo
        → OnOk result (AreSettled D.Device T.TextStore devices.new) }
    ensures kind { IfErr result DeviceFault }
    ensures stayed { HaveStayed D.Device T.TextStore devices.old devices.new }
    ensures found_before { FoundBefore D.Device T.TextStore devices.old devices.new }
    ensures no_failure { AreUnfailed D.Device T.TextStore devices.old devices.new result }
    ensures counts { AreCounted D.Device T.TextStore devices.old devices.new result }
{
    let taking = match take_records(alloc, devices, read, k) {
        Ok(taking) => taking,
        Err(fault) => return Err(fault),
    };
    settle(devices)?;
    Ok(taking)
}
