//! What some undos will overwrite: the ranges of the image, and then records of zeros over them.
ghost use Rattle.std.specs.Prelude.{◌≡◌, ◌+◌, ◌<◌, ◌≤◌, ◌&&◌, ◌||◌, ℕ, List, length, drop, min, reverse, All, IfOk, IfErr};
ghost use Rattle.bx_image.specs.declared.change.Change.{Change as ChangeOf};
ghost use Rattle.bx_image.specs.Change.{saved, Restores};
ghost use Rattle.bx_image.specs.Over.{saved_over, LeavesZerosOut, LieWithin};
ghost use Rattle.bx_image.specs.Power.{NoMore};
ghost use Rattle.bx_journal_model.specs.Fault.{LacksOrFails};
ghost use Rattle.bx_journal_model.specs.Looking.{LooksAt};
ghost use Rattle.bx_journal_protocol.specs.before.Overwritten.{AreAllWithin, AreOverwrittenOf, HasZerosBesides, HasZerosBut, HaveRoom, IsOverwrittenOf};
ghost use Rattle.bx_journal_protocol.specs.protocol.Takens.{AllShaped, length_at};

use crate::before::spans::{joined, push_ranges, push_records, whole};
use bx_image::{
    Device, ImageFault, MAX_LEN, Saved, Span, touched_but_zeros, touched_to_restore, zeros_over,
};
use bx_journal_format::EntryRead;
use bx_journal_model::SessionFault;
use std::alloc::{AllocError, Allocator, Global};

/// The ranges that restoring an entry overwrites of an image of `len` bytes.
#[derive(Drop)]
pub struct Overwritten<A: Allocator = Global> {
    pub len: u64,
    pub ranges: Vec<Span, A>,
}

/// The least length that one of the entries restores, and at most `len`.
fn least_of<A: Allocator>(entries: &[EntryRead<A>], len: u64) -> u64
    ensures least { All (λ e. result ≤ e.kept.len) entries.now }
    ensures most { result ≤ len }
{
    let mut least = len;
    for entry in entries {
        least = least.min(entry.kept.len);
    }
    least
}

/// The blocks of the image that have other than zeros, from an address on. An image that is longer than an entry can tell isn't
/// looked at.
fn blocks_from<D: Device, A: Allocator + Clone>(
    alloc: A,
    image: &mut D,
    base: u64,
    len: u64,
) -> Result<Vec<Span, A>, SessionFault>
    requires countable { D.failures image.old < u64.MAX }
    requires long { D.faithful image.old → len ≡ length (D.image image.old) }
    ensures zeros { D.faithful image.old → IfOk result (λ blocks. HasZerosBut base (D.image image.old) blocks.items) }
    ensures fault { IfErr result LacksOrFails }
    ensures looks { LooksAt D.faithful D.image D.failures result image.old image.new }
    ensures survives { D.faithful image.old → NoMore (D.survives image.old) (D.survives image.new) }
{
    if len > MAX_LEN {
        return match whole(alloc, base, len) {
            Ok(one) => Ok(one),
            Err(_) => Err(SessionFault::NoMemory),
        };
    }
    let none = zeros_over(alloc.clone()?, &[], base)?;
    match touched_but_zeros(alloc, image, &none, len) {
        Ok(blocks) => Ok(blocks),
        Err(ImageFault::DeviceFailed) => Err(SessionFault::DeviceFailed),
        Err(_) => Err(SessionFault::NoMemory),
    }
}

/// The ranges that restoring an entry overwrites of an image of `above` bytes, but from the length on that it leaves only these blocks
/// and what the records of newer entries have there.
fn ranges_of<A: Allocator + Clone>(
    alloc: A,
    entry: &EntryRead<A>,
    newer: &[EntryRead<A>],
    blocks: &[Span],
    above: u64,
) -> Result<Vec<Span, A>, AllocError>
    ensures zeros { (x : List ℕ) → length x ≡ above → HasZerosBesides entry.now.kept.len x blocks.now newer.now
        → IfOk result (λ ranges. (c : ChangeOf A) → Restores c entry.now.kept
        → LeavesZerosOut entry.now.kept.len (saved c x) (saved_over {A = A} x ranges.items)) }
    ensures within { IfOk result (λ ranges. LieWithin above ranges.items) }
{
    let base = entry.kept.len;
    let mut ranges = touched_to_restore(alloc.clone()?, &entry.kept, above.min(base))?;
    if above <= base {
        return Ok(ranges);
    }
    push_ranges(&mut ranges, blocks, base, above)?;
    push_records(&mut ranges, newer, base, above)?;
    joined(alloc, ranges)
}

/// What restoring an entry overwrites of an image of this length, without what are zeros from the length on that it leaves: they need no
/// record. Of an image that is longer than an entry can tell it is nothing.
fn overwritten_of<A: Allocator + Clone>(
    alloc: A,
    entry: &EntryRead<A>,
    newer: &[EntryRead<A>],
    blocks: &[Span],
    above: u64,
) -> Result<Overwritten<A>, SessionFault>
    ensures overwritten { (x : List ℕ) → length x ≡ above → HasZerosBesides entry.now.kept.len x blocks.now newer.now
        → IfOk result (IsOverwrittenOf x entry.now) }
    ensures within { IfOk result (λ o. LieWithin o.len o.ranges.items) }
    ensures kind { IfErr result (λ e. e ≡ SessionFault.NoMemory) }
{
    if above > MAX_LEN {
        return Ok(Overwritten {
            len: above,
            ranges: Vec::new(alloc),
        });
    }
    match ranges_of(alloc, entry, newer, blocks, above) {
        Ok(ranges) => Ok(Overwritten { len: above, ranges }),
        Err(_) => Err(SessionFault::NoMemory),
    }
}

/// The length of the image that restoring the entry at a place starts from, where `len` is that of the image now: the
/// entries above it are restored before.
pub fn length_above<A: Allocator>(entries: &[EntryRead<A>], place: usize, len: u64) -> u64
    requires { place < length entries.now }
    ensures { result ≡ length_at (drop (place + 1) entries.now) len }
{
    match entries.get(place + 1) {
        Some(above) => above.kept.len,
        None => len,
    }
}

/// What restoring each of the entries overwrites, in their order, where the image has `len` bytes, and zeros but in these blocks.
fn all_overwritten<A: Allocator + Clone>(
    alloc: &A,
    entries: &[EntryRead<A>],
    blocks: &[Span],
    len: u64,
) -> Result<Vec<Overwritten<A>, A>, SessionFault>
    ensures overwritten { (base : ℕ) (x : List ℕ) → All (λ e. base ≤ e.kept.len) entries.now → length x ≡ len → HasZerosBut base x blocks.now
        → IfOk result (λ os. AreOverwrittenOf x (reverse entries.now) (reverse os.items)) }
    ensures within { IfOk result (λ os. AreAllWithin os.items) }
    ensures count { IfOk result (λ os. length os.items ≡ length entries.now) }
    ensures kind { IfErr result (λ e. e ≡ SessionFault.NoMemory) }
{
    let count = entries.len();
    let mut all = Vec::with_capacity(alloc.clone()?, count)?;
    for place in 0..count {
        let above = length_above(entries, place, len);
        let (_, newer) = entries.split_at(place + 1);
        let one = overwritten_of(alloc.clone()?, &entries[place], newer, blocks, above)?;
        if all.push(one).is_err() {
            return Err(SessionFault::NoMemory);
        }
    }
    Ok(all)
}

/// What restoring each of the entries overwrites, in their order, where the image has `len` bytes. The image is looked at for zeros once;
/// what it will be below the newest entry has no others than these, but for what the records of newer entries put there.
pub fn overwritten_from<D: Device, A: Allocator + Clone>(
    alloc: &A,
    image: &mut D,
    entries: &[EntryRead<A>],
    len: u64,
) -> Result<Vec<Overwritten<A>, A>, SessionFault>
    requires countable { D.failures image.old < u64.MAX }
    requires long { D.faithful image.old → len ≡ length (D.image image.old) }
    ensures overwritten { D.faithful image.old → IfOk result (λ os. AreOverwrittenOf (D.image image.old) (reverse entries.now) (reverse os.items)) }
    ensures within { IfOk result (λ os. AreAllWithin os.items) }
    ensures count { IfOk result (λ os. length os.items ≡ length entries.now) }
    ensures fault { IfErr result LacksOrFails }
    ensures looks { LooksAt D.faithful D.image D.failures result image.old image.new }
    ensures survives { D.faithful image.old → NoMore (D.survives image.old) (D.survives image.new) }
{
    let base = least_of(entries, len);
    let blocks = blocks_from(alloc.clone()?, image, base, len)?;
    all_overwritten(alloc, entries, blocks.as_slice(), len)
}

/// A record of zeros for each, in their order.
pub fn all_zeros<A: Allocator + Clone>(
    alloc: &A,
    overwritten: &[Overwritten<A>],
) -> Result<Vec<Saved<A>, A>, SessionFault>
    requires within { AreAllWithin overwritten.now }
    ensures room { IfOk result (λ ts. HaveRoom overwritten.now ts.items) }
    ensures shaped { IfOk result (λ ts. AllShaped ts.items) }
    ensures count { IfOk result (λ ts. length ts.items ≡ length overwritten.now) }
    ensures kind { IfErr result (λ e. e ≡ SessionFault.NoMemory) }
{
    let mut takens = Vec::with_capacity(alloc.clone()?, overwritten.len())?;
    for one in overwritten {
        let taken = zeros_over(alloc.clone()?, one.ranges.as_slice(), one.len)?;
        if takens.push(taken).is_err() {
            return Err(SessionFault::NoMemory);
        }
    }
    Ok(takens)
}
