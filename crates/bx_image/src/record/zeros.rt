//! What restoring a record overwrites of an image, without zeros that the image's length gives back.
ghost use Rattle.std.specs.Prelude.{◌≡◌, ◌+◌, ◌<◌, ◌≤◌, ◌^◌, ◌||◌, ℕ, List, length, slice_index, IfOk, true, ◌==◌, OnOk, IsErrOf};
ghost use Rattle.std.specs.List.{list_all};
ghost use Rattle.bx_image.specs.declared.change.Change.{Change as ChangeOf};
ghost use Rattle.bx_image.specs.Change.{saved, Restores};
ghost use Rattle.bx_image.specs.Device.{GoesOn, has_failed};
ghost use Rattle.bx_image.specs.Over.{saved_over, LeavesZerosOut, LieWithin};
ghost use Rattle.bx_image.specs.Power.{NoMore};
ghost use Rattle.bx_image.specs.private.Spans.{are_over, is_between, AddAllButZeros};

use crate::record::Saved;
use crate::record::spans::{Span, push, touched};
use crate::{Device, ImageFault};
use std::alloc::{AllocError, Allocator};

/// The count of addresses that are looked at together. A run of zeros that is shorter is kept: its lines are few.
const BLOCK: u64 = 4096;

/// The ranges of `touched_to_restore`, but that from the record's length on each block of 4,096 addresses is left out whose
/// bytes are zeros: an image that grows to its length has them there anyway. The image is read block by block, and stays.
/// `TooLarge` is never answered.
///
/// # Errors
/// `DeviceFailed` where the device fails, `NoMemory` where a growth is refused.
pub fn touched_but_zeros<D: Device, A: Allocator + Clone>(
    alloc: A,
    device: &mut D,
    kept: &Saved<A>,
    len: u64,
) -> Result<Vec<Span, A>, ImageFault>
    requires countable { D.failures device.old < u64.MAX }
    requires long { D.faithful device.old → len ≡ length (D.image device.old) }
    ensures zeros { D.faithful device.old → IfOk result (λ spans. (change : ChangeOf A) → Restores change kept.now
        → LeavesZerosOut kept.now.len (saved change (D.image device.old)) (saved_over {A = A} (D.image device.old) spans.items)) }
    ensures within { IfOk result (λ spans. LieWithin len spans.items) }
    ensures image { D.faithful device.old → D.image device.new ≡ D.image device.old }
    ensures survives { D.faithful device.old → NoMore (D.survives device.old) (D.survives device.new) }
    ensures never_too_large { IsErrOf result ImageFault.TooLarge → ⊥ }
    ensures goes_on { GoesOn D.faithful D.room D.failures (has_failed result) device.old device.new }
{
    let base = kept.len;
    let mut spans = touched(
        alloc.clone()?,
        Some(base),
        kept.runs.as_slice(),
        len.min(base),
    )?;
    let mut window = vec![in alloc; 0u8; BLOCK as usize]?;
    match push_blocks(device, &mut spans, window.as_mut_slice(), base, len) {
        Ok(()) => Ok(spans),
        Err(fault) => Err(fault),
    }
}

// Whether bytes are all zeros.
fn are_zeros(bytes: &[u8]) -> bool
    ensures { result ≡ list_all (λ b. b == 0) bytes.now }
{
    bytes.iter().all(|byte| *byte == 0)
}

// Whether a block of the image is all zeros. It is read into the front of a window.
fn has_zeros<D: Device>(
    device: &mut D,
    window: &mut [u8],
    at: u64,
    count: u64,
) -> Result<bool, ImageFault>
    requires countable { D.failures device.old < u64.MAX }
    requires few { count ≤ length window.old }
    requires range { D.faithful device.old → at + count ≤ length (D.image device.old) }
    ensures zeros { D.faithful device.old → IfOk result (λ zeros. zeros ≡ true → (i : ℕ) → at ≤ i → i < at + count → slice_index (D.image device.old) i ≡ 0) }
    ensures window { length window.new ≡ length window.old }
    ensures image { D.faithful device.old → D.image device.new ≡ D.image device.old }
    ensures survives { D.faithful device.old → NoMore (D.survives device.old) (D.survives device.new) }
    ensures never_too_large { IsErrOf result ImageFault.TooLarge → ⊥ }
    ensures goes_on { GoesOn D.faithful D.room D.failures (has_failed result) device.old device.new }
{
    let (part, _) = window.split_at_mut(count as usize);
    device.read_at(at, part)?;
    Ok(are_zeros(part))
}

// Takes the last range off where it ends at an address, and answers where it begins, else that address.
fn take_before<A: Allocator>(spans: &mut Vec<Span, A>, base: u64) -> Result<u64, AllocError>
    ensures over { IfOk result (λ from. (i : ℕ) → (are_over spans.new.items i || is_between from base i) ≡ are_over spans.old.items i) }
    ensures within { (len : ℕ) → LieWithin len spans.old.items
        → IfOk result (λ from. LieWithin len spans.new.items × (from ≤ base) × (from < base → base ≤ len)) }
{
    let Some(last) = spans.pop() else {
        return Ok(base);
    };
    if last.end == base {
        return Ok(last.at);
    }
    push(spans, last.at, last.end)?;
    Ok(base)
}

// Adds what stands from an address on, without the blocks that are zeros.
#[tactic(auto, using(crate::proofs::Devices::GoesOn_then))]
fn push_blocks<D: Device, A: Allocator>(
    device: &mut D,
    spans: &mut Vec<Span, A>,
    window: &mut [u8],
    base: u64,
    len: u64,
) -> Result<(), ImageFault>
    requires countable { D.failures device.old < u64.MAX }
    requires block { 4096 ≤ length window.old }
    requires long { D.faithful device.old → len ≡ length (D.image device.old) }
    requires within { LieWithin len spans.old.items }
    ensures over { D.faithful device.old → OnOk result (AddAllButZeros (D.image device.old) base len spans.old.items spans.new.items) }
    ensures within { OnOk result (LieWithin len spans.new.items) }
    ensures image { D.faithful device.old → D.image device.new ≡ D.image device.old }
    ensures survives { D.faithful device.old → NoMore (D.survives device.old) (D.survives device.new) }
    ensures never_too_large { IsErrOf result ImageFault.TooLarge → ⊥ }
    ensures goes_on { GoesOn D.faithful D.room D.failures (has_failed result) device.old device.new }
{
    let mut from = take_before(spans, base)?;
    let mut at = base;
    while at < len {
        let end = at + BLOCK.min(len - at);
        if has_zeros(device, window, at, end - at)? {
            push(spans, from, at)?;
            from = end;
        }
        at = end;
    }
    push(spans, from, at)?;
    Ok(())
}
