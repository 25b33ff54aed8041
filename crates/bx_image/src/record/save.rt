//! A record is read before the change is applied.
ghost use Rattle.std.specs.Prelude.{◌≡◌, ◌+◌, ◌<◌, ◌≤◌, ◌^◌, ◌++◌, length, take, drop, vec_len, All, IfOk, OnOk, IsErrOf};
ghost use Rattle.bx_image.specs.Change.{saved, AllWithin, HaveBytes, AreBytes, AreNonEmpty, HaveGaps, IsOf};
ghost use Rattle.bx_image.specs.Device.{GoesOn, has_failed};
ghost use Rattle.bx_image.specs.Power.{NoMore};
ghost use Rattle.bx_image.specs.Runs.{IsRunOf, AreRunsOf};
ghost use Rattle.bx_image.specs.Over.{LieWithin};
ghost use Rattle.bx_image.specs.private.Spans.{StandOver};

use crate::record::spans::{Span, touched};
use crate::record::{Saved, are_bytes};
use crate::{Change, Device, ImageFault};
use bx_text::{Bytes, Piece, Pieces};
use std::alloc::Allocator;

/// Reads what a change takes from the image: its length, and the byte at each address below it
/// that a write covers or that lies at or above the base.
///
/// The runs are the maximal ones by rising address, whatever the order and overlap of the writes,
/// and each byte is read once. The image stays. `TooLarge` is never answered.
///
/// # Errors
/// `DeviceFailed` where the device fails, `NoMemory` where a growth is refused.
#[tactic(auto, using(crate::proofs::Devices::GoesOn_then))]
pub fn save<D: Device, A: Allocator + Clone>(
    alloc: A,
    device: &mut D,
    change: &Change<A>,
) -> Result<Saved<A>, ImageFault>
    requires countable { D.failures device.old < u64.MAX }
    ensures saved { D.faithful device.old → IfOk result (λ s. s ≡ saved change.now (D.image device.old)) }
    ensures kept { D.faithful device.old → IfOk result (λ s. IsOf s (D.image device.old)) }
    ensures within { IfOk result (λ s. AllWithin s.len s.runs) }
    ensures bytes { IfOk result (λ s. HaveBytes s.runs) }
    ensures some { IfOk result (λ s. AreNonEmpty s.runs) }
    ensures gaps { IfOk result (λ s. HaveGaps s.runs) }
    ensures image { D.faithful device.old → D.image device.new ≡ D.image device.old }
    ensures survives { D.faithful device.old → NoMore (D.survives device.old) (D.survives device.new) }
    ensures never_too_large { IsErrOf result ImageFault.TooLarge → ⊥ }
    ensures goes_on { GoesOn D.faithful D.room D.failures (has_failed result) device.old device.new }
{
    let len = device.len()?;
    let writes = change.writes.as_slice();
    let spans = touched(alloc.clone()?, change.base, writes, len)?;
    let runs = read_runs(alloc, device, spans.as_slice())?;
    Ok(Saved {
        len,
        runs: Pieces::from_vec(runs),
    })
}

// Reads a run over each of the ranges.
#[tactic(auto, using(crate::proofs::Devices::GoesOn_then))]
fn read_runs<D: Device, A: Allocator + Clone>(
    alloc: A,
    device: &mut D,
    spans: &[Span],
) -> Result<Vec<Piece<A>, A>, ImageFault>
    requires countable { D.failures device.old < u64.MAX }
    requires order { All (λ s. s.at ≤ s.end) spans.now }
    requires range { D.faithful device.old → LieWithin (length (D.image device.old)) spans.now }
    ensures over { IfOk result (λ runs. StandOver spans.now runs.items) }
    ensures bytes { IfOk result (λ runs. HaveBytes runs.items) }
    ensures runs { D.faithful device.old → IfOk result (λ runs. AreRunsOf (D.image device.old) runs.items) }
    ensures image { D.faithful device.old → D.image device.new ≡ D.image device.old }
    ensures survives { D.faithful device.old → NoMore (D.survives device.old) (D.survives device.new) }
    ensures never_too_large { IsErrOf result ImageFault.TooLarge → ⊥ }
    ensures goes_on { GoesOn D.faithful D.room D.failures (has_failed result) device.old device.new }
{
    let mut runs = Vec::with_capacity(alloc.clone()?, spans.len())?;
    for span in spans {
        runs.push(read_run(alloc.clone()?, device, span.at, span.end)?)?;
    }
    Ok(runs)
}

// The count of bytes that are filled with zeros and then read, while they are still at hand.
const PART: usize = 262_144;

// Reads `more` bytes of the image, behind those that were read from an address on.
fn read_more<D: Device, A: Allocator>(
    device: &mut D,
    at: u64,
    bytes: &mut Vec<u8, A>,
    more: usize,
) -> Result<(), ImageFault>
    requires countable { D.failures device.old < u64.MAX }
    requires sum { at + vec_len bytes.old + more < 2 ^ 64 }
    requires range { D.faithful device.old → at + vec_len bytes.old + more ≤ length (D.image device.old) }
    ensures len { OnOk result (vec_len bytes.new ≡ vec_len bytes.old + more) }
    ensures read { D.faithful device.old → OnOk result (bytes.new.items ≡ bytes.old.items ++ take more (drop (at + vec_len bytes.old) (D.image device.old))) }
    ensures image { D.faithful device.old → D.image device.new ≡ D.image device.old }
    ensures survives { D.faithful device.old → NoMore (D.survives device.old) (D.survives device.new) }
    ensures never_too_large { IsErrOf result ImageFault.TooLarge → ⊥ }
    ensures goes_on { GoesOn D.faithful D.room D.failures (has_failed result) device.old device.new }
{
    let from = bytes.len();
    bytes.resize(from + more, 0)?;
    let (_, part) = bytes.as_mut_slice().split_at_mut(from);
    device.read_at(at + from as u64, part)?;
    Ok(())
}

fn read_run<D: Device, A: Allocator>(
    alloc: A,
    device: &mut D,
    at: u64,
    end: u64,
) -> Result<Piece<A>, ImageFault>
    requires countable { D.failures device.old < u64.MAX }
    requires order { at ≤ end }
    requires range { D.faithful device.old → end ≤ length (D.image device.old) }
    ensures at { IfOk result (λ run. run.at ≡ at) }
    ensures end { IfOk result (λ run. run.at + length run.bytes ≡ end) }
    ensures bytes { IfOk result (λ run. AreBytes run.bytes) }
    ensures run { D.faithful device.old → IfOk result (λ run. IsRunOf (D.image device.old) run) }
    ensures image { D.faithful device.old → D.image device.new ≡ D.image device.old }
    ensures survives { D.faithful device.old → NoMore (D.survives device.old) (D.survives device.new) }
    ensures never_too_large { IsErrOf result ImageFault.TooLarge → ⊥ }
    ensures goes_on { GoesOn D.faithful D.room D.failures (has_failed result) device.old device.new }
{
    let len = (end - at) as usize;
    let mut bytes = Vec::with_capacity(alloc, len)?;
    while bytes.len() < len {
        let more = PART.min(len - bytes.len());
        read_more(device, at, &mut bytes, more)?;
    }
    are_bytes(&bytes);
    Ok(Piece {
        at,
        bytes: Bytes::from_vec(bytes),
    })
}
