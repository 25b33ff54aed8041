//! A record is made with zeros for its bytes, and filled later, when no memory may be taken.
ghost use Rattle.std.specs.Prelude.{◌≡◌, ◌+◌, ◌<◌, ◌≤◌, ℕ, length, All, IfOk, OnOk, is_err};
ghost use Rattle.bx_image.specs.declared.change.Change.{Change as ChangeOf};
ghost use Rattle.bx_image.specs.Change.{saved, AllWithin, AreBytes, HaveBytes, IsOf};
ghost use Rattle.bx_image.specs.Device.{GoesOn};
ghost use Rattle.bx_image.specs.Image.{zeros};
ghost use Rattle.bx_image.specs.Power.{NoMore};
ghost use Rattle.bx_image.specs.Runs.{IsRunOf, AreRunsOf, LieBelow, HaveShape, IsSavedAnew};
ghost use Rattle.bx_image.specs.Over.{saved_over, LieWithin};
ghost use Rattle.bx_image.specs.private.Spans.{StandOver};

use crate::record::spans::{Span, touched};
use crate::record::{Saved, are_bytes};
use crate::{Change, Device, DeviceFailed, NoMemory};
use bx_text::{Bytes, Piece, Pieces};
use std::alloc::{AllocError, Allocator};

/// What `save` would read of an image of this length, with zeros for its bytes. `Saved::fill` reads them.
///
/// # Errors
/// `NoMemory` where a growth is refused.
pub fn room<A: Allocator + Clone>(
    alloc: A,
    change: &Change<A>,
    len: u64,
) -> Result<Saved<A>, NoMemory>
    ensures zeros { IfOk result (λ s. s ≡ saved change.now (zeros len)) }
    ensures within { IfOk result (λ s. AllWithin s.len s.runs) }
    ensures below { IfOk result (λ s. LieBelow len s.runs) }
{
    match zero_record(alloc, change.base, change.writes.as_slice(), len) {
        Ok(record) => Ok(record),
        Err(_) => Err(NoMemory),
    }
}

/// What is saved of an image of this length in these ranges, with zeros for its bytes. `Saved::fill` reads them.
///
/// # Errors
/// `NoMemory` where a growth is refused.
pub fn zeros_over<A: Allocator + Clone>(
    alloc: A,
    spans: &[Span],
    len: u64,
) -> Result<Saved<A>, NoMemory>
    requires within { LieWithin len spans.now }
    ensures zeros { IfOk result (λ s. s ≡ saved_over (zeros len) spans.now) }
    ensures within { IfOk result (λ s. AllWithin s.len s.runs) }
    ensures below { IfOk result (λ s. LieBelow len s.runs) }
{
    match zero_runs(alloc, spans) {
        Ok(runs) => Ok(Saved {
            len,
            runs: Pieces::from_vec(runs),
        }),
        Err(_) => Err(NoMemory),
    }
}

// What a change with this base and these writes takes of an image of this length, with zeros for its bytes.
fn zero_record<A: Allocator + Clone>(
    alloc: A,
    base: Option<u64>,
    writes: &[Piece<A>],
    len: u64,
) -> Result<Saved<A>, AllocError>
    ensures zeros { IfOk result (λ s. (change : ChangeOf A) → change.base ≡ base → change.writes ≡ writes.now → s ≡ saved change (zeros len)) }
    ensures len { IfOk result (λ s. s.len ≡ len) }
    ensures within { IfOk result (λ s. AllWithin s.len s.runs) }
    ensures below { IfOk result (λ s. LieBelow len s.runs) }
{
    let spans = touched(alloc.clone()?, base, writes, len)?;
    let runs = zero_runs(alloc, spans.as_slice())?;
    Ok(Saved {
        len,
        runs: Pieces::from_vec(runs),
    })
}

// A run of zeros over each of the ranges.
fn zero_runs<A: Allocator + Clone>(alloc: A, spans: &[Span]) -> Result<Vec<Piece<A>, A>, AllocError>
    requires order { All (λ s. s.at ≤ s.end) spans.now }
    ensures over { IfOk result (λ runs. StandOver spans.now runs.items) }
    ensures runs { IfOk result (λ runs. (len : ℕ) → LieWithin len spans.now → AreRunsOf (zeros len) runs.items) }
{
    let mut runs = Vec::with_capacity(alloc.clone()?, spans.len())?;
    for span in spans {
        runs.push(zero_run(alloc.clone()?, span.at, span.end)?)?;
    }
    Ok(runs)
}

fn zero_run<A: Allocator>(alloc: A, at: u64, end: u64) -> Result<Piece<A>, AllocError>
    requires order { at ≤ end }
    ensures at { IfOk result (λ run. run.at ≡ at) }
    ensures end { IfOk result (λ run. run.at + length run.bytes ≡ end) }
    ensures run { IfOk result (λ run. (len : ℕ) → end ≤ len → IsRunOf (zeros len) run) }
{
    let len = (end - at) as usize;
    let mut bytes = Vec::with_capacity(alloc, len)?;
    bytes.resize(len, 0)?;
    Ok(Piece {
        at,
        bytes: Bytes::from_vec(bytes),
    })
}

impl<A: Allocator> Saved<A> {
    /// Reads the bytes of the runs from the image. It takes no memory, and the image stays. After a fault the runs
    /// have their addresses and lengths; what bytes they have then isn't said.
    pub fn fill<D: Device>(&mut self, device: &mut D) -> Result<(), DeviceFailed>
        requires countable { D.failures device.old < u64.MAX }
        requires range { D.faithful device.old → LieBelow (length (D.image device.old)) self.old.runs }
        ensures len { self.new.len ≡ self.old.len }
        ensures shape { HaveShape self.old.runs self.new.runs }
        ensures bytes { OnOk result (HaveBytes self.new.runs) }
        ensures read { D.faithful device.old → OnOk result (AreRunsOf (D.image device.old) self.new.runs) }
        ensures kept { D.faithful device.old → self.old.len ≡ length (D.image device.old) → OnOk result (IsOf self.new (D.image device.old)) }
        ensures saved { D.faithful device.old → OnOk result (IsSavedAnew self.old self.new (D.image device.old)) }
        ensures image { D.faithful device.old → D.image device.new ≡ D.image device.old }
        ensures survives { D.faithful device.old → NoMore (D.survives device.old) (D.survives device.new) }
        ensures goes_on { GoesOn D.faithful D.room D.failures (is_err result) device.old device.new }
    {
        fill_runs(device, self.runs.as_mut_slice())
    }
}

// Reads the bytes of each run.
#[tactic(auto, using(crate::proofs::Devices::GoesOn_then))]
fn fill_runs<D: Device, A: Allocator>(
    device: &mut D,
    runs: &mut [Piece<A>],
) -> Result<(), DeviceFailed>
    requires countable { D.failures device.old < u64.MAX }
    requires range { D.faithful device.old → LieBelow (length (D.image device.old)) runs.old }
    ensures shape { HaveShape runs.old runs.new }
    ensures bytes { OnOk result (HaveBytes runs.new) }
    ensures read { D.faithful device.old → OnOk result (AreRunsOf (D.image device.old) runs.new) }
    ensures image { D.faithful device.old → D.image device.new ≡ D.image device.old }
    ensures survives { D.faithful device.old → NoMore (D.survives device.old) (D.survives device.new) }
    ensures goes_on { GoesOn D.faithful D.room D.failures (is_err result) device.old device.new }
{
    for run in runs.iter_mut() {
        fill_run(device, run)?;
    }
    Ok(())
}

fn fill_run<D: Device, A: Allocator>(device: &mut D, run: &mut Piece<A>) -> Result<(), DeviceFailed>
    requires countable { D.failures device.old < u64.MAX }
    requires range { D.faithful device.old → run.old.at + length run.old.bytes ≤ length (D.image device.old) }
    ensures at { run.new.at ≡ run.old.at }
    ensures len { length run.new.bytes ≡ length run.old.bytes }
    ensures bytes { AreBytes run.new.bytes }
    ensures read { D.faithful device.old → OnOk result (IsRunOf (D.image device.old) run.new) }
    ensures image { D.faithful device.old → D.image device.new ≡ D.image device.old }
    ensures survives { D.faithful device.old → NoMore (D.survives device.old) (D.survives device.new) }
    ensures goes_on { GoesOn D.faithful D.room D.failures (is_err result) device.old device.new }
{
    let result = device.read_at(run.at, run.bytes.as_mut_slice());
    are_bytes(run.bytes.as_slice());
    result
}
