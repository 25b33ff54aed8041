//! A device that fails on purpose, for tests (fault injection).
ghost use Rattle.std.specs.Prelude.{◌≡◌, ◌↔◌, ◌+◌, ◌-◌, ◌/◌, ◌<◌, ◌≤◌, ℕ, length, min, max, is_err, if◌then◌else◌, OnOk, take};
ghost use Rattle.bx_image.specs.Device.{GoesOn, IsPartlyWritten, IsPartlyCut};
ghost use Rattle.bx_image.specs.Fuse.{is_blown, after_call};
ghost use Rattle.bx_image.specs.private.Fuse.{part_of, reached};
ghost use Rattle.bx_image.specs.Image.{place, cut};
ghost use Rattle.bx_image.specs.Power.{Follows, KeepsOutside, KeepsBelow};

use crate::{Device, DeviceFailed, NoMemory};
use std::marker::Model;

/// How much of a call that fails takes effect.
#[derive(Clone, Copy, Debug, PartialEq, Eq)]
pub enum Part {
    /// Nothing of it.
    Nothing,
    /// The first half of the bytes, or of the change of the length, rounded down.
    Half,
    /// All of it.
    All,
}

/// Which of the calls to come fail on purpose.
#[derive(Clone, Copy, Debug, PartialEq, Eq)]
pub enum Fuse {
    /// None of them.
    Never,
    /// All but the first ones, as many as the number says.
    After(u64),
    /// The one after the first ones, as many as the number says.
    Once(u64),
}

impl Fuse {
    /// A fuse that passes `pass` calls, and then fails one, or all.
    pub fn new(pass: u64, once: bool) -> Self
        ensures { result ≡ (if once then Fuse.Once pass else Fuse.After pass) }
    {
        if once {
            Fuse::Once(pass)
        } else {
            Fuse::After(pass)
        }
    }

    /// Takes note of one call, and tells whether it is to fail.
    pub fn blows(&mut self) -> bool
        ensures blown { result ≡ is_blown self.old }
        ensures after { self.new ≡ after_call self.old }
    {
        match *self {
            Fuse::Never => false,
            Fuse::After(0) => true,
            Fuse::After(pass) => {
                *self = Fuse::After(pass - 1);
                false
            }
            Fuse::Once(0) => {
                *self = Fuse::Never;
                true
            }
            Fuse::Once(pass) => {
                *self = Fuse::Once(pass - 1);
                false
            }
        }
    }
}

// Counts a failure.
fn failed(failures: &mut u64) -> DeviceFailed
    requires { failures.old < u64.MAX }
    ensures { failures.new ≡ failures.old + 1 }
{
    *failures += 1;
    DeviceFailed
}

// A write that takes effect only in part.
fn write_partly<D: Device>(
    device: &mut D,
    at: u64,
    bytes: &[u8],
    part: Part,
) -> Result<(), DeviceFailed>
    requires countable { D.failures device.old < u64.MAX }
    requires room { at + length bytes.now ≤ D.room device.old }
    ensures part { D.faithful device.old → OnOk result (D.image device.new ≡ place (D.image device.old) at (take (part_of part (length bytes.now)) bytes.now)) }
    ensures written { D.faithful device.old → IsPartlyWritten at (length bytes.now) (D.image device.old) (D.image device.new) }
    ensures survives { D.faithful device.old → Follows (KeepsOutside at (length bytes.now)) (D.survives device.old) (D.survives device.new) }
    ensures goes_on { GoesOn D.faithful D.room D.failures (is_err result) device.old device.new }
{
    match part {
        Part::Nothing => Ok(()),
        Part::Half => device.write_at(at, &bytes[..bytes.len() / 2]),
        Part::All => device.write_at(at, bytes),
    }
}

// How far a step from one length to another goes that is made only half.
fn half_way(from: u64, to: u64) -> u64
    ensures at_least { min from to ≤ result }
    ensures at_most { result ≤ max from to }
    ensures half { result ≡ reached Part.Half from to }
{
    if from < to {
        from + (to - from) / 2
    } else {
        from - (from - to) / 2
    }
}

// A change of the length that goes only half the way.
fn cut_half<D: Device>(device: &mut D, n: u64) -> Result<(), DeviceFailed>
    requires countable { D.failures device.old < u64.MAX }
    requires room { n ≤ D.room device.old }
    ensures part { D.faithful device.old → OnOk result (D.image device.new ≡ cut (D.image device.old) (reached Part.Half (length (D.image device.old)) n)) }
    ensures cut { D.faithful device.old → IsPartlyCut n (D.image device.old) (D.image device.new) }
    ensures survives { D.faithful device.old → Follows (KeepsBelow (min n (length (D.image device.old)))) (D.survives device.old) (D.survives device.new) }
    ensures goes_on { GoesOn D.faithful D.room D.failures (is_err result) device.old device.new }
{
    let len = device.len()?;
    let target = half_way(len, n).min(device.reserved());
    device.set_len(target)
}

// A change of the length that goes only a part of the way.
fn cut_partly<D: Device>(device: &mut D, n: u64, part: Part) -> Result<(), DeviceFailed>
    requires countable { D.failures device.old < u64.MAX }
    requires room { n ≤ D.room device.old }
    ensures part { D.faithful device.old → OnOk result (D.image device.new ≡ cut (D.image device.old) (reached part (length (D.image device.old)) n)) }
    ensures cut { D.faithful device.old → IsPartlyCut n (D.image device.old) (D.image device.new) }
    ensures survives { D.faithful device.old → Follows (KeepsBelow (min n (length (D.image device.old)))) (D.survives device.old) (D.survives device.new) }
    ensures goes_on { GoesOn D.faithful D.room D.failures (is_err result) device.old device.new }
{
    match part {
        Part::Nothing => Ok(()),
        Part::Half => cut_half(device, n),
        Part::All => device.set_len(n),
    }
}

/// A device on which some calls fail on purpose. It is faithful where the device within is, and
/// `faults` counts its own failed calls from 0.
#[derive(Drop)]
pub struct FuseImage<D: Device> {
    device: D,
    reads: Fuse,
    writes: Fuse,
    part: Part,
    failures: u64,
}

impl<D: Device> Model for FuseImage<D> {
    ghost use Rattle.std.specs.Prelude.{◌≤◌};
    ghost use Rattle.bx_image.specs.Fuse.{Fused};

    ghost Value = { Fused D };

    ghost view = { λ f. record { within = f.device; reads = f.reads; writes = f.writes; part = f.part; failures = f.failures } };

    ghost invariant = { λ f. D.failures f.device ≤ f.failures };
}

impl<D: Device> FuseImage<D> {
    /// Passes `pass` calls of `write_at`, `set_len` and `sync`, then fails the next one if `once`, else all.
    /// `part` of a call that fails on purpose takes effect, and of a sync nothing.
    pub fn new(device: D, pass: u64, part: Part, once: bool) -> Self
        requires { D.failures device ≡ 0 }
        ensures within { result.within ≡ device }
        ensures writes { result.writes ≡ (if once then Fuse.Once pass else Fuse.After pass) }
        ensures reads { result.reads ≡ Fuse.Never }
        ensures part { result.part ≡ part }
        ensures image { ⟦<FuseImage<D> as Device>⟧.image result ≡ D.image device }
        ensures faithful { ⟦<FuseImage<D> as Device>⟧.faithful result ↔ D.faithful device }
        ensures room { ⟦<FuseImage<D> as Device>⟧.room result ≡ D.room device }
        ensures failures { ⟦<FuseImage<D> as Device>⟧.failures result ≡ 0 }
    {
        FuseImage {
            device,
            reads: Fuse::Never,
            writes: Fuse::new(pass, once),
            part,
            failures: 0,
        }
    }

    /// Passes `pass` calls of `len` and `read_at`, then fails all. Calls that write pass.
    pub fn on_reads(device: D, pass: u64) -> Self
        requires { D.failures device ≡ 0 }
        ensures within { result.within ≡ device }
        ensures writes { result.writes ≡ Fuse.Never }
        ensures reads { result.reads ≡ Fuse.After pass }
        ensures image { ⟦<FuseImage<D> as Device>⟧.image result ≡ D.image device }
        ensures faithful { ⟦<FuseImage<D> as Device>⟧.faithful result ↔ D.faithful device }
        ensures room { ⟦<FuseImage<D> as Device>⟧.room result ≡ D.room device }
        ensures failures { ⟦<FuseImage<D> as Device>⟧.failures result ≡ 0 }
    {
        FuseImage {
            device,
            reads: Fuse::After(pass),
            writes: Fuse::Never,
            part: Part::Nothing,
            failures: 0,
        }
    }

    /// The device within, as it is.
    pub fn into_inner(self) -> D
        ensures within { result ≡ self.within }
        ensures image { D.image result ≡ ⟦<FuseImage<D> as Device>⟧.image self }
        ensures faithful { D.faithful result ↔ ⟦<FuseImage<D> as Device>⟧.faithful self }
        ensures room { D.room result ≡ ⟦<FuseImage<D> as Device>⟧.room self }
    {
        let FuseImage { device: inner, .. } = self;
        inner
    }
}

impl<D: Device> Device for FuseImage<D> {
    ghost image = { λ f. D.image f.within };

    ghost faithful = { λ f. D.faithful f.within };

    ghost room = { λ f. D.room f.within };

    ghost failures = { λ f. f.failures };

    ghost survives = { λ f. D.survives f.within };

    ghost within_room = { λ f. D.within_room f.within };

    ghost present = { λ f. D.present f.within };

    fn len(&mut self) -> Result<u64, DeviceFailed> {
        if !self.reads.blows() {
            if let Ok(n) = self.device.len() {
                return Ok(n);
            }
        }
        Err(failed(&mut self.failures))
    }

    fn read_at(&mut self, at: u64, buf: &mut [u8]) -> Result<(), DeviceFailed> {
        if !self.reads.blows() {
            if let Ok(()) = self.device.read_at(at, buf) {
                return Ok(());
            }
        }
        Err(failed(&mut self.failures))
    }

    fn write_at(&mut self, at: u64, bytes: &[u8]) -> Result<(), DeviceFailed> {
        if self.writes.blows() {
            let _ = write_partly(&mut self.device, at, bytes, self.part);
        } else if let Ok(()) = self.device.write_at(at, bytes) {
            return Ok(());
        }
        Err(failed(&mut self.failures))
    }

    fn set_len(&mut self, n: u64) -> Result<(), DeviceFailed> {
        if self.writes.blows() {
            let _ = cut_partly(&mut self.device, n, self.part);
        } else if let Ok(()) = self.device.set_len(n) {
            return Ok(());
        }
        Err(failed(&mut self.failures))
    }

    fn sync(&mut self) -> Result<(), DeviceFailed> {
        if !self.writes.blows() {
            if let Ok(()) = self.device.sync() {
                return Ok(());
            }
        }
        Err(failed(&mut self.failures))
    }

    fn reserve(&mut self, n: u64) -> Result<(), NoMemory> {
        self.device.reserve(n)
    }

    fn reserved(&self) -> u64 {
        self.device.reserved()
    }

    fn faults(&self) -> u64 {
        self.failures
    }
}
