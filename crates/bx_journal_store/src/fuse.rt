//! A text store that fails on purpose, for tests (fault injection).
ghost use Rattle.std.specs.Prelude.{◌≡◌, ◌↔◌, ◌+◌, ◌-◌, ◌/◌, ◌<◌, ◌≤◌, length, is_err, if◌then◌else◌, ◌++◌, OnOk, take};
ghost use Rattle.bx_image.specs.private.Fuse.{part_of, reached};
ghost use Rattle.bx_image.specs.declared.device.fuse.Part.TheVariants.{Half};
ghost use Rattle.bx_image.specs.Device.{GoesOn};
ghost use Rattle.bx_image.specs.declared.device.fuse.Fuse.TheVariants.{Never, After, Once};
ghost use Rattle.bx_image.specs.Power.{FadesBehind, FadesFrom};
ghost use Rattle.bx_journal_store.specs.Store.{IsPartlyAppended, IsCutInPart};

use crate::{DeviceFailed, NoMemory, TextFault, TextStore};
use bx_image::{Fuse, Part};
use std::alloc::Allocator;
use std::marker::Model;

// Counts a failure.
fn failed(failures: &mut u64) -> DeviceFailed
    requires { failures.old < u64.MAX }
    ensures { failures.new ≡ failures.old + 1 }
{
    *failures += 1;
    DeviceFailed
}

// An append that takes effect only in part.
fn append_partly<T: TextStore>(store: &mut T, bytes: &[u8], part: Part) -> Result<(), DeviceFailed>
    requires countable { T.failures store.old < u64.MAX }
    requires fits { T.faithful store.old → length (T.text store.old) + length bytes.now ≤ T.room store.old }
    ensures part { T.faithful store.old → OnOk result (T.text store.new ≡ T.text store.old ++ take (part_of part (length bytes.now)) bytes.now) }
    ensures fades { T.faithful store.old → FadesBehind (T.text store.old) bytes.now (T.survives store.old) (T.survives store.new) }
    ensures appended { T.faithful store.old → IsPartlyAppended bytes.now (T.text store.old) (T.text store.new) }
    ensures goes_on { GoesOn T.faithful T.room T.failures (is_err result) store.old store.new }
{
    match part {
        Part::Nothing => Ok(()),
        Part::Half => store.append(&bytes[..bytes.len() / 2]),
        Part::All => store.append(bytes),
    }
}

// A cut that goes only half the way.
fn cut_half<T: TextStore>(store: &mut T, n: u64) -> Result<(), DeviceFailed>
    requires countable { T.failures store.old < u64.MAX }
    requires within { T.faithful store.old → n ≤ length (T.text store.old) }
    ensures part { T.faithful store.old → OnOk result (T.text store.new ≡ take (reached Half (length (T.text store.old)) n) (T.text store.old)) }
    ensures fades { T.faithful store.old → FadesFrom n (T.survives store.old) (T.survives store.new) }
    ensures cut { T.faithful store.old → IsCutInPart n (T.text store.old) (T.text store.new) }
    ensures goes_on { GoesOn T.faithful T.room T.failures (is_err result) store.old store.new }
{
    let len = store.len()?;
    if n < len {
        store.cut(len - (len - n) / 2)
    } else {
        Ok(())
    }
}

// A cut that goes only a part of the way.
fn cut_partly<T: TextStore>(store: &mut T, n: u64, part: Part) -> Result<(), DeviceFailed>
    requires countable { T.failures store.old < u64.MAX }
    requires within { T.faithful store.old → n ≤ length (T.text store.old) }
    ensures part { T.faithful store.old → OnOk result (T.text store.new ≡ take (reached part (length (T.text store.old)) n) (T.text store.old)) }
    ensures fades { T.faithful store.old → FadesFrom n (T.survives store.old) (T.survives store.new) }
    ensures cut { T.faithful store.old → IsCutInPart n (T.text store.old) (T.text store.new) }
    ensures goes_on { GoesOn T.faithful T.room T.failures (is_err result) store.old store.new }
{
    match part {
        Part::Nothing => Ok(()),
        Part::Half => cut_half(store, n),
        Part::All => store.cut(n),
    }
}

/// A text store on which some calls fail on purpose. It is faithful where the store within is, and
/// `faults` counts its own failed calls from 0.
#[derive(Drop)]
pub struct FuseText<T: TextStore> {
    store: T,
    reads: Fuse,
    writes: Fuse,
    part: Part,
    failures: u64,
}

impl<T: TextStore> Model for FuseText<T> {
    ghost use Rattle.std.specs.Prelude.{◌≤◌};
    ghost use Rattle.bx_image.specs.Fuse.{Fused};

    ghost Value = { Fused T };

    ghost view = { λ f. record { within = f.store; reads = f.reads; writes = f.writes; part = f.part; failures = f.failures } };

    ghost invariant = { λ f. T.failures f.store ≤ f.failures };
}

impl<T: TextStore> FuseText<T> {
    /// Passes `pass` calls of `append`, `cut` and `sync`, then fails the next one if `once`, else all.
    /// `part` of a call that fails on purpose takes effect, and of a sync nothing.
    pub fn new(store: T, pass: u64, part: Part, once: bool) -> Self
        requires { T.failures store ≡ 0 }
        ensures within { result.within ≡ store }
        ensures writes { result.writes ≡ (if once then Once pass else After pass) }
        ensures reads { result.reads ≡ Never }
        ensures part { result.part ≡ part }
        ensures text { ⟦<FuseText<T> as TextStore>⟧.text result ≡ T.text store }
        ensures faithful { ⟦<FuseText<T> as TextStore>⟧.faithful result ↔ T.faithful store }
        ensures room { ⟦<FuseText<T> as TextStore>⟧.room result ≡ T.room store }
        ensures failures { ⟦<FuseText<T> as TextStore>⟧.failures result ≡ 0 }
    {
        FuseText {
            store,
            reads: Fuse::Never,
            writes: Fuse::new(pass, once),
            part,
            failures: 0,
        }
    }

    /// Passes `pass` calls of `len`, `read_all` and `read_at`, then fails all. Calls that write pass.
    pub fn on_reads(store: T, pass: u64) -> Self
        requires { T.failures store ≡ 0 }
        ensures within { result.within ≡ store }
        ensures writes { result.writes ≡ Never }
        ensures reads { result.reads ≡ After pass }
        ensures text { ⟦<FuseText<T> as TextStore>⟧.text result ≡ T.text store }
        ensures faithful { ⟦<FuseText<T> as TextStore>⟧.faithful result ↔ T.faithful store }
        ensures room { ⟦<FuseText<T> as TextStore>⟧.room result ≡ T.room store }
        ensures failures { ⟦<FuseText<T> as TextStore>⟧.failures result ≡ 0 }
    {
        FuseText {
            store,
            reads: Fuse::After(pass),
            writes: Fuse::Never,
            part: Part::Nothing,
            failures: 0,
        }
    }

    /// The store within, as it is.
    pub fn into_inner(self) -> T
        ensures within { result ≡ self.within }
        ensures text { T.text result ≡ ⟦<FuseText<T> as TextStore>⟧.text self }
        ensures faithful { T.faithful result ↔ ⟦<FuseText<T> as TextStore>⟧.faithful self }
        ensures room { T.room result ≡ ⟦<FuseText<T> as TextStore>⟧.room self }
    {
        let FuseText { store: inner, .. } = self;
        inner
    }
}

impl<T: TextStore> TextStore for FuseText<T> {
    ghost text = { λ f. T.text f.within };

    ghost faithful = { λ f. T.faithful f.within };

    ghost room = { λ f. T.room f.within };

    ghost failures = { λ f. f.failures };

    ghost survives = { λ f. T.survives f.within };

    ghost empties_at_once = { ⊥ };

    ghost present = { λ f. T.present f.within };

    fn len(&mut self) -> Result<u64, DeviceFailed> {
        if !self.reads.blows() {
            if let Ok(n) = self.store.len() {
                return Ok(n);
            }
        }
        Err(failed(&mut self.failures))
    }

    fn read_all<A: Allocator>(&mut self, alloc: A) -> Result<Vec<u8, A>, TextFault> {
        if !self.reads.blows() {
            match self.store.read_all(alloc) {
                Ok(bytes) => return Ok(bytes),
                Err(TextFault::NoMemory) => return Err(TextFault::NoMemory),
                Err(TextFault::DeviceFailed) => {}
            }
        }
        self.failures += 1;
        Err(TextFault::DeviceFailed)
    }

    fn read_at(&mut self, at: u64, buf: &mut [u8]) -> Result<(), DeviceFailed> {
        if !self.reads.blows() {
            if let Ok(()) = self.store.read_at(at, buf) {
                return Ok(());
            }
        }
        Err(failed(&mut self.failures))
    }

    fn append(&mut self, bytes: &[u8]) -> Result<(), DeviceFailed> {
        if self.writes.blows() {
            let _ = append_partly(&mut self.store, bytes, self.part);
        } else if let Ok(()) = self.store.append(bytes) {
            return Ok(());
        }
        Err(failed(&mut self.failures))
    }

    fn cut(&mut self, n: u64) -> Result<(), DeviceFailed> {
        if self.writes.blows() {
            let _ = cut_partly(&mut self.store, n, self.part);
        } else if let Ok(()) = self.store.cut(n) {
            return Ok(());
        }
        Err(failed(&mut self.failures))
    }

    fn sync(&mut self) -> Result<(), DeviceFailed> {
        if !self.writes.blows() {
            if let Ok(()) = self.store.sync() {
                return Ok(());
            }
        }
        Err(failed(&mut self.failures))
    }

    fn reserve(&mut self, n: u64) -> Result<(), NoMemory> {
        self.store.reserve(n)
    }

    fn reserved(&self) -> u64 {
        self.store.reserved()
    }

    fn faults(&self) -> u64 {
        self.failures
    }
}
