//! An image behind changes that aren't made.
ghost use Rattle.std.specs.Prelude.{◌≡◌, ◌⊎◌, ◌↔◌, ◌+◌, ◌<◌, ◌≤◌, ℕ, List, length, take, drop, min, IfErr, IfOk, IsOk, OnErr, OnOk, MatchResult, false, true, is_err, refl};
ghost use Rattle.std.proofs.Common.{inl};
ghost use Rattle.bx_image.specs.declared.change.TheConstants.{MAX_LEN};
ghost use Rattle.bx_patch.specs.Diff.{OnlyReads};
ghost use Rattle.bx_patch.specs.preview.Changed.{FitInTurn, AreBeforeAndBehind, effects, is_of_device};
ghost use Rattle.bx_patch.specs.preview.Index.{IsIndexFor};

mod window;

use crate::preview::index::PieceIndex;
use crate::preview::untouched::Untouched;
use bx_image::{Change, Device, DeviceFailed, ImageFault, NoMemory, TooLarge, check};
use std::alloc::{Allocator, Global};
use std::marker::Model;
use window::{put_changes, read_window};

/// An image behind changes that aren't made: a device that is only read, and has the bytes that the changes would make, one after
/// another. It is faithful where the device within is. `faults` counts from 0: the failed calls of the device within, which `into_device`
/// gives back, and calls that would write, which are refused and fail.
#[derive(Drop)]
pub struct ChangedImage<'a, D: Device, A: Allocator = Global> {
    device: D,
    // the changes, and the length of the device's image
    known: Untouched<'a, A>,
    // the length behind the changes
    len: u64,
    failures: u64,
    // whether a call that would write was refused
    refused: bool,
}

impl<'a, D: Device, A: Allocator> Model for ChangedImage<'a, D, A> {
    ghost use Rattle.std.specs.Prelude.{◌≡◌, ◌≤◌, false};
    ghost use Rattle.bx_patch.specs.preview.Changed.{AreLengthsOf, Changed};

    ghost Value = { Changed D A };

    ghost view = { λ c. record { device = c.device; changes = c.known.changes.now; before = c.known.before; len = c.len; failures = c.failures; refused = c.refused } };

    ghost invariant = { λ c. (D.failures c.device ≤ c.failures) × (c.refused ≡ false → D.failures c.device ≡ c.failures) × (D.faithful c.device
        → AreLengthsOf c.known.changes.now (D.image c.device) c.known.before c.len) };
}

impl<'a, D: Device, A: Allocator> ChangedImage<'a, D, A> {
    /// The image on a device, behind changes in their order; behind none it is the device's. The device is asked for its length once, and
    /// is only read, here and by each call.
    ///
    /// # Errors
    /// `TooLarge` where a length, a base or the end of a write is over `MAX_LEN`, as `check` of `bx_image` says of each change in turn;
    /// `DeviceFailed`. The device is given back then.
    pub fn new(device: D, changes: &'a [Change<A>]) -> Result<Self, (D, ImageFault)>
        requires { D.failures device ≡ 0 }
        ensures image { D.faithful device
            → IfOk result (λ c. ⟦<ChangedImage<'a, D, A> as Device>⟧.image c ≡ effects changes.now (D.image device)) }
        ensures behind { D.faithful device
            → IfOk result (λ c. AreBeforeAndBehind c.changes c.before (D.image device) (⟦<ChangedImage<'a, D, A> as Device>⟧.image c)) }
        ensures faithful { D.faithful device → IfOk result ⟦<ChangedImage<'a, D, A> as Device>⟧.faithful }
        ensures failures { IfOk result (λ c. ⟦<ChangedImage<'a, D, A> as Device>⟧.failures c ≡ 0) }
        ensures changes { IfOk result (λ c. c.changes ≡ changes.now) }
        ensures refused { IfOk result (λ c. c.refused ≡ false) }
        ensures fault { D.faithful device → IfErr result (λ e. (e.1 ≡ ImageFault.DeviceFailed)
            ⊎ ((e.1 ≡ ImageFault.TooLarge) × (FitInTurn changes.now (D.image device) MAX_LEN → ⊥))) }

        // The device is only read, and its failures rise exactly where the fault says that it failed.
        ensures device { MatchResult result (λ c. OnlyReads D.faithful D.image D.room D.failures D.survives false device c.device)
            (λ e. OnlyReads D.faithful D.image D.room D.failures D.survives (is_of_device e.1) device e.0) }
    {
        let mut device = device;
        let Ok(before) = device.len() else {
            return Err((device, ImageFault::DeviceFailed));
        };
        match length_behind(changes, before) {
            Ok(len) => Ok(ChangedImage {
                device,
                known: Untouched::by(changes, before),
                len,
                failures: 0,
                refused: false,
            }),
            Err(_) => Err((device, ImageFault::TooLarge)),
        }
    }

    /// The same image, which finds the pieces of the changes by an index.
    pub fn searched<B: Allocator>(self, index: &'a PieceIndex<B>) -> Self
        requires { IsIndexFor index.now self.changes }
        ensures { result ≡ self.entry }
    {
        ChangedImage {
            device: self.device,
            known: self.known.searched(index),
            len: self.len,
            failures: self.failures,
            refused: self.refused,
        }
    }

    /// What the changes leave of the image.
    pub fn untouched(&self) -> Untouched<'a, A>
        ensures changes { result.changes.now ≡ self.now.changes }
        ensures before { result.before ≡ self.now.before }
    {
        Untouched {
            changes: self.known.changes,
            before: self.known.before,
            ordered: self.known.ordered,
            index: self.known.index,
            indexed: self.known.indexed,
        }
    }

    /// The device within. Its failures are those of this image, unless a call that would write was refused: none was where `OnlyReads` says
    /// of a caller that it only read.
    pub fn into_device(self) -> D
        ensures device { result ≡ self.entry.device }
        ensures failures { self.entry.refused ≡ false → D.failures result ≡ self.entry.failures }
    {
        self.device
    }
}

/// The length that an image of `len` bytes has behind changes.
fn length_behind<A: Allocator>(changes: &[Change<A>], len: u64) -> Result<u64, TooLarge>
    ensures len { (x : List ℕ) → length x ≡ len → IfOk result (λ n. n ≡ length (effects changes.now x)) }
    ensures exact { (x : List ℕ) → length x ≡ len → IsOk result ↔ FitInTurn changes.now x MAX_LEN }
{
    let mut len = len;
    for change in changes {
        match check(change, len) {
            Ok(behind) => len = behind,
            Err(fault) => return Err(fault),
        }
    }
    Ok(len)
}

/// Counts a failure.
fn failed(failures: &mut u64) -> DeviceFailed
    requires { failures.old < u64.MAX }
    ensures { failures.new ≡ failures.old + 1 }
{
    *failures += 1;
    DeviceFailed
}

/// Refuses a call that would write, and counts that as a failure.
fn refuse(failures: &mut u64, refused: &mut bool) -> DeviceFailed
    requires { failures.old < u64.MAX }
    ensures failures { failures.new ≡ failures.old + 1 }
    ensures refused { refused.new ≡ true }
{
    *refused = true;
    failed(failures)
}

/// Fills a buffer with the bytes that an image has behind changes, from an address on.
fn read_changed<D: Device, A: Allocator>(
    device: &mut D,
    known: &Untouched<'_, A>,
    at: u64,
    buf: &mut [u8],
) -> Result<(), DeviceFailed>
    requires countable { D.failures device.old < u64.MAX }
    requires before { D.faithful device.old → known.now.before ≡ length (D.image device.old) }
    ensures bytes { D.faithful device.old → at + length buf.old ≤ length (effects known.now.changes.now (D.image device.old))
        → OnOk result (buf.new ≡ take (length buf.old) (drop at (effects known.now.changes.now (D.image device.old)))) }
    ensures reads { OnlyReads D.faithful D.image D.room D.failures D.survives (is_err result) device.old device.new }
{
    match read_window(device, known.before, at, buf) {
        Ok(()) => {
            put_changes(known, at, buf);
            Ok(())
        }
        Err(fault) => Err(fault),
    }
}

// What the trait says of each call, and what becomes of the device within: it is read, and no more.
impl<D: Device, A: Allocator> Device for ChangedImage<'_, D, A> {
    ghost use Rattle.bx_image.specs.Device.{GoesOn, IsPartlyCut, IsPartlyWritten};
    ghost use Rattle.bx_image.specs.Image.{cut, place};
    ghost use Rattle.bx_image.specs.Power.{Follows, KeepsBelow, KeepsOutside, NoMore, Only};
    ghost use Rattle.bx_patch.specs.preview.Changed.{failures_behind, found_behind, faithful_behind, image_behind, room_behind};

    ghost image = { image_behind D.Device };

    ghost faithful = { faithful_behind D.Device };

    ghost room = { room_behind };

    ghost failures = { failures_behind };

    ghost survives = { found_behind D.Device };

    ghost within_room = { λ c faithful. faithful.1.within };

    ghost present = { λ c _. inl refl };

    fn len(&mut self) -> Result<u64, DeviceFailed>
        requires { failures_behind self.old < u64.MAX }
        ensures len { faithful_behind D.Device self.old → IfOk result (λ n. n ≡ length (image_behind D.Device self.old)) }
        ensures image { faithful_behind D.Device self.old → image_behind D.Device self.new ≡ image_behind D.Device self.old }
        ensures survives { faithful_behind D.Device self.old → NoMore (found_behind D.Device self.old) (found_behind D.Device self.new) }
        ensures goes_on { GoesOn (faithful_behind D.Device) room_behind failures_behind (is_err result) self.old self.new }
        ensures device { self.new.device ≡ self.old.device }
    {
        Ok(self.len)
    }

    fn read_at(&mut self, at: u64, buf: &mut [u8]) -> Result<(), DeviceFailed>
        requires countable { failures_behind self.old < u64.MAX }
        requires range { faithful_behind D.Device self.old → at + length buf.old ≤ length (image_behind D.Device self.old) }
        ensures bytes { faithful_behind D.Device self.old
            → OnOk result (buf.new ≡ take (length buf.old) (drop at (image_behind D.Device self.old))) }
        ensures image { faithful_behind D.Device self.old → image_behind D.Device self.new ≡ image_behind D.Device self.old }
        ensures survives { faithful_behind D.Device self.old → NoMore (found_behind D.Device self.old) (found_behind D.Device self.new) }
        ensures goes_on { GoesOn (faithful_behind D.Device) room_behind failures_behind (is_err result) self.old self.new }
        ensures device { OnlyReads D.faithful D.image D.room D.failures D.survives (is_err result) self.old.device self.new.device }
    {
        match read_changed(&mut self.device, &self.known, at, buf) {
            Ok(()) => Ok(()),
            Err(_) => Err(failed(&mut self.failures)),
        }
    }

    fn write_at(&mut self, at: u64, bytes: &[u8]) -> Result<(), DeviceFailed>
        requires countable { failures_behind self.old < u64.MAX }
        requires range { at + length bytes.now ≤ room_behind self.old }
        ensures ok { faithful_behind D.Device self.old
            → OnOk result (image_behind D.Device self.new ≡ place (image_behind D.Device self.old) at bytes.now) }
        ensures failed { faithful_behind D.Device self.old
            → OnErr result (IsPartlyWritten at (length bytes.now) (image_behind D.Device self.old) (image_behind D.Device self.new)) }
        ensures survives { faithful_behind D.Device self.old
            → Follows (KeepsOutside at (length bytes.now)) (found_behind D.Device self.old) (found_behind D.Device self.new) }
        ensures goes_on { GoesOn (faithful_behind D.Device) room_behind failures_behind (is_err result) self.old self.new }
        ensures device { self.new.device ≡ self.old.device }
    {
        Err(refuse(&mut self.failures, &mut self.refused))
    }

    fn set_len(&mut self, n: u64) -> Result<(), DeviceFailed>
        requires countable { failures_behind self.old < u64.MAX }
        requires range { n ≤ room_behind self.old }
        ensures ok { faithful_behind D.Device self.old
            → OnOk result (image_behind D.Device self.new ≡ cut (image_behind D.Device self.old) n) }
        ensures failed { faithful_behind D.Device self.old
            → OnErr result (IsPartlyCut n (image_behind D.Device self.old) (image_behind D.Device self.new)) }
        ensures survives { faithful_behind D.Device self.old
            → Follows (KeepsBelow (min n (length (image_behind D.Device self.old)))) (found_behind D.Device self.old) (found_behind D.Device self.new) }
        ensures goes_on { GoesOn (faithful_behind D.Device) room_behind failures_behind (is_err result) self.old self.new }
        ensures device { self.new.device ≡ self.old.device }
    {
        Err(refuse(&mut self.failures, &mut self.refused))
    }

    fn sync(&mut self) -> Result<(), DeviceFailed>
        requires { failures_behind self.old < u64.MAX }
        ensures settled { faithful_behind D.Device self.old → OnOk result (Only (image_behind D.Device self.old) (found_behind D.Device self.new)) }
        ensures image { faithful_behind D.Device self.old → image_behind D.Device self.new ≡ image_behind D.Device self.old }
        ensures survives { faithful_behind D.Device self.old → NoMore (found_behind D.Device self.old) (found_behind D.Device self.new) }
        ensures goes_on { GoesOn (faithful_behind D.Device) room_behind failures_behind (is_err result) self.old self.new }
        ensures device { self.new.device ≡ self.old.device }
    {
        // What was refused is never on the disk.
        if self.refused {
            Err(failed(&mut self.failures))
        } else {
            Ok(())
        }
    }

    fn reserve(&mut self, n: u64) -> Result<(), NoMemory>
        ensures within { n ≤ room_behind self.old → IsOk result }
        ensures ok { OnOk result (n ≤ room_behind self.new) }
        ensures err { OnErr result (room_behind self.new ≡ room_behind self.old) }
        ensures image { faithful_behind D.Device self.old → image_behind D.Device self.new ≡ image_behind D.Device self.old }
        ensures survives { faithful_behind D.Device self.old → NoMore (found_behind D.Device self.old) (found_behind D.Device self.new) }
        ensures goes_on { GoesOn (faithful_behind D.Device) room_behind failures_behind false self.old self.new }
        ensures device { self.new.device ≡ self.old.device }
    {
        if n <= self.len { Ok(()) } else { Err(NoMemory) }
    }

    fn reserved(&self) -> u64 {
        self.len
    }

    fn faults(&self) -> u64 {
        self.failures
    }
}
