//! Changes to images.
ghost use Rattle.std.specs.Prelude.{◌≡◌, ◌↔◌, ◌+◌, ◌<◌, ◌≤◌, [], List, ℕ, length, min, IfOk, IsOk, OnOk, OnErr, is_err, IfSome, true};
ghost use Rattle.bx_image.specs.Change.{effect, placed, saved, Restores, RestoresBy, Covers, IsAsGood, Fits, KeepsUntouched};
ghost use Rattle.bx_image.specs.private.Change.{cut_to, IsPartlyCutTo, KeepsBelowBase};
ghost use Rattle.bx_image.specs.Device.{GoesOn, IsPartlyCut};
ghost use Rattle.bx_image.specs.Image.{cut, end_of};
ghost use Rattle.bx_image.specs.Power.{AllKeepUntouched, Follows, KeepsBelow, KeepsOnDisk, NoMore, Only};

use crate::{Device, DeviceFailed, TooLarge};
use bx_text::{Piece, Pieces};
use std::alloc::{Allocator, Global};

/// The greatest length of an image, in bytes: one less than 2 to the power of 48.
pub const MAX_LEN: u64 = 281_474_976_710_655;

/// A change of an image.
///
/// With a base the image is first cut to it, or lengthened to it with zeros. Then the writes are
/// placed in order. A write past the end fills the gap with zeros, and an empty write does nothing,
/// wherever it stands.
#[derive(Drop)]
pub struct Change<A: Allocator = Global> {
    /// The length in bytes to which the image is brought before the writes; the old one stays where there is none.
    pub base: Option<u64>,
    /// Bytes and where they go, in the order in which they are placed. They may overlap.
    pub writes: Pieces<A>,
}

/// The length that an image of `len` bytes has after the change.
///
/// # Errors
/// `TooLarge` exactly where `len`, the base, or the end of a write that isn't empty is over `MAX_LEN`.
pub fn check<A: Allocator>(change: &Change<A>, len: u64) -> Result<u64, TooLarge>
    ensures exact { IsOk result ↔ Fits change.now len MAX_LEN }
    ensures len { (x : List ℕ) → length x ≡ len → IfOk result (λ n. n ≡ length (effect change.now x)) }
    ensures reach { IfOk result (λ n. length (effect change.now []) ≤ n) }
    ensures bound { IfOk result (λ n. n ≤ MAX_LEN) }
{
    let mut longest = change.base.unwrap_or(len);
    if len > MAX_LEN || longest > MAX_LEN {
        return Err(TooLarge);
    }
    for write in change.writes.as_slice() {
        longest = longest.max(end_of_write(write)?);
    }
    Ok(longest)
}

#[tactic(auto, using(crate::proofs::Images::end_of_some, crate::proofs::Images::end_of_none))]
fn end_of_write<A: Allocator>(write: &Piece<A>) -> Result<u64, TooLarge>
    ensures exact { IsOk result ↔ (end_of write.now.at write.now.bytes ≤ MAX_LEN) }
    ensures end { IfOk result (λ n. n ≡ end_of write.now.at write.now.bytes) }
{
    let count = write.bytes.as_slice().len() as u64;
    if count == 0 {
        return Ok(0);
    }
    if count > MAX_LEN || write.at > MAX_LEN - count {
        return Err(TooLarge);
    }
    Ok(write.at + count)
}

// Brings the image to the length, by one call.
fn set_length<D: Device>(device: &mut D, n: u64) -> Result<(), DeviceFailed>
    requires countable { D.failures device.old < u64.MAX }
    requires room { n ≤ D.room device.old }
    ensures ok { D.faithful device.old → OnOk result (D.image device.new ≡ cut (D.image device.old) n) }
    ensures failed { D.faithful device.old → OnErr result (IsPartlyCut n (D.image device.old) (D.image device.new)) }
    ensures survives { D.faithful device.old → Follows (KeepsBelow (min n (length (D.image device.old)))) (D.survives device.old) (D.survives device.new) }
    ensures goes_on { GoesOn D.faithful D.room D.failures (is_err result) device.old device.new }
{
    device.set_len(n)
}

// Brings the image to the base, where there is one.
#[tactic(auto, using(crate::proofs::Devices::GoesOn_then))]
fn set_base<D: Device>(device: &mut D, base: Option<u64>) -> Result<(), DeviceFailed>
    requires countable { D.failures device.old < u64.MAX }
    requires room { IfSome base (λ n. n ≤ D.room device.old) }
    ensures ok { D.faithful device.old → OnOk result (D.image device.new ≡ cut_to base (D.image device.old)) }
    ensures failed { D.faithful device.old → OnErr result (IsPartlyCutTo base (D.image device.old) (D.image device.new)) }
    ensures survives { D.faithful device.old → Follows (KeepsBelowBase base (length (D.image device.old))) (D.survives device.old) (D.survives device.new) }
    ensures goes_on { GoesOn D.faithful D.room D.failures (is_err result) device.old device.new }
{
    if let Some(n) = base {
        set_length(device, n)?;
    }
    Ok(())
}

// Whether the first write stands at the base and goes up to the image's end or past it. A cut to the
// base would then take away only what is written over.
#[tactic(auto, using(crate::proofs::Devices::GoesOn_refl, crate::proofs::Changes::replaced))]
fn replaces_tail<D: Device, A: Allocator>(
    device: &mut D,
    change: &Change<A>,
) -> Result<bool, DeviceFailed>
    requires countable { D.failures device.old < u64.MAX }
    ensures same { D.faithful device.old → IfOk result (λ b. b ≡ true → placed change.now.writes (D.image device.old) ≡ effect change.now (D.image device.old)) }
    ensures image { D.faithful device.old → D.image device.new ≡ D.image device.old }
    ensures survives { D.faithful device.old → NoMore (D.survives device.old) (D.survives device.new) }
    ensures goes_on { GoesOn D.faithful D.room D.failures (is_err result) device.old device.new }
{
    let Some(base) = change.base else {
        return Ok(false);
    };
    let Some(write) = change.writes.as_slice().first() else {
        return Ok(false);
    };
    if write.at != base {
        return Ok(false);
    }
    let count = write.bytes.as_slice().len() as u64;
    let len = device.len()?;
    Ok(base <= len && len - base <= count)
}

// Brings the image to where the writes lead to the effect: to the base, unless the first write
// replaces all that a cut to it would take away.
#[tactic(auto, using(crate::proofs::Devices::GoesOn_then))]
fn begin<D: Device, A: Allocator>(device: &mut D, change: &Change<A>) -> Result<(), DeviceFailed>
    requires countable { D.failures device.old < u64.MAX }
    requires room { length (effect change.now []) ≤ D.room device.old }
    ensures leads { D.faithful device.old → OnOk result (placed change.now.writes (D.image device.new) ≡ effect change.now (D.image device.old)) }
    ensures kept { D.faithful device.old → KeepsUntouched change.now (D.image device.old) (D.image device.new) }
    ensures survives { D.faithful device.old → KeepsOnDisk change.now (D.image device.old) (D.survives device.old) (D.survives device.new) }
    ensures goes_on { GoesOn D.faithful D.room D.failures (is_err result) device.old device.new }
{
    if replaces_tail(device, change)? {
        return Ok(());
    }
    set_base(device, change.base)
}

/// Changes the image on a device, by one `set_len` where there is a base, then one `write_at` for
/// each write that isn't empty. Where the first write stands at the base, the length is asked for
/// before, and there is no `set_len` if that write goes up to the image's end or past it: so a device
/// of a fixed length can be written up to its end. It takes no memory.
///
/// Whatever it answers, what was saved of the image before gives it back. A change that restores a
/// record can be applied again after a failure.
///
/// # Errors
/// `DeviceFailed` at the first call that fails. Each address below the old length that the change
/// doesn't touch is then below the new length and has its old byte. So it is, whatever it answers, with what may be found
/// after a loss of power, where the old image was on the disk.
#[tactic(auto, using(crate::proofs::Devices::GoesOn_then))]
pub fn apply<D: Device, A: Allocator>(
    device: &mut D,
    change: &Change<A>,
) -> Result<(), DeviceFailed>
    requires countable { D.failures device.old < u64.MAX }
    requires room { length (effect change.now []) ≤ D.room device.old }
    ensures ok { D.faithful device.old → OnOk result (D.image device.new ≡ effect change.now (D.image device.old)) }
    ensures failed { D.faithful device.old → OnErr result (KeepsUntouched change.now (D.image device.old) (D.image device.new)) }
    ensures survives { D.faithful device.old → KeepsOnDisk change.now (D.image device.old) (D.survives device.old) (D.survives device.new) }
    ensures taken_back { D.faithful device.old → IsAsGood (saved change.now (D.image device.old)) (D.image device.old) (D.image device.new) }
    ensures restores { D.faithful device.old → RestoresBy change.now result (D.image device.old) (D.image device.new) }
    ensures again { D.faithful device.old → (s : _) → Restores change.now s → Covers s (D.image device.old)
        → IsAsGood s (D.image device.old) (D.image device.new) }
    ensures goes_on { GoesOn D.faithful D.room D.failures (is_err result) device.old device.new }
{
    begin(device, change)?;
    for write in change.writes.as_slice() {
        let bytes = write.bytes.as_slice();
        if !bytes.is_empty() {
            device.write_at(write.at, bytes)?;
        }
    }
    Ok(())
}
