//! Devices, which hold the bytes of an image, and what stops a call on one.
ghost use Rattle.std.specs.Prelude.{◌≡◌, ◌+◌, ◌<◌, ◌≤◌, List, ℕ, length, take, drop, min, IfOk, IsOk, OnOk, OnErr, is_err, false};
ghost use Rattle.bx_image.specs.Image.{place, cut};
ghost use Rattle.bx_image.specs.Power.{Only, NoMore, Follows, KeepsOutside, KeepsBelow};
ghost use Rattle.bx_image.specs.Device.{GoesOn, IsPartlyWritten, IsPartlyCut};
ghost use Rattle.bx_image.specs.declared.device.ImageFault.TheVariants.{DeviceFailed as Failed, NoMemory as OutOfMemory};

pub(crate) mod access;
pub(crate) mod file;
pub(crate) mod fuse;
pub(crate) mod memory;
pub(crate) mod pages;
pub(crate) mod system;

use bx_text::NoMemory;
use std::alloc::{AllocError, AllocFailed};
use thiserror::Error;

/// A call of a device failed, as by a read or write fault of its file.
#[derive(Clone, Copy, Debug, PartialEq, Eq, Error)]
#[error("device failed")]
pub struct DeviceFailed;

/// An image would be longer than `MAX_LEN`.
#[derive(Clone, Copy, Debug, PartialEq, Eq, Error)]
#[error("image too large")]
pub struct TooLarge;

/// What stopped a call on an image.
#[derive(Clone, Copy, Debug, PartialEq, Eq, Error)]
pub enum ImageFault {
    /// A growth was refused.
    #[error("out of memory")]
    NoMemory,
    /// The image would be longer than `MAX_LEN`.
    #[error("image too large")]
    TooLarge,
    /// A call of the device failed.
    #[error("device failed")]
    DeviceFailed,
}

impl From<DeviceFailed> for ImageFault {
    ghost from_gives = { λ _ fault. fault ≡ Failed };

    fn from(_: DeviceFailed) -> Self {
        ImageFault::DeviceFailed
    }
}

impl From<AllocError> for ImageFault {
    ghost from_gives = { λ _ fault. fault ≡ OutOfMemory };

    fn from(_: AllocError) -> Self {
        ImageFault::NoMemory
    }
}

impl<T: Drop> From<AllocFailed<T>> for ImageFault {
    ghost from_gives = { λ _ fault. fault ≡ OutOfMemory };

    fn from(_: AllocFailed<T>) -> Self {
        ImageFault::NoMemory
    }
}

/// What holds the bytes of one image. Addresses count its bytes from 0.
///
/// A device is faithful if a read gives what was written and nobody else writes, and what is said of
/// the image is said of faithful devices. A device is faithful after a call exactly if it was before.
///
/// Each call that answers `DeviceFailed` adds one to `faults`, no other call changes it, and each
/// call that may fail asks that it is below `u64::MAX`. The room, up to which an image can grow
/// without memory, never falls.
pub trait Device {
    /// The bytes that a faithful device has.
    ghost image: { Self → List ℕ };

    /// A read gives what was written, and nobody else writes.
    ghost faithful: { Self → Type 0 };

    /// Writes up to this length take no memory.
    ghost room: { Self → ℕ };

    /// How many calls have answered `DeviceFailed`.
    ghost failures: { Self → ℕ };

    /// What may be found of the image after a loss of power.
    ghost survives: { Self → List ℕ → Type 0 };

    /// The length of the image in bytes. The image stays.
    fn len(&mut self) -> Result<u64, DeviceFailed>
        requires { failures self.old < u64.MAX }
        ensures len { faithful self.old → IfOk result (λ n. n ≡ length (image self.old)) }
        ensures image { faithful self.old → image self.new ≡ image self.old }
        ensures survives { faithful self.old → NoMore (survives self.old) (survives self.new) }
        ensures goes_on { GoesOn faithful room failures (is_err result) self.old self.new };

    /// Fills `buf` with the bytes from the address `at` on; the range has to lie within the image.
    /// The image stays.
    fn read_at(&mut self, at: u64, buf: &mut [u8]) -> Result<(), DeviceFailed>
        requires countable { failures self.old < u64.MAX }
        requires range { faithful self.old → at + length buf.old ≤ length (image self.old) }
        ensures bytes { faithful self.old → OnOk result (buf.new ≡ take (length buf.old) (drop at (image self.old))) }
        ensures image { faithful self.old → image self.new ≡ image self.old }
        ensures survives { faithful self.old → NoMore (survives self.old) (survives self.new) }
        ensures goes_on { GoesOn faithful room failures (is_err result) self.old self.new };

    /// Places the bytes at the address `at`; their end has to lie within the room. The image grows
    /// where they need it, and a gap is zeros. No bytes leave it as it is.
    ///
    /// A write that failed leaves the bytes outside its range, a length from the old one up to the
    /// greater of it and the range's end, and zeros in a gap.
    fn write_at(&mut self, at: u64, bytes: &[u8]) -> Result<(), DeviceFailed>
        requires countable { failures self.old < u64.MAX }
        requires range { at + length bytes.now ≤ room self.old }
        ensures ok { faithful self.old → OnOk result (image self.new ≡ place (image self.old) at bytes.now) }
        ensures failed { faithful self.old → OnErr result (IsPartlyWritten at (length bytes.now) (image self.old) (image self.new)) }
        ensures survives { faithful self.old → Follows (KeepsOutside at (length bytes.now)) (survives self.old) (survives self.new) }
        ensures goes_on { GoesOn faithful room failures (is_err result) self.old self.new };

    /// Cuts the image to `n` bytes, or fills it up to them with zeros; `n` is at most the room.
    ///
    /// A call that failed leaves a length between the old one and `n`, and the bytes below both.
    fn set_len(&mut self, n: u64) -> Result<(), DeviceFailed>
        requires countable { failures self.old < u64.MAX }
        requires range { n ≤ room self.old }
        ensures ok { faithful self.old → OnOk result (image self.new ≡ cut (image self.old) n) }
        ensures failed { faithful self.old → OnErr result (IsPartlyCut n (image self.old) (image self.new)) }
        ensures survives { faithful self.old → Follows (KeepsBelow (min n (length (image self.old)))) (survives self.old) (survives self.new) }
        ensures goes_on { GoesOn faithful room failures (is_err result) self.old self.new };

    /// Puts all that was written on the disk, so that a loss of power leaves the image as it is. The image stays.
    fn sync(&mut self) -> Result<(), DeviceFailed>
        requires { failures self.old < u64.MAX }
        ensures settled { faithful self.old → OnOk result (Only (image self.old) (survives self.new)) }
        ensures image { faithful self.old → image self.new ≡ image self.old }
        ensures survives { faithful self.old → NoMore (survives self.old) (survives self.new) }
        ensures goes_on { GoesOn faithful room failures (is_err result) self.old self.new };

    /// Makes room for an image of `n` bytes. The image stays.
    ///
    /// # Errors
    /// `NoMemory` where a growth is refused; the room then stays too. Room that is there already is
    /// never refused.
    fn reserve(&mut self, n: u64) -> Result<(), NoMemory>
        ensures within { n ≤ room self.old → IsOk result }
        ensures ok { OnOk result (n ≤ room self.new) }
        ensures err { OnErr result (room self.new ≡ room self.old) }
        ensures image { faithful self.old → image self.new ≡ image self.old }
        ensures survives { faithful self.old → NoMore (survives self.old) (survives self.new) }
        ensures goes_on { GoesOn faithful room failures false self.old self.new };

    /// The room that there is: up to which length, in bytes, the image can grow without memory.
    fn reserved(&self) -> u64
        ensures { result ≡ room self.now };

    /// How many calls of this device have answered `DeviceFailed`.
    fn faults(&self) -> u64
        ensures { result ≡ failures self.now };

    /// A faithful device has room for what it has.
    ghost within_room: { (d : Self) → faithful d → length (image d) ≤ room d };

    /// An image that is there may also be found.
    ghost present: { (d : Self) → faithful d → survives d (image d) };
}
