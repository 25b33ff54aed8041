//! Two devices that are read, each as far as it goes.
ghost use Rattle.std.specs.Prelude.{◌≡◌, ◌<◌, ◌≤◌, length, take, drop, max, IfOk, IfErr, is_err};
ghost use Rattle.bx_patch.specs.Diff.{IsFaultFor, OnlyReads, fails, of_new, of_old};
ghost use Rattle.bx_patch.specs.private.Diff.{IsUntold, part_at};

use crate::diff::fault::DiffFault;
use bx_image::{Device, DeviceFailed, MAX_LEN};

/// How many bytes of each device are compared at a time.
pub const WINDOW: usize = 32_768;

/// How long two devices are.
#[derive(Clone, Copy)]
pub struct Lengths {
    pub old: u64,
    pub new: u64,
}

/// The lengths of two devices, which can be an image's.
pub fn lengths_of<D: Device, E: Device>(old: &mut D, new: &mut E) -> Result<Lengths, DiffFault>
    requires old_countable { D.failures old.old < u64.MAX }
    requires new_countable { E.failures new.old < u64.MAX }
    ensures old_len { D.faithful old.old → IfOk result (λ n. n.old ≡ length (D.image old.old)) }
    ensures new_len { E.faithful new.old → IfOk result (λ n. n.new ≡ length (E.image new.old)) }
    ensures most { IfOk result (λ n. max n.old n.new ≤ MAX_LEN) }
    ensures fault { D.faithful old.old → E.faithful new.old → IfErr result (IsFaultFor (D.image old.old) (E.image new.old)) }
    ensures untold { IfErr result IsUntold }
    ensures old { OnlyReads D.faithful D.image D.room D.failures D.survives (fails of_old result) old.old old.new }
    ensures new { OnlyReads E.faithful E.image E.room E.failures E.survives (fails of_new result) new.old new.new }
{
    let Ok(old_len) = old.len() else {
        return Err(DiffFault::OldFailed);
    };
    let Ok(new_len) = new.len() else {
        return Err(DiffFault::NewFailed);
    };
    if old_len.max(new_len) > MAX_LEN {
        return Err(DiffFault::TooLarge);
    }
    Ok(Lengths {
        old: old_len,
        new: new_len,
    })
}

/// Fills a window with the bytes of a device of this length from an address on, as far as it has them, and answers how many those are.
fn fill<D: Device>(
    device: &mut D,
    len: u64,
    at: u64,
    window: &mut [u8],
) -> Result<usize, DeviceFailed>
    requires countable { D.failures device.old < u64.MAX }
    requires len { D.faithful device.old → len ≡ length (D.image device.old) }
    ensures within { IfOk result (λ count. count ≤ length window.new) }
    ensures bytes { D.faithful device.old → IfOk result (λ count. take count window.new ≡ take (length window.old) (drop at (D.image device.old))) }
    ensures reads { OnlyReads D.faithful D.image D.room D.failures D.survives (is_err result) device.old device.new }
{
    if len <= at {
        return Ok(0);
    }
    let count = (window.len() as u64).min(len - at) as usize;
    let (part, _) = window.split_at_mut(count);
    match device.read_at(at, part) {
        Ok(()) => Ok(count),
        Err(fault) => Err(fault),
    }
}

/// The same of a window of the length that is compared at a time.
pub fn fill_window<D: Device>(
    device: &mut D,
    len: u64,
    at: u64,
    window: &mut [u8],
) -> Result<usize, DeviceFailed>
    requires countable { D.failures device.old < u64.MAX }
    requires len { D.faithful device.old → len ≡ length (D.image device.old) }
    requires full { length window.old ≡ 32768 }
    ensures within { IfOk result (λ count. count ≤ length window.new) }
    ensures bytes { D.faithful device.old → IfOk result (λ count. take count window.new ≡ part_at (D.image device.old) at) }
    ensures reads { OnlyReads D.faithful D.image D.room D.failures D.survives (is_err result) device.old device.new }
{
    fill(device, len, at, window)
}
