//! Changing the image, and restoring it part by part.
ghost use Rattle.std.specs.Prelude.{◌≡◌, ◌+◌, ◌<◌, ◌≤◌, [], length, OnOk, is_err};
ghost use Rattle.bx_image.specs.Change.{effect, saved, IsAsGood, KeepsUnmapped};
ghost use Rattle.bx_image.specs.Device.{GoesOn};
ghost use Rattle.bx_image.specs.Image.{place, cut};
ghost use Rattle.bx_image.specs.Power.{Follows, Only};
ghost use Rattle.bx_journal_format.specs.Kept.{Kept, kept_of};
ghost use Rattle.bx_journal_protocol.specs.protocol.Fading.{AllKeepUnmapped, AllStayOpenFor};
ghost use Rattle.bx_journal_model.specs.Phase.{IsCutOf, IsPartOf, RecoversOpenFor, StaysOpen, StaysOpenFor};

use bx_image::{Change, Device, DeviceFailed, apply};
use std::alloc::Allocator;

/// Changes the image, and puts it on the disk. Whatever it answers, what was saved gives the old image back, so a pair that is open on it
/// stays open.
pub fn change_image<D: Device, A: Allocator>(
    image: &mut D,
    change: &Change<A>,
) -> Result<(), DeviceFailed>
    requires countable { D.failures image.old < u64.MAX }
    requires room { length (effect change.now []) ≤ D.room image.old }
    ensures ok { D.faithful image.old → OnOk result (D.image image.new ≡ effect change.now (D.image image.old)) }
    ensures taken_back { D.faithful image.old → IsAsGood (kept_of (saved change.now (D.image image.old))) (D.image image.old) (D.image image.new) }
    ensures phase { D.faithful image.old → StaysOpenFor change.now (D.image image.old) (D.image image.new) }
    ensures settled { D.faithful image.old → OnOk result (Only (D.image image.new) (D.survives image.new)) }
    ensures survives { D.faithful image.old → Only (D.image image.old) (D.survives image.old)
        → AllStayOpenFor change.now (D.image image.old) (D.survives image.new) }
    ensures fault { D.faithful image.old → RecoversOpenFor change.now (D.image image.old) (D.image image.new) result }
    ensures goes_on { GoesOn D.faithful D.room D.failures (is_err result) image.old image.new }
{
    apply(image, change)?;
    image.sync()
}

/// Brings the image to a length. Whatever it answers, each byte stays that is left out by a record which has what is cut off; so it
/// is after a loss of power. A pair that is open on such a record stays open. It puts nothing on the disk: a caller that restores a
/// record part by part does so after the last part.
pub fn restore_len<D: Device>(image: &mut D, len: u64) -> Result<(), DeviceFailed>
    requires countable { D.failures image.old < u64.MAX }
    requires room { len ≤ D.room image.old }
    ensures ok { D.faithful image.old → OnOk result (D.image image.new ≡ cut (D.image image.old) len) }
    ensures keeps { D.faithful image.old → (s : Kept) → IsCutOf s len → KeepsUnmapped s (D.image image.old) (D.image image.new) }
    ensures phase { D.faithful image.old → (s : Kept) → IsCutOf s len → StaysOpen s (D.image image.old) (D.image image.new) }
    ensures survives { D.faithful image.old → (s : Kept) → IsCutOf s len → Only (D.image image.old) (D.survives image.old)
        → AllKeepUnmapped s (D.image image.old) (D.survives image.new) }
    ensures goes_on { GoesOn D.faithful D.room D.failures (is_err result) image.old image.new }
{
    image.set_len(len)
}

/// Writes bytes over a part of the image, or after its end. Whatever it answers, and whatever the bytes are, each byte stays that is
/// left out by a record which has what is overwritten; so it is after a loss of power, of whatever was found before. A pair that is
/// open on such a record stays open. It puts nothing on the disk.
pub fn restore_part<D: Device>(image: &mut D, at: u64, bytes: &[u8]) -> Result<(), DeviceFailed>
    requires countable { D.failures image.old < u64.MAX }
    requires room { at + length bytes.now ≤ D.room image.old }
    ensures ok { D.faithful image.old → OnOk result (D.image image.new ≡ place (D.image image.old) at bytes.now) }
    ensures keeps { D.faithful image.old → (s : Kept) → IsPartOf s at (length bytes.now) → KeepsUnmapped s (D.image image.old) (D.image image.new) }
    ensures phase { D.faithful image.old → (s : Kept) → IsPartOf s at (length bytes.now) → StaysOpen s (D.image image.old) (D.image image.new) }
    ensures survives { D.faithful image.old → (s : Kept) → IsPartOf s at (length bytes.now)
        → Follows (KeepsUnmapped s) (D.survives image.old) (D.survives image.new) }
    ensures goes_on { GoesOn D.faithful D.room D.failures (is_err result) image.old image.new }
{
    image.write_at(at, bytes)
}
