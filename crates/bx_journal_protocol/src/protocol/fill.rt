//! Redo records: what undos will take of the image, filled one by one.
ghost use Rattle.std.specs.Prelude.{◌≡◌, ◌<◌, length, reverse, OnOk, is_err};
ghost use Rattle.bx_image.specs.Device.{GoesOn};
ghost use Rattle.bx_image.specs.Power.{NoMore};
ghost use Rattle.bx_journal_protocol.specs.protocol.Takens.{IsFirstBelow, AreFilled, AllShaped, entries_len};

use bx_image::{Device, DeviceFailed, Saved};
use std::alloc::Allocator;

/// Reads the bytes of the last record, if there is one, from the image.
pub fn fill_last<D: Device, A: Allocator>(
    image: &mut D,
    takens: &mut Vec<Saved<A>, A>,
) -> Result<(), DeviceFailed>
    requires countable { D.failures image.old < u64.MAX }
    requires range { D.faithful image.old → IsFirstBelow (length (D.image image.old)) (reverse takens.old.items) }
    ensures filled { D.faithful image.old → OnOk result (AreFilled (D.image image.old) takens.old.items takens.new.items) }
    ensures shaped { AllShaped takens.old.items → AllShaped takens.new.items }
    ensures entries_len { entries_len takens.new.items ≡ entries_len takens.old.items }
    ensures count { length takens.new.items ≡ length takens.old.items }
    ensures image { D.faithful image.old → D.image image.new ≡ D.image image.old }
    ensures survives { D.faithful image.old → NoMore (D.survives image.old) (D.survives image.new) }
    ensures goes_on { GoesOn D.faithful D.room D.failures (is_err result) image.old image.new }
{
    fill_end(image, takens.as_mut_slice())
}

// The same on a slice.
fn fill_end<D: Device, A: Allocator>(
    image: &mut D,
    takens: &mut [Saved<A>],
) -> Result<(), DeviceFailed>
    requires countable { D.failures image.old < u64.MAX }
    requires range { D.faithful image.old → IsFirstBelow (length (D.image image.old)) (reverse takens.old) }
    ensures filled { D.faithful image.old → OnOk result (AreFilled (D.image image.old) takens.old takens.new) }
    ensures shaped { AllShaped takens.old → AllShaped takens.new }
    ensures entries_len { entries_len takens.new ≡ entries_len takens.old }
    ensures count { length takens.new ≡ length takens.old }
    ensures image { D.faithful image.old → D.image image.new ≡ D.image image.old }
    ensures survives { D.faithful image.old → NoMore (D.survives image.old) (D.survives image.new) }
    ensures goes_on { GoesOn D.faithful D.room D.failures (is_err result) image.old image.new }
{
    let count = takens.len();
    if count == 0 {
        return Ok(());
    }
    takens[count - 1].fill(image)
}
