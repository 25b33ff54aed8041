//! Room in all three devices, made before the first write.
ghost use Rattle.std.specs.Prelude.{◌≡◌, ◌^◌, ◌≤◌, OnOk};
ghost use Rattle.bx_journal_model.specs.Power.{FoundBefore};
ghost use Rattle.bx_journal_model.specs.ThreeDevices.{HaveStayed};

use bx_image::Device;
use bx_journal_model::Devices;
use bx_journal_store::TextStore;
use bx_text::NoMemory;

/// Makes room for an image of this length, and for a journal and a redo text of these lengths. It changes nothing.
pub fn make_room<D: Device, T: TextStore>(
    devices: &mut Devices<D, T>,
    image_len: u64,
    journal_len: u64,
    redo_len: u64,
) -> Result<(), NoMemory>
    ensures image { OnOk result (image_len ≤ D.room devices.new.image) }
    ensures journal { OnOk result (journal_len ≤ T.room devices.new.journal) }
    ensures redo { OnOk result (redo_len ≤ T.room devices.new.redo) }
    ensures limit { OnOk result ((journal_len ≤ 2 ^ 62) × (redo_len ≤ 2 ^ 62)) }
    ensures stayed { HaveStayed D.Device T.TextStore devices.old devices.new }
    ensures found_before { FoundBefore D.Device T.TextStore devices.old devices.new }
    ensures failures { (D.failures devices.new.image ≡ D.failures devices.old.image) × (T.failures devices.new.journal ≡ T.failures devices.old.journal)
        × (T.failures devices.new.redo ≡ T.failures devices.old.redo) }
{
    devices.image.reserve(image_len)?;
    devices.journal.reserve(journal_len)?;
    devices.redo.reserve(redo_len)
}
