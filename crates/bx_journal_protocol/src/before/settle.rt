//! All three devices synced before the first write, so that what they hold is durable.
ghost use Rattle.std.specs.Prelude.{◌≡◌, ◌≤◌, OnOk};
ghost use Rattle.bx_journal_model.specs.Power.{FoundBefore};
ghost use Rattle.bx_journal_model.specs.ThreeDevices.{AreBelow, HaveStayed, StepsOn};
ghost use Rattle.bx_journal_protocol.specs.protocol.Written.{AreSettled};

use bx_image::{Device, DeviceFailed};
use bx_journal_model::Devices;
use bx_journal_store::TextStore;

/// Puts on the disk what journal, image and redo text have: whatever was written before, a loss of power then leaves them.
pub fn settle<D: Device, T: TextStore>(devices: &mut Devices<D, T>) -> Result<(), DeviceFailed>
    requires countable { AreBelow D.Device T.TextStore u64.MAX devices.old }
    ensures settled { D.faithful devices.old.image → T.faithful devices.old.journal → T.faithful devices.old.redo
        → OnOk result (AreSettled D.Device T.TextStore devices.new) }
    ensures stayed { HaveStayed D.Device T.TextStore devices.old devices.new }
    ensures found_before { FoundBefore D.Device T.TextStore devices.old devices.new }
    ensures room { D.room devices.old.image ≤ D.room devices.new.image }
    ensures journal_room { T.room devices.old.journal ≤ T.room devices.new.journal }
    ensures redo_room { T.room devices.old.redo ≤ T.room devices.new.redo }
    ensures steps_on { StepsOn D.Device T.TextStore result devices.old devices.new }
{
    devices.journal.sync()?;
    devices.image.sync()?;
    devices.redo.sync()
}
