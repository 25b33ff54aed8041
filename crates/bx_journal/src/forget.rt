//! Forgetting: the history of three devices is dropped, whatever it is. The image isn't written.
ghost use Rattle.std.specs.Prelude.{◌≡◌, ◌↔◌, ◌<◌, [], IfErr, OnOk, is_err};
ghost use Rattle.bx_image.specs.Device.{GoesOn};
ghost use Rattle.bx_image.specs.Power.{AllFade, FadesFrom, Only};
ghost use Rattle.bx_journal_model.specs.ThreeDevices.{AreBelow, AreCounted, AreUnfailed, StepsOn};
ghost use Rattle.bx_journal_model.specs.Power.{FoundBefore};
ghost use Rattle.bx_journal_protocol.specs.protocol.Written.{AreSettled};
ghost use Rattle.bx_journal_model.specs.Calls.{AfterFault};
ghost use Rattle.bx_journal_store.specs.Store.{IsCutInPart, MayEmpty};
ghost use Rattle.bx_journal.specs.Forgotten.{AreAlone, AreFoundWhole, BehindInterruption, FadesInOrder, ForgetDevicesFault, ForgetsInPart, IsFoundWhole, KeepImage, LeavesTexts, LoseOrKeep};
ghost use Rattle.bx_journal.specs.Opened.{OfAll};

use bx_image::{Device, DeviceFailed};
use bx_journal_model::{Devices, SessionFault};
use bx_journal_protocol::settle;
use bx_journal_store::TextStore;

/// Cuts a text to nothing, in one cut that keeps no byte: a front of a journal is a journal too, of other images.
fn cut_all<T: TextStore>(store: &mut T) -> Result<(), DeviceFailed>
    requires countable { T.failures store.old < u64.MAX }
    ensures emptied { T.faithful store.old → OnOk result (T.text store.new ≡ []) }
    ensures part { T.faithful store.old → IsCutInPart 0 (T.text store.old) (T.text store.new) }
    ensures fades { T.faithful store.old → FadesFrom 0 (T.survives store.old) (T.survives store.new) }
    ensures at_once { T.empties_at_once → T.faithful store.old → MayEmpty (T.survives store.old) (T.survives store.new) }
    ensures goes_on { GoesOn T.faithful T.room T.failures (is_err result) store.old store.new }
{
    store.cut(0)
}

/// Empties a text, and puts that on the disk.
fn empty_text<T: TextStore>(store: &mut T) -> Result<(), DeviceFailed>
    requires countable { T.failures store.old < u64.MAX }
    ensures emptied { T.faithful store.old → OnOk result (T.text store.new ≡ []) }
    ensures part { T.faithful store.old → IsCutInPart 0 (T.text store.old) (T.text store.new) }
    ensures settled { T.faithful store.old → OnOk result (Only [] (T.survives store.new)) }
    ensures survives { T.faithful store.old → Only (T.text store.old) (T.survives store.old) → AllFade 0 (T.text store.old) (T.survives store.new) }
    ensures whole { T.faithful store.old → Only (T.text store.old) (T.survives store.old)
        → T.empties_at_once → IsFoundWhole (T.text store.old) (T.survives store.new) }
    ensures goes_on { GoesOn T.faithful T.room T.failures (is_err result) store.old store.new }
{
    cut_all(store)?;
    store.sync()
}

/// Empties the redo text, and then the journal. So the redo text is never left beside an image and a journal that isn't its own.
pub fn empty_texts<D: Device, T: TextStore>(devices: &mut Devices<D, T>) -> Result<(), DeviceFailed>
    requires countable { AreBelow D.Device T.TextStore u64.MAX devices.old }
    ensures image { devices.new.image ≡ devices.old.image }
    ensures journal { T.faithful devices.old.journal → OnOk result (T.text devices.new.journal ≡ []) }
    ensures redo { T.faithful devices.old.redo → OnOk result (T.text devices.new.redo ≡ []) }
    ensures left { T.faithful devices.old.journal → T.faithful devices.old.redo
        → LeavesTexts (T.text devices.old.journal) (T.text devices.old.redo) (T.text devices.new.journal) (T.text devices.new.redo) }
    ensures settles { T.faithful devices.old.journal → T.faithful devices.old.redo → AreSettled D.Device T.TextStore devices.old
        → OnOk result (AreSettled D.Device T.TextStore devices.new) }
    ensures survives { T.faithful devices.old.journal → T.faithful devices.old.redo → AreSettled D.Device T.TextStore devices.old
        → FadesInOrder (T.text devices.old.journal) (T.text devices.old.redo) (T.survives devices.new.journal) (T.survives devices.new.redo) }
    ensures whole { T.faithful devices.old.journal → T.faithful devices.old.redo → AreSettled D.Device T.TextStore devices.old
        → AreFoundWhole T.TextStore devices.old.journal devices.old.redo devices.new.journal devices.new.redo }
    ensures steps_on { StepsOn D.Device T.TextStore result devices.old devices.new }
{
    empty_text(&mut devices.redo)?;
    empty_text(&mut devices.journal)
}

/// Drops the history of an image, without a session: both texts are then empty, whatever they were. Nothing is read of them, so no text is
/// too damaged, and a length that another program changed stops nothing; nothing is recovered, and the image stays as it is.
///
/// The redo text is emptied, and then the journal, each put on the disk. `DeviceFailed` comes of putting all three on the disk before that,
/// and changes nothing; `Interrupted` comes from the first cut on. What opening finds behind it, or behind a loss of power, is said where no
/// text is found cut in part, and none is where the stores empty a text at once.
pub fn forget_devices<D: Device, T: TextStore>(
    devices: &mut Devices<D, T>,
) -> Result<(), SessionFault>
    requires countable { AreBelow D.Device T.TextStore u64.MAX devices.old }
    ensures image { D.faithful devices.old.image → D.image devices.new.image ≡ D.image devices.old.image }
    ensures alone { OfAll D.Device T.TextStore devices.old (OnOk result (AreAlone D.Device T.TextStore (D.image devices.old.image) devices.new)) }
    ensures fault { IfErr result ForgetDevicesFault }
    ensures left { OfAll D.Device T.TextStore devices.old (LoseOrKeep T.TextStore devices.old devices.new result) }
    ensures finds { OfAll D.Device T.TextStore devices.old (ForgetsInPart D.Device T.TextStore devices.old devices.new result) }
    ensures survives { OfAll D.Device T.TextStore devices.old (BehindInterruption result (KeepImage D.Device T.TextStore devices.old devices.new)) }
    ensures found_before { IfErr result (λ e. AfterFault e (Unit {0}) (FoundBefore D.Device T.TextStore devices.old devices.new)) }
    ensures image_faith { D.faithful devices.new.image ↔ D.faithful devices.old.image }
    ensures journal_faith { T.faithful devices.new.journal ↔ T.faithful devices.old.journal }
    ensures redo_faith { T.faithful devices.new.redo ↔ T.faithful devices.old.redo }
    ensures no_failure { AreUnfailed D.Device T.TextStore devices.old devices.new result }
    ensures counts { AreCounted D.Device T.TextStore devices.old devices.new result }
{
    if let Err(_) = settle(devices) {
        return Err(SessionFault::DeviceFailed);
    }
    match empty_texts(devices) {
        Ok(()) => Ok(()),
        Err(_) => Err(SessionFault::Interrupted),
    }
}
