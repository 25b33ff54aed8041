//! An image whose history is dropped, by the names of its files: all changes are accepted, and nothing can be undone then.
ghost use Rattle.std.specs.Prelude.{◌≡◌, ◌↔◌, ◌<◌, ◌≤◌, ◌+◌, ◌^◌, ℕ, is_err, None, Some, IfErr, IfOk, OnErr, OnOk, false, true, IfSome};
ghost use Rattle.bx_image.specs.Power.{NoMore};
ghost use Rattle.bx_journal.specs.ThreeDevices.{AreBelow};
ghost use Rattle.bx_world.specs.World.{AreOwnFiles, ClosesTexts, IsNoText, IsNoneRead, NothingNewFound, NothingNewSpared, ReadFiles, Spares, TextsLeft, bytes_if, failed_calls, number_if};
ghost use Rattle.bx_world.specs.files.Reading.{AreReadable, MayRefuseForgetting, StaysSeen, numbers_read, AreLockedAs};
ghost use Rattle.bx_world.specs.files.Reasons.{IsReason, NoneUnfit};
ghost use Rattle.bx_run_report.specs.report.Devices.{HoldNumbered};
ghost use Rattle.bx_run.specs.forget.Forgetting.{AreOpenTexts, DropsNote, Empties, HasForgotten, LeavesNote, LendsTexts, IsAlone, IsNoTextNamed, MayForgetNamed, StopsForgetting, SurvivesEmptying, SurvivesForgetting, held_by_names, in_places, texts_of};
ghost use Rattle.bx_run_report.specs.report.Looks.{is_look_failed, unopened_in};
ghost use Rattle.bx_run_model.specs.Failures.{CountsFailure};

use crate::forget::judging::judge;
use bx_cli_commands::Fault;
use bx_image::Device;
use bx_journal::{Devices, SessionFault, forget_devices};
use bx_journal_store::TextStore;
use bx_run_report::{ReportError, Seen, close, read_note_line};
use bx_world::{
    FileRole, Guard, Looked, Names, OpenError, World, open_redo_to_forget, open_to_forget,
};
use std::alloc::Global;

/// An image and its texts that are lent to be read.
pub struct Lent<D: Device, T: TextStore> {
    /// The image, its journal and its redo text.
    pub devices: Devices<D, T>,
    /// Whether the redo text was opened in the place of the journal, as that is missing.
    pub exchanged: bool,
}

/// Lends a redo text that is open beside an image and a journal, to be read, or nothing where it is missing.
fn lend_redo<W: World>(world: &mut W, redo: Option<W::File>) -> Result<W::Text, OpenError>
    requires apart { W.faithful world.old → (f : ReadFiles) → W.beside world.old ≡ Some f → (n : ℕ) → number_if W.number redo ≡ Some n
        → AreOwnFiles (W.state world.old).there (record { image = f.image; journal = f.journal; redo = Some n }) }
    requires locked { W.faithful world.old → IfSome redo W.is_locked }
    ensures failures { IfOk result (λ t. W.Text.failures t ≡ 0) }
    ensures text { W.faithful world.old
        → IfOk result (λ t. W.Text.faithful t × (W.Text.text t ≡ bytes_if (W.state world.old) (number_if W.number redo))) }
    ensures beside { W.faithful world.old → OnOk result ((f : ReadFiles) → W.beside world.old ≡ Some f → f.redo ≡ None
        → W.beside world.new ≡ Some (record { image = f.image; journal = f.journal; redo = number_if W.number redo })) }
    ensures why { W.faithful world.old → IfErr result (λ u. IsReason ⊥ NoneUnfit ⊥ (W.refusals world.old < W.refusals world.new) u.why) }
    ensures calm { W.faithful world.old → OnOk result (W.refusals world.new ≡ W.refusals world.old) }
    ensures seen { W.faithful world.old → StaysSeen W.state W.survives world.old world.new }
    ensures note { W.faithful world.old → W.note world.new ≡ W.note world.old }
    ensures faith { W.faithful world.new ↔ W.faithful world.old }
{
    match redo {
        Some(redo) => match world.lend_redo_beside(redo) {
            Ok(redo) => Ok(redo),
            Err(refusal) => Err(FileRole::Redo.refused(refusal)),
        },
        None => Ok(world.lend_no_text()),
    }
}

/// Lends files that are open, to be read.
fn lend_files<W: World>(
    world: &mut W,
    looked: Looked<W::File>,
) -> Result<Devices<W::Image, W::Text>, OpenError>
    requires apart { W.faithful world.old → AreOwnFiles (W.state world.old).there (numbers_read W.number looked) }
    requires locked { W.faithful world.old → AreLockedAs true W.is_locked W.is_shared looked }
    ensures below { IfOk result (AreBelow W.Image.Device W.Text.TextStore u64.MAX) }
    ensures unfailed { IfOk result (λ d. W.Image.failures d.image ≡ 0) }
    ensures held { W.faithful world.old
        → IfOk result (HoldNumbered W.Image.Device W.Text.TextStore (numbers_read W.number looked) (W.state world.old)) }
    ensures beside { W.faithful world.old → OnOk result (W.beside world.new ≡ Some (numbers_read W.number looked)) }
    ensures found { W.faithful world.old → IfOk result (λ d. NoMore (W.survives world.old (W.number looked.image)) (W.Image.survives d.image)) }
    ensures why { W.faithful world.old → IfErr result (λ u. IsReason ⊥ NoneUnfit ⊥ (W.refusals world.old < W.refusals world.new) u.why) }
    ensures calm { W.faithful world.old → OnOk result (W.refusals world.new ≡ W.refusals world.old) }
    ensures seen { W.faithful world.old → StaysSeen W.state W.survives world.old world.new }
    ensures note { W.faithful world.old → W.note world.new ≡ W.note world.old }
    ensures faith { W.faithful world.new ↔ W.faithful world.old }
{
    let Looked {
        image,
        journal,
        redo,
    } = looked;
    let (image, journal) = match world.lend_beside(image, journal) {
        Ok(lent) => lent,
        Err(refusal) => return Err(FileRole::Image.refused(refusal)),
    };
    match lend_redo(world, redo) {
        Ok(redo) => Ok(Devices {
            image,
            journal,
            redo,
        }),
        Err(unopened) => Err(unopened),
    }
}

/// Opens the files of these names, the texts to change them. A redo text whose journal is missing is opened in the journal's place.
fn open_texts<W: World>(
    world: &mut W,
    names: &Names,
    exchanged: bool,
) -> Result<Looked<W::File>, OpenError>
    requires missing { W.faithful world.old → exchanged ≡ true → (W.state world.old).named names.now.journal ≡ None }
    requires there { W.faithful world.old → exchanged ≡ false → (W.state world.old).named names.now.journal ≡ None → ⊥ }
    ensures opens { W.faithful world.old
        → IfOk result (λ l. AreOpenTexts names.now exchanged (numbers_read W.number l) (W.state world.old)) }
    ensures locked { W.faithful world.old → IfOk result (AreLockedAs true W.is_locked W.is_shared) }
    ensures why { W.faithful world.old
        → IfErr result (MayRefuseForgetting names.now (W.refusals world.old < W.refusals world.new) (W.state world.old)) }
    ensures calm { W.faithful world.old → OnOk result (W.refusals world.new ≡ W.refusals world.old) }
    ensures seen { W.faithful world.old → StaysSeen W.state W.survives world.old world.new }
    ensures note { W.faithful world.old → W.note world.new ≡ W.note world.old }
    ensures faith { W.faithful world.new ↔ W.faithful world.old }
{
    if exchanged {
        open_redo_to_forget(world, names)
    } else {
        open_to_forget(world, names)
    }
}

/// Puts the devices of files that are lent from the places of the files into their own, or back.
fn in_places<D: Device, T: TextStore>(devices: Devices<D, T>, exchanged: bool) -> Devices<D, T>
    ensures { result ≡ in_places exchanged devices }
{
    if exchanged {
        Devices {
            image: devices.image,
            journal: devices.redo,
            redo: devices.journal,
        }
    } else {
        devices
    }
}

/// Opens the files of these names, the texts to change them, and lends them to be read. One of the texts may be missing; where it is the
/// journal, the redo text is opened in its place, and stands in its own among the devices.
fn lend_texts<W: World>(world: &mut W, names: &Names) -> Result<Lent<W::Image, W::Text>, OpenError>
    ensures below { IfOk result (λ l. AreBelow W.Image.Device W.Text.TextStore u64.MAX l.devices) }
    ensures unfailed { IfOk result (λ l. W.Image.failures l.devices.image ≡ 0) }
    ensures lends { W.faithful world.old → IfOk result (λ l. LendsTexts W.Image.Device W.Text.TextStore names.now l
        (W.beside world.new) (W.survives world.old) (W.state world.old)) }
    ensures why { W.faithful world.old
        → IfErr result (MayRefuseForgetting names.now (W.refusals world.old < W.refusals world.new) (W.state world.old)) }
    ensures calm { W.faithful world.old → OnOk result (W.refusals world.new ≡ W.refusals world.old) }
    ensures seen { W.faithful world.old → StaysSeen W.state W.survives world.old world.new }
    ensures note { W.faithful world.old → W.note world.new ≡ W.note world.old }
    ensures faith { W.faithful world.new ↔ W.faithful world.old }
{
    let look = match world.look(names.journal.as_str()) {
        Ok(look) => look,
        Err(refusal) => return Err(FileRole::Journal.refused(refusal)),
    };
    let exchanged = look.found.is_none();
    let looked = match open_texts(world, names, exchanged) {
        Ok(looked) => looked,
        Err(unopened) => return Err(unopened),
    };
    match lend_files(world, looked) {
        Ok(devices) => Ok(Lent {
            devices: in_places(devices, exchanged),
            exchanged,
        }),
        Err(unopened) => Err(unopened),
    }
}

/// Drops the note, where it goes too.
pub fn take_note<W: World>(world: &mut W, goes: bool)
    ensures dropped { W.faithful world.old → goes ≡ true
        → DropsNote (W.refusals world.old < W.refusals world.new) (W.note world.old) (W.note world.new) }
    ensures stays { goes ≡ false → world.new ≡ world.old }
    ensures counted { W.faithful world.old → W.refusals world.old ≤ W.refusals world.new }
    ensures same { W.faithful world.old → W.state world.new ≡ W.state world.old }
    ensures beside { W.faithful world.old → W.beside world.new ≡ W.beside world.old }
    ensures survives { W.faithful world.old → NothingNewFound (W.survives world.old) (W.survives world.new) }
    ensures faith { W.faithful world.new ↔ W.faithful world.old }
{
    if goes {
        // The history is gone by now, and a line that stays counts changes that are gone too: it says nothing.
        let _ = world.drop_note();
    }
}

/// Closes an image and its texts, which may have been changed. Where the note goes it is dropped before: the files are locked up to then,
/// so that no line of a later command is taken.
fn close_texts<W: World>(world: &mut W, devices: Devices<W::Image, W::Text>, goes: bool)
    requires order { (W.Text.failures devices.journal < 2 ^ 32) × (2 ^ 32 ≤ W.Text.failures devices.redo) }
    requires devices { W.faithful world.old → W.Image.faithful devices.image × W.Text.faithful devices.journal × W.Text.faithful devices.redo }
    ensures closed { W.faithful world.old → (f : ReadFiles) → W.beside world.old ≡ Some f
        → ClosesTexts f (W.Text.text devices.journal) (W.Text.text devices.redo) (W.state world.old) (W.state world.new) }
    ensures texts_survive { W.faithful world.old → (f : ReadFiles) → W.beside world.old ≡ Some f
        → TextsLeft f (W.Text.survives devices.journal) (W.Text.survives devices.redo) (W.survives world.new) }
    ensures image_survives { W.faithful world.old → (f : ReadFiles) → W.beside world.old ≡ Some f
        → W.Image.image devices.image ≡ (W.state world.old).bytes f.image → NoMore (W.Image.survives devices.image) (W.survives world.new f.image) }
    ensures others { W.faithful world.old → (f : ReadFiles) → W.beside world.old ≡ Some f
        → NothingNewSpared (IsNoneRead f) (W.survives world.old) (W.survives world.new) }
    ensures dropped { W.faithful world.old → goes ≡ true → DropsNote (0 < W.refusals world.new) (W.note world.old) (W.note world.new) }
    ensures stays { W.faithful world.old → goes ≡ false → W.note world.new ≡ W.note world.old }
    ensures counted { W.faithful world.old → W.refusals world.old
        + failed_calls (W.Image.failures devices.image) (W.Text.failures devices.journal) (W.Text.failures devices.redo) ≤ W.refusals world.new }
    ensures faith { W.faithful world.new ↔ W.faithful world.old }
{
    take_note(world, goes);
    world.close_beside(devices.image, devices.journal, devices.redo);
}

/// Whether the note goes behind an emptying that ended so.
fn goes_behind(outcome: &Result<(), SessionFault>, goes: bool) -> bool
    ensures done { OnOk outcome.now (result ≡ goes) }
    ensures stopped { OnErr outcome.now (result ≡ false) }
{
    match outcome {
        Ok(()) => goes,
        Err(_) => false,
    }
}

/// Lends the texts to be changed, empties them where they are, and closes the files; the note is dropped with them where it `goes`.
fn empty_texts<W: World>(
    world: &mut W,
    devices: Devices<W::Image, W::Text>,
    exchanged: bool,
    goes: bool,
) -> Result<(), SessionFault>
    requires unfailed { W.Image.failures devices.image ≡ 0 }
    requires image { W.faithful world.old → W.Image.faithful devices.image }
    requires beside { W.faithful world.old → (f : ReadFiles) × (W.beside world.old ≡ Some f) }
    ensures empties { W.faithful world.old → (f : ReadFiles) → W.beside world.old ≡ Some f → IsAlone f
        → W.Image.image devices.image ≡ (W.state world.old).bytes f.image → Empties (texts_of exchanged f) result (W.state world.old) (W.state world.new) }
    ensures only { W.faithful world.old → (f : ReadFiles) → W.beside world.old ≡ Some f → Spares (IsNoText f) (W.state world.old) (W.state world.new) }
    ensures survives { W.faithful world.old → (f : ReadFiles) → W.beside world.old ≡ Some f → IsAlone f
        → W.Image.image devices.image ≡ (W.state world.old).bytes f.image
        → SurvivesEmptying (texts_of exchanged f) result (W.state world.old) (W.Image.survives devices.image) (W.survives world.old) (W.survives world.new) }
    ensures note { W.faithful world.old → LeavesNote result goes (0 < W.refusals world.new) (W.note world.old) (W.note world.new) }
    ensures counted { W.faithful world.old → CountsFailure (is_err result) (W.refusals world.old) (W.refusals world.new) }
    ensures faith { W.faithful world.new ↔ W.faithful world.old }
{
    // In the world a redo text whose journal is missing has the journal's place.
    let lent = in_places(devices, exchanged);
    // The files that were looked at, under the locks of that look: nobody comes between.
    let (journal, redo) = world.let_change(lent.journal, lent.redo);
    let changed = Devices {
        image: lent.image,
        journal,
        redo,
    };
    let mut devices = in_places(changed, exchanged);
    let outcome = forget_devices(&mut devices);
    let with_note = goes_behind(&outcome, goes);
    let closed = in_places(devices, exchanged);
    close_texts(world, closed, with_note);
    outcome
}

/// Drops the history of an image: its journal and its redo text are empty then, whatever they were. The image is only read, and stays as
/// it is. None of the three is made, and a text that is missing stays so: also a journal beside a redo text, and the history is empty then.
///
/// A change that is unfinished and that recovery would take back is dropped with it where the image isn't the one that it was made on, by
/// the note beside the journal: the image stays as it stands, and nothing is recovered. The note is dropped behind the texts where it `goes`.
///
/// # Errors
/// Where a file is not opened, or both texts are missing, and where memory or a device fails, or the note can't be read; where a text is
/// damaged at its first line, and so may be any file. Texts that are damaged behind it, or don't fit the image, are emptied all the
/// same.
///
/// `Unfinished` where what is unfinished is of this image, or nothing of it is to be written there: only a command that may write the
/// image recovers it. `Another` where the journal was named beside another image, and where the note says nothing, unless the guard goes
/// on anyway.
pub fn forget_files<W: World>(
    world: &mut W,
    alloc: Global,
    names: &Names,
    guard: Guard,
    goes: bool,
) -> Result<(), ReportError>
    // Where it is done, nothing was unfinished, or the texts don't fit the image, or what was is dropped with them; both are empty then, and
    // the image stands alone.
    ensures may { W.faithful world.old → OnOk result (MayForgetNamed guard (W.note world.old) names.now (W.state world.old)) }
    ensures done { W.faithful world.old
        → OnOk result (HasForgotten (held_by_names names.now (W.state world.old)) (held_by_names names.now (W.state world.new))) }

    // Else all is as it was, and there is a reason; or it was stopped in the middle.
    ensures stopped { W.faithful world.old → IfErr result (StopsForgetting guard (W.note world.old) names.now
        (W.refusals world.old < W.refusals world.new) (W.state world.old) (W.state world.new)) }

    // After a loss of power, too, the image is as it was, and opening finds it with all changes, or with some or all of them dropped.
    ensures survives { W.faithful world.old → SurvivesForgetting names.now result (W.state world.old) (W.survives world.old) (W.survives world.new) }

    // No file is opened that the rule refuses, and none is changed but the texts; and the note, where it goes with them.
    ensures fit { W.faithful world.old → unopened_in result ≡ None → AreReadable names.now (W.state world.old) }
    ensures others { W.faithful world.old
        → Spares (IsNoTextNamed names.now (W.state world.old)) (W.state world.old) (W.state world.new) }
    ensures note { W.faithful world.old → LeavesNote result goes (0 < W.refusals world.new) (W.note world.old) (W.note world.new) }

    // The fault of a device is answered only where a call was refused that is counted.
    ensures counted { W.faithful world.old → OnOk result (W.refusals world.old ≤ W.refusals world.new) }
    ensures failed { W.faithful world.old → is_look_failed result ≡ true → W.refusals world.old < W.refusals world.new }
    ensures faith { W.faithful world.new ↔ W.faithful world.old }
{
    let Lent { devices, exchanged } = match lend_texts(world, names) {
        Ok(lent) => lent,
        Err(unopened) => return Err(ReportError::Unopened(unopened)),
    };
    let known = read_note_line(world);
    let Seen { devices, outcome } = judge(alloc, devices, known, guard);
    match outcome {
        Ok(()) => match empty_texts(world, devices, exchanged, goes) {
            Ok(()) => Ok(()),
            Err(fault) => Err(ReportError::Stopped(Fault::Session(fault))),
        },
        Err(unseen) => {
            let outcome = Err(unseen);
            close(world, Seen { devices, outcome })
        }
    }
}
