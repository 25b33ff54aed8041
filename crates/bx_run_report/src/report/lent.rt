//! Files that are lent as devices to be read.
ghost use Rattle.std.specs.Prelude.{◌≡◌, ◌↔◌, ◌<◌, ◌+◌, false, IfErr, IfOk, IfSome, OnOk};
ghost use Rattle.bx_journal.specs.ThreeDevices.{AreBelow};
ghost use Rattle.bx_world.specs.World.{NothingNewFound, bytes_if, number_if};
ghost use Rattle.bx_world.specs.files.Reading.{AreLockedAs, AreReadable, MayRefuseReading, StaysSeen, numbers_read};
ghost use Rattle.bx_world.specs.files.Reasons.{IsReason, NoneUnfit};
ghost use Rattle.bx_run_report.specs.report.Devices.{HoldFiles, HoldNumbered, failed_reads};

use crate::report::devices::Seen;
use crate::report::error::ReportError;
use bx_journal::Devices;
use bx_world::{FileRole, Looked, Names, OpenError, World, open_to_look};

/// Lends a redo text that is open, or nothing where it is missing.
fn lend_redo<W: World>(world: &mut W, redo: Option<W::File>) -> Result<W::Text, OpenError>
    requires shared { W.faithful world.old → IfSome redo W.is_shared }
    ensures failures { IfOk result (λ t. W.Text.failures t ≡ 0) }
    ensures faithful { W.faithful world.old → IfOk result (λ t. W.Text.faithful t) }
    ensures text { W.faithful world.old → IfOk result (λ t. W.Text.text t ≡ bytes_if (W.state world.old) (number_if W.number redo)) }
    ensures why { W.faithful world.old → IfErr result (λ u. IsReason ⊥ NoneUnfit ⊥ (W.refusals world.old < W.refusals world.new) u.why) }
    ensures calm { W.faithful world.old → OnOk result (W.refusals world.new ≡ W.refusals world.old) }
    ensures seen { W.faithful world.old → StaysSeen W.state W.survives world.old world.new }
    ensures faith { W.faithful world.new ↔ W.faithful world.old }
{
    match redo {
        Some(redo) => match world.lend_text_to_read(redo) {
            Ok(redo) => Ok(redo),
            Err(refusal) => Err(FileRole::Redo.refused(refusal)),
        },
        None => Ok(world.lend_no_text()),
    }
}

/// Lends files that are open.
fn lend_files<W: World>(
    world: &mut W,
    looked: Looked<W::File>,
) -> Result<Devices<W::Image, W::Text>, OpenError>
    requires shared { W.faithful world.old → AreLockedAs false W.is_locked W.is_shared looked }
    ensures below { IfOk result (AreBelow W.Image.Device W.Text.TextStore u64.MAX) }
    ensures held { W.faithful world.old
        → IfOk result (HoldNumbered W.Image.Device W.Text.TextStore (numbers_read W.number looked) (W.state world.old)) }
    ensures why { W.faithful world.old → IfErr result (λ u. IsReason ⊥ NoneUnfit ⊥ (W.refusals world.old < W.refusals world.new) u.why) }
    ensures calm { W.faithful world.old → OnOk result (W.refusals world.new ≡ W.refusals world.old) }
    ensures seen { W.faithful world.old → StaysSeen W.state W.survives world.old world.new }
    ensures faith { W.faithful world.new ↔ W.faithful world.old }
{
    let Looked {
        image,
        journal,
        redo,
    } = looked;
    let image = match world.lend_image_to_read(image) {
        Ok(image) => image,
        Err(refusal) => return Err(FileRole::Image.refused(refusal)),
    };
    let journal = match world.lend_text_to_read(journal) {
        Ok(journal) => journal,
        Err(refusal) => return Err(FileRole::Journal.refused(refusal)),
    };
    match lend_redo(world, redo) {
        Ok(redo) => Ok(Devices {
            image,
            journal,
            redo,
        }),
        Err(unopened) => Err(unopened),
    }
}

/// Opens the files of these names to read them, and lends them.
pub fn into_devices<W: World>(
    world: &mut W,
    names: &Names,
) -> Result<Devices<W::Image, W::Text>, OpenError>
    ensures below { IfOk result (AreBelow W.Image.Device W.Text.TextStore u64.MAX) }
    ensures held { W.faithful world.old → IfOk result (HoldFiles W.Image.Device W.Text.TextStore names.now (W.state world.old)) }
    ensures fit { W.faithful world.old → OnOk result (AreReadable names.now (W.state world.old)) }
    ensures why { W.faithful world.old
        → IfErr result (MayRefuseReading names.now (W.refusals world.old < W.refusals world.new) (W.state world.old)) }
    ensures calm { W.faithful world.old → OnOk result (W.refusals world.new ≡ W.refusals world.old) }
    ensures same { W.faithful world.old → W.state world.new ≡ W.state world.old }
    ensures survives { W.faithful world.old → NothingNewFound (W.survives world.old) (W.survives world.new) }
    ensures faith { W.faithful world.new ↔ W.faithful world.old }
{
    let looked = match open_to_look(world, names) {
        Ok(looked) => looked,
        Err(unopened) => return Err(unopened),
    };
    lend_files(world, looked)
}

/// Closes the files that were lent, and answers what was seen.
pub fn close<W: World, V>(world: &mut W, seen: Seen<W::Image, W::Text, V>) -> Result<V, ReportError>
    ensures outcome { result ≡ seen.outcome }
    ensures counted { W.faithful world.old
        → W.refusals world.new ≡ W.refusals world.old + failed_reads W.Image.Device W.Text.TextStore seen.devices }
    ensures same { W.faithful world.old → W.state world.new ≡ W.state world.old }
    ensures survives { W.faithful world.old → NothingNewFound (W.survives world.old) (W.survives world.new) }
    ensures note { W.faithful world.old → W.note world.new ≡ W.note world.old }
    ensures faith { W.faithful world.new ↔ W.faithful world.old }
{
    let Seen { devices, outcome } = seen;
    let Devices {
        image,
        journal,
        redo,
    } = devices;
    world.close_read(image, journal, redo);
    outcome
}
