//! What the next undos or redos would do, by the names of the files.
ghost use Rattle.std.specs.Prelude.{◌≡◌, ◌↔◌, ◌<◌, None, IfErr, OnOk, true};
ghost use Rattle.bx_journal.specs.ShownText.{ShowsText};
ghost use Rattle.bx_world.specs.World.{NothingNewFound, held};
ghost use Rattle.bx_world.specs.files.Reading.{AreReadable};
ghost use Rattle.bx_run_report.specs.report.Looks.{IsNextShown, StopsNextSteps, StopsUndos, is_look_failed, undos, unopened_in};

use crate::report::devices::{show_on, undos_on};
use crate::report::error::ReportError;
use crate::report::lent::{close, into_devices};
use bx_journal::Steps;
use bx_world::{Names, World};
use std::alloc::Global;
use std::io::Write;

/// Writes what the next undos of an image would do, or its next redos: for each step a heading, the saved lines, and an empty line.
/// However many changes `steps` says stand, the journal tells it. The files are only read.
///
/// # Errors
/// Where a file is not opened, where something is unfinished, and where a text is damaged, the image has another length, or memory or
/// a device fails; where fewer changes are there, and where the steps can't be written: a front of them is out then.
pub fn show<W: World, O: Write>(
    world: &mut W,
    alloc: Global,
    names: &Names,
    steps: Steps,
    out: &mut O,
) -> Result<(), ReportError>
    ensures shows { W.faithful world.old → OnOk result (IsNextShown (held (W.state world.old) names.now.image)
        (held (W.state world.old) names.now.journal) (held (W.state world.old) names.now.redo) steps (O.contents out.old) (O.contents out.new)) }
    ensures stops { W.faithful world.old → IfErr result (StopsNextSteps names.now (W.refusals world.old < W.refusals world.new)
        (W.state world.old) steps (O.contents out.old) (O.contents out.new)) }
    ensures fit { W.faithful world.old → unopened_in result ≡ None → AreReadable names.now (W.state world.old) }
    ensures failed { W.faithful world.old → is_look_failed result ≡ true → W.refusals world.old < W.refusals world.new }
    ensures same { W.faithful world.old → W.state world.new ≡ W.state world.old }
    ensures survives { W.faithful world.old → NothingNewFound (W.survives world.old) (W.survives world.new) }
    ensures faith { W.faithful world.new ↔ W.faithful world.old }
{
    let devices = match into_devices(world, names) {
        Ok(devices) => devices,
        Err(unopened) => return Err(ReportError::Unopened(unopened)),
    };
    let seen = show_on(alloc, devices, steps, out);
    close(world, seen)
}

/// Writes what stands unfinished in the journal of an image, and what the next undos would do once it is recovered, whatever way
/// `steps` go. Nothing is recovered: the files are only read.
///
/// # Errors
/// Where a file is not opened; where the journal is damaged or has fewer entries, memory or a device fails, and where the steps
/// can't be written: a front of them is out then.
pub fn show_unfinished<W: World, O: Write>(
    world: &mut W,
    alloc: Global,
    names: &Names,
    steps: Steps,
    out: &mut O,
) -> Result<(), ReportError>
    ensures shows { W.faithful world.old → OnOk result (ShowsText (held (W.state world.old) names.now.journal)
        (held (W.state world.old) names.now.image) (undos steps) (O.contents out.old) (O.contents out.new)) }
    ensures stops { W.faithful world.old → IfErr result (StopsUndos names.now (W.refusals world.old < W.refusals world.new)
        (W.state world.old) steps (O.contents out.old) (O.contents out.new)) }
    ensures fit { W.faithful world.old → unopened_in result ≡ None → AreReadable names.now (W.state world.old) }
    ensures failed { W.faithful world.old → is_look_failed result ≡ true → W.refusals world.old < W.refusals world.new }
    ensures same { W.faithful world.old → W.state world.new ≡ W.state world.old }
    ensures survives { W.faithful world.old → NothingNewFound (W.survives world.old) (W.survives world.new) }
    ensures faith { W.faithful world.new ↔ W.faithful world.old }
{
    let devices = match into_devices(world, names) {
        Ok(devices) => devices,
        Err(unopened) => return Err(ReportError::Unopened(unopened)),
    };
    let seen = undos_on(alloc, devices, steps, out);
    close(world, seen)
}
