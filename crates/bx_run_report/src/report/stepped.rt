//! The patch of what the next undos or redos would do, by the names of the files.
ghost use Rattle.std.specs.Prelude.{◌≡◌, ◌↔◌, ◌+◌, ◌<◌, None, IfErr, OnOk, true};
ghost use Rattle.bx_world.specs.World.{NothingNewFound};
ghost use Rattle.bx_world.specs.files.Reading.{AreReadable, StaysSeen};
ghost use Rattle.bx_run_report.specs.report.Looks.{is_look_failed, unopened_in};
ghost use Rattle.bx_run_report.specs.report.Stepped.{OfNamed, StopsPatch, WritesSteps};

mod between;
mod changes;
mod patched;

use crate::report::devices::Seen;
use crate::report::error::ReportError;
use crate::report::lent::{close, into_devices};
use bx_journal::Direction;
use bx_world::{FileRole, Names, World, lend_alone};
use patched::patch_on;
use std::alloc::Global;
use std::io::Write;

/// Takes the second device of an image back, and counts its failed calls.
fn close_again<W: World>(world: &mut W, again: W::Image)
    ensures counted { W.faithful world.old → W.refusals world.new ≡ W.refusals world.old + W.Image.failures again }
    ensures seen { W.faithful world.old → StaysSeen W.state W.survives world.old world.new }
    ensures faith { W.faithful world.new ↔ W.faithful world.old }
{
    let journal = world.lend_no_text();
    let redo = world.lend_no_text();
    world.close_read(again, journal, redo);
}

/// Writes the patch of what the next `count` undos of an image would do, or its next redos: of undos from the image behind them to the
/// one that is there, of redos from that to the one behind them. The files are only read; the image is opened twice.
///
/// # Errors
/// Where a file is not opened, where something is unfinished, and where a text is damaged, the image has another length, or memory or
/// a device fails; where fewer changes are there, and where the patch can't be written: a prefix of it is out then.
pub fn show_patch<W: World, O: Write>(
    world: &mut W,
    alloc: Global,
    names: &Names,
    way: Direction,
    count: u32,
    out: &mut O,
) -> Result<(), ReportError>
    // Where it succeeds the files hold images, and exactly the patch between the newest one and that of the machine's step was written.
    ensures shows { W.faithful world.old
        → OnOk result (OfNamed names.now (W.state world.old) (λ s. WritesSteps way count s (O.contents out.old) (O.contents out.new))) }
    ensures stops { W.faithful world.old → IfErr result (StopsPatch names.now (W.refusals world.old < W.refusals world.new)
        (W.state world.old) way count (O.contents out.old) (O.contents out.new)) }
    ensures fit { W.faithful world.old → unopened_in result ≡ None → AreReadable names.now (W.state world.old) }
    ensures failed { W.faithful world.old → is_look_failed result ≡ true → W.refusals world.old < W.refusals world.new }
    ensures same { W.faithful world.old → W.state world.new ≡ W.state world.old }
    ensures survives { W.faithful world.old → NothingNewFound (W.survives world.old) (W.survives world.new) }
    ensures faith { W.faithful world.new ↔ W.faithful world.old }
{
    let devices = match into_devices(world, names) {
        Ok(devices) => devices,
        Err(unopened) => return Err(ReportError::Unopened(unopened)),
    };
    let again = match lend_alone(world, names.image.as_str()) {
        Ok(again) => again,
        Err(why) => {
            let outcome = Err(ReportError::Unopened(FileRole::Image.unopened(why)));
            return close(world, Seen { devices, outcome });
        }
    };
    let (seen, again) = patch_on(alloc, devices, again, way, count, out);
    close_again(world, again);
    close(world, seen)
}
