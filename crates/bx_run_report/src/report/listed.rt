//! The changes that stand, a line each, by the names of their files.
ghost use Rattle.std.specs.Prelude.{◌≡◌, ◌↔◌, ◌<◌, None, IfErr, IfOk, OnOk, string_bytes, true};
ghost use Rattle.bx_journal.specs.Showing.{RangesOf};
ghost use Rattle.bx_world.specs.World.{NothingNewFound, held};
ghost use Rattle.bx_world.specs.files.Reading.{AreReadable};
ghost use Rattle.bx_run_report.specs.report.Looks.{IsLogOf, MayNotLook, StopsRangesOf, is_look_failed, unopened_in};

use crate::report::devices::{log_on, ranges_on};
use crate::report::error::ReportError;
use crate::report::lent::{close, into_devices};
use bx_world::{Names, World};
use std::alloc::Global;
use std::io::Write;

/// The changes of an image as text, the oldest first: a line for each entry of its journal, which is finished entries alone. The
/// files are only read.
///
/// # Errors
/// Where a file is not opened, where something is unfinished, and where a text is damaged, the image has another length, or memory or
/// a device fails.
pub fn log<W: World>(world: &mut W, alloc: Global, names: &Names) -> Result<String, ReportError>
    ensures log { W.faithful world.old → IfOk result (λ log. IsLogOf (held (W.state world.old) names.now.journal) (string_bytes log)) }
    ensures why { W.faithful world.old
        → IfErr result (MayNotLook names.now (W.refusals world.old < W.refusals world.new) (W.state world.old)) }
    ensures fit { W.faithful world.old → unopened_in result ≡ None → AreReadable names.now (W.state world.old) }
    ensures failed { W.faithful world.old → is_look_failed result ≡ true → W.refusals world.old < W.refusals world.new }
    ensures same { W.faithful world.old → W.state world.new ≡ W.state world.old }
    ensures survives { W.faithful world.old → NothingNewFound (W.survives world.old) (W.survives world.new) }
    ensures faith { W.faithful world.new ↔ W.faithful world.old }
{
    let devices = match into_devices(world, names) {
        Ok(devices) => devices,
        Err(unopened) => return Err(ReportError::Unopened(unopened)),
    };
    let seen = log_on(alloc, devices);
    close(world, seen)
}

/// Writes the changes of an image, a line with ranges each, the oldest first. The files are only read.
///
/// # Errors
/// As of `log`; and where the lines can't be written: a front of them is out then.
pub fn log_with_ranges<W: World, O: Write>(
    world: &mut W,
    alloc: Global,
    names: &Names,
    out: &mut O,
) -> Result<(), ReportError>
    ensures rows { W.faithful world.old
        → OnOk result (RangesOf (held (W.state world.old) names.now.journal) (O.contents out.old) (O.contents out.new)) }
    ensures stops { W.faithful world.old → IfErr result (StopsRangesOf names.now (W.refusals world.old < W.refusals world.new)
        (W.state world.old) (O.contents out.old) (O.contents out.new)) }
    ensures fit { W.faithful world.old → unopened_in result ≡ None → AreReadable names.now (W.state world.old) }
    ensures failed { W.faithful world.old → is_look_failed result ≡ true → W.refusals world.old < W.refusals world.new }
    ensures same { W.faithful world.old → W.state world.new ≡ W.state world.old }
    ensures survives { W.faithful world.old → NothingNewFound (W.survives world.old) (W.survives world.new) }
    ensures faith { W.faithful world.new ↔ W.faithful world.old }
{
    let devices = match into_devices(world, names) {
        Ok(devices) => devices,
        Err(unopened) => return Err(ReportError::Unopened(unopened)),
    };
    let seen = ranges_on(alloc, devices, out);
    close(world, seen)
}
