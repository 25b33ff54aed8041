//! Reports of the changes of an image, by the names of its files.
ghost use Rattle.std.specs.Prelude.{◌≡◌, ◌↔◌, ◌<◌, None, IfErr, IfSome, OnOk, true};
ghost use Rattle.bx_world.specs.World.{NothingNewFound, held};
ghost use Rattle.bx_world.specs.files.Reading.{AreReadable, MayRefuseReading};
ghost use Rattle.bx_run_report.specs.report.Looks.{is_look_failed, unopened_in};
ghost use Rattle.bx_run_report.specs.report.Reports.{Reports, StopsLogOf, WritesLog};
ghost use Rattle.bx_run_model.specs.RunState.{run_state};

use crate::report::{
    ReportError, log, log_unfinished, log_with_ranges, show, show_patch, show_unfinished,
};
use bx_cli_commands::Fault;
use bx_journal::{Direction, Steps};
use bx_text::emit;
use bx_world::{Names, World};
use std::alloc::Global;
use std::io::Write;

/// What is reported of the changes of an image.
#[derive(Clone, Copy)]
pub enum Report {
    /// A line for each change that stands, the oldest first.
    Log,
    /// A line with ranges for each change that stands, the oldest first.
    LogWithRanges,
    /// What is unfinished, and a line for each change that stands.
    LogUnfinished {
        /// Whether the lines have ranges.
        verbose: bool,
    },
    /// What the next undos or redos would do.
    Show(Steps),
    /// What is unfinished, and what the next undos would do once it is recovered.
    ShowUnfinished(Steps),
    /// What the next undos or redos would do, as one patch.
    Patch {
        /// Back or again.
        way: Direction,
        /// How many changes are stepped over.
        count: u32,
    },
}

/// Writes the log of an image.
fn write_log<W: World, O: Write>(
    world: &mut W,
    alloc: Global,
    names: &Names,
    out: &mut O,
) -> Result<(), ReportError>
    ensures log { W.faithful world.old
        → OnOk result (WritesLog (held (W.state world.old) names.now.journal) (O.contents out.old) (O.contents out.new)) }
    ensures stops { W.faithful world.old → IfErr result (StopsLogOf names.now (W.refusals world.old < W.refusals world.new)
        (W.state world.old) (O.contents out.old) (O.contents out.new)) }
    ensures fit { W.faithful world.old → unopened_in result ≡ None → AreReadable names.now (W.state world.old) }
    ensures failed { W.faithful world.old → is_look_failed result ≡ true → W.refusals world.old < W.refusals world.new }
    ensures same { W.faithful world.old → W.state world.new ≡ W.state world.old }
    ensures survives { W.faithful world.old → NothingNewFound (W.survives world.old) (W.survives world.new) }
    ensures faith { W.faithful world.new ↔ W.faithful world.old }
{
    // No `?` here: it would hide from the proof which error it is.
    let text = match log(world, alloc, names) {
        Ok(text) => text,
        Err(unseen) => return Err(unseen),
    };
    match emit(out, text.as_bytes()) {
        Ok(()) => Ok(()),
        Err(fault) => Err(ReportError::Stopped(Fault::Io(fault))),
    }
}

/// Writes a report. The files are only read.
pub fn write_report<W: World, O: Write>(
    world: &mut W,
    alloc: Global,
    names: &Names,
    report: Report,
    out: &mut O,
) -> Result<(), ReportError>
    ensures reports { W.faithful world.old → Reports names.now report result
        (run_state W.state W.refusals W.note O.contents world.old out.old) (run_state W.state W.refusals W.note O.contents world.new out.new) }
    ensures why { W.faithful world.old
        → IfSome (unopened_in result) (MayRefuseReading names.now (W.refusals world.old < W.refusals world.new) (W.state world.old)) }
    ensures fit { W.faithful world.old → unopened_in result ≡ None → AreReadable names.now (W.state world.old) }
    ensures failed { W.faithful world.old → is_look_failed result ≡ true → W.refusals world.old < W.refusals world.new }
    ensures same { W.faithful world.old → W.state world.new ≡ W.state world.old }
    ensures survives { W.faithful world.old → NothingNewFound (W.survives world.old) (W.survives world.new) }
    ensures faith { W.faithful world.new ↔ W.faithful world.old }
{
    match report {
        Report::Log => write_log(world, alloc, names, out),
        Report::LogWithRanges => log_with_ranges(world, alloc, names, out),
        Report::LogUnfinished { verbose } => log_unfinished(world, alloc, names, verbose, out),
        Report::Show(steps) => show(world, alloc, names, steps, out),
        Report::ShowUnfinished(steps) => show_unfinished(world, alloc, names, steps, out),
        Report::Patch { way, count } => show_patch(world, alloc, names, way, count, out),
    }
}
