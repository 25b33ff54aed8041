//! The changes before what is unfinished, a line each, by the names of their files; nothing is recovered.
ghost use Rattle.std.specs.Prelude.{◌≡◌, ◌↔◌, ◌<◌, ◌≤◌, ◌++◌, ℕ, List, None, All, IfErr, OnOk, length, true};
ghost use Rattle.std.specs.Io.KnownBytes.{Appends};
ghost use Rattle.bx_journal_read.specs.show.Stopping.{StopsPrefix};
ghost use Rattle.bx_journal.specs.ThreeDevices.{AreBelow};
ghost use Rattle.bx_journal.specs.Showing.{LiesWithin, LookCounts, PutFault, StopsLog};
ghost use Rattle.bx_journal.specs.ShownSteps.{torn_text};
ghost use Rattle.bx_world.specs.World.{NothingNewFound, held};
ghost use Rattle.bx_world.specs.files.Reading.{AreReadable};
ghost use Rattle.bx_run_report.specs.report.Devices.{HoldBytes, failed_reads};
ghost use Rattle.bx_run_report.specs.report.Looks.{is_look_failed, unopened_in};
ghost use Rattle.bx_run_report.specs.report.Unfinished.{IsFrontCut, ListsFront, StopsFrontRows, StopsFrontOf, rows_at, unseen_by};

mod rows;

use crate::report::devices::Seen;
use crate::report::error::ReportError;
use crate::report::lent::{close, into_devices};
use crate::report::unfinished::rows::put_listed_rows;
use bx_cli_commands::Fault;
use bx_image::Device;
use bx_journal::{Devices, ShowFault};
use bx_journal_read::{Marked, front_marks, put_torn};
use bx_journal_store::TextStore;
use bx_world::{Names, World};
use std::alloc::Global;
use std::io::Write;

/// Writes the line on what is unfinished, if anything is, and the rows of the entries.
fn put_listed<T: TextStore, O: Write>(
    alloc: Global,
    journal: &mut T,
    found: &Marked,
    verbose: bool,
    out: &mut O,
) -> Result<(), ShowFault>
    requires countable { T.failures journal.old < u64.MAX }
    requires lie { (len : ℕ) × (T.faithful journal.old → len ≤ length (T.text journal.old)) × All (LiesWithin len) found.now.marks.items }
    ensures put { T.faithful journal.old → OnOk result (Appends (O.contents out.old) (O.contents out.new)
        (torn_text found.now.torn ++ rows_at verbose (T.text journal.old) 1 found.now.marks.items)) }
    ensures stops { T.faithful journal.old → IfErr result (StopsPrefix 0
        (torn_text found.now.torn ++ rows_at verbose (T.text journal.old) 1 found.now.marks.items) (O.contents out.old) (O.contents out.new)) }
    ensures kind { IfErr result PutFault }
    ensures counts { IfErr result (λ f. LookCounts f (T.failures journal.old) 0 (T.failures journal.new) 0) }
{
    let before = put_torn(&alloc, found.torn, out)?;
    put_listed_rows(alloc, journal, found.marks.as_slice(), verbose, before, out)
}

/// Writes what stands unfinished in a journal, if anything does, and the entries before it, a line each.
fn list_front<T: TextStore, O: Write>(
    alloc: Global,
    journal: &mut T,
    verbose: bool,
    out: &mut O,
) -> Result<(), ShowFault>
    requires { T.failures journal.old < u64.MAX }
    ensures lists { T.faithful journal.old
        → OnOk result (ListsFront verbose (T.text journal.old) (O.contents out.old) (O.contents out.new)) }
    ensures fault { IfErr result (StopsLog (T.faithful journal.old) (T.text journal.old)) }
    ensures stops { T.faithful journal.old
        → IfErr result (StopsFrontRows verbose (T.text journal.old) (O.contents out.old) (O.contents out.new)) }
    ensures counts { IfErr result (λ f. LookCounts f (T.failures journal.old) 0 (T.failures journal.new) 0) }
{
    let found = match front_marks(&alloc, journal) {
        Ok(found) => found,
        Err(fault) => return Err(ShowFault::Text(fault)),
    };
    put_listed(alloc, journal, &found, verbose, out)
}

/// What a look answers that was stopped so.
fn unseen_by(fault: ShowFault) -> ReportError
    ensures { result ≡ unseen_by fault }
{
    match fault {
        ShowFault::Text(fault) => ReportError::Stopped(Fault::Session(fault)),
        ShowFault::Io(fault) => ReportError::Stopped(Fault::Io(fault)),
    }
}

/// Writes what stands unfinished in the journal of three devices, and the entries before it, a line each.
fn front_on<D: Device, T: TextStore, O: Write>(
    alloc: Global,
    devices: Devices<D, T>,
    verbose: bool,
    out: &mut O,
) -> Seen<D, T, ()>
    requires countable { AreBelow D.Device T.TextStore u64.MAX devices }
    ensures lists { (x text redo : List ℕ) → HoldBytes D.Device T.TextStore x text redo devices
        → OnOk result.outcome (ListsFront verbose text (O.contents out.old) (O.contents out.new)) }
    ensures cut { (x text redo : List ℕ) → HoldBytes D.Device T.TextStore x text redo devices
        → IfErr result.outcome (IsFrontCut verbose text (O.contents out.old) (O.contents out.new)) }
    ensures failed { is_look_failed result.outcome ≡ true → 0 < failed_reads D.Device T.TextStore result.devices }
{
    let mut devices = devices;
    match list_front(alloc, &mut devices.journal, verbose, out) {
        Ok(()) => Seen {
            devices,
            outcome: Ok(()),
        },
        Err(fault) => Seen {
            devices,
            outcome: Err(unseen_by(fault)),
        },
    }
}

/// Writes what stands unfinished in the journal of an image, and then the changes before it, the oldest first: a line each, with ranges
/// where `verbose` asks for them. Nothing is recovered: the files are only read. Where nothing is unfinished the changes are all.
///
/// # Errors
/// Where a file is not opened; where the journal is damaged, memory or a device fails, and where the lines can't be written: a front
/// of them is out then.
pub fn log_unfinished<W: World, O: Write>(
    world: &mut W,
    alloc: Global,
    names: &Names,
    verbose: bool,
    out: &mut O,
) -> Result<(), ReportError>
    ensures lists { W.faithful world.old → OnOk result
        (ListsFront verbose (held (W.state world.old) names.now.journal) (O.contents out.old) (O.contents out.new)) }
    ensures stops { W.faithful world.old → IfErr result (StopsFrontOf names.now (W.refusals world.old < W.refusals world.new)
        (W.state world.old) verbose (O.contents out.old) (O.contents out.new)) }
    ensures fit { W.faithful world.old → unopened_in result ≡ None → AreReadable names.now (W.state world.old) }
    ensures failed { W.faithful world.old → is_look_failed result ≡ true → W.refusals world.old < W.refusals world.new }
    ensures same { W.faithful world.old → W.state world.new ≡ W.state world.old }
    ensures survives { W.faithful world.old → NothingNewFound (W.survives world.old) (W.survives world.new) }
    ensures faith { W.faithful world.new ↔ W.faithful world.old }
{
    let devices = match into_devices(world, names) {
        Ok(devices) => devices,
        Err(unopened) => return Err(ReportError::Unopened(unopened)),
    };
    let seen = front_on(alloc, devices, verbose, out);
    close(world, seen)
}
