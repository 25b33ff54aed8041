//! Looks at three devices, which are handed back.
ghost use Rattle.std.specs.Prelude.{◌≡◌, ◌↔◌, ◌<◌, ◌+◌, List, ℕ, IfErr, IfOk, OnOk, true, string_bytes};
ghost use Rattle.bx_journal.specs.SessionView.{devices_of};
ghost use Rattle.bx_journal.specs.Showing.{RangesOf};
ghost use Rattle.bx_journal.specs.ShownText.{ShowsText};
ghost use Rattle.bx_journal.specs.ThreeDevices.{AreBelow};
ghost use Rattle.bx_journal.specs.Undoing.{HasCount};
ghost use Rattle.bx_run_report.specs.report.Devices.{HoldBytes, IsDeviceStop, IsOpenedWhole, IsUnbroken, failed_reads};
ghost use Rattle.bx_run_report.specs.report.Looks.{AreStepsCut, HidesChanges, IsListCut, IsLogOf, IsNextCut, IsNextShown, IsUnseenOr, is_look_failed, is_unseen_failed, stepped_text, undos};
ghost use Rattle.bx_run_report.specs.report.Stepped.{CountsHeld};

use crate::report::error::{ReportError, reason_of};
use bx_cli_commands::{Fault, list_ranges, list_steps, log_text};
use bx_image::Device;
use bx_journal::{Devices, Direction, RecoveryOutcome, Session, Steps};
use bx_journal_store::TextStore;
use std::alloc::Global;
use std::io::Write;

/// Three devices behind a look, and what it answers.
pub struct Seen<D: Device, T: TextStore, V> {
    /// The image, its journal and its redo text.
    pub devices: Devices<D, T>,
    /// What is seen, or why nothing is.
    pub outcome: Result<V, ReportError>,
}

/// The devices of a session.
pub fn closed<D: Device, T: TextStore>(session: Session<D, T>) -> Devices<D, T>
    ensures { result ≡ devices_of session }
{
    let (image, journal, redo) = session.close();
    Devices {
        image,
        journal,
        redo,
    }
}

/// Whether opening found finished entries alone.
pub fn is_whole(how: RecoveryOutcome) -> bool
    ensures { (result ≡ true) ↔ (how ≡ RecoveryOutcome.Clean) }
{
    match how {
        RecoveryOutcome::Clean => true,
        RecoveryOutcome::Dropped | RecoveryOutcome::Restored { .. } => false,
    }
}

/// Opens a session on devices that are only read. Where something is unfinished it is refused, also if the devices took what
/// recovery writes: the files have nothing of it.
pub fn open_whole<D: Device, T: TextStore>(
    alloc: Global,
    devices: Devices<D, T>,
) -> Result<Session<D, T>, (Devices<D, T>, ReportError)>
    requires countable { AreBelow D.Device T.TextStore u64.MAX devices }
    ensures unbroken { IfOk result (IsUnbroken D.Device T.TextStore u64.MAX) }
    ensures opened { (x text redo : List ℕ) → HoldBytes D.Device T.TextStore x text redo devices
        → IfOk result (IsOpenedWhole D.Device T.TextStore x text redo) }
    ensures images { (x text redo : List ℕ) → HoldBytes D.Device T.TextStore x text redo devices
        → IfOk result (CountsHeld x text redo) }
    ensures hides { (x text redo : List ℕ) → HoldBytes D.Device T.TextStore x text redo devices
        → IfErr result (λ e. HidesChanges x text redo e.1) }
    ensures failed { IfErr result (λ e. is_unseen_failed e.1 ≡ true → 0 < failed_reads D.Device T.TextStore e.0) }
{
    match Session::open_devices(alloc, devices) {
        Ok((session, found)) => {
            if is_whole(found.how) {
                return Ok(session);
            }
            Err((closed(session), ReportError::Unfinished))
        }
        Err((devices, fault)) => Err((devices, reason_of(fault))),
    }
}

/// The changes of a session that was just opened as text, a line each, the oldest first.
fn log_in<D: Device, T: TextStore>(
    alloc: Global,
    session: &mut Session<D, T>,
) -> Result<String, ReportError>
    requires unbroken { IsUnbroken D.Device T.TextStore u64.MAX session.old }
    ensures log { T.faithful session.old.journal → HasCount (T.text session.old.journal) session.old.count
        → IfOk result (λ text. IsLogOf (T.text session.old.journal) (string_bytes text)) }
    ensures fails { T.faithful session.old.journal → HasCount (T.text session.old.journal) session.old.count → IfErr result IsDeviceStop }
    ensures failed { is_look_failed result ≡ true → 0 < failed_reads D.Device T.TextStore (devices_of session.new) }
{
    let rows = match session.log() {
        Ok(rows) => rows,
        Err(fault) => return Err(ReportError::Stopped(Fault::Session(fault))),
    };
    match log_text(alloc, rows.as_slice()) {
        Ok(text) => Ok(text),
        Err(fault) => Err(ReportError::Stopped(fault)),
    }
}

/// The changes that three devices have as text, a line each, the oldest first.
pub fn log_on<D: Device, T: TextStore>(alloc: Global, devices: Devices<D, T>) -> Seen<D, T, String>
    requires countable { AreBelow D.Device T.TextStore u64.MAX devices }
    ensures log { (x text redo : List ℕ) → HoldBytes D.Device T.TextStore x text redo devices
        → IfOk result.outcome (λ log. IsLogOf text (string_bytes log)) }
    ensures hides { (x text redo : List ℕ) → HoldBytes D.Device T.TextStore x text redo devices
        → IfErr result.outcome (HidesChanges x text redo) }
    ensures failed { is_look_failed result.outcome ≡ true → 0 < failed_reads D.Device T.TextStore result.devices }
{
    match open_whole(alloc, devices) {
        Ok(mut session) => {
            let outcome = log_in(alloc, &mut session);
            Seen {
                devices: closed(session),
                outcome,
            }
        }
        Err((devices, unseen)) => Seen {
            devices,
            outcome: Err(unseen),
        },
    }
}

/// Writes a line with ranges for each change of a journal, the oldest first.
fn list_on<T: TextStore, O: Write>(
    alloc: Global,
    journal: &mut T,
    out: &mut O,
) -> Result<(), ReportError>
    requires { T.failures journal.old < u64.MAX }
    ensures rows { T.faithful journal.old → OnOk result (RangesOf (T.text journal.old) (O.contents out.old) (O.contents out.new)) }
    ensures cut { T.faithful journal.old → IfErr result (IsListCut (T.text journal.old) (O.contents out.old) (O.contents out.new)) }
    ensures failed { is_look_failed result ≡ true → 0 < T.failures journal.new }
{
    match list_ranges(&alloc, journal, out) {
        Ok(()) => Ok(()),
        Err(fault) => Err(ReportError::Stopped(fault)),
    }
}

/// Writes a line with ranges for each change that three devices have, the oldest first.
pub fn ranges_on<D: Device, T: TextStore, O: Write>(
    alloc: Global,
    devices: Devices<D, T>,
    out: &mut O,
) -> Seen<D, T, ()>
    requires countable { AreBelow D.Device T.TextStore u64.MAX devices }
    ensures rows { (x text redo : List ℕ) → HoldBytes D.Device T.TextStore x text redo devices
        → OnOk result.outcome (RangesOf text (O.contents out.old) (O.contents out.new)) }
    ensures stops { (x text redo : List ℕ) → HoldBytes D.Device T.TextStore x text redo devices → IfErr result.outcome (λ u.
        IsUnseenOr (HidesChanges x text redo u) (O.contents out.old) (O.contents out.new) (IsListCut text (O.contents out.old) (O.contents out.new) u)) }
    ensures failed { is_look_failed result.outcome ≡ true → 0 < failed_reads D.Device T.TextStore result.devices }
{
    match open_whole(alloc, devices) {
        Ok(session) => {
            let mut devices = closed(session);
            let outcome = list_on(alloc, &mut devices.journal, out);
            Seen { devices, outcome }
        }
        Err((devices, unseen)) => Seen {
            devices,
            outcome: Err(unseen),
        },
    }
}

/// Writes the steps over the entries of a text.
fn show_text<D: Device, T: TextStore, O: Write>(
    alloc: Global,
    image: &mut D,
    text: &mut T,
    steps: Steps,
    out: &mut O,
) -> Result<(), ReportError>
    requires countable { D.failures image.old < u64.MAX }
    requires also_countable { T.failures text.old < u64.MAX }
    ensures shows { T.faithful text.old → D.faithful image.old → OnOk result
        (ShowsText (T.text text.old) (D.image image.old) steps (O.contents out.old) (O.contents out.new)) }
    ensures cut { T.faithful text.old → D.faithful image.old → IfErr result
        (AreStepsCut (T.text text.old) (D.image image.old) steps (O.contents out.old) (O.contents out.new)) }
    ensures failed { is_look_failed result ≡ true → 0 < D.failures image.new + T.failures text.new }
{
    match list_steps(&alloc, image, text, steps, out) {
        Ok(()) => Ok(()),
        Err(fault) => Err(ReportError::Stopped(fault)),
    }
}

/// Writes the steps that are asked for: those of an undo over the journal, those of a redo over the redo text.
fn show_next<D: Device, T: TextStore, O: Write>(
    alloc: Global,
    devices: &mut Devices<D, T>,
    steps: Steps,
    out: &mut O,
) -> Result<(), ReportError>
    requires countable { AreBelow D.Device T.TextStore u64.MAX devices.old }
    ensures shows { (x text redo : List ℕ) → HoldBytes D.Device T.TextStore x text redo devices.old → OnOk result
        (ShowsText (stepped_text steps.way text redo) x steps (O.contents out.old) (O.contents out.new)) }
    ensures cut { (x text redo : List ℕ) → HoldBytes D.Device T.TextStore x text redo devices.old → IfErr result
        (AreStepsCut (stepped_text steps.way text redo) x steps (O.contents out.old) (O.contents out.new)) }
    ensures failed { is_look_failed result ≡ true → 0 < failed_reads D.Device T.TextStore devices.new }
{
    match steps.way {
        Direction::Undo => show_text(alloc, &mut devices.image, &mut devices.journal, steps, out),
        Direction::Redo => show_text(alloc, &mut devices.image, &mut devices.redo, steps, out),
    }
}

/// Writes the steps that are asked for of the changes that three devices have, however many `steps` says stand.
pub fn show_on<D: Device, T: TextStore, O: Write>(
    alloc: Global,
    devices: Devices<D, T>,
    steps: Steps,
    out: &mut O,
) -> Seen<D, T, ()>
    requires countable { AreBelow D.Device T.TextStore u64.MAX devices }
    ensures shows { (x text redo : List ℕ) → HoldBytes D.Device T.TextStore x text redo devices
        → OnOk result.outcome (IsNextShown x text redo steps (O.contents out.old) (O.contents out.new)) }
    ensures stops { (x text redo : List ℕ) → HoldBytes D.Device T.TextStore x text redo devices → IfErr result.outcome (λ u.
        IsUnseenOr (HidesChanges x text redo u) (O.contents out.old) (O.contents out.new)
        (IsNextCut x text redo steps (O.contents out.old) (O.contents out.new) u)) }
    ensures failed { is_look_failed result.outcome ≡ true → 0 < failed_reads D.Device T.TextStore result.devices }
{
    match open_whole(alloc, devices) {
        Ok(session) => {
            let changes = session.changes();
            let mut devices = closed(session);
            let outcome = show_next(alloc, &mut devices, Steps { changes, ..steps }, out);
            Seen { devices, outcome }
        }
        Err((devices, unseen)) => Seen {
            devices,
            outcome: Err(unseen),
        },
    }
}

/// Writes the undos over the entries of a journal, and before them what stands unfinished behind its entries.
pub fn undos_on<D: Device, T: TextStore, O: Write>(
    alloc: Global,
    devices: Devices<D, T>,
    steps: Steps,
    out: &mut O,
) -> Seen<D, T, ()>
    requires countable { AreBelow D.Device T.TextStore u64.MAX devices }
    ensures shows { (x text redo : List ℕ) → HoldBytes D.Device T.TextStore x text redo devices
        → OnOk result.outcome (ShowsText text x (undos steps) (O.contents out.old) (O.contents out.new)) }
    ensures cut { (x text redo : List ℕ) → HoldBytes D.Device T.TextStore x text redo devices
        → IfErr result.outcome (AreStepsCut text x (undos steps) (O.contents out.old) (O.contents out.new)) }
    ensures failed { is_look_failed result.outcome ≡ true → 0 < failed_reads D.Device T.TextStore result.devices }
{
    let mut devices = devices;
    let way = Direction::Undo;
    let image = &mut devices.image;
    let outcome = show_text(
        alloc,
        image,
        &mut devices.journal,
        Steps { way, ..steps },
        out,
    );
    Seen { devices, outcome }
}
