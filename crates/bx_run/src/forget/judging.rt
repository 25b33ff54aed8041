//! Whether the history of three devices may be dropped.
ghost use Rattle.std.specs.Prelude.{◌≡◌, ◌↔◌, ◌<◌, List, ℕ, IfErr, IfOk, OnOk, is_err, false, true};
ghost use Rattle.bx_image.specs.Power.{NoMore};
ghost use Rattle.bx_journal_format.specs.Shown.{shown};
ghost use Rattle.bx_journal_model.specs.Looking.{FaultCounts, OnlyReadsText};
ghost use Rattle.bx_journal_read.specs.scan.Recovery.{FindFault};
ghost use Rattle.bx_journal.specs.ThreeDevices.{AreBelow};
ghost use Rattle.bx_run_report.specs.report.Devices.{HoldBytes, failed_reads};
ghost use Rattle.bx_run.specs.forget.Forgetting.{EndsWithEntry, IsJudgedOpen, IsOfTexts, KeepsHistory, MayForget, drops};
ghost use Rattle.bx_run_report.specs.report.Noted.{IsNoteLine};
ghost use Rattle.bx_run_report.specs.report.Looks.{HidesChanges, is_look_failed};

use bx_cli_commands::Fault;
use bx_image::{Device, DeviceFailed};
use bx_journal::{Devices, Session, SessionFault};
use bx_journal_image::{END, ImageLine, Verdict, end_of, judge_unfinished};
use bx_journal_store::TextStore;
use bx_run_report::{NoteLine, ReportError, Seen, closed, is_whole, reason_of};
use bx_world::Guard;
use std::alloc::Global;

/// Whether the texts are those of an image, but not of what it has now, or damaged further on. One whose first line is none of a
/// journal may be any file, which isn't emptied.
fn is_of_texts(fault: SessionFault) -> bool
    ensures { (result ≡ true) ↔ IsOfTexts fault }
{
    match fault {
        SessionFault::LengthDiffers { .. } => true,
        SessionFault::Damaged { line } | SessionFault::RedoDamaged { line } => line > 1,
        SessionFault::NoMemory
        | SessionFault::TooLarge
        | SessionFault::DeviceFailed
        | SessionFault::TooFew { .. }
        | SessionFault::JournalFull
        | SessionFault::Interrupted
        | SessionFault::Broken
        | SessionFault::NothingToRedo { .. } => false,
    }
}

/// Whether the history may be dropped of devices in which nothing is unfinished that is dropped with it: opening says. They are only
/// read: where something is unfinished it is refused, also if the devices took what recovery writes, since the files have nothing of it.
fn judge_found<D: Device, T: TextStore>(alloc: Global, devices: Devices<D, T>) -> Seen<D, T, ()>
    requires countable { AreBelow D.Device T.TextStore u64.MAX devices }
    ensures may { (x text redo note : List ℕ) (guard : Guard) → HoldBytes D.Device T.TextStore x text redo devices
        → OnOk result.outcome (MayForget guard note x text redo) }
    ensures hides { (x text redo : List ℕ) → HoldBytes D.Device T.TextStore x text redo devices
        → IfErr result.outcome (HidesChanges x text redo) }
    ensures image { (x text redo : List ℕ) → HoldBytes D.Device T.TextStore x text redo devices
        → OnOk result.outcome (D.faithful result.devices.image × (D.image result.devices.image ≡ x)) }
    ensures found_before { (x text redo : List ℕ) → HoldBytes D.Device T.TextStore x text redo devices
        → OnOk result.outcome (NoMore (D.survives devices.image) (D.survives result.devices.image)) }
    ensures unfailed { OnOk result.outcome (D.failures result.devices.image ≡ D.failures devices.image) }
    ensures failed { is_look_failed result.outcome ≡ true → 0 < failed_reads D.Device T.TextStore result.devices }
{
    match Session::open_devices(alloc, devices) {
        Ok((session, found)) => {
            if is_whole(found.how) {
                return Seen {
                    devices: closed(session),
                    outcome: Ok(()),
                };
            }
            Seen {
                devices: closed(session),
                outcome: Err(ReportError::Unfinished),
            }
        }
        Err((devices, fault)) => {
            // Forgetting is for such texts: no other command gets past them.
            if is_of_texts(fault) {
                return Seen {
                    devices,
                    outcome: Ok(()),
                };
            }
            Seen {
                devices,
                outcome: Err(reason_of(fault)),
            }
        }
    }
}

/// Whether a text ends in the line that ends an entry.
fn ends_entry<T: TextStore>(text: &mut T) -> Result<bool, DeviceFailed>
    requires { T.failures text.old < u64.MAX }
    ensures ends { T.faithful text.old → IfOk result (λ ends. ends ≡ true → EndsWithEntry (T.text text.old)) }
    ensures reads { OnlyReadsText T.TextStore (is_err result) text.old text.new }
{
    let len = text.len()?;
    if len < END as u64 {
        return Ok(false);
    }
    let mut tail = [0u8; END];
    text.read_at(len - END as u64, &mut tail)?;
    Ok(end_of(&tail).is_some())
}

/// What the image is by a line, where a change is unfinished that recovery takes back. A journal that ends an entry isn't read for it.
fn judge_open<D: Device, T: TextStore>(
    alloc: Global,
    image: &mut D,
    journal: &mut T,
    line: Option<ImageLine>,
) -> Result<Option<Verdict>, SessionFault>
    requires image_countable { D.failures image.old < u64.MAX }
    requires journal_countable { T.failures journal.old < u64.MAX }
    ensures judged { D.faithful image.old → T.faithful journal.old → IfOk result (IsJudgedOpen line (T.text journal.old) (D.image image.old)) }
    ensures fault { IfErr result (FindFault (T.faithful journal.old) (shown (T.text journal.old))) }
    ensures image { D.faithful image.old → D.image image.new ≡ D.image image.old }
    ensures journal { T.faithful journal.old → T.text journal.new ≡ T.text journal.old }
    ensures image_before { D.faithful image.old → NoMore (D.survives image.old) (D.survives image.new) }
    ensures image_faith { D.faithful image.new ↔ D.faithful image.old }
    ensures journal_faith { T.faithful journal.new ↔ T.faithful journal.old }
    ensures no_failure { OnOk result ((D.failures image.new ≡ D.failures image.old) × (T.failures journal.new ≡ T.failures journal.old)) }
    ensures counts { IfErr result (λ e. FaultCounts e (D.failures image.old) (T.failures journal.old) (D.failures image.new) (T.failures journal.new)) }
{
    let ends = match ends_entry(journal) {
        Ok(ends) => ends,
        Err(_) => return Err(SessionFault::DeviceFailed),
    };
    if ends {
        return Ok(None);
    }
    judge_unfinished(&alloc, image, journal, line)
}

/// Whether a change that is unfinished is dropped with its history, by what the image is.
fn is_dropped(guard: Guard, verdict: Verdict) -> bool
    ensures { result ≡ drops guard verdict }
{
    match verdict {
        Verdict::Same => false,
        Verdict::Other => guard.anyway || !guard.named,
        Verdict::Untold => guard.anyway,
    }
}

/// The devices, whose history is dropped or kept.
fn drop_or_keep<D: Device, T: TextStore>(devices: Devices<D, T>, drops: bool) -> Seen<D, T, ()>
    ensures devices { result.devices ≡ devices }
    ensures dropped { OnOk result.outcome (drops ≡ true) }
    ensures kept { IfErr result.outcome (λ u. (u ≡ ReportError.Another) × (drops ≡ false)) }
{
    let outcome = if drops {
        Ok(())
    } else {
        Err(ReportError::Another)
    };
    Seen { devices, outcome }
}

/// Whether the history may be dropped, by what the image is where a change is unfinished that recovery takes back. That is dropped with
/// it on another image than it was made on, unless the journal was named beside the image and may be another one's; where the note
/// says nothing only a command does it that goes on anyway, and on the image itself none.
fn judge_told<D: Device, T: TextStore>(
    alloc: Global,
    devices: Devices<D, T>,
    known: NoteLine,
    guard: Guard,
    found: Option<Verdict>,
) -> Seen<D, T, ()>
    requires countable { AreBelow D.Device T.TextStore u64.MAX devices }
    ensures may { (x text redo note : List ℕ) → HoldBytes D.Device T.TextStore x text redo devices → IsNoteLine note known
        → IsJudgedOpen known.line text x found → OnOk result.outcome (MayForget guard note x text redo) }
    ensures hides { (x text redo note : List ℕ) → HoldBytes D.Device T.TextStore x text redo devices → IsNoteLine note known
        → IsJudgedOpen known.line text x found → IfErr result.outcome (KeepsHistory guard note x text redo) }
    ensures image { (x text redo : List ℕ) → HoldBytes D.Device T.TextStore x text redo devices
        → OnOk result.outcome (D.faithful result.devices.image × (D.image result.devices.image ≡ x)) }
    ensures found_before { (x text redo : List ℕ) → HoldBytes D.Device T.TextStore x text redo devices
        → OnOk result.outcome (NoMore (D.survives devices.image) (D.survives result.devices.image)) }
    ensures unfailed { OnOk result.outcome (D.failures result.devices.image ≡ D.failures devices.image) }
    ensures failed { known.is_read ≡ true → is_look_failed result.outcome ≡ true → 0 < failed_reads D.Device T.TextStore result.devices }
{
    let Some(verdict) = found else {
        return judge_found(alloc, devices);
    };
    if !known.is_read {
        let fault = Fault::Session(SessionFault::DeviceFailed);
        return Seen {
            devices,
            outcome: Err(ReportError::Stopped(fault)),
        };
    }
    match verdict {
        Verdict::Same => judge_found(alloc, devices),
        Verdict::Other | Verdict::Untold => drop_or_keep(devices, is_dropped(guard, verdict)),
    }
}

/// Whether the history of three devices may be dropped. They are only read: nothing is recovered.
pub fn judge<D: Device, T: TextStore>(
    alloc: Global,
    devices: Devices<D, T>,
    known: NoteLine,
    guard: Guard,
) -> Seen<D, T, ()>
    requires countable { AreBelow D.Device T.TextStore u64.MAX devices }
    ensures may { (x text redo note : List ℕ) → HoldBytes D.Device T.TextStore x text redo devices → IsNoteLine note known
        → OnOk result.outcome (MayForget guard note x text redo) }
    ensures hides { (x text redo note : List ℕ) → HoldBytes D.Device T.TextStore x text redo devices → IsNoteLine note known
        → IfErr result.outcome (KeepsHistory guard note x text redo) }
    ensures image { (x text redo : List ℕ) → HoldBytes D.Device T.TextStore x text redo devices
        → OnOk result.outcome (D.faithful result.devices.image × (D.image result.devices.image ≡ x)) }
    ensures found_before { (x text redo : List ℕ) → HoldBytes D.Device T.TextStore x text redo devices
        → OnOk result.outcome (NoMore (D.survives devices.image) (D.survives result.devices.image)) }
    ensures unfailed { OnOk result.outcome (D.failures result.devices.image ≡ D.failures devices.image) }
    ensures failed { known.is_read ≡ true → is_look_failed result.outcome ≡ true → 0 < failed_reads D.Device T.TextStore result.devices }
{
    let mut devices = devices;
    match judge_open(alloc, &mut devices.image, &mut devices.journal, known.line) {
        Ok(found) => judge_told(alloc, devices, known, guard, found),
        Err(fault) => {
            let outcome = if is_of_texts(fault) {
                Ok(())
            } else {
                Err(reason_of(fault))
            };
            Seen { devices, outcome }
        }
    }
}
