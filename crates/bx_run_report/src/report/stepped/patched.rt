//! The patch of steps on three devices, and a second one of the image, which are handed back.
ghost use Rattle.std.specs.Prelude.{◌≡◌, ◌<◌, ◌+◌, List, ℕ, IfErr, OnOk, true};
ghost use Rattle.bx_journal.specs.Images.{Images};
ghost use Rattle.bx_journal.specs.ThreeDevices.{AreBelow};
ghost use Rattle.bx_run_report.specs.report.Devices.{HoldBytes, IsDeviceStop, IsUnbroken, failed_reads};
ghost use Rattle.bx_run_report.specs.report.Looks.{HidesChanges, IsUnseenOr, is_look_failed};
ghost use Rattle.bx_run_report.specs.report.Stepped.{CountsImages, HoldCounted, HoldsImage, IsStepsCut, OfImages, WritesSteps, steps_in, too_few};

use crate::report::devices::{Seen, closed, open_whole};
use crate::report::error::ReportError;
use crate::report::stepped::between::put_patch;
use crate::report::stepped::changes::read_steps;
use bx_cli_commands::Fault;
use bx_image::Device;
use bx_journal::{Devices, Direction, Session, SessionFault};
use bx_journal_store::TextStore;
use std::alloc::Global;
use std::io::Write;

/// What is said where there are too few changes.
fn few(way: Direction, have: u32) -> ReportError
    ensures { result ≡ too_few way have }
{
    ReportError::Stopped(Fault::Session(match way {
        Direction::Undo => SessionFault::TooFew { have },
        Direction::Redo => SessionFault::NothingToRedo { have },
    }))
}

/// How many steps a session can make.
fn steps_of<D: Device, T: TextStore>(session: &Session<D, T>, way: Direction) -> u32
    ensures { (s : Images) → CountsImages s session.now → result ≡ steps_in way s }
{
    match way {
        Direction::Undo => session.changes(),
        Direction::Redo => session.undone(),
    }
}

/// Writes the patch of k steps over a session's changes.
fn patch_whole<D: Device, T: TextStore, O: Write>(
    alloc: Global,
    session: Session<D, T>,
    again: D,
    way: Direction,
    k: u32,
    out: &mut O,
) -> (Seen<D, T, ()>, D)
    requires unbroken { IsUnbroken D.Device T.TextStore u64.MAX session }
    requires fresh { D.failures again ≡ 0 }
    ensures writes { (x text redo : List ℕ) (s : Images) → HoldCounted D.Device T.TextStore x text redo s session again
        → OnOk result.0.outcome (WritesSteps way k s (O.contents out.old) (O.contents out.new)) }
    ensures cut { (x text redo : List ℕ) (s : Images) → HoldCounted D.Device T.TextStore x text redo s session again → IfErr result.0.outcome
        (λ u. IsUnseenOr (IsDeviceStop u) (O.contents out.old) (O.contents out.new) (IsStepsCut way k s (O.contents out.old) (O.contents out.new) u)) }
    ensures failed { D.faithful again → is_look_failed result.0.outcome ≡ true
        → 0 < failed_reads D.Device T.TextStore result.0.devices + D.failures result.1 }
{
    let have = steps_of(&session, way);
    let mut devices = closed(session);
    if have < k {
        let outcome = Err(few(way, have));
        return (Seen { devices, outcome }, again);
    }
    match read_steps(alloc, &mut devices, way, have, k) {
        Ok(changes) => {
            let image = &mut devices.image;
            let (again, outcome) = put_patch(alloc, image, again, way, changes, out);
            (Seen { devices, outcome }, again)
        }
        Err(unseen) => {
            let outcome = Err(unseen);
            (Seen { devices, outcome }, again)
        }
    }
}

/// Writes the patch of k steps over the changes that three devices have. `again` reads the image once more.
pub fn patch_on<D: Device, T: TextStore, O: Write>(
    alloc: Global,
    devices: Devices<D, T>,
    again: D,
    way: Direction,
    k: u32,
    out: &mut O,
) -> (Seen<D, T, ()>, D)
    requires countable { AreBelow D.Device T.TextStore u64.MAX devices }
    requires fresh { D.failures again ≡ 0 }
    ensures shows { (x text redo : List ℕ) → HoldBytes D.Device T.TextStore x text redo devices → HoldsImage D.Device x again
        → OnOk result.0.outcome (OfImages x text redo (λ s. WritesSteps way k s (O.contents out.old) (O.contents out.new))) }
    ensures stops { (x text redo : List ℕ) → HoldBytes D.Device T.TextStore x text redo devices → HoldsImage D.Device x again
        → IfErr result.0.outcome (λ u. IsUnseenOr (HidesChanges x text redo u) (O.contents out.old) (O.contents out.new)
        (OfImages x text redo (λ s. IsStepsCut way k s (O.contents out.old) (O.contents out.new) u))) }
    ensures failed { D.faithful again → is_look_failed result.0.outcome ≡ true
        → 0 < failed_reads D.Device T.TextStore result.0.devices + D.failures result.1 }
{
    match open_whole(alloc, devices) {
        Ok(session) => patch_whole(alloc, session, again, way, k, out),
        Err((devices, unseen)) => {
            let outcome = Err(unseen);
            (Seen { devices, outcome }, again)
        }
    }
}
