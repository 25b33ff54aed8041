//! The patch between an image and what changes would make of it.
ghost use Rattle.std.specs.Prelude.{◌≡◌, ◌+◌, ◌<◌, Bool, IfErr, OnOk, false, true};
ghost use Rattle.std.specs.Io.KnownBytes.{Appends};
ghost use Rattle.bx_patch.specs.Diff.{OnlyReads, WritesPrefix, fails};
ghost use Rattle.bx_patch.specs.preview.Changed.{effects};
ghost use Rattle.bx_run_report.specs.report.Looks.{is_look_failed};
ghost use Rattle.bx_run_report.specs.report.Stepped.{IsPatchCut, patch_between, stopped_by as unseen_by, unchanged_by};
ghost use Rattle.bx_run_model.specs.Failures.{of_behind, of_there};

use crate::report::error::ReportError;
use bx_cli_commands::Fault;
use bx_image::{Change, Device, ImageFault};
use bx_journal::{Direction, SessionFault};
use bx_patch::{Alike, ChangedImage, DiffFault, Extent, write_patch};
use bx_text::IoFault;
use std::alloc::Global;
use std::io::Write;

/// What is said where a patch isn't written whole.
fn stopped_by(fault: DiffFault) -> ReportError
    ensures { result ≡ unseen_by fault }
{
    match fault {
        DiffFault::NoMemory => ReportError::Stopped(Fault::Io(IoFault::NoMemory)),
        DiffFault::TooLarge => ReportError::Stopped(Fault::Session(SessionFault::TooLarge)),
        DiffFault::OldFailed | DiffFault::NewFailed => {
            ReportError::Stopped(Fault::Session(SessionFault::DeviceFailed))
        }
        DiffFault::WriteFailed { written } => {
            ReportError::Stopped(Fault::Io(IoFault::WriteFailed { written }))
        }
    }
}

/// What stops the patch where there is no image behind changes.
fn unchanged_by(fault: ImageFault) -> DiffFault
    ensures { result ≡ unchanged_by fault }
{
    match fault {
        ImageFault::NoMemory => DiffFault::NoMemory,
        ImageFault::TooLarge => DiffFault::TooLarge,
        ImageFault::DeviceFailed => DiffFault::OldFailed,
    }
}

/// Writes the patch between an image and the one behind steps.
fn compare<D: Device, E: Device, O: Write, S: Alike>(
    alloc: Global,
    image: &mut D,
    behind: &mut E,
    way: Direction,
    out: &mut O,
    alike: &S,
) -> Result<(), DiffFault>
    requires countable { D.failures image.old < u64.MAX }
    requires also_countable { E.failures behind.old < u64.MAX }
    ensures text { D.faithful image.old → E.faithful behind.old
        → S.AreAlike alike.now (D.image image.old) (E.image behind.old) → S.AreAlike alike.now (E.image behind.old) (D.image image.old)
        → OnOk result (Appends (O.contents out.old) (O.contents out.new) (patch_between way (D.image image.old) (E.image behind.old))) }
    ensures part { D.faithful image.old → E.faithful behind.old
        → S.AreAlike alike.now (D.image image.old) (E.image behind.old) → S.AreAlike alike.now (E.image behind.old) (D.image image.old)
        → IfErr result (WritesPrefix (O.contents out.old) (O.contents out.new) (patch_between way (D.image image.old) (E.image behind.old))) }
    ensures there { OnlyReads D.faithful D.image D.room D.failures D.survives (fails (of_there way) result) image.old image.new }
    ensures behind { OnlyReads E.faithful E.image E.room E.failures E.survives (fails (of_behind way) result) behind.old behind.new }
{
    match way {
        Direction::Undo => write_patch(&alloc, behind, image, out, Extent::Bytes, alike),
        Direction::Redo => write_patch(&alloc, image, behind, out, Extent::Bytes, alike),
    }
}

/// The same, and it is said what stopped it.
fn put_between<D: Device, E: Device, O: Write, S: Alike>(
    alloc: Global,
    image: &mut D,
    behind: &mut E,
    way: Direction,
    out: &mut O,
    alike: &S,
) -> Result<(), ReportError>
    requires countable { D.failures image.old < u64.MAX }
    requires also_countable { E.failures behind.old < u64.MAX }
    ensures text { D.faithful image.old → E.faithful behind.old
        → S.AreAlike alike.now (D.image image.old) (E.image behind.old) → S.AreAlike alike.now (E.image behind.old) (D.image image.old)
        → OnOk result (Appends (O.contents out.old) (O.contents out.new) (patch_between way (D.image image.old) (E.image behind.old))) }
    ensures part { D.faithful image.old → E.faithful behind.old
        → S.AreAlike alike.now (D.image image.old) (E.image behind.old) → S.AreAlike alike.now (E.image behind.old) (D.image image.old)
        → IfErr result (IsPatchCut (patch_between way (D.image image.old) (E.image behind.old)) (O.contents out.old) (O.contents out.new)) }
    ensures failed { (failed : Bool) × OnlyReads E.faithful E.image E.room E.failures E.survives failed behind.old behind.new
        × (is_look_failed result ≡ true → failed ≡ false → 0 < D.failures image.new) }
{
    match compare(alloc, image, behind, way, out, alike) {
        Ok(()) => Ok(()),
        Err(fault) => Err(stopped_by(fault)),
    }
}

/// The patch of `put_patch`, of changes that are borrowed.
fn put_behind<D: Device, O: Write>(
    alloc: Global,
    image: &mut D,
    again: D,
    way: Direction,
    changes: &[Change],
    out: &mut O,
) -> (D, Result<(), ReportError>)
    requires countable { D.failures image.old < u64.MAX }
    requires fresh { D.failures again ≡ 0 }
    ensures text { D.faithful image.old → D.faithful again → D.image again ≡ D.image image.old
        → OnOk result.1 (Appends (O.contents out.old) (O.contents out.new)
        (patch_between way (D.image image.old) (effects changes.now (D.image again)))) }
    ensures part { D.faithful image.old → D.faithful again → D.image again ≡ D.image image.old → IfErr result.1
        (IsPatchCut (patch_between way (D.image image.old) (effects changes.now (D.image again))) (O.contents out.old) (O.contents out.new)) }
    ensures failed { D.faithful again → is_look_failed result.1 ≡ true → 0 < D.failures image.new + D.failures result.0 }
{
    match ChangedImage::new(again, changes) {
        Ok(changed) => {
            let mut behind = changed;
            let untouched = behind.untouched();
            let outcome = put_between(alloc, image, &mut behind, way, out, &untouched);
            (behind.into_device(), outcome)
        }
        Err((again, fault)) => (again, Err(stopped_by(unchanged_by(fault)))),
    }
}

/// Writes the patch between an image and what changes would make of it. `again` reads that image too, and is given back.
pub fn put_patch<D: Device, O: Write>(
    alloc: Global,
    image: &mut D,
    again: D,
    way: Direction,
    changes: Vec<Change>,
    out: &mut O,
) -> (D, Result<(), ReportError>)
    requires countable { D.failures image.old < u64.MAX }
    requires fresh { D.failures again ≡ 0 }
    ensures text { D.faithful image.old → D.faithful again → D.image again ≡ D.image image.old
        → OnOk result.1 (Appends (O.contents out.old) (O.contents out.new)
        (patch_between way (D.image image.old) (effects changes.items (D.image again)))) }
    ensures part { D.faithful image.old → D.faithful again → D.image again ≡ D.image image.old → IfErr result.1
        (IsPatchCut (patch_between way (D.image image.old) (effects changes.items (D.image again))) (O.contents out.old) (O.contents out.new)) }
    ensures failed { D.faithful again → is_look_failed result.1 ≡ true → 0 < D.failures image.new + D.failures result.0 }
{
    put_behind(alloc, image, again, way, changes.as_slice(), out)
}
