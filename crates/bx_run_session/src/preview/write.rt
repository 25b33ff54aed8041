//! The patch that a change of a named image would be. The image is only read.
ghost use Rattle.std.specs.Prelude.{◌≡◌, ◌↔◌, ◌+◌, ◌<◌, ◌∷◌, [], IfErr, IfOk, MatchResult, None, OnOk, Some, false, true};
ghost use Rattle.bx_image.specs.declared.change.Change.{Change as ChangeOf};
ghost use Rattle.bx_patch.specs.Diff.{fails};
ghost use Rattle.bx_world.specs.World.{MayBeRead, held, stat_named};
ghost use Rattle.bx_world.specs.files.Reading.{StaysSeen};
ghost use Rattle.bx_world.specs.files.Reasons.{IsReason, NoneUnfit};
ghost use Rattle.bx_run_session.specs.Edit.{asked};
ghost use Rattle.bx_run_model.specs.Failures.{is_read_failure};
ghost use Rattle.bx_run_session.specs.preview.Previews.{StopsChange, StopsPreview, WritesChange, WritesPreview, is_block, is_preview_failed};
ghost use Rattle.bx_run_session.specs.preview.Proposed.{IsCompared, unchanged_for};

use crate::edit::Edit;
use crate::preview::error::PreviewError;
use crate::preview::made::make_fitting;
use crate::preview::named::{close_both, look_if_there};
use bx_dd::Counts;
use bx_image::{Change, Device, ImageFault, MemImage};
use bx_patch::{ChangedImage, DiffFault, Extent, PieceIndex, write_patch};
use bx_world::{Kind, OpenFailure, Stat, World, lend_alone};
use std::alloc::{Allocator, Global};
use std::io::{Read, Write};

/// An image that two devices read.
#[derive(Drop)]
struct Pair<D> {
    /// The one device.
    image: D,
    /// The other one, which is read behind the change.
    again: D,
}

/// The change alone.
fn alone(alloc: Global, change: Change) -> Result<Vec<Change>, DiffFault>
    ensures { MatchResult result (λ changes. changes.items ≡ change ∷ []) (λ e. e ≡ DiffFault.NoMemory) }
{
    let mut changes = Vec::new(alloc);
    match changes.push(change) {
        Ok(()) => Ok(changes),
        Err(_) => Err(DiffFault::NoMemory),
    }
}

/// What stops the comparison where there is no image behind the change.
fn unchanged_for(fault: ImageFault) -> DiffFault
    ensures { result ≡ unchanged_for fault }
{
    match fault {
        ImageFault::NoMemory => DiffFault::NoMemory,
        ImageFault::TooLarge => DiffFault::TooLarge,
        ImageFault::DeviceFailed => DiffFault::NewFailed,
    }
}

/// Writes the patch from an image to what a list of one change makes of it. The second device has the same image, and is given back.
fn write_behind<D: Device, O: Write, A: Allocator>(
    alloc: Global,
    image: &mut D,
    again: D,
    changes: &[Change<A>],
    out: &mut O,
) -> (D, Result<(), DiffFault>)
    requires countable { D.failures image.old ≡ 0 }
    requires none { D.failures again ≡ 0 }
    ensures compared { (change : ChangeOf A) → changes.now ≡ change ∷ [] → D.faithful image.old → D.faithful again
        → D.image again ≡ D.image image.old → IsCompared change (D.image image.old) result.1 (O.contents out.old) (O.contents out.new) }
    ensures failed { D.faithful again → fails is_read_failure result.1 ≡ true → 0 < D.failures image.new + D.failures result.0 }
{
    // In a window it finds the pieces of a dump by the index, in whatever order their lines stand.
    let index = PieceIndex::of(alloc, changes);
    let mut changed = match ChangedImage::new(again, changes) {
        Ok(changed) => changed.searched(&index),
        Err((again, fault)) => return (again, Err(unchanged_for(fault))),
    };
    let untouched = changed.untouched();
    let outcome = write_patch(&alloc, image, &mut changed, out, Extent::Bytes, &untouched);
    (changed.into_device(), outcome)
}

/// Writes the patch from an image to what a change makes of it. The second device has the same image, and is given back.
fn write_changed<D: Device, O: Write>(
    alloc: Global,
    image: &mut D,
    again: D,
    change: Change,
    out: &mut O,
) -> (D, Result<(), DiffFault>)
    requires countable { D.failures image.old ≡ 0 }
    requires none { D.failures again ≡ 0 }
    ensures compared { D.faithful image.old → D.faithful again → D.image again ≡ D.image image.old
        → IsCompared change (D.image image.old) result.1 (O.contents out.old) (O.contents out.new) }
    ensures failed { D.faithful again → fails is_read_failure result.1 ≡ true → 0 < D.failures image.new + D.failures result.0 }
{
    match alone(alloc, change) {
        Ok(changes) => write_behind(alloc, image, again, changes.as_slice(), out),
        Err(fault) => (again, Err(fault)),
    }
}

/// Writes the patch that what is proposed of an image would be. Nothing is read of the input before both devices are there.
fn preview_pair<D: Device + Drop, R: Read + Drop, O: Write>(
    alloc: Global,
    pair: Pair<D>,
    keeps: bool,
    edit: Edit<R>,
    out: &mut O,
) -> (Pair<D>, Result<Option<Counts>, PreviewError>)
    requires image { D.failures pair.image ≡ 0 }
    requires again { D.failures pair.again ≡ 0 }
    ensures previews { D.faithful pair.image → D.faithful pair.again → D.image pair.again ≡ D.image pair.image → MatchResult result.1
        (λ counts. WritesChange R.remaining (asked edit) keeps (D.image pair.image) counts (O.contents out.old) (O.contents out.new))
        (StopsChange R.remaining (asked edit) keeps (D.image pair.image) (O.contents out.old) (O.contents out.new)) }
    ensures failed { D.faithful pair.image → D.faithful pair.again → is_preview_failed result.1 ≡ true
        → 0 < D.failures result.0.image + D.failures result.0.again }
{
    let Pair { mut image, again } = pair;
    let made = match make_fitting(alloc, &mut image, keeps, edit) {
        Ok(made) => made,
        Err(why) => return (Pair { image, again }, Err(why)),
    };
    let (again, outcome) = write_changed(alloc, &mut image, again, made.change, out);
    match outcome {
        Ok(()) => (Pair { image, again }, Ok(made.counts)),
        Err(fault) => (Pair { image, again }, Err(PreviewError::Stopped(fault))),
    }
}

/// Opens a file that was looked at twice to read it, locks it beside others that read it, and lends both.
fn lend_pair<W: World>(world: &mut W, name: &str) -> Result<Pair<W::Image>, OpenFailure>
    requires may { W.faithful world.old → MayBeRead (W.state world.old) name.now }
    ensures image { IfOk result (λ pair. W.Image.failures pair.image ≡ 0) }
    ensures again { IfOk result (λ pair. W.Image.failures pair.again ≡ 0) }
    ensures faithful { W.faithful world.old → IfOk result (λ pair. W.Image.faithful pair.image × W.Image.faithful pair.again) }
    ensures bytes { W.faithful world.old → IfOk result (λ pair. (W.Image.image pair.image ≡ held (W.state world.old) name.now)
        × (W.Image.image pair.again ≡ held (W.state world.old) name.now)) }
    ensures why { W.faithful world.old → IfErr result (IsReason ((W.state world.old).named name.now ≡ None) NoneUnfit ⊥
        (W.refusals world.old < W.refusals world.new)) }
    ensures calm { W.faithful world.old → OnOk result (W.refusals world.new ≡ W.refusals world.old) }
    ensures seen { W.faithful world.old → StaysSeen W.state W.survives world.old world.new }
    ensures faith { W.faithful world.new ↔ W.faithful world.old }
{
    let image = match lend_alone(world, name) {
        Ok(image) => image,
        Err(why) => return Err(why),
    };
    match lend_alone(world, name) {
        Ok(again) => Ok(Pair { image, again }),
        Err(why) => Err(why),
    }
}

/// How the comparison ended, where there was one.
fn comparison_of(outcome: &Result<Option<Counts>, PreviewError>) -> Result<(), DiffFault> {
    match outcome {
        Err(PreviewError::Stopped(fault)) => Err(*fault),
        Ok(_)
        | Err(
            PreviewError::Unopened(_) | PreviewError::Refused(_) | PreviewError::Unfitting { .. },
        ) => Ok(()),
    }
}

/// Takes both devices back, last the one that failed, and counts their failed calls.
fn close_pair<W: World>(
    world: &mut W,
    pair: Pair<W::Image>,
    outcome: &Result<Option<Counts>, PreviewError>,
)
    ensures counted { W.faithful world.old
        → W.refusals world.new ≡ W.refusals world.old + (W.Image.failures pair.image + W.Image.failures pair.again) }
    ensures seen { W.faithful world.old → StaysSeen W.state W.survives world.old world.new }
    ensures faith { W.faithful world.new ↔ W.faithful world.old }
{
    close_both(world, pair.image, pair.again, &comparison_of(outcome));
}

/// Whether a file keeps its length: a block device.
fn is_block(found: &Stat) -> bool
    ensures { result ≡ is_block found.now.kind }
{
    match found.kind {
        Kind::Block => true,
        Kind::Regular | Kind::Other => false,
    }
}

/// Writes the patch that what is proposed of an image that is there would be.
fn preview_there<W: World, R: Read + Drop, O: Write>(
    world: &mut W,
    alloc: Global,
    name: &str,
    found: &Stat,
    edit: Edit<R>,
    out: &mut O,
) -> Result<Option<Counts>, PreviewError>
    requires may { W.faithful world.old → MayBeRead (W.state world.old) name.now }
    requires found { W.faithful world.old → stat_named (W.state world.old) name.now ≡ Some found.now }
    ensures previews { W.faithful world.old → MatchResult result
        (λ counts. WritesPreview R.remaining name.now (asked edit) (W.state world.old) counts (O.contents out.old) (O.contents out.new))
        (StopsPreview R.remaining name.now (asked edit) (W.refusals world.old < W.refusals world.new) (W.state world.old)
        (O.contents out.old) (O.contents out.new)) }
    ensures failed { W.faithful world.old → is_preview_failed result ≡ true → W.refusals world.old < W.refusals world.new }
    ensures seen { W.faithful world.old → StaysSeen W.state W.survives world.old world.new }
    ensures faith { W.faithful world.new ↔ W.faithful world.old }
{
    let pair = match lend_pair(world, name) {
        Ok(pair) => pair,
        Err(why) => return Err(PreviewError::Unopened(why)),
    };
    let (pair, outcome) = preview_pair(alloc, pair, is_block(found), edit, out);
    close_pair(world, pair, &outcome);
    outcome
}

/// Writes the patch that what is proposed of an image that is missing would be.
fn preview_missing<R: Read + Drop, O: Write>(
    alloc: Global,
    edit: Edit<R>,
    out: &mut O,
) -> Result<Option<Counts>, PreviewError>
    ensures previews { MatchResult result
        (λ counts. WritesChange R.remaining (asked edit) false [] counts (O.contents out.old) (O.contents out.new))
        (StopsChange R.remaining (asked edit) false [] (O.contents out.old) (O.contents out.new)) }
    ensures calm { is_preview_failed result ≡ false }
{
    let pair = Pair {
        image: MemImage::new(alloc),
        again: MemImage::new(alloc),
    };
    preview_pair(alloc, pair, false, edit, out).1
}

/// Writes the patch that what is proposed of a named image would be: from what the image has to what the change would make of it. One that
/// is missing is an empty one. The image is opened before anything of an input is read, and only read.
pub fn write_preview<W: World, R: Read + Drop, O: Write>(
    world: &mut W,
    alloc: Global,
    name: &str,
    edit: Edit<R>,
    out: &mut O,
) -> Result<Option<Counts>, PreviewError>
    ensures previews { W.faithful world.old → MatchResult result
        (λ counts. WritesPreview R.remaining name.now (asked edit) (W.state world.old) counts (O.contents out.old) (O.contents out.new))
        (StopsPreview R.remaining name.now (asked edit) (W.refusals world.old < W.refusals world.new) (W.state world.old)
        (O.contents out.old) (O.contents out.new)) }
    ensures failed { W.faithful world.old → is_preview_failed result ≡ true → W.refusals world.old < W.refusals world.new }
    ensures seen { W.faithful world.old → StaysSeen W.state W.survives world.old world.new }
    ensures faith { W.faithful world.new ↔ W.faithful world.old }
{
    match look_if_there(world, name) {
        Ok(Some(found)) => preview_there(world, alloc, name, &found, edit, out),
        Ok(None) => preview_missing(alloc, edit, out),
        Err(why) => Err(PreviewError::Unopened(why)),
    }
}
