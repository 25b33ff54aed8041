//! Three files that are open: looked at again, each a file of its own, and their names on the disk.
ghost use Rattle.std.specs.Prelude.{◌≡◌, ◌↔◌, ◌<◌, ◌≤◌, ℕ, Some, false, OnOk, IfErr, IfOk};
ghost use Rattle.bx_world.specs.World.{NothingNewFound};
ghost use Rattle.bx_world.specs.Rule.{image_unfit, text_unfit};
ghost use Rattle.bx_world.specs.files.Files.{AreNamesKept};
ghost use Rattle.bx_world.specs.files.Reasons.{AreFitFiles, IsOneOf, IsReason, IsRefusedFile, NoneUnfit};
ghost use Rattle.bx_world.specs.declared.files.unopened.FileRole.TheVariants.{Image};

use crate::files::names::Names;
use crate::files::unopened::{FileRole, OpenError};
use crate::{Stat, World, image_unfit, text_unfit};

/// Refuses a file that is another one by a second name.
fn is_apart<W: World>(
    world: &mut W,
    which: FileRole,
    file: &W::File,
    other: &W::File,
) -> Result<(), OpenError>
    ensures apart { W.faithful world.old → OnOk result (W.number file.now ≡ W.number other.now → ⊥) }
    ensures why { W.faithful world.old → (least : ℕ) → least ≤ W.refusals world.old
        → IfErr result (IsRefusedFile which ⊥ NoneUnfit (W.number file.now ≡ W.number other.now) (least < W.refusals world.new)) }
    ensures same { W.faithful world.old → W.state world.new ≡ W.state world.old }
    ensures counted { W.faithful world.old → W.refusals world.old ≤ W.refusals world.new }
    ensures survives { W.faithful world.old → NothingNewFound (W.survives world.old) (W.survives world.new) }
    ensures note { W.faithful world.old → W.note world.new ≡ W.note world.old }
    ensures faith { W.faithful world.new ↔ W.faithful world.old }
{
    match world.is_same(file, other) {
        Ok(false) => Ok(()),
        Ok(true) => Err(which.alias()),
        Err(refusal) => Err(which.refused(refusal)),
    }
}

/// What the system tells of an open file.
pub fn stat_of<W: World>(world: &mut W, which: FileRole, file: &W::File) -> Result<Stat, OpenError>
    ensures told { W.faithful world.old → IfOk result (λ s. s ≡ (W.state world.old).stat (W.number file.now)) }
    ensures why { W.faithful world.old → (least : ℕ) → least ≤ W.refusals world.old
        → IfErr result (IsRefusedFile which ⊥ NoneUnfit ⊥ (least < W.refusals world.new)) }
    ensures same { W.faithful world.old → W.state world.new ≡ W.state world.old }
    ensures counted { W.faithful world.old → W.refusals world.old ≤ W.refusals world.new }
    ensures survives { W.faithful world.old → NothingNewFound (W.survives world.old) (W.survives world.new) }
    ensures note { W.faithful world.old → W.note world.new ≡ W.note world.old }
    ensures faith { W.faithful world.new ↔ W.faithful world.old }
{
    match world.stat(file) {
        Ok(stat) => Ok(stat),
        Err(refusal) => Err(which.refused(refusal)),
    }
}

/// Looks again at an image that is open, whose name may have been given to another file by now.
fn look_again<W: World>(world: &mut W, image: &W::File, mounted: bool) -> Result<Stat, OpenError>
    ensures told { W.faithful world.old → IfOk result (λ s. s ≡ (W.state world.old).stat (W.number image.now)) }
    ensures why { W.faithful world.old → (least : ℕ) → least ≤ W.refusals world.old
        → IfErr result (IsRefusedFile Image ⊥
        (λ unfit. image_unfit mounted ((W.state world.old).stat (W.number image.now)) ≡ Some unfit) ⊥ (least < W.refusals world.new)) }
    ensures same { W.faithful world.old → W.state world.new ≡ W.state world.old }
    ensures counted { W.faithful world.old → W.refusals world.old ≤ W.refusals world.new }
    ensures survives { W.faithful world.old → NothingNewFound (W.survives world.old) (W.survives world.new) }
    ensures note { W.faithful world.old → W.note world.new ≡ W.note world.old }
    ensures faith { W.faithful world.new ↔ W.faithful world.old }
{
    let stat = stat_of(world, FileRole::Image, image)?;
    match image_unfit(mounted, &stat) {
        None => Ok(stat),
        Some(unfit) => Err(FileRole::Image.unfit(unfit)),
    }
}

/// Looks again at a text that is open.
fn look_again_at_text<W: World>(
    world: &mut W,
    which: FileRole,
    text: &W::File,
    image: &Stat,
) -> Result<(), OpenError>
    ensures why { W.faithful world.old → (least : ℕ) → least ≤ W.refusals world.old
        → IfErr result (IsRefusedFile which ⊥
        (λ unfit. text_unfit (W.state world.old).caller image.now false ((W.state world.old).stat (W.number text.now)) ≡ Some unfit) ⊥
        (least < W.refusals world.new)) }
    ensures same { W.faithful world.old → W.state world.new ≡ W.state world.old }
    ensures counted { W.faithful world.old → W.refusals world.old ≤ W.refusals world.new }
    ensures survives { W.faithful world.old → NothingNewFound (W.survives world.old) (W.survives world.new) }
    ensures note { W.faithful world.old → W.note world.new ≡ W.note world.old }
    ensures faith { W.faithful world.new ↔ W.faithful world.old }
{
    let stat = stat_of(world, which, text)?;
    let caller = world.caller();
    match text_unfit(caller, image, false, &stat) {
        None => Ok(()),
        Some(unfit) => Err(which.unfit(unfit)),
    }
}

/// Looks again at all three.
fn are_fit<W: World>(
    world: &mut W,
    image: &W::File,
    mounted: bool,
    journal: &W::File,
    redo: &W::File,
) -> Result<(), OpenError>
    ensures why { W.faithful world.old → (least : ℕ) → least ≤ W.refusals world.old
        → AreFitFiles mounted (record { image = W.number image.now; journal = W.number journal.now; redo = W.number redo.now }) (W.state world.old)
        → IfErr result (λ u. IsReason ⊥ NoneUnfit ⊥ (least < W.refusals world.new) u.why) }
    ensures same { W.faithful world.old → W.state world.new ≡ W.state world.old }
    ensures counted { W.faithful world.old → W.refusals world.old ≤ W.refusals world.new }
    ensures survives { W.faithful world.old → NothingNewFound (W.survives world.old) (W.survives world.new) }
    ensures note { W.faithful world.old → W.note world.new ≡ W.note world.old }
    ensures faith { W.faithful world.new ↔ W.faithful world.old }
{
    let stat = look_again(world, image, mounted)?;
    look_again_at_text(world, FileRole::Journal, journal, &stat)?;
    look_again_at_text(world, FileRole::Redo, redo, &stat)?;
    Ok(())
}

/// Refuses three files where two are one.
fn are_apart<W: World>(
    world: &mut W,
    image: &W::File,
    journal: &W::File,
    redo: &W::File,
) -> Result<(), OpenError>
    ensures journal { W.faithful world.old → OnOk result (W.number journal.now ≡ W.number image.now → ⊥) }
    ensures redo_of_image { W.faithful world.old → OnOk result (W.number redo.now ≡ W.number image.now → ⊥) }
    ensures redo_of_journal { W.faithful world.old → OnOk result (W.number redo.now ≡ W.number journal.now → ⊥) }
    ensures why { W.faithful world.old → (least : ℕ) → least ≤ W.refusals world.old
        → IfErr result (λ u. IsReason ⊥ NoneUnfit
        (IsOneOf (record { image = W.number image.now; journal = W.number journal.now; redo = W.number redo.now }) u.which)
        (least < W.refusals world.new) u.why) }
    ensures same { W.faithful world.old → W.state world.new ≡ W.state world.old }
    ensures counted { W.faithful world.old → W.refusals world.old ≤ W.refusals world.new }
    ensures survives { W.faithful world.old → NothingNewFound (W.survives world.old) (W.survives world.new) }
    ensures note { W.faithful world.old → W.note world.new ≡ W.note world.old }
    ensures faith { W.faithful world.new ↔ W.faithful world.old }
{
    // The locks don't tell two names of one file: some file systems have none.
    is_apart(world, FileRole::Journal, journal, image)?;
    is_apart(world, FileRole::Redo, redo, image)?;
    is_apart(world, FileRole::Redo, redo, journal)?;
    Ok(())
}

/// Refuses three open files that are not three, or none that may be opened.
fn are_three<W: World>(
    world: &mut W,
    image: &W::File,
    mounted: bool,
    journal: &W::File,
    redo: &W::File,
) -> Result<(), OpenError>
    ensures journal { W.faithful world.old → OnOk result (W.number journal.now ≡ W.number image.now → ⊥) }
    ensures redo_of_image { W.faithful world.old → OnOk result (W.number redo.now ≡ W.number image.now → ⊥) }
    ensures redo_of_journal { W.faithful world.old → OnOk result (W.number redo.now ≡ W.number journal.now → ⊥) }
    ensures why { W.faithful world.old → (least : ℕ) → least ≤ W.refusals world.old
        → AreFitFiles mounted (record { image = W.number image.now; journal = W.number journal.now; redo = W.number redo.now }) (W.state world.old)
        → IfErr result (λ u. IsReason ⊥ NoneUnfit
        (IsOneOf (record { image = W.number image.now; journal = W.number journal.now; redo = W.number redo.now }) u.which)
        (least < W.refusals world.new) u.why) }
    ensures same { W.faithful world.old → W.state world.new ≡ W.state world.old }
    ensures counted { W.faithful world.old → W.refusals world.old ≤ W.refusals world.new }
    ensures survives { W.faithful world.old → NothingNewFound (W.survives world.old) (W.survives world.new) }
    ensures note { W.faithful world.old → W.note world.new ≡ W.note world.old }
    ensures faith { W.faithful world.new ↔ W.faithful world.old }
{
    // The names were looked at before, and may lead to other files by now: the open files are asked.
    are_fit(world, image, mounted, journal, redo)?;
    are_apart(world, image, journal, redo)
}

/// Puts the names of an image and its texts on the disk, whoever made them: a run that was killed may have, and their names be
/// lost with the power.
fn keep_names<W: World>(world: &mut W, names: &Names) -> Result<(), OpenError>
    ensures kept { W.faithful world.old → OnOk result (AreNamesKept names.now (W.state world.new) (W.is_kept world.new)) }
    ensures why { W.faithful world.old → (least : ℕ) → least ≤ W.refusals world.old
        → IfErr result (λ u. IsReason ⊥ NoneUnfit ⊥ (least < W.refusals world.new) u.why) }
    ensures same { W.faithful world.old → W.state world.new ≡ W.state world.old }
    ensures counted { W.faithful world.old → W.refusals world.old ≤ W.refusals world.new }
    ensures survives { W.faithful world.old → NothingNewFound (W.survives world.old) (W.survives world.new) }
    ensures note { W.faithful world.old → W.note world.new ≡ W.note world.old }
    ensures faith { W.faithful world.new ↔ W.faithful world.old }
{
    if let Err(refusal) = world.keep_name(names.journal.as_str()) {
        return Err(FileRole::Journal.refused(refusal));
    }
    match world.keep_name(names.image.as_str()) {
        Ok(()) => Ok(()),
        Err(refusal) => Err(FileRole::Image.refused(refusal)),
    }
}

/// Refuses three open files that are not three, that may not be opened, or whose names can't be put on the disk.
pub fn are_ready<W: World>(
    world: &mut W,
    names: &Names,
    mounted: bool,
    image: &W::File,
    journal: &W::File,
    redo: &W::File,
) -> Result<(), OpenError>
    ensures journal { W.faithful world.old → OnOk result (W.number journal.now ≡ W.number image.now → ⊥) }
    ensures redo_of_image { W.faithful world.old → OnOk result (W.number redo.now ≡ W.number image.now → ⊥) }
    ensures redo_of_journal { W.faithful world.old → OnOk result (W.number redo.now ≡ W.number journal.now → ⊥) }
    ensures kept { W.faithful world.old → OnOk result (AreNamesKept names.now (W.state world.new) (W.is_kept world.new)) }
    ensures why { W.faithful world.old → (least : ℕ) → least ≤ W.refusals world.old
        → AreFitFiles mounted (record { image = W.number image.now; journal = W.number journal.now; redo = W.number redo.now }) (W.state world.old)
        → IfErr result (λ u. IsReason ⊥ NoneUnfit
        (IsOneOf (record { image = W.number image.now; journal = W.number journal.now; redo = W.number redo.now }) u.which)
        (least < W.refusals world.new) u.why) }
    ensures same { W.faithful world.old → W.state world.new ≡ W.state world.old }
    ensures counted { W.faithful world.old → W.refusals world.old ≤ W.refusals world.new }
    ensures survives { W.faithful world.old → NothingNewFound (W.survives world.old) (W.survives world.new) }
    ensures note { W.faithful world.old → W.note world.new ≡ W.note world.old }
    ensures faith { W.faithful world.new ↔ W.faithful world.old }
{
    are_three(world, image, mounted, journal, redo)?;
    keep_names(world, names)?;
    Ok(())
}
