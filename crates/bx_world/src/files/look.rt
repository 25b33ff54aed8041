//! What stands under the three names, asked before a file is opened.
ghost use Rattle.std.specs.Prelude.{◌≡◌, ◌↔◌, ◌<◌, ◌≤◌, ℕ, Some, None, false, IfErr, IfOk, OnOk};
ghost use Rattle.bx_world.specs.World.{NothingNewFound};
ghost use Rattle.bx_world.specs.files.Fit.{AreFit, AreFitBeside, IsFitImage, look_unfit, unfit_beside};
ghost use Rattle.bx_world.specs.files.Reasons.{IsRefusedFile, IsUnfitBeside, IsUnfitImage, IsUnfitOrRefused, IsUnmade, MayRefuseOpening};
ghost use Rattle.bx_world.specs.declared.files.unopened.FileRole.TheVariants.{Image};

use crate::files::names::Names;
use crate::files::unopened::{FileRole, OpenError};
use crate::{Look, Refusal, Stat, Unfit, World, image_unfit, text_unfit};

/// What the system tells of the image, which may be one that is changed; none of one that is missing and is to be made.
fn look_at_image<W: World>(
    world: &mut W,
    name: &str,
    mounted: bool,
    makes: bool,
) -> Result<Option<Stat>, OpenError>
    ensures fit { W.faithful world.old → IfOk result (λ image. IsFitImage name.now mounted makes image (W.state world.old)) }
    ensures why { W.faithful world.old → (least : ℕ) → least ≤ W.refusals world.old
        → IfErr result (IsRefusedFile Image (IsUnmade makes (W.state world.old) name.now)
        (IsUnfitImage mounted (W.state world.old) name.now) ⊥ (least < W.refusals world.new)) }
    ensures same { W.faithful world.old → W.state world.new ≡ W.state world.old }
    ensures counted { W.faithful world.old → W.refusals world.old ≤ W.refusals world.new }
    ensures survives { W.faithful world.old → NothingNewFound (W.survives world.old) (W.survives world.new) }
    ensures note { W.faithful world.old → W.note world.new ≡ W.note world.old }
    ensures faith { W.faithful world.new ↔ W.faithful world.old }
{
    let look = match world.look(name) {
        Ok(look) => look,
        Err(refusal) => return Err(FileRole::Image.refused(refusal)),
    };
    let Some(image) = look.found else {
        if makes {
            return Ok(None);
        }
        return Err(FileRole::Image.refused(Refusal::Missing));
    };
    match image_unfit(mounted, &image) {
        None => Ok(Some(image)),
        Some(unfit) => Err(FileRole::Image.unfit(unfit)),
    }
}

/// Why what stands under a name can't be a text of this image; none where it can, or where nothing stands there. A text of an
/// image that is missing is judged as its own image's.
fn unfit_of(caller: u32, image: Option<Stat>, look: Look) -> Option<Unfit>
    ensures { result ≡ look_unfit caller image look }
{
    match look.found {
        Some(text) => text_unfit(caller, &image.unwrap_or(text), look.is_link, &text),
        None if look.is_link => Some(Unfit::Link),
        None => None,
    }
}

/// Looks at a text of this image, and answers whether it is there.
fn look_at_text<W: World>(
    world: &mut W,
    name: &str,
    which: FileRole,
    image: Option<Stat>,
) -> Result<bool, OpenError>
    ensures fit { W.faithful world.old → OnOk result (unfit_beside image (W.state world.old) name.now ≡ None) }
    ensures missing { W.faithful world.old → IfOk result (λ is_there. is_there ≡ false → (W.state world.old).named name.now ≡ None) }
    ensures why { W.faithful world.old → (least : ℕ) → least ≤ W.refusals world.old
        → IfErr result (IsRefusedFile which ⊥ (IsUnfitBeside image (W.state world.old) name.now) ⊥
        (least < W.refusals world.new)) }
    ensures same { W.faithful world.old → W.state world.new ≡ W.state world.old }
    ensures counted { W.faithful world.old → W.refusals world.old ≤ W.refusals world.new }
    ensures survives { W.faithful world.old → NothingNewFound (W.survives world.old) (W.survives world.new) }
    ensures note { W.faithful world.old → W.note world.new ≡ W.note world.old }
    ensures faith { W.faithful world.new ↔ W.faithful world.old }
{
    let look = match world.look(name) {
        Ok(look) => look,
        Err(refusal) => return Err(which.refused(refusal)),
    };
    let caller = world.caller();
    match unfit_of(caller, image, look) {
        None => Ok(look.found.is_some()),
        Some(unfit) => Err(which.unfit(unfit)),
    }
}

/// Looks at the texts beside an image that is there, or was made by now.
pub fn look_beside<W: World>(world: &mut W, names: &Names, image: Stat) -> Result<(), OpenError>
    ensures fit { W.faithful world.old → OnOk result (AreFitBeside names.now image (W.state world.old)) }
    ensures why { W.faithful world.old → (least : ℕ) → least ≤ W.refusals world.old
        → IfErr result (λ u. IsUnfitOrRefused names.now image (least < W.refusals world.new)
        (W.state world.old) u) }
    ensures same { W.faithful world.old → W.state world.new ≡ W.state world.old }
    ensures counted { W.faithful world.old → W.refusals world.old ≤ W.refusals world.new }
    ensures survives { W.faithful world.old → NothingNewFound (W.survives world.old) (W.survives world.new) }
    ensures note { W.faithful world.old → W.note world.new ≡ W.note world.old }
    ensures faith { W.faithful world.new ↔ W.faithful world.old }
{
    look_at_text(
        world,
        names.journal.as_str(),
        FileRole::Journal,
        Some(image),
    )?;
    match look_at_text(world, names.redo.as_str(), FileRole::Redo, Some(image)) {
        Ok(_) => Ok(()),
        Err(unopened) => Err(unopened),
    }
}

/// Looks at all three before one is opened. The redo text may be missing, and all three where they are to be made.
pub fn look_at_all<W: World>(
    world: &mut W,
    names: &Names,
    mounted: bool,
    makes: bool,
) -> Result<(), OpenError>
    ensures fit { W.faithful world.old → OnOk result (AreFit names.now mounted (W.state world.old)) }
    ensures why { W.faithful world.old → (least : ℕ) → least ≤ W.refusals world.old
        → IfErr result (MayRefuseOpening names.now mounted makes (least < W.refusals world.new)
        (W.state world.old)) }
    ensures same { W.faithful world.old → W.state world.new ≡ W.state world.old }
    ensures counted { W.faithful world.old → W.refusals world.old ≤ W.refusals world.new }
    ensures survives { W.faithful world.old → NothingNewFound (W.survives world.old) (W.survives world.new) }
    ensures note { W.faithful world.old → W.note world.new ≡ W.note world.old }
    ensures faith { W.faithful world.new ↔ W.faithful world.old }
{
    let image = look_at_image(world, names.image.as_str(), mounted, makes)?;
    let is_there = look_at_text(world, names.journal.as_str(), FileRole::Journal, image)?;
    if !is_there {
        if !makes {
            return Err(FileRole::Journal.refused(Refusal::Missing));
        }
    }
    match look_at_text(world, names.redo.as_str(), FileRole::Redo, image) {
        Ok(_) => Ok(()),
        Err(unopened) => Err(unopened),
    }
}
