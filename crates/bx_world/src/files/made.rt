//! The three files of a session, and taking away again those of them that this run made.
ghost use Rattle.std.specs.Prelude.{◌≡◌, ◌↔◌, ◌⊎◌, ◌<◌, ◌≤◌, ℕ, Bool, None, Some, true, false, [], IfErr, IfOk, OnErr, OnOk};
ghost use Rattle.bx_world.specs.World.{AreThreeFiles, IsStuck, NothingNewBelow, NothingNewFound, SystemState, TakesAtMost, TakesAway, number_if};
ghost use Rattle.bx_world.specs.files.Files.{AreAllThere, HasMade, IsMadeFile, IsOneOfMade, IsOneOfMadeTexts, LeavesFiles, LeavesMade, MakesImage, TakesMade, TakesOnly, Unmakes};
ghost use Rattle.bx_world.specs.files.Numbers.{numbers_of};
ghost use Rattle.bx_world.specs.files.Reasons.{MayRefuseOpening, RefusesAsBefore};
ghost use Rattle.bx_world.specs.declared.files.unopened.FileRole.TheVariants.{Image};
ghost use Rattle.bx_world.specs.declared.files.unopened.OpenFailure.TheVariants.{System};

use crate::files::names::Names;
use crate::{Refusal, World};

/// Which of an image, its journal and its redo text this run made.
#[derive(Clone, Copy, Debug)]
pub struct Made {
    /// The image.
    pub image: bool,
    /// Its journal.
    pub journal: bool,
    /// Its redo text.
    pub redo: bool,
}

/// The three files of a session: open, locked, and each a file of its own.
#[derive(Drop)]
pub struct Files<F> {
    /// The image.
    pub image: F,
    /// Its journal.
    pub journal: F,
    /// Its redo text.
    pub redo: F,
    /// Which of them this run made.
    pub made: Made,
}

/// Takes a file away again, if this run made it and it is empty.
fn take_made<W: World>(world: &mut W, name: &str, file: &W::File, made: bool)
    requires made { W.faithful world.old → made ≡ true → (W.state world.old).before ≤ W.number file.now }
    requires named { W.faithful world.old → (W.state world.old).named name.now ≡ Some (W.number file.now) }
    ensures taken { W.faithful world.old → made ≡ true → (W.state world.old).bytes (W.number file.now) ≡ []
        → TakesAway (W.state world.old) (W.state world.new) (W.number file.now) ⊎ IsStuck (W.state world.old) (W.state world.new) }
    ensures most { W.faithful world.old → TakesAtMost (W.state world.old) (W.state world.new) (W.number file.now) }
    ensures stays { W.faithful world.old → made ≡ false → W.state world.new ≡ W.state world.old }
    ensures counted { W.faithful world.old → W.refusals world.new ≡ W.refusals world.old }
    ensures survives { W.faithful world.old → NothingNewFound (W.survives world.old) (W.survives world.new) }
    ensures note { W.faithful world.old → W.note world.new ≡ W.note world.old }
    ensures faith { W.faithful world.new ↔ W.faithful world.old }
{
    if made {
        world.take_away(name, file);
    }
}

/// Takes a file away again, if this run made it and it is empty: what was there before is then as it was.
pub fn unmake<W: World>(world: &mut W, name: &str, file: &W::File, made: bool)
    requires made { W.faithful world.old → made ≡ true → (W.state world.old).before ≤ W.number file.now }
    requires named { W.faithful world.old → (W.state world.old).named name.now ≡ Some (W.number file.now) }
    ensures left { W.faithful world.old → (first : SystemState) → AreAllThere first
        → LeavesMade (IsMadeFile made (W.number file.now)) first (W.state world.old) → LeavesFiles first (W.state world.new) }
    ensures counted { W.faithful world.old → W.refusals world.new ≡ W.refusals world.old }
    ensures survives { W.faithful world.old → NothingNewFound (W.survives world.old) (W.survives world.new) }
    ensures note { W.faithful world.old → W.note world.new ≡ W.note world.old }
    ensures faith { W.faithful world.new ↔ W.faithful world.old }
{
    take_made(world, name, file, made);
}

/// Takes those of the three away again that this run made and that are empty, the latest first: what was there before is then as
/// it was.
pub fn unmake_all<W: World>(world: &mut W, names: &Names, files: &Files<W::File>)
    requires made { W.faithful world.old
        → (n : ℕ) → IsOneOfMade files.now.made (numbers_of W.number files.now) n → (W.state world.old).before ≤ n }
    requires apart { W.faithful world.old → AreThreeFiles (W.state world.old).there (numbers_of W.number files.now) }
    requires image { W.faithful world.old → (W.state world.old).named names.now.image ≡ Some (W.number files.now.image) }
    requires journal { W.faithful world.old → (W.state world.old).named names.now.journal ≡ Some (W.number files.now.journal) }
    requires redo { W.faithful world.old → (W.state world.old).named names.now.redo ≡ Some (W.number files.now.redo) }
    ensures left { W.faithful world.old → (first : SystemState) → AreAllThere first
        → HasMade (IsOneOfMade files.now.made (numbers_of W.number files.now)) first (W.state world.old) → LeavesFiles first (W.state world.new) }
    ensures most { W.faithful world.old
        → TakesOnly (IsOneOfMade files.now.made (numbers_of W.number files.now)) (W.state world.old) (W.state world.new) }
    ensures stays { W.faithful world.old → files.now.made ≡ record { image = false; journal = false; redo = false }
        → W.state world.new ≡ W.state world.old }
    ensures counted { W.faithful world.old → W.refusals world.new ≡ W.refusals world.old }
    ensures survives { W.faithful world.old → NothingNewFound (W.survives world.old) (W.survives world.new) }
    ensures note { W.faithful world.old → W.note world.new ≡ W.note world.old }
    ensures faith { W.faithful world.new ↔ W.faithful world.old }
{
    take_made(world, names.redo.as_str(), &files.redo, files.made.redo);
    take_made(
        world,
        names.journal.as_str(),
        &files.journal,
        files.made.journal,
    );
    take_made(world, names.image.as_str(), &files.image, files.made.image);
}

/// Takes those of the texts away again that this run made and that are empty, the latest first; an image that it made stays.
pub fn unmake_texts<W: World>(world: &mut W, names: &Names, files: &Files<W::File>)
    requires made { W.faithful world.old
        → (n : ℕ) → IsOneOfMadeTexts files.now.made (numbers_of W.number files.now) n → (W.state world.old).before ≤ n }
    requires apart { W.faithful world.old → AreThreeFiles (W.state world.old).there (numbers_of W.number files.now) }
    requires journal { W.faithful world.old → (W.state world.old).named names.now.journal ≡ Some (W.number files.now.journal) }
    requires redo { W.faithful world.old → (W.state world.old).named names.now.redo ≡ Some (W.number files.now.redo) }
    ensures takes { W.faithful world.old
        → TakesMade (IsOneOfMadeTexts files.now.made (numbers_of W.number files.now)) (W.state world.old) (W.state world.new) }
    ensures counted { W.faithful world.old → W.refusals world.new ≡ W.refusals world.old }
    ensures survives { W.faithful world.old → NothingNewFound (W.survives world.old) (W.survives world.new) }
    ensures note { W.faithful world.old → W.note world.new ≡ W.note world.old }
    ensures faith { W.faithful world.new ↔ W.faithful world.old }
{
    take_made(world, names.redo.as_str(), &files.redo, files.made.redo);
    take_made(
        world,
        names.journal.as_str(),
        &files.journal,
        files.made.journal,
    );
}

/// Makes an image that is missing, and opens it; none is made where one is there. It isn't locked, so that it can be opened by its name.
///
/// # Errors
/// Where the system doesn't tell what stands there, or the image can't be made.
pub fn make_missing_image<W: World>(
    world: &mut W,
    names: &Names,
) -> Result<Option<W::File>, Refusal>
    ensures made { W.faithful world.old
        → IfOk result (λ made. MakesImage names.now.image (number_if W.number made) (W.state world.old) (W.state world.new)) }
    ensures reasons { W.faithful world.old → OnOk result (RefusesAsBefore names.now (W.state world.old) (W.state world.new)) }
    ensures there { W.faithful world.old → IfOk result (λ made. number_if W.number made ≡ None → (W.state world.old).named names.now.image ≡ None → ⊥) }
    ensures err { W.faithful world.old → OnErr result (W.state world.new ≡ W.state world.old) }
    ensures why { W.faithful world.old → IfErr result (λ refusal. (mounted : Bool) → MayRefuseOpening names.now mounted true
        (W.refusals world.old < W.refusals world.new) (W.state world.old) (record { which = Image; why = System refusal })) }
    ensures counted { W.faithful world.old → W.refusals world.old ≤ W.refusals world.new }
    ensures survives { W.faithful world.old → NothingNewBelow (W.state world.old).there (W.survives world.old) (W.survives world.new) }
    ensures note { W.faithful world.old → W.note world.new ≡ W.note world.old }
    ensures faith { W.faithful world.new ↔ W.faithful world.old }
{
    let name = names.image.as_str();
    match world.look(name) {
        Ok(look) if look.found.is_none() => match world.make_image(name) {
            Ok(image) => Ok(Some(image)),
            Err(refusal) => Err(refusal),
        },
        Ok(_) => Ok(None),
        Err(refusal) => Err(refusal),
    }
}

/// Takes an image away again that was missing and that this run made, if it is empty: what was there before is then as it was, where
/// nothing else happened since.
pub fn unmake_missing_image<W: World>(world: &mut W, names: &Names, image: &W::File)
    requires made { W.faithful world.old → (W.state world.old).before ≤ W.number image.now }
    requires named { W.faithful world.old → (W.state world.old).named names.now.image ≡ Some (W.number image.now) }
    ensures unmakes { W.faithful world.old → Unmakes (W.number image.now) (W.state world.old) (W.state world.new) }
    ensures left { W.faithful world.old → (first begun : SystemState) → AreAllThere first
        → MakesImage names.now.image (Some (W.number image.now)) first begun → LeavesFiles begun (W.state world.old)
        → LeavesFiles first (W.state world.new) }
    ensures counted { W.faithful world.old → W.refusals world.new ≡ W.refusals world.old }
    ensures survives { W.faithful world.old → NothingNewFound (W.survives world.old) (W.survives world.new) }
    ensures note { W.faithful world.old → W.note world.new ≡ W.note world.old }
    ensures faith { W.faithful world.new ↔ W.faithful world.old }
{
    take_made(world, names.image.as_str(), image, true);
}
