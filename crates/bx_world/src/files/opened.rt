//! One file that is opened, or made and opened.
ghost use Rattle.std.specs.Prelude.{◌≡◌, ◌↔◌, ◌<◌, ◌≤◌, ℕ, true, false, Some, None, IfErr, IfOk, OnErr, OnOk};
ghost use Rattle.bx_world.specs.World.{IsAlwaysFit, MayBeImage, MayBeText, NothingNewBelow, NothingNewFound, SystemState};
ghost use Rattle.bx_world.specs.declared.world.Refusal.TheVariants.{Missing};
ghost use Rattle.bx_world.specs.files.Files.{AreAllThere, HasMade, IsFileOpened, IsImageOpened, IsMadeFile, IsOwn, IsTextOpened, IsThere, LeavesFiles};
ghost use Rattle.bx_world.specs.files.Reasons.{IsRefusedFile, IsRefusedFor, IsUnmade, NoneUnfit};
ghost use Rattle.bx_world.specs.declared.files.unopened.FileRole.TheVariants.{Image};

use crate::files::made::unmake;
use crate::files::unopened::{FileRole, OpenError};
use crate::{Refusal, World};

/// A file that is open and locked.
#[derive(Drop)]
pub struct Opened<F> {
    /// The file.
    pub file: F,
    /// Whether this run made it.
    pub made: bool,
}

/// Opens an image that is there, and locks it.
fn open_image_there<W: World>(world: &mut W, name: &str, mounted: bool) -> Result<W::File, Refusal>
    requires may { W.faithful world.old → MayBeImage mounted (W.state world.old) name.now }
    ensures there { W.faithful world.old → IfOk result (λ f. IsThere name.now (W.number f) (W.state world.old)) }
    ensures locked { W.faithful world.old → IfOk result (λ f. W.is_locked f) }
    ensures why { W.faithful world.old → (least : ℕ) → least ≤ W.refusals world.old
        → IfErr result (IsRefusedFor ((W.state world.old).named name.now ≡ None) (least < W.refusals world.new)) }
    ensures same { W.faithful world.old → W.state world.new ≡ W.state world.old }
    ensures counted { W.faithful world.old → W.refusals world.old ≤ W.refusals world.new }
    ensures survives { W.faithful world.old → NothingNewFound (W.survives world.old) (W.survives world.new) }
    ensures note { W.faithful world.old → W.note world.new ≡ W.note world.old }
    ensures faith { W.faithful world.new ↔ W.faithful world.old }
{
    let mut file = world.open_image(name, mounted)?;
    world.lock(name, &mut file)?;
    Ok(file)
}

/// Opens a text that is there, and locks it.
fn open_text_there<W: World>(world: &mut W, name: &str, image: &W::File) -> Result<W::File, Refusal>
    requires may { W.faithful world.old → MayBeText (W.number image.now) (W.state world.old) name.now }
    ensures there { W.faithful world.old → IfOk result (λ f. IsThere name.now (W.number f) (W.state world.old)) }
    ensures locked { W.faithful world.old → IfOk result (λ f. W.is_locked f) }
    ensures why { W.faithful world.old → (least : ℕ) → least ≤ W.refusals world.old
        → IfErr result (IsRefusedFor ((W.state world.old).named name.now ≡ None) (least < W.refusals world.new)) }
    ensures same { W.faithful world.old → W.state world.new ≡ W.state world.old }
    ensures counted { W.faithful world.old → W.refusals world.old ≤ W.refusals world.new }
    ensures survives { W.faithful world.old → NothingNewFound (W.survives world.old) (W.survives world.new) }
    ensures note { W.faithful world.old → W.note world.new ≡ W.note world.old }
    ensures faith { W.faithful world.new ↔ W.faithful world.old }
{
    let mut file = world.open_text(name, image)?;
    world.lock(name, &mut file)?;
    Ok(file)
}

/// Locks a file that this run made. One that can't be locked is taken away again, but for one that another program has locked by
/// now, which goes on with it.
fn lock_made<W: World>(world: &mut W, name: &str, file: &mut W::File) -> Result<(), Refusal>
    requires made { W.faithful world.old → (W.state world.old).before ≤ W.number file.old }
    requires named { W.faithful world.old → (W.state world.old).named name.now ≡ Some (W.number file.old) }
    ensures locked { W.faithful world.old → OnOk result (W.is_locked file.new) }
    ensures number { W.faithful world.old → W.number file.new ≡ W.number file.old }
    ensures same { W.faithful world.old → OnOk result (W.state world.new ≡ W.state world.old) }
    ensures left { W.faithful world.old → (first : SystemState) → AreAllThere first → HasMade (IsMadeFile true (W.number file.old)) first (W.state world.old)
        → OnErr result (LeavesFiles first (W.state world.new)) }
    ensures why { W.faithful world.old → (least : ℕ) → least ≤ W.refusals world.old
        → IfErr result (IsRefusedFor ⊥ (least < W.refusals world.new)) }
    ensures counted { W.faithful world.old → W.refusals world.old ≤ W.refusals world.new }
    ensures survives { W.faithful world.old → NothingNewFound (W.survives world.old) (W.survives world.new) }
    ensures note { W.faithful world.old → W.note world.new ≡ W.note world.old }
    ensures faith { W.faithful world.new ↔ W.faithful world.old }
{
    match world.lock(name, file) {
        Ok(()) => Ok(()),
        Err(Refusal::Locked) => Err(Refusal::Locked),
        Err(refusal) => {
            unmake(world, name, file, true);
            Err(refusal)
        }
    }
}

/// Makes an image that is missing, and locks it.
fn make_image<W: World>(world: &mut W, name: &str) -> Result<W::File, Refusal>
    requires free { W.faithful world.old → (W.state world.old).named name.now ≡ None }
    ensures ok { W.faithful world.old
        → IfOk result (λ f. IsFileOpened name.now true true (W.number f) (W.state world.old) (W.state world.new)) }
    ensures locked { W.faithful world.old → IfOk result (λ f. W.is_locked f) }
    ensures fit { W.faithful world.old → IfOk result (λ f. IsAlwaysFit (W.state world.new) (W.number f)) }
    ensures err { W.faithful world.old → OnErr result (LeavesFiles (W.state world.old) (W.state world.new)) }
    ensures why { W.faithful world.old → (least : ℕ) → least ≤ W.refusals world.old
        → IfErr result (IsRefusedFor ⊥ (least < W.refusals world.new)) }
    ensures counted { W.faithful world.old → W.refusals world.old ≤ W.refusals world.new }
    ensures survives { W.faithful world.old → NothingNewBelow (W.state world.old).there (W.survives world.old) (W.survives world.new) }
    ensures note { W.faithful world.old → W.note world.new ≡ W.note world.old }
    ensures faith { W.faithful world.new ↔ W.faithful world.old }
{
    let mut file = world.make_image(name)?;
    lock_made(world, name, &mut file)?;
    Ok(file)
}

/// Makes a text that is missing, and locks it.
fn make_text<W: World>(world: &mut W, name: &str, image: &W::File) -> Result<W::File, Refusal>
    requires there { W.faithful world.old → W.number image.now < (W.state world.old).there }
    requires free { W.faithful world.old → (W.state world.old).named name.now ≡ None }
    ensures ok { W.faithful world.old
        → IfOk result (λ f. IsFileOpened name.now true true (W.number f) (W.state world.old) (W.state world.new)) }
    ensures locked { W.faithful world.old → IfOk result (λ f. W.is_locked f) }
    ensures own { W.faithful world.old → IfOk result (λ f. IsOwn name.now (W.number image.now) (W.number f) (W.state world.new)) }
    ensures err { W.faithful world.old → OnErr result (LeavesFiles (W.state world.old) (W.state world.new)) }
    ensures why { W.faithful world.old → (least : ℕ) → least ≤ W.refusals world.old
        → IfErr result (IsRefusedFor ⊥ (least < W.refusals world.new)) }
    ensures counted { W.faithful world.old → W.refusals world.old ≤ W.refusals world.new }
    ensures survives { W.faithful world.old → NothingNewBelow (W.state world.old).there (W.survives world.old) (W.survives world.new) }
    ensures note { W.faithful world.old → W.note world.new ≡ W.note world.old }
    ensures faith { W.faithful world.new ↔ W.faithful world.old }
{
    let mut file = world.make_text(name, image)?;
    lock_made(world, name, &mut file)?;
    Ok(file)
}

/// Refuses to make a file that is missing, where that isn't asked for.
fn is_asked(makes: bool) -> Result<(), Refusal>
    ensures ok { OnOk result (makes ≡ true) }
    ensures err { IfErr result (λ e. (e ≡ Missing) × (makes ≡ false)) }
{
    if makes { Ok(()) } else { Err(Refusal::Missing) }
}

/// Opens an image, or makes it where it is missing and that is asked for, and locks it.
fn open_or_make_image<W: World>(
    world: &mut W,
    name: &str,
    mounted: bool,
    makes: bool,
) -> Result<Opened<W::File>, Refusal>
    requires may { W.faithful world.old → MayBeImage mounted (W.state world.old) name.now }
    ensures ok { W.faithful world.old → IfOk result
        (λ o. IsImageOpened name.now mounted makes o.made (W.number o.file) (W.state world.old) (W.state world.new)) }
    ensures locked { W.faithful world.old → IfOk result (λ o. W.is_locked o.file) }
    ensures stays { W.faithful world.old → IfOk result (λ o. o.made ≡ false → W.state world.new ≡ W.state world.old) }
    ensures err { W.faithful world.old → OnErr result (LeavesFiles (W.state world.old) (W.state world.new)) }
    ensures why { W.faithful world.old → (least : ℕ) → least ≤ W.refusals world.old
        → IfErr result (IsRefusedFor (IsUnmade makes (W.state world.old) name.now) (least < W.refusals world.new)) }
    ensures counted { W.faithful world.old → W.refusals world.old ≤ W.refusals world.new }
    ensures survives { W.faithful world.old → NothingNewBelow (W.state world.old).there (W.survives world.old) (W.survives world.new) }
    ensures note { W.faithful world.old → W.note world.new ≡ W.note world.old }
    ensures faith { W.faithful world.new ↔ W.faithful world.old }
{
    match open_image_there(world, name, mounted) {
        Ok(file) => Ok(Opened { file, made: false }),
        Err(Refusal::Missing) => {
            is_asked(makes)?;
            let file = make_image(world, name)?;
            Ok(Opened { file, made: true })
        }
        Err(refusal) => Err(refusal),
    }
}

/// Opens a text, or makes it where it is missing and that is asked for, and locks it.
fn open_or_make_text<W: World>(
    world: &mut W,
    name: &str,
    image: &W::File,
    makes: bool,
) -> Result<Opened<W::File>, Refusal>
    requires may { W.faithful world.old → MayBeText (W.number image.now) (W.state world.old) name.now }
    requires there { W.faithful world.old → W.number image.now < (W.state world.old).there }
    ensures ok { W.faithful world.old → IfOk result
        (λ o. IsTextOpened name.now (W.number image.now) (W.number o.file) makes o.made (W.state world.old) (W.state world.new)) }
    ensures locked { W.faithful world.old → IfOk result (λ o. W.is_locked o.file) }
    ensures err { W.faithful world.old → OnErr result (LeavesFiles (W.state world.old) (W.state world.new)) }
    ensures why { W.faithful world.old → (least : ℕ) → least ≤ W.refusals world.old
        → IfErr result (IsRefusedFor (IsUnmade makes (W.state world.old) name.now) (least < W.refusals world.new)) }
    ensures counted { W.faithful world.old → W.refusals world.old ≤ W.refusals world.new }
    ensures survives { W.faithful world.old → NothingNewBelow (W.state world.old).there (W.survives world.old) (W.survives world.new) }
    ensures note { W.faithful world.old → W.note world.new ≡ W.note world.old }
    ensures faith { W.faithful world.new ↔ W.faithful world.old }
{
    match open_text_there(world, name, image) {
        Ok(file) => Ok(Opened { file, made: false }),
        Err(Refusal::Missing) => {
            is_asked(makes)?;
            let file = make_text(world, name, image)?;
            Ok(Opened { file, made: true })
        }
        Err(refusal) => Err(refusal),
    }
}

/// Opens an image, or makes it where it is missing and that is asked for, and locks it.
pub fn open_image<W: World>(
    world: &mut W,
    name: &str,
    mounted: bool,
    makes: bool,
) -> Result<Opened<W::File>, OpenError>
    requires may { W.faithful world.old → MayBeImage mounted (W.state world.old) name.now }
    ensures ok { W.faithful world.old → IfOk result
        (λ o. IsImageOpened name.now mounted makes o.made (W.number o.file) (W.state world.old) (W.state world.new)) }
    ensures locked { W.faithful world.old → IfOk result (λ o. W.is_locked o.file) }
    ensures stays { W.faithful world.old → IfOk result (λ o. o.made ≡ false → W.state world.new ≡ W.state world.old) }
    ensures err { W.faithful world.old → OnErr result (LeavesFiles (W.state world.old) (W.state world.new)) }
    ensures why { W.faithful world.old → (least : ℕ) → least ≤ W.refusals world.old
        → IfErr result (IsRefusedFile Image (IsUnmade makes (W.state world.old) name.now) NoneUnfit ⊥
        (least < W.refusals world.new)) }
    ensures counted { W.faithful world.old → W.refusals world.old ≤ W.refusals world.new }
    ensures survives { W.faithful world.old → NothingNewBelow (W.state world.old).there (W.survives world.old) (W.survives world.new) }
    ensures note { W.faithful world.old → W.note world.new ≡ W.note world.old }
    ensures faith { W.faithful world.new ↔ W.faithful world.old }
{
    match open_or_make_image(world, name, mounted, makes) {
        Ok(opened) => Ok(opened),
        Err(refusal) => Err(FileRole::Image.refused(refusal)),
    }
}

/// Opens a text of an image, or makes it where it is missing and that is asked for, and locks it.
pub fn open_text<W: World>(
    world: &mut W,
    name: &str,
    which: FileRole,
    image: &W::File,
    makes: bool,
) -> Result<Opened<W::File>, OpenError>
    requires may { W.faithful world.old → MayBeText (W.number image.now) (W.state world.old) name.now }
    requires there { W.faithful world.old → W.number image.now < (W.state world.old).there }
    ensures ok { W.faithful world.old → IfOk result
        (λ o. IsTextOpened name.now (W.number image.now) (W.number o.file) makes o.made (W.state world.old) (W.state world.new)) }
    ensures locked { W.faithful world.old → IfOk result (λ o. W.is_locked o.file) }
    ensures err { W.faithful world.old → OnErr result (LeavesFiles (W.state world.old) (W.state world.new)) }
    ensures why { W.faithful world.old → (least : ℕ) → least ≤ W.refusals world.old
        → IfErr result (IsRefusedFile which (IsUnmade makes (W.state world.old) name.now) NoneUnfit ⊥
        (least < W.refusals world.new)) }
    ensures counted { W.faithful world.old → W.refusals world.old ≤ W.refusals world.new }
    ensures survives { W.faithful world.old → NothingNewBelow (W.state world.old).there (W.survives world.old) (W.survives world.new) }
    ensures note { W.faithful world.old → W.note world.new ≡ W.note world.old }
    ensures faith { W.faithful world.new ↔ W.faithful world.old }
{
    match open_or_make_text(world, name, image, makes) {
        Ok(opened) => Ok(opened),
        Err(refusal) => Err(which.refused(refusal)),
    }
}
