//! An image that is only read, and its texts: looked at, opened and locked, and each a file of its own. None is made.
ghost use Rattle.std.specs.Prelude.{◌≡◌, ◌↔◌, ◌<◌, ℕ, Err, None, Some, false, true, IfErr, IfOk, IfSome, OnOk};
ghost use Rattle.bx_world.specs.Rule.{read_unfit, text_unfit};
ghost use Rattle.bx_world.specs.World.{CountsRefusal, MayBeRead, MayBeText, NothingNewFound, number_if};
ghost use Rattle.bx_world.specs.files.Fit.{look_unfit};
ghost use Rattle.bx_world.specs.files.Reading.{AreFitToRead, AreLockedAs, AreOpenToRead, AreReadable, IsAnother, IsLockedAs, IsReadable, IsRedoFit, IsThird, IsUnfitToRead, LeadToRead, MayRefuseReading, StaysSeen, numbers_read};
ghost use Rattle.bx_world.specs.files.Reasons.{IsReason, IsRefusedFile, IsRefusedFor, IsUnfitBeside, NoneUnfit};
ghost use Rattle.bx_world.specs.declared.files.unopened.FileRole.TheVariants.{Image, Journal, Redo};

mod redo;

use crate::files::alone::{look_alone, open_alone};
use crate::files::names::Names;
use crate::files::unopened::{FileRole, OpenError};
use crate::{Look, Refusal, Stat, Unfit, World, read_unfit, text_unfit};
pub use redo::open_redo_to_forget;

/// An image and its texts that are open to be read: locked, and each a file of its own.
#[derive(Drop)]
pub struct Looked<F> {
    /// The image.
    pub image: F,
    /// Its journal.
    pub journal: F,
    /// Its redo text; none where it is missing.
    pub redo: Option<F>,
}

/// What the system tells of the image, which may be one that is read.
fn look_at_image<W: World>(world: &mut W, name: &str) -> Result<Stat, OpenError>
    ensures fit { W.faithful world.old → IfOk result (λ image. IsReadable name.now image (W.state world.old)) }
    ensures why { W.faithful world.old → IfErr result (IsRefusedFile Image ((W.state world.old).named name.now ≡ None)
        (IsUnfitToRead (W.state world.old) name.now) ⊥ (W.refusals world.old < W.refusals world.new)) }
    ensures calm { W.faithful world.old → OnOk result (W.refusals world.new ≡ W.refusals world.old) }
    ensures seen { W.faithful world.old → StaysSeen W.state W.survives world.old world.new }
    ensures note { W.faithful world.old → W.note world.new ≡ W.note world.old }
    ensures faith { W.faithful world.new ↔ W.faithful world.old }
{
    match look_alone(world, name) {
        Ok(image) => Ok(image),
        Err(why) => Err(FileRole::Image.unopened(why)),
    }
}

/// Why what stands under a name can't be a text of this image; none where it can, or where nothing stands there.
fn unfit_of(caller: u32, image: &Stat, look: Look) -> Option<Unfit>
    ensures { result ≡ look_unfit caller (Some image.now) look }
{
    match look.found {
        Some(text) => text_unfit(caller, image, look.is_link, &text),
        None if look.is_link => Some(Unfit::Link),
        None => None,
    }
}

/// Looks at a text of this image, and answers whether it is there.
fn look_at_text<W: World>(
    world: &mut W,
    name: &str,
    which: FileRole,
    image: &Stat,
) -> Result<bool, OpenError>
    ensures fit { W.faithful world.old
        → OnOk result ((n : ℕ) → (W.state world.old).stat n ≡ image.now → MayBeText n (W.state world.old) name.now) }
    ensures missing { W.faithful world.old → IfOk result (λ is_there. is_there ≡ false → (W.state world.old).named name.now ≡ None) }
    ensures why { W.faithful world.old → IfErr result (IsRefusedFile which ⊥ (IsUnfitBeside (Some image.now) (W.state world.old) name.now) ⊥
        (W.refusals world.old < W.refusals world.new)) }
    ensures calm { W.faithful world.old → OnOk result (W.refusals world.new ≡ W.refusals world.old) }
    ensures seen { W.faithful world.old → StaysSeen W.state W.survives world.old world.new }
    ensures note { W.faithful world.old → W.note world.new ≡ W.note world.old }
    ensures faith { W.faithful world.new ↔ W.faithful world.old }
{
    let look = match world.look(name) {
        Ok(look) => look,
        Err(refusal) => return Err(which.refused(refusal)),
    };
    let caller = world.caller();
    match unfit_of(caller, image, look) {
        None => Ok(look.found.is_some()),
        Some(unfit) => Err(which.unfit(unfit)),
    }
}

/// Looks at a journal of this image, which is there.
fn look_at_journal<W: World>(world: &mut W, name: &str, image: &Stat) -> Result<(), OpenError>
    ensures fit { W.faithful world.old
        → OnOk result ((n : ℕ) → (W.state world.old).stat n ≡ image.now → MayBeText n (W.state world.old) name.now) }
    ensures why { W.faithful world.old → IfErr result (IsRefusedFile Journal ((W.state world.old).named name.now ≡ None)
        (IsUnfitBeside (Some image.now) (W.state world.old) name.now) ⊥ (W.refusals world.old < W.refusals world.new)) }
    ensures calm { W.faithful world.old → OnOk result (W.refusals world.new ≡ W.refusals world.old) }
    ensures seen { W.faithful world.old → StaysSeen W.state W.survives world.old world.new }
    ensures note { W.faithful world.old → W.note world.new ≡ W.note world.old }
    ensures faith { W.faithful world.new ↔ W.faithful world.old }
{
    match look_at_text(world, name, FileRole::Journal, image) {
        Ok(true) => Ok(()),
        Ok(false) => Err(FileRole::Journal.refused(Refusal::Missing)),
        Err(unopened) => Err(unopened),
    }
}

/// Looks at the names of an image and its texts before a file is opened. The redo text may be missing.
fn look_at_names<W: World>(world: &mut W, names: &Names) -> Result<(), OpenError>
    ensures fit { W.faithful world.old → OnOk result (AreReadable names.now (W.state world.old)) }
    ensures why { W.faithful world.old
        → IfErr result (MayRefuseReading names.now (W.refusals world.old < W.refusals world.new) (W.state world.old)) }
    ensures calm { W.faithful world.old → OnOk result (W.refusals world.new ≡ W.refusals world.old) }
    ensures seen { W.faithful world.old → StaysSeen W.state W.survives world.old world.new }
    ensures note { W.faithful world.old → W.note world.new ≡ W.note world.old }
    ensures faith { W.faithful world.new ↔ W.faithful world.old }
{
    let image = match look_at_image(world, names.image.as_str()) {
        Ok(image) => image,
        Err(unopened) => return Err(unopened),
    };
    if let Err(unopened) = look_at_journal(world, names.journal.as_str(), &image) {
        return Err(unopened);
    }
    match look_at_text(world, names.redo.as_str(), FileRole::Redo, &image) {
        Ok(_) => Ok(()),
        Err(unopened) => Err(unopened),
    }
}

/// Opens an image to read it, and locks it.
fn open_image<W: World>(world: &mut W, name: &str) -> Result<W::File, OpenError>
    requires may { W.faithful world.old → MayBeRead (W.state world.old) name.now }
    ensures named { W.faithful world.old → IfOk result (λ f. (W.state world.old).named name.now ≡ Some (W.number f)) }
    ensures locked { W.faithful world.old → IfOk result (λ f. W.is_shared f) }
    ensures why { W.faithful world.old → IfErr result (IsRefusedFile Image ((W.state world.old).named name.now ≡ None) NoneUnfit ⊥
        (W.refusals world.old < W.refusals world.new)) }
    ensures calm { W.faithful world.old → OnOk result (W.refusals world.new ≡ W.refusals world.old) }
    ensures seen { W.faithful world.old → StaysSeen W.state W.survives world.old world.new }
    ensures note { W.faithful world.old → W.note world.new ≡ W.note world.old }
    ensures faith { W.faithful world.new ↔ W.faithful world.old }
{
    match open_alone(world, name) {
        Ok(file) => Ok(file),
        Err(why) => Err(FileRole::Image.unopened(why)),
    }
}

/// Opens a text, to change it or to read it.
fn open_as<W: World>(
    world: &mut W,
    name: &str,
    image: &W::File,
    changes: bool,
) -> Result<W::File, Refusal>
    requires may { W.faithful world.old → MayBeText (W.number image.now) (W.state world.old) name.now }
    ensures named { W.faithful world.old → IfOk result (λ f. (W.state world.old).named name.now ≡ Some (W.number f)) }
    ensures missing { W.faithful world.old → result ≡ Err Refusal.Missing → (W.state world.old).named name.now ≡ None }
    ensures counted { W.faithful world.old → CountsRefusal result (W.refusals world.old) (W.refusals world.new) }
    ensures seen { W.faithful world.old → StaysSeen W.state W.survives world.old world.new }
    ensures note { W.faithful world.old → W.note world.new ≡ W.note world.old }
    ensures faith { W.faithful world.new ↔ W.faithful world.old }
{
    if changes {
        world.open_text(name, image)
    } else {
        world.open_text_to_read(name, image)
    }
}

/// Locks a text, to change it or to read it.
fn lock_as<W: World>(
    world: &mut W,
    name: &str,
    text: &mut W::File,
    changes: bool,
) -> Result<(), Refusal>
    requires named { W.faithful world.old → (W.state world.old).named name.now ≡ Some (W.number text.old) }
    ensures locked { W.faithful world.old → OnOk result (IsLockedAs changes (W.is_locked text.new) (W.is_shared text.new)) }
    ensures number { W.faithful world.old → W.number text.new ≡ W.number text.old }
    ensures missing { W.faithful world.old → result ≡ Err Refusal.Missing → ⊥ }
    ensures counted { W.faithful world.old → CountsRefusal result (W.refusals world.old) (W.refusals world.new) }
    ensures seen { W.faithful world.old → StaysSeen W.state W.survives world.old world.new }
    ensures note { W.faithful world.old → W.note world.new ≡ W.note world.old }
    ensures faith { W.faithful world.new ↔ W.faithful world.old }
{
    if changes {
        world.lock(name, text)
    } else {
        world.lock_shared(name, text)
    }
}

/// Opens a text, to change it or to read it, and locks it.
fn open_text<W: World>(
    world: &mut W,
    name: &str,
    image: &W::File,
    changes: bool,
) -> Result<W::File, Refusal>
    requires may { W.faithful world.old → MayBeText (W.number image.now) (W.state world.old) name.now }
    ensures named { W.faithful world.old → IfOk result (λ f. (W.state world.old).named name.now ≡ Some (W.number f)) }
    ensures locked { W.faithful world.old → IfOk result (λ f. IsLockedAs changes (W.is_locked f) (W.is_shared f)) }
    ensures why { W.faithful world.old → IfErr result (IsRefusedFor ((W.state world.old).named name.now ≡ None)
        (W.refusals world.old < W.refusals world.new)) }
    ensures missing { W.faithful world.old → IfErr result (λ e. e ≡ Refusal.Missing → W.refusals world.new ≡ W.refusals world.old) }
    ensures calm { W.faithful world.old → OnOk result (W.refusals world.new ≡ W.refusals world.old) }
    ensures seen { W.faithful world.old → StaysSeen W.state W.survives world.old world.new }
    ensures note { W.faithful world.old → W.note world.new ≡ W.note world.old }
    ensures faith { W.faithful world.new ↔ W.faithful world.old }
{
    let mut file = match open_as(world, name, image, changes) {
        Ok(file) => file,
        Err(refusal) => return Err(refusal),
    };
    match lock_as(world, name, &mut file, changes) {
        Ok(()) => Ok(file),
        Err(refusal) => Err(refusal),
    }
}

/// Opens a journal, and locks it.
fn open_journal<W: World>(
    world: &mut W,
    name: &str,
    image: &W::File,
    changes: bool,
) -> Result<W::File, OpenError>
    requires may { W.faithful world.old → MayBeText (W.number image.now) (W.state world.old) name.now }
    ensures named { W.faithful world.old → IfOk result (λ f. (W.state world.old).named name.now ≡ Some (W.number f)) }
    ensures locked { W.faithful world.old → IfOk result (λ f. IsLockedAs changes (W.is_locked f) (W.is_shared f)) }
    ensures why { W.faithful world.old → IfErr result (IsRefusedFile Journal ((W.state world.old).named name.now ≡ None) NoneUnfit ⊥
        (W.refusals world.old < W.refusals world.new)) }
    ensures calm { W.faithful world.old → OnOk result (W.refusals world.new ≡ W.refusals world.old) }
    ensures seen { W.faithful world.old → StaysSeen W.state W.survives world.old world.new }
    ensures note { W.faithful world.old → W.note world.new ≡ W.note world.old }
    ensures faith { W.faithful world.new ↔ W.faithful world.old }
{
    match open_text(world, name, image, changes) {
        Ok(file) => Ok(file),
        Err(refusal) => Err(FileRole::Journal.refused(refusal)),
    }
}

/// Opens a redo text, and locks it; none where it is missing.
fn open_redo<W: World>(
    world: &mut W,
    name: &str,
    image: &W::File,
    changes: bool,
) -> Result<Option<W::File>, OpenError>
    requires may { W.faithful world.old → MayBeText (W.number image.now) (W.state world.old) name.now }
    ensures named { W.faithful world.old → IfOk result (λ f. (W.state world.old).named name.now ≡ number_if W.number f) }
    ensures locked { W.faithful world.old → IfOk result (λ f. IfSome f (λ f. IsLockedAs changes (W.is_locked f) (W.is_shared f))) }
    ensures why { W.faithful world.old → IfErr result (IsRefusedFile Redo ⊥ NoneUnfit ⊥ (W.refusals world.old < W.refusals world.new)) }
    ensures calm { W.faithful world.old → OnOk result (W.refusals world.new ≡ W.refusals world.old) }
    ensures seen { W.faithful world.old → StaysSeen W.state W.survives world.old world.new }
    ensures note { W.faithful world.old → W.note world.new ≡ W.note world.old }
    ensures faith { W.faithful world.new ↔ W.faithful world.old }
{
    match open_text(world, name, image, changes) {
        Ok(file) => Ok(Some(file)),
        Err(Refusal::Missing) => Ok(None),
        Err(refusal) => Err(FileRole::Redo.refused(refusal)),
    }
}

/// Opens an image to read it, and its texts, which were looked at before.
fn open_names<W: World>(
    world: &mut W,
    names: &Names,
    changes: bool,
) -> Result<Looked<W::File>, OpenError>
    requires may { W.faithful world.old → AreReadable names.now (W.state world.old) }
    ensures named { W.faithful world.old → IfOk result (λ l. LeadToRead names.now (numbers_read W.number l) (W.state world.old)) }
    ensures locked { W.faithful world.old → IfOk result (AreLockedAs changes W.is_locked W.is_shared) }
    ensures why { W.faithful world.old
        → IfErr result (MayRefuseReading names.now (W.refusals world.old < W.refusals world.new) (W.state world.old)) }
    ensures calm { W.faithful world.old → OnOk result (W.refusals world.new ≡ W.refusals world.old) }
    ensures seen { W.faithful world.old → StaysSeen W.state W.survives world.old world.new }
    ensures note { W.faithful world.old → W.note world.new ≡ W.note world.old }
    ensures faith { W.faithful world.new ↔ W.faithful world.old }
{
    let image = match open_image(world, names.image.as_str()) {
        Ok(image) => image,
        Err(unopened) => return Err(unopened),
    };
    let journal = match open_journal(world, names.journal.as_str(), &image, changes) {
        Ok(journal) => journal,
        Err(unopened) => return Err(unopened),
    };
    match open_redo(world, names.redo.as_str(), &image, changes) {
        Ok(redo) => Ok(Looked {
            image,
            journal,
            redo,
        }),
        Err(unopened) => Err(unopened),
    }
}

/// Looks again at an image that is open, whose name may have been given to another file by now.
fn look_again<W: World>(world: &mut W, image: &W::File) -> Result<Stat, OpenError>
    ensures told { W.faithful world.old → IfOk result (λ s. s ≡ (W.state world.old).stat (W.number image.now)) }
    ensures why { W.faithful world.old → IfErr result (IsRefusedFile Image ⊥
        (λ unfit. read_unfit ((W.state world.old).stat (W.number image.now)) ≡ Some unfit) ⊥ (W.refusals world.old < W.refusals world.new)) }
    ensures calm { W.faithful world.old → OnOk result (W.refusals world.new ≡ W.refusals world.old) }
    ensures seen { W.faithful world.old → StaysSeen W.state W.survives world.old world.new }
    ensures note { W.faithful world.old → W.note world.new ≡ W.note world.old }
    ensures faith { W.faithful world.new ↔ W.faithful world.old }
{
    let stat = match world.stat(image) {
        Ok(stat) => stat,
        Err(refusal) => return Err(FileRole::Image.refused(refusal)),
    };
    match read_unfit(&stat) {
        None => Ok(stat),
        Some(unfit) => Err(FileRole::Image.unfit(unfit)),
    }
}

/// Looks again at a text that is open.
fn look_again_at_text<W: World>(
    world: &mut W,
    which: FileRole,
    text: &W::File,
    image: &Stat,
) -> Result<(), OpenError>
    ensures why { W.faithful world.old → IfErr result (IsRefusedFile which ⊥
        (λ unfit. text_unfit (W.state world.old).caller image.now false ((W.state world.old).stat (W.number text.now)) ≡ Some unfit) ⊥
        (W.refusals world.old < W.refusals world.new)) }
    ensures calm { W.faithful world.old → OnOk result (W.refusals world.new ≡ W.refusals world.old) }
    ensures seen { W.faithful world.old → StaysSeen W.state W.survives world.old world.new }
    ensures note { W.faithful world.old → W.note world.new ≡ W.note world.old }
    ensures faith { W.faithful world.new ↔ W.faithful world.old }
{
    let stat = match world.stat(text) {
        Ok(stat) => stat,
        Err(refusal) => return Err(which.refused(refusal)),
    };
    let caller = world.caller();
    match text_unfit(caller, image, false, &stat) {
        None => Ok(()),
        Some(unfit) => Err(which.unfit(unfit)),
    }
}

/// Refuses a file that is another one by a second name.
fn is_apart<W: World>(
    world: &mut W,
    which: FileRole,
    file: &W::File,
    other: &W::File,
) -> Result<(), OpenError>
    ensures apart { W.faithful world.old → OnOk result (W.number file.now ≡ W.number other.now → ⊥) }
    ensures why { W.faithful world.old → IfErr result (IsRefusedFile which ⊥ NoneUnfit (W.number file.now ≡ W.number other.now)
        (W.refusals world.old < W.refusals world.new)) }
    ensures calm { W.faithful world.old → OnOk result (W.refusals world.new ≡ W.refusals world.old) }
    ensures seen { W.faithful world.old → StaysSeen W.state W.survives world.old world.new }
    ensures note { W.faithful world.old → W.note world.new ≡ W.note world.old }
    ensures faith { W.faithful world.new ↔ W.faithful world.old }
{
    match world.is_same(file, other) {
        Ok(false) => Ok(()),
        Ok(true) => Err(which.alias()),
        Err(refusal) => Err(which.refused(refusal)),
    }
}

/// Looks again at a text that is open, which is to be another file than the image.
fn is_text_beside<W: World>(
    world: &mut W,
    which: FileRole,
    text: &W::File,
    image: &W::File,
    stat: &Stat,
) -> Result<(), OpenError>
    ensures apart { W.faithful world.old → OnOk result (W.number text.now ≡ W.number image.now → ⊥) }
    ensures why { W.faithful world.old → IfErr result (IsRefusedFile which ⊥
        (λ unfit. text_unfit (W.state world.old).caller stat.now false ((W.state world.old).stat (W.number text.now)) ≡ Some unfit)
        (W.number text.now ≡ W.number image.now) (W.refusals world.old < W.refusals world.new)) }
    ensures calm { W.faithful world.old → OnOk result (W.refusals world.new ≡ W.refusals world.old) }
    ensures seen { W.faithful world.old → StaysSeen W.state W.survives world.old world.new }
    ensures note { W.faithful world.old → W.note world.new ≡ W.note world.old }
    ensures faith { W.faithful world.new ↔ W.faithful world.old }
{
    match look_again_at_text(world, which, text, stat) {
        Ok(()) => is_apart(world, which, text, image),
        Err(unopened) => Err(unopened),
    }
}

/// Refuses a redo text that may not be one of the image, or is another file of the three.
fn is_third<W: World>(
    world: &mut W,
    looked: &Looked<W::File>,
    image: &Stat,
) -> Result<(), OpenError>
    ensures third { W.faithful world.old → OnOk result (IsThird (numbers_read W.number looked.now)) }
    ensures why { W.faithful world.old → IsRedoFit (numbers_read W.number looked.now) image.now (W.state world.old) → IfErr result (IsRefusedFile
        Redo ⊥ NoneUnfit (IsAnother (numbers_read W.number looked.now) Redo) (W.refusals world.old < W.refusals world.new)) }
    ensures calm { W.faithful world.old → OnOk result (W.refusals world.new ≡ W.refusals world.old) }
    ensures seen { W.faithful world.old → StaysSeen W.state W.survives world.old world.new }
    ensures note { W.faithful world.old → W.note world.new ≡ W.note world.old }
    ensures faith { W.faithful world.new ↔ W.faithful world.old }
{
    let Some(redo) = &looked.redo else {
        return Ok(());
    };
    match is_text_beside(world, FileRole::Redo, redo, &looked.image, image) {
        Ok(()) => is_apart(world, FileRole::Redo, redo, &looked.journal),
        Err(unopened) => Err(unopened),
    }
}

/// Looks again at files that are open, and refuses those that are not each a file of its own.
fn are_ready<W: World>(world: &mut W, looked: &Looked<W::File>) -> Result<(), OpenError>
    ensures journal { W.faithful world.old → OnOk result (W.number looked.now.journal ≡ W.number looked.now.image → ⊥) }
    ensures third { W.faithful world.old → OnOk result (IsThird (numbers_read W.number looked.now)) }
    ensures why { W.faithful world.old → AreFitToRead (numbers_read W.number looked.now) (W.state world.old) → IfErr result (λ u.
        IsReason ⊥ NoneUnfit (IsAnother (numbers_read W.number looked.now) u.which) (W.refusals world.old < W.refusals world.new) u.why) }
    ensures calm { W.faithful world.old → OnOk result (W.refusals world.new ≡ W.refusals world.old) }
    ensures seen { W.faithful world.old → StaysSeen W.state W.survives world.old world.new }
    ensures note { W.faithful world.old → W.note world.new ≡ W.note world.old }
    ensures faith { W.faithful world.new ↔ W.faithful world.old }
{
    let stat = match look_again(world, &looked.image) {
        Ok(stat) => stat,
        Err(unopened) => return Err(unopened),
    };
    match is_text_beside(
        world,
        FileRole::Journal,
        &looked.journal,
        &looked.image,
        &stat,
    ) {
        Ok(()) => is_third(world, looked, &stat),
        Err(unopened) => Err(unopened),
    }
}

/// Opens an image to read it, and its texts to change them or to read them.
fn open_looked<W: World>(
    world: &mut W,
    names: &Names,
    changes: bool,
) -> Result<Looked<W::File>, OpenError>
    ensures ok { W.faithful world.old → IfOk result (λ l. AreOpenToRead names.now (numbers_read W.number l) (W.state world.old)) }
    ensures locked { W.faithful world.old → IfOk result (AreLockedAs changes W.is_locked W.is_shared) }
    ensures why { W.faithful world.old
        → IfErr result (MayRefuseReading names.now (W.refusals world.old < W.refusals world.new) (W.state world.old)) }
    ensures calm { W.faithful world.old → OnOk result (W.refusals world.new ≡ W.refusals world.old) }
    ensures same { W.faithful world.old → W.state world.new ≡ W.state world.old }
    ensures survives { W.faithful world.old → NothingNewFound (W.survives world.old) (W.survives world.new) }
    ensures note { W.faithful world.old → W.note world.new ≡ W.note world.old }
    ensures faith { W.faithful world.new ↔ W.faithful world.old }
{
    if let Err(unopened) = look_at_names(world, names) {
        return Err(unopened);
    }
    let looked = match open_names(world, names, changes) {
        Ok(looked) => looked,
        Err(unopened) => return Err(unopened),
    };
    match are_ready(world, &looked) {
        Ok(()) => Ok(looked),
        Err(unopened) => Err(unopened),
    }
}

/// Opens an image and its texts to read them. All three are looked at before one is opened, and again once they are: a text is no
/// link, has one name, belongs to somebody who may write the image, and has no reader or writer who is none of the image. The
/// image may be a device that is mounted, and the redo text may be missing.
///
/// # Errors
/// Where one can't be opened or locked, is none that may be read, or is another one by a second name.
pub fn open_to_look<W: World>(world: &mut W, names: &Names) -> Result<Looked<W::File>, OpenError>
    ensures ok { W.faithful world.old → IfOk result (λ l. AreOpenToRead names.now (numbers_read W.number l) (W.state world.old)) }
    ensures locked { W.faithful world.old → IfOk result (AreLockedAs false W.is_locked W.is_shared) }
    ensures why { W.faithful world.old
        → IfErr result (MayRefuseReading names.now (W.refusals world.old < W.refusals world.new) (W.state world.old)) }
    ensures calm { W.faithful world.old → OnOk result (W.refusals world.new ≡ W.refusals world.old) }
    ensures same { W.faithful world.old → W.state world.new ≡ W.state world.old }
    ensures survives { W.faithful world.old → NothingNewFound (W.survives world.old) (W.survives world.new) }
    ensures note { W.faithful world.old → W.note world.new ≡ W.note world.old }
    ensures faith { W.faithful world.new ↔ W.faithful world.old }
{
    open_looked(world, names, false)
}

/// The same, with texts that are to be changed. Opening changes nothing.
///
/// # Errors
/// As of `open_to_look`.
pub fn open_to_forget<W: World>(world: &mut W, names: &Names) -> Result<Looked<W::File>, OpenError>
    ensures ok { W.faithful world.old → IfOk result (λ l. AreOpenToRead names.now (numbers_read W.number l) (W.state world.old)) }
    ensures locked { W.faithful world.old → IfOk result (AreLockedAs true W.is_locked W.is_shared) }
    ensures why { W.faithful world.old
        → IfErr result (MayRefuseReading names.now (W.refusals world.old < W.refusals world.new) (W.state world.old)) }
    ensures calm { W.faithful world.old → OnOk result (W.refusals world.new ≡ W.refusals world.old) }
    ensures same { W.faithful world.old → W.state world.new ≡ W.state world.old }
    ensures survives { W.faithful world.old → NothingNewFound (W.survives world.old) (W.survives world.new) }
    ensures note { W.faithful world.old → W.note world.new ≡ W.note world.old }
    ensures faith { W.faithful world.new ↔ W.faithful world.old }
{
    open_looked(world, names, true)
}
