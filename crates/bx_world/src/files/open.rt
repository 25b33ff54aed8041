//! The three files of a session, opened and made.
ghost use Rattle.std.specs.Prelude.{◌≡◌, ◌↔◌, ◌<◌, ◌≤◌, ℕ, None, Some, true, false, OnOk, IfErr, IfOk, OnErr};
ghost use Rattle.bx_world.specs.Rule.{image_unfit, text_unfit};
ghost use Rattle.bx_world.specs.World.{AreThreeFiles, MayBeText, NothingNewBelow, NothingNewFound, SystemState};
ghost use Rattle.bx_world.specs.files.Files.{AreAllThere, AreNamesKept, AreOpened, AreTextsOpened, IsImageOpened, IsMadeFile, IsTextOpened, LeavesFiles, LeavesMade};
ghost use Rattle.bx_world.specs.files.Fit.{AreFitBeside};
ghost use Rattle.bx_world.specs.files.Numbers.{AreLocked, files_beside, made_beside, numbers_beside, numbers_of};
ghost use Rattle.bx_world.specs.files.Reasons.{IsReason, IsUnfitOrRefused, LeadsToOther, MayRefuseOpening, NoneUnfit};

use crate::World;
use crate::files::look::{look_at_all, look_beside};
use crate::files::made::{Files, Made, unmake};
use crate::files::names::Names;
use crate::files::opened::{Opened, open_image, open_text};
use crate::files::ready::{are_ready, stat_of};
use crate::files::unopened::{FileRole, OpenError};

/// The texts of an image.
#[derive(Drop)]
pub struct Texts<F> {
    /// Its journal.
    pub journal: Opened<F>,
    /// Its redo text.
    pub redo: Opened<F>,
}

/// Opens the redo text, or makes it where it is missing, beside an image and a journal that are open. It is taken away again where
/// the three are not ready.
fn open_redo<W: World>(
    world: &mut W,
    names: &Names,
    mounted: bool,
    image: &W::File,
    journal: &W::File,
) -> Result<Opened<W::File>, OpenError>
    requires image_there { W.faithful world.old → W.number image.now < (W.state world.old).there }
    requires journal_there { W.faithful world.old → W.number journal.now < (W.state world.old).there }
    requires image_fit { W.faithful world.old → image_unfit mounted ((W.state world.old).stat (W.number image.now)) ≡ None }
    requires journal_fit { W.faithful world.old → text_unfit (W.state world.old).caller ((W.state world.old).stat (W.number image.now)) false
        ((W.state world.old).stat (W.number journal.now)) ≡ None }
    requires may { W.faithful world.old → MayBeText (W.number image.now) (W.state world.old) names.now.redo }
    ensures ok { W.faithful world.old → IfOk result
        (λ o. IsTextOpened names.now.redo (W.number image.now) (W.number o.file) true o.made (W.state world.old) (W.state world.new)) }
    ensures locked { W.faithful world.old → IfOk result (λ o. W.is_locked o.file) }
    ensures kept { W.faithful world.old → OnOk result (AreNamesKept names.now (W.state world.new) (W.is_kept world.new)) }
    ensures apart { W.faithful world.old → IfOk result (λ o. AreThreeFiles (W.state world.new).there
        (record { image = W.number image.now; journal = W.number journal.now; redo = W.number o.file })) }
    ensures err { W.faithful world.old → OnErr result (LeavesFiles (W.state world.old) (W.state world.new)) }
    ensures why { W.faithful world.old → (least : ℕ) → least ≤ W.refusals world.old
        → IfErr result (λ u. IsReason ⊥ NoneUnfit
        (LeadsToOther names.now (W.number image.now) (W.number journal.now) (W.state world.old) u.which)
        (least < W.refusals world.new) u.why) }
    ensures counted { W.faithful world.old → W.refusals world.old ≤ W.refusals world.new }
    ensures survives { W.faithful world.old → NothingNewBelow (W.state world.old).there (W.survives world.old) (W.survives world.new) }
    ensures note { W.faithful world.old → W.note world.new ≡ W.note world.old }
    ensures faith { W.faithful world.new ↔ W.faithful world.old }
{
    let redo = open_text(world, names.redo.as_str(), FileRole::Redo, image, true)?;
    match are_ready(world, names, mounted, image, journal, &redo.file) {
        Ok(()) => Ok(redo),
        Err(unopened) => {
            unmake(world, names.redo.as_str(), &redo.file, redo.made);
            Err(unopened)
        }
    }
}

/// Takes the journal away again, if this run made it.
fn unmake_journal<W: World>(world: &mut W, names: &Names, journal: &Opened<W::File>)
    requires made { W.faithful world.old → journal.now.made ≡ true → (W.state world.old).before ≤ W.number journal.now.file }
    requires named { W.faithful world.old → (W.state world.old).named names.now.journal ≡ Some (W.number journal.now.file) }
    ensures left { W.faithful world.old → (first : SystemState) → AreAllThere first
        → LeavesMade (IsMadeFile journal.now.made (W.number journal.now.file)) first (W.state world.old) → LeavesFiles first (W.state world.new) }
    ensures counted { W.faithful world.old → W.refusals world.new ≡ W.refusals world.old }
    ensures survives { W.faithful world.old → NothingNewFound (W.survives world.old) (W.survives world.new) }
    ensures note { W.faithful world.old → W.note world.new ≡ W.note world.old }
    ensures faith { W.faithful world.new ↔ W.faithful world.old }
{
    unmake(world, names.journal.as_str(), &journal.file, journal.made);
}

/// Looks at the texts beside an image that was made; beside one that was there they were looked at before it was opened.
fn look_beside_made<W: World>(
    world: &mut W,
    names: &Names,
    image: &Opened<W::File>,
) -> Result<(), OpenError>
    requires fit { W.faithful world.old → image.now.made ≡ false
        → AreFitBeside names.now ((W.state world.old).stat (W.number image.now.file)) (W.state world.old) }
    ensures fit { W.faithful world.old
        → OnOk result (AreFitBeside names.now ((W.state world.old).stat (W.number image.now.file)) (W.state world.old)) }
    ensures made { W.faithful world.old → OnErr result (image.now.made ≡ true) }
    ensures why { W.faithful world.old → (least : ℕ) → least ≤ W.refusals world.old
        → IfErr result (IsUnfitOrRefused names.now ((W.state world.old).stat (W.number image.now.file))
        (least < W.refusals world.new) (W.state world.old)) }
    ensures same { W.faithful world.old → W.state world.new ≡ W.state world.old }
    ensures counted { W.faithful world.old → W.refusals world.old ≤ W.refusals world.new }
    ensures survives { W.faithful world.old → NothingNewFound (W.survives world.old) (W.survives world.new) }
    ensures note { W.faithful world.old → W.note world.new ≡ W.note world.old }
    ensures faith { W.faithful world.new ↔ W.faithful world.old }
{
    if !image.made {
        return Ok(());
    }
    let stat = stat_of(world, FileRole::Image, &image.file)?;
    look_beside(world, names, stat)
}

/// Opens the journal and then the redo text, beside an image that is open; `makes` says whether a journal that is missing is made.
/// One that was made is taken away again where the redo text is refused.
fn open_texts<W: World>(
    world: &mut W,
    names: &Names,
    mounted: bool,
    makes: bool,
    image: &Opened<W::File>,
) -> Result<Texts<W::File>, OpenError>
    requires there { W.faithful world.old → W.number image.now.file < (W.state world.old).there }
    requires image_fit { W.faithful world.old → image_unfit mounted ((W.state world.old).stat (W.number image.now.file)) ≡ None }
    requires fit { W.faithful world.old → image.now.made ≡ false
        → AreFitBeside names.now ((W.state world.old).stat (W.number image.now.file)) (W.state world.old) }
    ensures ok { W.faithful world.old → IfOk result (λ texts. AreTextsOpened names.now makes (numbers_beside W.number image.now texts)
        (made_beside image.now texts) (W.state world.old) (W.state world.new)) }
    ensures locked { W.faithful world.old → IfOk result (λ texts. W.is_locked texts.journal.file × W.is_locked texts.redo.file) }
    ensures kept { W.faithful world.old → OnOk result (AreNamesKept names.now (W.state world.new) (W.is_kept world.new)) }
    ensures err { W.faithful world.old → OnErr result (LeavesFiles (W.state world.old) (W.state world.new)) }
    ensures why { W.faithful world.old → (least : ℕ) → least ≤ W.refusals world.old
        → (first : SystemState) → AreAllThere first
        → IsImageOpened names.now.image mounted makes image.now.made (W.number image.now.file) first (W.state world.old)
        → IfErr result (MayRefuseOpening names.now mounted makes (least < W.refusals world.new) first) }
    ensures counted { W.faithful world.old → W.refusals world.old ≤ W.refusals world.new }
    ensures survives { W.faithful world.old → NothingNewBelow (W.state world.old).there (W.survives world.old) (W.survives world.new) }
    ensures note { W.faithful world.old → W.note world.new ≡ W.note world.old }
    ensures faith { W.faithful world.new ↔ W.faithful world.old }
{
    look_beside_made(world, names, image)?;
    let journal = open_text(
        world,
        names.journal.as_str(),
        FileRole::Journal,
        &image.file,
        makes,
    )?;
    // The redo text comes last, so a missing journal leaves none that was made for nothing.
    match open_redo(world, names, mounted, &image.file, &journal.file) {
        Ok(redo) => Ok(Texts { journal, redo }),
        Err(unopened) => {
            unmake_journal(world, names, &journal);
            Err(unopened)
        }
    }
}

/// Takes the image away again, if this run made it.
fn unmake_image<W: World>(world: &mut W, names: &Names, image: &Opened<W::File>)
    requires made { W.faithful world.old → image.now.made ≡ true → (W.state world.old).before ≤ W.number image.now.file }
    requires named { W.faithful world.old → (W.state world.old).named names.now.image ≡ Some (W.number image.now.file) }
    ensures left { W.faithful world.old → (first : SystemState) → AreAllThere first
        → LeavesMade (IsMadeFile image.now.made (W.number image.now.file)) first (W.state world.old) → LeavesFiles first (W.state world.new) }
    ensures counted { W.faithful world.old → W.refusals world.new ≡ W.refusals world.old }
    ensures survives { W.faithful world.old → NothingNewFound (W.survives world.old) (W.survives world.new) }
    ensures note { W.faithful world.old → W.note world.new ≡ W.note world.old }
    ensures faith { W.faithful world.new ↔ W.faithful world.old }
{
    unmake(world, names.image.as_str(), &image.file, image.made);
}

/// The three, and which of them were made.
fn files_of<F: Drop>(image: Opened<F>, texts: Texts<F>) -> Files<F>
    ensures { result ≡ files_beside image texts }
{
    Files {
        made: Made {
            image: image.made,
            journal: texts.journal.made,
            redo: texts.redo.made,
        },
        image: image.file,
        journal: texts.journal.file,
        redo: texts.redo.file,
    }
}

/// Opens the image, its journal and its redo text. A redo text that is missing is made, and where `makes` says so an image and a
/// journal too. All three are looked at before one is opened or made: a text is no link, has one name, belongs to somebody who may
/// write the image, and has no reader or writer who is none of the image; beside an image that was made they are looked at again.
///
/// # Errors
/// Where one can't be opened, made or locked, is none that may be opened, or is another one by a second name, and where its name
/// can't be put on the disk. No file is then changed, and what was made is taken away again, the latest first.
pub fn open_image_files<W: World>(
    world: &mut W,
    names: &Names,
    mounted: bool,
    makes: bool,
) -> Result<Files<W::File>, OpenError>
    ensures ok { W.faithful world.old → IfOk result
        (λ f. AreOpened names.now mounted makes (numbers_of W.number f) f.made (W.state world.old) (W.state world.new)) }
    ensures locked { W.faithful world.old → IfOk result (AreLocked W.is_locked) }
    ensures kept { W.faithful world.old → OnOk result (AreNamesKept names.now (W.state world.new) (W.is_kept world.new)) }
    ensures err { W.faithful world.old → OnErr result (LeavesFiles (W.state world.old) (W.state world.new)) }
    ensures why { W.faithful world.old → IfErr result (MayRefuseOpening names.now mounted makes (W.refusals world.old < W.refusals world.new)
        (W.state world.old)) }
    ensures counted { W.faithful world.old → W.refusals world.old ≤ W.refusals world.new }
    ensures survives { W.faithful world.old → NothingNewBelow (W.state world.old).there (W.survives world.old) (W.survives world.new) }
    ensures note { W.faithful world.old → W.note world.new ≡ W.note world.old }
    ensures faith { W.faithful world.new ↔ W.faithful world.old }
{
    // All three are looked at before one is opened: to open a pipe may act on it.
    look_at_all(world, names, mounted, makes)?;
    let image = open_image(world, names.image.as_str(), mounted, makes)?;
    match open_texts(world, names, mounted, makes, &image) {
        Ok(texts) => Ok(files_of(image, texts)),
        Err(unopened) => {
            unmake_image(world, names, &image);
            Err(unopened)
        }
    }
}
