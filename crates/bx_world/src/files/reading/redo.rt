//! An image whose journal is missing and whose redo text is there, so that the history may be dropped all the same.
ghost use Rattle.std.specs.Prelude.{◌≡◌, ◌↔◌, ◌<◌, None, true, IfErr, IfOk, OnOk};
ghost use Rattle.bx_world.specs.World.{NothingNewFound};
ghost use Rattle.bx_world.specs.files.Reading.{AreLockedAs, AreOpenAlone, AreReadable, IsPair, MayRefuseForgetting, StaysSeen, as_redo, numbers_read};

use crate::files::names::Names;
use crate::files::reading::{
    Looked, are_ready, look_at_image, look_at_text, open_image, open_text,
};
use crate::files::unopened::{FileRole, OpenError};
use crate::{Refusal, World};

/// Looks at the names of an image and its redo text before a file is opened. Where both texts are missing, it is the journal that is.
fn look_at_pair<W: World>(world: &mut W, names: &Names) -> Result<(), OpenError>
    requires missing { W.faithful world.old → (W.state world.old).named names.now.journal ≡ None }
    ensures fit { W.faithful world.old → OnOk result (AreReadable names.now (W.state world.old)) }
    ensures why { W.faithful world.old
        → IfErr result (MayRefuseForgetting names.now (W.refusals world.old < W.refusals world.new) (W.state world.old)) }
    ensures calm { W.faithful world.old → OnOk result (W.refusals world.new ≡ W.refusals world.old) }
    ensures seen { W.faithful world.old → StaysSeen W.state W.survives world.old world.new }
    ensures note { W.faithful world.old → W.note world.new ≡ W.note world.old }
    ensures faith { W.faithful world.new ↔ W.faithful world.old }
{
    let image = match look_at_image(world, names.image.as_str()) {
        Ok(image) => image,
        Err(unopened) => return Err(unopened),
    };
    match look_at_text(world, names.redo.as_str(), FileRole::Redo, &image) {
        Ok(true) => Ok(()),
        Ok(false) => Err(FileRole::Journal.refused(Refusal::Missing)),
        Err(unopened) => Err(unopened),
    }
}

/// Opens an image to read it, and its redo text to change it, in the place of the journal.
fn open_pair<W: World>(world: &mut W, names: &Names) -> Result<Looked<W::File>, OpenError>
    requires may { W.faithful world.old → AreReadable names.now (W.state world.old) }
    requires missing { W.faithful world.old → (W.state world.old).named names.now.journal ≡ None }
    ensures named { W.faithful world.old → IfOk result (λ l. IsPair names.now (numbers_read W.number l) (W.state world.old)) }
    ensures locked { W.faithful world.old → IfOk result (AreLockedAs true W.is_locked W.is_shared) }
    ensures why { W.faithful world.old
        → IfErr result (MayRefuseForgetting names.now (W.refusals world.old < W.refusals world.new) (W.state world.old)) }
    ensures calm { W.faithful world.old → OnOk result (W.refusals world.new ≡ W.refusals world.old) }
    ensures seen { W.faithful world.old → StaysSeen W.state W.survives world.old world.new }
    ensures note { W.faithful world.old → W.note world.new ≡ W.note world.old }
    ensures faith { W.faithful world.new ↔ W.faithful world.old }
{
    let image = match open_image(world, names.image.as_str()) {
        Ok(image) => image,
        Err(unopened) => return Err(unopened),
    };
    match open_text(world, names.redo.as_str(), &image, true) {
        Ok(redo) => Ok(Looked {
            image,
            journal: redo,
            redo: None,
        }),
        Err(Refusal::Missing) => Err(FileRole::Journal.refused(Refusal::Missing)),
        Err(refusal) => Err(FileRole::Redo.refused(refusal)),
    }
}

/// A file that is not opened, where the redo text is in the place of the journal.
fn as_redo(unopened: OpenError) -> OpenError
    ensures { result ≡ as_redo unopened }
{
    match unopened.which {
        FileRole::Image => unopened,
        FileRole::Journal | FileRole::Redo => FileRole::Redo.unopened(unopened.why),
    }
}

/// Opens an image whose journal is missing to read it, and its redo text to change it, which stands in the place of the journal. Both
/// are looked at before one is opened, and again once they are, as by `open_to_forget`. Opening changes nothing.
///
/// # Errors
/// As of `open_to_forget`. Where the redo text is missing too, it is the journal that is missing.
pub fn open_redo_to_forget<W: World>(
    world: &mut W,
    names: &Names,
) -> Result<Looked<W::File>, OpenError>
    requires missing { W.faithful world.old → (W.state world.old).named names.now.journal ≡ None }
    ensures ok { W.faithful world.old → IfOk result (λ l. AreOpenAlone names.now (numbers_read W.number l) (W.state world.old)) }
    ensures locked { W.faithful world.old → IfOk result (AreLockedAs true W.is_locked W.is_shared) }
    ensures why { W.faithful world.old
        → IfErr result (MayRefuseForgetting names.now (W.refusals world.old < W.refusals world.new) (W.state world.old)) }
    ensures calm { W.faithful world.old → OnOk result (W.refusals world.new ≡ W.refusals world.old) }
    ensures same { W.faithful world.old → W.state world.new ≡ W.state world.old }
    ensures survives { W.faithful world.old → NothingNewFound (W.survives world.old) (W.survives world.new) }
    ensures note { W.faithful world.old → W.note world.new ≡ W.note world.old }
    ensures faith { W.faithful world.new ↔ W.faithful world.old }
{
    if let Err(unopened) = look_at_pair(world, names) {
        return Err(unopened);
    }
    let looked = match open_pair(world, names) {
        Ok(looked) => looked,
        Err(unopened) => return Err(unopened),
    };
    match are_ready(world, &looked) {
        Ok(()) => Ok(looked),
        Err(unopened) => Err(as_redo(unopened)),
    }
}
