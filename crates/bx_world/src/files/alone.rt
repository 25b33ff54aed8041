//! A file that is opened by itself to be read, as an image without texts.
ghost use Rattle.std.specs.Prelude.{◌≡◌, ◌↔◌, ◌<◌, None, Some, IfErr, IfOk, OnOk};
ghost use Rattle.bx_world.specs.World.{MayBeRead};
ghost use Rattle.bx_world.specs.files.Reading.{AreBytesOf, IsReadable, MayNotRead, StaysSeen};
ghost use Rattle.bx_world.specs.files.Reasons.{IsReason, NoneUnfit};

use crate::files::unopened::OpenFailure;
use crate::{Refusal, Stat, World, read_unfit};

/// What the system tells of a file, which may be one that is read.
pub fn look_alone<W: World>(world: &mut W, name: &str) -> Result<Stat, OpenFailure>
    ensures fit { W.faithful world.old → IfOk result (λ found. IsReadable name.now found (W.state world.old)) }
    ensures why { W.faithful world.old
        → IfErr result (MayNotRead name.now (W.refusals world.old < W.refusals world.new) (W.state world.old)) }
    ensures calm { W.faithful world.old → OnOk result (W.refusals world.new ≡ W.refusals world.old) }
    ensures seen { W.faithful world.old → StaysSeen W.state W.survives world.old world.new }
    ensures note { W.faithful world.old → W.note world.new ≡ W.note world.old }
    ensures faith { W.faithful world.new ↔ W.faithful world.old }
{
    let look = match world.look(name) {
        Ok(look) => look,
        Err(refusal) => return Err(OpenFailure::System(refusal)),
    };
    let Some(found) = look.found else {
        return Err(OpenFailure::System(Refusal::Missing));
    };
    match read_unfit(&found) {
        None => Ok(found),
        Some(unfit) => Err(OpenFailure::Unfit(unfit)),
    }
}

/// Opens a file that was looked at to read it, and locks it beside others that read it.
pub fn open_alone<W: World>(world: &mut W, name: &str) -> Result<W::File, OpenFailure>
    requires may { W.faithful world.old → MayBeRead (W.state world.old) name.now }
    ensures named { W.faithful world.old → IfOk result (λ f. (W.state world.old).named name.now ≡ Some (W.number f)) }
    ensures shared { W.faithful world.old → IfOk result (λ f. W.is_shared f) }
    ensures why { W.faithful world.old → IfErr result (IsReason ((W.state world.old).named name.now ≡ None) NoneUnfit ⊥
        (W.refusals world.old < W.refusals world.new)) }
    ensures calm { W.faithful world.old → OnOk result (W.refusals world.new ≡ W.refusals world.old) }
    ensures seen { W.faithful world.old → StaysSeen W.state W.survives world.old world.new }
    ensures note { W.faithful world.old → W.note world.new ≡ W.note world.old }
    ensures faith { W.faithful world.new ↔ W.faithful world.old }
{
    let mut file = match world.open_image_to_read(name) {
        Ok(file) => file,
        Err(refusal) => return Err(OpenFailure::System(refusal)),
    };
    match world.lock_shared(name, &mut file) {
        Ok(()) => Ok(file),
        Err(refusal) => Err(OpenFailure::System(refusal)),
    }
}

/// Opens a file that was looked at, locks it beside others that read it, and lends it.
pub fn lend_alone<W: World>(world: &mut W, name: &str) -> Result<W::Image, OpenFailure>
    requires may { W.faithful world.old → MayBeRead (W.state world.old) name.now }
    ensures failures { IfOk result (λ d. W.Image.failures d ≡ 0) }
    ensures faithful { W.faithful world.old → IfOk result (λ d. W.Image.faithful d) }
    ensures bytes { W.faithful world.old → IfOk result (λ d. AreBytesOf name.now (W.state world.old) (W.Image.image d)) }
    ensures why { W.faithful world.old → IfErr result (IsReason ((W.state world.old).named name.now ≡ None) NoneUnfit ⊥
        (W.refusals world.old < W.refusals world.new)) }
    ensures calm { W.faithful world.old → OnOk result (W.refusals world.new ≡ W.refusals world.old) }
    ensures seen { W.faithful world.old → StaysSeen W.state W.survives world.old world.new }
    ensures note { W.faithful world.old → W.note world.new ≡ W.note world.old }
    ensures faith { W.faithful world.new ↔ W.faithful world.old }
{
    let file = match open_alone(world, name) {
        Ok(file) => file,
        Err(why) => return Err(why),
    };
    match world.lend_image_to_read(file) {
        Ok(device) => Ok(device),
        Err(refusal) => Err(OpenFailure::System(refusal)),
    }
}
