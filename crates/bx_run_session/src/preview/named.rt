//! Named files that are only read, lent as devices and taken back.
ghost use Rattle.std.specs.Prelude.{◌≡◌, ◌⊎◌, ◌↔◌, ◌+◌, ◌<◌, Err, IfErr, IfOk, OnOk};
ghost use Rattle.bx_world.specs.World.{MayBeRead, stat_named};
ghost use Rattle.bx_world.specs.files.Reading.{AreBytesOf, MayNotRead, StaysSeen};
ghost use Rattle.bx_run_session.specs.preview.Previews.{MayNotOpen};

use bx_patch::DiffFault;
use bx_world::{OpenFailure, Stat, World, lend_alone, look_alone, read_unfit};

/// What the system tells of a file, which may be one that is read; none where the name leads to no file.
pub fn look_if_there<W: World>(world: &mut W, name: &str) -> Result<Option<Stat>, OpenFailure>
    ensures found { W.faithful world.old → IfOk result (λ found. stat_named (W.state world.old) name.now ≡ found) }
    ensures may { W.faithful world.old → OnOk result (MayBeRead (W.state world.old) name.now) }
    ensures why { W.faithful world.old
        → IfErr result (MayNotOpen name.now (W.refusals world.old < W.refusals world.new) (W.state world.old)) }
    ensures calm { W.faithful world.old → OnOk result (W.refusals world.new ≡ W.refusals world.old) }
    ensures seen { W.faithful world.old → StaysSeen W.state W.survives world.old world.new }
    ensures faith { W.faithful world.new ↔ W.faithful world.old }
{
    let look = match world.look(name) {
        Ok(look) => look,
        Err(refusal) => return Err(OpenFailure::System(refusal)),
    };
    let Some(found) = look.found else {
        return Ok(None);
    };
    match read_unfit(&found) {
        None => Ok(Some(found)),
        Some(unfit) => Err(OpenFailure::Unfit(unfit)),
    }
}

/// Opens a file to read it, a regular one or a block device, locks it beside others that read it, and lends it.
pub fn lend_named<W: World>(world: &mut W, name: &str) -> Result<W::Image, OpenFailure>
    ensures failures { IfOk result (λ d. W.Image.failures d ≡ 0) }
    ensures faithful { W.faithful world.old → IfOk result (λ d. W.Image.faithful d) }
    ensures bytes { W.faithful world.old → IfOk result (λ d. AreBytesOf name.now (W.state world.old) (W.Image.image d)) }
    ensures why { W.faithful world.old
        → IfErr result (MayNotRead name.now (W.refusals world.old < W.refusals world.new) (W.state world.old)) }
    ensures calm { W.faithful world.old → OnOk result (W.refusals world.new ≡ W.refusals world.old) }
    ensures seen { W.faithful world.old → StaysSeen W.state W.survives world.old world.new }
    ensures faith { W.faithful world.new ↔ W.faithful world.old }
{
    if let Err(why) = look_alone(world, name) {
        return Err(why);
    }
    lend_alone(world, name)
}

/// Both devices, last the one that failed.
fn in_order<D: Drop>(old: D, new: D, outcome: &Result<(), DiffFault>) -> (D, D)
    ensures both { (result ≡ (old, new)) ⊎ (result ≡ (new, old)) }
    ensures last { outcome.now ≡ Err DiffFault.NewFailed → result ≡ (old, new) }
{
    match outcome {
        Err(DiffFault::NewFailed) => (old, new),
        Ok(()) | Err(_) => (new, old),
    }
}

/// Takes a device back that was lent to be read by itself, and counts its failed calls; its file is closed.
fn close_named<W: World>(world: &mut W, image: W::Image)
    ensures counted { W.faithful world.old → W.refusals world.new ≡ W.refusals world.old + W.Image.failures image }
    ensures seen { W.faithful world.old → StaysSeen W.state W.survives world.old world.new }
    ensures faith { W.faithful world.new ↔ W.faithful world.old }
{
    let journal = world.lend_no_text();
    let redo = world.lend_no_text();
    world.close_read(image, journal, redo);
}

/// Takes two devices back that were compared, and counts their failed calls.
pub fn close_both<W: World>(
    world: &mut W,
    old: W::Image,
    new: W::Image,
    outcome: &Result<(), DiffFault>,
)
    ensures counted { W.faithful world.old
        → W.refusals world.new ≡ W.refusals world.old + (W.Image.failures old + W.Image.failures new) }
    ensures seen { W.faithful world.old → StaysSeen W.state W.survives world.old world.new }
    ensures faith { W.faithful world.new ↔ W.faithful world.old }
{
    // The failed one last: its failure is then the one that a hint names.
    let (first, last) = in_order(old, new, outcome);
    close_named(world, first);
    close_named(world, last);
}
