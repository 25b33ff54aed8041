//! How many bytes of a file a seek passes.
ghost use Rattle.std.specs.Prelude.{◌≡◌, ◌↔◌, ◌≤◌, length};
ghost use Rattle.bx_cli_commands.specs.jobs.Passing.{CanPass};
ghost use Rattle.bx_world.specs.World.{NothingNewFound};

use bx_cli_commands::Skip;
use bx_world::World;

/// How many of the bytes that are skipped a seek passes in an open file. One whose length isn't known is read from its first
/// byte on, and a length that changes nothing isn't asked for.
pub fn passed_of<W: World>(world: &mut W, file: &W::File, skip: Skip) -> u64
    ensures skipped { CanPass result skip }
    ensures within { W.faithful world.old → result ≤ length ((W.state world.old).bytes (W.number file.now)) }
    ensures same { W.faithful world.old → W.state world.new ≡ W.state world.old }
    ensures counted { W.faithful world.old → W.refusals world.new ≡ W.refusals world.old }
    ensures survives { W.faithful world.old → NothingNewFound (W.survives world.old) (W.survives world.new) }
    ensures faith { W.faithful world.new ↔ W.faithful world.old }
{
    if skip.seekable(u64::MAX) == 0 {
        return skip.seekable(0);
    }
    match world.length(file) {
        Some(length) => skip.seekable(length),
        None => skip.seekable(0),
    }
}
