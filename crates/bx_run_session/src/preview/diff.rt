//! The patch from one named file to another.
ghost use Rattle.std.specs.Prelude.{◌≡◌, ◌↔◌, ◌<◌, MatchResult, IfErr, OnOk, true};
ghost use Rattle.std.specs.Io.KnownBytes.{Appends};
ghost use Rattle.bx_patch.specs.Diff.{IsFaultFor, WritesPrefix, fails};
ghost use Rattle.bx_patch.specs.Text.{patch_text};
ghost use Rattle.bx_world.specs.files.Reading.{StaysSeen};
ghost use Rattle.bx_run_model.specs.Failures.{is_read_failure};
ghost use Rattle.bx_run_session.specs.preview.Diffs.{StopsDiff, WritesDiff, is_diff_failed};

use crate::preview::named::{close_both, lend_named};
use bx_patch::{DiffFault, Extent, Unknown, write_patch};
use bx_world::{OpenFailure, World};
use std::alloc::Global;
use std::io::Write;

/// Why the patch from one named file to another is not whole.
#[derive(Clone, Copy, Debug, PartialEq, Eq)]
pub enum DiffError {
    /// The first file was not opened.
    OldUnopened(OpenFailure),
    /// The second file was not opened.
    NewUnopened(OpenFailure),
    /// The comparison stopped.
    Stopped(DiffFault),
}

/// Writes the patch from one device to another, and takes both back, last the one that failed.
fn compare<W: World, O: Write>(
    world: &mut W,
    alloc: Global,
    old: W::Image,
    new: W::Image,
    extent: Extent,
    out: &mut O,
) -> Result<(), DiffFault>
    requires old_countable { W.Image.failures old ≡ 0 }
    requires new_countable { W.Image.failures new ≡ 0 }
    ensures text { W.Image.faithful old → W.Image.faithful new
        → OnOk result (Appends (O.contents out.old) (O.contents out.new) (patch_text extent (W.Image.image old) (W.Image.image new))) }
    ensures part { W.Image.faithful old → W.Image.faithful new
        → IfErr result (WritesPrefix (O.contents out.old) (O.contents out.new) (patch_text extent (W.Image.image old) (W.Image.image new))) }
    ensures fault { W.Image.faithful old → W.Image.faithful new → IfErr result (IsFaultFor (W.Image.image old) (W.Image.image new)) }
    ensures failed { W.faithful world.old → fails is_read_failure result ≡ true → W.refusals world.old < W.refusals world.new }
    ensures seen { W.faithful world.old → StaysSeen W.state W.survives world.old world.new }
    ensures faith { W.faithful world.new ↔ W.faithful world.old }
{
    let (mut old, mut new) = (old, new);
    let outcome = write_patch(&alloc, &mut old, &mut new, out, extent, &Unknown);
    close_both(world, old, new, &outcome);
    outcome
}

/// Writes the patch from one named file to another. Both are opened before anything is read, and only read.
pub fn write_diff<W: World, O: Write>(
    world: &mut W,
    alloc: Global,
    old: &str,
    new: &str,
    extent: Extent,
    out: &mut O,
) -> Result<(), DiffError>
    ensures diffs { W.faithful world.old → MatchResult result
        (λ _. WritesDiff extent old.now new.now (W.state world.old) (O.contents out.old) (O.contents out.new))
        (StopsDiff extent old.now new.now (W.refusals world.old < W.refusals world.new) (W.state world.old)
        (O.contents out.old) (O.contents out.new)) }
    ensures failed { W.faithful world.old → is_diff_failed result ≡ true → W.refusals world.old < W.refusals world.new }
    ensures seen { W.faithful world.old → StaysSeen W.state W.survives world.old world.new }
    ensures faith { W.faithful world.new ↔ W.faithful world.old }
{
    let first = match lend_named(world, old) {
        Ok(device) => device,
        Err(why) => return Err(DiffError::OldUnopened(why)),
    };
    let second = match lend_named(world, new) {
        Ok(device) => device,
        Err(why) => return Err(DiffError::NewUnopened(why)),
    };
    match compare(world, alloc, first, second, extent, out) {
        Ok(()) => Ok(()),
        Err(fault) => Err(DiffError::Stopped(fault)),
    }
}
