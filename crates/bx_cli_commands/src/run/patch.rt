//! A patch on a session.
ghost use Rattle.std.specs.Prelude.{◌≡◌, IfOk};
ghost use Rattle.bx_patch.specs.Patch.{nothing_asked};
ghost use Rattle.bx_patch.specs.Read.{asked_of};
ghost use Rattle.bx_cli_commands.specs.Obeys.{Obeys};
ghost use Rattle.bx_cli_commands.specs.Run.{AgreedStep, PatchStep};
ghost use Rattle.bx_cli_commands.specs.Standing.{CountsBelow};
ghost use Rattle.bx_cli_commands.specs.Tells.{PatchTells};

use crate::run::change::run_change;
use crate::{Fault, Reply};
use bx_image::{Device, NoMemory};
use bx_journal::Session;
use bx_journal_store::TextStore;
use bx_patch::{Patch, PatchFault};
use core::mem::replace;
use std::alloc::Allocator;

/// Makes the change of a patch, or refuses it where the image disagrees with it. The image is compared before anything is written.
fn patch_if_agreed<D: Device, T: TextStore, A: Allocator + Clone>(
    session: &mut Session<D, T, A>,
    patch: Patch<A>,
) -> Reply
    requires countable { CountsBelow D.Device T.TextStore u64.MAX session.old }
    ensures obeys { Obeys D.Device T.TextStore session.old session.new result (λ s. AgreedStep A s (asked_of patch)) }
    ensures tells { PatchTells session.old result session.new }
{
    match session.find_other(&patch) {
        Ok(None) => run_change(session, &patch.into_change(), None),
        Ok(Some(other)) => Reply::Refused(Fault::Disagrees(other)),
        Err(fault) => Reply::Refused(Fault::Session(fault)),
    }
}

/// A patch that asks nothing.
fn nothing<A: Allocator + Clone>(alloc: &A) -> Result<Patch<A>, NoMemory>
    ensures { IfOk result (λ patch. asked_of patch ≡ nothing_asked) }
{
    Ok(Patch {
        lengths: None,
        expected: Vec::new(alloc.clone().map_err(|_| NoMemory)?),
        written: Vec::new(alloc.clone().map_err(|_| NoMemory)?),
    })
}

/// Leaves a patch that asks nothing, and none of its memory.
fn forget<A: Allocator>(patch: &mut Patch<A>)
    ensures { asked_of patch.new ≡ nothing_asked }
{
    patch.lengths = None;
    patch.expected.clear();
    patch.expected.shrink_to_fit();
    patch.written.clear();
    patch.written.shrink_to_fit();
}

/// Makes the change of a patch that the image agrees with; the patch is left with nothing that it asks.
pub fn run_patch<D: Device, T: TextStore, A: Allocator + Clone>(
    alloc: &A,
    session: &mut Session<D, T, A>,
    patch: &mut Patch<A>,
) -> Reply
    requires countable { CountsBelow D.Device T.TextStore u64.MAX session.old }
    ensures obeys { Obeys D.Device T.TextStore session.old session.new result (λ s. PatchStep A s (asked_of patch.old)) }
    ensures left { asked_of patch.new ≡ nothing_asked }
    ensures tells { PatchTells session.old result session.new }
{
    match nothing(alloc) {
        Ok(left) => {
            let asked = replace(patch, left);
            patch_if_agreed(session, asked)
        }
        Err(_) => {
            forget(patch);
            Reply::Refused(Fault::Patch(PatchFault::NoMemory))
        }
    }
}
