//! A change on a session whose image isn't to get longer.
ghost use Rattle.std.specs.Prelude.{◌≡◌, ◌<◌, ◌≤◌, List, ℕ, IfErr, MatchResult, length};
ghost use Rattle.bx_patch.specs.Read.{asked_of};
ghost use Rattle.bx_cli_commands.specs.Growth.{KeptStep, Lengthens, LengthensNot, PatchWithin, WithinStep};
ghost use Rattle.bx_cli_commands.specs.Obeys.{Obeys};
ghost use Rattle.bx_cli_commands.specs.Refusal.{IsOwnRefusal};
ghost use Rattle.bx_cli_commands.specs.Standing.{CountsBelow};

use crate::run::change::run_change;
use crate::{Fault, Kept, Reply};
use bx_image::{Change, Device, check};
use bx_journal::Session;
use bx_journal_store::TextStore;
use bx_patch::Patch;
use std::alloc::Allocator;

/// Refuses a change that makes an image of `has` bytes longer.
///
/// # Errors
/// `Grows` exactly where the change can be made of the image, and that is longer then.
pub fn refuse_growth<A: Allocator>(change: &Change<A>, has: u64) -> Result<(), Fault>
    ensures exact { (x : List ℕ) → length x ≡ has → MatchResult result (λ _. LengthensNot change.now x) (Lengthens change.now x) }
    ensures fault { IfErr result (λ e. (wanted : ℕ) × (e ≡ Fault.Grows has wanted)) }
{
    match check(change, has) {
        Ok(wanted) => longer_than(has, wanted),
        Err(_) => Ok(()),
    }
}

/// Refuses a length that is longer than what the image has.
fn longer_than(has: u64, wanted: u64) -> Result<(), Fault>
    ensures { MatchResult result (λ _. wanted ≤ has) (λ e. (e ≡ Fault.Grows has wanted) × (has < wanted)) }
{
    if wanted > has {
        Err(Fault::Grows { has, wanted })
    } else {
        Ok(())
    }
}

/// Makes a change, or refuses it where the image would get longer. The length is asked for before anything is written.
fn change_within<D: Device, T: TextStore, A: Allocator + Clone>(
    session: &mut Session<D, T, A>,
    change: &Change<A>,
) -> Reply
    requires countable { CountsBelow D.Device T.TextStore u64.MAX session.old }
    ensures obeys { Obeys D.Device T.TextStore session.old session.new result (λ s. WithinStep s change.now) }
    ensures asked { IsOwnRefusal result → ⊥ }
{
    match session.image_len() {
        Ok(has) => match refuse_growth(change, has) {
            Ok(()) => run_change(session, change, None),
            Err(growth) => Reply::Refused(growth),
        },
        Err(fault) => Reply::Refused(Fault::Session(fault)),
    }
}

/// Makes the change of a patch, or refuses it where the image disagrees with it, or else would get longer.
fn patch_within<D: Device, T: TextStore, A: Allocator + Clone>(
    session: &mut Session<D, T, A>,
    patch: Patch<A>,
) -> Reply
    requires countable { CountsBelow D.Device T.TextStore u64.MAX session.old }
    ensures obeys { Obeys D.Device T.TextStore session.old session.new result (λ s. PatchWithin A s (asked_of patch)) }
{
    match session.find_other(&patch) {
        Ok(None) => change_within(session, &patch.into_change()),
        Ok(Some(other)) => Reply::Refused(Fault::Disagrees(other)),
        Err(fault) => Reply::Refused(Fault::Session(fault)),
    }
}

/// Makes a change that isn't to make its image longer, or refuses it where it would.
pub fn run_kept<D: Device, T: TextStore, A: Allocator + Clone>(
    session: &mut Session<D, T, A>,
    kept: Kept<A>,
) -> Reply
    requires countable { CountsBelow D.Device T.TextStore u64.MAX session.old }
    ensures obeys { Obeys D.Device T.TextStore session.old session.new result (λ s. KeptStep s kept) }
{
    match kept {
        Kept::Change(change) => change_within(session, &change),
        Kept::Patch(patch) => patch_within(session, patch),
    }
}
