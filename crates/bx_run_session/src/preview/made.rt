//! The change that is proposed of an image, which is only read.
ghost use Rattle.std.specs.Prelude.{◌≡◌, ◌<◌, ◌≤◌, List, ℕ, IfErr, IfOk, MatchResult, OnOk, false, true};
ghost use Rattle.bx_image.specs.Change.{effect};
ghost use Rattle.bx_cli_commands.specs.Growth.{LengthensNot};
ghost use Rattle.bx_patch.specs.Diff.{OnlyReads};
ghost use Rattle.bx_patch.specs.Patch.{Agrees, patch_change};
ghost use Rattle.bx_patch.specs.Read.{asked_of};
ghost use Rattle.bx_cli_commands.specs.declared.command.Command.TheVariants as command;
ghost use Rattle.bx_run_session.specs.Edit.{asked, task_by};
ghost use Rattle.bx_run_session.specs.declared.session.task.Task.TheVariants as task;
ghost use Rattle.bx_run_session.specs.preview.Previews.{MakesFirst, StopsBefore};
ghost use Rattle.bx_run_session.specs.preview.Proposed.{IsProposedChange, IsFitting, IsGrown, IsKeptChange, IsTooLong, IsUnagreed, IsUnkept, HasNoChange, failed_image};

use crate::edit::Edit;
use crate::edit::proposal::Proposal;
use crate::preview::error::PreviewError;
use bx_cli_commands::{Fault, Kept, change_of_plan, refuse_growth};
use bx_dd::{Counts, Plan};
use bx_image::{Change, Device, check};
use bx_journal::SessionFault;
use bx_patch::{DiffFault, Patch, find_other};
use std::alloc::Global;
use std::io::Read;

/// A change, and what dd counted.
#[derive(Drop)]
pub struct Made {
    /// The change.
    pub change: Change,
    /// The counts; none of a change that isn't dd's.
    pub counts: Option<Counts>,
}

/// The change of a patch, with which the image has to agree.
fn change_of_patch<D: Device>(image: &mut D, patch: Patch) -> Result<Change, PreviewError>
    requires countable { D.failures image.old < u64.MAX }
    ensures change { D.faithful image.old
        → IfOk result (λ change. (change ≡ patch_change (asked_of patch)) × Agrees (asked_of patch) (D.image image.old)) }
    ensures stops { D.faithful image.old → IfErr result (IsUnagreed (asked_of patch) (D.image image.old)) }
    ensures reads { OnlyReads D.faithful D.image D.room D.failures D.survives (failed_image result) image.old image.new }
{
    match find_other(image, &patch) {
        Ok(None) => Ok(patch.into_change()),
        Ok(Some(other)) => Err(PreviewError::Refused(Fault::Disagrees(other))),
        Err(_) => Err(PreviewError::Stopped(DiffFault::OldFailed)),
    }
}

/// The change that dd's plan makes of an input, and its counts.
fn make_of_copy<R: Read + Drop>(alloc: Global, plan: Plan, input: R) -> Result<Made, PreviewError>
    ensures made { (x : List ℕ) → IfOk result (λ made. IsProposedChange R.remaining (task.Run (command.Copy plan input)) x made.change made.counts) }
    ensures stops { (x : List ℕ) → IfErr result (HasNoChange R.remaining (task.Run (command.Copy plan input)) x) }
    ensures calm { failed_image result ≡ false }
{
    let mut input = input;
    match change_of_plan(&alloc, &plan, &mut input) {
        Ok(made) => Ok(Made {
            change: made.change,
            counts: Some(made.counts),
        }),
        Err(fault) => Err(PreviewError::Refused(Fault::Dd(fault))),
    }
}

/// The same change, unless it makes the image longer.
fn within<D: Device>(image: &mut D, change: Change) -> Result<Change, PreviewError>
    requires countable { D.failures image.old < u64.MAX }
    ensures change { D.faithful image.old → IfOk result (λ same. (same ≡ change) × LengthensNot change (D.image image.old)) }
    ensures stops { D.faithful image.old → IfErr result (IsGrown change (D.image image.old)) }
    ensures reads { OnlyReads D.faithful D.image D.room D.failures D.survives (failed_image result) image.old image.new }
{
    let has = match image.len() {
        Ok(has) => has,
        Err(_) => return Err(PreviewError::Stopped(DiffFault::OldFailed)),
    };
    match refuse_growth(&change, has) {
        Ok(()) => Ok(change),
        Err(growth) => Err(PreviewError::Refused(growth)),
    }
}

/// The change that isn't to make the image longer, or why there is none.
fn change_of_kept<D: Device>(image: &mut D, kept: Kept) -> Result<Change, PreviewError>
    requires countable { D.failures image.old < u64.MAX }
    ensures change { D.faithful image.old → IfOk result (IsKeptChange kept (D.image image.old)) }
    ensures stops { D.faithful image.old → IfErr result (IsUnkept kept (D.image image.old)) }
    ensures reads { OnlyReads D.faithful D.image D.room D.failures D.survives (failed_image result) image.old image.new }
{
    match kept {
        Kept::Change(change) => within(image, change),
        Kept::Patch(patch) => match change_of_patch(image, patch) {
            Ok(change) => within(image, change),
            Err(why) => Err(why),
        },
    }
}

/// The same, as what is proposed.
fn make_of_kept<D: Device, R: Read + Drop>(image: &mut D, kept: Kept) -> Result<Made, PreviewError>
    requires countable { D.failures image.old < u64.MAX }
    ensures made { D.faithful image.old
        → IfOk result (λ made. IsProposedChange R.remaining (task.Keep kept) (D.image image.old) made.change made.counts) }
    ensures stops { D.faithful image.old → IfErr result (HasNoChange R.remaining (task.Keep kept) (D.image image.old)) }
    ensures reads { OnlyReads D.faithful D.image D.room D.failures D.survives (failed_image result) image.old image.new }
{
    match change_of_kept(image, kept) {
        Ok(change) => Ok(Made {
            change,
            counts: None,
        }),
        Err(why) => Err(why),
    }
}

/// The change that an input asks that was read.
fn make_of_read<D: Device, R: Read + Drop>(
    image: &mut D,
    proposal: Proposal,
) -> Result<Made, PreviewError>
    requires countable { D.failures image.old < u64.MAX }
    ensures made { D.faithful image.old
        → IfOk result (λ made. IsProposedChange R.remaining (task_by proposal) (D.image image.old) made.change made.counts) }
    ensures stops { D.faithful image.old → IfErr result (HasNoChange R.remaining (task_by proposal) (D.image image.old)) }
    ensures reads { OnlyReads D.faithful D.image D.room D.failures D.survives (failed_image result) image.old image.new }
{
    match proposal {
        Proposal::Read(Ok(change)) => Ok(Made {
            change,
            counts: None,
        }),
        Proposal::Read(Err(fault)) => Err(PreviewError::Refused(Fault::Read(fault))),
        Proposal::Patch(patch) => match change_of_patch(image, patch) {
            Ok(change) => Ok(Made {
                change,
                counts: None,
            }),
            Err(why) => Err(why),
        },
        Proposal::Keep(kept) => make_of_kept::<D, R>(image, kept),
    }
}

/// The change that is proposed, and its counts.
fn make_change<D: Device, R: Read + Drop>(
    alloc: Global,
    image: &mut D,
    edit: Edit<R>,
) -> Result<Made, PreviewError>
    requires countable { D.failures image.old < u64.MAX }
    ensures made { D.faithful image.old
        → IfOk result (λ made. IsProposedChange R.remaining (asked edit) (D.image image.old) made.change made.counts) }
    ensures stops { D.faithful image.old → IfErr result (HasNoChange R.remaining (asked edit) (D.image image.old)) }
    ensures reads { OnlyReads D.faithful D.image D.room D.failures D.survives (failed_image result) image.old image.new }
{
    match edit {
        Edit::Read(read) => make_of_read::<D, R>(image, read.into_proposal()),
        Edit::Copy { plan, input } => make_of_copy(alloc, plan, input),
    }
}

/// Whether an image that keeps its length has room for another one.
fn has_room(keeps: bool, has: u64, wanted: u64) -> Result<(), PreviewError>
    ensures { MatchResult result (λ _. keeps ≡ true → wanted ≤ has)
        (λ e. (e ≡ PreviewError.Unfitting has wanted) × (keeps ≡ true) × (has < wanted)) }
{
    if keeps && has < wanted {
        Err(PreviewError::Unfitting { has, wanted })
    } else {
        Ok(())
    }
}

/// Refuses a change that no image can have, or for which an image that keeps its length has no room.
fn fit<D: Device>(image: &mut D, change: &Change, keeps: bool) -> Result<(), PreviewError>
    requires countable { D.failures image.old < u64.MAX }
    ensures fits { D.faithful image.old → OnOk result (IsFitting change.now keeps (D.image image.old)) }
    ensures stops { D.faithful image.old → IfErr result (IsTooLong change.now keeps (D.image image.old)) }
    ensures reads { OnlyReads D.faithful D.image D.room D.failures D.survives (failed_image result) image.old image.new }
{
    let has = match image.len() {
        Ok(has) => has,
        Err(_) => return Err(PreviewError::Stopped(DiffFault::OldFailed)),
    };
    match check(change, has) {
        Ok(wanted) => has_room(keeps, has, wanted),
        Err(_) => Err(PreviewError::Refused(Fault::Session(SessionFault::TooLarge))),
    }
}

/// The change that is proposed, and its counts, where it can be made of the image.
pub fn make_fitting<D: Device, R: Read + Drop>(
    alloc: Global,
    image: &mut D,
    keeps: bool,
    edit: Edit<R>,
) -> Result<Made, PreviewError>
    requires countable { D.failures image.old ≡ 0 }
    ensures made { D.faithful image.old
        → IfOk result (λ made. MakesFirst R.remaining (asked edit) (D.image image.old) made.counts (effect made.change (D.image image.old))) }
    ensures fits { D.faithful image.old → IfOk result (λ made. IsFitting made.change keeps (D.image image.old)) }
    ensures stops { D.faithful image.old → IfErr result (StopsBefore R.remaining (asked edit) keeps (D.image image.old)) }
    ensures reads { OnlyReads D.faithful D.image D.room D.failures D.survives (failed_image result) image.old image.new }
{
    let made = match make_change(alloc, image, edit) {
        Ok(made) => made,
        Err(why) => return Err(why),
    };
    match fit(image, &made.change, keeps) {
        Ok(()) => Ok(made),
        Err(why) => Err(why),
    }
}
