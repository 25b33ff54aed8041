//! A change with which a history begins anew: an image that is missing is made, the files are opened, their history is dropped, and the
//! change is made on the image alone.
ghost use Rattle.std.specs.Prelude.{◌≡◌, ◌↔◌, ◌<◌, ◌≤◌, List, ℕ, Option, None, Some, IfSome, true};
ghost use Rattle.bx_journal.specs.Images.{Images};
ghost use Rattle.bx_cli_commands.specs.Refusal.{IsWholeRefusal};
ghost use Rattle.bx_cli_commands.specs.Run.{is_failure};
ghost use Rattle.bx_cli_commands.specs.declared.command.Reply.TheVariants.{Refused};
ghost use Rattle.bx_cli_commands.specs.declared.fault.Fault.TheVariants.{OpenFailed};
ghost use Rattle.bx_world.specs.World.{NothingNewFound, SystemState, number_if};
ghost use Rattle.bx_world.specs.declared.files.unopened.FileRole.TheVariants.{Image};
ghost use Rattle.bx_world.specs.declared.files.unopened.OpenFailure.TheVariants.{System};
ghost use Rattle.bx_world.specs.files.Files.{AreAllThere, LeavesFiles, MakesImage};
ghost use Rattle.bx_world.specs.files.Fit.{AreFit};
ghost use Rattle.bx_world.specs.files.Reasons.{MayRefuseOpening};
ghost use Rattle.bx_run_session.specs.session.Changes.{SaysRecovered};
ghost use Rattle.bx_run_session.specs.session.Contents.{Holds};
ghost use Rattle.bx_run_session.specs.session.Guarded.{WereOpened};
ghost use Rattle.bx_run_session.specs.session.Named.{AreNotLeft, ClearsNote, KeepsOthers, NothingDone, SurvivesTask, contents_of, is_missing, no_change};
ghost use Rattle.bx_run_session.specs.session.Task.{IsNearTask};
ghost use Rattle.bx_run.specs.run.Changing.{DoesChange};
ghost use Rattle.bx_run.specs.run.Outcome.{first_unopened};
ghost use Rattle.bx_run.specs.renew.Renewal.{ClearsImage, DoesRenew, EndsNote, IsDroppable, IsOfAnother, IsRefusedBehind, IsRefusedRenewal, JudgesOpening, KeepsNamed, MayDrop, MayNotOpenToDrop, NothingRenewed, OpensToDrop, RenewsFiles, SurvivesRenewal, SurvivesRenewing, TellsOpening, is_renewed_failed, only_told};
ghost use Rattle.bx_run_model.specs.Failures.{CountsFailure};
ghost use Rattle.bx_run_model.specs.RunState.{run_state_beside};

use crate::forget::{forget_files, take_note};
use bx_cli_commands::{Command, Fault, Reply};
use bx_journal::SessionFault;
use bx_run_report::ReportError;
use bx_run_session::{Answer, Task, change_files, is_whole_refusal};
use bx_world::{
    FileRole, Guard, Names, OpenError, OpenFailure, Refusal, World, make_missing_image,
    unmake_missing_image,
};
use std::alloc::Global;
use std::io::Read;

/// What became of a change with which a history begins anew, by the step that it ended in.
#[derive(Clone, Copy, Debug, PartialEq, Eq)]
pub enum Renewed {
    /// The files were not opened to be changed, or what is unfinished was not recovered: the history is kept.
    Kept(Answer),
    /// The history was not dropped, and the change was not asked for.
    Undropped(ReportError),
    /// The history was dropped, and this is the answer to the change.
    Changed(Answer),
}

/// Whether the history may be dropped behind an opening with this reply.
fn is_droppable(reply: &Reply) -> bool
    ensures { (result ≡ true) ↔ IsDroppable reply.now }
{
    match reply {
        Reply::Refused(Fault::Session(SessionFault::LengthDiffers { .. })) => true,
        Reply::Refused(
            Fault::Session(SessionFault::Damaged { line } | SessionFault::RedoDamaged { line }),
        ) => *line > 1,
        Reply::Refused(_) => false,
        Reply::Changed { .. }
        | Reply::Copied { .. }
        | Reply::Undone { .. }
        | Reply::Redone { .. } => true,
    }
}

/// Whether a task wasn't begun as the image is another one.
fn is_of_another(unopened: Option<OpenError>) -> bool
    ensures { (result ≡ true) ↔ IsOfAnother unopened }
{
    match unopened {
        Some(
            OpenError {
                which: FileRole::Image,
                why: OpenFailure::Another,
            },
        ) => true,
        Some(
            OpenError {
                which: FileRole::Journal | FileRole::Redo,
                why: OpenFailure::Another,
            },
        )
        | Some(
            OpenError {
                why: OpenFailure::System(_) | OpenFailure::Unfit(_) | OpenFailure::Alias,
                ..
            },
        )
        | None => false,
    }
}

/// Whether the history may be dropped behind an opening: it was done, or refused for texts that are an image's, or for another image.
fn may_drop(answer: &Answer) -> bool
    ensures { (result ≡ true) ↔ MayDrop answer.now }
{
    is_droppable(&answer.reply) || is_of_another(answer.unopened)
}

/// The same, but what is unfinished is recovered only onto an image that the note tells to be the one.
fn only_told(guard: Guard) -> Guard
    ensures { result ≡ only_told guard }
{
    Guard {
        mounted: guard.mounted,
        anyway: false,
        told: true,
        named: guard.named,
    }
}

/// Opens the files to change them, by an undo of no change: what is unfinished is recovered, where the note tells that the image is the
/// one.
fn open_to_drop<W: World, R: Read + Drop>(
    world: &mut W,
    alloc: Global,
    names: &Names,
    guard: Guard,
) -> Answer
    requires free { W.faithful world.old → (W.state world.old).lent ≡ None }
    ensures does { W.faithful world.old → DoesChange R.remaining names.now no_change result (W.state world.old) (W.state world.new) }
    ensures opens { W.faithful world.old → MayDrop result
        → OpensToDrop R.remaining names.now result (W.state world.old) (W.state world.new) }
    ensures made { W.faithful world.old → MayDrop result
        → (s : Images) → Holds (contents_of names.now (W.state world.old)) s → IsWholeRefusal result.reply → ⊥ }
    ensures survives { W.faithful world.old
        → SurvivesTask R.remaining names.now no_change result (W.state world.old) (W.state world.new)
        (W.survives world.old) (W.survives world.new) }
    ensures unopened { W.faithful world.old
        → IfSome result.unopened (λ _. NothingDone result.reply result.how (W.state world.old) (W.state world.new)) }
    ensures why_unopened { W.faithful world.old
        → IfSome result.unopened (MayNotOpenToDrop R.remaining guard (W.note world.old) names.now (W.refusals world.old < W.refusals world.new)
        (W.state world.old)) }
    ensures fit { W.faithful world.old → WereOpened result.unopened → AreFit names.now guard.mounted (W.state world.old) }
    ensures opened { W.faithful world.old → MayDrop result → WereOpened result.unopened }
    ensures judged { W.faithful world.old → JudgesOpening R.remaining guard (W.note world.old) names.now (W.state world.old) result }
    ensures counted { W.faithful world.old → CountsFailure (is_failure result.reply) (W.refusals world.old) (W.refusals world.new) }
    ensures note { W.faithful world.old → ClearsNote (IsWholeRefusal result.reply) result.unopened result.how
        (is_missing names.now.journal (W.state world.old)) (W.refusals world.old < W.refusals world.new) (W.note world.old) (W.note world.new) }
    ensures others { W.faithful world.old → KeepsOthers names.now (W.state world.old) (W.state world.new) }
    ensures texts { W.faithful world.old → AreNotLeft names.now (W.state world.old) (W.state world.new) (W.state world.new) }
    ensures streams { W.faithful world.old → SaysRecovered result.how (W.state world.old) (W.state world.new) }
    ensures faith { W.faithful world.new ↔ W.faithful world.old }
{
    change_files(
        world,
        alloc,
        names,
        only_told(guard),
        Task::<R>::Run(Command::Undo { k: 0 }),
    )
}

/// Changes an image with whose change the history begins anew: opens the files, which recovers what is unfinished and makes those that
/// are missing, drops the history, a redo text alone too, and does the task on the image alone. Onto an image that the note doesn't tell
/// to be the one nothing is recovered: what is unfinished is dropped with the history, as `forget_files` judges, and the change is made on
/// what stands there. The history is kept where a file may not be changed.
fn take_steps<W: World, R: Read + Drop>(
    world: &mut W,
    alloc: Global,
    names: &Names,
    guard: Guard,
    task: Task<R>,
) -> Renewed
    requires near { IsNearTask task }
    requires free { W.faithful world.old → (W.state world.old).lent ≡ None }

    // The change is done on the image alone, so that the history is this change; or the step that was refused leaves all as it was.
    ensures does { W.faithful world.old → (written : Option (List ℕ)) → DoesRenew R.remaining names.now guard task result
        (run_state_beside W.state W.refusals W.note written world.old) (run_state_beside W.state W.refusals W.note written world.new) }

    // So it is behind a loss of power.
    ensures survives { W.faithful world.old
        → SurvivesRenewal R.remaining names.now task result (W.state world.old) (W.state world.new)
        (W.survives world.old) (W.survives world.new) }

    // Files that are not opened are as they were, and why they are not; others may be changed.
    ensures refused { W.faithful world.old → IfSome (first_unopened result) (λ _. IsRefusedRenewal result) }
    ensures unopened { W.faithful world.old → IfSome (first_unopened result) (NothingRenewed result (W.state world.old) (W.state world.new)) }
    ensures why_unopened { W.faithful world.old → IfSome (first_unopened result)
        (MayRefuseOpening names.now guard.mounted true (W.refusals world.old < W.refusals world.new) (W.state world.old)) }
    ensures fit { W.faithful world.old → first_unopened result ≡ None → AreFit names.now guard.mounted (W.state world.old) }

    // The fault of a device is answered only where a call was refused that is counted.
    ensures failed { W.faithful world.old → is_renewed_failed result ≡ true → W.refusals world.old < W.refusals world.new }

    // No other file is changed, and nothing is written but what was recovered.
    ensures others { W.faithful world.old → KeepsNamed names.now (W.state world.old) (W.state world.new) }
    ensures streams { W.faithful world.old → TellsOpening result (W.state world.old) (W.state world.new) }
    ensures free { W.faithful world.old → (W.state world.new).lent ≡ None }
    ensures faith { W.faithful world.new ↔ W.faithful world.old }
{
    let opened = open_to_drop::<W, R>(world, alloc, names, guard);
    if !may_drop(&opened) {
        return Renewed::Kept(opened);
    }
    // The line on the image stays for the change, which writes it anew.
    match forget_files(world, alloc, names, guard, false) {
        Ok(()) => Renewed::Changed(change_files(world, alloc, names, guard, task)),
        Err(unseen) => Renewed::Undropped(unseen),
    }
}

/// Whether a change with which a history begins anew was refused, and no step of it stopped in the middle.
fn is_refused(renewed: &Renewed) -> bool
    ensures { (result ≡ true) ↔ IsRefusedRenewal renewed.now }
{
    match renewed {
        Renewed::Kept(answer) | Renewed::Changed(answer) => is_whole_refusal(&answer.reply),
        Renewed::Undropped(ReportError::Stopped(Fault::Session(SessionFault::Interrupted))) =>
            false,
        Renewed::Undropped(_) => true,
    }
}

/// The files aren't opened, as the system refused to make an image that is missing.
fn unmade(refusal: Refusal) -> Answer
    ensures { result ≡ record { reply = Refused OpenFailed; unopened = Some (record { which = Image; why = System refusal }); how = None } }
{
    Answer {
        reply: Reply::Refused(Fault::OpenFailed),
        unopened: Some(OpenError {
            which: FileRole::Image,
            why: OpenFailure::System(refusal),
        }),
        how: None,
    }
}

/// Takes the image away again that was made for a change, where that is refused.
fn clear_image<W: World>(world: &mut W, names: &Names, made: Option<W::File>, renewed: &Renewed)
    requires made { W.faithful world.old → IfSome (number_if W.number made) (λ n. (W.state world.old).before ≤ n) }
    requires named { W.faithful world.old
        → IfSome (number_if W.number made) (λ n. (W.state world.old).named names.now.image ≡ Some n) }
    ensures clears { W.faithful world.old → ClearsImage renewed.now (number_if W.number made) (W.state world.old) (W.state world.new) }
    ensures left { W.faithful world.old → IsRefusedRenewal renewed.now → (first begun : SystemState) → AreAllThere first
        → MakesImage names.now.image (number_if W.number made) first begun → LeavesFiles begun (W.state world.old)
        → LeavesFiles first (W.state world.new) }
    ensures counted { W.faithful world.old → W.refusals world.new ≡ W.refusals world.old }
    ensures survives { W.faithful world.old → NothingNewFound (W.survives world.old) (W.survives world.new) }
    ensures note { W.faithful world.old → W.note world.new ≡ W.note world.old }
    ensures faith { W.faithful world.new ↔ W.faithful world.old }
{
    if let Some(image) = made {
        if is_refused(renewed) {
            unmake_missing_image(world, names, &image);
        }
    }
}

/// Whether the change was refused behind the drop of the history.
fn is_refused_behind(renewed: &Renewed) -> bool
    ensures { (result ≡ true) ↔ IsRefusedBehind renewed.now }
{
    match renewed {
        Renewed::Changed(answer) => is_whole_refusal(&answer.reply),
        Renewed::Kept(_) | Renewed::Undropped(_) => false,
    }
}

/// Ends a change: where it is refused behind the drop of the history the note is dropped too, and where it is refused the image is taken
/// away again that was made for it.
fn finish<W: World>(world: &mut W, names: &Names, made: Option<W::File>, renewed: &Renewed)
    requires made { W.faithful world.old → IfSome (number_if W.number made) (λ n. (W.state world.old).before ≤ n) }
    requires named { W.faithful world.old
        → IfSome (number_if W.number made) (λ n. (W.state world.old).named names.now.image ≡ Some n) }
    ensures clears { W.faithful world.old → ClearsImage renewed.now (number_if W.number made) (W.state world.old) (W.state world.new) }
    ensures left { W.faithful world.old → IsRefusedRenewal renewed.now → (first begun : SystemState) → AreAllThere first
        → MakesImage names.now.image (number_if W.number made) first begun → LeavesFiles begun (W.state world.old)
        → LeavesFiles first (W.state world.new) }
    ensures note { W.faithful world.old
        → EndsNote renewed.now (W.refusals world.old < W.refusals world.new) (W.note world.old) (W.note world.new) }
    ensures counted { W.faithful world.old → W.refusals world.old ≤ W.refusals world.new }
    ensures survives { W.faithful world.old → NothingNewFound (W.survives world.old) (W.survives world.new) }
    ensures faith { W.faithful world.new ↔ W.faithful world.old }
{
    let is_behind = is_refused_behind(renewed);
    take_note(world, is_behind);
    clear_image(world, names, made, renewed);
}

/// Changes an image with whose change the history begins anew. One that is missing is made first, so that its texts are judged beside it,
/// and taken away again where the change is refused. Then the files are opened, the history is dropped, and the change is made on the
/// image alone; what is unfinished is recovered only onto an image that the note tells to be the one. The files stay
/// locked from the first step to the last.
pub fn renew_files<W: World, R: Read + Drop>(
    world: &mut W,
    alloc: Global,
    names: &Names,
    guard: Guard,
    task: Task<R>,
) -> Renewed
    requires near { IsNearTask task }
    requires free { W.faithful world.old → (W.state world.old).lent ≡ None }

    // The change is done on the image alone, so that the history is this change; or the step that was refused leaves all as it was, and an
    // image that was missing is missing again.
    ensures does { W.faithful world.old → (written : Option (List ℕ)) → RenewsFiles R.remaining names.now guard task result
        (run_state_beside W.state W.refusals W.note written world.old) (run_state_beside W.state W.refusals W.note written world.new) }

    // So it is behind a loss of power.
    ensures survives { W.faithful world.old
        → SurvivesRenewing R.remaining names.now task result (W.state world.old) (W.state world.new)
        (W.survives world.old) (W.survives world.new) }

    // Files that are not opened are as they were, and why they are not; others may be changed.
    ensures unopened { W.faithful world.old → IfSome (first_unopened result) (NothingRenewed result (W.state world.old) (W.state world.new)) }
    ensures why_unopened { W.faithful world.old → IfSome (first_unopened result)
        (MayRefuseOpening names.now guard.mounted true (W.refusals world.old < W.refusals world.new) (W.state world.old)) }
    ensures fit { W.faithful world.old → first_unopened result ≡ None → AreFit names.now guard.mounted (W.state world.old) }

    // The fault of a device is answered only where a call was refused that is counted.
    ensures failed { W.faithful world.old → is_renewed_failed result ≡ true → W.refusals world.old < W.refusals world.new }

    // No other file is changed, and nothing is written but what was recovered.
    ensures others { W.faithful world.old → KeepsNamed names.now (W.state world.old) (W.state world.new) }
    ensures streams { W.faithful world.old → TellsOpening result (W.state world.old) (W.state world.new) }
    ensures free { W.faithful world.old → (W.state world.new).lent ≡ None }
    ensures faith { W.faithful world.new ↔ W.faithful world.old }
{
    // So that nobody comes between the drop of the history and the change.
    world.keep_locks();
    let made = match make_missing_image(world, names) {
        Ok(made) => made,
        Err(refusal) => {
            world.pass_locks();
            return Renewed::Kept(unmade(refusal));
        }
    };
    let renewed = take_steps(world, alloc, names, guard, task);
    finish(world, names, made, &renewed);
    world.pass_locks();
    renewed
}
