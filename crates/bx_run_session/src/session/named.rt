//! One task on the files of these names.
ghost use Rattle.std.specs.Prelude.{◌≡◌, ◌↔◌, ◌<◌, ◌≤◌, ℕ, None, IfSome, true, false};
ghost use Rattle.bx_journal.specs.Images.{Images};
ghost use Rattle.bx_cli_commands.specs.Refusal.{IsWholeRefusal};
ghost use Rattle.bx_cli_commands.specs.Replies.{stands_by};
ghost use Rattle.bx_cli_commands.specs.Run.{Unfailed, is_failure};
ghost use Rattle.bx_world.specs.World.{AreThreeFiles, KeepsStreams, NothingNewFound, SystemState};
ghost use Rattle.bx_world.specs.files.Files.{AreAllThere, HasMade, IsOneOfMade, IsOneOfMadeTexts, LeavesFiles, TakesMade, TakesOnly};
ghost use Rattle.bx_world.specs.files.Fit.{AreFit};
ghost use Rattle.bx_world.specs.files.Numbers.{numbers_of};
ghost use Rattle.bx_run_session.specs.session.Contents.{DoesFound, FoundIn, Holds, StepsRead, StepsTo, TellsUnfinished};
ghost use Rattle.bx_run_session.specs.session.Guarded.{WasJudged, WereOpened};
ghost use Rattle.bx_run_session.specs.session.Named.{AreNotLeft, ClearsNote, LeadTo, IsUnrecovered, KeepsOthers, LeavesRefused, MayRefuse, MayRefuseTask, NothingDone, SurvivesTask, contents_of, is_missing, no_change};
ghost use Rattle.bx_run_model.specs.Failures.{CountsFailure};
ghost use Rattle.bx_run_session.specs.session.Task.{IsNearTask};

use crate::session::lent::{Done, with_devices};
use crate::session::refusal::{is_unrecovered, is_whole_refusal};
use crate::session::task::Task;
use bx_cli_commands::{Command, Fault, Reply};
use bx_journal::RecoveryOutcome;
use bx_world::{Guard, Names, OpenError, World, open_image_files, unmake_all, unmake_texts};
use std::alloc::Global;
use std::io::Read;

/// What a task on files answers.
#[derive(Clone, Copy, Debug, PartialEq, Eq)]
pub struct Answer {
    /// The reply.
    pub reply: Reply,
    /// Why the files were not opened, or that the image is another one than the journal was written beside; none where the task was begun.
    pub unopened: Option<OpenError>,
    /// What opening the session found unfinished; none where it was refused, and where the files were not opened.
    pub how: Option<RecoveryOutcome>,
}

/// Whether a task is an undo of no change, which opens the files to recover what is unfinished.
fn is_opening<R: Read + Drop>(task: &Task<R>) -> bool
    ensures { task.now ≡ no_change → result ≡ true }
{
    if let Task::Run(Command::Undo { k }) = task {
        *k == 0
    } else {
        false
    }
}

/// Takes the files away again that this run made, where the task was refused and nothing was recovered. Behind an opening, which writes
/// nothing to a text that was missing, the texts go whatever became of it.
fn clear<W: World>(world: &mut W, names: &Names, done: &Done<W::File>, opening: bool)
    requires made { W.faithful world.old
        → (n : ℕ) → IsOneOfMade done.now.files.made (numbers_of W.number done.now.files) n → (W.state world.old).before ≤ n }
    requires apart { W.faithful world.old → AreThreeFiles (W.state world.old).there (numbers_of W.number done.now.files) }
    requires named { W.faithful world.old → LeadTo names.now (numbers_of W.number done.now.files) (W.state world.old) }
    ensures left { W.faithful world.old → IsWholeRefusal done.now.reply → IsUnrecovered done.now.how → (first : SystemState) → AreAllThere first
        → HasMade (IsOneOfMade done.now.files.made (numbers_of W.number done.now.files)) first (W.state world.old)
        → LeavesFiles first (W.state world.new) }
    ensures stays { W.faithful world.old → (IsWholeRefusal done.now.reply → IsUnrecovered done.now.how → ⊥) → opening ≡ false → world.new ≡ world.old }
    ensures texts { W.faithful world.old → (IsWholeRefusal done.now.reply → IsUnrecovered done.now.how → ⊥) → opening ≡ true
        → TakesMade (IsOneOfMadeTexts done.now.files.made (numbers_of W.number done.now.files)) (W.state world.old) (W.state world.new) }
    ensures most { W.faithful world.old
        → TakesOnly (IsOneOfMade done.now.files.made (numbers_of W.number done.now.files)) (W.state world.old) (W.state world.new) }
    ensures counted { W.faithful world.old → W.refusals world.new ≡ W.refusals world.old }
    ensures survives { W.faithful world.old → NothingNewFound (W.survives world.old) (W.survives world.new) }
    ensures note { W.faithful world.old → W.note world.new ≡ W.note world.old }
    ensures faith { W.faithful world.new ↔ W.faithful world.old }
{
    if is_whole_refusal(&done.reply) && is_unrecovered(done.how) {
        unmake_all(world, names, &done.files);
    } else if opening {
        unmake_texts(world, names, &done.files);
    }
}

/// Opens the files of these names, does one task on them, and closes them. A redo text that is missing is made, and where `makes`
/// says so an image and a journal too; they are taken away again where the task is refused, and the texts behind an undo of no change too.
/// `guard` says what it may do: a task for which the image is another one than the journal was written beside isn't begun.
pub fn run_on_files<W: World, R: Read + Drop>(
    world: &mut W,
    alloc: Global,
    names: &Names,
    guard: Guard,
    makes: bool,
    task: Task<R>,
) -> Answer
    requires near { IsNearTask task }
    requires free { W.faithful world.old → (W.state world.old).lent ≡ None }

    // A task that is done, or stopped in the middle, makes the machine's step of what the files held.
    ensures done { W.faithful world.old → (s : Images) → Holds (contents_of names.now (W.state world.old)) s → (IsWholeRefusal result.reply → ⊥)
        → StepsTo R.remaining s task result.reply (contents_of names.now (W.state world.new)) }

    // So it is behind a loss of power.
    ensures survives { W.faithful world.old
        → SurvivesTask R.remaining names.now task result (W.state world.old) (W.state world.new)
        (W.survives world.old) (W.survives world.new) }

    // A task that is refused leaves all files as they were, byte for byte, whatever they held, and makes none, unless something was
    // recovered; and so do files that are not opened.
    ensures refused { W.faithful world.old → IsWholeRefusal result.reply
        → LeavesRefused names.now result.unopened result.how (W.state world.old) (W.state world.new) }
    ensures unopened { W.faithful world.old
        → IfSome result.unopened (λ _. NothingDone result.reply result.how (W.state world.old) (W.state world.new)) }

    // Why files were not opened, or the task not begun on another image.
    ensures why_unopened { W.faithful world.old
        → IfSome result.unopened (MayRefuseTask guard makes (W.note world.old) task names.now (W.refusals world.old < W.refusals world.new)
        (W.state world.old)) }

    // Why it was refused, where the files were opened, which may be so only with files that may be changed.
    ensures why { W.faithful world.old → (s : Images) → Holds (contents_of names.now (W.state world.old)) s → result.unopened ≡ None
        → IsWholeRefusal result.reply → MayRefuse R.remaining s task result.reply }
    ensures fit { W.faithful world.old → WereOpened result.unopened → AreFit names.now guard.mounted (W.state world.old) }

    // After a crash it is done on what opening recovers, which is said; of files that hold images nothing is recovered.
    ensures how { W.faithful world.old
        → TellsUnfinished (contents_of names.now (W.state world.old)) result.how (stands_by result.reply) }
    ensures recovered { W.faithful world.old → (s : Images) → FoundIn (contents_of names.now (W.state world.old)) s → result.unopened ≡ None
        → DoesFound R.remaining s task result.how result.reply (contents_of names.now (W.state world.new)) }

    // Whatever the files hold that opening takes, it makes the machine's step on the images for which they stand, unless a device failed.
    ensures stands { W.faithful world.old → Unfailed result.reply → IfSome result.how (λ how. StepsRead R.remaining task how result.reply
        (contents_of names.now (W.state world.old)) (contents_of names.now (W.state world.new))) }

    // The image was judged by the line that the note had, before anything was recovered onto it.
    ensures judged { W.faithful world.old → WasJudged guard (is_missing names.now.image (W.state world.old)) (W.note world.old)
        (contents_of names.now (W.state world.old)) task result.unopened result.how }

    // An undo of no change leaves no text that was missing.
    ensures texts { W.faithful world.old → task ≡ no_change
        → AreNotLeft names.now (W.state world.old) (W.state world.new) (W.state world.new) }

    // The fault of a device is answered only where a device or the note failed. A line that was put for a task which is refused goes again, where
    // the note had no bytes, or no journal was there, unless a call was refused.
    ensures counted { W.faithful world.old → CountsFailure (is_failure result.reply) (W.refusals world.old) (W.refusals world.new)
        × ClearsNote (IsWholeRefusal result.reply) result.unopened result.how (is_missing names.now.journal (W.state world.old))
        (W.refusals world.old < W.refusals world.new) (W.note world.old) (W.note world.new) }

    // No other file is changed, whatever the files hold and whatever becomes of the task, and nothing is written.
    ensures others { W.faithful world.old → KeepsOthers names.now (W.state world.old) (W.state world.new) }
    ensures silent { W.faithful world.old → KeepsStreams (W.state world.old) (W.state world.new) }
    ensures faith { W.faithful world.new ↔ W.faithful world.old }
{
    let files = match open_image_files(world, names, guard.mounted, makes) {
        Ok(files) => files,
        Err(unopened) => {
            return Answer {
                reply: Reply::Refused(Fault::OpenFailed),
                unopened: Some(unopened),
                how: None,
            };
        }
    };
    let opening = is_opening(&task);
    let done = with_devices(world, alloc, files, guard, task);
    clear(world, names, &done, opening);
    Answer {
        reply: done.reply,
        unopened: done.unopened,
        how: done.how,
    }
}
