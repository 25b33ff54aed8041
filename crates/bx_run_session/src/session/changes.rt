//! A change of the files of an image, which are made where they are missing.
ghost use Rattle.std.specs.Prelude.{◌≡◌, ◌↔◌, ◌<◌, None, IfOk, IfSome, true};
ghost use Rattle.bx_journal.specs.Images.{Images};
ghost use Rattle.bx_journal.specs.SessionFault.TheVariants.{Interrupted};
ghost use Rattle.bx_cli_commands.specs.Refusal.{IsWholeRefusal};
ghost use Rattle.bx_cli_commands.specs.Replies.{stands_by};
ghost use Rattle.bx_cli_commands.specs.Run.{Unfailed, is_failure};
ghost use Rattle.bx_cli_commands.specs.declared.command.Reply.TheVariants.{Refused};
ghost use Rattle.bx_cli_commands.specs.declared.fault.Fault.TheVariants.{Session};
ghost use Rattle.bx_world.specs.files.Fit.{AreFit};
ghost use Rattle.bx_run_session.specs.session.Changes.{Changes, InterruptsChange, RefusesChange, SaysRecovered};
ghost use Rattle.bx_run_session.specs.session.Contents.{DoesFound, FoundIn, Holds, StepsRead, TellsUnfinished};
ghost use Rattle.bx_run_session.specs.session.Guarded.{WasJudged, WereOpened};
ghost use Rattle.bx_run_session.specs.session.Moves.{recovered_line};
ghost use Rattle.bx_run_session.specs.session.Named.{ClearsNote, LeavesRest, MayRefuseTask, NothingDone, SurvivesTask, contents_of, is_missing};
ghost use Rattle.bx_run_model.specs.Failures.{CountsFailure};
ghost use Rattle.bx_run_session.specs.session.Task.{IsNearTask};

use crate::session::moves::tell_recovered;
use crate::session::named::{Answer, run_on_files};
use crate::session::task::Task;
use bx_world::{Guard, Names, World};
use std::alloc::Global;
use std::io::Read;

/// Opens the files of these names, does one task on them, closes them, and says on standard error what was recovered. An image, a
/// journal and a redo text that are missing are made, and taken away again where the task is refused; texts also behind an undo of no change.
/// `guard` says what it may do: on an image that is another one than the journal was written beside the task isn't begun.
pub fn change_files<W: World, R: Read + Drop>(
    world: &mut W,
    alloc: Global,
    names: &Names,
    guard: Guard,
    task: Task<R>,
) -> Answer
    requires near { IsNearTask task }
    requires free { W.faithful world.old → (W.state world.old).lent ≡ None }

    // A task that is done makes the machine's step on what the files held, and the answer is how many changes stand.
    ensures done { W.faithful world.old → (s : Images) → Holds (contents_of names.now (W.state world.old)) s
        → IfOk (stands_by result.reply) (Changes R.remaining s task result.reply (contents_of names.now (W.state world.new))) }

    // One that is refused leaves all files as they were, byte for byte, whatever they held, and makes none, unless something was recovered.
    ensures refused { W.faithful world.old → IsWholeRefusal result.reply
        → RefusesChange R.remaining names.now task result (W.state world.old) (W.state world.new) }

    // Behind one that was stopped in the middle opening finds the images before or behind it.
    ensures interrupted { W.faithful world.old → (s : Images) → Holds (contents_of names.now (W.state world.old)) s
        → result.reply ≡ Refused (Session Interrupted) → InterruptsChange R.remaining s task (contents_of names.now (W.state world.new)) }

    // So it does behind a loss of power, of an end of the task.
    ensures survives { W.faithful world.old
        → SurvivesTask R.remaining names.now task result (W.state world.old) (W.state world.new)
        (W.survives world.old) (W.survives world.new) }

    // Files that are not opened are as they were, and why they are not; others may be changed.
    ensures unopened { W.faithful world.old
        → IfSome result.unopened (λ _. NothingDone result.reply result.how (W.state world.old) (W.state world.new)) }
    ensures why_unopened { W.faithful world.old
        → IfSome result.unopened (MayRefuseTask guard true (W.note world.old) task names.now
        (W.refusals world.old < W.refusals world.new) (W.state world.old)) }
    ensures fit { W.faithful world.old → WereOpened result.unopened → AreFit names.now guard.mounted (W.state world.old) }

    // The image was judged by the line that the note had, before anything was recovered onto it.
    ensures judged { W.faithful world.old → WasJudged guard (is_missing names.now.image (W.state world.old)) (W.note world.old)
        (contents_of names.now (W.state world.old)) task result.unopened result.how }

    // After a crash the task is done on what opening recovers, which is said; of files that hold images nothing is recovered.
    ensures how { W.faithful world.old
        → TellsUnfinished (contents_of names.now (W.state world.old)) result.how (stands_by result.reply) }
    ensures recovered { W.faithful world.old → (s : Images) → FoundIn (contents_of names.now (W.state world.old)) s → result.unopened ≡ None
        → DoesFound R.remaining s task result.how result.reply (contents_of names.now (W.state world.new)) }

    // Whatever the files hold that opening takes, it makes the machine's step on the images for which they stand, unless a device failed.
    ensures stands { W.faithful world.old → Unfailed result.reply → IfSome result.how (λ how. StepsRead R.remaining task how result.reply
        (contents_of names.now (W.state world.old)) (contents_of names.now (W.state world.new))) }

    // The fault of a device is answered only where a device or the note failed. A line that was put for a task which is refused goes again, where
    // the note had no bytes, or no journal was there, unless a call was refused.
    ensures counted { W.faithful world.old → CountsFailure (is_failure result.reply) (W.refusals world.old) (W.refusals world.new)
        × ClearsNote (IsWholeRefusal result.reply) result.unopened result.how (is_missing names.now.journal (W.state world.old))
        (W.refusals world.old < W.refusals world.new) (W.note world.old) (W.note world.new) }

    // No other file is changed, whatever the files hold and whatever becomes of the task, an undo of no change leaves no text that was
    // missing, and nothing is written but what was recovered.
    ensures rest { W.faithful world.old → LeavesRest names.now task (W.state world.old) (W.state world.new) }
    ensures streams { W.faithful world.old → SaysRecovered result.how (W.state world.old) (W.state world.new) }
    ensures handed { W.faithful world.old → W.was_handed world.new (recovered_line result.how) }
    ensures faith { W.faithful world.new ↔ W.faithful world.old }
{
    let answer = run_on_files(world, alloc, names, guard, true, task);
    tell_recovered(world, answer.how);
    answer
}
