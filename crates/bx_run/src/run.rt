//! The one call.
mod answer;
mod answered;
mod outcome;
mod request;

ghost use Rattle.std.specs.Prelude.{◌≡◌, ◌↔◌, ◌<◌, Option, None, IfSome};
ghost use Rattle.bx_world.specs.declared.world.Outgrown.{Outgrown};
ghost use Rattle.bx_run.specs.History.{HasAnswered};
ghost use Rattle.bx_run.specs.run.Commands.{Answers, ClearNotes, CountsFault, Fulfills, LeavesOthers, MayOpen, HasRun, StandsAs, StopsUnopened, SurvivesLoss, WereJudged, Writes};
ghost use Rattle.bx_run.specs.run.Outcome.{unopened_by};
ghost use Rattle.bx_run_model.specs.RunState.{run_state};
ghost use Rattle.bx_run.specs.declared.run.outcome.Outcome.{Outcome};

use crate::forget::forget_files;
use crate::renew::renew_files;
use crate::run::answered::answer_of;
use crate::run::outcome::Outcome;
pub use answer::{Cause, CommandFile, Done, Failure, Step, Stop};
use bx_cli_commands::Command;
use bx_run_report::{dump_file, dump_input, write_report};
use bx_run_session::{Task, change_files, move_changes, task_of, write_diff, write_preview};
use bx_world::World;
pub use request::Request;
use std::alloc::Global;
use std::io::{Read, Write};

/// Runs a command, and says how it ended as the crate says it that did it.
fn run_command<W: World, R: Read + Drop, O: Write>(
    world: &mut W,
    alloc: Global,
    request: Request<'_, R>,
    out: &mut O,
) -> Outcome
    requires free { W.faithful world.old → (W.state world.old).lent ≡ None }
    ensures answers { Answers request.entry result }
    ensures does { W.faithful world.old → Fulfills R.remaining request.entry result
        (run_state W.state W.refusals W.note O.contents world.old out.old) (run_state W.state W.refusals W.note O.contents world.new out.new) }
    ensures judged { W.faithful world.old → WereJudged request.entry result
        (run_state W.state W.refusals W.note O.contents world.old out.old) }
    ensures survives { W.faithful world.old → SurvivesLoss R.remaining request.entry result
        (W.state world.old) (W.state world.new) (W.survives world.old) (W.survives world.new) }
    ensures others { W.faithful world.old → LeavesOthers request.entry (W.state world.old) (W.state world.new) }
    ensures fit { W.faithful world.old → unopened_by result ≡ None → MayOpen request.entry (W.state world.old) }
    ensures unopened { W.faithful world.old → IfSome (unopened_by result) (StopsUnopened request.entry result
        (run_state W.state W.refusals W.note O.contents world.old out.old) (run_state W.state W.refusals W.note O.contents world.new out.new)) }
    ensures streams { W.faithful world.old → Writes request.entry result
        (run_state W.state W.refusals W.note O.contents world.old out.old) (run_state W.state W.refusals W.note O.contents world.new out.new) }
    ensures failed { W.faithful world.old → CountsFault request.entry result (W.refusals world.old < W.refusals world.new) }
    ensures notes { W.faithful world.old → ClearNotes request.entry result
        (run_state W.state W.refusals W.note O.contents world.old out.old) (run_state W.state W.refusals W.note O.contents world.new out.new) }
    ensures free { W.faithful world.old → (W.state world.new).lent ≡ None }
    ensures faith { W.faithful world.new ↔ W.faithful world.old }
{
    match request {
        Request::Move {
            names,
            guard,
            way,
            count,
        } => Outcome::Moved(move_changes(world, alloc, names, guard, way, count)),
        Request::Change { names, guard, edit } => {
            let change = task_of(edit);
            let answer = change_files(world, alloc, names, guard, change);
            Outcome::Changed(answer)
        }
        Request::Recover { names, guard } => {
            let nothing = Task::<R>::Run(Command::Undo { k: 0 });
            let recovered = change_files(world, alloc, names, guard, nothing);
            Outcome::Changed(recovered)
        }
        Request::Dump { job, name } => Outcome::Dumped(dump_file(world, alloc, job, name, out)),
        Request::DumpInput { job, input } => Outcome::Dumped(dump_input(alloc, job, input, out)),
        Request::Diff { old, new, extent } => {
            Outcome::Compared(write_diff(world, alloc, old, new, extent, out))
        }
        Request::Preview { name, edit } => {
            Outcome::Previewed(write_preview(world, alloc, name, edit, out))
        }
        Request::Look { names, report } => {
            Outcome::Looked(write_report(world, alloc, names, report, out))
        }
        Request::Forget { names, guard } => {
            Outcome::Forgotten(forget_files(world, alloc, names, guard, true))
        }
        Request::Renew { names, guard, edit } => {
            let anew = task_of(edit);
            Outcome::Renewed(renew_files(world, alloc, names, guard, anew))
        }
    }
}

/// Runs a command on named files. An undo or a redo writes its number on standard output; dumps, patches and reports are written
/// to `out`; what was recovered is said on standard error.
///
/// # Errors
/// The fault that the command ended in, with the file that stopped it.
pub fn run_request<W: World, R: Read + Drop, O: Write>(
    world: &mut W,
    alloc: Global,
    request: Request<'_, R>,
    out: &mut O,
) -> Result<Done, Failure>
    requires free { W.faithful world.old → (W.state world.old).lent ≡ None }

    // The answer stands for how the command ended, fault for fault: it did what it is to, or it was refused or stopped, and says why; after
    // a crash it did so on what is recovered, and after a loss of power opening finds an end of it, or the images behind some of its steps.
    ensures runs { (outcome : Outcome) × (outgrown : Option Outgrown) × StandsAs request.entry outcome outgrown result × (W.faithful world.old
        → IfSome outgrown (λ o. o.has < o.wanted)
        × HasRun R.remaining request.entry outcome (run_state W.state W.refusals W.note O.contents world.old out.old)
        (run_state W.state W.refusals W.note O.contents world.new out.new) (W.survives world.old) (W.survives world.new)) }

    // Whatever becomes of it, no file is changed but the three of an undo, a redo or a change, and the texts of a history that is dropped.
    ensures others { W.faithful world.old → LeavesOthers request.entry (W.state world.old) (W.state world.new) }
    ensures free { W.faithful world.old → (W.state world.new).lent ≡ None }
    ensures faith { W.faithful world.new ↔ W.faithful world.old }
{
    let outcome = run_command(world, alloc, request, out);
    answer_of(&outcome, world.outgrown())
}

/// The premise of the laws on changes by names, and on their undo, is what the one call promises.
fn run_as_promised<W: World, R: Read + Drop, O: Write>(
    world: &mut W,
    alloc: Global,
    request: Request<'_, R>,
    out: &mut O,
) -> Result<Done, Failure>
    requires free { W.faithful world.old → (W.state world.old).lent ≡ None }
    ensures { W.faithful world.old → HasAnswered R.remaining request.entry result
        (run_state W.state W.refusals W.note O.contents world.old out.old) (run_state W.state W.refusals W.note O.contents world.new out.new) }
{
    run_request(world, alloc, request, out)
}
