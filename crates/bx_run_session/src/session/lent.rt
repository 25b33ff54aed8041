//! A task on three files, which are lent as devices and given back.
ghost use Rattle.std.specs.Prelude.{◌≡◌, ◌↔◌, ◌<◌, None, IfSome};
ghost use Rattle.bx_journal.specs.Images.{Images};
ghost use Rattle.bx_cli_commands.specs.Refusal.{IsWholeRefusal};
ghost use Rattle.bx_cli_commands.specs.Replies.{stands_by};
ghost use Rattle.bx_cli_commands.specs.Run.{Unfailed, is_failure};
ghost use Rattle.bx_cli_commands.specs.declared.command.Reply.TheVariants.{Refused};
ghost use Rattle.bx_cli_commands.specs.declared.fault.Fault.TheVariants.{OpenFailed};
ghost use Rattle.bx_world.specs.files.Numbers.{AreLocked, numbers_of};
ghost use Rattle.bx_world.specs.World.{AreThreeFiles, ChangesOnly, NothingNewFound};
ghost use Rattle.bx_run_session.specs.session.Contents.{StayOnDisk, Does, DoesFound, FoundIn, Holds, Spared, Survives, StepsRead, SurvivesFound, TellsUnfinished};
ghost use Rattle.bx_run_session.specs.session.Guarded.{WasJudged, another};
ghost use Rattle.bx_run_session.specs.session.Named.{ClearsNote, IsUnrecovered, bytes_of_files};
ghost use Rattle.bx_run_model.specs.Failures.{CountsFailure};
ghost use Rattle.bx_run_session.specs.session.Task.{IsNearTask};

use crate::session::guarded::{Ended, run_guarded};
use crate::session::task::Task;
use bx_cli_commands::Reply;
use bx_journal::{Devices, RecoveryOutcome};
use bx_world::{Files, Guard, OpenError, World};
use std::alloc::Global;
use std::io::Read;

/// What a task left.
#[derive(Drop)]
pub struct Done<F> {
    /// The files.
    pub files: Files<F>,
    /// The reply.
    pub reply: Reply,
    /// What opening found unfinished; none where it was refused.
    pub how: Option<RecoveryOutcome>,
    /// Why the task wasn't begun; none where it was.
    pub unopened: Option<OpenError>,
}

/// Lends three files as devices, does a task on them, behind what `guard` allows, and takes them back. One for which the image is another
/// one than the note tells of isn't begun.
pub fn with_devices<W: World, R: Read + Drop>(
    world: &mut W,
    alloc: Global,
    files: Files<W::File>,
    guard: Guard,
    task: Task<R>,
) -> Done<W::File>
    requires near { IsNearTask task }
    requires free { W.faithful world.old → (W.state world.old).lent ≡ None }
    requires apart { W.faithful world.old → AreThreeFiles (W.state world.old).there (numbers_of W.number files) }
    requires locked { W.faithful world.old → AreLocked W.is_locked files }
    requires kept { W.faithful world.old → W.is_kept world.old (W.number files.image) × W.is_kept world.old (W.number files.journal) }
    ensures only { W.faithful world.old → ChangesOnly (numbers_of W.number files) (W.state world.old) (W.state world.new) }
    ensures free { W.faithful world.old → (W.state world.new).lent ≡ None }
    ensures files { W.faithful world.old → numbers_of W.number result.files ≡ numbers_of W.number files }
    ensures made { result.files.made ≡ files.made }
    ensures how { W.faithful world.old
        → TellsUnfinished (bytes_of_files (numbers_of W.number files) (W.state world.old)) result.how (stands_by result.reply) }
    ensures does { W.faithful world.old → result.unopened ≡ None → (s : Images) → Holds (bytes_of_files (numbers_of W.number files) (W.state world.old)) s
        → Does R.remaining s task result.reply (bytes_of_files (numbers_of W.number files) (W.state world.new)) }
    ensures found { W.faithful world.old → result.unopened ≡ None → (s : Images) → FoundIn (bytes_of_files (numbers_of W.number files) (W.state world.old)) s
        → DoesFound R.remaining s task result.how result.reply (bytes_of_files (numbers_of W.number files) (W.state world.new)) }
    ensures whole { W.faithful world.old → IsWholeRefusal result.reply
        → Spared result.how (bytes_of_files (numbers_of W.number files) (W.state world.old))
        (bytes_of_files (numbers_of W.number files) (W.state world.new)) }
    ensures survives { W.faithful world.old → (s : Images) → Holds (bytes_of_files (numbers_of W.number files) (W.state world.old)) s
        → (IsWholeRefusal result.reply → ⊥)
        → Survives R.remaining s task result.reply (W.survives world.new (W.number files.image))
        (W.survives world.new (W.number files.journal)) (W.survives world.new (W.number files.redo)) }
    ensures endures { W.faithful world.old → (s : Images) → FoundIn (bytes_of_files (numbers_of W.number files) (W.state world.old)) s
        → (IsWholeRefusal result.reply → ⊥)
        → SurvivesFound R.remaining s task result.how result.reply (W.survives world.new (W.number files.image))
        (W.survives world.new (W.number files.journal)) (W.survives world.new (W.number files.redo)) }
    ensures stands { W.faithful world.old → Unfailed result.reply
        → IfSome result.how (λ how. StepsRead R.remaining task how result.reply (bytes_of_files (numbers_of W.number files) (W.state world.old))
        (bytes_of_files (numbers_of W.number files) (W.state world.new))) }
    ensures spares { W.faithful world.old → IsWholeRefusal result.reply
        → (IsUnrecovered result.how → NothingNewFound (W.survives world.old) (W.survives world.new))
        × ((IsUnrecovered result.how → ⊥)
        → StayOnDisk (bytes_of_files (numbers_of W.number files) (W.state world.new)) (W.survives world.new (W.number files.image))
        (W.survives world.new (W.number files.journal)) (W.survives world.new (W.number files.redo))) }
    ensures counted { W.faithful world.old → CountsFailure (is_failure result.reply) (W.refusals world.old) (W.refusals world.new)
        × ClearsNote (IsWholeRefusal result.reply) result.unopened result.how files.made.journal
        (W.refusals world.old < W.refusals world.new) (W.note world.old) (W.note world.new) }
    ensures unbegun { IfSome result.unopened (λ u. (u ≡ another) × (result.reply ≡ Refused OpenFailed) × (result.how ≡ None)) }
    ensures judged { W.faithful world.old → WasJudged guard files.made.image (W.note world.old)
        (bytes_of_files (numbers_of W.number files) (W.state world.old)) task result.unopened result.how }
    ensures faith { W.faithful world.new ↔ W.faithful world.old }
{
    let Files {
        image,
        journal,
        redo,
        made,
    } = files;
    let (image, journal, redo) = world.into_devices(image, journal, redo);
    let devices = Devices {
        image,
        journal,
        redo,
    };
    let ended = run_guarded(world, alloc, devices, guard, made, task);
    let Ended {
        devices,
        reply,
        how,
        unopened,
    } = ended;
    let Devices {
        image,
        journal,
        redo,
    } = devices;
    let (image, journal, redo) = world.into_files(image, journal, redo);
    let files = Files {
        image,
        journal,
        redo,
        made,
    };
    Done {
        files,
        reply,
        how,
        unopened,
    }
}
