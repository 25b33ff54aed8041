//! An undo and a redo on files, with the number that they write.
ghost use Rattle.std.specs.Prelude.{◌≡◌, ◌↔◌, ◌++◌, ◌+◌, ◌<◌, ◌^◌, decimal, false, length, Err, None, IfOk, IfErr, IfSome, List, OnErr, OnOk, ℕ};
ghost use Rattle.bx_journal.specs.Images.{Images};
ghost use Rattle.bx_world.specs.World.{KeepsFiles, KeepsStreams, NothingNewFound};
ghost use Rattle.bx_world.specs.files.Fit.{AreFit};
ghost use Rattle.bx_run_session.specs.session.Contents.{FoundIn, Holds, TellsUnfinished};
ghost use Rattle.bx_run_session.specs.session.Guarded.{WasJudged, WereOpened};
ghost use Rattle.bx_run_session.specs.session.Named.{ClearsNote, KeepsOthers, MayRefuseTask, contents_of, is_missing};
ghost use Rattle.bx_run_model.specs.Failures.{CountsFailure, is_failed};
ghost use Rattle.bx_run_session.specs.session.Moves.{HasMoved, IsMoved, IsUnwritten, MovedFound, MovedRead, Moves, MovesFound, MovesRead, NothingMoved, RefusesMove, SparesMove, StopsLine, StopsMove, StopsPart, SurvivesMoving, TellsRecovered, number_line, recovered_line, stepped, task_of};
ghost use Rattle.bx_run_session.specs.session.Task.{IsNearTask};

use crate::session::named::run_on_files;
use crate::session::task::Task;
use bx_cli_commands::{Command, Fault};
use bx_journal::{Direction, RecoveryOutcome};
use bx_text::{Field, IoFault, ShortText, dec_field};
use bx_world::{Guard, Names, OpenError, World};
use std::alloc::Global;
use std::io::Empty;

/// What an undo or a redo answers.
#[derive(Drop)]
pub struct Moved<V> {
    /// That it is done, or the fault that stopped it.
    pub outcome: Result<V, Fault>,
    /// Why the files were not opened, or that the image is another one than the journal was written beside; none where the moving was begun.
    pub unopened: Option<OpenError>,
    /// What opening the session found unfinished; none where it was refused, and where the files were not opened.
    pub how: Option<RecoveryOutcome>,
}

/// Writes a part of a line on standard output; `before` bytes of the line are out.
fn put<W: World>(world: &mut W, before: u64, bytes: &[u8]) -> Result<(), Fault>
    requires room { before + length bytes.now < 2 ^ 64 }
    ensures ok { W.faithful world.old → OnOk result ((W.state world.new).output ≡ (W.state world.old).output ++ bytes.now) }
    ensures err { W.faithful world.old
        → IfErr result (StopsPart before bytes.now (W.state world.old).output (W.state world.new).output) }
    ensures failed { W.faithful world.old → OnErr result (W.has_unwritten world.new) }
    ensures handed { W.faithful world.old → (line : List ℕ) → W.was_handed world.old line → W.was_handed world.new line }
    ensures noted { W.faithful world.old → W.refusals world.new ≡ W.refusals world.old }
    ensures note { W.faithful world.old → W.note world.new ≡ W.note world.old }
    ensures survives { W.faithful world.old → NothingNewFound (W.survives world.old) (W.survives world.new) }
    ensures errors { W.faithful world.old → (W.state world.new).errors ≡ (W.state world.old).errors }
    ensures files { W.faithful world.old → KeepsFiles (W.state world.old) (W.state world.new) }
    ensures faith { W.faithful world.new ↔ W.faithful world.old }
{
    match world.print(bytes) {
        Ok(()) => Ok(()),
        Err(unwritten) => Err(Fault::Io(IoFault::WriteFailed {
            written: before + unwritten.written,
        })),
    }
}

/// The digits of a number.
fn digits_of(number: u32) -> Field
    ensures { result ≡ decimal number }
{
    dec_field(number as i128, 0, b' ')
}

/// Writes a number on a line of its own. It takes no memory, since what it tells of is done.
fn put_number<W: World>(world: &mut W, number: u32) -> Result<(), Fault>
    ensures ok { W.faithful world.old → OnOk result ((W.state world.new).output ≡ (W.state world.old).output ++ number_line number) }
    ensures err { W.faithful world.old
        → IfErr result (StopsLine (number_line number) (W.state world.old).output (W.state world.new).output) }
    ensures failed { W.faithful world.old → OnErr result (W.has_unwritten world.new) }
    ensures handed { W.faithful world.old → (line : List ℕ) → W.was_handed world.old line → W.was_handed world.new line }
    ensures noted { W.faithful world.old → W.refusals world.new ≡ W.refusals world.old }
    ensures note { W.faithful world.old → W.note world.new ≡ W.note world.old }
    ensures survives { W.faithful world.old → NothingNewFound (W.survives world.old) (W.survives world.new) }
    ensures errors { W.faithful world.old → (W.state world.new).errors ≡ (W.state world.old).errors }
    ensures files { W.faithful world.old → KeepsFiles (W.state world.old) (W.state world.new) }
    ensures faith { W.faithful world.new ↔ W.faithful world.old }
{
    let digits = digits_of(number);
    match put(world, 0, digits.as_bytes()) {
        Ok(()) => {
            // Two writes, and no joined text, which would take memory: the changes are moved by now. A field has at most 22
            // bytes; the limit tells the proof that the sum fits.
            let written = digits.as_bytes().len().min(22) as u64;
            put(world, written, b"\n")
        }
        Err(fault) => Err(fault),
    }
}

/// Writes the number of changes that stand, where they were moved.
fn tell_number<W: World>(world: &mut W, standing: Result<u32, Fault>) -> Result<(), Fault>
    ensures done { W.faithful world.old
        → IfOk standing (λ left. OnOk result ((W.state world.new).output ≡ (W.state world.old).output ++ number_line left)) }
    ensures lost { W.faithful world.old
        → IfOk standing (λ left. IfErr result (StopsLine (number_line left) (W.state world.old).output (W.state world.new).output)) }
    ensures refused { W.faithful world.old → IfErr standing (λ e. (result ≡ Err e) × (W.state world.new ≡ W.state world.old)) }
    ensures failed { W.faithful world.old → IfOk standing (λ _. OnErr result (W.has_unwritten world.new)) }
    ensures handed { W.faithful world.old → (line : List ℕ) → W.was_handed world.old line → W.was_handed world.new line }
    ensures noted { W.faithful world.old → W.refusals world.new ≡ W.refusals world.old }
    ensures note { W.faithful world.old → W.note world.new ≡ W.note world.old }
    ensures survives { W.faithful world.old → NothingNewFound (W.survives world.old) (W.survives world.new) }
    ensures errors { W.faithful world.old → (W.state world.new).errors ≡ (W.state world.old).errors }
    ensures files { W.faithful world.old → KeepsFiles (W.state world.old) (W.state world.new) }
    ensures faith { W.faithful world.new ↔ W.faithful world.old }
{
    match standing {
        Ok(left) => put_number(world, left),
        Err(fault) => Err(fault),
    }
}

/// What is said of what opening found unfinished.
fn line_of(how: Option<RecoveryOutcome>) -> ShortText<64>
    ensures { result ≡ recovered_line how }
{
    let mut line: ShortText<64> = ShortText::new();
    match how {
        None | Some(RecoveryOutcome::Clean) => {}
        Some(RecoveryOutcome::Dropped) => {
            line.push_all(b"bx: recovered: an unfinished entry was dropped\n");
        }
        Some(RecoveryOutcome::Restored { number }) => {
            line.push_all(b"bx: recovered: change ");
            let digits = digits_of(number);
            line.push_all(digits.as_bytes());
            line.push_all(b" was taken back\n");
        }
    }
    line
}

/// Says on standard error what opening found unfinished.
pub fn tell_recovered<W: World>(world: &mut W, how: Option<RecoveryOutcome>)
    ensures errors { W.faithful world.old → TellsRecovered how (W.state world.old).errors (W.state world.new).errors }
    ensures handed { W.faithful world.old → W.was_handed world.new (recovered_line how) }
    ensures noted { W.faithful world.old → W.refusals world.new ≡ W.refusals world.old }
    ensures note { W.faithful world.old → W.note world.new ≡ W.note world.old }
    ensures survives { W.faithful world.old → NothingNewFound (W.survives world.old) (W.survives world.new) }
    ensures output { W.faithful world.old → (W.state world.new).output ≡ (W.state world.old).output }
    ensures files { W.faithful world.old → KeepsFiles (W.state world.old) (W.state world.new) }
    ensures faith { W.faithful world.new ↔ W.faithful world.old }
{
    let line = line_of(how);
    world.complain(line.as_bytes());
}

/// The task that moves as many changes one way.
fn task_by(way: Direction, count: u32) -> Task<Empty>
    ensures is { result ≡ task_of way count }
    ensures near { IsNearTask result }
{
    match way {
        Direction::Undo => Task::Run(Command::Undo { k: count }),
        Direction::Redo => Task::Run(Command::Redo { j: count }),
    }
}

/// Takes the last changes of an image back, or makes those undone last again, and answers how many stand.
fn moved_by<W: World>(
    world: &mut W,
    alloc: Global,
    names: &Names,
    guard: Guard,
    way: Direction,
    count: u32,
) -> Moved<u32>
    requires free { W.faithful world.old → (W.state world.old).lent ≡ None }
    ensures done { W.faithful world.old → (s : Images) → Holds (contents_of names.now (W.state world.old)) s
        → IfOk result.outcome (λ left. IsMoved count (stepped way s) left (contents_of names.now (W.state world.new))) }
    ensures refused { W.faithful world.old → (s : Images) → Holds (contents_of names.now (W.state world.old)) s
        → IfErr result.outcome (RefusesMove names.now count (stepped way s) result.unopened (W.state world.old) (W.state world.new)) }
    ensures spares { W.faithful world.old
        → IfErr result.outcome (SparesMove names.now result.unopened result.how (W.state world.old) (W.state world.new)) }
    ensures survives { W.faithful world.old
        → SurvivesMoving names.now count way result (W.state world.old) (W.state world.new)
        (W.survives world.old) (W.survives world.new) }
    ensures unopened { W.faithful world.old → IfSome result.unopened (λ _. NothingMoved result (W.state world.old) (W.state world.new)) }
    ensures why_unopened { W.faithful world.old
        → IfSome result.unopened (MayRefuseTask guard false (W.note world.old) (task_of way count) names.now
        (W.refusals world.old < W.refusals world.new) (W.state world.old)) }
    ensures fit { W.faithful world.old → WereOpened result.unopened → AreFit names.now guard.mounted (W.state world.old) }
    ensures judged { W.faithful world.old → WasJudged guard (is_missing names.now.image (W.state world.old)) (W.note world.old)
        (contents_of names.now (W.state world.old)) (task_of way count) result.unopened result.how }
    ensures how { W.faithful world.old → TellsUnfinished (contents_of names.now (W.state world.old)) result.how result.outcome }
    ensures recovered { W.faithful world.old → (s : Images) → FoundIn (contents_of names.now (W.state world.old)) s → result.unopened ≡ None
        → MovedFound count way s result.how result.outcome (contents_of names.now (W.state world.new)) }
    ensures stands { W.faithful world.old → IfSome result.how (λ how. IfOk result.outcome (λ left.
        MovedRead count way how left (contents_of names.now (W.state world.old)) (contents_of names.now (W.state world.new)))) }
    ensures counted { W.faithful world.old → CountsFailure (is_failed result.outcome) (W.refusals world.old) (W.refusals world.new)
        × ClearsNote (HasMoved result.outcome → ⊥) result.unopened result.how (is_missing names.now.journal (W.state world.old))
        (W.refusals world.old < W.refusals world.new) (W.note world.old) (W.note world.new) }
    ensures others { W.faithful world.old → KeepsOthers names.now (W.state world.old) (W.state world.new) }
    ensures silent { W.faithful world.old → KeepsStreams (W.state world.old) (W.state world.new) }
    ensures faith { W.faithful world.new ↔ W.faithful world.old }
{
    let task = task_by(way, count);
    let answer = run_on_files(world, alloc, names, guard, false, task);
    Moved {
        outcome: answer.reply.standing(),
        unopened: answer.unopened,
        how: answer.how,
    }
}

/// Takes the last changes of an image back, or makes those undone last again, says on standard error what was recovered, and
/// writes how many changes stand.
///
/// # Errors
/// Where it was refused, and nothing is written; and where the number can't be written, behind a move that is done.
pub fn move_changes<W: World>(
    world: &mut W,
    alloc: Global,
    names: &Names,
    guard: Guard,
    way: Direction,
    count: u32,
) -> Moved<()>
    requires free { W.faithful world.old → (W.state world.old).lent ≡ None }
    ensures done { W.faithful world.old → (s : Images) → Holds (contents_of names.now (W.state world.old)) s
        → OnOk result.outcome (Moves names.now count (stepped way s) (W.state world.old) (W.state world.new)) }
    ensures stopped { W.faithful world.old → (s : Images) → Holds (contents_of names.now (W.state world.old)) s
        → IfErr result.outcome (StopsMove names.now count (stepped way s) result.unopened (W.state world.old) (W.state world.new)) }
    ensures spares { W.faithful world.old
        → IfErr result.outcome (SparesMove names.now result.unopened result.how (W.state world.old) (W.state world.new)) }
    ensures survives { W.faithful world.old
        → SurvivesMoving names.now count way result (W.state world.old) (W.state world.new)
        (W.survives world.old) (W.survives world.new) }
    ensures unopened { W.faithful world.old → IfSome result.unopened (λ _. NothingMoved result (W.state world.old) (W.state world.new)) }
    ensures why_unopened { W.faithful world.old
        → IfSome result.unopened (MayRefuseTask guard false (W.note world.old) (task_of way count) names.now
        (W.refusals world.old < W.refusals world.new) (W.state world.old)) }
    ensures fit { W.faithful world.old → WereOpened result.unopened → AreFit names.now guard.mounted (W.state world.old) }
    ensures judged { W.faithful world.old → WasJudged guard (is_missing names.now.image (W.state world.old)) (W.note world.old)
        (contents_of names.now (W.state world.old)) (task_of way count) result.unopened result.how }
    ensures how { W.faithful world.old → TellsUnfinished (contents_of names.now (W.state world.old)) result.how result.outcome }
    ensures recovered { W.faithful world.old → (s : Images) → FoundIn (contents_of names.now (W.state world.old)) s → result.unopened ≡ None
        → MovesFound names.now count way s result.how result.outcome (W.state world.old) (W.state world.new) }
    ensures stands { W.faithful world.old → IfSome result.how (λ how. OnOk result.outcome
        (MovesRead names.now count way how (W.state world.old) (W.state world.new))) }
    ensures counted { W.faithful world.old → CountsFailure (is_failed result.outcome) (W.refusals world.old) (W.refusals world.new)
        × ClearsNote (HasMoved result.outcome → ⊥) result.unopened result.how (is_missing names.now.journal (W.state world.old))
        (W.refusals world.old < W.refusals world.new) (W.note world.old) (W.note world.new) }
    ensures others { W.faithful world.old → KeepsOthers names.now (W.state world.old) (W.state world.new) }
    ensures told { W.faithful world.old → TellsRecovered result.how (W.state world.old).errors (W.state world.new).errors
        × W.was_handed world.new (recovered_line result.how)
        × ((s : Images) → Holds (contents_of names.now (W.state world.old)) s
        → IfErr result.outcome (λ e. IsUnwritten e → W.has_unwritten world.new)) }
    ensures free { W.faithful world.old → (W.state world.new).lent ≡ None }
    ensures faith { W.faithful world.new ↔ W.faithful world.old }
{
    let moved = moved_by(world, alloc, names, guard, way, count);
    // Also where the move was refused: what was recovered is done all the same.
    tell_recovered(world, moved.how);
    let outcome = tell_number(world, moved.outcome);
    Moved {
        outcome,
        unopened: moved.unopened,
        how: moved.how,
    }
}
