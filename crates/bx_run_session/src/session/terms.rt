//! What a task goes by: what it may do, and what the note tells of its image.
ghost use Rattle.std.specs.Prelude.{◌≡◌, ◌↔◌, ◌⊎◌, ◌<◌, ◌≤◌, ℕ, List, [], IfSome, true, false, take};
ghost use Rattle.bx_world.specs.World.{NothingNewFound};
ghost use Rattle.bx_journal_image.specs.Line.{image_line};
ghost use Rattle.bx_run_session.specs.session.Guarded.{NoteSays, is_kept_off, is_moved_off, keeps_off};

use crate::session::task::Task;
use bx_cli_commands::Command;
use bx_journal_image::{
    ImageLine, LINE, Standing, Verdict, is_redo_refused, is_undo_refused, read_line,
};
use bx_world::{Guard, World};
use std::io::Read;

/// How many bytes of the note are read: one more than the line has, so that a longer text isn't taken for it.
const ROOM: usize = 440;

/// What a task goes by.
#[derive(Clone, Copy)]
pub struct Terms {
    /// What it may do.
    pub guard: Guard,
    /// Whether its image was missing, and is made for it.
    pub missing: bool,
    /// The line that the note has; none where it has none, or can't be read.
    pub line: Option<ImageLine>,
    /// Whether it can't be read.
    pub unread: bool,
}

/// What the note tells.
#[derive(Clone, Copy)]
pub struct Told {
    /// The line that it has; none where it has none, or can't be read.
    pub line: Option<ImageLine>,
    /// Whether it can't be read.
    pub unread: bool,
    /// Whether a line that is put goes again where the task is refused: the note has no bytes, or no journal stood beside it.
    pub goes: bool,
}

/// The line that these are the first bytes of, where the text is no longer than the line.
fn line_in(bytes: &[u8]) -> Option<ImageLine>
    ensures { (note : List ℕ) → bytes.now ≡ take 440 note → NoteSays note result }
{
    if bytes.len() > LINE {
        return None;
    }
    read_line(bytes)
}

/// Whether a line that is put goes again, by how many bytes the note has.
fn is_lone(alone: bool, count: usize) -> bool
    ensures { (result ≡ true) ↔ ((count ≡ 0) ⊎ (alone ≡ true)) }
{
    alone || count == 0
}

/// What the note tells, which is only read. `alone` says whether no journal stood beside it.
pub fn told_by<W: World>(world: &mut W, alone: bool) -> Told
    ensures known { W.faithful world.old → result.unread ≡ false → NoteSays (W.note world.old) result.line }
    ensures said { W.faithful world.old → IfSome result.line (λ line. W.note world.old ≡ image_line line) }
    ensures goes { W.faithful world.old → (W.note world.old ≡ []) ⊎ (alone ≡ true)
        → (result.goes ≡ true) ⊎ (W.refusals world.old < W.refusals world.new) }
    ensures stays { W.faithful world.old → result.goes ≡ true → (W.note world.old ≡ []) ⊎ (alone ≡ true) }
    ensures counted { W.faithful world.old → W.refusals world.old ≤ W.refusals world.new }
    ensures same { W.faithful world.old → W.state world.new ≡ W.state world.old }
    ensures note { W.faithful world.old → W.note world.new ≡ W.note world.old }
    ensures survives { W.faithful world.old → NothingNewFound (W.survives world.old) (W.survives world.new) }
    ensures faith { W.faithful world.new ↔ W.faithful world.old }
{
    let mut room = [0u8; ROOM];
    match world.read_note(&mut room) {
        Ok(count) => Told {
            line: line_in(&room[..count]),
            unread: false,
            goes: is_lone(alone, count),
        },
        Err(_) => Told {
            line: None,
            unread: true,
            goes: alone,
        },
    }
}

/// Whether an image that was judged so isn't written to.
fn keeps_off(told: bool, missing: bool, verdict: Verdict) -> bool
    ensures { result ≡ keeps_off told missing verdict }
{
    match verdict {
        Verdict::Same => missing,
        Verdict::Other => true,
        Verdict::Untold => missing || told,
    }
}

/// Whether a task is refused for what its image was judged to be.
pub fn is_kept_off(terms: &Terms, verdict: Option<Verdict>) -> bool
    ensures { result ≡ is_kept_off terms.now verdict }
{
    match verdict {
        Some(verdict) => {
            !terms.guard.anyway
                && (terms.unread || keeps_off(terms.guard.told, terms.missing, verdict))
        }
        None => false,
    }
}

/// Whether a line tells that an undo or a redo would find another image, by what is found of finished texts.
pub fn is_moved_off<R: Read>(line: &ImageLine, now: &Standing, task: &Task<R>) -> bool
    ensures { result ≡ is_moved_off line.now now.now task.now }
{
    match task {
        Task::Run(Command::Undo { k }) => is_undo_refused(line, now, *k),
        Task::Run(Command::Redo { j }) => is_redo_refused(line, now, *j),
        Task::Run(
            Command::Revert { .. }
            | Command::RevertPlain { .. }
            | Command::Dd { .. }
            | Command::Copy { .. }
            | Command::Patch { .. },
        )
        | Task::Put(_)
        | Task::Keep(_) => false,
    }
}
