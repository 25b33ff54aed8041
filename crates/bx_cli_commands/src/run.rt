//! Lists of commands, run in order on a session.
ghost use Rattle.std.specs.Prelude.{◌≡◌, ◌+◌, ◌^◌, ◌≤◌, ℕ, [], length, IfOk, OnErr, All, count_by};
ghost use Rattle.bx_journal.specs.Session.{IsRedoSame, IsUnfailed};
ghost use Rattle.bx_cli_commands.specs.Obeys.{Obeys};
ghost use Rattle.bx_cli_commands.specs.Standing.{CountsBelow, CountsBy, HoldsAt, LeadsOn, RestsAt, Shows};
ghost use Rattle.bx_cli_commands.specs.Command.{IsNear};
ghost use Rattle.bx_cli_commands.specs.Power.{RunFinds};
ghost use Rattle.bx_cli_commands.specs.Refusal.{IsOwnRefusal, IsWholeRefusal, KeepsImageAndJournal};
ghost use Rattle.bx_cli_commands.specs.Run.{is_failure, ReadStep, DdStep, CommandRun, Runs, Unfailed, UndoesStep, RedoesStep, DumpStep, PlainStep};
ghost use Rattle.bx_cli_commands.specs.SessionRun.{AllObey, SessionStep};
ghost use Rattle.bx_cli_commands.specs.Tells.{ChangeTells, RedoTells, Tells, UndoTells};

mod change;
mod kept;
mod patch;

use crate::changes::{DdChange, change_of_dd, change_of_dump, change_of_plain, change_of_plan};
use crate::{Command, Fault, Reply};
use bx_dd::DdFault;
use bx_image::{Change, Device, NoMemory};
use bx_journal::Session;
use bx_journal_store::TextStore;
use bx_read::ReadFault;
use bx_text::Bytes;
use change::run_change;
use core::mem::replace_with;
pub use kept::{refuse_growth, run_kept};
use patch::run_patch;
use std::alloc::Allocator;
use std::io::Read;

/// Takes changes back.
fn run_undo<D: Device, T: TextStore, A: Allocator + Clone>(
    session: &mut Session<D, T, A>,
    k: u32,
) -> Reply
    requires countable { CountsBelow D.Device T.TextStore u64.MAX session.old }
    ensures obeys { Obeys D.Device T.TextStore session.old session.new result (λ s. UndoesStep s k) }
    ensures tells { UndoTells k session.old result session.new }
{
    match session.undo(k) {
        Ok(left) => Reply::Undone { left },
        Err(fault) => Reply::Refused(Fault::Session(fault)),
    }
}

/// Makes undone changes again.
fn run_redo<D: Device, T: TextStore, A: Allocator + Clone>(
    session: &mut Session<D, T, A>,
    j: u32,
) -> Reply
    requires countable { CountsBelow D.Device T.TextStore u64.MAX session.old }
    ensures obeys { Obeys D.Device T.TextStore session.old session.new result (λ s. RedoesStep s j) }
    ensures tells { RedoTells j session.old result session.new }
{
    match session.redo(j) {
        Ok(changes) => Reply::Redone { changes },
        Err(fault) => Reply::Refused(Fault::Session(fault)),
    }
}

/// Makes the change of a text that was read, or refuses it for the text's fault.
pub fn change_if_read<D: Device, T: TextStore, A: Allocator + Clone>(
    session: &mut Session<D, T, A>,
    read: Result<Change<A>, ReadFault>,
) -> Reply
    requires countable { CountsBelow D.Device T.TextStore u64.MAX session.old }
    ensures obeys { Obeys D.Device T.TextStore session.old session.new result (λ s. ReadStep s (λ c. c) read) }
    ensures tells { ChangeTells session.old result session.new }
{
    match read {
        Ok(change) => run_change(session, &change, None),
        Err(read_fault) => Reply::Refused(Fault::Read(read_fault)),
    }
}

/// Makes the change that dd asks for, or refuses it for the fault of its operands or its input.
pub fn run_dd<D: Device, T: TextStore, A: Allocator + Clone>(
    session: &mut Session<D, T, A>,
    made: Result<DdChange<A>, DdFault>,
) -> Reply
    requires countable { CountsBelow D.Device T.TextStore u64.MAX session.old }
    ensures obeys { Obeys D.Device T.TextStore session.old session.new result (λ s. DdStep s made) }
    ensures tells { ChangeTells session.old result session.new }
{
    match made {
        Ok(made) => run_change(session, &made.change, Some(made.counts)),
        Err(dd_fault) => Reply::Refused(Fault::Dd(dd_fault)),
    }
}

/// Puts a dump onto the image. The whole text is read first, and dropped before the change is made.
fn revert_dump<D: Device, T: TextStore, A: Allocator + Clone>(
    alloc: &A,
    session: &mut Session<D, T, A>,
    text: &mut Bytes<A>,
    offset: u64,
) -> Reply
    requires countable { CountsBelow D.Device T.TextStore u64.MAX session.old }
    requires near { offset ≤ 2 ^ 62 }
    ensures obeys { Obeys D.Device T.TextStore session.old session.new result (λ s. DumpStep A s text.old offset) }
    ensures left { text.new ≡ [] }
    ensures tells { ChangeTells session.old result session.new }
{
    let change = change_of_dump(alloc, text.as_slice(), offset);
    drop_text(text);
    change_if_read(session, change)
}

/// Puts plain hexadecimal onto the image. The whole text is read first, and dropped before the change is made.
fn revert_plain<D: Device, T: TextStore, A: Allocator + Clone>(
    alloc: &A,
    session: &mut Session<D, T, A>,
    text: &mut Bytes<A>,
    at: u64,
) -> Reply
    requires countable { CountsBelow D.Device T.TextStore u64.MAX session.old }
    ensures obeys { Obeys D.Device T.TextStore session.old session.new result (λ s. PlainStep A s text.old at) }
    ensures left { text.new ≡ [] }
    ensures tells { ChangeTells session.old result session.new }
{
    let change = change_of_plain(alloc, text.as_slice(), at);
    drop_text(text);
    change_if_read(session, change)
}

/// Gives the memory of a text back that was read, which leaves an empty one.
fn drop_text<A: Allocator>(text: &mut Bytes<A>)
    ensures { text.new ≡ [] }
{
    replace_with(text, (), emptied);
}

/// The bytes without any, and without their memory.
fn emptied<A: Allocator>(bytes: Bytes<A>, _: ()) -> (Bytes<A>, ())
    ensures { result.0 ≡ [] }
{
    let mut items = bytes.into_vec();
    items.clear();
    items.shrink_to_fit();
    (Bytes::from_vec(items), ())
}

/// Runs one command, as `run_all` does with each of a list: a fault of its own comes before the session's.
pub fn run_one<D: Device, T: TextStore, R: Read, A: Allocator + Clone>(
    alloc: &A,
    session: &mut Session<D, T, A>,
    command: &mut Command<R, A>,
) -> Reply
    requires countable { CountsBelow D.Device T.TextStore u64.MAX session.old }
    requires near { IsNear command.old }
    ensures runs { SessionStep (Obeys D.Device T.TextStore) Tells R.remaining session.old command.old command.new result session.new }
{
    match command {
        Command::Revert { text, offset } => revert_dump(alloc, session, text, *offset),
        Command::RevertPlain { text, at } => revert_plain(alloc, session, text, *at),
        Command::Dd { operands, input } => {
            let made = change_of_dd(alloc, operands, input);
            run_dd(session, made)
        }
        Command::Copy { plan, input } => {
            let made = change_of_plan(alloc, plan, input);
            run_dd(session, made)
        }
        Command::Patch { patch } => run_patch(alloc, session, patch),
        Command::Undo { k } => run_undo(session, *k),
        Command::Redo { j } => run_redo(session, *j),
    }
}

/// Runs the commands in order, and goes on after a refusal. Room for all replies is made first: where it is refused, no
/// command ran. The text of a revert is dropped once it is read, so its memory is free before the change is made.
pub fn run_all<D: Device, T: TextStore, R: Read, A: Allocator + Clone>(
    alloc: A,
    session: &mut Session<D, T, A>,
    list: &mut [Command<R, A>],
) -> Result<Vec<Reply, A>, NoMemory>
    requires image_countable { D.failures session.old.image + length list.old ≤ u64.MAX }
    requires journal_countable { T.failures session.old.journal + length list.old ≤ u64.MAX }
    requires redo_countable { T.failures session.old.redo + length list.old ≤ u64.MAX }
    requires near { All IsNear list.old }

    // Where the devices are faithful and none fails, the replies and the final devices are a run of the machine, from the whole
    // images that the first devices stand for to those that the final ones stand for.
    ensures headline { IfOk result (λ p. Runs D.Device T.TextStore (Shows D.image T.text) R.remaining session.old list.old p.items session.new) }

    // From a sound journal it leaves a sound one.
    ensures sound { IfOk result (λ p. Runs D.Device T.TextStore (RestsAt D.image T.text) R.remaining session.old list.old p.items session.new) }

    // Whatever devices fail: up to the first failure after a write it is a run in which a device may refuse a command, and
    // then each reply is the command's own fault or says that the session is broken.
    ensures run { IfOk result (λ p. LeadsOn (HoldsAt D.Device T.TextStore) (λ s. CommandRun R.remaining s list.old p.items) session.old session.new) }

    // Whatever moment the power was lost at, opening finds what a run with these replies ends in; where the session goes on, that
    // is where it stands. Where all commands are refused, what is found is what was to be found before them.
    ensures survives { IfOk result (λ p. RunFinds D.Device T.TextStore R.remaining session.old list.old p.items session.new) }

    // Each reply, in any list: a command that is refused for a fault of its own leaves the session as it was, and one that
    // is refused, but by no interruption, leaves image, journal and redo text, byte for byte. What another makes of the
    // session is its step, and whatever the devices are, its numbers are the session's counts. Of dd's input as much is read
    // as its operands read, and nothing where they have a fault. The text of a revert is left empty, whatever
    // became of it, and a patch with nothing that it asks.
    ensures each { IfOk result (λ p. AllObey D.Device T.TextStore R.remaining session.old list.old list.new p.items session.new) }

    // A device's failure raises its count, and as many replies tell of one as the three counts rose by.
    ensures told { IfOk result (λ replies. CountsBy D.Device T.TextStore session.old session.new (count_by is_failure replies.items)) }
    ensures unfailed { IsUnfailed D.failures T.failures session.old session.new → IfOk result (λ replies. All Unfailed replies.items) }

    // No count of failures falls, and the three together rise by no more than one for each command.
    ensures counts { (failed : ℕ) × (failed ≤ length list.old) × CountsBy D.Device T.TextStore session.old session.new failed }

    // So a list whose commands are all refused for faults of their own leaves the session. One whose commands are all
    // refused, but by no interruption, leaves image and text, byte for byte, and the redo text with the count of what is undone.
    ensures own { IfOk result (λ replies. All IsOwnRefusal replies.items → session.new ≡ session.old) }
    ensures same { IfOk result (λ p. All IsWholeRefusal p.items → KeepsImageAndJournal D.Device T.TextStore session.old session.new) }
    ensures redo_same { T.faithful session.old.redo
        → IfOk result (λ replies. All IsWholeRefusal replies.items → IsRedoSame T.text session.old session.new) }

    // Where memory for the replies is refused, no command ran.
    ensures refused { OnErr result ((session.new ≡ session.old) × (list.new ≡ list.old)) }
{
    let mut replies = Vec::with_capacity(alloc.clone().map_err(|_| NoMemory)?, list.len()).map_err(
        |_| NoMemory,
    )?;
    for command in list.iter_mut() {
        let reply = run_one(&alloc, session, command);
        replies.push(reply).unwrap();
    }
    Ok(replies)
}
