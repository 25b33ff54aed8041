//! What a case asks a session for: commands, changes that no command makes, the log.
ghost use Rattle.std.specs.Prelude.{◌≡◌, All, IfOk, IfSome, length};
ghost use Rattle.bx_cli_commands.specs.Command.{IsNear};

use crate::report::compare::{Wrong, is_out_of_memory, same_bytes, unwanted};
use crate::session::MANY;
use bumpalo::Bump;
use bx_cli::{Command, Fault, Reply, log_text, run_all};
use bx_dd::parse;
use bx_image::{Change, Device};
use bx_journal::{Session, SessionFault};
use bx_journal_store::TextStore;
use bx_patch::{Patch, read_patch};
use bx_text::{Bytes, IoFault, Piece, Pieces, Words};
use std::alloc::{Allocator, Global};
use test_arena::{squeeze, used};
use test_case_files::Ask;

/// The furthest place that a command names.
const MOST_PLACE: u64 = 1 << 62;

fn bytes_of<A: Allocator>(alloc: A, bytes: &[u8]) -> Result<Bytes<A>, Wrong> {
    Ok(Bytes::from_vec(bytes.to_vec(alloc)?))
}

fn words_of<A: Allocator + Clone>(alloc: A, words: &Words) -> Result<Words<A>, Wrong> {
    let mut copy = Words::new(alloc);
    for i in 0..words.len() {
        copy.push(words.get(i).unwrap_or(""))?;
    }
    Ok(copy)
}

/// The change that a case tells.
fn change_of<A: Allocator + Clone>(
    alloc: A,
    base: Option<u64>,
    writes: &[test_case_files::Write],
) -> Result<Change<A>, Wrong> {
    let mut list = Vec::new(alloc.clone()?);
    for write in writes {
        let bytes = bytes_of(alloc.clone()?, write.bytes.as_slice())?;
        list.push(Piece {
            at: write.at,
            bytes,
        })?;
    }
    let writes = Pieces::from_vec(list);
    Ok(Change { base, writes })
}

/// The command that a case tells, in memory of `alloc`; none where it is no command.
fn command_of<A: Allocator + Clone>(alloc: A, ask: &Ask) -> Result<Option<Command<&[u8], A>>, Wrong>
    ensures { IfOk result (λ o. IfSome o IsNear) }
{
    match ask {
        Ask::Revert { dump, shift } => {
            let text = bytes_of(alloc, dump.as_slice())?;
            let offset = (*shift).min(MOST_PLACE);
            Ok(Some(Command::Revert { text, offset }))
        }
        Ask::Plain { digits, at } => {
            let text = bytes_of(alloc, digits.as_slice())?;
            let at = (*at).min(MOST_PLACE);
            Ok(Some(Command::RevertPlain { text, at }))
        }
        Ask::Dd { operands, input } => {
            let operands = words_of(alloc, operands)?;
            let input = input.as_slice();
            Ok(Some(Command::Dd { operands, input }))
        }
        Ask::Undo(k) => Ok(Some(Command::Undo { k: *k })),
        Ask::Redo(j) => Ok(Some(Command::Redo { j: *j })),
        Ask::Patch { .. } | Ask::Change { .. } | Ask::Open => Ok(None),
    }
}

/// The arena that memory is taken from, and how many bytes it hands out from here on.
pub type Limit<'a> = Option<(&'a Bump, usize)>;

/// From here on memory is short, where it is to be.
pub fn limit_to(limit: Limit<'_>) -> Result<(), Wrong> {
    if let Some((bump, bytes)) = limit {
        squeeze(bump, bytes)?;
    }
    Ok(())
}

/// From here on there is room. Tells how many bytes a call had taken that was refused.
pub fn eased(limit: Limit<'_>, is_refused: bool) -> Option<usize> {
    let mut taken = 0;
    if let Some((bump, bytes)) = limit {
        taken = used(bump, bytes);
        bump.set_allocation_limit(None);
    }
    if is_refused { Some(taken) } else { None }
}

/// Asks for what a case tells, with memory that gets short once it is asked for.
pub fn ask_for<D: Device, T: TextStore, A: Allocator + Clone>(
    alloc: A,
    session: &mut Session<D, T, A>,
    ask: &Ask,
    limit: Limit<'_>,
) -> Result<Reply, Wrong> {
    match ask {
        Ask::Change { base, writes } => {
            ask_change(alloc, session, *base, writes.as_slice(), limit)
        }
        _ => ask_command(alloc, session, ask, limit),
    }
}

fn ask_command<D: Device, T: TextStore, A: Allocator + Clone>(
    alloc: A,
    session: &mut Session<D, T, A>,
    ask: &Ask,
    limit: Limit<'_>,
) -> Result<Reply, Wrong> {
    if let Ask::Patch { text, reversed } = ask {
        return apply(alloc, session, text.as_slice(), *reversed, limit);
    }
    if let (Ask::Dd { operands, input }, None) = (ask, limit) {
        return copy(alloc, session, operands, input.as_slice());
    }
    match command_of(alloc.clone()?, ask)? {
        Some(command) => run_one(alloc, session, command, limit),
        None => Err(Wrong::Unknown),
    }
}

/// dd by the plan of its operands, as the program runs it; where memory gets short it is run by the operands themselves.
fn copy<D: Device, T: TextStore, A: Allocator + Clone>(
    alloc: A,
    session: &mut Session<D, T, A>,
    operands: &Words,
    input: &[u8],
) -> Result<Reply, Wrong> {
    match parse(alloc.clone()?, operands) {
        Ok(plan) => run_one(alloc, session, Command::Copy { plan, input }, None),
        Err(fault) => Ok(Reply::Refused(Fault::Dd(fault))),
    }
}

/// The change of a patch, which is read first, as the program does it; memory gets short behind that.
fn apply<D: Device, T: TextStore, A: Allocator + Clone>(
    alloc: A,
    session: &mut Session<D, T, A>,
    text: &[u8],
    reversed: bool,
    limit: Limit<'_>,
) -> Result<Reply, Wrong> {
    match asked_of(alloc.clone()?, text, reversed) {
        Ok(patch) => run_one(alloc, session, Command::Patch { patch }, limit),
        Err(fault) => Ok(Reply::Refused(fault)),
    }
}

/// What the text of a patch asks, or the same the other way round.
fn asked_of<A: Allocator + Clone>(
    alloc: A,
    text: &[u8],
    reversed: bool,
) -> Result<Patch<A>, Fault> {
    match read_patch(alloc, text) {
        Ok(patch) if reversed => match patch.reversed() {
            Some(turned) => Ok(turned),
            None => Err(Fault::NotReversible),
        },
        Ok(patch) => Ok(patch),
        Err(fault) => Err(Fault::Patch(fault)),
    }
}

fn ask_change<D: Device, T: TextStore, A: Allocator + Clone>(
    alloc: A,
    session: &mut Session<D, T, A>,
    base: Option<u64>,
    writes: &[test_case_files::Write],
    limit: Limit<'_>,
) -> Result<Reply, Wrong> {
    let change = change_of(alloc, base, writes)?;
    limit_to(limit)?;
    perform(session, &change)
}

/// Takes changes back.
pub fn undo<D: Device, T: TextStore, A: Allocator + Clone>(
    alloc: A,
    session: &mut Session<D, T, A>,
    k: u32,
) -> Result<Reply, Wrong> {
    run_one(alloc, session, Command::Undo { k }, None)
}

/// Makes undone changes again.
pub fn redo<D: Device, T: TextStore, A: Allocator + Clone>(
    alloc: A,
    session: &mut Session<D, T, A>,
    j: u32,
) -> Result<Reply, Wrong> {
    run_one(alloc, session, Command::Redo { j }, None)
}

/// Makes a change that no command makes.
fn perform<D: Device, T: TextStore, A: Allocator + Clone>(
    session: &mut Session<D, T, A>,
    change: &Change<A>,
) -> Result<Reply, Wrong> {
    if session.faults() > MANY {
        return Err(Wrong::Unknown);
    }
    match session.perform(change) {
        Ok(number) => Ok(Reply::Changed { number }),
        Err(fault) => Ok(Reply::Refused(Fault::from(fault))),
    }
}

/// Runs one command. It is refused where there is no room for a reply.
fn run_one<D: Device, T: TextStore, A: Allocator + Clone>(
    alloc: A,
    session: &mut Session<D, T, A>,
    command: Command<&[u8], A>,
    limit: Limit<'_>,
) -> Result<Reply, Wrong>
    requires { IsNear command }
{
    let mut list = Vec::new(alloc.clone()?);
    list.push(command)?;
    run_list(alloc, session, list.as_mut_slice(), limit)
}

/// Runs the one command of a list.
fn run_list<D: Device, T: TextStore, A: Allocator + Clone>(
    alloc: A,
    session: &mut Session<D, T, A>,
    list: &mut [Command<&[u8], A>],
    limit: Limit<'_>,
) -> Result<Reply, Wrong>
    requires near { All IsNear list.old }
    requires one { length list.old ≡ 1 }
{
    limit_to(limit)?;
    if session.faults() > MANY {
        return Err(Wrong::Unknown);
    }
    match run_all(alloc, session, list) {
        Ok(replies) => match replies.first() {
            Some(reply) => Ok(*reply),
            None => Err(Wrong::Unknown),
        },
        Err(_) => Ok(Reply::Refused(Fault::Io(IoFault::NoMemory))),
    }
}

/// The log of a session, as a text.
fn log_of<D: Device, T: TextStore, A: Allocator + Clone>(
    alloc: A,
    session: &mut Session<D, T, A>,
) -> Result<Vec<u8, A>, Fault> {
    if session.faults() > MANY {
        return Err(Fault::Session(SessionFault::DeviceFailed));
    }
    match session.log() {
        Ok(rows) => Ok(log_text(alloc, rows.as_slice())?.into_bytes()),
        Err(fault) => Err(Fault::from(fault)),
    }
}

/// Whether there was memory for the log of a session, which is this one.
pub fn lists<D: Device, T: TextStore, A: Allocator + Clone>(
    alloc: Global,
    memory: A,
    session: &mut Session<D, T, A>,
    log: &[u8],
) -> Result<bool, Wrong> {
    match log_of(memory, session) {
        Ok(found) => {
            same_bytes(alloc, "log", log, found.as_slice())?;
            Ok(true)
        }
        Err(fault) if is_out_of_memory(fault) => Ok(false),
        Err(fault) => Err(unwanted(alloc, "log", fault)),
    }
}
