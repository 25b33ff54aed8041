//! Heaps that get all memory back.
ghost use Rattle.std.specs.Prelude.{IfOk};
ghost use Rattle.bx_cli_commands.specs.Command.{IsNear};

use crate::expected::words;
use crate::sessions::{MemSession, open, run, trio};
use bx_cli::{Command, Fault, Reply};
use bx_text::{Bytes, NoMemory};
use linked_list_allocator::LocalHeap;
use std::alloc::{AllocError, Global};
use std::process::Abort;
use std::test::Fail;

/// A dump of many lines that write the same bytes.
fn large(alloc: Global) -> Result<String, AllocError> {
    let mut text = String::new(alloc);
    for _ in 0..40 {
        text.push_str("0: 6262 6262 6262 6262\n")?;
    }
    Ok(text)
}

type HeapCommand<'a> = Command<&'static [u8], &'a LocalHeap>;

fn revert<'a>(heap: &'a LocalHeap, dump: &str) -> Result<HeapCommand<'a>, AllocError>
    ensures { IfOk result IsNear }
{
    let text = Bytes::from_vec(dump.as_bytes().to_vec(heap)?);
    Ok(Command::Revert { text, offset: 0 })
}

fn transfer<'a>(heap: &'a LocalHeap) -> Result<HeapCommand<'a>, Fault>
    ensures { IfOk result IsNear }
{
    let operands = words(heap, "ibs=3 cbs=4 conv=block,lcase,notrunc")?;
    let input = b"AB\n".as_slice();
    Ok(Command::Dd { operands, input })
}

/// A transfer, a large change, an undo and a redo.
fn run_four<'a>(
    heap: &'a LocalHeap,
    session: &mut MemSession<&'a LocalHeap>,
    large: &str,
) -> Result<Vec<Reply, &'a LocalHeap>, Fault> {
    let mut list = [
        transfer(heap)?,
        revert(heap, large)?,
        Command::Undo { k: 1 },
        Command::Redo { j: 1 },
    ];
    run(heap, session, &mut list)
}

/// What became of the four.
#[derive(Clone, Copy)]
enum Outcome {
    Some,
    /// The large change was refused, and the undo and the redo behind it were made.
    GoesOn,
    All,
}

fn outcome_of(replies: &[Reply]) -> Outcome {
    match replies {
        [
            Reply::Copied { .. },
            Reply::Changed { .. },
            Reply::Undone { .. },
            Reply::Redone { .. },
        ] => Outcome::All,
        [
            Reply::Copied { .. },
            Reply::Refused(_),
            Reply::Undone { .. },
            Reply::Redone { .. },
        ] => Outcome::GoesOn,
        _ => Outcome::Some,
    }
}

/// The image behind the first `changes` of the two changes.
fn image_of(changes: u32) -> &'static [u8] {
    match changes {
        0 => b"ABCDEFGH",
        1 => b"ab  EFGH",
        _ => b"bbbbbbbb",
    }
}

/// The four commands in a heap: the image that they leave is that of the changes that stand.
fn four_in<'a>(
    rt: &impl Abort,
    alloc: Global,
    heap: &'a LocalHeap,
    large: &str,
) -> Result<Outcome, Fail> {
    let Ok((mut session, _)) = open(heap, trio(alloc, (image_of(0), b"", b""))?) else {
        return Ok(Outcome::Some);
    };
    let outcome = match run_four(heap, &mut session, large) {
        Ok(replies) => outcome_of(replies.as_slice()),
        Err(_) => Outcome::Some,
    };
    let image = image_of(session.changes());
    let (device, _, _) = session.close();
    assert!(rt; device.as_slice() == image);
    Ok(outcome)
}

/// The four commands in a heap of `bytes` bytes, which all come back.
fn in_heap(rt: &impl Abort, alloc: Global, bytes: usize, large: &str) -> Result<Outcome, Fail> {
    let heap = LocalHeap::new(alloc, bytes)?;
    let outcome = four_in(rt, alloc, &heap, large)?;
    assert!(rt; heap.used() == 0);
    Ok(outcome)
}

#[test]
fn nothing_is_lost(rt: HostRuntime) -> Result<(), Fail> {
    let large = large(rt.alloc())?;
    let mut goes_on = 0u32;
    for units in 1..4000usize {
        match in_heap(&rt, rt.alloc(), units * 16, large.as_str())? {
            Outcome::All => {
                assert!(rt; goes_on > 3);
                return Ok(());
            }
            Outcome::GoesOn => goes_on = goes_on.saturating_add(1),
            Outcome::Some => {}
        }
    }
    Err(Fault::from(NoMemory).into())
}
