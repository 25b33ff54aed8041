//! From the texts of commands to changes.
ghost use Rattle.std.specs.Prelude.{◌≡◌, ◌⊎◌, ◌+◌, ◌^◌, ◌<◌, ◌≤◌, ℕ, List, map, None, Ok, Err, MatchResult, IfOk, IfErr, OnErr, All};
ghost use Rattle.bx_cli_commands.specs.Command.{dump_change, plain_change, moved};
ghost use Rattle.bx_cli_commands.specs.Copy.{MakesCopy, CopiesBy};
ghost use Rattle.bx_dd.specs.Transfer.{HasStopped, ReadsWithin};
ghost use Rattle.bx_read.specs.Plain.{plain_answer};
ghost use Rattle.bx_read.specs.Runs.{joined};
ghost use Rattle.bx_read.specs.Text.{dump_pieces, contents};

use bx_dd::{Counts, DdFault, Plan, parse, transfer};
use bx_image::Change;
use bx_read::{ReadFault, read_plain, read_runs};
use bx_text::{Bytes, Piece, Pieces, Words};
use std::alloc::{Allocator, Global};
use std::io::Read;

/// The change that puts each piece of a dump at its address plus `offset`, with one write for pieces that go on with one
/// another. The whole text is read first.
pub fn change_of_dump<A: Allocator + Clone>(
    alloc: &A,
    text: &[u8],
    offset: u64,
) -> Result<Change<A>, ReadFault>
    requires { offset ≤ 2 ^ 62 }
    ensures change { IfOk result (λ c. (pieces : List (ℕ × List ℕ)) × (dump_pieces text.now ≡ Ok pieces) × (c ≡ dump_change offset (joined pieces))) }
    ensures fault { IfErr result (λ e. (e ≡ ReadFault.NoMemory) ⊎ (dump_pieces text.now ≡ Err e)) }
{
    let runs = read_runs(alloc.clone()?, text)?;
    Ok(change_of_runs(runs, offset))
}

/// The change that puts each run at its address plus `offset`.
pub fn change_of_runs<A: Allocator>(mut runs: Vec<Piece<A>, A>, offset: u64) -> Change<A>
    requires near { All (λ run. run.at < 2 ^ 62) runs.items }
    requires far { offset ≤ 2 ^ 62 }
    ensures { result ≡ dump_change offset (contents runs.items) }
{
    move_pieces(runs.as_mut_slice(), offset);
    Change {
        base: None,
        writes: Pieces::from_vec(runs),
    }
}

/// Adds `offset` to the address of each piece.
fn move_pieces<A: Allocator>(pieces: &mut [Piece<A>], offset: u64)
    requires { All (λ p. p.at + offset < 2 ^ 64) pieces.old }
    ensures { pieces.new ≡ map (moved offset) pieces.old }
{
    for piece in pieces.iter_mut() {
        piece.at += offset;
    }
}

/// The change that puts the bytes of plain hexadecimal at a place.
pub fn change_of_plain<A: Allocator + Clone>(
    alloc: &A,
    text: &[u8],
    at: u64,
) -> Result<Change<A>, ReadFault>
    ensures change { IfOk result (λ c. (bytes : List ℕ) × (plain_answer text.now ≡ Ok bytes) × (c ≡ plain_change at bytes)) }
    ensures fault { IfErr result (λ e. (e ≡ ReadFault.NoMemory) ⊎ (plain_answer text.now ≡ Err e)) }
{
    let bytes = read_plain(alloc.clone()?, text)?;
    change_of_bytes(alloc, bytes, at)
}

/// The change that puts bytes at a place.
pub fn change_of_bytes<A: Allocator + Clone>(
    alloc: &A,
    bytes: Vec<u8, A>,
    at: u64,
) -> Result<Change<A>, ReadFault>
    ensures { MatchResult result (λ c. c ≡ plain_change at bytes.items) (λ e. e ≡ ReadFault.NoMemory) }
{
    let mut writes = Vec::new(alloc.clone()?);
    writes.push(Piece {
        at,
        bytes: Bytes::from_vec(bytes),
    })?;
    Ok(Change {
        base: None,
        writes: Pieces::from_vec(writes),
    })
}

/// A change that dd asks for, and what it counted.
#[derive(Drop)]
pub struct DdChange<A: Allocator = Global> {
    pub change: Change<A>,
    pub counts: Counts,
}

/// The change that dd's operands make of the input. A fault of the operands comes before anything is read.
pub fn change_of_dd<R: Read, A: Allocator + Clone>(
    alloc: &A,
    operands: &Words<A>,
    input: &mut R,
) -> Result<DdChange<A>, DdFault>
    ensures { MakesCopy operands.now (R.remaining input.old) (R.remaining input.new) result }
{
    let plan = match parse(alloc.clone()?, operands) {
        Ok(plan) => plan,
        Err(fault) => return Err(fault),
    };
    change_of_plan(alloc, &plan, input)
}

/// The change that a plan makes of the input.
pub fn change_of_plan<R: Read, A: Allocator + Clone>(
    alloc: &A,
    plan: &Plan<A>,
    input: &mut R,
) -> Result<DdChange<A>, DdFault>
    ensures ok { IfOk result (CopiesBy plan.now (R.remaining input.old) (R.remaining input.new)) }
    ensures err { IfErr result (HasStopped (R.remaining input.old) (R.remaining input.new) (2 ^ 40)) }
    ensures within { OnErr result (ReadsWithin plan.now (R.remaining input.old) (R.remaining input.new)) }
{
    let copied = transfer(alloc.clone()?, input, plan)?;
    let change = plan.change(alloc.clone()?, copied.bytes)?;
    Ok(DdChange {
        change,
        counts: copied.counts,
    })
}
