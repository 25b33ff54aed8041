//! Runs that are put behind others.
ghost use Rattle.std.specs.Prelude.{◌≡◌, ◌++◌, ◌∷◌, [], IfOk, IfErr};
ghost use Rattle.bx_read.specs.Text.{contents};
ghost use Rattle.bx_read.specs.private.Window.{JoinsBehind};

use crate::fault::ReadFault;
use crate::full::rows::goes_on;
use bx_text::{Bytes, Piece};
use std::alloc::Allocator;

/// Puts runs behind others. The first of them may go on with the last of the others.
pub fn push_runs<A: Allocator>(
    runs: &mut Vec<Piece<A>, A>,
    more: Vec<Piece<A>, A>,
) -> Result<(), ReadFault>
    ensures joins { IfOk result (λ _. JoinsBehind (contents runs.old.items) (contents runs.new.items) (contents more.items)) }
    ensures fault { IfErr result (λ e. e ≡ ReadFault.NoMemory) }
{
    for run in more {
        push_run(runs, run)?;
    }
    Ok(())
}

/// Puts a run behind others. The last of them is longer, where the run goes on with it.
fn push_run<A: Allocator>(runs: &mut Vec<Piece<A>, A>, run: Piece<A>) -> Result<(), ReadFault>
    ensures joins { IfOk result (λ _. JoinsBehind (contents runs.old.items) (contents runs.new.items) ((run.at, run.bytes) ∷ [])) }
    ensures fault { IfErr result (λ e. e ≡ ReadFault.NoMemory) }
{
    let Some(last) = runs.pop() else {
        runs.push(run)?;
        return Ok(());
    };
    if !goes_on(last.at, last.bytes.as_slice().len(), run.at) {
        runs.push(last)?;
        runs.push(run)?;
        return Ok(());
    }
    runs.push(longer(last, run.bytes.as_slice())?)?;
    Ok(())
}

/// The run, with more bytes behind its own.
fn longer<A: Allocator>(run: Piece<A>, more: &[u8]) -> Result<Piece<A>, ReadFault>
    ensures longer { IfOk result (λ p. (p.at ≡ run.at) × (p.bytes ≡ run.bytes ++ more.now)) }
    ensures fault { IfErr result (λ e. e ≡ ReadFault.NoMemory) }
{
    let Piece { at, bytes } = run;
    let mut bytes = bytes.into_vec();
    bytes.extend_from_slice(more)?;
    Ok(Piece {
        at,
        bytes: Bytes::from_vec(bytes),
    })
}
