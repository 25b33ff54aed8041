//! The plan that operands ask for.
ghost use Rattle.std.specs.Prelude.{◌≡◌, None, Err, IfOk, IfSome, IsOkUnless};
ghost use Rattle.bx_dd.specs.Operands.{operands_fault, given};
ghost use Rattle.bx_dd.specs.Parsing.{IsPlanOf};

use crate::fault::DdFault;
use crate::operands::plan::Plan;
use crate::operands::{
    block_size, converts, fault_of, given, is_quiet, letters_of, number_given, number_or, shape_of,
};
use bx_text::{Name, Words};
use std::alloc::Allocator;

/// The plan that dd's operands ask for, or the fault of the first faulty one. A fault of the operands comes whatever memory there is.
pub fn parse<A: Allocator + Clone, W: Allocator>(
    alloc: A,
    words: &Words<W>,
) -> Result<Plan<A>, DdFault>
    ensures refused { IfSome (operands_fault words.now) (λ e. result ≡ Err e) }
    ensures accepted { operands_fault words.now ≡ None → IsOkUnless result DdFault.NoMemory }
    ensures plan { IfOk result (IsPlanOf words.now) }
{
    match fault_of(words) {
        Some(fault) => Err(fault),
        None => plan_of(alloc, words),
    }
}

/// The plan of operands that are accepted.
fn plan_of<A: Allocator + Clone, W: Allocator>(
    alloc: A,
    words: &Words<W>,
) -> Result<Plan<A>, DdFault>
    requires { operands_fault words.now ≡ None }
    ensures plan { IfOk result (IsPlanOf words.now) }
    ensures fault { IsOkUnless result DdFault.NoMemory }
{
    let input = name_given(alloc.clone()?, words, "if")?;
    let output = name_given(alloc, words, "of")?;
    Ok(Plan {
        input,
        output,
        ibs: block_size(words, "ibs"),
        obs: block_size(words, "obs"),
        cbs: number_or(words, "cbs", 0),
        skip: number_or(words, "skip", 0),
        seek: number_or(words, "seek", 0),
        count: number_given(words, "count"),
        swab: converts(words, "swab"),
        sync: converts(words, "sync"),
        notrunc: converts(words, "notrunc"),
        quiet: is_quiet(words),
        letters: letters_of(words),
        shape: shape_of(words),
    })
}

/// The file of the operand of this name.
fn name_given<A: Allocator, W: Allocator>(
    alloc: A,
    words: &Words<W>,
    name: &str,
) -> Result<Option<Name<A>>, DdFault>
    ensures name { IfOk result (λ n. n ≡ given name.now words.now) }
    ensures fault { IsOkUnless result DdFault.NoMemory }
{
    match given(words, name) {
        Some(text) => Ok(Some(Name::from_string(String::from_str(alloc, text)?))),
        None => Ok(None),
    }
}
