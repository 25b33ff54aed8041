//! One block of the input.
ghost use Rattle.std.specs.Prelude.{◌≡◌, ℕ, ◌+◌, ◌-◌, ◌<◌, ◌≤◌, List, ◌++◌, map, replicate, OnOk, IfOk, if◌then◌else◌};
ghost use Rattle.bx_dd.specs.Output.{cased, filler, swapped};
ghost use Rattle.bx_dd.specs.private.Output.{block_of};

use crate::form::{Form, Letters, Shape};
use std::alloc::{AllocError, Allocator};

/// The block, filled up, swapped and in one case.
#[tactic(auto, unfolding(crate::specs::private::Output::block_of))]
pub fn ready_block<A: Allocator>(
    alloc: A,
    block: &[u8],
    form: Form,
) -> Result<Vec<u8, A>, AllocError>
    requires { form.ibs ≤ 1099511627775 }
    ensures { IfOk result (λ v. v.items ≡ block_of form block.now) }
{
    let mut ready = Vec::from_slice(alloc, block)?;
    if form.sync {
        push_fill(
            &mut ready,
            filler(form.shape),
            (form.ibs as usize).saturating_sub(block.len()),
        )?;
    }
    turn_block(ready.as_mut_slice(), form);
    Ok(ready)
}

/// A block that lacks no fill: swapped, and in one case.
pub fn turn_block(block: &mut [u8], form: Form)
    ensures { block.new ≡ map (cased form.letters) (if form.swab then swapped block.old else block.old) }
{
    if form.swab {
        swap_pairs(block);
    }
    change_case(block, form.letters);
}

/// The byte that fills up a short block.
pub fn filler(shape: Shape) -> u8
    ensures { result ≡ filler shape }
{
    match shape {
        Shape::Flat => 0,
        Shape::Block | Shape::Unblock => b' ',
    }
}

/// Appends a byte `count` times.
fn push_fill<A: Allocator>(bytes: &mut Vec<u8, A>, fill: u8, count: usize) -> Result<(), AllocError>
    ensures ok { OnOk result (bytes.new.items ≡ bytes.old.items ++ replicate count fill) }
{
    for _i in 0..count {
        bytes.push(fill)?;
    }
    Ok(())
}

/// The bytes of each pair change places.
#[tactic(auto, using(crate::proofs::BlockLemmas::pair_more, crate::proofs::BlockLemmas::pairs_all))]
fn swap_pairs(bytes: &mut [u8])
    ensures { bytes.new ≡ swapped bytes.old }
{
    for i in 0..bytes.len() / 2 {
        let first = bytes[2 * i];
        bytes[2 * i] = bytes[2 * i + 1];
        bytes[2 * i + 1] = first;
    }
}

/// ASCII letters in one case.
#[tactic(auto, using(std::proofs::lemmas::List::Edits::map_over_more, crate::proofs::BlockLemmas::map_kept))]
fn change_case(bytes: &mut [u8], letters: Letters)
    ensures { bytes.new ≡ map (cased letters) bytes.old }
{
    match letters {
        Letters::Keep => {}
        Letters::Upper => {
            for byte in bytes.iter_mut() {
                *byte = byte.to_ascii_uppercase();
            }
        }
        Letters::Lower => {
            for byte in bytes.iter_mut() {
                *byte = byte.to_ascii_lowercase();
            }
        }
    }
}
