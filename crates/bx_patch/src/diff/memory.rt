//! What a comparison is made with.
ghost use Rattle.std.specs.Prelude.{◌≡◌, ◌++◌, length, string_bytes, codes, IfOk, IfErr, OnOk};
ghost use Rattle.bx_patch.specs.Text.{length_text};
ghost use Rattle.bx_patch.specs.private.Diff.{lengths_line};

use crate::diff::device::{Lengths, WINDOW};
use crate::diff::fault::DiffFault;
use crate::diff::writing::Writing;
use std::alloc::{AllocError, Allocator};
use std::fmt::Write as _;

/// Two windows, the first line, and the lines that are gathered.
#[derive(Drop)]
pub struct Memory<A: Allocator> {
    pub buffer: Vec<u8, A>,
    pub head: String<A>,
    pub writing: Writing<A>,
}

/// Adds the line that tells both lengths.
fn push_lengths<A: Allocator>(text: &mut String<A>, old: u64, new: u64) -> Result<(), AllocError>
    ensures { OnOk result (string_bytes text.new ≡ string_bytes text.old ++ lengths_line old new) }
{
    write!(text, "length {} to {}\n", old, new)
}

/// The line that tells both lengths.
fn header<A: Allocator>(alloc: A, lengths: Lengths) -> Result<String<A>, AllocError>
    ensures { IfOk result (λ line. string_bytes line ≡ length_text lengths.old lengths.new ++ codes "\n") }
{
    let mut line = String::new(alloc);
    match push_lengths(&mut line, lengths.old, lengths.new) {
        Ok(()) => Ok(line),
        Err(fault) => Err(fault),
    }
}

/// The memory for a comparison of two devices of these lengths.
fn allocate<A: Allocator + Clone>(alloc: &A, lengths: Lengths) -> Result<Memory<A>, AllocError>
    ensures head { IfOk result (λ m. string_bytes m.head ≡ length_text lengths.old lengths.new ++ codes "\n") }
    ensures room { IfOk result (λ m. length m.buffer.items ≡ 65536) }
    ensures fresh { IfOk result (λ m. m.writing.number ≡ 0) }
    ensures none { IfOk result (λ m. m.writing.written ≡ 0) }
{
    let head = header(alloc.clone()?, lengths)?;
    let buffer = vec![in alloc.clone()?; 0u8; 2 * WINDOW]?;
    let writing = Writing {
        text: Vec::new(alloc.clone()?),
        number: 0,
        written: 0,
    };
    Ok(Memory {
        buffer,
        head,
        writing,
    })
}

/// The same, as a comparison answers that there is none.
pub fn memory_for<A: Allocator + Clone>(alloc: &A, lengths: Lengths) -> Result<Memory<A>, DiffFault>
    ensures head { IfOk result (λ m. string_bytes m.head ≡ length_text lengths.old lengths.new ++ codes "\n") }
    ensures room { IfOk result (λ m. length m.buffer.items ≡ 65536) }
    ensures fresh { IfOk result (λ m. m.writing.number ≡ 0) }
    ensures none { IfOk result (λ m. m.writing.written ≡ 0) }
    ensures kind { IfErr result (λ e. e ≡ DiffFault.NoMemory) }
{
    match allocate(alloc, lengths) {
        Ok(memory) => Ok(memory),
        Err(_) => Err(DiffFault::NoMemory),
    }
}
