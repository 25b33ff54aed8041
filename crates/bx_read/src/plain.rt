//! Plain hexadecimal that is held whole.
ghost use Rattle.std.specs.Prelude.{◌≡◌, ◌⊎◌, ◌*◌, ◌≤◌, length, Ok, Err, MatchResult, IfOk};
ghost use Rattle.bx_read.specs.Plain.{plain_answer};

use crate::fault::ReadFault;
use crate::plain_window::PlainRead;
use std::alloc::Allocator;

/// Reads hexadecimal digits in either case, two for each byte. White space may stand anywhere, also inside a pair.
/// A fault is a byte that doesn't belong, at its line, or else a last digit without a second one, at its line.
pub fn read_plain<A: Allocator>(alloc: A, text: &[u8]) -> Result<Vec<u8, A>, ReadFault>
    // What is read is what the digits write, by `plain_has_form`.
    ensures exact { MatchResult result (λ v. plain_answer text.now ≡ Ok v.items) (λ e. (e ≡ ReadFault.NoMemory) ⊎ (plain_answer text.now ≡ Err e)) }
    ensures few { IfOk result (λ v. 2 * length v.items ≤ length text.now) }
{
    let mut read = PlainRead::with_capacity(alloc, text.len() / 2)?;
    read.read_window(text);
    read.finish()
}
