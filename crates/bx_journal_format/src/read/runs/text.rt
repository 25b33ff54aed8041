//! A text that is read in its own memory.
ghost use Rattle.std.specs.Prelude.{◌≡◌, ◌≤◌, length, drop};

use std::alloc::{Allocator, Global};

/// A text in memory, and where what isn't read yet begins. Before that place other bytes may stand by now.
#[derive(Drop)]
pub struct Unread<A: Allocator = Global> {
    pub bytes: Vec<u8, A>,
    pub from: usize,
    ghost within: { from ≤ length bytes.items },
}

/// What isn't read yet.
#[inline(always)]
pub fn rest_of<A: Allocator>(text: &Unread<A>) -> &[u8]
    ensures { result.now ≡ drop text.now.from text.now.bytes.items }
{
    let (_, rest) = text.bytes.as_slice().split_at(text.from);
    rest
}

/// The text behind its next `count` bytes.
#[inline(always)]
pub fn behind<A: Allocator>(text: Unread<A>, count: usize) -> Unread<A>
    requires { count ≤ length (drop text.from text.bytes.items) }
    ensures { drop result.from result.bytes.items ≡ drop count (drop text.from text.bytes.items) }
{
    let Unread { bytes, from } = text;
    Unread {
        bytes,
        from: from + count,
    }
}
