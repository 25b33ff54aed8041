//! The page that an entry's text is gathered in.
ghost use Rattle.std.specs.Prelude.{◌≡◌, ◌≤◌, [], vec_capacity, IfOk};

use bx_text::NoMemory;
use std::alloc::Allocator;

/// The most bytes of a page, which has room for each line.
const MOST: u64 = 262_144;

const LEAST: u64 = 82;

/// An empty page for a text of `len` bytes: with room for all of them, or for as many as a page has at most.
pub fn new_page<A: Allocator>(alloc: A, len: u64) -> Result<Vec<u8, A>, NoMemory>
    ensures empty { IfOk result (λ page. page.items ≡ []) }
    ensures room { IfOk result (λ page. 82 ≤ vec_capacity page) }
{
    let room = len.max(LEAST).min(MOST);
    Vec::with_capacity(alloc, room as usize).map_err(|_| NoMemory)
}
