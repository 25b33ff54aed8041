//! The blocks of an image whose digests the line has: which they are, and which of them a change may have touched.
ghost use Rattle.std.specs.Prelude.{◌≡◌, ◌+◌, ◌<◌, ◌≤◌, ◌^◌, [], ◌∷◌, None, if◌then◌else◌};
ghost use Rattle.bx_journal_image.specs.Blocks.{AreStruck, block_at, block_len, is_touched, rest_from};

use crate::line::marks::{BLOCK, BLOCKS, Marks};
use crate::line::ranges::Range;

/// How many bytes each block has of an image of this length: a part of 32, rounded up, and 4,096 at most.
pub fn block_len(length: u64) -> usize
    ensures is { result ≡ block_len length }
    ensures most { result ≤ 4096 }
    ensures within { result ≤ length }
{
    if length >= 131_072 {
        return BLOCK;
    }
    ((length + 31) / 32) as usize
}

/// Where a block begins. The first begins the image, the last ends it, and the others lie evenly between them.
pub fn block_at(length: u64, i: usize) -> u64
    requires { i < 32 }
    ensures is { result ≡ block_at length i }
    ensures within { result + block_len length ≤ length }
{
    let room = length - block_len(length) as u64;
    let i = i as u64;
    room / 31 * i + room % 31 * i / 31
}

/// Whether a range has a byte of a block.
fn is_touched(length: u64, range: Range, i: usize) -> bool
    requires block { i < 32 }
    requires sum { range.at + range.count < 2 ^ 64 }
    ensures { result ≡ is_touched length range i }
{
    let at = block_at(length, i);
    let end = at + block_len(length) as u64;
    range.at < end && at < range.at + range.count
}

/// What is known of a block behind a change of this range.
fn mark_behind(mark: Option<u32>, length: u64, range: Range, i: usize) -> Option<u32>
    requires block { i < 32 }
    requires sum { range.at + range.count < 2 ^ 64 }
    ensures { result ≡ (if is_touched length range i then None else mark) }
{
    if is_touched(length, range, i) {
        None
    } else {
        mark
    }
}

/// Strikes the blocks of an image of this length that a range touches: nothing is known of them any more.
pub fn strike(marks: &mut Marks, length: u64, range: Range)
    requires { range.at + range.count < 2 ^ 64 }
    ensures { AreStruck length (range ∷ []) marks.old marks.new }
{
    for i in 0..BLOCKS {
        marks[i] = mark_behind(marks[i], length, range, i);
    }
}

/// Strikes the blocks that end behind an address.
pub fn strike_from(marks: &mut Marks, length: u64, at: u64)
    ensures { AreStruck length (rest_from at ∷ []) marks.old marks.new }
{
    let rest = Range {
        at,
        count: u64::MAX - at,
    };
    strike(marks, length, rest);
}
