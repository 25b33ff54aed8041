//! Pieces in the order of their addresses, among which those that reach into a window are found by a search.
ghost use Rattle.std.specs.Prelude.{◌≡◌, ◌+◌, ◌≤◌, All, IsTrue, length, nat_le, nat_lt};
ghost use Rattle.std.specs.List.{AllWithin};
ghost use Rattle.bx_patch.specs.private.preview.Order.{AreByPlace, IsNotBefore};

use bx_image::Change;
use bx_text::Piece;
use std::alloc::Allocator;

/// Whether a piece neither begins nor ends before another one.
fn is_not_before<A: Allocator>(piece: &Piece<A>, other: &Piece<A>) -> bool
    ensures { IsTrue result → IsNotBefore piece.now other.now }
{
    if piece.at < other.at {
        return false;
    }
    let count = piece.bytes.as_slice().len() as u64;
    let other_count = other.bytes.as_slice().len() as u64;
    other_count <= count || other_count - count <= piece.at - other.at
}

/// Whether the addresses of pieces rise, and their ends.
fn are_ordered<A: Allocator>(pieces: &[Piece<A>]) -> bool
    ensures { IsTrue result → AreByPlace pieces.now }
{
    for i in 1..pieces.len() {
        if !is_not_before(&pieces[i], &pieces[i - 1]) {
            return false;
        }
    }
    true
}

/// The same of the pieces of each change.
pub fn all_ordered<A: Allocator>(changes: &[Change<A>]) -> bool
    ensures { IsTrue result → All (λ c. AreByPlace c.writes) changes.now }
{
    for change in changes {
        if !are_ordered(change.writes.as_slice()) {
            return false;
        }
    }
    true
}

/// Whether a piece ends at an address or before it.
fn ends_by<A: Allocator>(piece: &Piece<A>, at: u64) -> bool
    ensures { result ≡ nat_le (piece.now.at + length piece.now.bytes) at }
{
    piece.at <= at && piece.bytes.as_slice().len() as u64 <= at - piece.at
}

/// How many of the first pieces end at an address or before it.
pub fn count_ended<A: Allocator>(pieces: &[Piece<A>], at: u64) -> usize
    requires ordered { AreByPlace pieces.now }
    ensures most { result ≤ length pieces.now }
    ensures ended { AllWithin (λ p. p.at + length p.bytes ≤ at) pieces.now 0 result }
{
    pieces.partition_point(|piece| ends_by(piece, at))
}

/// Whether a piece begins before the end of a window of `count` bytes.
fn begins_by<A: Allocator>(piece: &Piece<A>, at: u64, count: usize) -> bool
    ensures { result ≡ nat_lt piece.now.at (at + count) }
{
    piece.at < at || piece.at - at < count as u64
}

/// How many of the first pieces begin before the end of a window of `count` bytes.
pub fn count_begun<A: Allocator>(pieces: &[Piece<A>], at: u64, count: usize) -> usize
    requires ordered { AreByPlace pieces.now }
    ensures most { result ≤ length pieces.now }
    ensures behind { AllWithin (λ p. at + count ≤ p.at) pieces.now result (length pieces.now) }
{
    pieces.partition_point(|piece| begins_by(piece, at, count))
}
