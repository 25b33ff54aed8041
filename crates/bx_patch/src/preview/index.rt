//! Pieces in whatever order, among which those that reach into a window are found by a search.
ghost use Rattle.std.specs.Prelude.{◌≡◌, ◌+◌, ◌++◌, ◌%◌, ◌∷◌, ◌^◌, ◌<◌, ◌≤◌, ℕ, [], All, IsTrue, length};
ghost use Rattle.std.specs.List.{AllWithin, Contains};
ghost use Rattle.std.specs.List.Sorted.{IsNonDecreasing};
ghost use Rattle.bx_patch.specs.preview.Index.{IsIndexFor, IsIndexOf, Meets, key_of};
ghost use Rattle.bx_patch.specs.private.preview.Window.{AreAllNamed};

use crate::preview::order::all_ordered;
use bx_image::{Change, MAX_LEN};
use bx_text::Piece;
use std::alloc::{Allocator, Global};
use std::marker::Model;

/// How many bytes a window of an index has.
pub const SPAN: u64 = 32_768;

/// How many pieces an index can have: more than memory holds.
pub const MOST: u64 = 1_073_741_824;

/// Where the pieces of a change stand. An image behind the change finds those in a window by it in the time of a search, in whatever order they
/// stand and however they overlap.
#[derive(Drop)]
pub struct PieceIndex<A: Allocator = Global> {
    // a number for each piece and each window that it meets, by rising window and then in the order of the pieces
    keys: Vec<u64, A>,
    // whether there is an index
    made: bool,
}

impl<A: Allocator> Model for PieceIndex<A> {
    ghost use Rattle.bx_patch.specs.preview.Index.{Index};

    ghost Value = { Index };

    ghost view = { λ p. record { keys = p.keys.items; made = p.made } };
}

impl<A: Allocator> PieceIndex<A> {
    /// An index of one change whose pieces aren't in the order of their addresses. Of other changes, and where memory is refused, there is none:
    /// their pieces are found as they are without it.
    pub fn of<B: Allocator>(alloc: A, changes: &[Change<B>]) -> Self
        ensures { IsIndexFor result changes.now }
    {
        let mut keys = Vec::new(alloc);
        let made = put_index(&mut keys, changes);
        PieceIndex { keys, made }
    }

    /// The numbers.
    pub(crate) fn keys(&self) -> &[u64]
        ensures { result.now ≡ self.now.keys }
    {
        self.keys.as_slice()
    }

    /// Whether there is an index.
    pub(crate) fn is_made(&self) -> bool
        ensures { result ≡ self.now.made }
    {
        self.made
    }
}

/// Names a piece in a window; whether memory was there for it.
fn push_name<A: Allocator>(keys: &mut Vec<u64, A>, window: u64, i: u64) -> bool
    requires few { i < 1073741824 }
    requires small { window ≤ 8589934592 }
    ensures { IsTrue result → keys.new.items ≡ keys.old.items ++ key_of window i ∷ [] }
{
    match keys.push(window * MOST + i) {
        Ok(()) => true,
        Err(_) => false,
    }
}

/// Names a piece in windows; whether memory was there for it.
fn push_windows<A: Allocator>(keys: &mut Vec<u64, A>, i: u64, first: u64, end: u64) -> bool
    requires few { i < 1073741824 }
    requires small { end ≤ 8589934593 }
    ensures keeps { IsTrue result → (k : ℕ) → Contains keys.old.items k → Contains keys.new.items k }
    ensures named { IsTrue result → (window : ℕ) → first ≤ window → window < end → Contains keys.new.items (key_of window i) }
{
    for window in first..end {
        if !push_name(keys, window, i) {
            return false;
        }
    }
    true
}

/// Names a piece in the windows that it meets; whether there was memory, and the piece ends where an image can end.
fn push_piece<A: Allocator, B: Allocator>(keys: &mut Vec<u64, A>, i: u64, piece: &Piece<B>) -> bool
    requires few { i < 1073741824 }
    ensures keeps { IsTrue result → (k : ℕ) → Contains keys.old.items k → Contains keys.new.items k }
    ensures named { IsTrue result → (window : ℕ) → Meets piece.now window → Contains keys.new.items (key_of window i) }
{
    let count = piece.bytes.as_slice().len() as u64;
    if count > MAX_LEN {
        return false;
    }
    if piece.at > MAX_LEN - count {
        return false;
    }
    push_windows(keys, i, piece.at / SPAN, (piece.at + count) / SPAN + 1)
}

/// Names pieces in the windows that they meet; whether memory was there for it.
fn push_pieces<A: Allocator, B: Allocator>(keys: &mut Vec<u64, A>, pieces: &[Piece<B>]) -> bool
    requires few { length pieces.now ≤ 1073741824 }
    ensures { IsTrue result → AreAllNamed keys.new.items pieces.now (length pieces.now) }
{
    for i in 0..pieces.len() {
        if !push_piece(keys, i as u64, &pieces[i]) {
            return false;
        }
    }
    true
}

/// Makes an index of pieces; whether there is one.
fn put_keys<A: Allocator, B: Allocator>(keys: &mut Vec<u64, A>, pieces: &[Piece<B>]) -> bool
    ensures { IsTrue result → IsIndexOf keys.new.items pieces.now }
{
    if pieces.len() as u64 > MOST {
        return false;
    }
    let made = push_pieces(keys, pieces);
    keys.sort_unstable();
    made
}

/// Makes an index of a change whose pieces aren't in order; whether there is one.
fn put_index<A: Allocator, B: Allocator>(keys: &mut Vec<u64, A>, changes: &[Change<B>]) -> bool
    ensures { IsTrue result → All (λ c. IsIndexOf keys.new.items c.writes) changes.now }
{
    if changes.len() > 1 {
        return false;
    }
    if changes.is_empty() {
        return false;
    }
    if all_ordered(changes) {
        return false;
    }
    put_keys(keys, changes[0].writes.as_slice())
}

/// Whether an index that there is finds the pieces of a part of a window.
pub fn may_search(indexed: bool, at: u64, count: usize) -> bool
    ensures indexed { IsTrue result → IsTrue indexed }
    ensures small { IsTrue result → at ≤ 2 ^ 48 }
    ensures within { IsTrue result → at % 32768 + count ≤ 32768 }
{
    if !indexed {
        return false;
    }
    if at > MAX_LEN {
        return false;
    }
    count as u64 <= SPAN - at % SPAN
}

/// How many of the first names are below a number.
pub fn count_below(keys: &[u64], end: u64) -> usize
    requires rise { IsNonDecreasing keys.now }
    ensures most { result ≤ length keys.now }
    ensures below { AllWithin (λ k. k < end) keys.now 0 result }
    ensures rest { AllWithin (λ k. end ≤ k) keys.now result (length keys.now) }
{
    keys.partition_point(|key| *key < end)
}

/// The names of the window that begins with a name.
pub fn found_in(keys: &[u64], first: u64) -> &[u64]
    requires rise { IsNonDecreasing keys.now }
    requires small { first + 1073741824 < 2 ^ 64 }
    ensures least { All (λ k. first ≤ k) result.now }
    ensures rise { IsNonDecreasing result.now }
    ensures all { (k : ℕ) → first ≤ k → k < first + 1073741824 → Contains keys.now k → Contains result.now k }
{
    let (front, _) = keys.split_at(count_below(keys, first + MOST));
    let (_, found) = front.split_at(count_below(front, first));
    found
}
