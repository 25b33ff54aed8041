//! What changes leave of an image.
ghost use Rattle.std.specs.Prelude.{◌≡◌, ◌⊎◌, ◌^◌, ◌<◌, ◌≤◌, ℕ, All, IsTrue, false};
ghost use Rattle.std.proofs.Props.{props};
ghost use Rattle.bx_image.specs.Change.{touches};
ghost use Rattle.bx_image.specs.Image.{is_within};
ghost use Rattle.bx_image.specs.private.Change.{is_covered, is_cut_off};
ghost use Rattle.bx_patch.specs.preview.Changed.{AreBeforeAndBehind};
ghost use Rattle.bx_patch.specs.preview.Index.{IsIndexFor, IsIndexOf};
ghost use Rattle.bx_patch.specs.private.preview.Order.{AreByPlace};
ghost use Rattle.bx_patch.specs.private.preview.Untouched.{AreUntouched};

use crate::Alike;
use crate::preview::index::{MOST, PieceIndex, SPAN, count_below, may_search};
use crate::preview::order::{all_ordered, count_ended};
use bx_image::Change;
use bx_text::Piece;
use std::alloc::{Allocator, Global};

/// What is known of an image and the one behind changes, whichever is the old one: they have the same bytes where no change cuts off or
/// overwrites any.
#[derive(Drop)]
pub struct Untouched<'a, A: Allocator = Global> {
    /// The changes, in their order.
    pub changes: &'a [Change<A>],
    /// The length of the image before them.
    pub before: u64,
    // whether a search may look for their pieces
    pub(crate) ordered: bool,
    // by what another search looks for them, if it may
    pub(crate) index: &'a [u64],
    pub(crate) indexed: bool,
    ghost order: { IsTrue ordered → All (λ c. AreByPlace c.writes) changes.now } by { Prim.hlevel props },
    ghost found: { IsTrue indexed → All (λ c. IsIndexOf index.now c.writes) changes.now } by { Prim.hlevel props },
}

impl<'a, A: Allocator> Untouched<'a, A> {
    /// What these changes leave of an image that has this length.
    pub(crate) fn by(changes: &'a [Change<A>], before: u64) -> Self
        ensures changes { result.changes.now ≡ changes.now }
        ensures before { result.before ≡ before }
    {
        Untouched {
            changes,
            before,
            ordered: all_ordered(changes),
            index: &[],
            indexed: false,
        }
    }

    /// The same, with an index.
    pub(crate) fn searched<B: Allocator>(self, index: &'a PieceIndex<B>) -> Self
        requires { IsIndexFor index.now self.changes.now }
        ensures changes { result.changes.now ≡ self.entry.changes.now }
        ensures before { result.before ≡ self.entry.before }
    {
        Untouched {
            changes: self.changes,
            before: self.before,
            ordered: self.ordered,
            index: index.keys(),
            indexed: index.is_made(),
        }
    }
}

impl<A: Allocator> Alike for Untouched<'_, A> {
    ghost AreAlike = { λ u x y. AreBeforeAndBehind u.changes.now u.before x y ⊎ AreBeforeAndBehind u.changes.now u.before y x };

    fn same_until(&self, at: u64) -> u64 {
        until_changes(self, at)
    }
}

/// A place, `end` at most, below which a base cuts off nothing.
fn until_base(base: Option<u64>, end: u64) -> u64
    ensures most { result ≤ end }
    ensures untouched { (j : ℕ) → j < result → is_cut_off base j ≡ false }
{
    match base {
        Some(base) => end.min(base),
        None => end,
    }
}

/// A place, `end` at most, up to which a piece has no byte from an address on.
fn until_piece<A: Allocator>(piece: &Piece<A>, at: u64, end: u64) -> u64
    ensures most { result ≤ end }
    ensures untouched { (j : ℕ) → at ≤ j → j < result → is_within piece.now.at piece.now.bytes j ≡ false }
{
    let count = piece.bytes.as_slice().len() as u64;
    if count == 0 {
        return end;
    }
    if at <= piece.at {
        return end.min(piece.at);
    }
    if at - piece.at < count {
        return end.min(at);
    }
    end
}

/// The same of pieces.
fn until_pieces<A: Allocator>(pieces: &[Piece<A>], at: u64, end: u64) -> u64
    ensures most { result ≤ end }
    ensures untouched { (j : ℕ) → at ≤ j → j < result → is_covered pieces.now j ≡ false }
{
    let mut until = end;
    for piece in pieces {
        until = until_piece(piece, at, until);
    }
    until
}

/// The same of pieces in order: of those that don't end before, the first one alone is looked at.
fn until_next<A: Allocator>(pieces: &[Piece<A>], at: u64, end: u64) -> u64
    requires ordered { AreByPlace pieces.now }
    ensures most { result ≤ end }
    ensures untouched { (j : ℕ) → at ≤ j → j < result → is_covered pieces.now j ≡ false }
{
    match pieces.get(count_ended(pieces, at)) {
        Some(piece) => end.min(at.max(piece.at)),
        None => end,
    }
}

/// The same of pieces in whatever order, by an index of them: the first window behind the address that one of them meets.
fn until_found<A: Allocator>(pieces: &[Piece<A>], keys: &[u64], at: u64, end: u64) -> u64
    requires index { IsIndexOf keys.now pieces.now }
    requires small { at ≤ 2 ^ 48 }
    ensures most { result ≤ end }
    ensures untouched { (j : ℕ) → at ≤ j → j < result → is_covered pieces.now j ≡ false }
{
    match keys.get(count_below(keys, at / SPAN * MOST)) {
        Some(key) => end.min(at.max(*key / MOST * SPAN)),
        None => end,
    }
}

/// The same, by an index where there is one.
fn until_any<A: Allocator>(
    pieces: &[Piece<A>],
    keys: &[u64],
    indexed: bool,
    at: u64,
    end: u64,
) -> u64
    requires index { IsTrue indexed → IsIndexOf keys.now pieces.now }
    ensures most { result ≤ end }
    ensures untouched { (j : ℕ) → at ≤ j → j < result → is_covered pieces.now j ≡ false }
{
    if may_search(indexed, at, 0) {
        until_found(pieces, keys, at, end)
    } else {
        until_pieces(pieces, at, end)
    }
}

/// A place, `end` at most, up to which a change cuts off and overwrites nothing from an address on.
fn until_change<A: Allocator>(
    change: &Change<A>,
    known: &Untouched<'_, A>,
    at: u64,
    end: u64,
) -> u64
    requires ordered { IsTrue known.now.ordered → AreByPlace change.now.writes }
    requires index { IsTrue known.now.indexed → IsIndexOf known.now.index.now change.now.writes }
    ensures most { result ≤ end }
    ensures untouched { (j : ℕ) → at ≤ j → j < result → touches change.now j ≡ false }
{
    let until = until_base(change.base, end);
    let pieces = change.writes.as_slice();
    if known.ordered {
        until_next(pieces, at, until)
    } else {
        until_any(pieces, known.index, known.indexed, at, until)
    }
}

/// A place, the image's end at most, up to which changes cut off and overwrite nothing from an address on.
fn until_changes<A: Allocator>(known: &Untouched<'_, A>, at: u64) -> u64
    ensures most { result ≤ known.now.before }
    ensures untouched { (j : ℕ) → at ≤ j → j < result → AreUntouched known.now.changes.now j }
{
    let mut until = known.before;
    for change in known.changes {
        until = until_change(change, known, at, until);
    }
    until
}
