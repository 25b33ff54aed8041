//! Whether a patch can be turned round.
ghost use Rattle.std.specs.Prelude.{◌≡◌, ◌↔◌, ◌+◌, ◌<◌, ◌≤◌, ◌^◌, ℕ, length, drop, IsTrue};
ghost use Rattle.std.specs.Option.{option_map};
ghost use Rattle.bx_read.specs.Text.{contents};
ghost use Rattle.bx_patch.specs.Patch.{AreInOrder, IsCutAway, HasByteAt, TurnsRound};
ghost use Rattle.bx_patch.specs.Read.{asked_with};
ghost use Rattle.bx_patch.specs.private.Turn.{AreSmall, below_both, reach_each, run_from};

use crate::read::lengths::PatchLengths;
use bx_text::Piece;
use std::alloc::Allocator;

/// Where the pieces end that reach on from a place: how many pieces stand before the ones that are left, and the place.
#[derive(Clone, Copy)]
struct Run {
    next: usize,
    end: u64,
}

/// The place behind a piece.
fn end_of<A: Allocator>(piece: &Piece<A>) -> u64
    requires { piece.now.at + length piece.now.bytes < 2 ^ 63 }
    ensures { result ≡ piece.now.at + length piece.now.bytes }
{
    piece.at + piece.bytes.as_slice().len() as u64
}

/// Goes on from a place, over the pieces that reach it.
fn run_on<A: Allocator>(pieces: &[Piece<A>], from: Run) -> Run
    requires small { AreSmall (contents pieces.now) }
    requires within { from.next ≤ length pieces.now }
    ensures run { (contents (drop result.next pieces.now), result.end) ≡ run_from (contents (drop from.next pieces.now)) from.end }
    ensures within { result.next ≤ length pieces.now }
{
    let mut next = from.next;
    let mut end = from.end;
    while next < pieces.len() {
        let piece = &pieces[next];
        if piece.at > end {
            return Run { next, end };
        }
        end = end.max(end_of(piece));
        next += 1;
    }
    Run { next, end }
}

/// Whether pieces stand in order.
fn are_in_order<A: Allocator>(pieces: &[Piece<A>]) -> bool
    requires { AreSmall (contents pieces.now) }
    ensures { IsTrue result ↔ AreInOrder 0 (contents pieces.now) }
{
    let mut end: u64 = 0;
    for i in 0..pieces.len() {
        let piece = &pieces[i];
        if piece.at < end {
            return false;
        }
        end = end_of(piece);
    }
    true
}

/// Whether pieces in order reach each place below a limit that others reach.
fn reach_all<A: Allocator>(outer: &[Piece<A>], inner: &[Piece<A>], below: u64) -> bool
    requires outer { AreSmall (contents outer.now) }
    requires inner { AreSmall (contents inner.now) }
    ensures { result ≡ reach_each below (contents outer.now, 0) (contents inner.now) }
{
    let mut run = Run { next: 0, end: 0 };
    for i in 0..inner.len() {
        let piece = &inner[i];
        let from = Run {
            next: run.next,
            end: run.end.max(piece.at),
        };
        run = run_on(outer, from);
        if run.end < below.min(end_of(piece)) {
            return false;
        }
    }
    true
}

/// The limit below both lengths.
fn limit_of(lengths: Option<PatchLengths>) -> u64
    ensures { result ≡ below_both (option_map (λ lengths. (lengths.old, lengths.new)) lengths) }
{
    match lengths {
        Some(lengths) => lengths.old.min(lengths.new),
        None => u64::MAX,
    }
}

/// Whether pieces in order reach each place that is cut off.
fn reach_cut<A: Allocator>(pieces: &[Piece<A>], lengths: Option<PatchLengths>) -> bool
    requires small { AreSmall (contents pieces.now) }
    requires order { AreInOrder 0 (contents pieces.now) }
    ensures { IsTrue result ↔ ((i : ℕ) → IsCutAway (option_map (λ lengths. (lengths.old, lengths.new)) lengths) i → HasByteAt (contents pieces.now) i) }
{
    match lengths {
        None => true,
        Some(lengths) => {
            let from = Run {
                next: 0,
                end: lengths.new,
            };
            run_on(pieces, from).end >= lengths.old
        }
    }
}

/// Whether a patch of these pieces and lengths can be turned round.
pub fn turns<A: Allocator>(
    expected: &[Piece<A>],
    written: &[Piece<A>],
    lengths: Option<PatchLengths>,
) -> bool
    requires old { AreSmall (contents expected.now) }
    requires new { AreSmall (contents written.now) }
    ensures { IsTrue result ↔ TurnsRound (asked_with lengths (contents expected.now) (contents written.now)) }
{
    if !are_in_order(expected) {
        return false;
    }
    if !are_in_order(written) {
        return false;
    }
    if !reach_cut(expected, lengths) {
        return false;
    }
    let below = limit_of(lengths);
    if !reach_all(expected, written, below) {
        return false;
    }
    reach_all(written, expected, below)
}
