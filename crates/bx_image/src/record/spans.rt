//! The addresses that a change touches, as ranges by rising address.
ghost use Rattle.std.specs.Prelude.{◌≡◌, ◌<◌, ◌+◌, ◌&&◌, ◌||◌, ℕ, List, min, nat_lt, length, unwrap_or, IfOk, OnOk};
ghost use Rattle.std.specs.List.Sorted.{IsPermutation, IsNonDecreasingBy};
ghost use Rattle.bx_image.specs.declared.change.Change.{Change as ChangeOf};
ghost use Rattle.bx_image.specs.Change.{saved, Restores};
ghost use Rattle.bx_image.specs.Over.{saved_over, LieWithin};
ghost use Rattle.bx_image.specs.private.Change.{is_cut_off, is_covered};
ghost use Rattle.bx_image.specs.private.Spans.{are_over, with_span, AreApart};

use crate::Change;
use crate::record::Saved;
use bx_text::Piece;
use std::alloc::{AllocError, Allocator};

/// A range of addresses, from `at` up to before `end`.
#[derive(Clone, Copy)]
pub struct Span {
    pub at: u64,
    pub end: u64,
}

/// The addresses below `len` that a change with this base and these writes touches, as ranges with gaps between them.
pub fn touched<A: Allocator + Clone>(
    alloc: A,
    base: Option<u64>,
    writes: &[Piece<A>],
    len: u64,
) -> Result<Vec<Span, A>, AllocError>
    ensures over { IfOk result (λ spans. (i : ℕ) → are_over spans.items i ≡ (nat_lt i len && (is_cut_off base i || is_covered writes.now i))) }
    ensures within { IfOk result (λ spans. LieWithin len spans.items) }
    ensures apart { IfOk result (λ spans. AreApart spans.items) }
{
    let mut spans = collected(alloc.clone()?, base, writes, len)?;
    sort(&mut spans);
    merged(alloc, spans.as_slice(), len)
}

/// The ranges that `save` would read of an image of `len` bytes: those that the change overwrites or cuts off. They rise by
/// address, none is empty, and no two touch.
///
/// # Errors
/// `AllocError` where a growth is refused.
pub fn touched_by<A: Allocator + Clone>(
    alloc: A,
    change: &Change<A>,
    len: u64,
) -> Result<Vec<Span, A>, AllocError>
    ensures saved { IfOk result (λ spans. (x : List ℕ) → length x ≡ len → saved_over x spans.items ≡ saved change.now x) }
    ensures within { IfOk result (λ spans. LieWithin len spans.items) }
{
    touched(alloc, change.base, change.writes.as_slice(), len)
}

/// The ranges that `save` would read of an image of `len` bytes before a record is restored. They rise by address, none is
/// empty, and no two touch.
///
/// # Errors
/// `AllocError` where a growth is refused.
pub fn touched_to_restore<A: Allocator + Clone>(
    alloc: A,
    kept: &Saved<A>,
    len: u64,
) -> Result<Vec<Span, A>, AllocError>
    ensures saved { IfOk result (λ spans. (change : ChangeOf A) → Restores change kept.now
        → (x : List ℕ) → length x ≡ len → saved_over x spans.items ≡ saved change x) }
    ensures within { IfOk result (λ spans. LieWithin len spans.items) }
{
    touched(alloc, Some(kept.len), kept.runs.as_slice(), len)
}

// In the order of the base and the writes.
fn collected<A: Allocator>(
    alloc: A,
    base: Option<u64>,
    writes: &[Piece<A>],
    len: u64,
) -> Result<Vec<Span, A>, AllocError>
    ensures over { IfOk result (λ spans. (i : ℕ) → are_over spans.items i ≡ (nat_lt i len && (is_cut_off base i || is_covered writes.now i))) }
    ensures within { IfOk result (λ spans. LieWithin len spans.items) }
{
    let mut spans = Vec::new(alloc);
    push(&mut spans, cut_start(base, len), len)?;
    for write in writes {
        push(&mut spans, write.at, clipped_end(write, len))?;
    }
    Ok(spans)
}

// Where a cut begins: at the base, or at the length where there is none.
fn cut_start(base: Option<u64>, len: u64) -> u64
    ensures { result ≡ unwrap_or base len }
{
    base.unwrap_or(len)
}

fn clipped_end<A: Allocator>(write: &Piece<A>, len: u64) -> u64
    ensures { result ≡ min (write.now.at + length write.now.bytes) len }
{
    let count = write.bytes.as_slice().len() as u64;
    write.at.saturating_add(count).min(len)
}

// Adds the addresses from `at` up to before `end`, if there are any.
pub(crate) fn push<A: Allocator>(
    spans: &mut Vec<Span, A>,
    at: u64,
    end: u64,
) -> Result<(), AllocError>
    ensures { OnOk result (spans.new.items ≡ with_span at end spans.old.items) }
{
    if at < end {
        spans.push(Span { at, end })?;
    }
    Ok(())
}

fn sort<A: Allocator>(spans: &mut Vec<Span, A>)
    ensures permutation { IsPermutation spans.old.items spans.new.items }
    ensures sorted { IsNonDecreasingBy (λ s. s.at) spans.new.items }
{
    spans.sort_unstable_by_key(|s| s.at);
}

// Whether an address is left out between the end of one range and the start of the next.
fn has_gap(end: u64, at: u64) -> bool
    ensures { result ≡ nat_lt end at }
{
    end < at
}

// Joins those that overlap or touch.
fn merged<A: Allocator>(alloc: A, spans: &[Span], len: u64) -> Result<Vec<Span, A>, AllocError>
    requires within { LieWithin len spans.now }
    requires sorted { IsNonDecreasingBy (λ s. s.at) spans.now }
    ensures over { IfOk result (λ merged. (i : ℕ) → are_over merged.items i ≡ are_over spans.now i) }
    ensures within { IfOk result (λ merged. LieWithin len merged.items) }
    ensures apart { IfOk result (λ merged. AreApart merged.items) }
{
    let mut merged = Vec::with_capacity(alloc, spans.len())?;
    let mut at = 0;
    let mut end = 0;
    for span in spans {
        if has_gap(end, span.at) {
            push(&mut merged, at, end)?;
            at = span.at;
            end = span.end;
        } else {
            end = end.max(span.end);
        }
    }
    push(&mut merged, at, end)?;
    Ok(merged)
}
