//! Ranges behind a length that are put together: those of others, as far as they lie between two addresses, and then joined.
ghost use Rattle.std.specs.Prelude.{◌≡◌, ◌<◌, ◌&&◌, ◌||◌, ℕ, nat_lt, length, IfOk, OnOk};
ghost use Rattle.std.specs.List.Sorted.{IsPermutation, IsNonDecreasingBy};
ghost use Rattle.bx_image.specs.Over.{LieWithin};
ghost use Rattle.bx_image.specs.private.Change.{is_covered};
ghost use Rattle.bx_image.specs.private.Spans.{are_over, is_between, with_span};
ghost use Rattle.bx_journal_protocol.specs.before.Overwritten.{are_written};

use bx_image::Span;
use bx_journal_format::EntryRead;
use bx_text::Piece;
use std::alloc::{AllocError, Allocator};

// Adds the addresses from `at` up to before `end`, if there are any.
fn push<A: Allocator>(spans: &mut Vec<Span, A>, at: u64, end: u64) -> Result<(), AllocError>
    ensures { OnOk result (spans.new.items ≡ with_span at end spans.old.items) }
{
    if at < end {
        spans.push(Span { at, end })?;
    }
    Ok(())
}

/// All addresses from `at` up to before `end`, as one range, if there are any.
pub fn whole<A: Allocator>(alloc: A, at: u64, end: u64) -> Result<Vec<Span, A>, AllocError>
    ensures { IfOk result (λ spans. (i : ℕ) → are_over spans.items i ≡ is_between at end i) }
{
    let mut spans = Vec::new(alloc);
    push(&mut spans, at, end)?;
    Ok(spans)
}

// Adds what of a range lies from `base` up to before `end`.
fn push_part<A: Allocator>(
    spans: &mut Vec<Span, A>,
    range: Span,
    base: u64,
    end: u64,
) -> Result<(), AllocError>
    ensures over { OnOk result ((i : ℕ) → are_over spans.new.items i
        ≡ (are_over spans.old.items i || (is_between base end i && is_between range.at range.end i))) }
    ensures within { LieWithin end spans.old.items → OnOk result (LieWithin end spans.new.items) }
{
    push(spans, range.at.max(base), range.end.min(end))
}

/// Adds what of the ranges lies from `base` up to before `end`.
pub fn push_ranges<A: Allocator>(
    spans: &mut Vec<Span, A>,
    ranges: &[Span],
    base: u64,
    end: u64,
) -> Result<(), AllocError>
    ensures over { OnOk result ((i : ℕ) → are_over spans.new.items i
        ≡ (are_over spans.old.items i || (is_between base end i && are_over ranges.now i))) }
    ensures within { LieWithin end spans.old.items → OnOk result (LieWithin end spans.new.items) }
{
    for range in ranges {
        push_part(spans, *range, base, end)?;
    }
    Ok(())
}

// Adds what of the addresses of the runs lies from `base` up to before `end`.
fn push_runs<A: Allocator>(
    spans: &mut Vec<Span, A>,
    runs: &[Piece<A>],
    base: u64,
    end: u64,
) -> Result<(), AllocError>
    ensures over { OnOk result ((i : ℕ) → are_over spans.new.items i
        ≡ (are_over spans.old.items i || (is_between base end i && is_covered runs.now i))) }
    ensures within { LieWithin end spans.old.items → OnOk result (LieWithin end spans.new.items) }
{
    for run in runs {
        let count = run.bytes.as_slice().len() as u64;
        let range = Span {
            at: run.at,
            end: run.at.saturating_add(count),
        };
        push_part(spans, range, base, end)?;
    }
    Ok(())
}

/// Adds what of the addresses of the entries' records lies from `base` up to before `end`.
pub fn push_records<A: Allocator>(
    spans: &mut Vec<Span, A>,
    entries: &[EntryRead<A>],
    base: u64,
    end: u64,
) -> Result<(), AllocError>
    ensures over { OnOk result ((i : ℕ) → are_over spans.new.items i
        ≡ (are_over spans.old.items i || (is_between base end i && are_written entries.now i))) }
    ensures within { LieWithin end spans.old.items → OnOk result (LieWithin end spans.new.items) }
{
    for entry in entries {
        push_runs(spans, entry.kept.runs.as_slice(), base, end)?;
    }
    Ok(())
}

fn sort<A: Allocator>(spans: &mut Vec<Span, A>)
    ensures permutation { IsPermutation spans.old.items spans.new.items }
    ensures sorted { IsNonDecreasingBy (λ s. s.at) spans.new.items }
{
    spans.sort_unstable_by_key(|s| s.at);
}

// Whether an address is left out between the end of one range and the start of the next.
fn has_gap(end: u64, at: u64) -> bool
    ensures { result ≡ nat_lt end at }
{
    end < at
}

// Joins those that overlap or touch.
fn merged<A: Allocator>(alloc: A, spans: &[Span]) -> Result<Vec<Span, A>, AllocError>
    requires sorted { IsNonDecreasingBy (λ s. s.at) spans.now }
    ensures over { IfOk result (λ merged. (i : ℕ) → are_over merged.items i ≡ are_over spans.now i) }
    ensures within { (len : ℕ) → LieWithin len spans.now → IfOk result (λ merged. LieWithin len merged.items) }
{
    let mut merged = Vec::with_capacity(alloc, spans.len())?;
    let mut at = 0;
    let mut end = 0;
    for span in spans {
        if has_gap(end, span.at) {
            push(&mut merged, at, end)?;
            at = span.at;
            end = span.end;
        } else {
            end = end.max(span.end);
        }
    }
    push(&mut merged, at, end)?;
    Ok(merged)
}

/// The same addresses, as ranges by rising address that neither overlap nor touch.
pub fn joined<A: Allocator>(alloc: A, spans: Vec<Span, A>) -> Result<Vec<Span, A>, AllocError>
    ensures over { IfOk result (λ joined. (i : ℕ) → are_over joined.items i ≡ are_over spans.items i) }
    ensures within { (len : ℕ) → LieWithin len spans.items → IfOk result (λ joined. LieWithin len joined.items) }
{
    let mut spans = spans;
    sort(&mut spans);
    merged(alloc, spans.as_slice())
}
