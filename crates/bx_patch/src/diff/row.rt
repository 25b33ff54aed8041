//! The lines for a row of 16 bytes.
ghost use Rattle.std.specs.Prelude.{◌≡◌, ◌<◌, ◌≤◌, ◌+◌, ◌-◌, ◌++◌, ◌^◌, false, true, length, take, drop, flat_map, OnOk};
ghost use Rattle.bx_patch.specs.Text.{differs, line_for, signed_line_text, row_lines, sign_of, span_lines};
ghost use Rattle.bx_patch.specs.declared.diff.row.Extent.TheVariants.{Bytes as OfBytes};
ghost use Rattle.bx_patch.specs.private.Row.{AreOther, AreSame};

use bx_image::Span;
use bx_text::{put_full_line, xxd_line};
use std::alloc::{AllocError, Allocator};

/// What of a row has lines.
#[derive(Clone, Copy, Debug, PartialEq, Eq)]
pub enum Extent {
    /// The bytes that differ, and no others.
    Bytes,
    /// The whole row, where a byte of it differs.
    Rows,
}

/// How many bytes a row has.
const ROW: usize = 16;

/// Whether the two have different bytes at a place, or only one of them has a byte there.
#[inline]
pub fn is_other(old: &[u8], new: &[u8], at: usize) -> bool
    ensures { result ≡ differs old.now new.now at }
{
    if at >= old.len() {
        return at < new.len();
    }
    if at >= new.len() {
        return true;
    }
    old[at] != new[at]
}

/// The first place from one on where the two differ, or 16.
fn skip_same(old: &[u8], new: &[u8], from: usize) -> usize
    requires { from ≤ 16 }
    ensures least { from ≤ result }
    ensures most { result ≤ 16 }
    ensures same { AreSame old.now new.now from result }
    ensures other { result < 16 → differs old.now new.now result ≡ true }
{
    let mut at = from;
    while at < ROW && !is_other(old, new, at) {
        at += 1;
    }
    at
}

/// The first place behind one on where the two don't differ, or 16.
fn skip_other(old: &[u8], new: &[u8], from: usize) -> usize
    requires { from ≤ 16 }
    ensures least { from ≤ result }
    ensures most { result ≤ 16 }
    ensures other { AreOther old.now new.now from result }
    ensures same { result < 16 → differs old.now new.now result ≡ false }
{
    let mut at = from;
    while at < ROW && is_other(old, new, at) {
        at += 1;
    }
    at
}

/// The character in front of a line: `+` for new bytes.
fn sign_of(new: bool) -> u8
    ensures { result ≡ sign_of new }
{
    if new { b'+' } else { b'-' }
}

/// Adds the line for bytes at any address, where there are any.
#[tactic(auto, using(crate::proofs::PushLemmas::line_some, crate::proofs::PushLemmas::line_none))]
fn push_short<A: Allocator>(
    text: &mut Vec<u8, A>,
    new: bool,
    at: u64,
    bytes: &[u8],
) -> Result<(), AllocError>
    requires { length bytes.now ≤ 16 }
    ensures { OnOk result (text.new.items ≡ text.old.items ++ flat_map signed_line_text (line_for new at bytes.now)) }
{
    if bytes.is_empty() {
        return Ok(());
    }
    text.push(sign_of(new))?;
    text.extend_from_slice(xxd_line(at, bytes).as_bytes())?;
    Ok(())
}

/// Adds the line for 16 bytes at an address of at most 8 digits.
#[inline]
fn push_full<A: Allocator>(
    text: &mut Vec<u8, A>,
    new: bool,
    at: u32,
    bytes: &[u8; 16],
) -> Result<(), AllocError>
    ensures { OnOk result (text.new.items ≡ text.old.items ++ flat_map signed_line_text (line_for new at bytes.now)) }
{
    let mut line = [b' '; 68];
    put_full_line(&mut line, at, bytes);
    text.push(sign_of(new))?;
    text.extend_from_slice(&line)?;
    Ok(())
}

/// Adds the line for bytes, where there are any.
#[inline]
fn push_line<A: Allocator>(
    text: &mut Vec<u8, A>,
    new: bool,
    at: u64,
    bytes: &[u8],
) -> Result<(), AllocError>
    requires { length bytes.now ≤ 16 }
    ensures { OnOk result (text.new.items ≡ text.old.items ++ flat_map signed_line_text (line_for new at bytes.now)) }
{
    match bytes.as_array::<16>() {
        Some(full) if at <= u32::MAX as u64 => push_full(text, new, at as u32, full),
        _ => push_short(text, new, at, bytes),
    }
}

/// The bytes of a row from one place up to another, as far as it has these.
fn part(row: &[u8], from: usize, to: usize) -> &[u8]
    requires { from ≤ to }
    ensures { result.now ≡ take (to - from) (drop from row.now) }
{
    let end = to.min(row.len());
    let begin = from.min(end);
    &row[begin..end]
}

/// Adds the lines for a range of a row whose first byte has this address.
fn push_span<A: Allocator>(
    text: &mut Vec<u8, A>,
    at: u64,
    old: &[u8],
    new: &[u8],
    span: Span,
) -> Result<(), AllocError>
    requires order { span.at ≤ span.end }
    requires within { span.end ≤ 16 }
    requires address { at + 16 < 2 ^ 64 }
    ensures { OnOk result (text.new.items ≡ text.old.items ++ flat_map signed_line_text (span_lines at old.now new.now span)) }
{
    let from = span.at as usize;
    let to = span.end as usize;
    push_line(text, false, at + span.at, part(old, from, to))?;
    push_line(text, true, at + span.at, part(new, from, to))
}

/// Adds the lines for the bytes that differ in a row whose first byte has this address.
fn push_differing<A: Allocator>(
    text: &mut Vec<u8, A>,
    at: u64,
    old: &[u8],
    new: &[u8],
) -> Result<(), AllocError>
    requires { at + 16 < 2 ^ 64 }
    ensures { OnOk result (text.new.items ≡ text.old.items ++ flat_map signed_line_text (row_lines OfBytes at old.now new.now)) }
{
    let mut from = skip_same(old, new, 0);
    while from < ROW {
        let to = skip_other(old, new, from);
        let span = Span {
            at: from as u64,
            end: to as u64,
        };
        push_span(text, at, old, new, span)?;
        from = skip_same(old, new, to);
    }
    Ok(())
}

/// Adds the lines for a row whose first byte has this address. Rows that are equal have none.
#[inline]
pub fn push_row<A: Allocator>(
    text: &mut Vec<u8, A>,
    extent: Extent,
    at: u64,
    old: &[u8],
    new: &[u8],
) -> Result<(), AllocError>
    requires { at + 16 < 2 ^ 64 }
    ensures { OnOk result (text.new.items ≡ text.old.items ++ flat_map signed_line_text (row_lines extent at old.now new.now)) }
{
    if old == new {
        return Ok(());
    }
    match extent {
        Extent::Bytes => push_differing(text, at, old, new),
        Extent::Rows => push_span(text, at, old, new, Span { at: 0, end: 16 }),
    }
}
