//! The form of sixteen bytes at once.
ghost use Rattle.std.specs.Prelude.{◌≡◌, ◌<◌, ◌≤◌, ℕ, length, slice_index, true, IsTrue, IfSome};
ghost use Rattle.bx_journal_format.specs.Form.{fits, HasColumns, HasForm, IsFullAt};

use crate::format::newline::has_newline;
use bx_read::parse_address;
use std::simd::prelude::*;

/// How far each byte is off a form: 0 where it is the form's own byte, or where the form has 0 and it is a lower-case digit.
#[inline(always)]
fn off_form(text: u8x16, form: u8x16) -> u8x16
    ensures { (k : ℕ) → k < 16 → slice_index result k ≤ 0 → fits (slice_index text k) (slice_index form k) ≡ true }
{
    let is_fixed = form.simd_gt(u8x16::splat(0));
    let zero = u8x16::splat(0);
    let digit = text - is_fixed.select(form, u8x16::splat(b'0'));
    let letter = text - is_fixed.select(form, u8x16::splat(b'a'));
    digit
        .saturating_sub(is_fixed.select(zero, u8x16::splat(9)))
        .simd_min(letter.saturating_sub(is_fixed.select(zero, u8x16::splat(5))))
}

/// Whether all lanes are 0.
#[inline(always)]
fn are_zero(lanes: u8x16) -> bool
    ensures { IsTrue result → (k : ℕ) → k < 16 → slice_index lanes k ≤ 0 }
{
    lanes.simd_gt(u8x16::splat(0)).to_bitmask() == 0
}

/// Whether the first 16 bytes have a form.
#[inline(always)]
fn has_form(text: &[u8], form: u8x16) -> bool
    requires { 16 ≤ length text.now }
    ensures { IsTrue result → HasForm text.now form }
{
    are_zero(off_form(u8x16::from_slice(text), form))
}

/// The form of bytes 0 to 15 of a full line: an address of 8 digits, a colon and a space, and the first digits.
const FIRST: [u8; 16] = [0, 0, 0, 0, 0, 0, 0, 0, 58, 32, 0, 0, 0, 0, 32, 0];
/// The form of bytes 16 to 31.
const SECOND: [u8; 16] = [0, 0, 0, 32, 0, 0, 0, 0, 32, 0, 0, 0, 0, 32, 0, 0];
/// The form of bytes 32 to 47.
const THIRD: [u8; 16] = [0, 0, 32, 0, 0, 0, 0, 32, 0, 0, 0, 0, 32, 0, 0, 0];
/// The form of bytes 35 to 50: the last digits, and two spaces.
const LAST: [u8; 16] = [0, 0, 0, 0, 32, 0, 0, 0, 0, 32, 0, 0, 0, 0, 32, 32];

/// Whether the text has the form of a full line, up to the text of its bytes.
#[inline(always)]
fn has_columns(text: &[u8]) -> bool
    requires { 68 ≤ length text.now }
    ensures { IsTrue result → HasColumns text.now }
{
    if !has_form(text, u8x16::from_array(FIRST)) {
        return false;
    }
    if !has_form(&text[16..], u8x16::from_array(SECOND)) {
        return false;
    }
    if !has_form(&text[32..], u8x16::from_array(THIRD)) {
        return false;
    }
    has_form(&text[35..], u8x16::from_array(LAST))
}

/// The address of the full line with lower-case digits that the text begins with. Nothing is decoded.
#[inline(always)]
pub fn full_address(text: &[u8]) -> Option<u64>
    ensures { IfSome result (λ at. IsFullAt at text.now) }
{
    if text.len() < 68 {
        return None;
    }
    if text[67] != b'\n' || !has_columns(text) || has_newline(&text[51..67]) {
        return None;
    }
    parse_address(&text[..8])
}
