//! od's decimal values of four bytes, two at a time.
ghost use Rattle.std.specs.Prelude.{◌≡◌, ◌++◌, ◌∷◌, [], false, if◌then◌else◌, ◌+◌, ◌*◌, ◌/◌, ◌%◌, ◌^◌, ◌<◌, ◌≤◌, length, take};
ghost use Rattle.std.specs.Fmt.{digits};
ghost use Rattle.bx_text.specs.Field.{left_filled};
ghost use Rattle.bx_dump_columns.specs.Decimal.{fours, amount_of_four};
ghost use Rattle.bx_dump_columns.specs.Values.{line_width, number_text, number_width, values_text};

use crate::od::decimal::{put_lead, put_signed_lead};
use crate::od::decimal_lanes::eights_of;
use crate::od::fixed::put_cell;
use crate::od::options::{Kind, NumForm, Size};
use std::simd::prelude::*;

/// The least number of nine digits.
const NINE_DIGITS: u64 = 100_000_000;

/// The least number of four bytes that is negative in two's complement.
const HALF: u64 = 1 << 31;

/// Each value of four bytes, the lowest byte first.
#[inline(always)]
fn fours_of(bytes: u8x16) -> u32x4
    ensures { result ≡ fours bytes }
{
    u32x4::from_le_bytes(bytes)
}

/// How much a value is without its sign, in two's complement.
#[inline(always)]
fn amount_of(v: u64) -> u64
    requires { v < 2 ^ 32 }
    ensures { result ≡ amount_of_four v }
{
    if v >= HALF { (1 << 32) - v } else { v }
}

/// Puts a space, a sign, the first digits and the last eight.
#[inline(always)]
fn put_signed_parts(text: &mut [u8], negative: bool, front: u64, last: u8x8)
    requires room { length text.old ≡ 12 }
    requires small { front < 100 }
    ensures { text.new ≡ 32 ∷ (left_filled 32 3 ((if negative then 45 ∷ [] else []) ++ digits 10 false front) ++ last) }
{
    let (space, rest) = text.split_at_mut(1);
    let (lead, field) = rest.split_at_mut(3);
    space.copy_from_slice(b" ");
    put_signed_lead(lead, negative, front as u32);
    last.copy_to_slice(field);
}

/// Puts a space, the first digits and the last eight.
#[inline(always)]
fn put_unsigned_parts(text: &mut [u8], front: u64, last: u8x8)
    requires room { length text.old ≡ 11 }
    requires small { front < 100 }
    ensures { text.new ≡ 32 ∷ (left_filled 32 2 (digits 10 false front) ++ last) }
{
    let (space, rest) = text.split_at_mut(1);
    let (lead, field) = rest.split_at_mut(2);
    space.copy_from_slice(b" ");
    put_lead(lead, front as u32);
    last.copy_to_slice(field);
}

/// The last eight digits of two numbers.
#[inline(always)]
fn last_eights_of(a: u64, b: u64) -> (u8x8, u8x8)
    ensures first { result.0 ≡ left_filled 48 8 (digits 10 false (a % 100000000)) }
    ensures second { result.1 ≡ left_filled 48 8 (digits 10 false (b % 100000000)) }
{
    let both = eights_of(a % NINE_DIGITS, b % NINE_DIGITS);
    (
        both.swizzle([0, 1, 2, 3, 4, 5, 6, 7]),
        both.swizzle([8, 9, 10, 11, 12, 13, 14, 15]),
    )
}

/// Puts a space and each of two numbers of nine digits or more, in two's complement.
#[inline(always)]
fn put_large_signed_pair(text: &mut [u8], v: u64, w: u64)
    requires room { length text.old ≡ 24 }
    requires first { v < 2 ^ 32 }
    requires second { w < 2 ^ 32 }
    requires large_first { 10 ^ 8 ≤ amount_of_four v }
    requires large_second { 10 ^ 8 ≤ amount_of_four w }
    ensures { text.new ≡ (32 ∷ number_text NumForm.Signed Size.Four v) ++ (32 ∷ number_text NumForm.Signed Size.Four w) }
{
    let a = amount_of(v);
    let b = amount_of(w);
    let (front, back) = text.split_at_mut(12);
    let (low, high) = last_eights_of(a, b);
    put_signed_parts(front, v >= HALF, a / NINE_DIGITS, low);
    put_signed_parts(back, w >= HALF, b / NINE_DIGITS, high);
}

/// Puts a space and each of two numbers of nine digits or more.
#[inline(always)]
fn put_large_unsigned_pair(text: &mut [u8], v: u64, w: u64)
    requires room { length text.old ≡ 22 }
    requires first { v < 2 ^ 32 }
    requires second { w < 2 ^ 32 }
    requires large_first { 10 ^ 8 ≤ v }
    requires large_second { 10 ^ 8 ≤ w }
    ensures { text.new ≡ (32 ∷ number_text NumForm.Unsigned Size.Four v) ++ (32 ∷ number_text NumForm.Unsigned Size.Four w) }
{
    let (front, back) = text.split_at_mut(11);
    let (low, high) = last_eights_of(v, w);
    put_unsigned_parts(front, v / NINE_DIGITS, low);
    put_unsigned_parts(back, w / NINE_DIGITS, high);
}

/// Puts a space and each of two numbers, one after the other.
#[inline(never)]
#[cold]
fn put_cells(text: &mut [u8], form: NumForm, v: u64, w: u64)
    requires room { length text.old ≡ number_width form Size.Four + 1 + (number_width form Size.Four + 1) }
    requires first { v < 2 ^ 32 }
    requires second { w < 2 ^ 32 }
    ensures { text.new ≡ (32 ∷ number_text form Size.Four v) ++ (32 ∷ number_text form Size.Four w) }
{
    let (front, back) = text.split_at_mut(text.len() / 2);
    put_cell(front, form, Size::Four, v);
    put_cell(back, form, Size::Four, w);
}

/// Puts a space and each of two numbers, in two's complement.
#[inline(always)]
fn put_signed_pair(text: &mut [u8], v: u64, w: u64)
    requires room { length text.old ≡ 24 }
    requires first { v < 2 ^ 32 }
    requires second { w < 2 ^ 32 }
    ensures { text.new ≡ (32 ∷ number_text NumForm.Signed Size.Four v) ++ (32 ∷ number_text NumForm.Signed Size.Four w) }
{
    if amount_of(v) < NINE_DIGITS {
        return put_cells(text, NumForm::Signed, v, w);
    }
    if amount_of(w) < NINE_DIGITS {
        return put_cells(text, NumForm::Signed, v, w);
    }
    put_large_signed_pair(text, v, w)
}

/// Puts a space and each of two numbers.
#[inline(always)]
fn put_unsigned_pair(text: &mut [u8], v: u64, w: u64)
    requires room { length text.old ≡ 22 }
    requires first { v < 2 ^ 32 }
    requires second { w < 2 ^ 32 }
    ensures { text.new ≡ (32 ∷ number_text NumForm.Unsigned Size.Four v) ++ (32 ∷ number_text NumForm.Unsigned Size.Four w) }
{
    if v < NINE_DIGITS {
        return put_cells(text, NumForm::Unsigned, v, w);
    }
    if w < NINE_DIGITS {
        return put_cells(text, NumForm::Unsigned, v, w);
    }
    put_large_unsigned_pair(text, v, w)
}

/// Puts a space and the digits of each value of a full line in two's complement, and answers how long the text is.
pub fn put_signed_fours(text: &mut [u8], bytes: &[u8; 16]) -> usize
    requires room { 80 ≤ length text.old }
    ensures most { result ≤ 80 }
    ensures value { result ≡ line_width (Kind.Number NumForm.Signed Size.Four) }
    ensures text { take result text.new ≡ values_text (Kind.Number NumForm.Signed Size.Four) bytes.now }
{
    let values = fours_of(u8x16::from_array(*bytes)).to_array();
    let (front, rest) = text.split_at_mut(24);
    let (back, _) = rest.split_at_mut(24);
    put_signed_pair(front, values[0] as u64, values[1] as u64);
    put_signed_pair(back, values[2] as u64, values[3] as u64);
    48
}

/// Puts a space and the digits of each value of a full line, and answers how long the text is.
pub fn put_unsigned_fours(text: &mut [u8], bytes: &[u8; 16]) -> usize
    requires room { 80 ≤ length text.old }
    ensures most { result ≤ 80 }
    ensures value { result ≡ line_width (Kind.Number NumForm.Unsigned Size.Four) }
    ensures text { take result text.new ≡ values_text (Kind.Number NumForm.Unsigned Size.Four) bytes.now }
{
    let values = fours_of(u8x16::from_array(*bytes)).to_array();
    let (front, rest) = text.split_at_mut(22);
    let (back, _) = rest.split_at_mut(22);
    put_unsigned_pair(front, values[0] as u64, values[1] as u64);
    put_unsigned_pair(back, values[2] as u64, values[3] as u64);
    44
}
