//! The digits of a full line, 16 at once.
ghost use Rattle.std.specs.Prelude.{◌≡◌, ◌+◌, ◌*◌, ◌^◌, ◌<◌, ◌≤◌, ◌++◌, ℕ, map, length, slice_index, All, IsTrue, Some, IfSome};
ghost use Rattle.std.specs.Str.Parse.{digits_value};
ghost use Rattle.bx_read.specs.Digits.{is_hex, pairs_of};
ghost use Rattle.bx_read.specs.Plain.{hex_bytes};
ghost use Rattle.bx_read.specs.private.Lanes.{group_places};

use crate::digits::lanes::values_of;
use std::simd::prelude::*;

/// The bytes of eight groups of two pairs with a space between two groups, if that is what the text is.
#[inline(always)]
pub fn columns_of(hex: &[u8]) -> Option<[u8; 16]>
    requires { length hex.now ≡ 39 }
    ensures { IfSome result (λ bytes. pairs_of hex.now ≡ Some bytes) }
{
    if !is_spaced(hex) {
        return None;
    }
    pairs_in(groups_of(hex), groups_of(&hex[20..]))
}

/// Whether a space stands behind each of the first seven groups.
#[inline(always)]
fn is_spaced(hex: &[u8]) -> bool
    requires { length hex.now ≡ 39 }
    ensures { IsTrue result → (k : ℕ) → k < 7 → slice_index hex.now (5 * k + 4) ≡ 32 }
{
    for k in 0..7usize {
        if hex[5 * k + 4] != b' ' {
            return false;
        }
    }
    true
}

/// The digits of the first four groups.
#[inline(always)]
fn groups_of(hex: &[u8]) -> u8x16
    requires { 19 ≤ length hex.now }
    ensures { result ≡ map (slice_index hex.now) group_places }
{
    let first: u8x8 = u8x4::from_slice(hex).shuffle(
        u8x4::from_slice(&hex[5..]),
        [0, 1, 2, 3, 4, 5, 6, 7],
    );
    let second: u8x8 = u8x4::from_slice(&hex[10..]).shuffle(
        u8x4::from_slice(&hex[15..]),
        [0, 1, 2, 3, 4, 5, 6, 7],
    );
    first.shuffle(
        second,
        [0, 1, 2, 3, 4, 5, 6, 7, 8, 9, 10, 11, 12, 13, 14, 15],
    )
}

/// The bytes that 32 digits write, or none where one of them isn't a digit.
#[inline(always)]
fn pairs_in(first: u8x16, second: u8x16) -> Option<[u8; 16]>
    ensures { IfSome result (λ bytes. hex_bytes (first ++ second) ≡ Some bytes) }
{
    let front = values_of(first);
    let back = values_of(second);
    if !are_digits(front) || !are_digits(back) {
        return None;
    }
    let high: u8x16 = front.shuffle(
        back,
        [0, 2, 4, 6, 8, 10, 12, 14, 16, 18, 20, 22, 24, 26, 28, 30],
    );
    let low: u8x16 = front.shuffle(
        back,
        [1, 3, 5, 7, 9, 11, 13, 15, 17, 19, 21, 23, 25, 27, 29, 31],
    );
    Some(((high << u8x16::splat(4)) + low).to_array())
}

/// The address that 8 digits write, in either case. Nothing is said of other bytes.
#[inline(always)]
pub fn parse_address(digits: &[u8]) -> Option<u64>
    requires { length digits.now ≡ 8 }
    ensures { IfSome result (λ n. (n ≡ digits_value 16 digits.now) × (n < 2 ^ 32) × All (λ c. IsTrue (is_hex c)) digits.now) }
{
    let values = values_of(twice_of(digits));
    if !are_digits(values) {
        return None;
    }
    let high: u8x4 = values.shuffle(values, [0, 2, 4, 6]);
    let low: u8x4 = values.shuffle(values, [1, 3, 5, 7]);
    let bytes = (high << u8x4::splat(4)) + low;
    Some(u64::from(u32::from_be_bytes(bytes.to_array())))
}

/// Eight bytes, and the same once more.
#[inline(always)]
fn twice_of(text: &[u8]) -> u8x16
    requires { length text.now ≡ 8 }
    ensures { result ≡ text.now ++ text.now }
{
    let once = u8x8::from_slice(text);
    once.shuffle(once, [0, 1, 2, 3, 4, 5, 6, 7, 8, 9, 10, 11, 12, 13, 14, 15])
}

/// Whether these are values of digits.
#[inline(always)]
fn are_digits(values: u8x16) -> bool
    ensures { IsTrue result → (k : ℕ) → k < 16 → slice_index values k ≤ 15 }
{
    values.simd_gt(u8x16::splat(15)).to_bitmask() == 0
}
