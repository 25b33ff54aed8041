//! Sixteen lower-case digits at once.
ghost use Rattle.std.specs.Prelude.{◌≡◌, ◌<◌, ◌≤◌, ℕ, map, length, slice_index, unwrap_or, IsTrue, Some, IfSome};
ghost use Rattle.bx_journal_format.specs.Hex.{hex_nibble, number_after};

use std::simd::prelude::*;

/// The number that 16 digits give. Nothing is said of other bytes.
#[inline(always)]
pub fn sixteen(text: &[u8]) -> Option<u64>
    requires { length text.now ≡ 16 }
    ensures { IfSome result (λ n. number_after 0 text.now ≡ Some n) }
{
    let values = values_of(u8x16::from_slice(text));
    if !are_digits(values) {
        return None;
    }
    let high: u8x8 = values.shuffle(values, [0, 2, 4, 6, 8, 10, 12, 14]);
    let low: u8x8 = values.shuffle(values, [1, 3, 5, 7, 9, 11, 13, 15]);
    let bytes = (high << u8x8::splat(4)) + low;
    Some(u64::from_be_bytes(bytes.to_array()))
}

/// The value of each digit, and 255 for other bytes.
#[inline(always)]
fn values_of(text: u8x16) -> u8x16
    ensures { result ≡ map (λ c. unwrap_or (hex_nibble c) 255) text }
{
    let digit = text - u8x16::splat(b'0');
    let letter = text - u8x16::splat(b'a');
    let letters = letter
        .simd_le(u8x16::splat(5))
        .select(letter + u8x16::splat(10), u8x16::splat(255));
    digit.simd_le(u8x16::splat(9)).select(digit, letters)
}

/// Whether these are values of digits.
#[inline(always)]
fn are_digits(values: u8x16) -> bool
    ensures { IsTrue result → (k : ℕ) → k < 16 → slice_index values k ≤ 15 }
{
    values.simd_gt(u8x16::splat(15)).to_bitmask() == 0
}
