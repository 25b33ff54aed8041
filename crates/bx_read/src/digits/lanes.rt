//! Hexadecimal digits, 16 at once.
ghost use Rattle.std.specs.Prelude.{◌≡◌, ◌*◌, ◌/◌, ◌≤◌, if◌then◌else◌, nat_le, map, length, take, Some};
ghost use Rattle.std.specs.Char.{digit_value};
ghost use Rattle.std.specs.List.{prefix_len};
ghost use Rattle.bx_read.specs.Digits.{is_hex};
ghost use Rattle.bx_read.specs.Plain.{hex_bytes};

use std::simd::prelude::*;

/// How many bytes 16 digits write.
pub const LANES: usize = 8;

/// Puts the bytes of the pairs of digits that 16 bytes begin with, and answers how many they are. Eight bytes are put in all: those
/// behind them say nothing.
#[inline(always)]
pub fn put_front(text: &[u8], out: &mut [u8]) -> usize
    requires text { 16 ≤ length text.now }
    requires room { 8 ≤ length out.old }
    ensures count { result ≡ prefix_len is_hex (take 16 text.now) / 2 }
    ensures few { result ≤ 8 }
    ensures bytes { hex_bytes (take (2 * result) text.now) ≡ Some (take result out.new) }
{
    let values = values_of(u8x16::from_slice(text));
    let high: u8x8 = values.shuffle(values, [0, 2, 4, 6, 8, 10, 12, 14]);
    let low: u8x8 = values.shuffle(values, [1, 3, 5, 7, 9, 11, 13, 15]);
    ((high << u8x8::splat(4)) + low).copy_to_slice(out);
    front_values(values) / 2
}

/// The value of each digit, and 255 for other bytes.
#[inline(always)]
pub fn values_of(text: u8x16) -> u8x16
    ensures { result ≡ map (λ c. if is_hex c then digit_value c else 255) text }
{
    let digit = text - u8x16::splat(b'0');
    let letter = (text | u8x16::splat(0x20)) - u8x16::splat(b'a');
    let letters = letter
        .simd_le(u8x16::splat(5))
        .select(letter + u8x16::splat(10), u8x16::splat(255));
    digit.simd_le(u8x16::splat(9)).select(digit, letters)
}

/// How many values of digits stand in front.
#[inline(always)]
fn front_values(values: u8x16) -> usize
    ensures { result ≡ prefix_len (λ v. nat_le v 15) values }
{
    let others = values.simd_gt(u8x16::splat(15)).to_bitmask();
    if others == 0 {
        16
    } else {
        others.trailing_zeros() as usize
    }
}
