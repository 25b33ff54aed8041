//! od's octal values of two bytes, lane by lane.
ghost use Rattle.std.specs.Prelude.{◌≡◌, ◌+◌, ◌*◌, ◌/◌, ◌%◌, ◌^◌, ◌<◌, ◌≤◌, [], ◌∷◌, length, map, take};
ghost use Rattle.bx_dump_columns.specs.Cells.{by_twos, octal_cells};
ghost use Rattle.bx_dump_columns.specs.Values.{line_width, values_text};

use crate::od::options::{Kind, NumForm, Size};
use std::simd::prelude::*;

/// The octal digit of three bits of each byte, from bit `at` on.
#[inline(always)]
fn digits_at(bytes: u8x16, at: u8) -> u8x16
    requires { at < 8 }
    ensures { result ≡ map (λ b. 48 + b / 2 ^ at % 8) bytes }
{
    ((bytes >> u8x16::splat(at)) & u8x16::splat(7)) + u8x16::splat(b'0')
}

/// The last bit of each byte, four times as much.
#[inline(always)]
fn last_bits(bytes: u8x16) -> u8x16
    ensures { result ≡ map (λ b. 4 * (b % 2)) bytes }
{
    (bytes & u8x16::splat(1)) << u8x16::splat(2)
}

/// A digit of the first byte of each value, and one of its second byte.
#[inline(always)]
fn digits_of_both(bytes: u8x16, low: u8, high: u8) -> u8x16
    requires low { low < 8 }
    requires high { high < 8 }
    ensures { result ≡ by_twos (λ a b. (48 + a / 2 ^ low % 8) ∷ (48 + b / 2 ^ high % 8) ∷ []) bytes }
{
    digits_at(bytes, low).shuffle(
        digits_at(bytes, high),
        [0, 17, 2, 19, 4, 21, 6, 23, 8, 25, 10, 27, 12, 29, 14, 31],
    )
}

/// The third digit of each value from its end, which both bytes have a part of, and the fourth.
#[inline(always)]
fn middle_digits(bytes: u8x16) -> u8x16
    ensures { result ≡ by_twos (λ a b. (48 + (a / 64 % 8 + 4 * (b % 2))) ∷ (48 + b / 2 % 8) ∷ []) bytes }
{
    let parts: u8x16 = last_bits(bytes).shuffle(
        u8x16::splat(0),
        [1, 16, 3, 16, 5, 16, 7, 16, 9, 16, 11, 16, 13, 16, 15, 16],
    );
    digits_of_both(bytes, 6, 1) + parts
}

/// A space and the digits of each value, and spaces.
#[inline(always)]
fn cells_of(bytes: u8x16) -> u8x64
    ensures size { length result ≡ 64 }
    ensures text { take 56 result ≡ by_twos octal_cells bytes }
{
    let sides: u8x32 = digits_of_both(bytes, 0, 7).shuffle(
        digits_of_both(bytes, 3, 4),
        [
            0, 1, 2, 3, 4, 5, 6, 7, 8, 9, 10, 11, 12, 13, 14, 15, 16, 17, 18, 19, 20, 21, 22, 23,
            24, 25, 26, 27, 28, 29, 30, 31,
        ],
    );
    let middle: u8x32 = middle_digits(bytes).shuffle(
        u8x16::splat(b' '),
        [
            0, 1, 2, 3, 4, 5, 6, 7, 8, 9, 10, 11, 12, 13, 14, 15, 16, 17, 18, 19, 20, 21, 22, 23,
            24, 25, 26, 27, 28, 29, 30, 31,
        ],
    );
    sides.shuffle(
        middle,
        [
            48, 1, 17, 33, 32, 16, 0, 48, 3, 19, 35, 34, 18, 2, 48, 5, 21, 37, 36, 20, 4, 48, 7,
            23, 39, 38, 22, 6, 48, 9, 25, 41, 40, 24, 8, 48, 11, 27, 43, 42, 26, 10, 48, 13, 29,
            45, 44, 28, 12, 48, 15, 31, 47, 46, 30, 14, 48, 48, 48, 48, 48, 48, 48, 48,
        ],
    )
}

/// Puts a space and the digits of each value of a full line, and answers how long the text is.
pub fn put_octal_twos(text: &mut [u8], bytes: &[u8; 16]) -> usize
    requires room { 80 ≤ length text.old }
    ensures most { result ≤ 80 }
    ensures value { result ≡ line_width (Kind.Number NumForm.Octal Size.Two) }
    ensures text { take result text.new ≡ values_text (Kind.Number NumForm.Octal Size.Two) bytes.now }
{
    let (front, _) = text.split_at_mut(64);
    cells_of(u8x16::from_array(*bytes)).copy_to_slice(front);
    56
}
