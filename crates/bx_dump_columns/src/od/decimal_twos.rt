//! od's decimal values of two bytes, lane by lane.
ghost use Rattle.std.specs.Prelude.{◌≡◌, ◌≤◌, ◌++◌, length, map, take};
ghost use Rattle.std.specs.List.{flat_map};
ghost use Rattle.bx_dump_columns.specs.Decimal.{words, amount, front, decimal_char, last_char, cells, cells_len, form_of};
ghost use Rattle.bx_dump_columns.specs.Values.{line_width, values_text};

use crate::od::options::{Kind, NumForm, Size};
use std::simd::prelude::*;

/// Each value of two bytes, the lowest byte first.
#[inline(always)]
fn words_of(bytes: u8x16) -> u16x8
    ensures { result ≡ words bytes }
{
    u16x8::from_le_bytes(bytes)
}

/// How much each value is without its sign, in two's complement where `signed`.
#[inline(always)]
fn amounts_of(values: u16x8, signed: bool) -> u16x8
    ensures { result ≡ map (amount signed) values }
{
    if signed {
        values
            .simd_lt(u16x8::splat(32768))
            .select(values, u16x8::splat(0) - values)
    } else {
        values
    }
}

/// What stands in front of the first digit of each value: a minus or a space.
#[inline(always)]
fn fronts_of(values: u16x8, signed: bool) -> u16x8
    ensures { result ≡ map (front signed) values }
{
    if signed {
        values
            .simd_lt(u16x8::splat(32768))
            .select(u16x8::splat(b' ' as u16), u16x8::splat(b'-' as u16))
    } else {
        u16x8::splat(b' ' as u16)
    }
}

/// The character of each value at the place of this power of ten: a digit, what stands in front of the first digit, or a space.
#[inline(always)]
fn chars_at(values: u16x8, signed: bool, power: u16) -> u8x8
    requires { 10 ≤ power }
    ensures { result ≡ map (decimal_char signed power) values }
{
    let amounts = amounts_of(values, signed);
    let upper = amounts / u16x8::splat(power);
    let digits = upper - upper / u16x8::splat(10) * u16x8::splat(10) + u16x8::splat(b'0' as u16);
    let fronts = amounts
        .simd_lt(u16x8::splat(power / 10))
        .select(u16x8::splat(b' ' as u16), fronts_of(values, signed));
    amounts
        .simd_lt(u16x8::splat(power))
        .select(fronts, digits)
        .cast::<u8>()
}

/// The character of each value in front of its fifth digit.
#[inline(always)]
fn first_chars(values: u16x8, signed: bool) -> u8x8
    ensures { result ≡ map (decimal_char signed 100000) values }
{
    amounts_of(values, signed)
        .simd_lt(u16x8::splat(10000))
        .select(u16x8::splat(b' ' as u16), fronts_of(values, signed))
        .cast::<u8>()
}

/// The last digit of each value.
#[inline(always)]
fn last_chars(values: u16x8, signed: bool) -> u8x8
    ensures { result ≡ map (last_char signed) values }
{
    let amounts = amounts_of(values, signed);
    let digits = amounts - amounts / u16x8::splat(10) * u16x8::splat(10)
        + u16x8::splat(b'0' as u16);
    digits.cast::<u8>()
}

/// Eight characters, and eight behind them.
#[inline(always)]
fn eight_and_eight(front: u8x8, back: u8x8) -> u8x16
    ensures { result ≡ front ++ back }
{
    front.shuffle(back, [0, 1, 2, 3, 4, 5, 6, 7, 8, 9, 10, 11, 12, 13, 14, 15])
}

/// Sixteen characters, and sixteen behind them.
#[inline(always)]
fn all_of(front: u8x16, back: u8x16) -> u8x32
    ensures { result ≡ front ++ back }
{
    front.shuffle(
        back,
        [
            0, 1, 2, 3, 4, 5, 6, 7, 8, 9, 10, 11, 12, 13, 14, 15, 16, 17, 18, 19, 20, 21, 22, 23,
            24, 25, 26, 27, 28, 29, 30, 31,
        ],
    )
}

/// A space and the characters of each value, in two's complement where `signed`, and spaces.
#[inline(always)]
fn cells_of(values: u16x8, signed: bool) -> u8x64
    ensures size { length result ≡ 64 }
    ensures text { take (cells_len signed) result ≡ flat_map (cells signed) values }
{
    let low = eight_and_eight(chars_at(values, signed, 10), last_chars(values, signed));
    let middle = eight_and_eight(
        chars_at(values, signed, 1000),
        chars_at(values, signed, 100),
    );
    let high = eight_and_eight(first_chars(values, signed), chars_at(values, signed, 10000));
    let back = all_of(low, middle);
    let front = all_of(high, u8x16::splat(b' '));
    if signed {
        back.shuffle(
            front,
            [
                48, 32, 40, 16, 24, 0, 8, 48, 33, 41, 17, 25, 1, 9, 48, 34, 42, 18, 26, 2, 10, 48,
                35, 43, 19, 27, 3, 11, 48, 36, 44, 20, 28, 4, 12, 48, 37, 45, 21, 29, 5, 13, 48,
                38, 46, 22, 30, 6, 14, 48, 39, 47, 23, 31, 7, 15, 48, 48, 48, 48, 48, 48, 48, 48,
            ],
        )
    } else {
        back.shuffle(
            front,
            [
                48, 40, 16, 24, 0, 8, 48, 41, 17, 25, 1, 9, 48, 42, 18, 26, 2, 10, 48, 43, 19, 27,
                3, 11, 48, 44, 20, 28, 4, 12, 48, 45, 21, 29, 5, 13, 48, 46, 22, 30, 6, 14, 48, 47,
                23, 31, 7, 15, 48, 48, 48, 48, 48, 48, 48, 48, 48, 48, 48, 48, 48, 48, 48, 48,
            ],
        )
    }
}

/// Puts a space and the digits of each value of a full line, in two's complement where `signed`.
#[inline(always)]
fn put_cells(text: &mut [u8], bytes: &[u8; 16], signed: bool)
    requires { 80 ≤ length text.old }
    ensures { take (cells_len signed) text.new ≡ values_text (Kind.Number (form_of signed) Size.Two) bytes.now }
{
    let (front, _) = text.split_at_mut(64);
    cells_of(words_of(u8x16::from_array(*bytes)), signed).copy_to_slice(front);
}

/// Puts a space and the digits of each value of a full line in two's complement, and answers how long the text is.
pub fn put_signed_twos(text: &mut [u8], bytes: &[u8; 16]) -> usize
    requires room { 80 ≤ length text.old }
    ensures most { result ≤ 80 }
    ensures value { result ≡ line_width (Kind.Number NumForm.Signed Size.Two) }
    ensures text { take result text.new ≡ values_text (Kind.Number NumForm.Signed Size.Two) bytes.now }
{
    put_cells(text, bytes, true);
    56
}

/// Puts a space and the digits of each value of a full line, and answers how long the text is.
pub fn put_unsigned_twos(text: &mut [u8], bytes: &[u8; 16]) -> usize
    requires room { 80 ≤ length text.old }
    ensures most { result ≤ 80 }
    ensures value { result ≡ line_width (Kind.Number NumForm.Unsigned Size.Two) }
    ensures text { take result text.new ≡ values_text (Kind.Number NumForm.Unsigned Size.Two) bytes.now }
{
    put_cells(text, bytes, false);
    48
}
