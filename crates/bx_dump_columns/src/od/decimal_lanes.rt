//! Decimal digits of two numbers at once, lane by lane.
ghost use Rattle.std.specs.Prelude.{◌≡◌, false, ◌+◌, ◌*◌, ◌/◌, ◌%◌, ◌^◌, ◌<◌, [], ◌∷◌, ◌++◌, length};
ghost use Rattle.std.specs.Fmt.{digits};
ghost use Rattle.bx_text.specs.Field.{left_filled};

use std::simd::prelude::*;

/// The first four of eight digits in the lower 16 bits, and the last four above them. 109,951,163 is 2^40 / 10,000, rounded up.
#[inline(always)]
fn halves(n: u64) -> u64
    requires { n < 10 ^ 8 }
    ensures { result ≡ n / 10000 + n % 10000 * 2 ^ 16 }
{
    (n << 16) - ((n * 109_951_163) >> 40) * ((10_000 << 16) - 1)
}

/// Four digits in each lane: those of one number, those of another, and zeros.
#[inline(always)]
fn fours(a: u64, b: u64) -> u16x8
    requires first { a < 10 ^ 8 }
    requires second { b < 10 ^ 8 }
    ensures { result ≡ a / 10000 ∷ a % 10000 ∷ b / 10000 ∷ b % 10000 ∷ 0 ∷ 0 ∷ 0 ∷ 0 ∷ [] }
{
    let word = halves(a) + (halves(b) << 32);
    u16x8::from_le_bytes(u64x2::from_array([word, 0]).to_le_bytes())
}

/// Two digits in each lane: those of one number, and those of another.
#[inline(always)]
fn twos(a: u64, b: u64) -> u16x8
    requires first { a < 10 ^ 8 }
    requires second { b < 10 ^ 8 }
    ensures { result ≡ a / 10000 / 100 ∷ a / 10000 % 100 ∷ a % 10000 / 100 ∷ a % 10000 % 100
        ∷ b / 10000 / 100 ∷ b / 10000 % 100 ∷ b % 10000 / 100 ∷ b % 10000 % 100 ∷ [] }
{
    let fours = fours(a, b);
    let hundreds = fours / u16x8::splat(100);
    let rests = fours - hundreds * u16x8::splat(100);
    hundreds.shuffle(rests, [0, 8, 1, 9, 2, 10, 3, 11])
}

/// The eight digits of one number, and those of another.
#[inline(always)]
pub fn eights_of(a: u64, b: u64) -> u8x16
    requires first { a < 10 ^ 8 }
    requires second { b < 10 ^ 8 }
    ensures size { length result ≡ 16 }
    ensures text { result ≡ left_filled 48 8 (digits 10 false a) ++ left_filled 48 8 (digits 10 false b) }
{
    let twos = twos(a, b);
    let tens = twos / u16x8::splat(10);
    // In each lane the tens are in the lower byte, and the ones above them.
    u8x16::splat(b'0') + ((twos << 8) - tens * u16x8::splat(2559)).to_le_bytes()
}

/// Puts a number in sixteen digits.
#[inline(always)]
pub fn put_sixteen(field: &mut [u8], v: u64)
    requires room { length field.old ≡ 16 }
    requires small { v < 10 ^ 16 }
    ensures { field.new ≡ left_filled 48 16 (digits 10 false v) }
{
    eights_of(v / 100000000, v % 100000000).copy_to_slice(field);
}
