//! The eight binary digits of each of six bytes, and their line, many characters at once.
ghost use Rattle.std.specs.Prelude.{◌≡◌, ◌++◌, map, length, take, drop, codes};
ghost use Rattle.bx_dump_columns.specs.Bits.{spaced_bits};
ghost use Rattle.bx_text.specs.Dump.{shown_byte};

use crate::hex_lanes::put_shown;
use std::simd::prelude::*;

/// The first 32 characters of the digits, a space after each eight.
#[inline(always)]
fn front_digits(bytes: u8x16) -> u8x32
    ensures { result ≡ take 32 (spaced_bits (take 6 bytes)) }
{
    let places: u8x32 = bytes.shuffle(
        bytes,
        [
            0, 0, 0, 0, 0, 0, 0, 0, 0, 1, 1, 1, 1, 1, 1, 1, 1, 0, 2, 2, 2, 2, 2, 2, 2, 2, 0, 3, 3,
            3, 3, 3,
        ],
    );
    let bits = u8x32::from_array([
        128, 64, 32, 16, 8, 4, 2, 1, 0, 128, 64, 32, 16, 8, 4, 2, 1, 0, 128, 64, 32, 16, 8, 4, 2,
        1, 0, 128, 64, 32, 16, 8,
    ]);
    (places & bits).simd_eq(bits).select(
        u8x32::from_array(*b"11111111 11111111 11111111 11111"),
        u8x32::from_array(*b"00000000 00000000 00000000 00000"),
    )
}

/// The next 16 characters.
#[inline(always)]
fn middle_digits(bytes: u8x16) -> u8x16
    ensures { result ≡ take 16 (drop 32 (spaced_bits (take 6 bytes))) }
{
    let places: u8x16 = bytes.shuffle(bytes, [3, 3, 3, 0, 4, 4, 4, 4, 4, 4, 4, 4, 0, 5, 5, 5]);
    let bits = u8x16::from_array([4, 2, 1, 0, 128, 64, 32, 16, 8, 4, 2, 1, 0, 128, 64, 32]);
    (places & bits).simd_eq(bits).select(
        u8x16::from_array(*b"111 11111111 111"),
        u8x16::from_array(*b"000 00000000 000"),
    )
}

/// The last 8 characters. The first two of them are among those before.
#[inline(always)]
fn last_digits(bytes: u8x16) -> u8x8
    ensures { result ≡ drop 46 (spaced_bits (take 6 bytes)) }
{
    let places: u8x8 = bytes.shuffle(bytes, [5, 5, 5, 5, 5, 5, 5, 0]);
    let bits = u8x8::from_array([64, 32, 16, 8, 4, 2, 1, 0]);
    (places & bits).simd_eq(bits).select(
        u8x8::from_array(*b"1111111 "),
        u8x8::from_array(*b"0000000 "),
    )
}

/// Puts what stands behind the address of a line for the first six of 16 bytes.
#[inline(always)]
pub fn put_six(body: &mut [u8], bytes: &[u8])
    requires body { length body.old ≡ 64 }
    requires bytes { length bytes.now ≡ 16 }
    ensures { body.new ≡ codes ": " ++ spaced_bits (take 6 bytes.now) ++ codes " " ++ map shown_byte (take 6 bytes.now) ++ codes "\n" }
{
    let lanes = u8x16::from_slice(bytes);
    let mut text = [0; 16];
    put_shown(&mut text, bytes);
    body[..2].copy_from_slice(b": ");
    front_digits(lanes).copy_to_slice(&mut body[2..34]);
    middle_digits(lanes).copy_to_slice(&mut body[34..50]);
    last_digits(lanes).copy_to_slice(&mut body[48..56]);
    body[56] = b' ';
    body[57..63].copy_from_slice(&text[..6]);
    body[63] = b'\n';
}
