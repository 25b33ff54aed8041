//! The parts of a full line, from 16 bytes at once.
ghost use Rattle.std.specs.Prelude.{◌≡◌, ◌<◌, ℕ, false, map, length, slice_index};
ghost use Rattle.std.specs.Fmt.{digit_glyph};
ghost use Rattle.std.specs.List.{flat_map};
ghost use Rattle.bx_text.specs.Dump.{pair_of, shown_byte};
ghost use Rattle.bx_text.specs.private.Dump.{hex_columns};

use std::simd::prelude::*;

/// The digit for each value below 16.
#[inline(always)]
fn glyphs_of(values: u8x16) -> u8x16
    requires { (k : ℕ) → k < 16 → slice_index values k < 16 }
    ensures { result ≡ map (digit_glyph false) values }
{
    u8x16::from_array(*b"0123456789abcdef").swizzle_dyn(values)
}

/// The two digits of each byte.
#[inline(always)]
fn pairs_of(bytes: u8x16) -> u8x32
    ensures { result ≡ flat_map (pair_of false) bytes }
{
    let high = glyphs_of(bytes >> u8x16::splat(4));
    let low = glyphs_of(bytes & u8x16::splat(15));
    high.shuffle(
        low,
        [
            0, 16, 1, 17, 2, 18, 3, 19, 4, 20, 5, 21, 6, 22, 7, 23, 8, 24, 9, 25, 10, 26, 11, 27,
            12, 28, 13, 29, 14, 30, 15, 31,
        ],
    )
}

/// Puts the bytes in hexadecimal, in pairs.
#[inline(always)]
pub fn put_columns(field: &mut [u8], bytes: u8x16)
    requires { length field.old ≡ 40 }
    ensures { field.new ≡ hex_columns false 2 bytes 40 }
{
    let digits = pairs_of(bytes);
    let space = u8x32::splat(b' ');
    let front: u8x32 = digits.shuffle(
        space,
        [
            0, 1, 2, 3, 32, 4, 5, 6, 7, 32, 8, 9, 10, 11, 32, 12, 13, 14, 15, 32, 16, 17, 18, 19,
            32, 20, 21, 22, 23, 32, 24, 25,
        ],
    );
    let back: u8x8 = digits.shuffle(space, [26, 27, 32, 28, 29, 30, 31, 32]);
    let (first, last) = field.split_at_mut(32);
    front.copy_to_slice(first);
    back.copy_to_slice(last);
}

/// Puts the bytes as text.
#[inline(always)]
pub fn put_shown(field: &mut [u8], bytes: u8x16)
    requires { length field.old ≡ 16 }
    ensures { field.new ≡ map shown_byte bytes }
{
    (bytes - u8x16::splat(0x20))
        .simd_le(u8x16::splat(0x5e))
        .select(bytes, u8x16::splat(b'.'))
        .copy_to_slice(field);
}
