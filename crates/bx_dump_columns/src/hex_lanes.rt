//! The digits of many bytes at once, their order, and how they stand in columns.
ghost use Rattle.std.specs.Prelude.{◌≡◌, ℕ, ◌*◌, ◌/◌, ◌%◌, ◌<◌, ◌≤◌, false, List, map, length, take, slice_index};
ghost use Rattle.std.specs.Fmt.{digit_glyph};
ghost use Rattle.std.specs.List.{flat_map, range_with_len};
ghost use Rattle.bx_text.specs.Dump.{pair_of, shown_byte};
ghost use Rattle.bx_dump_columns.specs.Cells.{piece_at};
ghost use Rattle.bx_dump_columns.specs.Hexdump.{canon_columns};
ghost use Rattle.bx_dump_columns.specs.Words.{IsUsualGroup, turned_groups};

use bx_text::put_text;
use std::simd::prelude::*;

/// The hexadecimal digits.
#[inline(always)]
fn glyphs(upper: bool) -> [u8; 16]
    ensures { (k : ℕ) → k < 16 → slice_index result k ≡ digit_glyph upper k }
{
    if upper {
        *b"0123456789ABCDEF"
    } else {
        *b"0123456789abcdef"
    }
}

/// The first digit of each byte.
#[inline(always)]
fn high_digits(bytes: u8x16, upper: bool) -> u8x16
    ensures { result ≡ map (λ b. digit_glyph upper (b / 16)) bytes }
{
    u8x16::from_array(glyphs(upper)).swizzle_dyn(bytes >> u8x16::splat(4))
}

/// The second digit of each byte.
#[inline(always)]
fn low_digits(bytes: u8x16, upper: bool) -> u8x16
    ensures { result ≡ map (λ b. digit_glyph upper (b % 16)) bytes }
{
    u8x16::from_array(glyphs(upper)).swizzle_dyn(bytes & u8x16::splat(15))
}

/// Puts the two digits of each of 16 bytes.
#[inline(always)]
pub fn put_sixteen(cells: &mut [u8], bytes: &[u8], upper: bool)
    requires cells { length cells.old ≡ 32 }
    requires bytes { length bytes.now ≡ 16 }
    ensures { cells.new ≡ flat_map (pair_of upper) bytes.now }
{
    let bytes = u8x16::from_slice(bytes);
    let pairs: u8x32 = high_digits(bytes, upper).shuffle(
        low_digits(bytes, upper),
        [
            0, 16, 1, 17, 2, 18, 3, 19, 4, 20, 5, 21, 6, 22, 7, 23, 8, 24, 9, 25, 10, 26, 11, 27,
            12, 28, 13, 29, 14, 30, 15, 31,
        ],
    );
    pairs.copy_to_slice(cells);
}

/// 16 bytes in groups, the last byte of each group first.
#[inline(always)]
pub fn turn_groups(bytes: u8x16, group: usize) -> u8x16
    requires { IsUsualGroup group }
    ensures { result ≡ turned_groups group bytes }
{
    match group {
        2 => bytes.shuffle(
            bytes,
            [1, 0, 3, 2, 5, 4, 7, 6, 9, 8, 11, 10, 13, 12, 15, 14],
        ),
        4 => bytes.shuffle(
            bytes,
            [3, 2, 1, 0, 7, 6, 5, 4, 11, 10, 9, 8, 15, 14, 13, 12],
        ),
        _ => bytes.shuffle(
            bytes,
            [7, 6, 5, 4, 3, 2, 1, 0, 15, 14, 13, 12, 11, 10, 9, 8],
        ),
    }
}

/// Puts the digits of 16 bytes in two groups of 8, a space after each byte and one more after each group.
#[inline(always)]
pub fn put_canon_sixteen(field: &mut [u8], bytes: &[u8; 16])
    requires { length field.old ≡ 50 }
    ensures { field.new ≡ canon_columns bytes.now (length field.old) }
{
    let mut cells = [0; 32];
    put_sixteen(&mut cells, bytes, false);
    put_canon_cells(field, &cells);
}

/// Puts the digits of 16 bytes, two cells for each, in hexdump's columns.
#[inline(always)]
fn put_canon_cells(field: &mut [u8], cells: &[u8; 32])
    requires { length field.old ≡ 50 }
    ensures { (bytes : List ℕ) → length bytes ≡ 16 → cells.now ≡ flat_map (pair_of false) bytes → field.new ≡ canon_columns bytes (length field.old) }
{
    let cells = u8x32::from_array(*cells);
    let space = u8x32::splat(b' ');
    let front: u8x32 = cells.shuffle(
        space,
        [
            0, 1, 32, 2, 3, 32, 4, 5, 32, 6, 7, 32, 8, 9, 32, 10, 11, 32, 12, 13, 32, 14, 15, 32,
            32, 16, 17, 32, 18, 19, 32, 20,
        ],
    );
    let middle: u8x16 = cells.shuffle(
        space,
        [
            21, 32, 22, 23, 32, 24, 25, 32, 26, 27, 32, 28, 29, 32, 30, 31,
        ],
    );
    let (first, rest) = field.split_at_mut(32);
    let (second, last) = rest.split_at_mut(16);
    front.copy_to_slice(first);
    middle.copy_to_slice(second);
    last.copy_from_slice(b"  ");
}

/// Puts eight pieces of four cells, and a space after each.
#[inline(always)]
pub fn put_fours(field: &mut [u8], cells: &[u8])
    requires field { length field.old ≡ 40 }
    requires cells { length cells.now ≡ 32 }
    ensures { field.new ≡ flat_map (piece_at 4 cells.now) (range_with_len 0 8) }
{
    let cells = u8x32::from_slice(cells);
    let space = u8x32::splat(b' ');
    let front: u8x32 = cells.shuffle(
        space,
        [
            0, 1, 2, 3, 32, 4, 5, 6, 7, 32, 8, 9, 10, 11, 32, 12, 13, 14, 15, 32, 16, 17, 18, 19,
            32, 20, 21, 22, 23, 32, 24, 25,
        ],
    );
    let back: u8x8 = cells.shuffle(space, [26, 27, 32, 28, 29, 30, 31, 32]);
    let (first, last) = field.split_at_mut(32);
    front.copy_to_slice(first);
    back.copy_to_slice(last);
}

/// Puts 16 bytes as text.
#[inline(always)]
pub fn put_shown(field: &mut [u8], bytes: &[u8])
    requires field { length field.old ≡ 16 }
    requires bytes { length bytes.now ≡ 16 }
    ensures { field.new ≡ map shown_byte bytes.now }
{
    let bytes = u8x16::from_slice(bytes);
    let prints = (bytes - u8x16::splat(0x20)).simd_le(u8x16::splat(0x5e));
    prints
        .select(bytes, u8x16::splat(b'.'))
        .copy_to_slice(field);
}

/// Puts `count` times 16 bytes as text.
#[inline(always)]
fn put_shown_sixteens(field: &mut [u8], bytes: &[u8], count: usize)
    requires room { length field.old ≡ 16 * count }
    requires enough { 16 * count ≤ length bytes.now }
    ensures { field.new ≡ map shown_byte (take (16 * count) bytes.now) }
{
    for k in 0..count {
        put_shown(&mut field[16 * k..16 * k + 16], &bytes[16 * k..16 * k + 16]);
    }
}

/// Puts the bytes as text.
#[inline(always)]
pub fn put_shown_bytes(field: &mut [u8], bytes: &[u8])
    requires { length field.old ≡ length bytes.now }
    ensures { field.new ≡ map shown_byte bytes.now }
{
    let count = bytes.len() / 16;
    let (front, rest) = field.split_at_mut(16 * count);
    put_shown_sixteens(front, bytes, count);
    put_text(rest, &bytes[16 * count..]);
}
