//! Groups of bytes as numbers, the lowest byte first (little-endian), and what stands around them on a line.
ghost use Rattle.std.specs.Prelude.{◌≡◌, ◌+◌, ◌*◌, ◌/◌, ◌≤◌, ◌++◌, map, length, reverse, codes};
ghost use Rattle.std.specs.List.{flat_map};
ghost use Rattle.bx_text.specs.Dump.{pair_of, shown_byte};
ghost use Rattle.bx_dump_columns.specs.Words.{IsUsualGroup, word_text, words_text};

use crate::hex_lanes::{put_shown_bytes, put_sixteen, turn_groups};
use crate::xxd::cells::put_body;
use bx_text::{blank, hex_digit};
use std::simd::prelude::*;

/// Puts the two digits of a byte.
#[inline]
fn put_pair(cells: &mut [u8], byte: u8, upper: bool)
    requires { length cells.old ≡ 2 }
    ensures { cells.new ≡ pair_of upper byte }
{
    cells.copy_from_slice(&[hex_digit(byte / 16, upper), hex_digit(byte % 16, upper)]);
}

/// Puts the two digits of each byte, the last byte first.
fn put_turned(cells: &mut [u8], bytes: &[u8], upper: bool)
    requires { length cells.old ≡ 2 * length bytes.now }
    ensures { cells.new ≡ flat_map (pair_of upper) (reverse bytes.now) }
{
    let count = bytes.len();
    for i in 0..count {
        put_pair(&mut cells[2 * i..2 * i + 2], bytes[count - 1 - i], upper);
    }
}

/// Puts one number of `group` bytes or fewer, at the right of its field, and a space.
fn put_word(field: &mut [u8], bytes: &[u8], upper: bool, group: usize)
    requires few { group ≤ 256 }
    requires fits { length bytes.now ≤ group }
    requires room { length field.old ≡ 2 * group + 1 }
    ensures { field.new ≡ word_text upper group bytes.now }
{
    let size = 2 * bytes.len();
    let (gap, rest) = field.split_at_mut(2 * group - size);
    let (digits, space) = rest.split_at_mut(size);
    blank(gap);
    put_turned(digits, bytes, upper);
    space.copy_from_slice(b" ");
}

/// Puts `count` numbers of `group` bytes, the last ones of fewer or none.
fn put_words(field: &mut [u8], bytes: &[u8], upper: bool, group: usize, count: usize)
    requires few { group ≤ 256 }
    requires many { count ≤ 256 }
    requires room { length field.old ≡ (2 * group + 1) * count }
    ensures { field.new ≡ words_text upper group count bytes.now }
{
    let size = 2 * group + 1;
    for k in 0..count {
        let begin = (group * k).min(bytes.len());
        let end = (begin + group).min(bytes.len());
        put_word(
            &mut field[size * k..size * k + size],
            &bytes[begin..end],
            upper,
            group,
        );
    }
}

/// Puts what stands behind the address: the numbers, and the bytes as text.
pub fn put_words_body(body: &mut [u8], bytes: &[u8], upper: bool, group: usize, count: usize)
    requires few { group ≤ 256 }
    requires many { count ≤ 256 }
    requires long { length body.old ≡ (2 * group + 1) * count + length bytes.now + 4 }
    ensures { body.new ≡ codes ": " ++ words_text upper group count bytes.now ++ codes " " ++ map shown_byte bytes.now ++ codes "\n" }
{
    let (colon, rest) = body.split_at_mut(2);
    let (words, rest) = rest.split_at_mut((2 * group + 1) * count);
    let (space, rest) = rest.split_at_mut(1);
    let (text, end) = rest.split_at_mut(bytes.len());
    colon.copy_from_slice(b": ");
    put_words(words, bytes, upper, group, count);
    space.copy_from_slice(b" ");
    put_shown_bytes(text, bytes);
    end.copy_from_slice(b"\n");
}

/// Puts what stands behind the address of 16 bytes: numbers of two, four or eight bytes, whose digits are made at once, and the text.
#[inline(always)]
pub fn put_sixteen_words(body: &mut [u8], bytes: &[u8], upper: bool, group: usize)
    requires usual { IsUsualGroup group }
    requires bytes { length bytes.now ≡ 16 }
    requires long { length body.old ≡ (2 * group + 1) * (16 / group) + 20 }
    ensures { body.new ≡ codes ": " ++ words_text upper group (16 / group) bytes.now ++ codes " " ++ map shown_byte bytes.now ++ codes "\n" }
{
    let turned = turn_groups(u8x16::from_slice(bytes), group).to_array();
    let mut digits = [0; 32];
    put_sixteen(&mut digits, &turned, upper);
    let count = 16 / group;
    put_body(
        body,
        bytes,
        &digits,
        (2 * group + 1) * count,
        2 * group,
        count,
    );
}
