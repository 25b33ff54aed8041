//! The digits of many bytes at once, and how they stand in columns.
ghost use Rattle.std.specs.Prelude.{◌≡◌, ◌+◌, ◌*◌, ◌/◌, ◌<◌, ◌≤◌, ◌++◌, false, map, length, take, codes};
ghost use Rattle.std.specs.List.{flat_map, range_with_len};
ghost use Rattle.bx_text.specs.Dump.{pair_of, shown_byte};
ghost use Rattle.bx_text.specs.Field.{hex_text};
ghost use Rattle.bx_dump_columns.specs.Cells.{bits_of, piece_at, grouped};
ghost use Rattle.bx_dump_columns.specs.Words.{decimal_at};

use crate::hex_lanes::{put_fours, put_shown_bytes, put_sixteen};
use crate::od::decimal::put_eight;
use crate::xxd::tables::bits;
use bx_text::{blank, dec_field, hex_digit, hex_field, put_address};

/// Puts the two digits of each byte, byte by byte.
fn put_few_pairs(cells: &mut [u8], bytes: &[u8], upper: bool)
    requires { length cells.old ≡ 2 * length bytes.now }
    ensures { cells.new ≡ flat_map (pair_of upper) bytes.now }
{
    for (i, byte) in bytes.iter().enumerate() {
        cells[2 * i] = hex_digit(byte / 16, upper);
        cells[2 * i + 1] = hex_digit(byte % 16, upper);
    }
}

/// Puts the two digits of each byte, for `count` times 16 bytes.
fn put_sixteens(cells: &mut [u8], bytes: &[u8], upper: bool, count: usize)
    requires room { length cells.old ≡ 32 * count }
    requires enough { 16 * count ≤ length bytes.now }
    ensures { cells.new ≡ flat_map (pair_of upper) (take (16 * count) bytes.now) }
{
    for k in 0..count {
        put_sixteen(
            &mut cells[32 * k..32 * k + 32],
            &bytes[16 * k..16 * k + 16],
            upper,
        );
    }
}

/// Puts the two digits of each byte.
pub fn put_pairs(cells: &mut [u8], bytes: &[u8], upper: bool)
    requires { length cells.old ≡ 2 * length bytes.now }
    ensures { cells.new ≡ flat_map (pair_of upper) bytes.now }
{
    let count = bytes.len() / 16;
    let (front, rest) = cells.split_at_mut(32 * count);
    put_sixteens(front, bytes, upper, count);
    put_few_pairs(rest, &bytes[16 * count..], upper);
}

/// Puts the eight binary digits of each byte.
pub fn put_bits(cells: &mut [u8], bytes: &[u8])
    requires { length cells.old ≡ 8 * length bytes.now }
    ensures { cells.new ≡ flat_map bits_of bytes.now }
{
    for (i, byte) in bytes.iter().enumerate() {
        cells[8 * i..8 * i + 8].copy_from_slice(bits(*byte));
    }
}

/// Puts each piece of `N` cells, and a space after it.
#[inline(always)]
fn put_fixed_pieces<const N: usize>(field: &mut [u8], cells: &[u8], count: usize)
    requires small { N ≤ 4096 }
    requires room { length field.old ≡ (N + 1) * count }
    requires enough { N * count ≤ length cells.now }
    ensures { field.new ≡ flat_map (piece_at N cells.now) (range_with_len 0 count) }
{
    for k in 0..count {
        let at = (N + 1) * k;
        let mut part = [0; N];
        part.copy_from_slice(&cells[N * k..N * k + N]);
        field[at..at + N].copy_from_slice(&part);
        field[at + N] = b' ';
    }
}

/// Puts each piece of the cells, and a space after it.
#[inline(always)]
fn put_pieces(field: &mut [u8], cells: &[u8], piece: usize, count: usize)
    requires room { length field.old ≡ (piece + 1) * count }
    requires enough { piece * count ≤ length cells.now }
    ensures { field.new ≡ flat_map (piece_at piece cells.now) (range_with_len 0 count) }
{
    for k in 0..count {
        let at = (piece + 1) * k;
        field[at..at + piece].copy_from_slice(&cells[piece * k..piece * k + piece]);
        field[at + piece] = b' ';
    }
}

/// The same, with code of its own for the sizes that are usual.
#[inline(always)]
fn put_whole(field: &mut [u8], cells: &[u8], piece: usize, count: usize)
    requires small { piece ≤ 4096 }
    requires room { length field.old ≡ (piece + 1) * count }
    requires enough { piece * count ≤ length cells.now }
    ensures { field.new ≡ flat_map (piece_at piece cells.now) (range_with_len 0 count) }
{
    match (piece, count) {
        (4, 8) => put_fours(field, &cells[..32]),
        (2, _) => put_fixed_pieces::<2>(field, cells, count),
        (4, _) => put_fixed_pieces::<4>(field, cells, count),
        (8, _) => put_fixed_pieces::<8>(field, cells, count),
        (16, _) => put_fixed_pieces::<16>(field, cells, count),
        _ => put_pieces(field, cells, piece, count),
    }
}

/// Puts the cells in groups of `piece` characters, with a space after each whole group, and spaces up to the end.
#[inline(always)]
fn put_grouped(field: &mut [u8], cells: &[u8], piece: usize, count: usize)
    requires some { 0 < piece }
    requires small { piece ≤ 4096 }
    requires whole { count ≡ length cells.now / piece }
    requires room { length cells.now + count ≤ length field.old }
    ensures { field.new ≡ grouped piece cells.now (length field.old) }
{
    let (front, rest) = field.split_at_mut((piece + 1) * count);
    put_whole(front, cells, piece, count);
    let left = &cells[piece * count..];
    let (last, gap) = rest.split_at_mut(left.len());
    last.copy_from_slice(left);
    blank(gap);
}

/// Puts an address of at least 8 digits at the front, and answers how long it is.
#[inline]
pub fn put_at(line: &mut [u8], at: u64) -> usize
    requires { 22 ≤ length line.old }
    ensures most { result ≤ 22 }
    ensures text { take result line.new ≡ hex_text false 8 at }
{
    if at < 1 << 32 {
        let (front, _) = line.split_at_mut(8);
        put_address(front, at as u32);
        return 8;
    }
    let field = hex_field(at, 8, false);
    let text = field.as_bytes();
    line[..text.len()].copy_from_slice(text);
    text.len()
}

/// Puts a decimal address of at least 8 digits at the front, and answers how long it is.
#[inline]
pub fn put_decimal_at(line: &mut [u8], at: u64) -> usize
    requires { 22 ≤ length line.old }
    ensures most { result ≤ 22 }
    ensures text { take result line.new ≡ decimal_at at }
{
    if at < 100_000_000 {
        let (front, _) = line.split_at_mut(8);
        put_eight(front, at as u32);
        return 8;
    }
    let field = dec_field(at as i128, 8, b'0');
    let text = field.as_bytes();
    line[..text.len()].copy_from_slice(text);
    text.len()
}

/// Puts what stands behind the address: the columns, with `width` characters, and the bytes as text.
#[inline(always)]
pub fn put_body(
    body: &mut [u8],
    bytes: &[u8],
    cells: &[u8],
    width: usize,
    piece: usize,
    count: usize,
)
    requires some { 0 < piece }
    requires small { piece ≤ 4096 }
    requires whole { count ≡ length cells.now / piece }
    requires room { length cells.now + count ≤ width }
    requires long { length body.old ≡ width + length bytes.now + 4 }
    ensures { body.new ≡ codes ": " ++ grouped piece cells.now width ++ codes " " ++ map shown_byte bytes.now ++ codes "\n" }
{
    let (colon, rest) = body.split_at_mut(2);
    let (columns, rest) = rest.split_at_mut(width);
    let (space, rest) = rest.split_at_mut(1);
    let (text, end) = rest.split_at_mut(bytes.len());
    colon.copy_from_slice(b": ");
    put_grouped(columns, cells, piece, count);
    space.copy_from_slice(b" ");
    put_shown_bytes(text, bytes);
    end.copy_from_slice(b"\n");
}
