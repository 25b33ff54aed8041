//! The values of a line.
ghost use Rattle.std.specs.Prelude.{◌≡◌, ℕ, ◌+◌, ◌-◌, ◌*◌, ◌^◌, ◌/◌, ◌<◌, ◌≤◌, ◌∷◌, length, take, drop, get_or, min};
ghost use Rattle.bx_dump_columns.specs.Lines.{in_lines};
ghost use Rattle.bx_dump_columns.specs.Values.{value_of, value_in, width_of, field_text, field_width, line_width, value_text, value_text_in, values_text};

use crate::hex_lanes::turn_groups;
use crate::od::byte_tables::char_of;
use crate::od::decimal_fours::{put_signed_fours, put_unsigned_fours};
use crate::od::decimal_twos::{put_signed_twos, put_unsigned_twos};
use crate::od::fixed::put_cell;
use crate::od::hexadecimal::put_hexadecimal_line;
use crate::od::octal_lanes::put_octal_twos;
use crate::od::options::{Endian, Kind, NumForm, Size};
use std::simd::prelude::*;

/// The value of bytes, the lowest first (little-endian).
#[inline(always)]
fn value_of(bytes: &[u8]) -> u64
    requires { length bytes.now ≤ 8 }
    ensures value { result ≡ value_of bytes.now }
    ensures below { result < 256 ^ length bytes.now }
{
    if let Some(all) = bytes.first_chunk::<8>() {
        return u64::from_le_bytes(*all);
    }
    if bytes.len() == 4
        && let Some(all) = bytes.first_chunk::<4>()
    {
        return u32::from_le_bytes(*all) as u64;
    }
    let mut at = bytes.len();
    let mut value = 0u64;
    while at > 0 {
        at -= 1;
        value = 256 * value + bytes[at] as u64;
    }
    value
}

/// The value of bytes, the highest first (big-endian); those that are absent behind them count as 0.
fn big_value(bytes: &[u8], width: usize) -> u64
    requires few { length bytes.now ≤ width }
    requires most { width ≤ 8 }
    ensures value { result ≡ value_in Endian.Big width bytes.now }
    ensures below { result < 256 ^ width }
{
    let mut value = 0u64;
    for place in 0..width {
        value = 256 * value + byte_at(bytes, place) as u64;
    }
    value
}

/// The byte at a place, and 0 behind the last.
#[inline(always)]
fn byte_at(bytes: &[u8], place: usize) -> u8
    ensures { result ≡ get_or bytes.now place 0 }
{
    if place < bytes.len() {
        return bytes[place];
    }
    0
}

/// The value of at most `width` bytes in an order; those that are absent count as 0.
#[inline(always)]
fn value_in(bytes: &[u8], endian: Endian, width: usize) -> u64
    requires few { length bytes.now ≤ width }
    requires most { width ≤ 8 }
    ensures value { result ≡ value_in endian width bytes.now }
    ensures below { result < 256 ^ width }
{
    match endian {
        Endian::Little => value_of(bytes),
        Endian::Big => big_value(bytes, width),
    }
}

/// Puts a space and the field for the bytes of one value.
#[inline(always)]
fn put_value(text: &mut [u8], kind: Kind, endian: Endian, bytes: &[u8])
    requires room { length text.old ≡ field_width kind + 1 }
    requires fits { length bytes.now ≤ width_of kind }
    ensures { text.new ≡ 32 ∷ field_text kind (value_in endian (width_of kind) bytes.now) }
{
    let value = value_in(bytes, endian, kind.width());
    match kind {
        Kind::Chars => text.copy_from_slice(&char_of(value as u8)),
        Kind::Number { form, size } => put_cell(text, form, size, value),
    }
}

/// Puts the value that begins at place `begin` of the bytes, and answers how long its text is.
#[inline(always)]
pub(crate) fn put_next(
    text: &mut [u8],
    kind: Kind,
    endian: Endian,
    bytes: &[u8],
    begin: usize,
) -> usize
    requires room { field_width kind + 1 ≤ length text.old }
    requires inside { begin < length bytes.now }
    requires few { length bytes.now ≤ 4096 }
    ensures value { result ≡ field_width kind + 1 }
    ensures text { take result text.new ≡
        value_text_in endian kind (0 + begin) (take (min (begin + width_of kind) (length bytes.now) - begin) (drop begin bytes.now)) }
{
    let end = (begin + kind.width()).min(bytes.len());
    let (value, _) = text.split_at_mut(kind.field() + 1);
    put_value(value, kind, endian, &bytes[begin..end]);
    kind.field() + 1
}

/// Puts the value whose bytes are all there, from place `begin` on, and answers how long its text is.
#[inline(always)]
fn put_exact(text: &mut [u8], kind: Kind, bytes: &[u8], begin: usize) -> usize
    requires room { field_width kind + 1 ≤ length text.old }
    requires inside { begin + width_of kind ≤ length bytes.now }
    ensures value { result ≡ field_width kind + 1 }
    ensures text { take result text.new ≡ value_text kind (0 + begin) (take (min (begin + width_of kind) (length bytes.now) - begin) (drop begin bytes.now)) }
{
    let end = begin + kind.width();
    let (value, _) = text.split_at_mut(kind.field() + 1);
    put_value(value, kind, Endian::Little, &bytes[begin..end]);
    kind.field() + 1
}

/// Puts the values of a full line, and answers how long their text is.
#[inline(always)]
fn put_whole(text: &mut [u8], kind: Kind, bytes: &[u8]) -> usize
    requires room { 80 ≤ length text.old }
    requires full { length bytes.now ≡ 16 }
    ensures most { result ≤ 80 }
    ensures value { result ≡ line_width kind }
    ensures text { take result text.new ≡ in_lines (value_text kind) (width_of kind) 0 bytes.now }
{
    let width = kind.width();
    let count = (bytes.len() + width - 1) / width;
    let mut used = 0;
    for k in 0..count {
        used += put_exact(&mut text[used..], kind, bytes, width * k);
    }
    used
}

/// Puts the numbers of a full line, with a loop of its own for each size.
#[inline(always)]
fn put_sized(text: &mut [u8], form: NumForm, size: Size, bytes: &[u8; 16]) -> usize
    requires room { 80 ≤ length text.old }
    ensures most { result ≤ 80 }
    ensures value { result ≡ line_width (Kind.Number form size) }
    ensures text { take result text.new ≡ values_text (Kind.Number form size) bytes.now }
{
    match size {
        Size::One => put_whole(
            text,
            Kind::Number {
                form,
                size: Size::One,
            },
            bytes,
        ),
        Size::Two => put_whole(
            text,
            Kind::Number {
                form,
                size: Size::Two,
            },
            bytes,
        ),
        Size::Four => put_whole(
            text,
            Kind::Number {
                form,
                size: Size::Four,
            },
            bytes,
        ),
        Size::Eight => put_whole(
            text,
            Kind::Number {
                form,
                size: Size::Eight,
            },
            bytes,
        ),
    }
}

/// Puts the values of a full line.
pub fn put_full(text: &mut [u8], kind: Kind, bytes: &[u8; 16]) -> usize
    requires room { 80 ≤ length text.old }
    ensures most { result ≤ 80 }
    ensures value { result ≡ line_width kind }
    ensures text { take result text.new ≡ in_lines (value_text kind) (width_of kind) 0 bytes.now }
{
    match kind {
        Kind::Chars => put_whole(text, Kind::Chars, bytes),
        Kind::Number { form, size } => match form {
            NumForm::Signed if size == Size::Two => put_signed_twos(text, bytes),
            NumForm::Signed if size == Size::Four => put_signed_fours(text, bytes),
            NumForm::Signed => put_sized(text, NumForm::Signed, size, bytes),
            NumForm::Octal if size == Size::Two => put_octal_twos(text, bytes),
            NumForm::Octal => put_sized(text, NumForm::Octal, size, bytes),
            NumForm::Unsigned if size == Size::Two => put_unsigned_twos(text, bytes),
            NumForm::Unsigned if size == Size::Four => put_unsigned_fours(text, bytes),
            NumForm::Unsigned => put_sized(text, NumForm::Unsigned, size, bytes),
            NumForm::Hexadecimal => put_hexadecimal_line(text, size, bytes),
        },
    }
}

/// 16 bytes with the lowest byte of each value first.
#[inline(always)]
fn lowest_first(bytes: &[u8], kind: Kind, endian: Endian) -> [u8; 16]
    requires { length bytes.now ≡ 16 }
    ensures { values_text kind result ≡ in_lines (value_text_in endian kind) (width_of kind) 0 bytes.now }
{
    let width = kind.width();
    let lanes = u8x16::from_slice(bytes);
    match endian {
        Endian::Little => lanes.to_array(),
        Endian::Big if width == 1 => lanes.to_array(),
        Endian::Big => turn_groups(lanes, width).to_array(),
    }
}

/// Puts the values of the first pieces of 16 bytes, as many as there is room for, and answers how many values these are.
fn put_pieces(text: &mut [u8], kind: Kind, endian: Endian, bytes: &[u8]) -> usize
    requires few { length bytes.now ≤ 4096 }
    ensures few { result ≤ 4096 }
    ensures inside { width_of kind * result ≤ length bytes.now }
    ensures text { take ((field_width kind + 1) * result) text.new ≡
        in_lines (value_text_in endian kind) (width_of kind) 0 (take (width_of kind * result) bytes.now) }
{
    let count = (bytes.len() / 16).min(text.len() / 80);
    let mut used = 0;
    for k in 0..count {
        let piece = lowest_first(&bytes[16 * k..16 * k + 16], kind, endian);
        used += put_full(&mut text[used..], kind, &piece);
    }
    16 / kind.width() * count
}

/// Puts the values of a line whose bytes stand in an order, and answers how long their text is.
pub fn put_values(text: &mut [u8], kind: Kind, endian: Endian, bytes: &[u8]) -> usize
    requires room { (field_width kind + 1) * ((length bytes.now + width_of kind - 1) / width_of kind) ≤ length text.old }
    requires few { length bytes.now ≤ 4096 }
    ensures most { result ≤ (field_width kind + 1) * ((length bytes.now + width_of kind - 1) / width_of kind) }
    ensures text { take result text.new ≡ in_lines (value_text_in endian kind) (width_of kind) 0 bytes.now }
{
    let width = kind.width();
    let first = put_pieces(text, kind, endian, bytes);
    let count = (bytes.len() + width - 1) / width;
    let mut used = (kind.field() + 1) * first;
    for k in first..count {
        used += put_next(&mut text[used..], kind, endian, bytes, width * k);
    }
    used
}

/// Puts the values of a line that may be short.
pub fn put_any(text: &mut [u8], kind: Kind, bytes: &[u8]) -> usize
    requires room { 80 ≤ length text.old }
    requires few { length bytes.now ≤ 16 }
    ensures most { result ≤ 80 }
    ensures text { take result text.new ≡ in_lines (value_text kind) (width_of kind) 0 bytes.now }
{
    match bytes.first_chunk::<16>() {
        Some(full) => put_full(text, kind, full),
        None => put_values(text, kind, Endian::Little, bytes),
    }
}
