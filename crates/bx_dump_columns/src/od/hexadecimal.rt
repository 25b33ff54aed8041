//! od's hexadecimal values, lane by lane.
ghost use Rattle.std.specs.Prelude.{◌≡◌, ◌≤◌, length, take};
ghost use Rattle.bx_dump_columns.specs.Cells.{ShowsValues};
ghost use Rattle.bx_dump_columns.specs.Values.{line_width, values_text};

use crate::hex_lanes::put_sixteen;
use crate::od::options::{Kind, NumForm, Size};
use std::simd::prelude::*;

/// Puts a space and the digits of each byte, the last of them first, by the digits of 16 bytes.
#[inline(always)]
fn put_values_of_one(text: &mut [u8], cells: &[u8; 32]) -> usize
    requires { 80 ≤ length text.old }
    ensures most { result ≤ 80 }
    ensures value { result ≡ line_width (Kind.Number NumForm.Hexadecimal Size.One) }
    ensures text { ShowsValues 1 16 cells.now (take result text.new) }
{
    let all: u8x64 = u8x32::from_array(*cells).shuffle(
        u8x32::splat(b' '),
        [
            32, 0, 1, 32, 2, 3, 32, 4, 5, 32, 6, 7, 32, 8, 9, 32, 10, 11, 32, 12, 13, 32, 14, 15,
            32, 16, 17, 32, 18, 19, 32, 20, 21, 32, 22, 23, 32, 24, 25, 32, 26, 27, 32, 28, 29, 32,
            30, 31, 32, 32, 32, 32, 32, 32, 32, 32, 32, 32, 32, 32, 32, 32, 32, 32,
        ],
    );
    let (front, _) = text.split_at_mut(64);
    all.copy_to_slice(front);
    48
}

/// Puts a space and the digits of each two bytes, the last of them first, by the digits of 16 bytes.
#[inline(always)]
fn put_values_of_two(text: &mut [u8], cells: &[u8; 32]) -> usize
    requires { 80 ≤ length text.old }
    ensures most { result ≤ 80 }
    ensures value { result ≡ line_width (Kind.Number NumForm.Hexadecimal Size.Two) }
    ensures text { ShowsValues 2 8 cells.now (take result text.new) }
{
    let all: u8x64 = u8x32::from_array(*cells).shuffle(
        u8x32::splat(b' '),
        [
            32, 2, 3, 0, 1, 32, 6, 7, 4, 5, 32, 10, 11, 8, 9, 32, 14, 15, 12, 13, 32, 18, 19, 16,
            17, 32, 22, 23, 20, 21, 32, 26, 27, 24, 25, 32, 30, 31, 28, 29, 32, 32, 32, 32, 32, 32,
            32, 32, 32, 32, 32, 32, 32, 32, 32, 32, 32, 32, 32, 32, 32, 32, 32, 32,
        ],
    );
    let (front, _) = text.split_at_mut(64);
    all.copy_to_slice(front);
    40
}

/// Puts a space and the digits of each four bytes, the last of them first, by the digits of 16 bytes.
#[inline(always)]
fn put_values_of_four(text: &mut [u8], cells: &[u8; 32]) -> usize
    requires { 80 ≤ length text.old }
    ensures most { result ≤ 80 }
    ensures value { result ≡ line_width (Kind.Number NumForm.Hexadecimal Size.Four) }
    ensures text { ShowsValues 4 4 cells.now (take result text.new) }
{
    let all: u8x64 = u8x32::from_array(*cells).shuffle(
        u8x32::splat(b' '),
        [
            32, 6, 7, 4, 5, 2, 3, 0, 1, 32, 14, 15, 12, 13, 10, 11, 8, 9, 32, 22, 23, 20, 21, 18,
            19, 16, 17, 32, 30, 31, 28, 29, 26, 27, 24, 25, 32, 32, 32, 32, 32, 32, 32, 32, 32, 32,
            32, 32, 32, 32, 32, 32, 32, 32, 32, 32, 32, 32, 32, 32, 32, 32, 32, 32,
        ],
    );
    let (front, _) = text.split_at_mut(64);
    all.copy_to_slice(front);
    36
}

/// Puts a space and the digits of each eight bytes, the last of them first, by the digits of 16 bytes.
#[inline(always)]
fn put_values_of_eight(text: &mut [u8], cells: &[u8; 32]) -> usize
    requires { 80 ≤ length text.old }
    ensures most { result ≤ 80 }
    ensures value { result ≡ line_width (Kind.Number NumForm.Hexadecimal Size.Eight) }
    ensures text { ShowsValues 8 2 cells.now (take result text.new) }
{
    let all: u8x64 = u8x32::from_array(*cells).shuffle(
        u8x32::splat(b' '),
        [
            32, 14, 15, 12, 13, 10, 11, 8, 9, 6, 7, 4, 5, 2, 3, 0, 1, 32, 30, 31, 28, 29, 26, 27,
            24, 25, 22, 23, 20, 21, 18, 19, 16, 17, 32, 32, 32, 32, 32, 32, 32, 32, 32, 32, 32, 32,
            32, 32, 32, 32, 32, 32, 32, 32, 32, 32, 32, 32, 32, 32, 32, 32, 32, 32,
        ],
    );
    let (front, _) = text.split_at_mut(64);
    all.copy_to_slice(front);
    34
}

/// Puts a space and the digits of each value of a full line, and answers how long the text is.
pub fn put_hexadecimal_line(text: &mut [u8], size: Size, bytes: &[u8; 16]) -> usize
    requires room { 80 ≤ length text.old }
    ensures most { result ≤ 80 }
    ensures value { result ≡ line_width (Kind.Number NumForm.Hexadecimal size) }
    ensures text { take result text.new ≡ values_text (Kind.Number NumForm.Hexadecimal size) bytes.now }
{
    let mut cells = [0; 32];
    put_sixteen(&mut cells, bytes, false);
    match size {
        Size::One => put_values_of_one(text, &cells),
        Size::Two => put_values_of_two(text, &cells),
        Size::Four => put_values_of_four(text, &cells),
        Size::Eight => put_values_of_eight(text, &cells),
    }
}
