//! The default line for 16 bytes, at its fixed places.
ghost use Rattle.std.specs.Prelude.{◌≡◌, ◌≤◌, false, map, length};
ghost use Rattle.bx_text.specs.Field.{hex_text};
ghost use Rattle.bx_text.specs.Dump.{shown_byte, dump_line};
ghost use Rattle.bx_text.specs.private.Dump.{hex_columns};

use crate::line::lanes::{put_columns, put_shown};
use crate::line::tables::digits_of;
use crate::line::{blank, text_byte};
use std::simd::prelude::*;

/// Puts xxd's default line for 16 bytes at an address of at most 8 digits into 68 bytes.
#[inline]
pub fn put_full_line(line: &mut [u8], at: u32, bytes: &[u8; 16])
    requires { length line.old ≡ 68 }
    ensures { line.new ≡ dump_line false 16 2 at bytes.now }
{
    let (address, rest) = line.split_at_mut(8);
    let (colon, rest) = rest.split_at_mut(2);
    let (columns, rest) = rest.split_at_mut(40);
    let (space, rest) = rest.split_at_mut(1);
    let (text, end) = rest.split_at_mut(16);
    put_address(address, at);
    colon.copy_from_slice(b": ");
    put_pairs(columns, bytes);
    space.copy_from_slice(b" ");
    put_text(text, bytes);
    end.copy_from_slice(b"\n");
}

/// Puts the bytes in hexadecimal, in pairs.
#[inline]
pub fn put_pairs(field: &mut [u8], bytes: &[u8])
    requires fits { length bytes.now ≤ 16 }
    requires room { length field.old ≡ 40 }
    ensures { field.new ≡ hex_columns false 2 bytes.now (length field.old) }
{
    match bytes.as_array::<16>() {
        Some(all) => put_columns(field, u8x16::from_array(*all)),
        None => put_few_pairs(field, bytes),
    }
}

/// The same, byte by byte.
fn put_few_pairs(field: &mut [u8], bytes: &[u8])
    requires fits { length bytes.now ≤ 16 }
    requires room { length field.old ≡ 40 }
    ensures { field.new ≡ hex_columns false 2 bytes.now (length field.old) }
{
    blank(field);
    for (i, byte) in bytes.iter().enumerate() {
        let at = 2 * i + i / 2;
        let pair = digits_of(*byte);
        field[at] = pair[0];
        field[at + 1] = pair[1];
    }
}

/// Puts an address as 8 digits.
#[inline]
pub fn put_address(field: &mut [u8], at: u32)
    requires { length field.old ≡ 8 }
    ensures { field.new ≡ hex_text false 8 at }
{
    let above = at / 256;
    let higher = above / 256;
    let highest = higher / 256;
    let (first, rest) = field.split_at_mut(2);
    let (second, rest) = rest.split_at_mut(2);
    let (third, fourth) = rest.split_at_mut(2);
    first.copy_from_slice(&digits_of((highest % 256) as u8));
    second.copy_from_slice(&digits_of((higher % 256) as u8));
    third.copy_from_slice(&digits_of((above % 256) as u8));
    fourth.copy_from_slice(&digits_of((at % 256) as u8));
}

/// Puts the bytes as text.
#[inline]
pub fn put_text(field: &mut [u8], bytes: &[u8])
    requires { length field.old ≡ length bytes.now }
    ensures { field.new ≡ map shown_byte bytes.now }
{
    match bytes.as_array::<16>() {
        Some(all) => put_shown(field, u8x16::from_array(*all)),
        None => put_few_shown(field, bytes),
    }
}

/// The same, byte by byte.
fn put_few_shown(field: &mut [u8], bytes: &[u8])
    requires { length field.old ≡ length bytes.now }
    ensures { field.new ≡ map shown_byte bytes.now }
{
    for (i, byte) in bytes.iter().enumerate() {
        field[i] = text_byte(*byte);
    }
}
