//! The place of a run in front of its line.
ghost use Rattle.std.specs.Prelude.{◌≡◌, ◌+◌, ◌-◌, ◌^◌, ◌<◌, ◌≤◌, false, ◌++◌, length, take, drop, codes};
ghost use Rattle.std.specs.Fmt.{digits};
ghost use Rattle.bx_dump_columns.specs.Places.{place_text, cost_of};

use crate::od::decimal::put_eight;
use crate::od::options::Address;
use bx_text::{ShortText, dec_field, hex_field, oct_field, put_address};
use std::simd::prelude::*;

/// The text of a place, and a space.
fn place(offsets: Address, at: u64) -> ShortText<24>
    ensures { result ≡ place_text offsets at }
{
    let mut text = ShortText::new();
    match offsets {
        Address::Octal => text.push_all(oct_field(at, 0).as_bytes()),
        Address::Decimal => text.push_all(dec_field(i128::from(at), 0, b' ').as_bytes()),
        Address::Hexadecimal => text.push_all(hex_field(at, 0, false).as_bytes()),
        Address::Without => return text,
    }
    text.push(b' ');
    text
}

/// Copies the bytes to a place of the page.
pub fn put_at(page: &mut [u8], at: usize, bytes: &[u8])
    requires { at + length bytes.now ≤ length page.old }
    ensures { take (at + length bytes.now) page.new ≡ take at page.old ++ bytes.now }
{
    page[at..at + bytes.len()].copy_from_slice(bytes);
}

/// Puts a place of any length.
fn put_any(page: &mut [u8], offsets: Address, at: u64) -> usize
    requires { 24 ≤ length page.old }
    ensures text { take result page.new ≡ place_text offsets at }
    ensures most { result ≤ 24 }
    ensures cost { result + 2 ≤ cost_of offsets }
{
    let text = place(offsets, at);
    let front = text.as_bytes();
    put_at(page, 0, front);
    front.len()
}

/// How many decimal digits a number has.
#[inline(always)]
fn decimal_len(v: u32) -> usize
    requires { v < 10 ^ 8 }
    ensures { result ≡ length (digits 10 false v) }
{
    match v {
        10000000.. => 8,
        1000000.. => 7,
        100000.. => 6,
        10000.. => 5,
        1000.. => 4,
        100.. => 3,
        10.. => 2,
        _ => 1,
    }
}

/// How many hexadecimal digits a number has.
#[inline(always)]
fn hexadecimal_len(v: u32) -> usize
    ensures { result ≡ length (digits 16 false v) }
{
    match v {
        0x10000000.. => 8,
        0x1000000.. => 7,
        0x100000.. => 6,
        0x10000.. => 5,
        0x1000.. => 4,
        0x100.. => 3,
        0x10.. => 2,
        _ => 1,
    }
}

/// Puts the last digits of a field that has eight, and what stands behind them.
#[inline(always)]
fn put_last(page: &mut [u8], field: &[u8; 24], len: usize)
    requires room { 24 ≤ length page.old }
    requires few { len ≤ 8 }
    ensures { take (len + 1) page.new ≡ take (len + 1) (drop (8 - len) field.now) }
{
    u8x16::from_slice(&field[8 - len..]).copy_to_slice(&mut page[..16]);
}

/// Puts a number of at most eight decimal digits, and a space.
#[inline(always)]
fn put_decimal(page: &mut [u8], at: u32) -> usize
    requires room { 24 ≤ length page.old }
    requires small { at < 10 ^ 8 }
    ensures text { take result page.new ≡ digits 10 false at ++ codes " " }
    ensures most { result ≤ 24 }
{
    let mut field = [b' '; 24];
    let (front, _) = field.split_at_mut(8);
    put_eight(front, at);
    let len = decimal_len(at);
    put_last(page, &field, len);
    len + 1
}

/// Puts a number of at most eight hexadecimal digits, and a space.
#[inline(always)]
fn put_hexadecimal(page: &mut [u8], at: u32) -> usize
    requires { 24 ≤ length page.old }
    ensures text { take result page.new ≡ digits 16 false at ++ codes " " }
    ensures most { result ≤ 24 }
{
    let mut field = [b' '; 24];
    let (front, _) = field.split_at_mut(8);
    put_address(front, at);
    let len = hexadecimal_len(at);
    put_last(page, &field, len);
    len + 1
}

/// Puts the place of a run, where one is asked for, and a space.
#[inline(always)]
pub fn put_place(page: &mut [u8], offsets: Address, at: u64) -> usize
    requires { 24 ≤ length page.old }
    ensures text { take result page.new ≡ place_text offsets at }
    ensures most { result ≤ 24 }
    ensures cost { result + 2 ≤ cost_of offsets }
{
    match offsets {
        Address::Without => 0,
        Address::Decimal if at < 100000000 => put_decimal(page, at as u32),
        Address::Hexadecimal if at < 1 << 32 => put_hexadecimal(page, at as u32),
        _ => put_any(page, offsets, at),
    }
}
