//! Numbers in fields of a fixed width.
ghost use Rattle.std.specs.Prelude.{◌≡◌, false, if◌then◌else◌, ℕ, ◌+◌, ◌-◌, ◌*◌, ◌^◌, ◌<◌, ◌≤◌, [], ◌∷◌, ◌++◌, length, take};
ghost use Rattle.std.specs.Fmt.{digits};
ghost use Rattle.bx_text.specs.Field.{left_filled};
ghost use Rattle.bx_dump_columns.specs.Values.{size_of, number_text, number_width};

use crate::od::byte_tables::{octal_of, signed_of, unsigned_of};
use crate::od::decimal::{
    put_signed_eight, put_signed_four, put_signed_seven, put_signed_two, put_unsigned_eight,
    put_unsigned_four, put_unsigned_seven, put_unsigned_two,
};
use crate::od::octal::{put_eleven, put_six, put_three, put_twenty_two};
use crate::od::options::{NumForm, Size};
use bx_text::hex_digit;

/// Puts `v` in digits at the end of the field, and answers where they begin.
#[inline(always)]
fn put_digits(field: &mut [u8], v: u64, base: u64) -> usize
    requires least { 2 ≤ base }
    requires most { base ≤ 16 }
    requires some { 0 < length field.old }
    requires few { length field.old ≤ 22 }
    requires room { v < base ^ length field.old }
    ensures first { result + length (digits base false v) ≡ length field.old }
    ensures digits { field.new ≡ take result field.old ++ digits base false v }
{
    let mut at = field.len();
    let mut rest = v;
    loop {
        at -= 1;
        field[at] = hex_digit((rest % base) as u8, false);
        rest /= base;
        if rest == 0 {
            return at;
        }
    }
}

/// Puts `v` in decimal digits at the end of the field and spaces in front of them, and answers where they begin.
#[inline(always)]
fn put_spaced(field: &mut [u8], v: u64) -> usize
    requires some { 0 < length field.old }
    requires few { length field.old ≤ 22 }
    requires room { v < 10 ^ length field.old }
    ensures first { result + length (digits 10 false v) ≡ length field.old }
    ensures text { field.new ≡ left_filled 32 (length field.old) (digits 10 false v) }
{
    field.fill(b' ');
    put_digits(field, v, 10)
}

/// Puts `v` in as many digits as the field has, zeros in front.
#[inline(always)]
pub fn put_fixed(field: &mut [u8], v: u64, base: u64)
    requires least { 2 ≤ base }
    requires most { base ≤ 16 }
    requires some { 0 < length field.old }
    requires few { length field.old ≤ 22 }
    requires room { v < base ^ length field.old }
    ensures { field.new ≡ left_filled 48 (length field.old) (digits base false v) }
{
    let last = field.len() - 1;
    let mut rest = v;
    for i in 0..field.len() {
        field[last - i] = hex_digit((rest % base) as u8, false);
        rest /= base;
    }
}

/// The least number that is negative in two's complement.
#[inline(always)]
fn half_of(size: Size) -> u64
    ensures { result ≡ 2 ^ (8 * size_of size - 1) }
{
    match size {
        Size::One => 1 << 7,
        Size::Two => 1 << 15,
        Size::Four => 1 << 31,
        Size::Eight => 1 << 63,
    }
}

/// Puts a minus and the digits of `v`, with spaces in front.
#[inline(always)]
fn put_minus(field: &mut [u8], v: u64)
    requires some { 1 < length field.old }
    requires few { length field.old ≤ 22 }
    requires room { v < 10 ^ (length field.old - 1) }
    ensures { field.new ≡ left_filled 32 (length field.old) (45 ∷ digits 10 false v) }
{
    let (space, rest) = field.split_at_mut(1);
    space.copy_from_slice(b" ");
    let first = put_spaced(rest, v);
    field[first] = b'-';
}

/// Puts the digits of `v`, a minus in front of them where it is negative, with spaces in front.
#[inline(never)]
#[cold]
fn put_small(field: &mut [u8], negative: bool, v: u64)
    requires some { 1 < length field.old }
    requires few { length field.old ≤ 22 }
    requires room { v < 10 ^ (length field.old - 1) }
    ensures { field.new ≡ left_filled 32 (length field.old) ((if negative then 45 ∷ [] else []) ++ digits 10 false v) }
{
    if negative {
        put_minus(field, v);
    } else {
        put_spaced(field, v);
    }
}

/// Puts the digits of `v`, a minus in front of them where it is negative, with spaces in front.
#[inline(always)]
fn put_amount(field: &mut [u8], size: Size, negative: bool, v: u64)
    requires width { length field.old ≡ number_width NumForm.Signed size }
    requires small { v ≤ 2 ^ (8 * size_of size - 1) }
    ensures { field.new ≡ left_filled 32 (length field.old) ((if negative then 45 ∷ [] else []) ++ digits 10 false v) }
{
    match size {
        Size::Two if v >= 1000 => put_signed_two(field, negative, v as u32),
        Size::Four if v >= 100000000 => put_signed_four(field, negative, v as u32),
        Size::Four if v >= 1000000 => put_signed_seven(field, negative, v as u32),
        Size::Eight if v >= 100000000000000000 => put_signed_eight(field, negative, v),
        _ => put_small(field, negative, v),
    }
}

/// Puts `v`, read in two's complement, with spaces in front.
#[inline(always)]
fn put_signed(field: &mut [u8], size: Size, v: u64)
    requires width { length field.old ≡ number_width NumForm.Signed size }
    requires small { v < 2 ^ (8 * size_of size) }
    ensures { field.new ≡ number_text NumForm.Signed size v }
{
    if size == Size::One {
        field.copy_from_slice(&signed_of(v as u8));
        return;
    }
    let half = half_of(size);
    let negative = v >= half;
    let amount = if negative { half - (v - half) } else { v };
    put_amount(field, size, negative, amount);
}

/// Puts the digits of `v`, with spaces in front.
#[inline(never)]
#[cold]
fn put_few(field: &mut [u8], v: u64)
    requires some { 0 < length field.old }
    requires few { length field.old ≤ 22 }
    requires room { v < 10 ^ length field.old }
    ensures { field.new ≡ left_filled 32 (length field.old) (digits 10 false v) }
{
    put_spaced(field, v);
}

/// Puts `v` in decimal digits, with spaces in front.
#[inline(always)]
fn put_unsigned(field: &mut [u8], size: Size, v: u64)
    requires width { length field.old ≡ number_width NumForm.Unsigned size }
    requires small { v < 2 ^ (8 * size_of size) }
    ensures { field.new ≡ number_text NumForm.Unsigned size v }
{
    match size {
        Size::Two if v >= 1000 => put_unsigned_two(field, v as u32),
        Size::Four if v >= 100000000 => put_unsigned_four(field, v as u32),
        Size::Four if v >= 1000000 => put_unsigned_seven(field, v as u32),
        Size::Eight if v >= 10000000000000000 => put_unsigned_eight(field, v),
        _ => put_few(field, v),
    }
}

/// Puts `v` in octal digits.
#[inline(always)]
fn put_octal(field: &mut [u8], size: Size, v: u64)
    requires width { length field.old ≡ number_width NumForm.Octal size }
    requires small { v < 2 ^ (8 * size_of size) }
    ensures { field.new ≡ number_text NumForm.Octal size v }
{
    match size {
        Size::One => put_three(field, v as u32),
        Size::Two => put_six(field, v as u32),
        Size::Four => put_eleven(field, v as u32),
        Size::Eight => put_twenty_two(field, v),
    }
}

/// Puts a number.
#[inline(always)]
fn put_number(field: &mut [u8], form: NumForm, size: Size, v: u64)
    requires width { length field.old ≡ number_width form size }
    requires small { v < 2 ^ (8 * size_of size) }
    ensures { field.new ≡ number_text form size v }
{
    match form {
        NumForm::Signed => put_signed(field, size, v),
        NumForm::Octal => put_octal(field, size, v),
        NumForm::Unsigned => put_unsigned(field, size, v),
        NumForm::Hexadecimal => put_fixed(field, v, 16),
    }
}

/// Puts a space and a number.
#[inline(always)]
pub fn put_cell(text: &mut [u8], form: NumForm, size: Size, v: u64)
    requires width { length text.old ≡ number_width form size + 1 }
    requires small { v < 2 ^ (8 * size_of size) }
    ensures { text.new ≡ 32 ∷ number_text form size v }
{
    match form {
        NumForm::Octal if size == Size::One => text.copy_from_slice(&octal_of(v as u8)),
        NumForm::Unsigned if size == Size::One => text.copy_from_slice(&unsigned_of(v as u8)),
        _ => put_spaced_number(text, form, size, v),
    }
}

/// Puts a space, and a number by its digits.
#[inline(always)]
fn put_spaced_number(text: &mut [u8], form: NumForm, size: Size, v: u64)
    requires width { length text.old ≡ number_width form size + 1 }
    requires small { v < 2 ^ (8 * size_of size) }
    ensures { text.new ≡ 32 ∷ number_text form size v }
{
    let (space, field) = text.split_at_mut(1);
    space.copy_from_slice(b" ");
    put_number(field, form, size, v);
}
