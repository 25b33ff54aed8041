//! How numbers are read.
ghost use Rattle.std.specs.Prelude.{◌≡◌, ℕ, ◌+◌, ◌-◌, ◌*◌, ◌^◌, ◌<◌, ◌≤◌, length, Some, None};
ghost use Rattle.std.specs.Char.{digit_value};
ghost use Rattle.std.specs.Str.Parse.{digits_value};
ghost use Rattle.bx_text.specs.Number.{digit_count, hex_number, units_of, with_suffix, some_digits, prefixed, product_of, greatest, read_size};
ghost use Rattle.bx_text.specs.private.Number.{factors_of};
ghost use Rattle.bx_text.specs.private.Capped.{capped, capped_value};

use crate::number::size::{SizeFault, SizeStyle};

/// The number that 1 to 16 hexadecimal digits in either case write; none for another text.
pub fn read_hex(text: &[u8]) -> Option<u64>
    ensures { result ≡ hex_number text.now }
{
    if text.is_empty() || text.len() > 16 || count_digits(text, 16) != text.len() {
        return None;
    }
    Some(number_of(text, 16))
}

/// Reads a size in one of three styles. A text that isn't of the form is bad, however large it looks.
pub fn read_size(text: &[u8], style: SizeStyle) -> Result<u64, SizeFault>
    ensures { result ≡ read_size style text.now }
{
    let value = match style {
        SizeStyle::Product => product(text),
        _ => prefixed(text, style),
    };
    match value {
        None => Err(SizeFault::Bad),
        Some(n) if n > most(style) => Err(SizeFault::TooLarge),
        Some(n) => Ok(n),
    }
}

/// The greatest number of a style.
fn most(style: SizeStyle) -> u64
    ensures value { result ≡ greatest style }
    ensures fits { result < 2 ^ 64 - 1 }
{
    match style {
        SizeStyle::Count | SizeStyle::Bare => 1 << 62,
        SizeStyle::Product => (1 << 40) - 1,
    }
}

/// The product of factors, or `u64::MAX` where it is larger.
fn product(text: &[u8]) -> Option<u64>
    ensures { result ≡ capped_value (product_of (factors_of text.now)) }
{
    let mut value = 1u64;
    let mut start = 0;
    for (i, byte) in text.iter().enumerate() {
        if *byte == b'x' {
            value = value.saturating_mul(some_digits(&text[start..i], 10, SizeStyle::Product)?);
            start = i + 1;
        }
    }
    Some(value.saturating_mul(some_digits(&text[start..], 10, SizeStyle::Product)?))
}

/// A number whose base its first characters say, or `u64::MAX` where it is larger.
fn prefixed(text: &[u8], style: SizeStyle) -> Option<u64>
    ensures { result ≡ capped_value (prefixed style text.now) }
{
    if text.is_empty() {
        return None;
    }
    if text[0] != b'0' {
        return some_digits(text, 10, style);
    }
    let rest = &text[1..];
    if !rest.is_empty() && (rest[0] == b'x' || rest[0] == b'X') {
        return some_digits(&rest[1..], 16, style);
    }
    with_suffix(rest, 8, style)
}

/// At least one digit, and perhaps a suffix.
fn some_digits(text: &[u8], base: u64, style: SizeStyle) -> Option<u64>
    requires least { 2 ≤ base }
    requires most { base ≤ 16 }
    ensures { result ≡ capped_value (some_digits style base text.now) }
{
    if count_digits(text, base) == 0 {
        return None;
    }
    with_suffix(text, base, style)
}

/// Digits, and perhaps a suffix.
fn with_suffix(text: &[u8], base: u64, style: SizeStyle) -> Option<u64>
    requires least { 2 ≤ base }
    requires most { base ≤ 16 }
    ensures { result ≡ capped_value (with_suffix style base text.now) }
{
    let count = count_digits(text, base);
    let unit = units(&text[count..], style)?;
    Some(number_of(&text[..count], base).saturating_mul(unit))
}

/// What a suffix multiplies by.
fn units(text: &[u8], style: SizeStyle) -> Option<u64>
    ensures { result ≡ units_of style text.now }
{
    if text.is_empty() {
        return Some(1);
    }
    if text.len() > 1 {
        return None;
    }
    match (style, text[0]) {
        (SizeStyle::Count | SizeStyle::Product, b'b') => Some(512),
        (SizeStyle::Count | SizeStyle::Product, b'k') => Some(1024),
        (SizeStyle::Product, b'K') => Some(1024),
        (SizeStyle::Count, b'm') => Some(1024 * 1024),
        (SizeStyle::Product, b'M') => Some(1024 * 1024),
        (SizeStyle::Product, b'G') => Some(1024 * 1024 * 1024),
        _ => None,
    }
}

/// How many digits stand in front.
fn count_digits(text: &[u8], base: u64) -> usize
    requires { base ≤ 36 }
    ensures value { result ≡ digit_count base text.now }
    ensures within { result ≤ length text.now }
{
    text.iter()
        .take_while(|byte| u64::from(value_of(**byte)) < base)
        .count()
}

/// The number that digits write, or `u64::MAX` where it is larger.
fn number_of(digits: &[u8], base: u64) -> u64
    requires least { 2 ≤ base }
    requires most { base ≤ 16 }
    ensures { result ≡ capped (digits_value base digits.now) }
{
    let mut value = 0u64;
    for byte in digits {
        value = value
            .saturating_mul(base)
            .saturating_add(u64::from(value_of(*byte)));
    }
    value
}

/// The value of a digit or a letter in either case, and 36 for another byte.
fn value_of(byte: u8) -> u8
    ensures { result ≡ digit_value byte }
{
    match byte {
        b'0'..=b'9' => byte - b'0',
        b'A'..=b'Z' => byte - b'A' + 10,
        b'a'..=b'z' => byte - b'a' + 10,
        _ => 36,
    }
}
