//! Numbers as dd reads them.
ghost use Rattle.std.specs.Prelude.{◌≡◌, ◌≤◌, length};
ghost use Rattle.std.specs.Char.{digit_value};
ghost use Rattle.std.specs.Str.Parse.{digits_value};
ghost use Rattle.bx_text.specs.Number.{digit_count};
ghost use Rattle.bx_text.specs.private.Capped.{capped, capped_value};
ghost use Rattle.bx_text.specs.private.Number.{factors_of};
ghost use Rattle.bx_dd.specs.Number.{factor_of, has_bytes, letter_unit, power_unit, product_number, product_value, suffix_unit};

use bx_text::SizeFault;

/// The greatest number.
const MOST: u64 = (1 << 40) - 1;

/// Decimal factors with the letter `x` between two, each perhaps followed by a suffix of GNU dd: `c` (1), `w` (2), `b` (512), `k` or
/// `K` (1,024), `M`, `G` and `T` (its powers), these with `iB` behind them too, and with `B` for powers of 1,000. At most 2^40 - 1.
pub fn read_number(text: &[u8]) -> Result<u64, SizeFault>
    ensures { result ≡ product_number text.now }
{
    match product(text) {
        None => Err(SizeFault::Bad),
        Some(n) if n > MOST => Err(SizeFault::TooLarge),
        Some(n) => Ok(n),
    }
}

/// Whether a number has a `B`: where blocks are counted, newer versions of GNU dd count bytes by it, and older ones don't.
pub fn has_bytes(text: &[u8]) -> bool
    ensures { result ≡ has_bytes text.now }
{
    text.iter().any(|byte| *byte == b'B')
}

/// The product of factors, or `u64::MAX` where it is larger.
fn product(text: &[u8]) -> Option<u64>
    ensures { result ≡ capped_value (product_value (factors_of text.now)) }
{
    let mut value = 1u64;
    let mut start = 0;
    for (i, byte) in text.iter().enumerate() {
        if *byte == b'x' {
            value = value.saturating_mul(factor(&text[start..i])?);
            start = i + 1;
        }
    }
    Some(value.saturating_mul(factor(&text[start..])?))
}

/// At least one digit, and perhaps a suffix.
fn factor(text: &[u8]) -> Option<u64>
    ensures { result ≡ capped_value (factor_of text.now) }
{
    let count = count_digits(text);
    if count == 0 {
        return None;
    }
    let unit = unit(&text[count..])?;
    Some(number_of(&text[..count]).saturating_mul(unit))
}

/// What a suffix multiplies by.
fn unit(text: &[u8]) -> Option<u64>
    ensures { result ≡ suffix_unit text.now }
{
    match text {
        [] => Some(1),
        [letter] => letter_unit(*letter),
        [letter, b'B'] => decimal_unit(*letter),
        [letter, b'i', b'B'] => binary_unit(*letter),
        _ => None,
    }
}

/// What one letter multiplies by.
fn letter_unit(letter: u8) -> Option<u64>
    ensures { result ≡ letter_unit letter }
{
    match letter {
        b'c' => Some(1),
        b'w' => Some(2),
        b'b' => Some(512),
        _ => binary_unit(letter),
    }
}

/// The power of 1024 that a letter stands for.
fn binary_unit(letter: u8) -> Option<u64>
    ensures { result ≡ power_unit 1024 letter }
{
    match letter {
        b'k' | b'K' => Some(1 << 10),
        b'M' => Some(1 << 20),
        b'G' => Some(1 << 30),
        b'T' => Some(1 << 40),
        _ => None,
    }
}

/// The power of 1000 that a letter stands for.
fn decimal_unit(letter: u8) -> Option<u64>
    ensures { result ≡ power_unit 1000 letter }
{
    match letter {
        b'k' | b'K' => Some(1_000),
        b'M' => Some(1_000_000),
        b'G' => Some(1_000_000_000),
        b'T' => Some(1_000_000_000_000),
        _ => None,
    }
}

/// How many digits stand in front.
fn count_digits(text: &[u8]) -> usize
    ensures value { result ≡ digit_count 10 text.now }
    ensures within { result ≤ length text.now }
{
    text.iter()
        .take_while(|byte| u64::from(value_of(**byte)) < 10)
        .count()
}

/// The number that digits write, or `u64::MAX` where it is larger.
fn number_of(digits: &[u8]) -> u64
    ensures { result ≡ capped (digits_value 10 digits.now) }
{
    let mut value = 0u64;
    for byte in digits {
        value = value
            .saturating_mul(10)
            .saturating_add(u64::from(value_of(*byte)));
    }
    value
}

/// The value of a digit or a letter in either case, and 36 for another byte.
fn value_of(byte: u8) -> u8
    ensures { result ≡ digit_value byte }
{
    match byte {
        b'0'..=b'9' => byte - b'0',
        b'A'..=b'Z' => byte - b'A' + 10,
        b'a'..=b'z' => byte - b'a' + 10,
        _ => 36,
    }
}
