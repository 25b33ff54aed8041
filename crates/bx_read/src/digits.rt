//! Hexadecimal digits, in either case, and the white space around them.
ghost use Rattle.std.specs.Prelude.{◌≡◌, ◌≤◌, ◌<◌, ◌*◌, ◌&&◌, if◌then◌else◌, length, take, All, IsTrue, Some};
ghost use Rattle.std.specs.Char.{digit_value};
ghost use Rattle.std.specs.Str.Parse.{digits_value};
ghost use Rattle.std.specs.List.{prefix_len};
ghost use Rattle.bx_read.specs.Digits.{is_hex, pair_value};
ghost use Rattle.bx_read.specs.Plain.{is_space, hex_bytes};

pub(crate) mod lanes;

use crate::digits::lanes::{LANES, put_front};

/// The value of each hexadecimal digit, and 255 for other bytes.
#[rattlefmt::skip]
static VALUES: [u8; 256] = [
    255, 255, 255, 255, 255, 255, 255, 255, 255, 255, 255, 255, 255, 255, 255, 255,
    255, 255, 255, 255, 255, 255, 255, 255, 255, 255, 255, 255, 255, 255, 255, 255,
    255, 255, 255, 255, 255, 255, 255, 255, 255, 255, 255, 255, 255, 255, 255, 255,
    0, 1, 2, 3, 4, 5, 6, 7, 8, 9, 255, 255, 255, 255, 255, 255,
    255, 10, 11, 12, 13, 14, 15, 255, 255, 255, 255, 255, 255, 255, 255, 255,
    255, 255, 255, 255, 255, 255, 255, 255, 255, 255, 255, 255, 255, 255, 255, 255,
    255, 10, 11, 12, 13, 14, 15, 255, 255, 255, 255, 255, 255, 255, 255, 255,
    255, 255, 255, 255, 255, 255, 255, 255, 255, 255, 255, 255, 255, 255, 255, 255,
    255, 255, 255, 255, 255, 255, 255, 255, 255, 255, 255, 255, 255, 255, 255, 255,
    255, 255, 255, 255, 255, 255, 255, 255, 255, 255, 255, 255, 255, 255, 255, 255,
    255, 255, 255, 255, 255, 255, 255, 255, 255, 255, 255, 255, 255, 255, 255, 255,
    255, 255, 255, 255, 255, 255, 255, 255, 255, 255, 255, 255, 255, 255, 255, 255,
    255, 255, 255, 255, 255, 255, 255, 255, 255, 255, 255, 255, 255, 255, 255, 255,
    255, 255, 255, 255, 255, 255, 255, 255, 255, 255, 255, 255, 255, 255, 255, 255,
    255, 255, 255, 255, 255, 255, 255, 255, 255, 255, 255, 255, 255, 255, 255, 255,
    255, 255, 255, 255, 255, 255, 255, 255, 255, 255, 255, 255, 255, 255, 255, 255,
];

/// The value of a digit, and 255 for another byte.
#[inline]
pub fn value_of(byte: u8) -> u8
    ensures { result ≡ (if is_hex byte then digit_value byte else 255) }
{
    VALUES[byte as usize]
}

/// Whether the byte is a digit.
#[inline]
pub fn is_digit(byte: u8) -> bool
    ensures { result ≡ is_hex byte }
{
    value_of(byte) < 16
}

/// Whether both are digits.
#[inline]
pub fn is_pair(high: u8, low: u8) -> bool
    ensures { result ≡ (is_hex high && is_hex low) }
{
    is_digit(high) && is_digit(low)
}

/// The byte that two digits write.
#[inline]
pub fn pair(high: u8, low: u8) -> u8
    requires { IsTrue (is_hex high && is_hex low) }
    ensures { result ≡ pair_value high low }
{
    value_of(high) * 16 + value_of(low)
}

/// Puts the bytes of the pairs of digits that the text begins with, no more than there is room for, and answers how many they are.
pub fn put_pairs(text: &[u8], out: &mut [u8]) -> usize
    ensures within { 2 * result ≤ length text.now }
    ensures room { result ≤ length out.old }
    ensures bytes { hex_bytes (take (2 * result) text.now) ≡ Some (take result out.new) }
{
    let most = out.len().min(text.len() / 2);
    let mut count = 0;
    while most - count >= LANES {
        let more = put_front(&text[2 * count..], &mut out[count..]);
        if more < LANES {
            return count + more;
        }
        count += LANES;
    }
    count + put_each(&text[2 * count..], &mut out[count..])
}

/// The same, a pair at a time.
fn put_each(text: &[u8], out: &mut [u8]) -> usize
    ensures within { 2 * result ≤ length text.now }
    ensures room { result ≤ length out.old }
    ensures bytes { hex_bytes (take (2 * result) text.now) ≡ Some (take result out.new) }
{
    let most = out.len().min(text.len() / 2);
    for i in 0..most {
        let high = text[2 * i];
        let low = text[2 * i + 1];
        if !is_pair(high, low) {
            return i;
        }
        out[i] = pair(high, low);
    }
    most
}

/// Whether the byte is white space.
#[inline]
pub fn is_space(byte: u8) -> bool
    ensures { result ≡ is_space byte }
{
    byte == b' ' || (9..=13).contains(&byte)
}

/// How many digits stand in front.
pub fn front_digits(text: &[u8]) -> usize
    ensures value { result ≡ prefix_len is_hex text.now }
    ensures within { result ≤ length text.now }
{
    text.iter().take_while(|byte| is_digit(**byte)).count()
}

/// The number that the digits write.
pub fn number_of(digits: &[u8]) -> u64
    requires digits { All (λ c. IsTrue (is_hex c)) digits.now }
    requires few { length digits.now ≤ 16 }
    ensures { result ≡ digits_value 16 digits.now }
{
    let mut value = 0u64;
    for byte in digits {
        value = value * 16 + u64::from(value_of(*byte));
    }
    value
}
