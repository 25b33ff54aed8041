//! Short texts in fixed arrays, and numbers as text.
ghost use Rattle.std.specs.Prelude.{◌≡◌, ◌⊎◌, false, ℕ, ◌+◌, ◌-◌, ◌^◌, ◌<◌, ◌≤◌, pos, negsuc, ◌≤ℤ◌, List, [], ◌∷◌, ◌++◌, length, take};
ghost use Rattle.std.specs.Fmt.{digit_glyph, digits, signed_decimal};
ghost use Rattle.bx_text.specs.Field.{hex_text, left_filled};
ghost use Rattle.bx_text.specs.private.Radix.{base_of, is_upper};

use std::marker::Model;

/// A number in digits.
pub type Field = ShortText<22>;

/// A text of at most `N` bytes, seen as the list of its bytes.
#[derive(Drop)]
pub struct ShortText<const N: usize> {
    bytes: [u8; N],
    len: usize,
}

impl<const N: usize> Model for ShortText<N> {
    ghost Value = { List ℕ };

    ghost view = { λ t. take t.len t.bytes };

    ghost invariant = { λ t. t.len ≤ N };
}

impl<const N: usize> ShortText<N> {
    /// A text of no bytes.
    pub fn new() -> Self
        ensures { result ≡ [] }
    {
        ShortText {
            bytes: [0; N],
            len: 0,
        }
    }

    /// The bytes so far, at most `N`.
    pub fn as_bytes(&self) -> &[u8]
        ensures value { result.now ≡ self.now }
        ensures fits { length result.now ≤ N }
    {
        &self.bytes[..self.len]
    }

    /// Puts a byte last. There have to be fewer than `N`.
    pub fn push(&mut self, byte: u8)
        requires { length self.old < N }
        ensures { self.new ≡ self.old ++ byte ∷ [] }
    {
        self.bytes[self.len] = byte;
        self.len += 1;
    }

    /// Puts the bytes last. With them there are at most `N`.
    pub fn push_all(&mut self, more: &[u8])
        requires { length self.old + length more.now ≤ N }
        ensures { self.new ≡ self.old ++ more.now }
    {
        let end = self.len + more.len();
        let room = &mut self.bytes[..];
        room[self.len..end].copy_from_slice(more);
        self.len = end;
    }
}

/// The digit for a value below 16.
#[inline]
pub fn hex_digit(value: u8, upper: bool) -> u8
    requires { value < 16 }
    ensures { result ≡ digit_glyph upper value }
{
    if value < 10 {
        b'0' + value
    } else if upper {
        b'A' - 10 + value
    } else {
        b'a' - 10 + value
    }
}

/// `v` in hexadecimal, with zeros in front up to `width` digits.
pub fn hex_field(v: u64, width: u8, upper: bool) -> Field
    requires { width ≤ 22 }
    ensures { result ≡ hex_text upper width v }
{
    number_field(v, Radix::Hexadecimal { upper }, width, b'0')
}

/// `v` in octal, with zeros in front up to `width` digits.
pub fn oct_field(v: u64, width: u8) -> Field
    requires { width ≤ 22 }
    ensures { result ≡ left_filled 48 width (digits 8 false v) }
{
    number_field(v, Radix::Octal, width, b'0')
}

/// `v` in decimal, a minus in front where it is negative, with `fill` in front up to `width` characters: a space, or a
/// `0` where `v` isn't negative.
pub fn dec_field(v: i128, width: u8, fill: u8) -> Field
    requires low { negsuc (2 ^ 63 - 1) ≤ℤ v }
    requires high { v ≤ℤ pos (2 ^ 64 - 1) }
    requires width { width ≤ 22 }
    requires fill { (fill ≡ 32) ⊎ ((fill ≡ 48) × (pos 0 ≤ℤ v)) }
    ensures { result ≡ left_filled fill width (signed_decimal v) }
{
    if v < 0 {
        negative_field(v.unsigned_abs() as u64, width, fill)
    } else {
        number_field(v as u64, Radix::Decimal, width, fill)
    }
}

/// How the digits of a number are written.
#[derive(Clone, Copy)]
pub enum Radix {
    /// Base 8.
    Octal,
    /// Base 10.
    Decimal,
    /// Base 16, with `A` to `F` or `a` to `f` for the values above 9.
    Hexadecimal { upper: bool },
}

impl Radix {
    fn base(self) -> u64
        ensures value { result ≡ base_of self }
        ensures least { 8 ≤ result }
        ensures most { result ≤ 16 }
    {
        match self {
            Radix::Octal => 8,
            Radix::Decimal => 10,
            Radix::Hexadecimal { .. } => 16,
        }
    }

    fn is_upper(self) -> bool
        ensures { result ≡ is_upper self }
    {
        matches!(self, Radix::Hexadecimal { upper: true })
    }
}

/// The digits of `v`, with `fill` in front up to `width`.
fn number_field(v: u64, radix: Radix, width: u8, fill: u8) -> Field
    requires { width ≤ 22 }
    ensures { result ≡ left_filled fill width (digits (base_of radix) (is_upper radix) v) }
{
    let mut bytes = [fill; 22];
    let first = put_digits(&mut bytes, v, radix);
    let start = first.min(22 - width as usize);
    let mut field = ShortText::new();
    field.push_all(&bytes[start..]);
    field
}

/// A minus and the digits of `v`, with `fill` in front up to `width`.
fn negative_field(v: u64, width: u8, fill: u8) -> Field
    requires small { v ≤ 2 ^ 63 }
    requires width { width ≤ 22 }
    ensures { result ≡ left_filled fill width (45 ∷ digits 10 false v) }
{
    let mut bytes = [fill; 22];
    let first = put_digits(&mut bytes, v, Radix::Decimal) - 1;
    bytes[first] = b'-';
    let start = first.min(22 - width as usize);
    let mut field = ShortText::new();
    field.push_all(&bytes[start..]);
    field
}

/// Puts the digits of `v` at the end of `bytes`, and answers where they begin.
fn put_digits(bytes: &mut [u8], v: u64, radix: Radix) -> usize
    requires { length bytes.old ≡ 22 }
    ensures first { result + length (digits (base_of radix) (is_upper radix) v) ≡ length bytes.old }
    ensures digits { bytes.new ≡ take result bytes.old ++ digits (base_of radix) (is_upper radix) v }
{
    let base = radix.base();
    let upper = radix.is_upper();
    let mut at = bytes.len();
    let mut rest = v;
    loop {
        at -= 1;
        bytes[at] = hex_digit((rest % base) as u8, upper);
        rest /= base;
        if rest == 0 {
            return at;
        }
    }
}
