//! Lines of xxd's default form that hold 16 bytes.
ghost use Rattle.std.specs.Prelude.{◌≡◌, ◌≤◌, ◌≢◌, length, All, IsFalse, Some, IfSome};
ghost use Rattle.bx_read.specs.private.Full.{IsFull};
ghost use Rattle.bx_read.specs.Line.{line_piece};

pub(crate) mod lanes;
pub(crate) mod rows;

use crate::full::lanes::{columns_of, parse_address};

/// A line with its newline, by what it gives.
#[derive(Clone, Copy)]
pub struct FullLine {
    pub at: u64,
    pub bytes: [u8; 16],
}

/// How long such a line is with its newline.
pub const ENDED: usize = 68;

/// The line that the text begins with, if it is one of 8 digits of address and 16 bytes.
#[inline(always)]
pub fn full_line(text: &[u8]) -> Option<FullLine>
    requires { 68 ≤ length text.now }
    ensures { IfSome result (λ l. IsFull text.now l.at l.bytes) }
{
    let (address, rest) = text.split_at(8);
    let (colon, rest) = rest.split_at(2);
    let (columns, rest) = rest.split_at(39);
    let (gap, rest) = rest.split_at(2);
    let (shown, rest) = rest.split_at(16);
    if colon[0] != b':'
        || colon[1] != b' '
        || gap[0] != b' '
        || gap[1] != b' '
        || rest[0] != b'\n'
    {
        return None;
    }
    let at = parse_address(address)?;
    let bytes = columns_of(columns)?;
    if has_newline(shown) {
        return None;
    }
    Some(FullLine { at, bytes })
}

/// The same of the 67 bytes of a line without its newline. Nothing is said of one that is not of this form.
#[inline]
pub fn full_text(line: &[u8]) -> Option<FullLine>
    requires { length line.now ≡ 67 }
    ensures { IfSome result (λ l. line_piece line.now ≡ Some (l.at, l.bytes)) }
{
    let (address, rest) = line.split_at(8);
    let (colon, rest) = rest.split_at(2);
    let (columns, rest) = rest.split_at(39);
    let (gap, _) = rest.split_at(2);
    if colon[0] != b':' || colon[1] != b' ' || gap[0] != b' ' || gap[1] != b' ' {
        return None;
    }
    let at = parse_address(address)?;
    let bytes = columns_of(columns)?;
    Some(FullLine { at, bytes })
}

/// Whether a newline is among the bytes.
#[inline]
fn has_newline(bytes: &[u8]) -> bool
    ensures { IsFalse result → All (λ c. c ≢ 10) bytes.now }
{
    let mut found = false;
    for byte in bytes {
        found |= *byte == b'\n';
    }
    found
}
