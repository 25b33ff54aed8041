//! The values of a line that are spread over the width of another.
ghost use Rattle.std.specs.Prelude.{◌≡◌, ℕ, ◌+◌, ◌-◌, ◌*◌, ◌/◌, ◌<◌, ◌≤◌, ◌++◌, length, take, drop, replicate, min};
ghost use Rattle.bx_dump_columns.specs.Lines.{in_lines};
ghost use Rattle.bx_dump_columns.specs.Values.{blanks_from, field_width, spread_text, value_text_in, width_of};

use crate::od::options::{Endian, Kind};
use crate::od::values::{put_next, put_values};

/// Of `pad` blanks that are spread over a line, those in front of the values from byte `at` on.
#[inline(always)]
fn blanks_from(pad: usize, cols: usize, at: usize) -> usize
    requires some { 0 < cols }
    requires narrow { cols ≤ 256 }
    requires few { pad ≤ 1280 }
    ensures value { result ≡ blanks_from pad cols at }
    ensures most { result ≤ pad }
{
    if at < cols {
        return pad * (cols - at) / cols;
    }
    0
}

/// Puts the value that begins at place `begin` of the bytes behind blanks, and answers how long both are.
#[inline(always)]
fn put_behind(
    text: &mut [u8],
    kind: Kind,
    endian: Endian,
    blanks: usize,
    bytes: &[u8],
    begin: usize,
) -> usize
    requires room { blanks + (field_width kind + 1) ≤ length text.old }
    requires inside { begin < length bytes.now }
    requires few { length bytes.now ≤ 4096 }
    ensures value { result ≡ blanks + (field_width kind + 1) }
    ensures text { take result text.new ≡ replicate blanks 32 ++
        value_text_in endian kind (0 + begin) (take (min (begin + width_of kind) (length bytes.now) - begin) (drop begin bytes.now)) }
{
    let (front, value) = text.split_at_mut(blanks);
    front.fill(b' ');
    blanks + put_next(value, kind, endian, bytes, begin)
}

/// Puts the values of a line of at most `cols` bytes with `pad` blanks more between them, and answers how long their text is.
pub fn put_spread(
    text: &mut [u8],
    kind: Kind,
    endian: Endian,
    pad: usize,
    cols: usize,
    bytes: &[u8],
) -> usize
    requires room { pad + (field_width kind + 1) * ((length bytes.now + width_of kind - 1) / width_of kind) ≤ length text.old }
    requires some { 0 < cols }
    requires narrow { cols ≤ 256 }
    requires blanks { pad ≤ 1280 }
    requires few { length bytes.now ≤ 4096 }
    ensures most { result ≤ pad + (field_width kind + 1) * ((length bytes.now + width_of kind - 1) / width_of kind) }
    ensures text { take result text.new ≡ in_lines (spread_text endian kind pad cols) (width_of kind) 0 bytes.now }
{
    if pad == 0 {
        return put_values(text, kind, endian, bytes);
    }
    let width = kind.width();
    let count = (bytes.len() + width - 1) / width;
    let mut used = 0;
    let mut left = blanks_from(pad, cols, 0);
    for k in 0..count {
        let rest = blanks_from(pad, cols, width * k + width);
        let blanks = left - rest;
        used += put_behind(&mut text[used..], kind, endian, blanks, bytes, width * k);
        left = rest;
    }
    used
}
