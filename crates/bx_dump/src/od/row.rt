//! One row of a line that has several.
ghost use Rattle.std.specs.Prelude.{◌≡◌, ◌+◌, ◌-◌, ◌*◌, ◌<◌, ◌≤◌, ◌++◌, length, map, max, replicate, take, codes};
ghost use Rattle.bx_text.specs.Dump.{shown_byte};
ghost use Rattle.bx_dump.specs.Od.{od_row};

use crate::od::below::Column;
use crate::od::columns::values_width;
use bx_dump_columns::hex_lanes::put_shown_bytes;
use bx_dump_columns::od::options::Endian;
use bx_dump_columns::od::spread::put_spread;

/// How much is wanted of `wide` behind `used`.
#[inline(always)]
fn missing(wide: usize, used: usize) -> usize
    ensures { result ≡ wide - used }
{
    if used < wide {
        return wide - used;
    }
    0
}

/// Fills a text up to a width, and answers how long it is then.
fn fill_up(page: &mut [u8], used: usize, wide: usize) -> usize
    requires used { used ≤ length page.old }
    requires wide { wide ≤ length page.old }
    ensures value { result ≡ max used wide }
    ensures text { take result page.new ≡ take used page.old ++ replicate (wide - used) 32 }
{
    if used < wide {
        page[used..wide].fill(b' ');
        return wide;
    }
    used
}

/// Puts bytes as text between their marks.
fn put_marked(text: &mut [u8], bytes: &[u8])
    requires { length bytes.now + 5 ≤ length text.old }
    ensures { take (length bytes.now + 5) text.new ≡ codes "  >" ++ map shown_byte bytes.now ++ codes "<\n" }
{
    let (front, rest) = text.split_at_mut(3);
    let (shown, rest) = rest.split_at_mut(bytes.len());
    let (end, _) = rest.split_at_mut(2);
    front.copy_from_slice(b"  >");
    put_shown_bytes(shown, bytes);
    end.copy_from_slice(b"<\n");
}

/// Puts bytes as text behind their values and what is wanted of the width, and answers how long all is.
fn put_text_behind(page: &mut [u8], used: usize, wide: usize, bytes: &[u8]) -> usize
    requires used { used + (length bytes.now + 5) ≤ length page.old }
    requires wide { wide + (length bytes.now + 5) ≤ length page.old }
    ensures value { result ≡ max used wide + (length bytes.now + 5) }
    ensures text { take result page.new ≡ (take used page.old ++ replicate (wide - used) 32) ++ codes "  >" ++ map shown_byte bytes.now ++ codes "<\n" }
{
    let end = fill_up(page, used, wide);
    put_marked(&mut page[end..], bytes);
    end + (bytes.len() + 5)
}

/// Puts a row of a line of at most `cols` bytes, and answers how long it is.
pub fn put_row(
    page: &mut [u8],
    endian: Endian,
    cols: usize,
    wide: usize,
    column: Column,
    bytes: &[u8],
) -> usize
    requires room { 11 * cols + 25 ≤ length page.old }
    requires some { 0 < cols }
    requires narrow { cols ≤ 256 }
    requires wide { wide ≤ 5 * cols }
    requires fits { length bytes.now ≤ cols }
    ensures most { result ≤ 11 * cols + 25 }
    ensures text { take result page.new ≡ od_row endian cols wide column bytes.now }
{
    let pad = missing(wide, values_width(cols, column.kind));
    let used = put_spread(page, column.kind, endian, pad, cols, bytes);
    if column.text {
        return put_text_behind(page, used, wide, bytes);
    }
    page[used] = b'\n';
    used + 1
}
