//! hexdump -C.
ghost use Rattle.std.specs.Prelude.{◌≡◌, ℕ, ◌+◌, ◌-◌, ◌*◌, ◌/◌, ◌<◌, ◌≤◌, length, IfOk, IfErr};
ghost use Rattle.bx_dump.specs.Hexdump.{canon_line, hexdump_of};
ghost use Rattle.bx_dump.specs.Pages.{WritesAll, WritesFrontOf};
ghost use Rattle.bx_dump_columns.specs.Hexdump.{canon_columns};
ghost use Rattle.bx_dump.specs.private.Hexdump.{canon_end};

mod options;

use crate::driver::pages::dump_part;
use crate::driver::wide::{WideForm, WidePages};
use bx_dump_columns::hex_lanes::put_canon_sixteen;
use bx_text::{
    IoFault, ShortText, blank, emit_after, hex_digit, hex_field, push_text, put_address, put_text,
};
pub use options::HexdumpOptions;
use std::io::{Read, Write};

/// Puts the bytes into `field` in hexadecimal, in two groups of 8.
#[inline]
fn put_canon(field: &mut [u8], bytes: &[u8])
    requires fits { length bytes.now ≤ 16 }
    requires room { length field.old ≡ 50 }
    ensures { field.new ≡ canon_columns bytes.now (length field.old) }
{
    blank(field);
    for (i, byte) in bytes.iter().enumerate() {
        let at = 3 * i + i / 8;
        field[at] = hex_digit(byte / 16, false);
        field[at + 1] = hex_digit(byte % 16, false);
    }
}

/// Puts the line for 16 bytes at an address of at most 8 digits.
#[inline]
fn put_full_canon(line: &mut [u8], at: u32, bytes: &[u8; 16])
    requires { length line.old ≡ 79 }
    ensures { line.new ≡ canon_line at bytes.now }
{
    let (address, rest) = line.split_at_mut(8);
    let (gap, rest) = rest.split_at_mut(2);
    let (columns, rest) = rest.split_at_mut(50);
    let (bar, rest) = rest.split_at_mut(1);
    let (text, end) = rest.split_at_mut(16);
    put_address(address, at);
    gap.copy_from_slice(b"  ");
    put_canon_sixteen(columns, bytes);
    bar.copy_from_slice(b"|");
    put_text(text, bytes);
    end.copy_from_slice(b"|\n");
}

/// The line for some bytes at any address.
fn short_canon(at: u64, bytes: &[u8]) -> ShortText<96>
    requires { length bytes.now ≤ 16 }
    ensures { result ≡ canon_line at bytes.now }
{
    let mut columns = [0; 50];
    put_canon(&mut columns, bytes);
    let mut line = ShortText::new();
    line.push_all(hex_field(at, 8, false).as_bytes());
    line.push_all(b"  ");
    line.push_all(&columns);
    line.push_all(b"|");
    push_text(&mut line, bytes);
    line.push_all(b"|\n");
    line
}

/// hexdump's lines.
#[derive(Drop)]
struct CanonLines;

impl WideForm for CanonLines {
    ghost line = { λ _. canon_line };

    ghost cols = { λ _. 16 };

    ghost room = { λ _. 128 };

    fn line_len(&self) -> usize {
        16
    }

    fn room_len(&self) -> usize {
        128
    }

    #[inline]
    fn put(&self, page: &mut [u8], at: u64, bytes: &[u8]) -> usize {
        if at < 1 << 32
            && let Some(full) = bytes.first_chunk::<16>()
        {
            let (line, _) = page.split_at_mut(79);
            put_full_canon(line, at as u32, full);
            return 79;
        }
        let line = short_canon(at, bytes);
        let text = line.as_bytes();
        page[..text.len()].copy_from_slice(text);
        text.len()
    }
}

/// The address behind the last byte, on a line of its own.
fn end_line(at: u64) -> ShortText<24>
    ensures { result ≡ canon_end at }
{
    let mut line = ShortText::new();
    line.push_all(hex_field(at, 8, false).as_bytes());
    line.push_all(b"\n");
    line
}

/// Writes the text of `hexdump -C` of the bytes from place `skip` on, at most `limit` of them, and answers how many they are.
///
/// Addresses count from `first`, that of the input's first byte. Where no byte is dumped nothing is written: for an empty input, a limit of 0, and
/// a skip to the end of the input or past it. The input may have 2^40 bytes, those included that are skipped, and no more of
/// it is read than is needed. Nothing is flushed. After a fault a front of the text of the bytes that were read was written;
/// `WriteFailed` counts it, and at most 2^14 bytes were read ahead of it.
pub fn hexdump_c<R: Read, W: Write>(
    r: &mut R,
    w: &mut W,
    o: &HexdumpOptions,
) -> Result<u64, IoFault>
    ensures ok { IfOk result (WritesAll (hexdump_of o.now) (R.remaining r.old) (R.remaining r.new) (W.contents w.old) (W.contents w.new)) }
    ensures err { IfErr result (WritesFrontOf (hexdump_of o.now) (R.remaining r.old) (R.remaining r.new) (W.contents w.old) (W.contents w.new)) }
{
    let mut pages = WidePages::new(CanonLines, o.all, o.first + o.skip);
    let lines = match dump_part(r, w, &mut pages, o.skip, o.limit, 0) {
        Ok(lines) => lines,
        Err(fault) => return Err(fault),
    };
    if lines.read == 0 {
        return Ok(0);
    }
    let end = end_line(o.first + o.skip + lines.read);
    if let Err(fault) = emit_after(w, lines.written, end.as_bytes()) {
        return Err(fault);
    }
    Ok(lines.read)
}
