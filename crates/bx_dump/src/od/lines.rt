//! od's lines.
ghost use Rattle.std.specs.Prelude.{◌≡◌, ℕ, ◌+◌, ◌-◌, ◌*◌, ◌/◌, ◌^◌, ◌<◌, ◌≤◌, length, take};
ghost use Rattle.bx_dump_columns.specs.Lines.{in_lines};
ghost use Rattle.bx_dump_columns.specs.Values.{field_width, value_text_in, width_of};
ghost use Rattle.bx_dump.specs.Od.{address_text, od_line, od_end};

use crate::driver::wide::WideForm;
use bx_dump_columns::od::octal::{put_eight, put_nine, put_seven};
use bx_dump_columns::od::options::{Address, Endian, Kind};
use bx_dump_columns::od::values::{put_full, put_values};
use bx_text::{ShortText, dec_field, hex_field, oct_field};

/// An address in digits.
fn address_of(address: Address, at: u64) -> ShortText<22>
    ensures { result ≡ address_text address at }
{
    match address {
        Address::Octal => oct_field(at, 7),
        Address::Decimal => dec_field(at as i128, 7, b'0'),
        Address::Hexadecimal => hex_field(at, 6, false),
        Address::Without => ShortText::new(),
    }
}

/// Puts an address of at most 7 octal digits.
#[inline(always)]
fn put_start_of_seven(page: &mut [u8], at: u64) -> usize
    requires room { 22 ≤ length page.old }
    requires fits { at < 8 ^ 7 }
    ensures most { result ≤ 22 }
    ensures text { take result page.new ≡ address_text Address.Octal at }
{
    let (field, _) = page.split_at_mut(7);
    put_seven(field, at as u32);
    7
}

/// Puts an address of 8 octal digits.
#[inline(always)]
fn put_start_of_eight(page: &mut [u8], at: u64) -> usize
    requires room { 22 ≤ length page.old }
    requires fits { at < 8 ^ 8 }
    requires all { 8 ^ 7 ≤ at }
    ensures most { result ≤ 22 }
    ensures text { take result page.new ≡ address_text Address.Octal at }
{
    let (field, _) = page.split_at_mut(8);
    put_eight(field, at as u32);
    8
}

/// Puts an address of 9 octal digits.
#[inline(always)]
fn put_start_of_nine(page: &mut [u8], at: u64) -> usize
    requires room { 22 ≤ length page.old }
    requires fits { at < 8 ^ 9 }
    requires all { 8 ^ 8 ≤ at }
    ensures most { result ≤ 22 }
    ensures text { take result page.new ≡ address_text Address.Octal at }
{
    let (field, _) = page.split_at_mut(9);
    put_nine(field, at as u32);
    9
}

/// Puts an address at the front, and answers how long it is.
#[inline(always)]
pub(super) fn put_start(page: &mut [u8], address: Address, at: u64) -> usize
    requires { 22 ≤ length page.old }
    ensures most { result ≤ 22 }
    ensures text { take result page.new ≡ address_text address at }
{
    match address {
        Address::Octal if at < 1 << 21 => put_start_of_seven(page, at),
        Address::Octal if at < 1 << 24 => put_start_of_eight(page, at),
        Address::Octal if at < 1 << 27 => put_start_of_nine(page, at),
        _ => put_any_start(page, address, at),
    }
}

/// The same for any address.
#[inline(never)]
#[cold]
fn put_any_start(page: &mut [u8], address: Address, at: u64) -> usize
    requires { 22 ≤ length page.old }
    ensures most { result ≤ 22 }
    ensures text { take result page.new ≡ address_text address at }
{
    let start = address_of(address, at);
    let text = start.as_bytes();
    page[..text.len()].copy_from_slice(text);
    text.len()
}

/// The address behind the last byte, on a line of its own.
pub fn end_line(address: Address, at: u64) -> ShortText<24>
    ensures { result ≡ od_end address at }
{
    let mut line = ShortText::new();
    if address != Address::Without {
        line.push_all(address_of(address, at).as_bytes());
        line.push_all(b"\n");
    }
    line
}

/// Puts the values of a line, those of 16 bytes at once, and answers how long their text is.
#[inline(always)]
fn put_line_values(text: &mut [u8], kind: Kind, endian: Endian, bytes: &[u8]) -> usize
    requires room { (field_width kind + 1) * ((length bytes.now + width_of kind - 1) / width_of kind) ≤ length text.old }
    requires few { length bytes.now ≤ 4096 }
    ensures most { result ≤ (field_width kind + 1) * ((length bytes.now + width_of kind - 1) / width_of kind) }
    ensures text { take result text.new ≡ in_lines (value_text_in endian kind) (width_of kind) 0 bytes.now }
{
    if let Endian::Little = endian
        && let Some(full) = bytes.first_chunk::<16>()
        && (bytes.len() == 16 && text.len() >= 80)
    {
        return put_full(text, kind, full);
    }
    put_values(text, kind, endian, bytes)
}

/// od's lines.
#[derive(Drop)]
pub struct OdLines {
    pub address: Address,
    pub kind: Kind,
    pub endian: Endian,
    pub width: u16,
    ghost some: { 0 < width },
    ghost narrow: { width ≤ 256 },
}

impl WideForm for OdLines {
    ghost line = { λ l. od_line l.address l.kind l.endian };

    ghost cols = { λ l. l.width };

    ghost room = { λ l. 23 + (field_width l.kind + 1) * ((l.width + width_of l.kind - 1) / width_of l.kind) };

    fn line_len(&self) -> usize {
        self.width as usize
    }

    fn room_len(&self) -> usize {
        let size = self.kind.width();
        23 + (self.kind.field() + 1) * ((self.width as usize + size - 1) / size)
    }

    fn put(&self, page: &mut [u8], at: u64, bytes: &[u8]) -> usize {
        let start = put_start(page, self.address, at);
        let used = put_line_values(&mut page[start..], self.kind, self.endian, bytes);
        page[start + used] = b'\n';
        start + used + 1
    }
}
