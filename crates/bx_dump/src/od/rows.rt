//! od's lines of several rows.
ghost use Rattle.std.specs.Prelude.{◌≡◌, ℕ, ◌+◌, ◌*◌, ◌<◌, ◌≤◌, ◌∷◌, ◌++◌, length, take};
ghost use Rattle.bx_dump.specs.Od.{address_blanks, address_text, columns_below, od_rows, od_row, rows_below, widest};

use crate::driver::wide::WideForm;
use crate::od::below::{Below, Column};
use crate::od::columns::{values_width, widest};
use crate::od::lines::put_start;
use crate::od::row::put_row;
use bx_dump_columns::od::options::{Address, Endian};

/// od's lines of several rows, or with the bytes as text.
#[derive(Drop)]
pub struct OdRows {
    pub address: Address,
    pub first: Column,
    pub below: Below,
    pub endian: Endian,
    pub width: u16,
    ghost some: { 0 < width },
    ghost narrow: { width ≤ 256 },
}

/// Puts blanks in place of an address, and answers how many.
fn put_blanks(page: &mut [u8], address: Address) -> usize
    requires { 22 ≤ length page.old }
    ensures most { result ≤ 22 }
    ensures text { take result page.new ≡ address_blanks address }
{
    let count = match address {
        Address::Octal | Address::Decimal => 7,
        Address::Hexadecimal => 6,
        Address::Without => 0,
    };
    page[..count].fill(b' ');
    count
}

impl OdRows {
    /// How wide the widest row is.
    fn wide(&self) -> usize
        ensures value { result ≡ widest self.now.width (self.now.first ∷ columns_below self.now.below) }
        ensures most { result ≤ 5 * self.now.width }
    {
        let cols = self.width as usize;
        values_width(cols, self.first.kind).max(widest(cols, self.below.as_slice()))
    }

    /// Puts the first row, and answers how long it is.
    fn put_first(&self, page: &mut [u8], wide: usize, at: u64, bytes: &[u8]) -> usize
        requires room { 11 * self.now.width + 48 ≤ length page.old }
        requires wide { wide ≤ 5 * self.now.width }
        requires fits { length bytes.now ≤ self.now.width }
        ensures most { result ≤ 11 * self.now.width + 48 }
        ensures text { take result page.new ≡ address_text self.now.address at ++ od_row self.now.endian self.now.width wide self.now.first bytes.now }
    {
        let start = put_start(page, self.address, at);
        let cols = self.width as usize;
        start
            + put_row(
                &mut page[start..],
                self.endian,
                cols,
                wide,
                self.first,
                bytes,
            )
    }

    /// Puts another row, and answers how long it is.
    fn put_other(&self, page: &mut [u8], wide: usize, column: Column, bytes: &[u8]) -> usize
        requires room { 11 * self.now.width + 48 ≤ length page.old }
        requires wide { wide ≤ 5 * self.now.width }
        requires fits { length bytes.now ≤ self.now.width }
        ensures most { result ≤ 11 * self.now.width + 48 }
        ensures text { take result page.new ≡ address_blanks self.now.address ++ od_row self.now.endian self.now.width wide column bytes.now }
    {
        let start = put_blanks(page, self.address);
        let cols = self.width as usize;
        start + put_row(&mut page[start..], self.endian, cols, wide, column, bytes)
    }

    /// Puts the rows below the first, and answers how long they are.
    fn put_below(&self, page: &mut [u8], wide: usize, bytes: &[u8]) -> usize
        requires room { (11 * self.now.width + 48) * self.now.below.count ≤ length page.old }
        requires wide { wide ≤ 5 * self.now.width }
        requires fits { length bytes.now ≤ self.now.width }
        ensures most { result ≤ (11 * self.now.width + 48) * self.now.below.count }
        ensures text { take result page.new ≡ rows_below self.now.address self.now.endian self.now.width wide bytes.now (columns_below self.now.below) }
    {
        let columns = self.below.as_slice();
        let mut used = 0;
        for k in 0..columns.len() {
            used += self.put_other(&mut page[used..], wide, columns[k], bytes);
        }
        used
    }
}

impl WideForm for OdRows {
    ghost line = { λ l. od_rows l.address l.endian l.width l.first (columns_below l.below) };

    ghost cols = { λ l. l.width };

    ghost room = { λ l. (11 * l.width + 48) * (l.below.count + 1) };

    fn line_len(&self) -> usize {
        self.width as usize
    }

    fn room_len(&self) -> usize {
        (11 * self.width as usize + 48) * (self.below.count as usize + 1)
    }

    fn put(&self, page: &mut [u8], at: u64, bytes: &[u8]) -> usize {
        let wide = self.wide();
        let first = self.put_first(page, wide, at, bytes);
        first + self.put_below(&mut page[first..], wide, bytes)
    }
}
