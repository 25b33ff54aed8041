//! The state behind each byte.
ghost use Rattle.std.specs.Prelude.{◌≡◌, ◌+◌, ◌*◌, ◌^◌, ◌<◌, ◌≤◌, length, nat_lt, take};
ghost use Rattle.bx_dump.specs.Encodings.{char_len};

use crate::strings::dump::Runs;
use crate::strings::dump::chars::{char_in, grow_by, shifted};
use crate::strings::options::{Encoding, StringsOptions};

/// The bytes of a character that isn't whole, and the run before it.
#[derive(Drop)]
pub struct Chars {
    encoding: Encoding,
    held: [u8; 4],
    count: usize,
    runs: Runs,
    ghost short: { count < char_len encoding },
    ghost some: { 0 < runs.least },
    ghost few: { runs.least ≤ 4096 },
    ghost within: { runs.count ≤ runs.least },
}

impl Chars {
    ghost use Rattle.bx_dump.specs.private.Runs.{waiting};
    ghost use Rattle.bx_dump.specs.private.Chars.{Between, HoldsBytes, behind_byte, byte_text, chars_left, chars_text, nothing};

    /// No byte yet.
    pub fn new(o: &StringsOptions) -> Self
        ensures encoding { result.encoding ≡ o.now.encoding }
        ensures least { result.runs.least ≡ o.now.least }
        ensures offsets { result.runs.offsets ≡ o.now.offsets }
        ensures fresh { HoldsBytes result nothing }
    {
        Chars {
            encoding: o.encoding,
            held: [0; 4],
            count: 0,
            runs: Runs::new(o),
        }
    }

    /// Puts what is known with one more byte, which stands at a place.
    fn put_byte(&mut self, page: &mut [u8], at: u64, byte: u8) -> usize
        requires room { 25 + waiting self.old.runs ≤ length page.old }
        requires address { at ≤ 2 ^ 41 }
        ensures text { (now : Between) → HoldsBytes self.old now → take result page.new ≡ byte_text self.old.encoding self.old.runs.least self.old.runs.offsets at now byte }
        ensures kept { (now : Between) → HoldsBytes self.old now → HoldsBytes self.new (behind_byte self.old.encoding now byte) }
        ensures encoding { self.new.encoding ≡ self.old.encoding }
        ensures least { self.new.runs.least ≡ self.old.runs.least }
        ensures offsets { self.new.runs.offsets ≡ self.old.runs.offsets }
        ensures cost { result + waiting self.new.runs ≤ waiting self.old.runs + 25 }
    {
        self.held[self.count] = byte;
        let len = self.count + 1;
        if len < self.encoding.len() {
            self.count = len;
            return 0;
        }
        match char_in(self.encoding, &self.held[..len]) {
            Some(byte) => {
                self.count = 0;
                let start = (at + 1).saturating_sub((len * (self.runs.count + 1)) as u64);
                grow_by(&mut self.runs, page, start, byte)
            }
            None => {
                self.held = shifted(&self.held);
                self.count = len - 1;
                self.runs.end(page)
            }
        }
    }

    /// Puts what is known with more bytes, which stand from a place on.
    pub fn put(&mut self, page: &mut [u8], at: u64, bytes: &[u8]) -> usize
        requires room { 25 * length bytes.now + 4096 ≤ length page.old }
        requires address { at + length bytes.now ≤ 2 ^ 41 }
        ensures text { (now : Between) → HoldsBytes self.old now →
            take result page.new ≡ chars_text self.old.encoding self.old.runs.least self.old.runs.offsets at now bytes.now }
        ensures kept { (now : Between) → HoldsBytes self.old now → HoldsBytes self.new (chars_left self.old.encoding now bytes.now) }
        ensures encoding { self.new.encoding ≡ self.old.encoding }
        ensures least { self.new.runs.least ≡ self.old.runs.least }
        ensures offsets { self.new.runs.offsets ≡ self.old.runs.offsets }
        ensures most { result ≤ length page.old }
    {
        let mut used = 0;
        let mut done = 0;
        while done < bytes.len() {
            used += self.put_byte(&mut page[used..], at + done as u64, bytes[done]);
            done += 1;
        }
        used
    }

    /// Whether the run is too short.
    pub fn is_short(&self) -> bool
        ensures { result ≡ nat_lt self.now.runs.count self.now.runs.least }
    {
        self.runs.count < self.runs.least
    }
}
