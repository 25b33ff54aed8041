//! Runs of characters of one, two or four bytes, found byte by byte.
pub(crate) mod scan;
mod state;

ghost use Rattle.std.specs.Prelude.{◌≡◌, ℕ, ◌+◌, ◌^◌, ◌<◌, ◌≤◌, if◌then◌else◌, [], List, ◌∷◌, ◌++◌, length, take, drop, Some, None};
ghost use Rattle.bx_dump.specs.Encodings.{char_byte, char_len, char_prints, is_graphic};
ghost use Rattle.bx_dump.specs.private.Runs.{Keeps, waiting};
ghost use Rattle.bx_dump.specs.private.Chars.{grown_run};

use crate::strings::dump::{Runs, prints, put_front};
use crate::strings::options::Encoding;

impl Encoding {
    /// The bytes of a character.
    fn len(self) -> usize
        ensures value { result ≡ char_len self }
        ensures some { 0 < result }
        ensures most { result ≤ 4 }
    {
        match self {
            Encoding::SevenBits | Encoding::EightBits => 1,
            Encoding::SixteenBits { .. } => 2,
            Encoding::ThirtyTwoBits { .. } => 4,
        }
    }
}

/// Whether a byte prints or is a tab.
fn is_shown(byte: u8) -> bool
    ensures { result ≡ is_graphic byte }
{
    prints(byte) || byte == b'\t'
}

/// The byte that is shown of a character, where it prints.
fn char_in(encoding: Encoding, bytes: &[u8]) -> Option<u8>
    ensures { result ≡ (if char_prints encoding bytes.now then Some (char_byte encoding bytes.now) else None) }
{
    match (encoding, bytes) {
        (Encoding::SevenBits, [a]) if prints(*a) => Some(*a),
        (Encoding::EightBits, [a]) if is_shown(*a) || *a >= 128 => Some(*a),
        (Encoding::SixteenBits { big: true }, [a, b]) if *a == 0 && is_shown(*b) => Some(*b),
        (Encoding::SixteenBits { big: false }, [a, b]) if *b == 0 && is_shown(*a) => Some(*a),
        (Encoding::ThirtyTwoBits { big: true }, [a, b, c, d])
            if (*a == 0 && (*b == 0 && *c == 0)) && is_shown(*d) => Some(*d),
        (Encoding::ThirtyTwoBits { big: false }, [a, b, c, d])
            if (*b == 0 && (*c == 0 && *d == 0)) && is_shown(*a) => Some(*a),
        _ => None,
    }
}

/// The bytes behind the first.
fn shifted(held: &[u8; 4]) -> [u8; 4]
    ensures { (n : ℕ) → n < 4 → take n result ≡ drop 1 (take (n + 1) held.now) }
{
    [held[1], held[2], held[3], 0]
}

/// Puts what is known with one more character of the run, which begins at a place.
fn grow_by(runs: &mut Runs, page: &mut [u8], start: u64, byte: u8) -> usize
    requires some { 0 < runs.old.least }
    requires few { runs.old.least ≤ 4096 }
    requires within { runs.old.count ≤ runs.old.least }
    requires room { 25 + waiting runs.old ≤ length page.old }
    requires address { start + 4096 < 2 ^ 64 }
    ensures text { (run : List ℕ) → Keeps runs.old run → take result page.new ≡ grown_run runs.old.least runs.old.offsets start run byte }
    ensures kept { (run : List ℕ) → Keeps runs.old run → Keeps runs.new (run ++ byte ∷ []) }
    ensures least { runs.new.least ≡ runs.old.least }
    ensures offsets { runs.new.offsets ≡ runs.old.offsets }
    ensures within { runs.new.count ≤ runs.new.least }
    ensures cost { result + waiting runs.new ≤ waiting runs.old + 25 }
{
    if runs.count == runs.least {
        page[0] = byte;
        return 1;
    }
    runs.kept[runs.count] = byte;
    runs.count += 1;
    if runs.count < runs.least {
        return 0;
    }
    let len = runs.count;
    put_front(page, runs.offsets, start + len as u64, &runs.kept[..len])
}
