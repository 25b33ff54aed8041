//! Where lines end.
ghost use Rattle.std.specs.Prelude.{◌≡◌, ◌+◌, ◌<◌, ◌++◌, ◌∷◌, length, take, drop, IfSome, IfNone, IsFalse};
ghost use Rattle.bx_journal_format.specs.read.Plain.{HasNoNewline};

use memchr::memchr;

/// How long a saved line of 16 bytes at an address of 8 digits is.
pub const FULL: usize = 67;

/// Whether a newline is among the bytes.
#[inline(always)]
pub fn has_newline(bytes: &[u8]) -> bool
    ensures { IsFalse result → HasNoNewline bytes.now }
{
    let mut found = false;
    for byte in bytes {
        found |= *byte == b'\n';
    }
    found
}

/// The place, where the first newline is at it. A place that is known takes no loop.
#[inline(always)]
pub fn end_at(place: usize, text: &[u8]) -> Option<usize>
    ensures place { IfSome result (λ i. i ≡ place) }
    ensures found { IfSome result (λ i. (i < length text.now) × HasNoNewline (take i text.now) × (text.now ≡ take i text.now ++ 10 ∷ drop (i + 1) text.now)) }
{
    if text.len() <= place {
        return None;
    }
    let (line, rest) = text.split_at(place);
    if rest[0] != b'\n' || has_newline(line) {
        return None;
    }
    Some(place)
}

/// Where the first newline is, found by a search.
#[inline]
fn first_newline(text: &[u8]) -> Option<usize>
    ensures found { IfSome result (λ i. (i < length text.now) × HasNoNewline (take i text.now) × (text.now ≡ take i text.now ++ 10 ∷ drop (i + 1) text.now)) }
    ensures none { IfNone result (HasNoNewline text.now) }
{
    memchr(b'\n', text)
}

/// Where the first newline is. Most lines are full saved lines, so their end is looked at first.
#[inline(always)]
pub fn line_end(text: &[u8]) -> Option<usize>
    ensures found { IfSome result (λ i. (i < length text.now) × HasNoNewline (take i text.now) × (text.now ≡ take i text.now ++ 10 ∷ drop (i + 1) text.now)) }
    ensures none { IfNone result (HasNoNewline text.now) }
{
    match end_at(FULL, text) {
        Some(i) => Some(i),
        None => first_newline(text),
    }
}
