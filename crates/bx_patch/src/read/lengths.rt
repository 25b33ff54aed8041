//! The line that tells the lengths.
ghost use Rattle.std.specs.Prelude.{◌≡◌, ◌++◌, ◌<◌, ◌≤◌, length, slice_index, MatchOption};
ghost use Rattle.std.specs.Str.Parse.{IsNumeral, digits_value};
ghost use Rattle.bx_patch.specs.Grammar.{IsLength};
ghost use Rattle.bx_patch.specs.Fault.{IsNoLength};
ghost use Rattle.bx_patch.specs.private.Read.{BeginsElse, HasNoSpace};

use memchr::memchr;

/// The length before and the one after.
#[derive(Clone, Copy, Debug, PartialEq, Eq)]
pub struct PatchLengths {
    pub old: u64,
    pub new: u64,
}

/// What follows a word at the front of a text.
pub fn after<'a>(text: &'a [u8], word: &[u8]) -> Option<&'a [u8]>
    ensures { MatchOption result (BeginsElse text.now word.now) (λ rest. text.now ≡ word.now ++ rest.now) }
{
    if text.len() < word.len() {
        return None;
    }
    let (front, rest) = text.split_at(word.len());
    if front == word { Some(rest) } else { None }
}

/// The number that 1 to 18 decimal digits write.
fn decimal(text: &[u8]) -> Option<u64>
    ensures { MatchOption result (IsNumeral 10 text.now → length text.now ≤ 18 → ⊥)
        (λ n. IsNumeral 10 text.now × (length text.now ≤ 18) × (digits_value 10 text.now ≡ n)) }
{
    if text.is_empty() || text.len() > 18 {
        return None;
    }
    let mut value: u64 = 0;
    for c in text {
        if *c < b'0' {
            return None;
        }
        if *c > b'9' {
            return None;
        }
        value = 10 * value + (*c - b'0') as u64;
    }
    Some(value)
}

/// A text before its first space, and from there on.
fn parted(text: &[u8]) -> Option<(&[u8], &[u8])>
    ensures { MatchOption result (HasNoSpace text.now)
        (λ parts. HasNoSpace parts.0.now × (text.now ≡ parts.0.now ++ parts.1.now) × (slice_index parts.1.now 0 ≡ 32)) }
{
    let end = memchr(b' ', text)?;
    let (first, tail) = text.split_at(end);
    Some((first, tail))
}

/// The lengths that a line tells.
pub fn lengths_in(line: &[u8]) -> Option<PatchLengths>
    ensures { MatchOption result (IsNoLength line.now) (λ lengths. IsLength line.now lengths.old lengths.new) }
{
    let Some(body) = after(line, b"length ") else {
        return None;
    };
    let Some((first, tail)) = parted(body) else {
        return None;
    };
    let Some(second) = after(tail, b" to ") else {
        return None;
    };
    let Some(old) = decimal(first) else {
        return None;
    };
    let Some(new) = decimal(second) else {
        return None;
    };
    Some(PatchLengths { old, new })
}
