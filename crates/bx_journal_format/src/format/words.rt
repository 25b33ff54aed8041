//! The words and numbers of a journal's lines.
ghost use Rattle.std.specs.Prelude.{◌≡◌, ◌+◌, ◌^◌, ◌<◌, ◌≤◌, ◌++◌, codes, length, MatchOption, None, Some};
ghost use Rattle.std.specs.Str.{bytes_eq};
ghost use Rattle.bx_journal_format.specs.Hex.{hex_digits, hex_nibble, number_after, number_of as number_read};
ghost use Rattle.bx_journal_format.specs.Line.{start_head as start_front, save_line, end_head as end_front, after_prefix as behind_front};

use crate::Version;
use crate::format::hex::sixteen;
use bx_text::{ShortText, hex_field, put_address};

/// A line of a journal but for its saved lines, or the front of one.
pub type Words = ShortText<34>;

/// Appends a number in `width` digits.
pub fn push_number(line: &mut Words, width: u8, n: u64)
    requires fits { n < 16 ^ width }
    requires some { 0 < width }
    requires wide { width ≤ 16 }
    requires room { length line.old + width ≤ 34 }
    ensures text { line.new ≡ line.old ++ hex_digits width n }
    ensures long { length line.new ≡ length line.old + width }
{
    line.push_all(hex_field(n, width, false).as_bytes());
}

/// A number in 8 digits.
#[inline(always)]
fn eight_digits(n: u32) -> [u8; 8]
    ensures { result ≡ hex_digits 8 n }
{
    let mut digits = [b'0'; 8];
    put_address(&mut digits, n);
    digits
}

/// A word and a number of 8 digits.
#[inline(always)]
fn numbered(word: &[u8], number: u32) -> Words
    requires { length word.now ≤ 8 }
    ensures text { result ≡ word.now ++ hex_digits 8 number }
    ensures long { length result ≡ length word.now + 8 }
{
    let mut line = Words::new();
    line.push_all(word);
    line.push_all(&eight_digits(number));
    line
}

/// A word, a number of 8 digits, and a space.
#[inline(always)]
fn numbered_front(word: &[u8], number: u32) -> Words
    requires { length word.now ≤ 8 }
    ensures text { result ≡ word.now ++ hex_digits 8 number ++ codes " " }
    ensures long { length result ≡ length word.now + 9 }
{
    let mut line = numbered(word, number);
    line.push(b' ');
    line
}

/// What stands before the length in the line that begins an entry.
#[tactic(auto, unfolding(crate::specs::Line::start_head))]
#[inline(always)]
pub fn start_head(version: Version, number: u32) -> Words
    ensures text { result ≡ start_front version number }
    ensures short { length result ≤ 17 }
{
    match version {
        Version::First => numbered_front(b"change ", number),
        Version::Second => numbered_front(b"change2 ", number),
    }
}

/// The line that ends what an entry saves.
#[tactic(auto, unfolding(crate::specs::Line::save_line))]
#[inline(always)]
pub fn save_text(number: u32) -> Words
    ensures text { result ≡ save_line number }
    ensures short { length result ≤ 17 }
{
    numbered(b"save ", number)
}

/// The line that ends an entry, up to the length in that of the second version.
#[tactic(auto, unfolding(crate::specs::Line::end_head))]
#[inline(always)]
pub fn end_head(version: Version, number: u32) -> Words
    ensures text { result ≡ end_front version number }
    ensures short { length result ≤ 17 }
{
    match version {
        Version::First => numbered(b"done ", number),
        Version::Second => numbered_front(b"done2 ", number),
    }
}

/// Whether two texts of one length are the same. All of both is looked at: where the length is known that takes no loop.
#[inline(always)]
fn is_same(text: &[u8], other: &[u8]) -> bool
    requires { length text.now ≡ length other.now }
    ensures { result ≡ bytes_eq text.now other.now }
{
    let mut same = true;
    for i in 0..text.len() {
        same &= text[i] == other[i];
    }
    same
}

/// What follows a word, a number of 8 digits and a space in a line that begins with them.
#[inline(always)]
fn behind_number<'a>(word: &[u8], number: u32, line: &'a [u8]) -> Option<&'a [u8]>
    requires { length word.now ≤ 8 }
    ensures { let read = behind_front (word.now ++ hex_digits 8 number ++ codes " ") line.now in MatchOption result (read ≡ None) (λ rest. read ≡ Some rest.now) }
{
    if line.len() < word.len() + 9 {
        return None;
    }
    let (front, rest) = line.split_at(word.len());
    let (digits, rest) = rest.split_at(8);
    let (space, rest) = rest.split_at(1);
    if !is_same(front, word) {
        return None;
    }
    if !is_same(digits, &eight_digits(number)) {
        return None;
    }
    if space[0] != b' ' {
        return None;
    }
    Some(rest)
}

/// Whether the line is a word and a number of 8 digits.
#[inline(always)]
pub fn is_numbered(word: &[u8], number: u32, line: &[u8]) -> bool
    requires { length word.now ≤ 8 }
    ensures { result ≡ bytes_eq line.now (word.now ++ hex_digits 8 number) }
{
    if line.len() != word.len() + 8 {
        return false;
    }
    let (front, digits) = line.split_at(word.len());
    if !is_same(front, word) {
        return false;
    }
    is_same(digits, &eight_digits(number))
}

/// What follows the head of the line that begins an entry, in a line that has it.
#[tactic(auto, unfolding(crate::specs::Line::start_head))]
#[inline(always)]
pub fn behind_start(version: Version, number: u32, line: &[u8]) -> Option<&[u8]>
    ensures { let read = behind_front (start_front version number) line.now in MatchOption result (read ≡ None) (λ rest. read ≡ Some rest.now) }
{
    match version {
        Version::First => behind_number(b"change ", number, line),
        Version::Second => behind_number(b"change2 ", number, line),
    }
}

/// What follows the head of the line that ends an entry of the second version, in a line that has it.
#[tactic(auto, unfolding(crate::specs::Line::end_head))]
#[inline(always)]
pub fn behind_end(number: u32, line: &[u8]) -> Option<&[u8]>
    ensures { let read = behind_front (end_front Version.Second number) line.now in MatchOption result (read ≡ None) (λ rest. read ≡ Some rest.now) }
{
    behind_number(b"done2 ", number, line)
}

#[inline(always)]
fn digit(c: u8) -> Option<u64>
    ensures { result ≡ hex_nibble c }
{
    match c {
        b'0'..=b'9' => Some((c - b'0') as u64),
        b'a'..=b'f' => Some((c - b'a') as u64 + 10),
        _ => None,
    }
}

/// The number that at most 16 digits give.
#[inline(always)]
pub fn number(text: &[u8]) -> Option<u64>
    requires { length text.now ≤ 16 }
    ensures { result ≡ number_after 0 text.now }
{
    let mut n: u64 = 0;
    for c in text {
        let Some(d) = digit(*c) else { return None };
        n = n * 16 + d;
    }
    Some(n)
}

/// The number that `width` digits give.
#[inline(always)]
pub fn number_of(width: usize, text: &[u8]) -> Option<u64>
    requires { width ≤ 16 }
    ensures { result ≡ number_read width text.now }
{
    if text.len() != width {
        return None;
    }
    if text.len() == 16 {
        if let Some(n) = sixteen(text) {
            return Some(n);
        }
    }
    number(text)
}
