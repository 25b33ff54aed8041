//! The line that a journal's third text has.
ghost use Rattle.std.specs.Prelude.{◌≡◌, ◌+◌, ◌<◌, ◌≤◌, ◌^◌, ◌++◌, ℕ, List, length, Option, IfSome, IfNone};
ghost use Rattle.bx_journal_format.specs.Hex.{hex_digits, hex_nibble, number_after};
ghost use Rattle.bx_journal_image.specs.Line.{AreFitMarks, FitsMark, FitsPlaces, field, image_line, mark_text, marks_text};

use crate::line::digest::Digest;
use crate::line::marks::{BLOCKS, Marks};
use bx_text::{ShortText, hex_field};

/// How many bytes the line has, newline included.
pub const LINE: usize = 439;

/// What the line says: how many changes stand and are undone, how long the image is, the digests of what it has in the ranges of
/// the last change and of the one that was undone last, how many of the oldest changes stand for another image, between which lengths
/// a command that is stopped leaves it, and the digests of its blocks.
#[derive(Clone, Copy, Debug, PartialEq, Eq)]
pub struct ImageLine {
    /// How many changes stand.
    pub changes: u32,
    /// How many are undone.
    pub undone: u32,
    /// How many bytes the image has.
    pub length: u64,
    /// The digest of what it has where the last change wrote.
    pub last: Digest,
    /// The same of the change that was undone last.
    pub next: Digest,
    /// How many of the oldest changes stand for another image.
    pub others: u32,
    /// The least length of the image that a command makes.
    pub least: u64,
    /// The greatest.
    pub most: u64,
    /// The digests of its blocks.
    pub marks: Marks,
}

/// A text of at most as many bytes as the line.
pub type LineText = ShortText<439>;

/// Appends a word, and a number in `width` digits.
pub(crate) fn push_field(line: &mut LineText, word: &[u8], width: u8, n: u64)
    requires fits { n < 16 ^ width }
    requires some { 0 < width }
    requires wide { width ≤ 16 }
    requires room { length line.old + length word.now + width ≤ 439 }
    ensures text { line.new ≡ line.old ++ field word.now width n }
    ensures long { length line.new ≡ length line.old + length word.now + width }
{
    line.push_all(word);
    line.push_all(hex_field(n, width, false).as_bytes());
}

/// Appends what is known of a block.
fn push_mark(line: &mut LineText, mark: Option<u32>)
    requires room { length line.old + 9 ≤ 439 }
    ensures text { line.new ≡ line.old ++ mark_text mark }
    ensures long { length line.new ≡ length line.old + 9 }
{
    match mark {
        Some(n) => push_field(line, b" ", 8, n as u64),
        None => line.push_all(b" --------"),
    }
}

/// Appends what is known of the blocks.
fn push_marks(line: &mut LineText, marks: &Marks)
    requires { length line.old + 288 ≤ 439 }
    ensures text { line.new ≡ line.old ++ marks_text marks.now }
    ensures long { length line.new ≡ length line.old + 288 }
{
    for i in 0..BLOCKS {
        push_mark(line, marks[i]);
    }
}

/// The line as it is written.
pub fn write_line(line: ImageLine) -> LineText
    ensures { result ≡ image_line line }
{
    let mut text = LineText::new();
    push_field(&mut text, b"image3 ", 8, line.changes as u64);
    push_field(&mut text, b" ", 8, line.undone as u64);
    push_field(&mut text, b" ", 16, line.length);
    push_field(&mut text, b" ", 16, line.last.high);
    push_field(&mut text, b"", 16, line.last.low);
    push_field(&mut text, b" ", 16, line.next.high);
    push_field(&mut text, b"", 16, line.next.low);
    push_field(&mut text, b" ", 8, line.others as u64);
    push_field(&mut text, b" ", 16, line.least);
    push_field(&mut text, b" ", 16, line.most);
    push_marks(&mut text, &line.marks);
    text.push_all(b"\n");
    text
}

/// The value of a lower-case digit.
fn digit(c: u8) -> Option<u64>
    ensures { result ≡ hex_nibble c }
{
    match c {
        b'0'..=b'9' => Some((c - b'0') as u64),
        b'a'..=b'f' => Some((c - b'a') as u64 + 10),
        _ => None,
    }
}

/// The number that at most 16 digits give.
pub(crate) fn number(text: &[u8]) -> Option<u64>
    requires { length text.now ≤ 16 }
    ensures value { result ≡ number_after 0 text.now }
    ensures fits { IfSome result (λ n. n < 16 ^ length text.now) }
{
    let mut n: u64 = 0;
    for c in text {
        let Some(d) = digit(*c) else { return None };
        n = n * 16 + d;
    }
    Some(n)
}

/// A number, and what follows it in a text.
#[derive(Clone, Copy)]
pub(crate) struct Numbered<'a> {
    pub number: u64,
    pub rest: &'a [u8],
}

/// The number in `width` digits behind as many bytes as a word has; 0 where there is none.
pub(crate) fn number_behind<'a>(text: &'a [u8], word: usize, width: usize) -> Numbered<'a>
    requires short { word ≤ 8 }
    requires wide { width ≤ 16 }
    ensures is { (front more : List ℕ) (n : ℕ) → length front ≡ word → n < 16 ^ width → text.now ≡ field front width n ++ more
        → (result.number ≡ n) × (result.rest.now ≡ more) }
    ensures fits { result.number < 16 ^ width }
{
    if text.len() < word + width {
        return Numbered {
            number: 0,
            rest: text,
        };
    }
    let (_, behind) = text.split_at(word);
    let (digits, rest) = behind.split_at(width);
    match number(digits) {
        Some(number) => Numbered { number, rest },
        None => Numbered { number: 0, rest },
    }
}

/// What is known of a block, and what follows it in a text.
#[derive(Clone, Copy)]
struct Marked<'a> {
    mark: Option<u32>,
    rest: &'a [u8],
}

/// What is known of a block by the first of a text; nothing where it tells nothing.
fn mark_before<'a>(text: &'a [u8]) -> Marked<'a>
    ensures { (m : Option ℕ) (more : List ℕ) → FitsMark m → text.now ≡ mark_text m ++ more → (result.mark ≡ m) × (result.rest.now ≡ more) }
{
    if text.len() < 9 {
        return Marked {
            mark: None,
            rest: text,
        };
    }
    let (_, behind) = text.split_at(1);
    let (digits, rest) = behind.split_at(8);
    match number(digits) {
        Some(n) => Marked {
            mark: Some(n as u32),
            rest,
        },
        None => Marked { mark: None, rest },
    }
}

/// What is known of the blocks by the first of a text.
fn marks_before(text: &[u8]) -> Marks
    ensures { (ms : List (Option ℕ)) (more : List ℕ) → AreFitMarks ms → text.now ≡ marks_text ms ++ more → result ≡ ms }
{
    let mut marks: Marks = [None; 32];
    let mut rest = text;
    for i in 0..BLOCKS {
        let found = mark_before(rest);
        marks[i] = found.mark;
        rest = found.rest;
    }
    marks
}

/// What a text says that is the line; of another text what stands in its places.
fn fields_of(text: &[u8]) -> ImageLine
    ensures { (l : ImageLine) → FitsPlaces l → text.now ≡ image_line l → result ≡ l }
{
    let changes = number_behind(text, 7, 8);
    let undone = number_behind(changes.rest, 1, 8);
    let length = number_behind(undone.rest, 1, 16);
    let last = number_behind(length.rest, 1, 16);
    let last_low = number_behind(last.rest, 0, 16);
    let next = number_behind(last_low.rest, 1, 16);
    let next_low = number_behind(next.rest, 0, 16);
    let others = number_behind(next_low.rest, 1, 8);
    let least = number_behind(others.rest, 1, 16);
    let most = number_behind(least.rest, 1, 16);
    let marks = marks_before(most.rest);
    ImageLine {
        changes: changes.number as u32,
        undone: undone.number as u32,
        length: length.number,
        last: Digest {
            high: last.number,
            low: last_low.number,
        },
        next: Digest {
            high: next.number,
            low: next_low.number,
        },
        others: others.number as u32,
        least: least.number,
        most: most.number,
        marks,
    }
}

/// What a text says, where it is the line as it is written, to the byte; none for any other text.
pub fn read_line(text: &[u8]) -> Option<ImageLine>
    ensures some { IfSome result (λ l. text.now ≡ image_line l) }
    ensures none { IfNone result ((l : ImageLine) → FitsPlaces l → text.now ≡ image_line l → ⊥) }
{
    let line = fields_of(text);
    let written = write_line(line);
    if written.as_bytes() == text {
        Some(line)
    } else {
        None
    }
}
