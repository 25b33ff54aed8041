//! A range of an image, and the line that ends an entry.
ghost use Rattle.std.specs.Prelude.{◌≡◌, ◌^◌, ◌<◌, ℕ, IfSome, IfNone};
ghost use Rattle.bx_journal_image.specs.Ranges.{EndsIn, ending_line};

use crate::line::form::{LineText, number_behind, push_field};

/// Bytes of an image.
#[derive(Clone, Copy, Debug, PartialEq, Eq)]
pub struct Range {
    /// The address of the first.
    pub at: u64,
    /// How many there are.
    pub count: u64,
}

/// How many bytes the line has that ends an entry of the newer form.
pub const END: usize = 32;

/// The line that ends an entry of the newer form.
fn write_end(n: u64, after: u64) -> LineText
    requires number { n < 16 ^ 8 }
    requires length { after < 16 ^ 16 }
    ensures { result ≡ ending_line n after }
{
    let mut text = LineText::new();
    push_field(&mut text, b"done2 ", 8, n);
    push_field(&mut text, b" ", 16, after);
    text.push_all(b"\n");
    text
}

/// The number of the entry that a text ends with, by its last bytes; none where they are no such line.
pub fn end_of(text: &[u8]) -> Option<u32>
    ensures some { IfSome result (λ n. EndsIn text.now n) }
    ensures none { IfNone result ((n : ℕ) → EndsIn text.now n → ⊥) }
{
    if text.len() < END {
        return None;
    }
    let (_, line) = text.split_at(text.len() - END);
    let number = number_behind(line, 6, 8);
    let after = number_behind(number.rest, 1, 16);
    let written = write_end(number.number, after.number);
    if written.as_bytes() == line {
        Some(number.number as u32)
    } else {
        None
    }
}
