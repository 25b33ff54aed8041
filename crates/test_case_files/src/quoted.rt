//! Texts in quotes.
use crate::fault::{CaseFault, Trouble};

/// The number of a hexadecimal digit in either case.
pub fn digit(byte: u8) -> Option<u8> {
    match byte {
        b'0'..=b'9' => Some(byte - b'0'),
        b'a'..=b'f' => Some(byte - b'a' + 10),
        b'A'..=b'F' => Some(byte - b'A' + 10),
        _ => None,
    }
}

/// The byte that two digits write.
pub fn pair(high: u8, low: u8) -> Option<u8> {
    let high = digit(high)?;
    let low = digit(low)?;
    Some(high.wrapping_mul(16).wrapping_add(low))
}

/// What a text in quotes goes on with.
enum Step<'a> {
    /// A byte, and what follows it.
    Byte(u8, &'a [u8]),
    /// The closing quote, and what follows it.
    End(&'a [u8]),
}

/// The next byte of a text in quotes; none where it is bad.
fn next_step(rest: &[u8]) -> Option<Step<'_>> {
    match rest {
        [b'"', rest @ ..] => Some(Step::End(rest)),
        [b'\\', b'n', rest @ ..] => Some(Step::Byte(b'\n', rest)),
        [b'\\', b'x', high, low, rest @ ..] => Some(Step::Byte(pair(*high, *low)?, rest)),
        [b'\\', mark @ (b'"' | b'\\'), rest @ ..] => Some(Step::Byte(*mark, rest)),
        [b'\\', ..] | [] => None,
        [byte, rest @ ..] => Some(Step::Byte(*byte, rest)),
    }
}

/// Puts the bytes of a text in quotes, whose opening quote is gone, behind the others. Answers what follows its closing quote.
pub fn push_quoted<'a>(
    out: &mut Vec<u8>,
    line: u64,
    text: &'a [u8],
) -> Result<&'a [u8], CaseFault> {
    let mut rest = text;
    for _ in 0..text.len() {
        match next_step(rest) {
            Some(Step::Byte(byte, behind)) => {
                out.push(byte)?;
                rest = behind;
            }
            Some(Step::End(behind)) => return Ok(behind),
            None => break,
        }
    }
    Err(CaseFault::at(line, Trouble::BadQuoted))
}
