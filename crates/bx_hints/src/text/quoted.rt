//! Names and words as a person reads them on a terminal: no byte of one moves the cursor or hides what stands beside it.
use std::alloc::{AllocError, Global};
use std::fmt::Write as _;

/// How a name stands between quotes.
#[derive(Clone, Copy, PartialEq, Eq)]
enum Part {
    /// In single quotes, as it is.
    Quoted,
    /// In single quotes behind a dollar, as escapes.
    Escaped,
}

/// A name as `ls` shows it on a terminal, which a shell takes as one word: as it is where that serves, else quoted, with an
/// escape for each character that doesn't print.
pub fn quoted(alloc: Global, name: &str) -> Result<String, AllocError> {
    let mut text = String::new(alloc);
    push_name(&mut text, name)?;
    Ok(text)
}

/// Puts a name so.
pub fn push_name(text: &mut String, name: &str) -> Result<(), AllocError> {
    if !name.is_empty() && name.chars().all(is_plain) {
        text.push_str(name)
    } else if name.contains('\'') && name.chars().all(is_plain_quoted) {
        text.push_str("\"")?;
        text.push_str(name)?;
        text.push_str("\"")
    } else {
        push_quoted(text, name)
    }
}

/// Puts a name in single quotes.
fn push_quoted(text: &mut String, name: &str) -> Result<(), AllocError> {
    text.push_str("'")?;
    let mut part = Part::Quoted;
    for c in name.chars() {
        part = push_next(text, part, c)?;
    }
    text.push_str("'")
}

/// Puts the next character of a name in quotes.
fn push_next(text: &mut String, part: Part, c: char) -> Result<Part, AllocError> {
    if c == '\'' {
        text.push_str("'\\''")?;
        return Ok(Part::Quoted);
    }
    if is_shown(c) {
        if part == Part::Escaped {
            text.push_str("''")?;
        }
        text.push(c)?;
        return Ok(Part::Quoted);
    }
    if part == Part::Quoted {
        text.push_str("'$'")?;
    }
    push_escape(text, c)?;
    Ok(Part::Escaped)
}

/// A word as it was given, but for an escape in place of each character that doesn't print.
pub fn printed(alloc: Global, word: &str) -> Result<String, AllocError> {
    let mut text = String::new(alloc);
    for c in word.chars() {
        if is_shown(c) {
            text.push(c)?;
        } else {
            push_escape(&mut text, c)?;
        }
    }
    Ok(text)
}

/// Puts the escape of a character: of one letter where C has it, else three octal digits for each byte.
fn push_escape(text: &mut String, c: char) -> Result<(), AllocError> {
    match c {
        '\x07' => text.push_str("\\a"),
        '\x08' => text.push_str("\\b"),
        '\t' => text.push_str("\\t"),
        '\n' => text.push_str("\\n"),
        '\x0b' => text.push_str("\\v"),
        '\x0c' => text.push_str("\\f"),
        '\r' => text.push_str("\\r"),
        _ => push_octal(text, c),
    }
}

/// Puts three octal digits for each byte of a character.
fn push_octal(text: &mut String, c: char) -> Result<(), AllocError> {
    let mut bytes = [0; 4];
    for byte in c.encode_utf8(&mut bytes).bytes() {
        write!(text, "\\{byte:03o}")?;
    }
    Ok(())
}

/// Whether a shell takes this character as it is, wherever it stands in a word.
fn is_plain(c: char) -> bool {
    c.is_ascii_alphanumeric()
        || matches!(c, '_' | '-' | '.' | '/' | '+' | ',' | ':' | '@' | '%' | ']')
        || (!c.is_ascii() && is_shown(c))
}

/// Whether a shell takes it as it is between double quotes.
fn is_plain_quoted(c: char) -> bool {
    is_plain(c) || matches!(c, ' ' | '\'')
}

/// Whether a terminal shows this character, in the place where it stands: no control character, none that ends a line, and none
/// that turns the order of others or takes no place.
fn is_shown(c: char) -> bool {
    !c.is_control()
        && !matches!(c, '\u{ad}' | '\u{61c}' | '\u{feff}')
        && !matches!(c, '\u{200b}'..='\u{200f}' | '\u{2028}'..='\u{202e}' | '\u{2060}'..='\u{206f}')
}
