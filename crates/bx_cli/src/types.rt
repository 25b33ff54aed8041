//! The types of values that the words of od give.
ghost use Rattle.std.specs.Prelude.{◌≤◌, IfOk};

use crate::given::Given;
use bx_cli_commands::{Fault, kind_word, line_width};
use bx_dump::od::{Below, Column, Kind};

/// The flags that are a type each.
static FLAGS: [(&str, &str); 8] = [
    ("o1", "o1"),
    ("chars", "c"),
    ("u2", "u2"),
    ("o2", "o2"),
    ("d2", "d2"),
    ("x2", "x2"),
    ("d4", "d4"),
    ("d8", "d8"),
];

/// The most types of a line.
const MOST: usize = 16;

/// The types of a line, in the order of the words.
#[derive(Drop)]
pub(crate) struct Types {
    columns: [Column; MOST],
    count: usize,
    /// One whose values have the most bytes.
    largest: Kind,
}

impl Types {
    /// No types yet.
    fn new() -> Types {
        Types {
            columns: [Column {
                kind: Kind::Chars,
                text: false,
            }; MOST],
            count: 0,
            largest: Kind::Chars,
        }
    }

    /// The types that were given: octal numbers of 2 bytes where there are none.
    pub(crate) fn of(m: &Given<'_, '_>) -> Result<Types, Fault> {
        let mut types = Types::new();
        let mut place = 0;
        for _ in 0..=MOST {
            let Some((next, word)) = word_behind(m, place) else {
                break;
            };
            types.push_word(word)?;
            place = next;
        }
        if types.count == 0 {
            types.push_word("o2")?;
        }
        Ok(types)
    }

    /// Puts the types of a word behind the others.
    fn push_word(&mut self, word: &str) -> Result<(), Fault> {
        if word.is_empty() {
            return Err(Fault::Usage);
        }
        let mut rest = word;
        for _ in 0..word.len() {
            if rest.is_empty() {
                break;
            }
            let (name, behind) = first_type(rest)?;
            let (text, behind) = match behind.strip_prefix('z') {
                Some(behind) => (true, behind),
                None => (false, behind),
            };
            self.push(Column {
                kind: kind_word(name)?,
                text,
            })?;
            rest = behind;
        }
        Ok(())
    }

    /// Puts a type behind the others.
    fn push(&mut self, column: Column) -> Result<(), Fault> {
        if self.count >= MOST {
            return Err(Fault::Usage);
        }
        self.columns[self.count] = column;
        self.count += 1;
        if column.kind.width() > self.largest.width() {
            self.largest = column.kind;
        }
        Ok(())
    }

    /// The first type, and those below it.
    pub(crate) fn split(&self) -> Result<(Column, Below), Fault> {
        let Some((first, rest)) = self.columns[..self.count.min(MOST)].split_first() else {
            return Err(Fault::Usage);
        };
        match Below::of(rest) {
            Some(below) => Ok((*first, below)),
            None => Err(Fault::Usage),
        }
    }

    /// The bytes of a line, a whole number of values of each type.
    pub(crate) fn width(&self, text: Option<&str>) -> Result<u16, Fault>
        ensures { IfOk result (λ n. (1 ≤ n) × (n ≤ 256)) }
    {
        line_width(text, self.largest)
    }
}

/// The first word with types behind a place, and its own place.
fn word_behind<'m>(m: &'m Given<'_, '_>, place: usize) -> Option<(usize, &'m str)> {
    let mut found = None;
    for (id, word) in &FLAGS {
        if m.get_flag(id) {
            if let Some(at) = m.places_of(id).first() {
                found = earlier(found, *at, word, place);
            }
        }
    }
    let Some(words) = m.get_strs("kind") else {
        return found;
    };
    let places = m.places_of("kind");
    for (at, word) in places.iter().zip(words) {
        found = earlier(found, *at, word, place);
    }
    found
}

/// The one of two words that stands first behind a place.
fn earlier<'m>(
    found: Option<(usize, &'m str)>,
    at: usize,
    word: &'m str,
    place: usize,
) -> Option<(usize, &'m str)> {
    match found {
        _ if at <= place => found,
        Some((first, _)) if first <= at => found,
        _ => Some((at, word)),
    }
}

/// The name of the first type of a word, a letter and perhaps a size, and what stands behind it.
fn first_type(word: &str) -> Result<(&str, &str), Fault> {
    let sized = match word.as_bytes() {
        [_, size, ..] => b"1248CSIL".contains(size),
        _ => false,
    };
    match word.split_at_checked(if sized { 2 } else { 1 }) {
        Some(parts) => Ok(parts),
        None => Err(Fault::Usage),
    }
}

/// The first of some words that isn't one of types, and the last where each is.
pub(crate) fn wrong_type<'a>(words: &[&'a str]) -> &'a str {
    let mut last = "";
    for word in words {
        last = word;
        if !is_types(word) {
            break;
        }
    }
    last
}

/// Whether a word is one of types.
fn is_types(word: &str) -> bool {
    let mut types = Types::new();
    types.push_word(word).is_ok()
}
