//! What the words behind a subcommand give it.
use crate::options::Verb;
use bx_text::Words;
use clap::ArgMatches;

/// What the parser read of the words, or an operand that stands alone: a word that is no option needs no parser.
#[derive(Clone, Copy)]
pub enum Given<'m, 'a> {
    /// All that they are.
    Read(&'m ArgMatches<'a>),
    /// The operand of this identifier.
    Alone {
        /// As the parser knows it.
        id: &'static str,
        /// The operand.
        text: &'m str,
    },
}

impl<'m> Given<'m, 'm> {
    /// What a subcommand and one word behind it give, where that is its operand.
    pub fn alone(words: &'m Words) -> Option<(Verb, Given<'m, 'm>)> {
        // The parser's options would cost more page faults than a small dump.
        if words.len() != 2 {
            return None;
        }
        let verb = Verb::of(words.get(0)?)?;
        let id = verb.operand()?;
        let text = words.get(1)?;
        if text.is_empty() || text.starts_with('-') {
            return None;
        }
        Some((verb, Given::Alone { id, text }))
    }
}

impl Given<'_, '_> {
    /// The value that was given.
    pub fn get_str(&self, id: &str) -> Option<&str> {
        match self {
            Given::Read(matches) => matches.get_str(id),
            Given::Alone { id: own, text } if *own == id => Some(*text),
            Given::Alone { .. } => None,
        }
    }

    /// All values that were given.
    pub fn get_strs(&self, id: &str) -> Option<&[&str]> {
        match self {
            Given::Read(matches) => matches.get_strs(id),
            Given::Alone { .. } => None,
        }
    }

    /// Their places among the words, from 1.
    pub fn places_of(&self, id: &str) -> &[usize] {
        match self {
            Given::Read(matches) => matches.indices_of(id).unwrap_or(&[]),
            Given::Alone { .. } => &[],
        }
    }

    /// How often the option was given.
    pub fn get_count(&self, id: &str) -> u8 {
        match self {
            Given::Read(matches) => matches.get_count(id),
            Given::Alone { .. } => 0,
        }
    }

    /// Whether the option was given.
    pub fn get_flag(&self, id: &str) -> bool {
        match self {
            Given::Read(matches) => matches.get_flag(id),
            Given::Alone { .. } => false,
        }
    }
}
