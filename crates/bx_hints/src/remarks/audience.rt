//! Who reads what the program writes.

/// Which of the standard streams are a terminal's, where a person types and looks.
#[derive(Clone, Copy)]
pub struct Terminals {
    /// Standard input.
    pub input: bool,
    /// Standard output.
    pub output: bool,
    /// Standard error.
    pub errors: bool,
}

/// Whether a person looks at the standard streams, and whether hints are written.
#[derive(Clone, Copy)]
pub struct Audience {
    /// Which streams are terminals.
    pub terminals: Terminals,
    /// Whether hints are written: to a terminal, or where `-v` asks for them.
    pub hints: bool,
}

impl Audience {
    /// Those at these terminals.
    pub fn new(terminals: Terminals) -> Audience {
        Audience {
            terminals,
            hints: terminals.errors,
        }
    }
}

/// Whether a word in front of the command asks for hints wherever standard error leads.
pub fn asks_for_hints(word: &str) -> bool {
    matches!(word, "-v" | "--verbose")
}
