//! Texts that are owned.
ghost use Rattle.std.specs.Prelude.{◌≡◌, ◌∷◌, ◌++◌, [], List, ℕ, length, OnOk, OnErr, slice_get, string_bytes};
ghost use Rattle.std.specs.Option.{option_copied};

use crate::NoMemory;
use std::alloc::{Allocator, Global};
use std::marker::Model;

/// A text.
#[derive(Drop)]
pub struct Name<A: Allocator = Global> {
    text: String<A>,
}

impl<A: Allocator> Model for Name<A> {
    ghost use Rattle.std.specs.Prelude.{List, ℕ, string_bytes};

    ghost Value = { List ℕ };

    ghost view = { λ n. string_bytes n.text };
}

impl<A: Allocator> Name<A> {
    /// The text of the string.
    pub fn from_string(text: String<A>) -> Self
        ensures { result ≡ string_bytes text }
    {
        Name { text }
    }

    /// The whole text.
    pub fn as_str(&self) -> &str
        ensures { result.now ≡ self.now }
    {
        self.text.as_str()
    }
}

/// A list of texts.
#[derive(Drop)]
pub struct Words<A: Allocator = Global> {
    items: Vec<Name<A>, A>,
}

impl<A: Allocator> Model for Words<A> {
    ghost use Rattle.std.specs.Prelude.{List, ℕ};

    ghost Value = { List (List ℕ) };

    ghost view = { λ w. w.items.items };
}

impl<A: Allocator + Clone> Words<A> {
    /// No words yet. It takes no memory.
    pub fn new(alloc: A) -> Self
        ensures { result ≡ [] }
    {
        Words {
            items: Vec::new(alloc),
        }
    }

    /// Puts a word last.
    pub fn push(&mut self, word: &str) -> Result<(), NoMemory>
        ensures ok { OnOk result (self.new ≡ self.old ++ word.now ∷ []) }
        ensures err { OnErr result (self.new ≡ self.old) }
    {
        let alloc = self.items.allocator().clone().map_err(|_| NoMemory)?;
        let text = String::from_str(alloc, word).map_err(|_| NoMemory)?;
        self.items.push(Name { text }).map_err(|_| NoMemory)?;
        Ok(())
    }
}

impl<A: Allocator> Words<A> {
    /// How many words there are.
    pub fn len(&self) -> usize
        ensures { result ≡ length self.now }
    {
        self.items.len()
    }

    /// The word at a place, counted from 0; none past the last.
    pub fn get(&self, i: usize) -> Option<&str>
        ensures { option_copied result ≡ slice_get self.now i }
    {
        Some(self.items.get(i)?.as_str())
    }
}
