//! The lines of a case file, taken one after another.
use crate::bytes::push_parts;
use crate::dump::push_dump;
use crate::entries::Entry;
use crate::fault::{CaseFault, Trouble};
use crate::values::{number, push_words, split_space, text};
use bx_text::Words;
use std::alloc::Global;

/// All lines, how many were taken, and the number of the last one that was.
#[derive(Drop)]
pub struct Cursor<'a> {
    entries: &'a [Entry<'a>],
    taken: usize,
    line: u64,
}

/// Puts the lines of a dump behind the others: the value is the address of the first and the bytes that they show.
fn push_dumped(alloc: Global, bytes: &mut Vec<u8>, entry: Entry<'_>) -> Result<(), CaseFault> {
    let (at, parts) = split_space(entry.value);
    let Some(at) = number(at) else {
        return Err(CaseFault::at(entry.line, Trouble::BadNumber));
    };
    let mut shown = Vec::new(alloc);
    push_parts(alloc, &mut shown, entry.line, parts.unwrap_or(b""))?;
    push_dump(alloc, bytes, at, shown.as_slice())?;
    Ok(())
}

impl<'a> Cursor<'a> {
    /// Before the first line.
    pub fn new(entries: &'a [Entry<'a>]) -> Self {
        Cursor {
            entries,
            taken: 0,
            line: 0,
        }
    }

    /// The number of the last line that was taken.
    pub fn line(&self) -> u64 {
        self.line
    }

    /// The number of the next line, or of the last one where none is left.
    pub fn next_line(&self) -> u64 {
        match self.entries.get(self.taken) {
            Some(entry) => entry.line,
            None => self.line,
        }
    }

    /// The word of the next line.
    pub fn word(&self) -> Option<&'a [u8]> {
        Some(self.entries.get(self.taken)?.word)
    }

    /// How many lines are left.
    pub fn len(&self) -> usize {
        self.entries.len().saturating_sub(self.taken)
    }

    /// The trouble at the last line that was taken.
    pub fn trouble(&self, trouble: Trouble) -> CaseFault {
        CaseFault::at(self.line, trouble)
    }

    /// The trouble at the next line, or at the last one where none is left.
    pub fn next_trouble(&self, trouble: Trouble) -> CaseFault {
        CaseFault::at(self.next_line(), trouble)
    }

    /// Takes the next line, if it has this word.
    fn take(&mut self, word: &[u8]) -> Option<Entry<'a>> {
        let entry = *self.entries.get(self.taken)?;
        if entry.word != word {
            return None;
        }
        self.taken = self.taken.saturating_add(1);
        self.line = entry.line;
        Some(entry)
    }

    /// The value of the next line, if it has this word. It isn't empty.
    pub fn value(&mut self, word: &str) -> Result<Option<&'a [u8]>, CaseFault> {
        match self.take(word.as_bytes()) {
            None => Ok(None),
            Some(entry) if entry.value.is_empty() => {
                Err(CaseFault::at(entry.line, Trouble::MissingValue))
            }
            Some(entry) => Ok(Some(entry.value)),
        }
    }

    /// The value of the next line, which has this word.
    pub fn needed(&mut self, word: &'static str) -> Result<&'a [u8], CaseFault> {
        match self.value(word)? {
            Some(value) => Ok(value),
            None => Err(self.next_trouble(Trouble::MissingLine(word))),
        }
    }

    /// The number of the next line, if it has this word.
    pub fn number(&mut self, word: &str) -> Result<Option<u64>, CaseFault> {
        let Some(value) = self.value(word)? else {
            return Ok(None);
        };
        match number(value) {
            Some(number) => Ok(Some(number)),
            None => Err(self.trouble(Trouble::BadNumber)),
        }
    }

    /// The text of the next line, if it has this word.
    pub fn text(&mut self, alloc: Global, word: &str) -> Result<Option<String>, CaseFault> {
        match self.value(word)? {
            Some(value) => Ok(Some(text(alloc, self.line, value)?)),
            None => Ok(None),
        }
    }

    /// The words of the next line, if it has this word.
    pub fn words(&mut self, alloc: Global, word: &str) -> Result<Option<Words>, CaseFault> {
        let Some(value) = self.value(word)? else {
            return Ok(None);
        };
        let mut words = Words::new(alloc);
        push_words(alloc, &mut words, self.line, value)?;
        Ok(Some(words))
    }

    /// The bytes of the next line and of those that go on with it, if it has this word.
    pub fn bytes(&mut self, alloc: Global, word: &str) -> Result<Option<Vec<u8>>, CaseFault> {
        match self.take(word.as_bytes()) {
            Some(entry) => Ok(Some(self.parts(alloc, entry.value)?)),
            None => Ok(None),
        }
    }

    /// The bytes of a value on the line that was taken, and of the lines that go on with it.
    pub fn parts(&mut self, alloc: Global, value: &[u8]) -> Result<Vec<u8>, CaseFault> {
        let mut bytes = Vec::new(alloc);
        push_parts(alloc, &mut bytes, self.line, value)?;
        let first = self.trouble(Trouble::MissingValue);
        let mut empty = value.is_empty();
        for _ in 0..self.len() {
            if !self.push_more(alloc, &mut bytes)? {
                break;
            }
            empty = false;
        }
        if empty { Err(first) } else { Ok(bytes) }
    }

    /// Puts the bytes of a line that goes on with a value behind the others, if the next one does.
    fn push_more(&mut self, alloc: Global, bytes: &mut Vec<u8>) -> Result<bool, CaseFault> {
        if let Some(entry) = self.take(b"|") {
            bytes.extend_from_slice(entry.value)?;
            bytes.push(b'\n')?;
            return Ok(true);
        }
        if let Some(entry) = self.take(b">") {
            push_dumped(alloc, bytes, entry)?;
            return Ok(true);
        }
        let Some(entry) = self.take(b"+") else {
            return Ok(false);
        };
        if entry.value.is_empty() {
            return Err(self.trouble(Trouble::MissingValue));
        }
        push_parts(alloc, bytes, entry.line, entry.value)?;
        Ok(true)
    }
}
