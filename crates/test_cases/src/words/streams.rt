//! Readers and writers that do something at one of their calls.
use std::alloc::Global;
use std::io::{self, ErrorKind, Read, Write};

/// What a reader or writer does at one call.
#[derive(Clone, Copy, Debug, PartialEq, Eq)]
pub enum Act {
    Fail,
    /// It gives or takes nothing.
    Nothing,
    Interrupt,
    /// It gives or takes half.
    Half,
}

/// The call at which something happens.
#[derive(Clone, Copy)]
pub struct Turn {
    pub act: Act,
    left: u32,
    pub is_over: bool,
}

impl Turn {
    /// One that comes behind `left` calls.
    pub const fn new(act: Act, left: u32) -> Self {
        Turn {
            act,
            left,
            is_over: false,
        }
    }

    /// One that never comes.
    pub const fn never() -> Self {
        Turn {
            act: Act::Half,
            left: 0,
            is_over: true,
        }
    }

    /// What happens at this call.
    fn now(&mut self) -> Option<Act> {
        if self.is_over {
            return None;
        }
        if self.left > 0 {
            self.left -= 1;
            return None;
        }
        self.is_over = true;
        Some(self.act)
    }
}

/// A reader that gives at most `each` bytes a call.
#[derive(Drop)]
pub struct Input<'a> {
    rest: &'a [u8],
    each: usize,
    pub turn: Turn,
    /// How many bytes it gave.
    pub given: usize,
}

impl<'a> Input<'a> {
    pub const fn new(rest: &'a [u8], each: usize, turn: Turn) -> Self {
        Input {
            rest,
            each,
            turn,
            given: 0,
        }
    }
}

impl Read for Input<'_> {
    fn read(&mut self, buf: &mut [u8]) -> io::Result<usize> {
        let mut count = buf.len().min(self.each).min(self.rest.len());
        match self.turn.now() {
            None => {}
            Some(Act::Fail) => return Err(io::Error::from(ErrorKind::Other)),
            Some(Act::Interrupt) => return Err(io::Error::from(ErrorKind::Interrupted)),
            Some(Act::Nothing) => {
                self.rest = b"";
                return Ok(0);
            }
            Some(Act::Half) => count -= count / 2,
        }
        let (now, later) = self.rest.split_at(count);
        buf[..count].copy_from_slice(now);
        self.rest = later;
        self.given = self.given.saturating_add(count);
        Ok(count)
    }
}

/// A writer that takes at most `each` bytes a call.
#[derive(Drop)]
pub struct Output {
    pub taken: Vec<u8>,
    each: usize,
    pub turn: Turn,
}

impl Output {
    pub fn new(alloc: Global, each: usize, turn: Turn) -> Self {
        Output {
            taken: Vec::new(alloc),
            each,
            turn,
        }
    }
}

impl Write for Output {
    fn write(&mut self, buf: &[u8]) -> io::Result<usize> {
        let mut count = buf.len().min(self.each);
        match self.turn.now() {
            None => {}
            Some(Act::Fail) => return Err(io::Error::from(ErrorKind::Other)),
            Some(Act::Interrupt) => return Err(io::Error::from(ErrorKind::Interrupted)),
            Some(Act::Nothing) => return Ok(0),
            Some(Act::Half) => count -= count / 2,
        }
        self.taken.write(&buf[..count])
    }

    // No dump flushes: one that did would lose what it wrote.
    fn flush(&mut self) -> io::Result<()> {
        self.taken.clear();
        Err(io::Error::from(ErrorKind::Other))
    }
}
