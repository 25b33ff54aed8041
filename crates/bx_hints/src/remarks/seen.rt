//! What is seen of a dump while it is read, for the hints behind a revert.
use crate::remarks::beside::unlike_line;
use std::alloc::Global;
use std::io::{self, Read};

/// The most bytes of a line that are looked at: an address, 256 pairs and the characters beside them have fewer.
const MOST_LINE: usize = 4096;

/// What was seen of a dump so far. Nothing is looked at where no hints are written.
#[derive(Drop)]
pub struct Seen {
    hints: bool,
    plain: bool,
    // the line that isn't whole yet, and how many stand before it
    line: Vec<u8>,
    passed: u64,
    // the first line whose characters aren't those of its bytes
    unlike: Option<u64>,
    // the last byte of the first line so far, and whether that line is whole
    last: u8,
    has_newline: bool,
    /// Whether the first line ends in CR LF.
    pub has_returns: bool,
}

impl Seen {
    /// Nothing was seen yet.
    pub fn new(alloc: Global, hints: bool, plain: bool) -> Seen {
        Seen {
            hints,
            plain,
            line: Vec::new(alloc),
            passed: 0,
            unlike: None,
            last: 0,
            has_newline: false,
            has_returns: false,
        }
    }

    /// Looks at the bytes that come next.
    fn look(&mut self, bytes: &[u8]) {
        if !self.hints {
            return;
        }
        self.look_at_returns(bytes);
        if !self.plain && self.unlike.is_none() {
            self.look_at_lines(bytes);
        }
    }

    /// Looks whether the first line ends in CR LF.
    fn look_at_returns(&mut self, bytes: &[u8]) {
        if self.has_newline {
            return;
        }
        let line = bytes.split(|byte| *byte == b'\n').next().unwrap_or(bytes);
        self.last = line.last().copied().unwrap_or(self.last);
        self.has_newline = line.len() < bytes.len();
        self.has_returns = self.has_newline && self.last == b'\r';
    }

    /// Looks at the lines that end in these bytes, and holds what stands behind the last of them.
    fn look_at_lines(&mut self, bytes: &[u8]) {
        for (place, part) in bytes.split(|byte| *byte == b'\n').enumerate() {
            if place > 0 {
                self.look_at_line();
            }
            self.hold(part);
        }
    }

    /// Holds bytes of a line, as far as it may be a dump's. Where memory is refused, nothing more is looked at.
    fn hold(&mut self, bytes: &[u8]) {
        let room = MOST_LINE.saturating_sub(self.line.len());
        if self
            .line
            .extend_from_slice(&bytes[..bytes.len().min(room)])
            .is_err()
        {
            self.plain = true;
        }
    }

    /// Looks at the line that is held, which ends here.
    fn look_at_line(&mut self) {
        self.passed = self.passed.saturating_add(1);
        if self.unlike.is_none() && unlike_line(self.line.as_slice()).is_some() {
            self.unlike = Some(self.passed);
        }
        self.line.clear();
    }

    /// The first line whose characters aren't those of its bytes, once the dump is at its end.
    pub fn unlike(mut self) -> Option<u64> {
        if self.plain {
            return None;
        }
        self.look_at_line();
        self.unlike
    }
}

/// A reader that shows what it reads.
#[derive(Drop)]
pub struct Watched<'a, I> {
    input: I,
    seen: &'a mut Seen,
}

impl<'a, I: Read> Watched<'a, I> {
    /// A reader of an input.
    pub fn new(input: I, seen: &'a mut Seen) -> Watched<'a, I> {
        Watched { input, seen }
    }
}

impl<I: Read> Read for Watched<'_, I> {
    fn read(&mut self, buf: &mut [u8]) -> io::Result<usize> {
        let outcome = self.input.read(buf);
        if let Ok(count) = &outcome {
            self.seen.look(&buf[..*count]);
        }
        outcome
    }
}
