//! Several files as one input.
use crate::faults::show_passed;
use crate::streams::input::Reader;
use bx_cli::Fault;
use bx_hints::{STANDARD_INPUT, Stopped};
use bx_system::System;
use bx_text::{IoFault, Words};
use std::fs::File;
use std::io::{self, ErrorKind, Read};

/// Files that are read one after another, each to its end. One that isn't opened or read is said, and left out.
#[derive(Drop)]
pub struct Chained<'a, R: System> {
    rt: &'a R,
    names: &'a Words,
    hints: bool,
    // the place of the next one
    next: usize,
    // none where the next one is opened first
    open: Option<Reader<R::Reader>>,
    /// Whether one was left out.
    pub missed: bool,
}

impl<'a, R: System> Chained<'a, R> {
    /// Files of these names, none of them read yet; `-` is standard input. Hints on those that are left out are written where `hints`.
    pub fn new(rt: &'a R, names: &'a Words, hints: bool) -> Chained<'a, R> {
        Chained {
            rt,
            names,
            hints,
            next: 0,
            open: None,
            missed: false,
        }
    }

    /// Opens the next of the files that can be opened, and answers whether there is one.
    pub fn advance(&mut self) -> bool {
        let names = self.names;
        for place in self.next..names.len() {
            self.next = place.saturating_add(1);
            if self.open_named(names.get(place).unwrap_or("")) {
                return true;
            }
        }
        false
    }

    /// Opens a file, and answers whether it can be opened, which is said where it can't.
    fn open_named(&mut self, name: &str) -> bool {
        if name == "-" {
            self.open = Some(Reader::Standard(self.rt.reader()));
            return true;
        }
        match File::open(self.rt, name) {
            Ok(file) => {
                self.open = Some(Reader::File(file));
                true
            }
            Err(error) => {
                self.miss(Stopped::unopened(name, error));
                false
            }
        }
    }

    /// Says what stopped a file, which is left out from there on.
    fn miss(&mut self, stopped: Stopped<'_>) {
        self.missed = true;
        self.open = None;
        show_passed(self.rt, self.hints, stopped);
    }

    /// The name of the file that is open.
    fn name(&self) -> &'a str {
        match self.names.get(self.next.saturating_sub(1)) {
            Some("-") | None => STANDARD_INPUT,
            Some(name) => name,
        }
    }

    /// What the open file gives; 0 where it is at its end, or none is open.
    fn read_open(&mut self, buf: &mut [u8]) -> io::Result<usize> {
        match &mut self.open {
            Some(reader) => reader.read(buf),
            None => Ok(0),
        }
    }
}

impl<R: System> Read for Chained<'_, R> {
    fn read(&mut self, buf: &mut [u8]) -> io::Result<usize> {
        if buf.is_empty() {
            return Ok(0);
        }
        for _ in 0..=self.names.len() {
            match self.read_open(buf) {
                Ok(0) => {}
                Ok(found) => return Ok(found.min(buf.len())),
                Err(error) if error.kind() == ErrorKind::Interrupted => return Err(error),
                Err(error) => {
                    let fault = Fault::Io(IoFault::ReadFailed);
                    let number = error.raw_os_error();
                    self.miss(Stopped::by(fault, self.name(), number));
                }
            }
            if !self.advance() {
                self.open = None;
                return Ok(0);
            }
        }
        Ok(0)
    }
}
