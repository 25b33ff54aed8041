//! An input whose reading is a part of long work.
use bx_system::{Counted, Progress, System};
use std::io::{self, Read};

/// A reader whose bytes are counted, in a part of the work that begins with its first read.
#[derive(Drop)]
pub struct Part<'p, 'r, I, R> {
    input: Counted<'p, 'r, I, R>,
    progress: &'p Progress<'r, R>,
    total: Option<u64>,
    has_begun: bool,
}

impl<'p, 'r, I: Read, R: System> Part<'p, 'r, I, R> {
    /// A reader of an input that gives `total` bytes at most, where that is known.
    pub fn new(input: I, total: Option<u64>, progress: &'p Progress<'r, R>) -> Part<'p, 'r, I, R> {
        Part {
            input: Counted::new(input, progress),
            progress,
            total,
            has_begun: false,
        }
    }
}

impl<I: Read, R: System> Read for Part<'_, '_, I, R> {
    fn read(&mut self, buf: &mut [u8]) -> io::Result<usize> {
        if !self.has_begun {
            self.has_begun = true;
            self.progress.begin_reading(self.total);
        }
        self.input.read(buf)
    }
}
