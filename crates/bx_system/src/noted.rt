//! The system's number of a read that failed.
use std::io::{self, Read};

/// A reader that keeps the system's number of its last error.
#[derive(Drop)]
pub struct Noted<I> {
    input: I,
    /// The number; none where no read failed.
    pub error: Option<i32>,
}

impl<I: Read> Noted<I> {
    /// A reader; no read of it has failed yet.
    pub fn new(input: I) -> Noted<I> {
        Noted { input, error: None }
    }
}

impl<I: Read> Read for Noted<I> {
    fn read(&mut self, buf: &mut [u8]) -> io::Result<usize> {
        let outcome = self.input.read(buf);
        if let Err(error) = &outcome {
            self.error = error.raw_os_error();
        }
        outcome
    }
}
