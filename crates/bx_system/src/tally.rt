//! How much went out.
use std::io;
use std::io::Write;

/// A writer that counts the bytes that it took, and keeps the system's number of its last error.
#[derive(Drop)]
pub struct Tally<W> {
    out: W,
    pub written: u64,
    pub error: Option<i32>,
}

impl<W: Write> Tally<W> {
    /// A tally of `out`, which took no byte yet.
    pub fn new(out: W) -> Tally<W> {
        Tally {
            out,
            written: 0,
            error: None,
        }
    }
}

impl<W: Write> Write for Tally<W> {
    fn write(&mut self, buf: &[u8]) -> io::Result<usize> {
        let outcome = self.out.write(buf);
        match &outcome {
            Ok(n) => self.written = self.written.saturating_add(*n as u64),
            Err(error) => self.error = error.raw_os_error(),
        }
        outcome
    }

    fn flush(&mut self) -> io::Result<()> {
        self.out.flush()
    }
}
