//! Output that is gathered.
use bx_cli::Fault;
use bx_text::{IoFault, emit_after};
use std::alloc::{AllocError, Global};
use std::io::{self, ErrorKind, Write};

/// How many bytes are gathered before they are written.
const PAGE: usize = 65_536;

/// A writer that gathers bytes, for an output whose every call is one of the system.
#[derive(Drop)]
pub struct Paged<'a, W> {
    out: &'a mut W,
    page: Vec<u8>,
    written: u64,
    // what is put behind the next line, which then ends before its comma
    behind: &'static str,
    /// What stopped it.
    pub stopped: Option<IoFault>,
}

impl<'a, W: Write> Paged<'a, W> {
    /// A writer to `out`, which took no byte yet.
    pub fn new(alloc: Global, out: &'a mut W) -> Paged<'a, W> {
        Paged {
            out,
            page: Vec::new(alloc),
            written: 0,
            behind: "",
            stopped: None,
        }
    }

    /// Has the line that is written next end before its comma, and this text put behind it; neither where the text is empty.
    pub fn put_behind_line(&mut self, text: &'static str) {
        self.behind = text;
    }

    /// Gathers bytes, and behind their first line what is to be put there.
    fn gather(&mut self, bytes: &[u8]) -> Result<(), AllocError> {
        if self.behind.is_empty() {
            return self.page.extend_from_slice(bytes);
        }
        match bytes.iter().position(|byte| *byte == b'\n') {
            Some(end) => {
                let (line, rest) = bytes.split_at(end.min(bytes.len()));
                self.page.extend_from_slice(before_comma(line))?;
                self.page.extend_from_slice(b"\n")?;
                self.page.extend_from_slice(self.behind.as_bytes())?;
                self.behind = "";
                self.page.extend_from_slice(rest.get(1..).unwrap_or(b""))
            }
            None => self.page.extend_from_slice(bytes),
        }
    }

    /// Writes what was gathered.
    ///
    /// # Errors
    /// `WriteFailed` with how many bytes `out` took since the first.
    pub fn put(&mut self) -> Result<(), Fault> {
        let len = self.page.len() as u64;
        // No output has as many bytes: the limit tells the proof that the sum fits.
        let before = self.written.min(u64::MAX - len);
        match emit_after(self.out, before, self.page.as_slice()) {
            Ok(()) => {
                self.written = before + len;
                self.page.clear();
                Ok(())
            }
            Err(fault) => {
                self.stopped = Some(fault);
                Err(Fault::Io(fault))
            }
        }
    }
}

/// What stands of a line before its first comma.
fn before_comma(line: &[u8]) -> &[u8] {
    let end = line
        .iter()
        .position(|byte| *byte == b',')
        .unwrap_or(line.len());
    line.split_at(end.min(line.len())).0
}

impl<W: Write> Write for Paged<'_, W> {
    fn write(&mut self, buf: &[u8]) -> io::Result<usize> {
        if self.page.len() >= PAGE && self.put().is_err() {
            return Err(io::Error::from(ErrorKind::Other));
        }
        match self.gather(buf) {
            Ok(()) => Ok(buf.len()),
            Err(_) => {
                self.stopped = Some(IoFault::NoMemory);
                Err(io::Error::from(ErrorKind::OutOfMemory))
            }
        }
    }

    fn flush(&mut self) -> io::Result<()> {
        Ok(())
    }
}
