//! Output with a label in front of each line.
use bx_cli_commands::push_labelled;
use bx_text::emit;
use std::alloc::Global;
use std::io::{self, ErrorKind, Write};

/// A writer that hands on what it is given with a label in front of each line.
#[derive(Drop)]
pub struct Labelled<'a, W> {
    out: &'a mut W,
    label: String,
    page: Vec<u8>,
    // whether a line begins with what is given next
    begins: bool,
}

impl<'a, W: Write> Labelled<'a, W> {
    /// A writer to `out`, where a line begins.
    pub fn new(alloc: Global, out: &'a mut W, label: String) -> Labelled<'a, W> {
        Labelled {
            out,
            label,
            page: Vec::new(alloc),
            begins: true,
        }
    }
}

impl<W: Write> Write for Labelled<'_, W> {
    fn write(&mut self, buf: &[u8]) -> io::Result<usize> {
        self.page.clear();
        let label = self.label.as_str().as_bytes();
        match push_labelled(&mut self.page, label, self.begins, buf) {
            Ok(begins) => self.begins = begins,
            Err(_) => return Err(io::Error::from(ErrorKind::OutOfMemory)),
        }
        match emit(self.out, self.page.as_slice()) {
            Ok(()) => Ok(buf.len()),
            Err(_) => Err(io::Error::from(ErrorKind::Other)),
        }
    }

    fn flush(&mut self) -> io::Result<()> {
        Ok(())
    }
}
