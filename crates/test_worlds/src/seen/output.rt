//! An output whose writes may fail.
use bx_image::Fuse;
use std::alloc::Global;
use std::io::{self, ErrorKind, Write};

/// An output. A write fails where its fuse blows, and nothing of it goes out.
#[derive(Drop)]
pub struct Output {
    /// What went out.
    pub taken: Vec<u8>,
    writes: Fuse,
}

impl Output {
    pub fn new(alloc: Global, writes: Fuse) -> Self {
        Output {
            taken: Vec::new(alloc),
            writes,
        }
    }
}

impl Write for Output {
    fn write(&mut self, buf: &[u8]) -> io::Result<usize> {
        if self.writes.blows() {
            return Err(io::Error::from(ErrorKind::Other));
        }
        self.taken.write(buf)
    }

    fn flush(&mut self) -> io::Result<()> {
        Ok(())
    }
}
