//! An input that a world in memory lends.
ghost use Rattle.std.specs.Prelude.{◌≡◌, ◌≤◌, Some, drop, length};

use bx_image::Fuse;
use std::io::{self, ErrorKind, Read};

/// A copy of a file's bytes, which are read one after another. A read fails where its fuse blows, and takes nothing.
#[derive(Drop)]
pub struct LentInput {
    bytes: Vec<u8>,
    at: usize,
    reads: Fuse,
    ghost within: { at ≤ length bytes.items },
}

impl LentInput {
    /// The bytes behind the first `at` of them, whose reads fail as this fuse does.
    pub fn new(bytes: Vec<u8>, at: usize, reads: Fuse) -> Self
        requires { at ≤ length bytes.items }
        ensures { ⟦<LentInput as Read>⟧.remaining result ≡ Some (drop at bytes.items) }
    {
        LentInput { bytes, at, reads }
    }
}

impl Read for LentInput {
    ghost remaining = { λ r. Some (drop r.at r.bytes.items) };

    fn read(&mut self, buf: &mut [u8]) -> io::Result<usize> {
        if self.reads.blows() {
            return Err(io::Error::from(ErrorKind::Other));
        }
        let count = buf.len().min(self.bytes.len() - self.at);
        let end = self.at + count;
        buf[..count].copy_from_slice(&self.bytes[self.at..end]);
        self.at = end;
        Ok(count)
    }
}
