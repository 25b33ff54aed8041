//! An image that a world in memory lends.
ghost use Rattle.std.specs.Prelude.{◌≡◌, ◌⊎◌, ◌+◌, ◌<◌, ◌≤◌, length, vec_capacity, refl};
ghost use Rattle.std.proofs.Common.{inl};
ghost use Rattle.bx_image.specs.Image.{place};
ghost use Rattle.bx_image.specs.Memory.{within_capacity};

use crate::memory::files::Contents;
use bx_image::{Device, DeviceFailed, NoMemory};
use std::alloc::Global;

/// The bytes of an image, and those of its disk, each in one vector. It is always faithful, and fails only where a sync gets no
/// memory. A loss of power leaves all that was written, or what was synced.
#[derive(Drop)]
pub struct LentImage {
    contents: Contents,
    alloc: Global,
    failures: u64,
}

impl LentImage {
    /// The image of these contents.
    pub fn new(alloc: Global, contents: Contents) -> Self
        ensures { result ≡ record { contents = contents; alloc = alloc; failures = 0 } }
    {
        LentImage {
            contents,
            alloc,
            failures: 0,
        }
    }

    /// What the image has, and what is on its disk.
    pub fn into_contents(self) -> Contents
        ensures { result ≡ self.contents }
    {
        self.contents
    }
}

impl Device for LentImage {
    ghost image = { λ m. m.contents.bytes.items };

    ghost faithful = { λ _. Unit {0} };

    ghost room = { λ m. vec_capacity m.contents.bytes };

    ghost failures = { λ m. m.failures };

    ghost survives = { λ m c. (c ≡ m.contents.bytes.items) ⊎ (c ≡ m.contents.synced.items) };

    ghost within_room = { λ m _. within_capacity m.contents.bytes };

    ghost present = { λ m _. inl refl };

    fn len(&mut self) -> Result<u64, DeviceFailed> {
        Ok(self.contents.bytes.len() as u64)
    }

    fn read_at(&mut self, at: u64, buf: &mut [u8]) -> Result<(), DeviceFailed> {
        let start = at as usize;
        let end = start + buf.len();
        buf.copy_from_slice(&self.contents.bytes[start..end]);
        Ok(())
    }

    fn write_at(&mut self, at: u64, bytes: &[u8]) -> Result<(), DeviceFailed> {
        if bytes.is_empty() {
            return Ok(());
        }
        let start = at as usize;
        let end = start + bytes.len();
        if self.contents.bytes.len() < end {
            self.contents.bytes.resize(end, 0).unwrap();
        }
        overwrite(self.contents.bytes.as_mut_slice(), start, bytes);
        Ok(())
    }

    fn set_len(&mut self, n: u64) -> Result<(), DeviceFailed> {
        self.contents.bytes.resize(n as usize, 0).unwrap();
        Ok(())
    }

    fn sync(&mut self) -> Result<(), DeviceFailed> {
        match Vec::from_slice(self.alloc, self.contents.bytes.as_slice()) {
            Ok(synced) => {
                self.contents.synced = synced;
                Ok(())
            }
            Err(_) => {
                self.failures += 1;
                Err(DeviceFailed)
            }
        }
    }

    fn reserve(&mut self, n: u64) -> Result<(), NoMemory> {
        let n = n as usize;
        if n > self.contents.bytes.capacity() {
            let more = n - self.contents.bytes.len();
            self.contents.bytes.reserve(more).map_err(|_| NoMemory)?;
        }
        Ok(())
    }

    fn reserved(&self) -> u64 {
        self.contents.bytes.capacity() as u64
    }

    fn faults(&self) -> u64 {
        self.failures
    }
}

fn overwrite(image: &mut [u8], at: usize, bytes: &[u8])
    requires { at + length bytes.now ≤ length image.old }
    ensures { image.new ≡ place image.old at bytes.now }
{
    image[at..at + bytes.len()].copy_from_slice(bytes);
}
