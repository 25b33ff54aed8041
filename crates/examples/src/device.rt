//! A device of one's own, which meets the contract of `Device`: bx_image.
ghost use Rattle.std.specs.Prelude.{◌≡◌, ◌+◌, ◌<◌, ◌≤◌, length, vec_capacity, refl};
ghost use Rattle.bx_image.specs.Image.{place};

use crate::journal::session_on;
use anyhow::Result;
use bx_image::{Device, DeviceFailed, NoMemory};
use bx_journal::MemText;
use std::alloc::{AllocError, Allocator, Global};
use std::io::{self, Write};

/// An image on a chip of `size` bytes, whose memory is taken once. It never fails, and counts the bytes that were written.
#[derive(Drop)]
pub struct Chip<A: Allocator = Global> {
    bytes: Vec<u8, A>,
    size: u64,
    written: u64,
    ghost fits: { length bytes.items ≤ size },
    ghost taken: { size ≤ vec_capacity bytes },
}

impl<A: Allocator> Chip<A> {
    /// An empty image, which can grow up to `size` bytes.
    pub fn new(alloc: A, size: u64) -> Result<Self, AllocError> {
        Ok(Chip {
            bytes: Vec::with_capacity(alloc, size as usize)?,
            size,
            written: 0,
        })
    }
}

impl<A: Allocator> Device for Chip<A> {
    ghost image = { λ c. c.bytes.items };

    ghost faithful = { λ _. Unit {0} };

    ghost room = { λ c. c.size };

    ghost failures = { λ _. 0 };

    ghost survives = { λ c x. x ≡ c.bytes.items };

    ghost within_room = { λ c _. c.fits };

    ghost present = { λ _ _. refl };

    fn len(&mut self) -> Result<u64, DeviceFailed> {
        Ok(self.bytes.len() as u64)
    }

    fn read_at(&mut self, at: u64, buf: &mut [u8]) -> Result<(), DeviceFailed> {
        let start = at as usize;
        let end = start + buf.len();
        buf.copy_from_slice(&self.bytes[start..end]);
        Ok(())
    }

    fn write_at(&mut self, at: u64, bytes: &[u8]) -> Result<(), DeviceFailed> {
        if bytes.is_empty() {
            return Ok(());
        }
        let start = at as usize;
        let end = start + bytes.len();
        if self.bytes.len() < end {
            self.bytes.resize(end, 0).unwrap();
        }
        overwrite(self.bytes.as_mut_slice(), start, bytes);
        self.written = self.written.saturating_add(bytes.len() as u64);
        Ok(())
    }

    fn set_len(&mut self, n: u64) -> Result<(), DeviceFailed> {
        self.bytes.resize(n as usize, 0).unwrap();
        Ok(())
    }

    fn sync(&mut self) -> Result<(), DeviceFailed> {
        Ok(())
    }

    fn reserve(&mut self, n: u64) -> Result<(), NoMemory> {
        if n <= self.size {
            Ok(())
        } else {
            Err(NoMemory)
        }
    }

    fn reserved(&self) -> u64 {
        self.size
    }

    fn faults(&self) -> u64 {
        0
    }
}

fn overwrite(image: &mut [u8], at: usize, bytes: &[u8])
    requires { at + length bytes.now ≤ length image.old }
    ensures { image.new ≡ place image.old at bytes.now }
{
    image[at..at + bytes.len()].copy_from_slice(bytes);
}

/// A chip of 12 bytes with an image.
fn flashed(alloc: Global, image: &[u8]) -> Result<Chip> {
    let mut chip = Chip::new(alloc, 12)?;
    if chip.reserve(image.len() as u64).is_ok() {
        chip.write_at(0, image)?;
    }
    Ok(chip)
}

pub fn show<R: Print + AllocGlobal>(rt: &R) -> Result<()> {
    let image = flashed(rt.alloc(), b"firmware\n")?;
    let journal = MemText::new(rt.alloc());
    let redo_text = MemText::new(rt.alloc());
    let (image, _, _) = session_on(rt.alloc(), image, journal, redo_text)?;
    io::writer(rt).write_all(image.bytes.as_slice())?;
    println!(rt; "{} bytes written", image.written)?;
    Ok(())
}
