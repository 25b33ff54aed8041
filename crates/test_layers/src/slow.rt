//! A file whose calls move a few bytes, are interrupted, or fail at the sync.
ghost use Rattle.std.specs.Prelude.{[]};

use bx_image::{RandomAccess, Stop};

/// A file of 16 bytes that moves three bytes a call, after some interruptions. Where its disk is full, no sync goes through.
#[derive(Drop)]
pub struct Slow {
    bytes: [u8; 16],
    interruptions: u32,
    left: u32,
    is_full: bool,
}

impl Slow {
    /// A file; each of its calls is interrupted this often before it goes through.
    pub fn new(interruptions: u32) -> Self {
        Slow {
            bytes: *b"0123456789abcdef",
            interruptions,
            left: interruptions,
            is_full: false,
        }
    }

    /// A file that is never interrupted, on a full disk.
    pub fn full() -> Self {
        Slow {
            is_full: true,
            ..Slow::new(0)
        }
    }

    fn stop(&mut self) -> Result<(), Stop> {
        if self.left == 0 {
            self.left = self.interruptions;
            return Ok(());
        }
        self.left -= 1;
        Err(Stop::Interrupted)
    }
}

impl RandomAccess for Slow {
    ghost content = { λ _. [] };

    ghost faithful = { λ _. ⊥ };

    ghost survives = { λ _ _. ⊥ };

    ghost within = { λ f faithful. absurd faithful };

    ghost present = { λ f faithful. absurd faithful };

    fn size(&mut self) -> Result<u64, Stop> {
        self.stop()?;
        Ok(16)
    }

    fn read_some(&mut self, at: u64, buf: &mut [u8]) -> Result<usize, Stop> {
        self.stop()?;
        let count = buf.len().min(3);
        if at > 16 - count as u64 {
            return Ok(0);
        }
        let start = at as usize;
        buf[..count].copy_from_slice(&self.bytes[start..start + count]);
        Ok(count)
    }

    fn write_some(&mut self, at: u64, bytes: &[u8]) -> Result<usize, Stop> {
        self.stop()?;
        let count = bytes.len().min(3);
        if at > 16 - count as u64 {
            return Ok(0);
        }
        let start = at as usize;
        self.bytes[start..start + count].copy_from_slice(&bytes[..count]);
        Ok(count)
    }

    fn resize(&mut self, n: u64) -> Result<(), Stop> {
        self.stop()?;
        if n == 16 { Ok(()) } else { Err(Stop::Failed) }
    }

    fn sync(&mut self) -> Result<(), Stop> {
        self.stop()?;
        if self.is_full {
            Err(Stop::Failed)
        } else {
            Ok(())
        }
    }
}
