//! A text that a world in memory lends.
ghost use Rattle.std.specs.Prelude.{◌≡◌, ◌⊎◌, ◌<◌, ◌^◌, vec_capacity, refl};
ghost use Rattle.std.proofs.Common.{inl};

use crate::memory::files::Contents;
use bx_journal_store::{DeviceFailed, MOST, NoMemory, TextFault, TextStore};
use std::alloc::{Allocator, Global};

/// The bytes of a text, and those of its disk, each in one vector. It is always faithful, and fails only where a sync gets no
/// memory. A loss of power leaves all that was written, or what was synced.
#[derive(Drop)]
pub struct LentText {
    contents: Contents,
    alloc: Global,
    failures: u64,
}

impl LentText {
    /// The text of these contents.
    pub fn new(alloc: Global, contents: Contents) -> Self
        ensures { result ≡ record { contents = contents; alloc = alloc; failures = 0 } }
    {
        LentText {
            contents,
            alloc,
            failures: 0,
        }
    }

    /// What the text has, and what is on its disk.
    pub fn into_contents(self) -> Contents
        ensures { result ≡ self.contents }
    {
        self.contents
    }
}

impl TextStore for LentText {
    ghost text = { λ m. m.contents.bytes.items };

    ghost faithful = { λ _. Unit {0} };

    ghost room = { λ m. vec_capacity m.contents.bytes };

    ghost failures = { λ m. m.failures };

    ghost survives = { λ m c. (c ≡ m.contents.bytes.items) ⊎ (c ≡ m.contents.synced.items) };

    ghost empties_at_once = { Unit {0} };

    ghost present = { λ m _. inl refl };

    fn len(&mut self) -> Result<u64, DeviceFailed> {
        Ok(self.contents.bytes.len() as u64)
    }

    fn read_all<B: Allocator>(&mut self, alloc: B) -> Result<Vec<u8, B>, TextFault> {
        Ok(Vec::from_slice(alloc, self.contents.bytes.as_slice())?)
    }

    fn read_at(&mut self, at: u64, buf: &mut [u8]) -> Result<(), DeviceFailed> {
        let start = at as usize;
        let end = start + buf.len();
        buf.copy_from_slice(&self.contents.bytes[start..end]);
        Ok(())
    }

    fn append(&mut self, bytes: &[u8]) -> Result<(), DeviceFailed> {
        self.contents
            .bytes
            .extend_from_slice(bytes)
            .map_err(|_| DeviceFailed)
    }

    fn cut(&mut self, n: u64) -> Result<(), DeviceFailed> {
        self.contents.bytes.truncate(n as usize);
        Ok(())
    }

    fn sync(&mut self) -> Result<(), DeviceFailed> {
        match Vec::from_slice(self.alloc, self.contents.bytes.as_slice()) {
            Ok(synced) => {
                self.contents.synced = synced;
                Ok(())
            }
            Err(_) => {
                self.failures += 1;
                Err(DeviceFailed)
            }
        }
    }

    fn reserve(&mut self, n: u64) -> Result<(), NoMemory> {
        if n > MOST {
            return Err(NoMemory);
        }
        let n = n as usize;
        if n > self.contents.bytes.capacity() {
            let more = n - self.contents.bytes.len();
            self.contents.bytes.reserve(more).map_err(|_| NoMemory)?;
        }
        Ok(())
    }

    fn reserved(&self) -> u64 {
        self.contents.bytes.capacity() as u64
    }

    fn faults(&self) -> u64 {
        self.failures
    }
}
