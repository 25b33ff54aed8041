//! A text in memory.
ghost use Rattle.std.specs.Prelude.{◌≡◌, [], vec_capacity, refl};

use crate::{DeviceFailed, MOST, NoMemory, TextFault, TextStore};
use std::alloc::{Allocator, Global};

/// A text in memory, in one vector. It is always faithful and never fails.
#[derive(Drop)]
pub struct MemText<A: Allocator = Global> {
    bytes: Vec<u8, A>,
}

impl<A: Allocator> MemText<A> {
    ghost use Rattle.bx_journal_store.specs.Memory.{memory_text};

    /// The empty text.
    pub fn new(alloc: A) -> Self
        ensures { memory_text result ≡ [] }
    {
        MemText {
            bytes: Vec::new(alloc),
        }
    }

    /// The text of these bytes.
    pub fn from_vec(bytes: Vec<u8, A>) -> Self
        ensures { memory_text result ≡ bytes.items }
    {
        MemText { bytes }
    }

    /// The bytes of the text.
    pub fn as_slice(&self) -> &[u8]
        ensures { result.now ≡ memory_text self.now }
    {
        self.bytes.as_slice()
    }

    /// The bytes that the text had.
    pub fn into_vec(self) -> Vec<u8, A>
        ensures { result.items ≡ memory_text self }
    {
        self.bytes
    }
}

impl<A: Allocator> TextStore for MemText<A> {
    ghost text = { λ m. m.bytes.items };

    ghost faithful = { λ _. Unit {0} };

    ghost room = { λ m. vec_capacity m.bytes };

    ghost failures = { λ _. 0 };

    ghost survives = { λ m c. c ≡ m.bytes.items };

    ghost empties_at_once = { Unit {0} };

    ghost present = { λ m _. refl };

    fn len(&mut self) -> Result<u64, DeviceFailed> {
        Ok(self.bytes.len() as u64)
    }

    fn read_all<B: Allocator>(&mut self, alloc: B) -> Result<Vec<u8, B>, TextFault> {
        Ok(Vec::from_slice(alloc, self.bytes.as_slice())?)
    }

    fn read_at(&mut self, at: u64, buf: &mut [u8]) -> Result<(), DeviceFailed> {
        let start = at as usize;
        let end = start + buf.len();
        buf.copy_from_slice(&self.bytes[start..end]);
        Ok(())
    }

    fn append(&mut self, bytes: &[u8]) -> Result<(), DeviceFailed> {
        self.bytes
            .extend_from_slice(bytes)
            .map_err(|_| DeviceFailed)
    }

    fn cut(&mut self, n: u64) -> Result<(), DeviceFailed> {
        self.bytes.truncate(n as usize);
        Ok(())
    }

    fn sync(&mut self) -> Result<(), DeviceFailed> {
        Ok(())
    }

    fn reserve(&mut self, n: u64) -> Result<(), NoMemory> {
        if n > MOST {
            return Err(NoMemory);
        }
        let n = n as usize;
        if n > self.bytes.capacity() {
            let more = n - self.bytes.len();
            self.bytes.reserve(more).map_err(|_| NoMemory)?;
        }
        Ok(())
    }

    fn reserved(&self) -> u64 {
        self.bytes.capacity() as u64
    }

    fn faults(&self) -> u64 {
        0
    }
}
