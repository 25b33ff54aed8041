//! Copies of files, which a world in memory lends to be read.
ghost use Rattle.std.specs.Prelude.{◌≡◌, [], IfSome};
ghost use Rattle.test_world.specs.MemoryFiles.{bytes_at, synced_at};

use crate::memory::files::{Contents, Stored, copy_of_bytes, copy_of_disk};
use std::alloc::Global;

/// Nothing, as of a file that is missing.
pub fn nothing(alloc: Global) -> Contents
    ensures { result.bytes.items ≡ [] }
{
    Contents {
        bytes: Vec::new(alloc),
        synced: Vec::new(alloc),
    }
}

/// A copy of what a file has; none where a growth is refused.
pub fn copy_of(alloc: Global, files: &[Stored], number: usize) -> Option<Contents>
    ensures { IfSome result (λ c. c.bytes.items ≡ bytes_at files.now number) }
{
    match copy_of_bytes(alloc, files, number) {
        Ok(bytes) => Some(Contents {
            bytes,
            synced: Vec::new(alloc),
        }),
        Err(_) => None,
    }
}

/// A copy of what a file has, and of what is on its disk; none where a growth is refused.
pub fn whole_copy_of(alloc: Global, files: &[Stored], number: usize) -> Option<Contents>
    ensures bytes { IfSome result (λ c. c.bytes.items ≡ bytes_at files.now number) }
    ensures synced { IfSome result (λ c. c.synced.items ≡ synced_at files.now number) }
{
    match (
        copy_of_bytes(alloc, files, number),
        copy_of_disk(alloc, files, number),
    ) {
        (Ok(bytes), Ok(synced)) => Some(Contents { bytes, synced }),
        (Err(_), _) | (_, Err(_)) => None,
    }
}
