//! That a loss of power may take from a faithful device, and from a faithful store, what was written.
ghost use Rattle.std.specs.Prelude.{◌≡◌, ◌+◌, ◌^◌, ◌<◌, ◌++◌, List, ℕ, length, IfSome};
ghost use Rattle.bx_image.specs.Image.{place};
ghost use Rattle.bx_image.specs.Power.{NoMore};
ghost use Rattle.test_cache.specs.Cached.{MayBeFound, MayBeResized, MayBeWritten};
ghost use Rattle.test_cache.specs.declared.unsynced.Unsynced.{Unsynced};

use crate::CachedFile;
use bx_image::{Device, FileImage, RandomAccess, Stop};
use bx_journal_store::{FileText, TextStore};
use std::alloc::Global;

/// An image to which bytes were written, without a sync: it is faithful, and both what it had and what it has may be found.
pub fn written_image(
    alloc: Global,
    old: &[u8],
    at: u64,
    bytes: &[u8],
) -> Option<FileImage<CachedFile>>
    requires { at + length bytes.now < 2 ^ 64 }
    ensures faithful { IfSome result (λ d. ⟦<FileImage<CachedFile> as Device>⟧.faithful d) }
    ensures image { IfSome result (λ d. ⟦<FileImage<CachedFile> as Device>⟧.image d ≡ place old.now at bytes.now) }
    ensures kept { IfSome result (λ d. ⟦<FileImage<CachedFile> as Device>⟧.survives d (place old.now at bytes.now)) }
    ensures lost { IfSome result (λ d. ⟦<FileImage<CachedFile> as Device>⟧.survives d old.now) }
{
    let mut file = CachedFile::new(alloc, old).ok()?;
    file.write(at, bytes).ok()?;
    Some(FileImage::new(file))
}

/// A text to which bytes were added, without a sync: it is faithful, and both what it had and what it has may be found.
pub fn appended_text(alloc: Global, old: &[u8], bytes: &[u8]) -> Option<FileText<CachedFile>>
    requires { length old.now + length bytes.now < 2 ^ 64 }
    ensures faithful { IfSome result (λ t. ⟦<FileText<CachedFile> as TextStore>⟧.faithful t) }
    ensures text { IfSome result (λ t. ⟦<FileText<CachedFile> as TextStore>⟧.text t ≡ old.now ++ bytes.now) }
    ensures kept { IfSome result (λ t. ⟦<FileText<CachedFile> as TextStore>⟧.survives t (old.now ++ bytes.now)) }
    ensures lost { IfSome result (λ t. ⟦<FileText<CachedFile> as TextStore>⟧.survives t old.now) }
{
    let mut file = CachedFile::new(alloc, old).ok()?;
    file.write(old.len() as u64, bytes).ok()?;
    Some(FileText::new(file))
}

/// Writes to a file. Where it had no more to be found than a file behind a cache of the same content, it has no more now than
/// that one behind the same write: so no faithful file loses more.
pub fn write_loses_no_more<F: RandomAccess>(
    file: &mut F,
    at: u64,
    bytes: &[u8],
) -> Result<usize, Stop>
    requires { at + length bytes.now < 2 ^ 64 }
    ensures { F.faithful file.old → (synced : List ℕ) (earlier : List Unsynced) → NoMore (MayBeFound synced earlier) (F.survives file.old)
        → NoMore (MayBeWritten at bytes.now (F.content file.old) (MayBeFound synced earlier)) (F.survives file.new) }
{
    file.write_some(at, bytes)
}

/// Gives a file a length. What is said of a write holds of this too.
pub fn resize_loses_no_more<F: RandomAccess>(file: &mut F, n: u64) -> Result<(), Stop>
    ensures { F.faithful file.old → (synced : List ℕ) (earlier : List Unsynced) → NoMore (MayBeFound synced earlier) (F.survives file.old)
        → NoMore (MayBeResized n (F.content file.old) (MayBeFound synced earlier)) (F.survives file.new) }
{
    file.resize(n)
}
