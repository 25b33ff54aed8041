//! A file behind a write-back cache.
ghost use Rattle.std.specs.Prelude.{◌≡◌, ◌↔◌, ◌+◌, ◌-◌, ◌^◌, ◌<◌, ◌≤◌, List, ℕ, ◌∷◌, length, take, drop, min, IfOk, OnOk, OnErr, refl};
ghost use Rattle.std.specs.Io.{WritesAtMost};
ghost use Rattle.bx_image.specs.File.{ResizeLeaves, WriteLeaves};
ghost use Rattle.bx_image.specs.Image.{cut, place};
ghost use Rattle.bx_image.specs.Power.{FadesBehind, FadesFrom, Follows, KeepsBelow, KeepsOutside, Only};
ghost use Rattle.test_cache.specs.Cached.{content_of};

use crate::unsynced::Unsynced;
use bx_image::{RandomAccess, Stop};
use std::alloc::{AllocError, Global};

/// A file in memory behind a write-back cache. It is always faithful, and fails for want of memory alone: then it did nothing.
///
/// What was changed since the last sync may be lost: in whole, in part, and at its end with zeros.
#[derive(Drop)]
pub struct CachedFile {
    alloc: Global,
    now: Vec<u8>,
    synced: Vec<u8>,
    unsynced: Vec<Unsynced>,
    ghost same: { content_of synced.items unsynced.items ≡ now.items },
    ghost small: { length now.items ≤ 2 ^ 64 - 1 },
}

impl CachedFile {
    ghost use Rattle.test_cache.specs.Files.{content, found};

    /// A file of these bytes, which are on the disk.
    pub fn new(alloc: Global, bytes: &[u8]) -> Result<Self, AllocError>
        ensures content { IfOk result (λ f. content f ≡ bytes.now) }
        ensures settled { IfOk result (λ f. Only bytes.now (found f)) }
    {
        Ok(CachedFile {
            alloc,
            now: Vec::from_slice(alloc, bytes)?,
            synced: Vec::from_slice(alloc, bytes)?,
            unsynced: Vec::new(alloc),
        })
    }
}

impl CachedFile {
    ghost use Rattle.test_cache.specs.Cached.{MayBeResized, MayBeWritten, MayFollow, after_one};
    ghost use Rattle.test_cache.specs.Files.{IsUnchanged, content, found};

    // Makes one change, which leads to these bytes.
    fn add(&mut self, now: Vec<u8>, change: Unsynced) -> Result<(), AllocError>
        requires { now.items ≡ after_one change (content self.old) }
        ensures content { OnOk result (content self.new ≡ now.items) }
        ensures found { OnOk result ((c : List ℕ) → found self.new c ↔ MayFollow change (content self.old) (found self.old) c) }
        ensures stays { OnErr result (IsUnchanged self.old self.new) }
    {
        self.unsynced.insert(0, change).map_err(|_| AllocError)?;
        self.now = now;
        Ok(())
    }

    /// Writes the bytes at an address, into the cache alone.
    pub fn write(&mut self, at: u64, bytes: &[u8]) -> Result<(), AllocError>
        requires { at + length bytes.now < 2 ^ 64 }
        ensures content { OnOk result (content self.new ≡ place (content self.old) at bytes.now) }
        ensures found { OnOk result ((c : List ℕ) → found self.new c ↔ MayBeWritten at bytes.now (content self.old) (found self.old) c) }
        ensures stays { OnErr result (IsUnchanged self.old self.new) }
    {
        let now = placed(self.alloc, self.now.as_slice(), at, bytes)?;
        let change = Unsynced::Write(at, Vec::from_slice(self.alloc, bytes)?);
        self.add(now, change)
    }

    /// Cuts the file to `n` bytes, or fills it up to them with zeros, in the cache alone.
    pub fn resize_to(&mut self, n: u64) -> Result<(), AllocError>
        ensures content { OnOk result (content self.new ≡ cut (content self.old) n) }
        ensures found { OnOk result ((c : List ℕ) → found self.new c ↔ MayBeResized n (content self.old) (found self.old) c) }
        ensures stays { OnErr result (IsUnchanged self.old self.new) }
    {
        let now = resized(self.alloc, self.now.as_slice(), n)?;
        self.add(now, Unsynced::Resize(n))
    }
}

// The bytes with others placed at an address.
fn placed(alloc: Global, old: &[u8], at: u64, bytes: &[u8]) -> Result<Vec<u8>, AllocError>
    requires { at + length bytes.now < 2 ^ 64 }
    ensures { IfOk result (λ new. new.items ≡ place old.now at bytes.now) }
{
    let mut new = Vec::from_slice(alloc, old)?;
    if bytes.is_empty() {
        return Ok(new);
    }
    let start = at as usize;
    let end = start + bytes.len();
    if new.len() < end {
        new.resize(end, 0)?;
    }
    overwrite(new.as_mut_slice(), start, bytes);
    Ok(new)
}

fn overwrite(image: &mut [u8], at: usize, bytes: &[u8])
    requires { at + length bytes.now ≤ length image.old }
    ensures { image.new ≡ place image.old at bytes.now }
{
    image[at..at + bytes.len()].copy_from_slice(bytes);
}

// The bytes, cut or filled up with zeros.
fn resized(alloc: Global, old: &[u8], n: u64) -> Result<Vec<u8>, AllocError>
    ensures { IfOk result (λ new. new.items ≡ cut old.now n) }
{
    let mut new = Vec::from_slice(alloc, old)?;
    new.resize(n as usize, 0)?;
    Ok(new)
}

impl RandomAccess for CachedFile {
    ghost use Rattle.std.proofs.Common.{inl};
    ghost use Rattle.test_cache.specs.Files.{content as held, found};

    ghost content = { held };

    ghost faithful = { λ _. Unit {0} };

    ghost survives = { found };

    ghost within = { λ f _. f.small };

    ghost present = { λ f _. inl refl };

    fn size(&mut self) -> Result<u64, Stop> {
        Ok(self.now.len() as u64)
    }

    fn read_some(&mut self, at: u64, buf: &mut [u8]) -> Result<usize, Stop> {
        if at >= self.now.len() as u64 {
            return Ok(0);
        }
        let start = at as usize;
        let count = buf.len().min(self.now.len() - start);
        buf[..count].copy_from_slice(&self.now[start..start + count]);
        Ok(count)
    }

    fn write_some(&mut self, at: u64, bytes: &[u8]) -> Result<usize, Stop> {
        match self.write(at, bytes) {
            Ok(()) => Ok(bytes.len()),
            Err(_) => Err(Stop::Failed),
        }
    }

    fn resize(&mut self, n: u64) -> Result<(), Stop> {
        match self.resize_to(n) {
            Ok(()) => Ok(()),
            Err(_) => Err(Stop::Failed),
        }
    }

    fn sync(&mut self) -> Result<(), Stop> {
        match Vec::from_slice(self.alloc, self.now.as_slice()) {
            Ok(synced) => {
                self.synced = synced;
                self.unsynced.clear();
                Ok(())
            }
            Err(_) => Err(Stop::Failed),
        }
    }
}
