//! Devices in memory behind a page cache: what is read, what was synced last, and the calls in between.
ghost use Rattle.std.specs.Prelude.{◌≡◌, ◌+◌, ◌<◌, []};

use crate::report::compare::{Wrong, shared};
use crate::session::devices::Devices;
use bx_image::{Device, DeviceFailed, NoMemory};
use bx_journal_store::{MOST, TextFault, TextStore};
use std::alloc::{Allocator, Global};

/// Counts a failure.
fn failed(failures: &mut u64) -> DeviceFailed
    requires { failures.old < u64.MAX }
    ensures { failures.new ≡ failures.old + 1 }
{
    *failures += 1;
    DeviceFailed
}

/// Fills a buffer with the bytes of a content from a place on. Tells whether there are enough.
fn copy_from(content: &[u8], at: u64, buf: &mut [u8]) -> bool {
    let (_, rest) = content.split_at(content.len().min(at as usize));
    let is_there = buf.len() <= rest.len();
    for (to, from) in buf.iter_mut().zip(rest.iter()) {
        *to = *from;
    }
    is_there
}

/// Puts a content in the place of another one.
fn copy_to(old: &mut Vec<u8>, content: &[u8]) -> Result<(), Wrong> {
    old.truncate(0);
    old.extend_from_slice(content)?;
    Ok(())
}

/// Places bytes in an image, which grows where they need it.
pub fn place(image: &mut Vec<u8>, at: usize, bytes: &[u8]) -> Result<(), Wrong> {
    let end = at.saturating_add(bytes.len());
    if image.len() < end && !bytes.is_empty() {
        image.resize(end, 0)?;
    }
    for (to, from) in image.iter_mut().skip(at).zip(bytes.iter()) {
        *to = *from;
    }
    Ok(())
}

/// A call that changed an image, and may not be on the disk.
#[derive(Drop)]
pub enum Pending {
    Write { at: usize, bytes: Vec<u8> },
    Length(usize),
}

/// An image behind a page cache. No proof knows it as a faithful device.
#[derive(Drop)]
pub struct CachedImage {
    alloc: Global,
    /// What is read.
    pub cache: Vec<u8>,
    /// What was synced last.
    pub disk: Vec<u8>,
    pub pending: Vec<Pending>,
    /// Whether a call changed it.
    pub is_written: bool,
    room: u64,
    failures: u64,
}

/// Writes to an image, and keeps the call.
fn write_to(
    alloc: Global,
    cache: &mut Vec<u8>,
    pending: &mut Vec<Pending>,
    at: usize,
    bytes: &[u8],
) -> Result<(), Wrong> {
    place(cache, at, bytes)?;
    let bytes = bytes.to_vec(alloc)?;
    pending.push(Pending::Write { at, bytes })?;
    Ok(())
}

/// Sets the length of an image, and keeps the call.
fn resize_to(cache: &mut Vec<u8>, pending: &mut Vec<Pending>, len: usize) -> Result<(), Wrong> {
    cache.resize(len, 0)?;
    pending.push(Pending::Length(len))?;
    Ok(())
}

/// Puts an image on the disk.
fn sync_to(cache: &Vec<u8>, disk: &mut Vec<u8>, pending: &mut Vec<Pending>) -> Result<(), Wrong> {
    if !pending.is_empty() {
        copy_to(disk, cache.as_slice())?;
        pending.truncate(0);
    }
    Ok(())
}

impl CachedImage {
    /// An image that is on the disk.
    pub fn new(alloc: Global, bytes: &[u8]) -> Result<Self, Wrong> {
        Ok(CachedImage {
            alloc,
            cache: bytes.to_vec(alloc)?,
            disk: bytes.to_vec(alloc)?,
            pending: Vec::new(alloc),
            is_written: false,
            room: bytes.len() as u64,
            failures: 0,
        })
    }

    /// An image that was made of the one on the disk, and that no sync followed.
    pub fn unsynced(alloc: Global, bytes: &[u8], disk: &[u8]) -> Result<Self, Wrong> {
        let mut image = CachedImage::new(alloc, disk)?;
        resize_to(&mut image.cache, &mut image.pending, bytes.len())?;
        write_to(alloc, &mut image.cache, &mut image.pending, 0, bytes)?;
        image.room = image.room.max(bytes.len() as u64);
        Ok(image)
    }
}

impl Device for CachedImage {
    ghost image = { λ _. [] };

    ghost faithful = { λ _. ⊥ };

    ghost room = { λ c. c.room };

    ghost failures = { λ c. c.failures };

    ghost survives = { λ _ _. ⊥ };

    ghost within_room = { λ _ faithful. absurd faithful };

    ghost present = { λ _ faithful. absurd faithful };

    fn len(&mut self) -> Result<u64, DeviceFailed> {
        Ok(self.cache.len() as u64)
    }

    fn read_at(&mut self, at: u64, buf: &mut [u8]) -> Result<(), DeviceFailed> {
        if copy_from(self.cache.as_slice(), at, buf) {
            return Ok(());
        }
        Err(failed(&mut self.failures))
    }

    fn write_at(&mut self, at: u64, bytes: &[u8]) -> Result<(), DeviceFailed> {
        let alloc = self.alloc;
        self.is_written = true;
        match write_to(
            alloc,
            &mut self.cache,
            &mut self.pending,
            at as usize,
            bytes,
        ) {
            Ok(()) => Ok(()),
            Err(_) => Err(failed(&mut self.failures)),
        }
    }

    fn set_len(&mut self, n: u64) -> Result<(), DeviceFailed> {
        self.is_written = true;
        match resize_to(&mut self.cache, &mut self.pending, n as usize) {
            Ok(()) => Ok(()),
            Err(_) => Err(failed(&mut self.failures)),
        }
    }

    fn sync(&mut self) -> Result<(), DeviceFailed> {
        match sync_to(&self.cache, &mut self.disk, &mut self.pending) {
            Ok(()) => Ok(()),
            Err(_) => Err(failed(&mut self.failures)),
        }
    }

    fn reserve(&mut self, n: u64) -> Result<(), NoMemory> {
        self.room = self.room.max(n);
        Ok(())
    }

    fn reserved(&self) -> u64 {
        self.room
    }

    fn faults(&self) -> u64 {
        self.failures
    }
}

/// Devices behind a page cache.
pub type CachedDevices = Devices<CachedImage, CachedText>;

/// A text behind a page cache. No proof knows it as a faithful store.
#[derive(Drop)]
pub struct CachedText {
    /// What is read.
    pub cache: Vec<u8>,
    /// What was synced last.
    pub disk: Vec<u8>,
    /// Up to here both have the same bytes: the least length since the last sync.
    pub same: usize,
    /// Whether a call changed it.
    pub is_written: bool,
    room: u64,
    failures: u64,
}

impl CachedText {
    /// A text that is on the disk.
    pub fn new(alloc: Global, bytes: &[u8]) -> Result<Self, Wrong> {
        Ok(CachedText {
            cache: bytes.to_vec(alloc)?,
            disk: bytes.to_vec(alloc)?,
            same: bytes.len(),
            is_written: false,
            room: bytes.len() as u64,
            failures: 0,
        })
    }

    /// A text that was made of the one on the disk, and that no sync followed.
    pub fn unsynced(alloc: Global, bytes: &[u8], disk: &[u8]) -> Result<Self, Wrong> {
        let mut text = CachedText::new(alloc, disk)?;
        copy_to(&mut text.cache, bytes)?;
        text.same = shared(bytes, disk);
        text.room = text.room.max(bytes.len() as u64);
        Ok(text)
    }
}

impl TextStore for CachedText {
    ghost text = { λ _. [] };

    ghost faithful = { λ _. ⊥ };

    ghost room = { λ c. c.room };

    ghost failures = { λ c. c.failures };

    ghost survives = { λ _ _. ⊥ };

    ghost empties_at_once = { ⊥ };

    ghost present = { λ _ faithful. absurd faithful };

    fn len(&mut self) -> Result<u64, DeviceFailed> {
        Ok(self.cache.len() as u64)
    }

    fn read_all<A: Allocator>(&mut self, alloc: A) -> Result<Vec<u8, A>, TextFault> {
        Ok(Vec::from_slice(alloc, self.cache.as_slice())?)
    }

    fn read_at(&mut self, at: u64, buf: &mut [u8]) -> Result<(), DeviceFailed> {
        if copy_from(self.cache.as_slice(), at, buf) {
            return Ok(());
        }
        Err(failed(&mut self.failures))
    }

    fn append(&mut self, bytes: &[u8]) -> Result<(), DeviceFailed> {
        self.is_written = true;
        match self.cache.extend_from_slice(bytes) {
            Ok(()) => Ok(()),
            Err(_) => Err(failed(&mut self.failures)),
        }
    }

    fn cut(&mut self, n: u64) -> Result<(), DeviceFailed> {
        self.is_written = true;
        self.cache.truncate(n as usize);
        self.same = self.same.min(n as usize);
        Ok(())
    }

    fn sync(&mut self) -> Result<(), DeviceFailed> {
        match copy_to(&mut self.disk, self.cache.as_slice()) {
            Ok(()) => {
                self.same = self.cache.len();
                Ok(())
            }
            Err(_) => Err(failed(&mut self.failures)),
        }
    }

    fn reserve(&mut self, n: u64) -> Result<(), NoMemory> {
        if n > MOST {
            return Err(NoMemory);
        }
        self.room = self.room.max(n);
        Ok(())
    }

    fn reserved(&self) -> u64 {
        self.room
    }

    fn faults(&self) -> u64 {
        self.failures
    }
}
