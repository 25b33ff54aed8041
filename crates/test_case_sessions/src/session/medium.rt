//! What the devices of a session stand on where they fail, and what is found there once they are gone.
use crate::report::compare::Wrong;
use crate::session::cache::{CachedDevices, CachedImage, CachedText};
use crate::session::devices::{Devices, Held, MemDevices, Texts, in_memory, texts_in};
use crate::session::loss::losses;
use crate::session::places::Memory;
use bx_image::MemImage;
use bx_journal_store::MemText;
use std::alloc::Global;

/// How many devices a session has. In as many ways they lose power, or a program is stopped between two of its calls.
pub const DEVICES: u32 = 3;

/// In how many ways they fail.
pub const WAYS: u32 = 7 * DEVICES;

/// In how many of these while they are opened.
pub const OPENING_WAYS: u32 = 4 * DEVICES;

/// What devices stand on that fail.
pub trait Medium<D, T> {
    /// Devices that hold this.
    fn devices(&self, alloc: Global, texts: Texts<'_>) -> Result<Devices<D, T>, Wrong>;

    /// What may be found of devices that are gone.
    fn found(&self, alloc: Global, devices: Devices<D, T>) -> Result<Vec<Held>, Wrong>;
}

/// In memory, where all is found that was written.
impl Medium<MemImage, MemText> for Memory {
    fn devices(&self, alloc: Global, texts: Texts<'_>) -> Result<MemDevices, Wrong> {
        in_memory(alloc, texts)
    }

    fn found(&self, alloc: Global, devices: MemDevices) -> Result<Vec<Held>, Wrong> {
        let mut list = Vec::new(alloc);
        list.push(Held::new(alloc, texts_in(&devices))?)?;
        Ok(list)
    }
}

/// Behind a page cache, which is lost with the power.
#[derive(Drop)]
pub struct PageCache;

impl Medium<CachedImage, CachedText> for PageCache {
    fn devices(&self, alloc: Global, texts: Texts<'_>) -> Result<CachedDevices, Wrong> {
        Ok(Devices {
            image: CachedImage::new(alloc, texts.image)?,
            journal: CachedText::new(alloc, texts.journal)?,
            redo: CachedText::new(alloc, texts.redo)?,
        })
    }

    fn found(&self, alloc: Global, devices: CachedDevices) -> Result<Vec<Held>, Wrong> {
        losses(alloc, &devices)
    }
}

/// The same where commands that didn't wait for the disk left this on it: nothing is known of a loss before the next write.
#[derive(Drop)]
pub struct Unsynced<'a> {
    pub disk: Texts<'a>,
}

impl Medium<CachedImage, CachedText> for Unsynced<'_> {
    fn devices(&self, alloc: Global, texts: Texts<'_>) -> Result<CachedDevices, Wrong> {
        Ok(Devices {
            image: CachedImage::unsynced(alloc, texts.image, self.disk.image)?,
            journal: CachedText::unsynced(alloc, texts.journal, self.disk.journal)?,
            redo: CachedText::unsynced(alloc, texts.redo, self.disk.redo)?,
        })
    }

    fn found(&self, alloc: Global, devices: CachedDevices) -> Result<Vec<Held>, Wrong> {
        if devices.image.is_written || devices.journal.is_written || devices.redo.is_written {
            return losses(alloc, &devices);
        }
        Ok(Vec::new(alloc))
    }
}
