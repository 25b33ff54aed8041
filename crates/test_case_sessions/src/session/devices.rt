//! The devices of a session, and what they hold.
use crate::report::compare::{Wrong, same_bytes};
use crate::session::MANY;
use bx_image::{Device, MemImage};
use bx_journal_store::{MemText, TextStore};
use std::alloc::{AllocError, Allocator, Global};

/// The devices of a session: an image, its journal's text, and the text of what was undone.
#[derive(Drop)]
pub struct Devices<D, T> {
    pub image: D,
    pub journal: T,
    pub redo: T,
}

/// What devices hold.
#[derive(Clone, Copy)]
pub struct Texts<'a> {
    pub image: &'a [u8],
    pub journal: &'a [u8],
    /// The text of what was taken back.
    pub redo: &'a [u8],
}

/// What devices are to hold, where it is known.
#[derive(Clone, Copy)]
pub struct Wanted<'a> {
    pub image: Option<&'a [u8]>,
    pub journal: Option<&'a [u8]>,
    pub redo: Option<&'a [u8]>,
}

impl<'a> Texts<'a> {
    /// Devices are to hold this.
    pub fn wanted(self) -> Wanted<'a> {
        Wanted {
            image: Some(self.image),
            journal: Some(self.journal),
            redo: Some(self.redo),
        }
    }
}

impl Wanted<'_> {
    /// This is what devices hold.
    pub fn same(self, alloc: Global, found: Texts<'_>) -> Result<(), Wrong> {
        same_known(alloc, "image", self.image, found.image)?;
        same_known(alloc, "journal", self.journal, found.journal)?;
        same_known(alloc, "redo text", self.redo, found.redo)
    }
}

fn same_known(
    alloc: Global,
    what: &'static str,
    wanted: Option<&[u8]>,
    found: &[u8],
) -> Result<(), Wrong> {
    match wanted {
        Some(wanted) => same_bytes(alloc, what, wanted, found),
        None => Ok(()),
    }
}

/// What devices held.
#[derive(Drop)]
pub struct Held {
    pub image: Vec<u8>,
    pub journal: Vec<u8>,
    pub redo: Vec<u8>,
}

impl Held {
    /// Devices held this.
    pub fn new(alloc: Global, texts: Texts<'_>) -> Result<Self, AllocError> {
        Ok(Held {
            image: texts.image.to_vec(alloc)?,
            journal: texts.journal.to_vec(alloc)?,
            redo: texts.redo.to_vec(alloc)?,
        })
    }

    pub fn texts(&self) -> Texts<'_> {
        Texts {
            image: self.image.as_slice(),
            journal: self.journal.as_slice(),
            redo: self.redo.as_slice(),
        }
    }
}

/// Devices in memory.
pub type MemDevices<A = Global> = Devices<MemImage<A>, MemText<A>>;

fn mem_image<A: Allocator + Clone>(alloc: &A, bytes: &[u8]) -> Result<MemImage<A>, Wrong> {
    Ok(MemImage::from_vec(bytes.to_vec(alloc.clone()?)?))
}

fn mem_text<A: Allocator + Clone>(alloc: &A, bytes: &[u8]) -> Result<MemText<A>, Wrong> {
    Ok(MemText::from_vec(bytes.to_vec(alloc.clone()?)?))
}

/// Devices in memory of `alloc` that hold this.
pub fn in_memory<A: Allocator + Clone>(alloc: A, texts: Texts<'_>) -> Result<MemDevices<A>, Wrong> {
    Ok(Devices {
        image: mem_image(&alloc, texts.image)?,
        journal: mem_text(&alloc, texts.journal)?,
        redo: mem_text(&alloc, texts.redo)?,
    })
}

/// What devices in memory hold.
pub fn texts_in<A: Allocator>(devices: &MemDevices<A>) -> Texts<'_> {
    Texts {
        image: devices.image.as_slice(),
        journal: devices.journal.as_slice(),
        redo: devices.redo.as_slice(),
    }
}

/// Devices hold what they held.
pub fn unchanged<A: Allocator>(
    alloc: Global,
    texts: Texts<'_>,
    devices: &MemDevices<A>,
) -> Result<(), Wrong> {
    texts.wanted().same(alloc, texts_in(devices))
}

/// What devices of any kind hold.
pub fn contents<D: Device, T: TextStore>(
    alloc: Global,
    devices: &mut Devices<D, T>,
) -> Result<Held, Wrong> {
    Ok(Held {
        image: image_bytes(alloc, &mut devices.image)?,
        journal: text_bytes(alloc, &mut devices.journal)?,
        redo: text_bytes(alloc, &mut devices.redo)?,
    })
}

fn image_bytes<D: Device>(alloc: Global, image: &mut D) -> Result<Vec<u8>, Wrong> {
    if image.faults() > MANY {
        return Err(Wrong::Unknown);
    }
    let Ok(len) = image.len() else {
        return Err(Wrong::Unknown);
    };
    let mut bytes = vec![in alloc; 0; len as usize]?;
    match image.read_at(0, bytes.as_mut_slice()) {
        Ok(()) => Ok(bytes),
        Err(_) => Err(Wrong::Unknown),
    }
}

fn text_bytes<T: TextStore>(alloc: Global, text: &mut T) -> Result<Vec<u8>, Wrong> {
    if text.faults() > MANY {
        return Err(Wrong::Unknown);
    }
    match text.read_all(alloc) {
        Ok(bytes) => Ok(bytes),
        Err(_) => Err(Wrong::Unknown),
    }
}
