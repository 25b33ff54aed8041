//! The images of a session in a plain list.
use crate::report::compare::Wrong;
use crate::session::ask::{redo, undo};
use crate::session::open::MemSession;
use crate::session::places::Memory;
use crate::session::standing::{Standing, again};
use std::alloc::{AllocError, Global};
use test_case_files::Opening;

/// The images of a session, from the one below all changes to the newest, and behind it those that were undone, the one undone
/// last first; and how many changes stand.
#[derive(Drop)]
pub struct History {
    pub images: Vec<Vec<u8>>,
    pub changes: usize,
}

/// The same of images that stand elsewhere.
#[derive(Drop)]
pub struct Images<'a> {
    pub list: Vec<&'a [u8]>,
    pub changes: usize,
}

impl<'a> Images<'a> {
    /// The images of a history.
    pub fn of(alloc: Global, history: &'a History) -> Result<Self, Wrong> {
        let mut list = Vec::new(alloc);
        for image in &history.images {
            list.push(image.as_slice())?;
        }
        Ok(Images {
            list,
            changes: history.changes,
        })
    }

    /// The same list once more, for as long as it is lent.
    pub fn lent(alloc: Global, images: &'a Images<'_>) -> Result<Self, AllocError> {
        let mut list = Vec::new(alloc);
        for image in &images.list {
            list.push(*image)?;
        }
        Ok(Images {
            list,
            changes: images.changes,
        })
    }

    /// The same list once more.
    pub fn copy(&self, alloc: Global) -> Result<Self, AllocError> {
        Ok(Images {
            list: self.list.as_slice().to_vec(alloc)?,
            changes: self.changes,
        })
    }

    /// How many changes were made in all, those that were undone with them.
    pub fn all(&self) -> usize {
        self.list.len().saturating_sub(1)
    }

    /// How many changes were undone.
    pub fn undone(&self) -> usize {
        self.all().saturating_sub(self.changes)
    }

    /// What was undone is given up.
    pub fn forget(&mut self) {
        self.list.truncate(self.changes.saturating_add(1));
    }

    /// A change that leaves this image.
    pub fn change_to(&mut self, image: &'a [u8]) -> Result<(), AllocError> {
        self.forget();
        self.list.push(image)?;
        self.changes = self.changes.saturating_add(1);
        Ok(())
    }

    /// How opening finds them.
    pub fn opening(&self) -> Opening {
        Opening::Clean {
            changes: self.changes.min(65_535) as u32,
            undone: self.undone().min(65_535) as u32,
        }
    }
}

/// Adds the images of a session, from the newest to the one below all changes.
fn unwind(alloc: Global, session: MemSession, images: &mut Vec<Vec<u8>>) -> Result<(), Wrong> {
    let mut session = session;
    for _ in 0..session.changes() {
        session = step_back(alloc, session, images)?;
    }
    let Standing { held, .. } = again(alloc, &Memory, session)?;
    images.push(held.image)?;
    Ok(())
}

/// Adds the newest image, and takes the change back that made it.
fn step_back(
    alloc: Global,
    session: MemSession,
    images: &mut Vec<Vec<u8>>,
) -> Result<MemSession, Wrong> {
    let Standing { session, held } = again(alloc, &Memory, session)?;
    let mut session = session;
    images.push(held.image)?;
    let _ = undo(alloc, &mut session, 1)?;
    Ok(session)
}

/// The images of a session and how many changes stand.
pub fn history_of(alloc: Global, session: MemSession) -> Result<History, Wrong> {
    let mut session = session;
    let changes = session.changes() as usize;
    let undone = session.undone();
    let _ = redo(alloc, &mut session, undone)?;
    let mut images = Vec::new(alloc);
    unwind(alloc, session, &mut images)?;
    images.reverse();
    Ok(History { images, changes })
}
