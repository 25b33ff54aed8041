//! A file that is open, with what the run knows of it.
use crate::facts::alias::Identity;
use crate::facts::stat::whole_stat_of;
use crate::files::counted_file::CountedFile;
use crate::refusal::refused;
use crate::system::System;
use bx_world::{Refusal, Stat};
use std::cell::Cell;
use std::fs::{self, File, Metadata};
use std::io;

/// What a file is opened as.
#[derive(Clone, Copy, PartialEq, Eq)]
pub enum Role {
    /// An image, behind whatever links lead to it.
    Image,
    /// A journal or a redo text, whose name is no link.
    Text,
}

impl Role {
    /// What stands under a name: of an image, what its links lead to.
    pub fn found<R: System>(self, rt: &R, name: &str) -> io::Result<Metadata> {
        match self {
            Role::Image => fs::metadata(rt, name),
            Role::Text => fs::symlink_metadata(rt, name),
        }
    }
}

/// What the run knows of a file that it opened.
#[derive(Clone, Copy)]
pub struct Known {
    /// What it is opened as.
    pub role: Role,
    /// Its length, where it can't have another one: of a block device.
    pub length: Option<u64>,
    /// Whether its group says nothing of its owner, who may have got it from a folder.
    pub is_group_given: bool,
    /// Whether this run made it.
    pub made: bool,
}

impl Known {
    /// Of an image of this length, where it can't have another one, or of an input: behind whatever links lead to it.
    pub fn of_image(length: Option<u64>, made: bool) -> Known {
        Known {
            role: Role::Image,
            length,
            is_group_given: false,
            made,
        }
    }

    /// Of a text.
    pub fn of_text(is_group_given: bool, made: bool) -> Known {
        Known {
            role: Role::Text,
            length: None,
            is_group_given,
            made,
        }
    }
}

/// A file that is open, with what the run knows of it.
#[derive(Drop)]
pub struct OpenFile<'p, 'r, R> {
    /// The file, as a device holds it.
    pub(crate) file: CountedFile<'p, 'r, R>,
    /// What the run knows of it.
    pub(crate) known: Known,
    // which file it is, once the system was asked: an open file stays the one it is
    identity: Cell<Option<Identity>>,
}

impl<'p, 'r, R: System> OpenFile<'p, 'r, R> {
    /// A file about which the system was asked nothing yet.
    pub(crate) fn new(file: CountedFile<'p, 'r, R>, known: Known) -> Self {
        OpenFile {
            file,
            known,
            identity: Cell::new(None),
        }
    }

    /// The same file, known for the one that the system has this of.
    pub(crate) fn asked(self, found: &Metadata) -> Self {
        self.identity.set(Some(Identity::of(found)));
        self
    }

    /// The system's file.
    pub fn system(&self) -> Result<&File, Refusal> {
        match self.file.file() {
            Some(file) => Ok(&file.file),
            None => Err(Refusal::Other(None)),
        }
    }

    /// What the system has of the file.
    pub fn metadata(&self) -> Result<Metadata, Refusal> {
        let found = self.system()?.metadata().map_err(refused)?;
        self.identity.set(Some(Identity::of(&found)));
        Ok(found)
    }

    /// Which file it is.
    pub fn identity(&self) -> Result<Identity, Refusal> {
        match self.identity.get() {
            Some(identity) => Ok(identity),
            None => Ok(Identity::of(&self.metadata()?)),
        }
    }

    /// The system's file, to hold it no more.
    pub fn into_system(self) -> Result<File, Refusal> {
        match self.file.into_file() {
            Some(file) => Ok(file.file),
            None => Err(Refusal::Other(None)),
        }
    }

    /// What the system tells of the file.
    pub fn stat(&self, rt: &R) -> Result<Stat, Refusal> {
        match whole_stat_of(rt, &self.metadata()?, self.known.is_group_given) {
            Ok(stat) => Ok(stat),
            Err(_) => Err(Refusal::Other(None)),
        }
    }
}
