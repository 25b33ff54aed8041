//! Locks, which go with their files, or are kept from one opening of a file to the next.
use crate::facts::alias::is_same;
use crate::files::open::{lock, lock_shared};
use std::alloc::Global;
use std::fs::{File, TryLockError};
use std::io::{self, ErrorKind};

/// The locks of a run.
#[derive(Drop)]
pub struct Locks {
    // second handles of openings, each with the lock of its file; none where no lock is kept
    kept: Option<Vec<File>>,
}

impl Locks {
    /// Locks that go with their files.
    pub const PASSING: Locks = Locks { kept: None };

    /// Locks that are kept, once they are taken, until these are dropped.
    pub fn lasting(alloc: Global) -> Locks {
        Locks {
            kept: Some(Vec::new(alloc)),
        }
    }

    /// Locks a file, without waiting. One whose lock is kept has it.
    ///
    /// # Errors
    /// Where another opening holds a lock, and where one that is to be kept can't be.
    pub fn lock(&mut self, file: &File) -> Result<(), TryLockError> {
        if self.has(file) {
            return Ok(());
        }
        lock(file)?;
        self.keep(file).map_err(TryLockError::Error)
    }

    /// The same for a file that is only read, whose lock isn't kept.
    pub fn lock_shared(&self, file: &File) -> Result<(), TryLockError> {
        if self.has(file) {
            return Ok(());
        }
        lock_shared(file)
    }

    /// Whether the lock of a file is kept.
    fn has(&self, file: &File) -> bool {
        // Most runs keep none, and the system is asked nothing then.
        let Some(kept) = &self.kept else {
            return false;
        };
        let Ok(found) = file.metadata() else {
            return false;
        };
        for other in kept.as_slice() {
            if other.metadata().is_ok_and(|other| is_same(&other, &found)) {
                return true;
            }
        }
        false
    }

    /// Keeps the lock of a file, where locks are kept.
    fn keep(&mut self, file: &File) -> io::Result<()> {
        let Some(kept) = &mut self.kept else {
            return Ok(());
        };
        match kept.push(file.try_clone()?) {
            Ok(()) => Ok(()),
            Err(_) => Err(io::Error::from(ErrorKind::OutOfMemory)),
        }
    }
}
