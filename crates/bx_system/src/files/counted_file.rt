//! A file of a session as a device holds it, or one that is to be read.
ghost use Rattle.std.specs.Prelude.{[]};

use crate::progress::Progress;
use crate::system::System;
use bx_image::{FailedCall, RandomAccess, Stop, SystemFile};

/// An image, a journal or a redo file. One that is missing is as an empty one, and can't be written, nor can one that is only
/// read. Progress counts all that is written to it, and of a text, and of an image that is compared, all that is read.
#[derive(Drop)]
pub struct CountedFile<'p, 'r, R> {
    file: Option<SystemFile>,
    progress: &'p Progress<'r, R>,
    counts_reads: bool,
    // whether it refuses to be written and cut, whatever it was opened for
    is_read: bool,
}

impl<'p, 'r, R: System> CountedFile<'p, 'r, R> {
    /// An image's file.
    pub fn image(file: SystemFile, progress: &'p Progress<'r, R>) -> CountedFile<'p, 'r, R> {
        CountedFile {
            file: Some(file),
            progress,
            counts_reads: false,
            is_read: false,
        }
    }

    /// The file of a text, or of none.
    pub fn text(file: Option<SystemFile>, progress: &'p Progress<'r, R>) -> CountedFile<'p, 'r, R> {
        CountedFile {
            file,
            progress,
            counts_reads: true,
            is_read: false,
        }
    }

    /// The same, whose reads count too.
    pub fn counting_reads(mut self) -> CountedFile<'p, 'r, R> {
        self.counts_reads = true;
        self
    }

    /// The same, which is only read from now on, or may be written again.
    pub fn only_read(mut self, is_read: bool) -> CountedFile<'p, 'r, R> {
        self.is_read = is_read;
        self
    }

    /// The same, whose syncs wait until the disk has all, or do nothing.
    pub fn waiting(mut self, waits: bool) -> CountedFile<'p, 'r, R> {
        if let Some(file) = &mut self.file {
            file.waits = waits;
        }
        self
    }

    /// The file; none where it is missing.
    pub fn file(&self) -> Option<&SystemFile> {
        self.file.as_ref()
    }

    /// The file, to hold it no more; none where it is missing.
    pub fn into_file(self) -> Option<SystemFile> {
        self.file
    }

    /// Its last call that failed; none where none did.
    pub fn failed(&self) -> Option<FailedCall> {
        match &self.file {
            Some(file) => file.failed,
            None => None,
        }
    }
}

/// What a file gives back is known to no proof, so it never counts as faithful here.
impl<R: System> RandomAccess for CountedFile<'_, '_, R> {
    ghost content = { λ _. [] };

    ghost faithful = { λ _. ⊥ };

    ghost survives = { λ _ _. ⊥ };

    ghost within = { λ f faithful. absurd faithful };

    ghost present = { λ f faithful. absurd faithful };

    fn size(&mut self) -> Result<u64, Stop> {
        match &mut self.file {
            Some(file) => file.size(),
            None => Ok(0),
        }
    }

    fn read_some(&mut self, at: u64, buf: &mut [u8]) -> Result<usize, Stop> {
        let Some(file) = &mut self.file else {
            return Ok(0);
        };
        let count = file.read_some(at, buf)?;
        if self.counts_reads {
            self.progress.pass(count as u64);
        }
        Ok(count)
    }

    fn write_some(&mut self, at: u64, bytes: &[u8]) -> Result<usize, Stop> {
        if self.is_read {
            return Err(Stop::Failed);
        }
        let Some(file) = &mut self.file else {
            return Err(Stop::Failed);
        };
        let count = file.write_some(at, bytes)?;
        self.progress.pass_written(count as u64);
        Ok(count)
    }

    fn resize(&mut self, n: u64) -> Result<(), Stop> {
        if self.is_read {
            return Err(Stop::Failed);
        }
        match &mut self.file {
            Some(file) => file.resize(n),
            None if n == 0 => Ok(()),
            None => Err(Stop::Failed),
        }
    }

    fn sync(&mut self) -> Result<(), Stop> {
        match &mut self.file {
            Some(file) => RandomAccess::sync(file),
            None => Ok(()),
        }
    }
}
