//! Files as devices hold them.
ghost use Rattle.std.specs.Prelude.{◌≡◌};

use crate::files::counted_file::CountedFile;
use crate::progress::Progress;
use crate::system::System;
use bx_image::{Device, FileImage, SystemFile};
use std::fs::File;

/// A file as a device holds it. `waits` says whether a sync waits until the disk has all; else it does nothing.
pub fn held(file: File, waits: bool) -> SystemFile {
    let mut file = SystemFile::new(file);
    file.waits = waits;
    file
}

/// The image of a file, which may have a length that stays.
pub fn image_of<'p, 'r, R: System>(
    file: CountedFile<'p, 'r, R>,
    length: Option<u64>,
) -> FileImage<CountedFile<'p, 'r, R>>
    ensures { ⟦<FileImage<CountedFile<'p, 'r, R>> as Device>⟧.failures result ≡ 0 }
{
    match length {
        Some(length) => FileImage::fixed(file, length),
        None => FileImage::new(file),
    }
}

/// How many bytes the texts have, where somebody looks and the system tells.
pub fn size_of_texts<R>(
    progress: &Progress<'_, R>,
    journal: &File,
    redo: Option<&File>,
) -> Option<u64> {
    if !progress.shows {
        return None;
    }
    let journal = journal.metadata().ok()?.len();
    match redo {
        Some(redo) => journal.checked_add(redo.metadata().ok()?.len()),
        None => Some(journal),
    }
}
