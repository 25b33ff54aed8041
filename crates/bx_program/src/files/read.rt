//! One file alone, as it is opened beside others that read it.
use crate::files::unfit::unfit_image;
use bx_cli::Fault;
use bx_hints::Stopped;
use bx_system::{System, open_to_read, stat_of};
use bx_world::read_unfit;
use std::fs::{self, File};
use std::io::{self, ErrorKind, Seek, SeekFrom};
use std::os::unix::fs::FileTypeExt;

/// Opens one file to read it: a regular file or a block device, behind whatever links lead to it.
///
/// # Errors
/// `OpenFailed` where it is missing, is another thing, or can't be opened.
pub fn open_alone<'a, R: System>(rt: &R, name: &'a str) -> Result<File, Stopped<'a>> {
    match fs::metadata(rt, name) {
        Ok(found) => {
            if let Some(unfit) = read_unfit(&stat_of(&found, false)) {
                return Err(Stopped {
                    fault: Fault::OpenFailed,
                    file: Some(name),
                    reason: unfit_image(unfit),
                });
            }
        }
        Err(error) => return Err(Stopped::unopened(name, error)),
    }
    match open_to_read(rt, name) {
        Ok(file) => Ok(file),
        Err(error) => Err(Stopped::unopened(name, error)),
    }
}

/// The image, to be read; none where it is missing. To open anything but a regular file or a block device may already do
/// something to it.
pub fn open_if_there<R: System>(rt: &R, image: &str) -> io::Result<Option<File>> {
    match fs::metadata(rt, image) {
        Ok(found) if found.is_file() || found.file_type().is_block_device() => {
            Ok(Some(open_to_read(rt, image)?))
        }
        Ok(_) => Err(io::Error::from(ErrorKind::Unsupported)),
        Err(error) if error.kind() == ErrorKind::NotFound => Ok(None),
        Err(error) => Err(error),
    }
}

/// How many bytes the image of this name has; one that is missing has none.
pub fn length_by_name<R: System>(rt: &R, image: &str) -> Option<u64> {
    match open_if_there(rt, image).ok()? {
        Some(file) => (&file).seek(SeekFrom::End(0)).ok(),
        None => Some(0),
    }
}
