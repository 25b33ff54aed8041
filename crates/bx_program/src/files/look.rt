//! What is asked of an image by its name, before any file is opened.
use bx_cli::Target;
use bx_hints::{Stopped, is_named};
use bx_system::{System, fixed_length, open_there};
use std::fs;
use std::io::ErrorKind;
use std::os::unix::fs::FileTypeExt;

/// Whether no file has this name, behind whatever links lead to it.
pub fn is_missing<R: System>(rt: &R, name: &str) -> bool {
    match fs::metadata(rt, name) {
        Ok(_) => false,
        Err(error) => error.kind() == ErrorKind::NotFound,
    }
}

/// Whether a block device has this name.
pub fn is_device<R: System>(rt: &R, name: &str) -> bool {
    fs::metadata(rt, name).is_ok_and(|file| file.file_type().is_block_device())
}

/// How many bytes a block device of this name has; none of another file, or where it doesn't tell.
pub fn device_length<R: System>(rt: &R, name: &str) -> Option<u64> {
    if !is_device(rt, name) {
        return None;
    }
    fixed_length(&open_there(rt, name, false).ok()?).ok()?
}

/// What is said of a block device whose journal would have a name beside it.
const WANTS_JOURNAL: &str = "a block device wants -J and a journal elsewhere";

/// Refuses a block device whose journal has the name beside it, since the folder of devices is no place that lasts.
///
/// # Errors
/// `OpenFailed`.
pub fn refuse_without_journal<'a, R: System>(
    rt: &R,
    target: &'a Target,
) -> Result<(), Stopped<'a>> {
    let name = target.image.as_str();
    if !is_named(target) && is_device(rt, name) {
        return Err(Stopped::refused(name, WANTS_JOURNAL));
    }
    Ok(())
}
