//! Whether an image has what a patch expects, before its history is dropped.
use crate::devices::left::{differs, has_length};
use crate::files::look::is_missing;
use crate::files::read::open_alone;
use bx_cli::Fault;
use bx_hints::Stopped;
use bx_image::{FileImage, MemImage, SystemFile};
use bx_journal::SessionFault;
use bx_patch::{Other, Patch, find_other};
use bx_system::{CountedFile, Progress, System};

/// Refuses a patch with which the image of this name disagrees; one that is missing is an empty one.
pub fn agree<'a, R: System>(
    rt: &R,
    name: &'a str,
    patch: &Patch,
    progress: &Progress<'_, R>,
) -> Result<(), Stopped<'a>> {
    if is_missing(rt, name) {
        return match find_other(&mut MemImage::new(rt.alloc()), patch) {
            Ok(Some(other)) => Err(missing(name, other)),
            Ok(None) | Err(_) => Ok(()),
        };
    }
    let file = SystemFile::new(open_alone(rt, name)?);
    let mut image = FileImage::new(CountedFile::image(file, progress));
    match find_other(&mut image, patch) {
        Ok(None) => Ok(()),
        Ok(Some(other)) => Err(disagreeing(name, &image, other)),
        Err(_) => {
            let failed = Fault::from(SessionFault::DeviceFailed);
            Err(Stopped::failed(failed, name, image.file().failed()))
        }
    }
}

/// What an image has otherwise than a patch expects.
fn disagreeing<'a, R: System>(
    name: &'a str,
    image: &FileImage<CountedFile<'_, '_, R>>,
    other: Other,
) -> Stopped<'a> {
    match image.file().file() {
        Some(file) => differs(name, &file.file, Fault::Disagrees(other), other),
        None => missing(name, other),
    }
}

/// The same of an image that is missing, which has no byte.
pub fn missing<'a>(name: &'a str, other: Other) -> Stopped<'a> {
    let fault = Fault::Disagrees(other);
    match other {
        Other::Length { expected } => has_length(name, Ok(0), fault, expected),
        Other::Bytes { .. } => Stopped::from(fault),
    }
}
