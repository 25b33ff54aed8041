//! Making an image that is missing, which links may lead to.
use crate::facts::alias::is_same;
use crate::facts::dev::is_among_devices;
use crate::facts::stat::is_root_or_caller;
use crate::files::mode::Permits;
use crate::files::open::{open_there, take_away};
use crate::folders::{folder_of, sync_folder};
use crate::system::System;
use std::alloc::AllocError;
use std::fs::{self, File, Metadata};
use std::io::{self, ErrorKind};
use std::os::unix::fs::MetadataExt;

/// As many links in a row are followed, as Linux does.
const MOST_LINKS: u32 = 40;

/// Why no image is made at a place that the system would make one at.
#[derive(Clone, Copy, Debug, PartialEq, Eq)]
pub enum Misplaced {
    /// It is among the devices.
    AmongDevices,
    /// A link of another user leads there.
    OfAnother,
}

/// Why an image that is missing wasn't made.
#[derive(Drop)]
pub enum Unmade {
    /// Memory is short.
    NoMemory,
    /// Its place is none for an image.
    Misplaced(Misplaced),
    /// The system refused it.
    System(io::Error),
}

impl From<AllocError> for Unmade {
    fn from(_: AllocError) -> Self {
        Unmade::NoMemory
    }
}

/// Makes an image that is missing, and says whether this run made it: where another program made it by now, it is opened. Where
/// the name is a link, the image is made where it leads to, and where `waits` says so that name is put on the disk.
///
/// # Errors
/// `Misplaced` where a link leads among the devices, or belongs to somebody else than the caller and root, who could choose by it
/// what the caller makes.
pub fn make_image<R: System>(
    rt: &R,
    name: &str,
    permits: Permits,
    waits: bool,
) -> Result<(File, bool), Unmade> {
    match permits.make(rt, name) {
        Ok(file) => Ok((file, true)),
        // Another program made it by now, or a link leads to a file that is missing.
        Err(e) if e.kind() == ErrorKind::AlreadyExists => make_linked(rt, name, permits, waits),
        Err(e) => Err(Unmade::System(e)),
    }
}

/// Makes the image that a link leads to, and says whether this run made it. Where another program made it by now it is opened, and
/// not made once more if it is missing again; and where its place has no name here, it is opened by the link's name.
fn make_linked<R: System>(
    rt: &R,
    name: &str,
    permits: Permits,
    waits: bool,
) -> Result<(File, bool), Unmade> {
    let mut link = String::from_str(rt.alloc(), name)?;
    for _ in 0..MOST_LINKS {
        let Some(found) = own_link(rt, link.as_str())? else {
            return as_found(open_there(rt, name, true));
        };
        let target = target_of(rt, link.as_str());
        refuse_another(rt, link.as_str(), &found)?;
        let Some(place) = target else {
            break;
        };
        refuse_among_devices(rt, place.as_str())?;
        match permits.make(rt, place.as_str()) {
            Err(e) if e.kind() == ErrorKind::AlreadyExists => link = place,
            Err(e) => return Err(Unmade::System(e)),
            Ok(file) => return Ok((kept(rt, place.as_str(), file, waits)?, true)),
        }
    }
    as_found(permits.open(rt, name))
}

/// A file that is opened and counts as one that this run didn't make.
fn as_found(opened: io::Result<File>) -> Result<(File, bool), Unmade> {
    match opened {
        Ok(file) => Ok((file, false)),
        Err(e) => Err(Unmade::System(e)),
    }
}

/// A file that was made at a place, whose name is put on the disk where `waits` says so, or else is taken away again.
fn kept<R: System>(rt: &R, place: &str, file: File, waits: bool) -> Result<File, Unmade> {
    if !waits {
        return Ok(file);
    }
    match sync_folder(rt, folder_of(place)) {
        Ok(()) => Ok(file),
        Err(error) => {
            take_away(rt, place, &file);
            Err(Unmade::System(error))
        }
    }
}

/// Refuses a place among the devices.
pub fn refuse_among_devices<R: System>(rt: &R, place: &str) -> Result<(), Unmade> {
    if is_among_devices(rt, folder_of(place)) {
        return Err(Unmade::Misplaced(Misplaced::AmongDevices));
    }
    Ok(())
}

/// The link of this name, where it is one; refused where it belongs to somebody else than the caller and root.
fn own_link<R: System>(rt: &R, name: &str) -> Result<Option<Metadata>, Unmade> {
    match fs::symlink_metadata(rt, name) {
        Ok(found) if !found.is_symlink() => Ok(None),
        Ok(found) if is_root_or_caller(rt, found.uid()) => Ok(Some(found)),
        Ok(_) => Err(Unmade::Misplaced(Misplaced::OfAnother)),
        Err(e) => Err(Unmade::System(e)),
    }
}

/// Refuses a name that has another link by now than the one that was looked at: what was read may be of a link of somebody else.
fn refuse_another<R: System>(rt: &R, name: &str, link: &Metadata) -> Result<(), Unmade> {
    match own_link(rt, name)? {
        Some(found) if is_same(&found, link) => Ok(()),
        Some(_) | None => Err(Unmade::Misplaced(Misplaced::OfAnother)),
    }
}

/// The place that a link leads to; none where it is no link, or no name of a place here.
fn target_of<R: System>(rt: &R, link: &str) -> Option<String> {
    let target = fs::read_link(rt, link).ok()?.into_string();
    if target.as_str().starts_with('/') {
        return Some(target);
    }
    let folder = folder_of(link);
    format!(in rt.alloc(); "{folder}/{target}").ok()
}
