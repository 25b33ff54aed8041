//! Who may read the texts of an image: nobody who may not read the image.
use crate::facts::alias::is_untouched;
use crate::facts::stat::stat_of;
use crate::system::System;
use bx_world::{Classes, Stat};
use std::fs::{self, File, Metadata, TryLockError};
use std::io;
use std::os::unix::fs::{FileTypeExt, MetadataExt, OpenOptionsExt, fchown};

/// The bits to read and to write, of all three classes.
const READ_AND_WRITE: u32 = 0o666;

/// The bits of the owner.
const OWNER: u32 = 0o700;

/// The permission bits and the owner of a file that is made.
#[derive(Clone, Copy)]
pub struct Permits {
    bits: u32,
    // the image that it is made beside, whose owner it gets
    image: Option<Stat>,
}

impl Permits {
    /// Those of an image that is made: what the umask leaves, as of any other file.
    pub fn of_image() -> Permits {
        Permits {
            bits: READ_AND_WRITE,
            image: None,
        }
    }

    /// Those of the texts beside an image: its bits but for those to execute, and its owner. Of a block device the bits of
    /// its user alone, who runs this.
    pub fn beside(image: &Metadata) -> Permits {
        if image.file_type().is_block_device() {
            return Permits {
                bits: 0o600,
                image: None,
            };
        }
        Permits {
            bits: image.mode() & READ_AND_WRITE,
            image: Some(stat_of(image, false)),
        }
    }

    /// Makes a file that is missing. Its bits are given at its opening, and the umask narrows them. Where it can't have the
    /// image's group, it is made anew without the bits of the group, which are those of another one; but not where another run
    /// has it locked by now, or another file has its name, which is refused later.
    pub fn make<R: System>(self, rt: &R, name: &str) -> io::Result<File> {
        let file = self.make_new(rt, name)?;
        let bits = self.narrowed(&file);
        if bits == self.bits
            || is_held(&file)
            || !is_untouched(rt, name, &file).is_ok_and(|is| is)
        {
            return Ok(file);
        }
        fs::remove_file(rt, name)?;
        let narrower = Permits { bits, ..self };
        narrower.make_new(rt, name)
    }

    /// Gives a file that was made to its owner, as far as that can be, and answers the bits that it may then have: where it has
    /// another group, none of that one, and the others may be of the image's group.
    fn narrowed(self, file: &File) -> u32 {
        let Some(image) = self.image else {
            return self.bits;
        };
        // Refused to most users: what the file has behind it is asked next, and its bits go by that.
        let _ = give(file, image);
        match file.metadata() {
            Ok(found) if found.gid() == image.group => self.bits,
            _ => self.bits & (OWNER | shared(image)),
        }
    }

    fn make_new<R: System>(self, rt: &R, name: &str) -> io::Result<File> {
        let mut how = File::options();
        // With its bits from the first moment on: set afterwards, somebody could have it open by then.
        how.read(true).write(true).create_new(true).mode(self.bits);
        how.open(rt, name)
    }

    /// Opens a file that may be missing, and then makes it with these bits.
    pub fn open<R: System>(self, rt: &R, name: &str) -> io::Result<File> {
        let mut how = File::options();
        how.read(true).write(true).create(true).mode(self.bits);
        how.open(rt, name)
    }
}

/// Whether another run has a file locked; else this one has, up to its closing.
fn is_held(file: &File) -> bool {
    matches!(file.try_lock(), Err(TryLockError::WouldBlock))
}

/// What both the group and the others may do with a file, as bits of the others.
fn shared(file: Stat) -> u32 {
    bit_of_both(file.reads, 0o004) | bit_of_both(file.writes, 0o002)
}

/// A bit, where both the group and the others have the permission.
fn bit_of_both(classes: Classes, bit: u32) -> u32 {
    if classes.group && classes.others {
        bit
    } else {
        0
    }
}

/// Gives a file that is still empty to an image's owner and group, as far as this process may: root does both, and a member of
/// the group may give that.
fn give(file: &File, image: Stat) -> io::Result<()> {
    let found = file.metadata()?;
    if found.uid() == image.owner && found.gid() == image.group {
        return Ok(());
    }
    if fchown(file, Some(image.owner), Some(image.group)).is_err() && found.gid() != image.group {
        // One call for both is refused for the owner alone; a member of the group may still give that.
        let _ = fchown(file, None, Some(image.group));
    }
    Ok(())
}
