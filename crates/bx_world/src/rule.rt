//! Which files a run may open to change them.
ghost use Rattle.std.specs.Prelude.{◌≡◌};
ghost use Rattle.bx_world.specs.Rule.{image_unfit, is_no_wider, is_writer, read_unfit, text_unfit};

use crate::stat::{Classes, Kind, Stat};

/// Why a file is none that may be opened.
#[derive(Clone, Copy, Debug, PartialEq, Eq)]
pub enum Unfit {
    /// Its name is a symbolic link.
    Link,
    /// It is no regular file, and, in an image's place, no block device either.
    Kind,
    /// It has more names than one.
    Names,
    /// It belongs to somebody who may not write the image.
    Owner,
    /// Somebody may read it who may not read the image.
    Readers,
    /// Somebody may write it who may not write the image.
    Writers,
    /// It is a device that is mounted.
    Mounted,
    /// It is a device that can't be written.
    ReadOnly,
}

/// Whether the text belongs to somebody who may write the image: the caller, root, and the image's owner; where the image's
/// group may read and write it, anybody whose text has that group, which nobody else gives it.
fn is_writer(caller: u32, image: &Stat, text: &Stat) -> bool
    ensures { result ≡ is_writer caller image.now text.now }
{
    text.owner == caller
        || text.owner == 0
        || text.owner == image.owner
        || (image.reads.group
            && image.writes.group
            && text.group == image.group
            && !text.is_group_given)
}

/// Whether nobody has a permission of the text who hasn't that of the image.
fn is_no_wider(is_one_group: bool, text: Classes, image: Classes) -> bool
    ensures { result ≡ is_no_wider is_one_group text image }
{
    let both = image.group && image.others;
    let group = if is_one_group { image.group } else { both };
    let others = if is_one_group { image.others } else { both };
    (!text.group || group) && (!text.others || others)
}

/// Why a file can't be a text of an image; none where it can.
pub fn text_unfit(caller: u32, image: &Stat, is_link: bool, text: &Stat) -> Option<Unfit>
    ensures { result ≡ text_unfit caller image.now is_link text.now }
{
    let is_one_group = text.group == image.group;
    if is_link {
        Some(Unfit::Link)
    } else if text.kind != Kind::Regular {
        Some(Unfit::Kind)
    } else if text.links != 1 {
        Some(Unfit::Names)
    } else if !is_writer(caller, image, text) {
        Some(Unfit::Owner)
    } else if !is_no_wider(is_one_group, text.reads, image.reads) {
        Some(Unfit::Readers)
    } else if !is_no_wider(is_one_group, text.writes, image.writes) {
        Some(Unfit::Writers)
    } else {
        None
    }
}

/// Why a file can't be an image that is changed; none where it can. `mounted` says whether it may be a device that is mounted.
pub fn image_unfit(mounted: bool, image: &Stat) -> Option<Unfit>
    ensures { result ≡ image_unfit mounted image.now }
{
    match image.kind {
        Kind::Regular => None,
        Kind::Block if image.is_read_only => Some(Unfit::ReadOnly),
        Kind::Block if image.is_mounted && !mounted => Some(Unfit::Mounted),
        Kind::Block => None,
        Kind::Other => Some(Unfit::Kind),
    }
}

/// Why a file can't be an image that is read; none where it can.
pub fn read_unfit(image: &Stat) -> Option<Unfit>
    ensures { result ≡ read_unfit image.now }
{
    match image.kind {
        Kind::Regular | Kind::Block => None,
        Kind::Other => Some(Unfit::Kind),
    }
}
