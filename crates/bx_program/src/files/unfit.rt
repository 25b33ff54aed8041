//! What is said of a file that may not be opened.
use bx_hints::Reason;
use bx_world::{Classes, Stat, Unfit};
use std::fs::Metadata;
use std::os::unix::fs::MetadataExt;

/// The bits to read and to write of the group and of the others.
const GROUP_AND_OTHERS: u32 = 0o066;

/// Why an image may not be opened.
pub fn unfit_image(unfit: Unfit) -> Reason<'static> {
    if unfit == Unfit::Kind {
        return Reason::Told("it is no regular file and no block device");
    }
    unfit_text(unfit, 0)
}

/// Why a text may not be opened. It may have at most these permission bits.
pub fn unfit_text(unfit: Unfit, bits: u32) -> Reason<'static> {
    match unfit {
        Unfit::Link => Reason::Told(
            "it is a link, and neither a journal nor a redo file may be one; -J names the journal that lies behind it, or one elsewhere",
        ),
        Unfit::Kind => Reason::Told("it is no regular file"),
        Unfit::Names => Reason::Told(
            "it has a second name, and neither a journal nor a redo file may have one; -J names a journal elsewhere",
        ),
        Unfit::Owner => Reason::Told(
            "it belongs neither to you, root or the image's owner nor, by its group, to a group that may read and write the image; -J names a journal elsewhere",
        ),
        Unfit::Readers | Unfit::Writers => Reason::Wide { bits },
        Unfit::Mounted => Reason::Told(
            "it or a part of it is in use: mounted, as swap, or under an array or a volume; unmount or stop that, or give --mounted",
        ),
        Unfit::ReadOnly => Reason::Told(
            "the device is read-only; blockdev --setrw may change that",
        ),
    }
}

/// The bits that a text may have beside its image, of those that it has.
pub fn bits_left(image: &Stat, text: &Metadata) -> u32 {
    let most = allowed(image, text.gid()) | !GROUP_AND_OTHERS;
    text.mode() & 0o777 & most
}

/// The bits that a text of this group may have for its group and the others. Where it isn't the image's group, each of these
/// two may have people of the image's group and others in it, so they may do what both of the image may.
fn allowed(image: &Stat, group: u32) -> u32 {
    if group == image.group {
        bits_of(image.reads, image.writes)
    } else {
        bits_of(both(image.reads), both(image.writes))
    }
}

/// The bits of the group and of the others to read and to write.
fn bits_of(reads: Classes, writes: Classes) -> u32 {
    bit(reads.group, 0o040)
        | bit(writes.group, 0o020)
        | bit(reads.others, 0o004)
        | bit(writes.others, 0o002)
}

fn bit(is_set: bool, bit: u32) -> u32 {
    if is_set { bit } else { 0 }
}

/// A permission that both classes have, for each of them.
fn both(classes: Classes) -> Classes {
    let both = classes.group && classes.others;
    Classes {
        group: both,
        others: both,
    }
}
