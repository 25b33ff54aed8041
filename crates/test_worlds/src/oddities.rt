//! What is odd about a file that may not be opened, and why it is refused.
use crate::setting::{
    CALLER, ELSEWHERE, Held, IMAGE, JOURNAL, LINK, OTHER, OTHER_BYTES, REDO, STAT, There, names_of,
};
use bx_text::NoMemory;
use bx_world::{FileRole, Kind, Names, OpenFailure, Refusal, Stat, Unfit};
use std::alloc::{AllocError, Global};
use test_world::MemoryWorld;

/// Somebody who neither runs the program nor owns the image.
const THIRD: u32 = 1001;

/// What is odd about a file.
#[derive(Clone, Copy, Debug, PartialEq, Eq)]
pub enum Oddity {
    Missing,
    Link,
    Itself,
    DeadLink,
    Folder,
    SecondName,
    Third,
    Readers,
    Writers,
    Mounted,
    ReadOnly,
    Image,
    Journal,
}

/// A file that may not be opened: what it is called, which one it is, what is odd about it, and why it is refused.
pub type Odd = (&'static str, FileRole, Oddity, OpenFailure);

/// Those that are played where all three are there.
pub static ODDS: [Odd; 20] = [
    (
        "an image that is missing",
        FileRole::Image,
        Oddity::Missing,
        OpenFailure::System(Refusal::Missing),
    ),
    (
        "an image that is a folder",
        FileRole::Image,
        Oddity::Folder,
        OpenFailure::Unfit(Unfit::Kind),
    ),
    (
        "an image that is mounted",
        FileRole::Image,
        Oddity::Mounted,
        OpenFailure::Unfit(Unfit::Mounted),
    ),
    (
        "an image that is read-only",
        FileRole::Image,
        Oddity::ReadOnly,
        OpenFailure::Unfit(Unfit::ReadOnly),
    ),
    (
        "a journal that is missing",
        FileRole::Journal,
        Oddity::Missing,
        OpenFailure::System(Refusal::Missing),
    ),
    (
        "a journal that is a link",
        FileRole::Journal,
        Oddity::Link,
        OpenFailure::Unfit(Unfit::Link),
    ),
    (
        "a journal that is a folder",
        FileRole::Journal,
        Oddity::Folder,
        OpenFailure::Unfit(Unfit::Kind),
    ),
    (
        "a journal with a second name",
        FileRole::Journal,
        Oddity::SecondName,
        OpenFailure::Unfit(Unfit::Names),
    ),
    (
        "a journal of a third person",
        FileRole::Journal,
        Oddity::Third,
        OpenFailure::Unfit(Unfit::Owner),
    ),
    (
        "a journal that others read",
        FileRole::Journal,
        Oddity::Readers,
        OpenFailure::Unfit(Unfit::Readers),
    ),
    (
        "a journal that others write",
        FileRole::Journal,
        Oddity::Writers,
        OpenFailure::Unfit(Unfit::Writers),
    ),
    (
        "a journal that is the image",
        FileRole::Journal,
        Oddity::Image,
        OpenFailure::Alias,
    ),
    (
        "a redo text that is a link",
        FileRole::Redo,
        Oddity::Link,
        OpenFailure::Unfit(Unfit::Link),
    ),
    (
        "a redo text that is a link to nothing",
        FileRole::Redo,
        Oddity::DeadLink,
        OpenFailure::Unfit(Unfit::Link),
    ),
    (
        "a redo text with a second name",
        FileRole::Redo,
        Oddity::SecondName,
        OpenFailure::Unfit(Unfit::Names),
    ),
    (
        "a redo text of a third person",
        FileRole::Redo,
        Oddity::Third,
        OpenFailure::Unfit(Unfit::Owner),
    ),
    (
        "a redo text that others read",
        FileRole::Redo,
        Oddity::Readers,
        OpenFailure::Unfit(Unfit::Readers),
    ),
    (
        "a redo text that others write",
        FileRole::Redo,
        Oddity::Writers,
        OpenFailure::Unfit(Unfit::Writers),
    ),
    (
        "a redo text that is the image",
        FileRole::Redo,
        Oddity::Image,
        OpenFailure::Alias,
    ),
    (
        "a redo text that is the journal",
        FileRole::Redo,
        Oddity::Journal,
        OpenFailure::Alias,
    ),
];

/// Those that are played where image and journal are missing and are to be made: they stand beside nothing, and a text that is the image
/// has the name that the image is made under.
pub static ODDS_OF_MADE: [Odd; 16] = [
    (
        "an image by a link to itself",
        FileRole::Image,
        Oddity::Itself,
        OpenFailure::System(Refusal::Other(None)),
    ),
    (
        "a journal that is a link",
        FileRole::Journal,
        Oddity::Link,
        OpenFailure::Unfit(Unfit::Link),
    ),
    (
        "a journal that is a link to nothing",
        FileRole::Journal,
        Oddity::DeadLink,
        OpenFailure::Unfit(Unfit::Link),
    ),
    (
        "a journal that is a folder",
        FileRole::Journal,
        Oddity::Folder,
        OpenFailure::Unfit(Unfit::Kind),
    ),
    (
        "a journal with a second name",
        FileRole::Journal,
        Oddity::SecondName,
        OpenFailure::Unfit(Unfit::Names),
    ),
    (
        "a journal of a third person",
        FileRole::Journal,
        Oddity::Third,
        OpenFailure::Unfit(Unfit::Owner),
    ),
    (
        "a journal that others write",
        FileRole::Journal,
        Oddity::Writers,
        OpenFailure::Unfit(Unfit::Writers),
    ),
    (
        "a redo text that is a link",
        FileRole::Redo,
        Oddity::Link,
        OpenFailure::Unfit(Unfit::Link),
    ),
    (
        "a redo text that is a link to nothing",
        FileRole::Redo,
        Oddity::DeadLink,
        OpenFailure::Unfit(Unfit::Link),
    ),
    (
        "a redo text that is a folder",
        FileRole::Redo,
        Oddity::Folder,
        OpenFailure::Unfit(Unfit::Kind),
    ),
    (
        "a redo text with a second name",
        FileRole::Redo,
        Oddity::SecondName,
        OpenFailure::Unfit(Unfit::Names),
    ),
    (
        "a redo text of a third person",
        FileRole::Redo,
        Oddity::Third,
        OpenFailure::Unfit(Unfit::Owner),
    ),
    (
        "a redo text that others write",
        FileRole::Redo,
        Oddity::Writers,
        OpenFailure::Unfit(Unfit::Writers),
    ),
    (
        "a journal of the image's name",
        FileRole::Journal,
        Oddity::Image,
        OpenFailure::Alias,
    ),
    (
        "a redo text of the image's name",
        FileRole::Redo,
        Oddity::Image,
        OpenFailure::Alias,
    ),
    (
        "a redo text of the journal's name",
        FileRole::Redo,
        Oddity::Journal,
        OpenFailure::Alias,
    ),
];

/// What the system tells of an odd file.
fn stat_of(oddity: Oddity) -> Stat {
    let mut stat = STAT;
    match oddity {
        Oddity::Folder => stat.kind = Kind::Other,
        Oddity::SecondName => stat.links = 2,
        Oddity::Third => stat.owner = THIRD,
        Oddity::Readers => stat.reads.others = true,
        Oddity::Writers => stat.writes.others = true,
        Oddity::Mounted => {
            stat.kind = Kind::Block;
            stat.is_mounted = true;
        }
        Oddity::ReadOnly => {
            stat.kind = Kind::Block;
            stat.is_read_only = true;
        }
        Oddity::Missing
        | Oddity::Link
        | Oddity::Itself
        | Oddity::DeadLink
        | Oddity::Image
        | Oddity::Journal => {}
    }
    stat
}

/// Puts an odd file into a world.
fn put_odd(
    world: &mut MemoryWorld,
    name: &str,
    bytes: &[u8],
    oddity: Oddity,
) -> Result<(), NoMemory> {
    match oddity {
        Oddity::Missing => Ok(()),
        Oddity::DeadLink => world.put_link(name, ELSEWHERE),
        Oddity::Itself => world.put_link(LINK, LINK),
        Oddity::Link => {
            world.put_file(ELSEWHERE, bytes, STAT)?;
            world.put_link(name, ELSEWHERE)
        }
        Oddity::Image => world.put_name(name, IMAGE),
        Oddity::Journal => world.put_name(name, JOURNAL),
        Oddity::Folder
        | Oddity::SecondName
        | Oddity::Third
        | Oddity::Readers
        | Oddity::Writers
        | Oddity::Mounted
        | Oddity::ReadOnly => world.put_file(name, bytes, stat_of(oddity)),
    }
}

/// Puts a file into a world where it is there, which is odd if it is this one.
fn put(
    world: &mut MemoryWorld,
    odd: &Odd,
    which: FileRole,
    is_there: bool,
    bytes: &[u8],
) -> Result<(), NoMemory> {
    let name = match which {
        FileRole::Image => IMAGE,
        FileRole::Journal => JOURNAL,
        FileRole::Redo => REDO,
    };
    let (_, is_odd, oddity, _) = *odd;
    if is_odd == which {
        put_odd(world, name, bytes, oddity)
    } else if is_there {
        world.put_file(name, bytes, STAT)
    } else {
        Ok(())
    }
}

/// A world with those of the files that are there, a link to the image, and this odd one.
pub fn world_of_odd(
    alloc: Global,
    held: Held<'_>,
    there: There,
    odd: &Odd,
) -> Result<MemoryWorld, NoMemory> {
    let mut world = MemoryWorld::new(alloc, CALLER);
    world.put_link(LINK, IMAGE)?;
    put(&mut world, odd, FileRole::Image, there.image, held.image)?;
    put(
        &mut world,
        odd,
        FileRole::Journal,
        there.journal,
        held.journal,
    )?;
    put(&mut world, odd, FileRole::Redo, there.redo, held.redo)?;
    world.put_file(OTHER, OTHER_BYTES, STAT)?;
    Ok(world)
}

/// The names by which files are opened that are made: a text that is another file has its name.
pub fn names_of_odd(alloc: Global, odd: &Odd) -> Result<Names, AllocError> {
    let (_, which, oddity, _) = *odd;
    let of_other = match oddity {
        Oddity::Image => Some(IMAGE),
        Oddity::Journal => Some(JOURNAL),
        Oddity::Missing
        | Oddity::Link
        | Oddity::Itself
        | Oddity::DeadLink
        | Oddity::Folder
        | Oddity::SecondName
        | Oddity::Third
        | Oddity::Readers
        | Oddity::Writers
        | Oddity::Mounted
        | Oddity::ReadOnly => None,
    };
    match (which, of_other) {
        (FileRole::Journal, Some(name)) => names_of(alloc, LINK, name, REDO),
        (FileRole::Redo, Some(name)) => names_of(alloc, LINK, JOURNAL, name),
        (FileRole::Image, Some(_)) | (_, None) => names_of(alloc, LINK, JOURNAL, REDO),
    }
}
