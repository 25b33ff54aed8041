//! The files of a case in a world in memory: the image by a link, its texts, and another file.
use bx_text::{Name, NoMemory};
use bx_world::{Classes, Guard, Kind, Names, Stat};
use std::alloc::{AllocError, Global};
use test_world::MemoryWorld;

pub const LINK: &str = "disk";

pub const IMAGE: &str = "disk.img";

pub const JOURNAL: &str = "disk.bxj";

pub const REDO: &str = "disk.bxr";

pub const OTHER: &str = "other.img";

/// What the other file holds.
pub const OTHER_BYTES: &[u8] = b"another image";

/// Where a link leads that is none of the three names.
pub const ELSEWHERE: &str = "elsewhere";

/// Who runs the program, and has the files.
pub const CALLER: u32 = 1000;

/// What a command may do where no option says more.
pub const CAREFUL: Guard = Guard {
    mounted: false,
    anyway: false,
    told: false,
    named: false,
};

/// What the system tells of each file.
pub const STAT: Stat = Stat {
    kind: Kind::Regular,
    owner: CALLER,
    group: 100,
    is_group_given: false,
    reads: Classes {
        group: true,
        others: false,
    },
    writes: Classes {
        group: false,
        others: false,
    },
    links: 1,
    is_mounted: false,
    is_read_only: false,
};

/// The bytes of an image and its texts.
#[derive(Clone, Copy)]
pub struct Held<'a> {
    pub image: &'a [u8],
    pub journal: &'a [u8],
    pub redo: &'a [u8],
}

impl<'a> Held<'a> {
    /// Whether both are the same.
    pub fn is_same(self, other: Held<'_>) -> bool {
        self.image == other.image && self.journal == other.journal && self.redo == other.redo
    }
}

/// A copy of what the three hold.
#[derive(Drop)]
pub struct Kept {
    pub image: Vec<u8>,
    pub journal: Vec<u8>,
    pub redo: Vec<u8>,
}

impl Kept {
    pub fn held(&self) -> Held<'_> {
        Held {
            image: self.image.as_slice(),
            journal: self.journal.as_slice(),
            redo: self.redo.as_slice(),
        }
    }

    pub fn of(alloc: Global, held: Held<'_>) -> Result<Self, AllocError> {
        Ok(Kept {
            image: held.image.to_vec(alloc)?,
            journal: held.journal.to_vec(alloc)?,
            redo: held.redo.to_vec(alloc)?,
        })
    }
}

/// Which of the three files are there, and whether something is where a link may lead.
#[derive(Clone, Copy, Debug, PartialEq, Eq)]
pub struct There {
    pub image: bool,
    pub journal: bool,
    pub redo: bool,
    pub elsewhere: bool,
}

/// 1 for a file that is there now, and wasn't before.
fn one_new(before: bool, now: bool) -> u64 {
    if now && !before { 1 } else { 0 }
}

impl There {
    /// The three, and nothing elsewhere.
    pub const ALL: There = There {
        image: true,
        journal: true,
        redo: true,
        elsewhere: false,
    };

    /// Whether all that was there before is there now.
    fn has_each(self, before: There) -> bool {
        (self.image || !before.image)
            && (self.journal || !before.journal)
            && (self.redo || !before.redo)
            && (self.elsewhere || !before.elsewhere)
    }

    /// How many are there that weren't before; none where one is gone.
    pub fn news(self, before: There) -> Option<u64> {
        if !self.has_each(before) {
            return None;
        }
        Some(
            one_new(before.image, self.image)
                .saturating_add(one_new(before.journal, self.journal))
                .saturating_add(one_new(before.redo, self.redo))
                .saturating_add(one_new(before.elsewhere, self.elsewhere)),
        )
    }
}

fn name_of(alloc: Global, text: &str) -> Result<Name, AllocError> {
    Ok(Name::from_string(String::from_str(alloc, text)?))
}

/// These names, by which files are opened.
pub fn names_of(
    alloc: Global,
    image: &str,
    journal: &str,
    redo: &str,
) -> Result<Names, AllocError> {
    Ok(Names {
        image: name_of(alloc, image)?,
        journal: name_of(alloc, journal)?,
        redo: name_of(alloc, redo)?,
    })
}

/// The names by which the files are opened.
pub fn names(alloc: Global) -> Result<Names, AllocError> {
    names_of(alloc, LINK, JOURNAL, REDO)
}

/// Puts those files into a world that are there, and where it is to be so the link.
fn fill(
    world: &mut MemoryWorld,
    held: Held<'_>,
    there: There,
    is_linked: bool,
) -> Result<(), NoMemory> {
    if there.image {
        world.put_file(IMAGE, held.image, STAT)?;
    }
    if is_linked {
        world.put_link(LINK, IMAGE)?;
    }
    if there.journal {
        world.put_file(JOURNAL, held.journal, STAT)?;
    }
    if there.redo {
        world.put_file(REDO, held.redo, STAT)?;
    }
    world.put_file(OTHER, OTHER_BYTES, STAT)
}

/// A world with those of the files that are there, and a link to the image or to nothing, or none.
pub fn world_with(
    alloc: Global,
    held: Held<'_>,
    there: There,
    is_linked: bool,
) -> Result<MemoryWorld, NoMemory> {
    let mut world = MemoryWorld::new(alloc, CALLER);
    fill(&mut world, held, there, is_linked)?;
    Ok(world)
}

/// Which files are there, where a redo text without bytes is missing.
pub fn there_of(held: Held<'_>) -> There {
    let mut there = There::ALL;
    there.redo = !held.redo.is_empty();
    there
}

/// A world with these files, where a redo text without bytes is missing.
pub fn world_of(alloc: Global, held: Held<'_>) -> Result<MemoryWorld, NoMemory> {
    world_with(alloc, held, there_of(held), true)
}

/// What the three files of a world hold.
pub fn held_by(world: &MemoryWorld) -> Held<'_> {
    Held {
        image: world.bytes_of(LINK).unwrap_or(b""),
        journal: world.bytes_of(JOURNAL).unwrap_or(b""),
        redo: world.bytes_of(REDO).unwrap_or(b""),
    }
}

/// Which files are there in a world.
pub fn there_in(world: &MemoryWorld) -> There {
    There {
        image: world.bytes_of(LINK).is_some(),
        journal: world.bytes_of(JOURNAL).is_some(),
        redo: world.bytes_of(REDO).is_some(),
        elsewhere: world.bytes_of(ELSEWHERE).is_some(),
    }
}

/// Whether the other file holds what it held.
pub fn has_other(world: &MemoryWorld) -> bool {
    world.bytes_of(OTHER) == Some(OTHER_BYTES)
}
