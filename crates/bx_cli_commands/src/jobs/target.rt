//! The image that a job works on, its texts, and how it is used.
ghost use Rattle.std.specs.Prelude.{◌≡◌, ◌++◌, codes};

use bx_text::Name;

/// The names of the two texts beside an image.
#[derive(Drop)]
pub struct Texts {
    /// The name of the journal.
    pub journal: Name,
    /// The name of the redo file: the journal's, followed by `.redo`.
    pub redo: Name,
    ghost named: { redo ≡ journal ++ codes ".redo" },
}

/// Whether a job on an image waits for the disk.
#[derive(Clone, Copy, Debug, PartialEq, Eq)]
pub enum Durability {
    /// Each step is on the disk before the next one begins.
    Synced,
    /// Nothing is forced onto the disk: a loss of power may take what was written, in any order.
    Unsynced,
}

/// How a job uses an image and its texts.
#[derive(Clone, Copy, Debug, PartialEq, Eq)]
pub struct Access {
    /// Whether it waits for the disk.
    pub durability: Durability,
    /// Whether it changes a block device that is mounted.
    pub mounted: bool,
    /// Whether it goes on where the image isn't the one that was left.
    pub anyway: bool,
}

/// The image of a job, with its texts.
#[derive(Drop)]
pub struct Target {
    /// The name of the image.
    pub image: Name,
    /// The names of its texts.
    pub texts: Texts,
    /// How the three are used.
    pub access: Access,
}
