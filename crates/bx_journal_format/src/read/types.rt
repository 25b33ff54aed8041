//! What a journal's text was read as so far.
use crate::Version;
use bx_image::Saved;
use bx_text::Piece;
use std::alloc::{Allocator, Global};

/// What stands before a text that is read: `count` entries, whose last one tells this length, in `at` bytes and `lines`
/// lines.
#[derive(Clone, Copy)]
pub struct Front {
    pub count: u32,
    pub told: Option<u64>,
    pub at: u64,
    pub lines: u64,
}

/// A finished entry, and where it begins and its save line ends.
#[derive(Drop)]
pub struct EntryRead<A: Allocator = Global> {
    pub version: Version,
    pub kept: Saved<A>,
    pub after: Option<u64>,
    pub begins: u64,
    pub saved: u64,
}

/// Between two entries, or in one that begins at `begins`, and whose save line ends at `saved`.
#[derive(Drop)]
pub enum StageRead<A: Allocator = Global> {
    Between,
    Saving {
        version: Version,
        len: u64,
        runs: Vec<Piece<A>, A>,
        begins: u64,
    },
    Ending {
        version: Version,
        kept: Saved<A>,
        begins: u64,
        saved: u64,
    },
}
