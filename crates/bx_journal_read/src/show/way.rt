//! Steps over changes: which way, how many, and one of them.
use bx_journal_format::Mark;

/// Which way changes are stepped over.
#[derive(Clone, Copy, Debug, PartialEq, Eq)]
pub enum Direction {
    /// Changes are taken back, the newest first.
    Undo,
    /// Undone changes are made again, the one that was undone last first.
    Redo,
}

/// What is shown: `count` steps that way. `changes` is how many changes stand: a redo makes change `changes + 1` first.
/// `compares` puts beside each saved line what the image has there.
#[derive(Clone, Copy, Debug)]
pub struct Steps {
    pub way: Direction,
    pub count: u32,
    pub changes: u32,
    pub compares: bool,
}

/// One of the steps: over the change of this number, whose entry has this mark.
#[derive(Clone, Copy)]
pub struct Step {
    pub steps: Steps,
    pub number: u64,
    pub mark: Mark,
}
