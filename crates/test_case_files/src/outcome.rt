//! What a command reports: the counts of dd, and what opening finds.

/// Blocks in and out, whole and short ones, and records that were cut, as dd counts them.
#[derive(Clone, Copy, Debug, PartialEq, Eq)]
pub struct Records {
    pub whole_in: u64,
    pub part_in: u64,
    pub whole_out: u64,
    pub part_out: u64,
    pub cut: u64,
}

/// What opening a pair finds.
#[derive(Clone, Copy, Debug, PartialEq, Eq)]
pub enum Opening {
    /// `changes` changes, and nothing behind them; `undone` others can be made again.
    Clean { changes: u32, undone: u32 },
    /// An unfinished change behind `changes` others, which has not touched the image.
    Dropped { changes: u32 },
    /// An unfinished change of this number behind `changes` others, which was taken back.
    Restored { number: u32, changes: u32 },
}
