//! What a session's calls answer.

/// What opening found behind the finished entries.
#[derive(Clone, Copy, Debug, PartialEq, Eq)]
pub enum RecoveryOutcome {
    /// Nothing.
    Clean,
    /// An entry without its save line, whose change had not begun. It was cut off.
    Dropped,
    /// An entry with its save line. Its change was taken back, and it was cut off.
    Restored { number: u32 },
}

/// What opening found, how many changes stand, and how many are undone.
#[derive(Clone, Copy, Debug, PartialEq, Eq)]
pub struct Recovered {
    pub how: RecoveryOutcome,
    pub changes: u32,
    pub undone: u32,
}

/// One change of a journal: its number from 1, the image's length in bytes before it, and how many bytes its saved
/// lines have.
#[derive(Clone, Copy, Debug, PartialEq, Eq)]
pub struct LogRow {
    pub number: u32,
    pub old_len: u64,
    pub saved: u64,
}
