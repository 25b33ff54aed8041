//! What can fail when bytes are read and written.
use thiserror::Error;

/// A growth was refused.
#[derive(Clone, Copy, Debug, PartialEq, Eq, Error)]
#[error("out of memory")]
pub struct NoMemory;

/// What stopped a reading or a writing.
#[derive(Clone, Copy, Debug, PartialEq, Eq, Error)]
pub enum IoFault {
    /// A growth was refused.
    #[error("out of memory")]
    NoMemory,
    /// The reader failed, or was interrupted 1,000 times in a row.
    #[error("read failed")]
    ReadFailed,
    /// The writer failed, took no byte, or was interrupted 1,000 times in a row. `written` bytes went out before.
    #[error("write failed after {written} bytes")]
    WriteFailed { written: u64 },
    /// The input has a byte past the limit.
    #[error("input too long")]
    InputTooLong,
    /// The input ends before the bytes that were to be skipped.
    #[error("skip is past the end of the input")]
    SkipPastEnd,
}
