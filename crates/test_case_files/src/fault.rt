//! What makes a case file bad.
ghost use Rattle.std.specs.Prelude.{◌≡◌};
ghost use Rattle.test_case_files.specs.declared.fault.CaseFault.TheVariants.{NoMemory as OutOfMemory};

use std::alloc::{AllocError, AllocFailed};
use thiserror::Error;

/// What is wrong with a line.
#[derive(Clone, Copy, Debug, PartialEq, Eq, Error)]
pub enum Trouble {
    /// No colon follows a word, or no space follows the colon or the mark.
    #[error("no colon and space")]
    NoColon,
    /// No kind has a line of this word, or there is no such kind.
    #[error("unknown word")]
    UnknownWord,
    /// The line doesn't belong where it stands.
    #[error("line out of place")]
    Misplaced,
    /// Nothing stands behind the colon.
    #[error("missing value")]
    MissingValue,
    /// The text ends, or another line stands, where a line of this word has to be.
    #[error("`{0}` is missing")]
    MissingLine(&'static str),
    /// The last digit of some bytes has no second one.
    #[error("odd digits")]
    OddDigits,
    /// What should be a part of some bytes isn't.
    #[error("bad bytes")]
    BadBytes,
    /// A text in quotes has no end, or a backslash with something unknown behind it.
    #[error("bad text in quotes")]
    BadQuoted,
    /// What should be a number isn't, or is too large.
    #[error("bad number")]
    BadNumber,
    /// A text isn't UTF-8.
    #[error("not UTF-8")]
    NotUtf8,
    /// What should be a reply, an opening or counts isn't.
    #[error("bad answer")]
    BadAnswer,
}

/// What makes a case file bad. Lines are counted from 1.
#[derive(Clone, Copy, Debug, PartialEq, Eq, Error)]
pub enum CaseFault {
    /// A growth was refused.
    #[error("out of memory")]
    NoMemory,
    /// The line is wrong.
    #[error("line {line}: {trouble}")]
    At { line: u64, trouble: Trouble },
}

impl CaseFault {
    /// The trouble at a line.
    pub fn at(line: u64, trouble: Trouble) -> Self
        ensures { result ≡ CaseFault.At line trouble }
    {
        CaseFault::At { line, trouble }
    }
}

impl From<AllocError> for CaseFault {
    ghost from_gives = { λ _ fault. fault ≡ OutOfMemory };

    fn from(_: AllocError) -> Self {
        CaseFault::NoMemory
    }
}

impl<T: Drop> From<AllocFailed<T>> for CaseFault {
    ghost from_gives = { λ _ fault. fault ≡ OutOfMemory };

    fn from(_: AllocFailed<T>) -> Self {
        CaseFault::NoMemory
    }
}

impl From<bx_text::NoMemory> for CaseFault {
    ghost from_gives = { λ _ fault. fault ≡ OutOfMemory };

    fn from(_: bx_text::NoMemory) -> Self {
        CaseFault::NoMemory
    }
}
