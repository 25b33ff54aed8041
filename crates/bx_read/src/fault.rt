//! What a reader refuses.
ghost use Rattle.std.specs.Prelude.{◌≡◌};
ghost use Rattle.bx_read.specs.declared.fault.ReadFault.TheVariants.{NoMemory as OutOfMemory};

use std::alloc::{AllocError, AllocFailed};
use thiserror::Error;

/// What stopped the reading of a text. Lines are counted from 1.
#[derive(Clone, Copy, Debug, PartialEq, Eq, Error)]
pub enum ReadFault {
    /// A growth was refused.
    #[error("out of memory")]
    NoMemory,
    /// The line begins with no hexadecimal digit, or with more than 16.
    #[error("line {line}: bad address")]
    BadAddress { line: u64 },
    /// No colon follows the address.
    #[error("line {line}: missing colon")]
    MissingColon { line: u64 },
    /// What should be pairs of digits, with at most one space between two, isn't.
    #[error("line {line}: bad pair")]
    BadPair { line: u64 },
    /// Nothing follows the colon, or two spaces do.
    #[error("line {line}: no bytes")]
    NoData { line: u64 },
    /// More than 256 pairs.
    #[error("line {line}: more than 256 bytes")]
    TooWide { line: u64 },
    /// The address is 2^62 or more.
    #[error("line {line}: address too large")]
    AddressTooLarge { line: u64 },
    /// The last digit of a plain text has no second one.
    #[error("line {line}: odd number of digits")]
    OddDigits { line: u64 },
}

impl From<AllocError> for ReadFault {
    ghost from_gives = { λ _ fault. fault ≡ OutOfMemory };

    fn from(_: AllocError) -> Self {
        ReadFault::NoMemory
    }
}

impl<T: Drop> From<AllocFailed<T>> for ReadFault {
    ghost from_gives = { λ _ fault. fault ≡ OutOfMemory };

    fn from(_: AllocFailed<T>) -> Self {
        ReadFault::NoMemory
    }
}
