//! What can be wrong with operands, and what can stop a transfer.
ghost use Rattle.std.specs.Prelude.{◌≡◌};
ghost use Rattle.bx_dd.specs.declared.fault.DdFault.TheVariants.{NoMemory};

use std::alloc::AllocError;
use thiserror::Error;

/// The faults of dd. An operand's place is counted from 1.
#[derive(Clone, Copy, Debug, PartialEq, Eq, Error)]
pub enum DdFault {
    #[error("out of memory")]
    NoMemory,
    #[error("read failed")]
    ReadFailed,
    #[error("input too long")]
    InputTooLong,
    #[error("operand {0}: unknown")]
    UnknownOperand(u64),
    #[error("operand {0}: bad number")]
    BadNumber(u64),
    #[error("operand {0}: number too large")]
    NumberTooLarge(u64),
    #[error("operand {0}: zero size")]
    ZeroSize(u64),
    #[error("conflicting conversions")]
    Conflict,
    #[error("cbs is missing")]
    MissingCbs,
    #[error("operand {0}: given twice")]
    Repeated(u64),
    #[error("seek needs an output file")]
    SeekWithoutOutput,
}

impl From<AllocError> for DdFault {
    ghost from_gives = { λ _ e. e ≡ NoMemory };

    fn from(_error: AllocError) -> Self {
        DdFault::NoMemory
    }
}
