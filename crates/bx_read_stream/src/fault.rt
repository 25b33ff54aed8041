//! What stops the writing of what a dump makes.
ghost use Rattle.std.specs.Prelude.{◌≡◌};

use bx_read::ReadFault;
use bx_text::IoFault;
use thiserror::Error;

/// What stopped the writing of the bytes that a dump makes of nothing. Lines are counted from 1.
#[derive(Clone, Copy, Debug, PartialEq, Eq, Error)]
pub enum StreamFault {
    /// The first faulty line.
    #[error("{0}")]
    Read(ReadFault),
    /// The line's bytes have a place that was written already.
    #[error("line {line}: goes back in a stream")]
    Behind { line: u64 },
    /// The input or the output failed, or a growth was refused.
    #[error("{0}")]
    Io(IoFault),
}
