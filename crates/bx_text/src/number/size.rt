//! How sizes are written.
use thiserror::Error;

/// How a size is written.
#[derive(Clone, Copy, Debug, PartialEq, Eq)]
pub enum SizeStyle {
    /// Decimal, after `0x` or `0X` hexadecimal, after another leading `0` octal; then perhaps one of `b` (512), `k`
    /// (1,024) and `m` (1,048,576), where it isn't a digit. At most 2^62.
    Count,
    /// The same without a suffix. At most 2^62.
    Bare,
    /// Decimal factors with `x` between them, each perhaps followed by one of `b` (512), `k` or `K` (1,024), `M`
    /// (1,048,576) and `G` (1,073,741,824). At most 2^40 - 1.
    Product,
}

/// Why a size isn't one.
#[derive(Clone, Copy, Debug, PartialEq, Eq, Error)]
pub enum SizeFault {
    /// The text isn't of the form.
    #[error("bad number")]
    Bad,
    /// It is, and the number is above the greatest one.
    #[error("number too large")]
    TooLarge,
}
