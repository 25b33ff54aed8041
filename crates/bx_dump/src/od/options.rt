//! What od shows.
ghost use Rattle.std.specs.Prelude.{◌<◌, ◌≤◌, ◌^◌};

use crate::od::below::Below;
use bx_dump_columns::od::options::{Address, Endian, Kind};

/// What od shows.
#[derive(Clone, Copy, Debug, PartialEq, Eq)]
pub struct OdOptions {
    pub address: Address,
    pub kind: Kind,
    /// Whether the bytes stand as text behind the values.
    pub text: bool,
    /// What stands below these values, for the same bytes.
    pub below: Below,
    /// Which byte of a number is the first.
    pub endian: Endian,
    /// The bytes of a line, 1 to 256. A value that stands on two lines would be shown as two.
    pub width: u16,
    /// The address of the input's first byte, at most 2^62: 0, or how many bytes stand in front of an input that begins later.
    pub first: u64,
    /// How many bytes are skipped: at most 2^62.
    pub skip: u64,
    /// The most bytes that are dumped.
    pub limit: Option<u64>,
    /// Whether lines that repeat the line before are shown too.
    pub all: bool,
    ghost low: { first ≤ 2 ^ 62 },
    ghost some: { 0 < width },
    ghost narrow: { width ≤ 256 },
    ghost near: { skip ≤ 2 ^ 62 },
}
