//! What strings shows.
ghost use Rattle.std.specs.Prelude.{◌<◌, ◌≤◌};

use bx_dump_columns::od::options::Address;

/// The characters of a run (`-e` of GNU strings).
#[derive(Clone, Copy, Debug, PartialEq, Eq)]
pub enum Encoding {
    /// One byte, 0x20 to 0x7e.
    SevenBits,
    /// One byte, 0x20 to 0x7e or from 0x80 on.
    EightBits,
    /// Two bytes.
    SixteenBits {
        /// Whether the first is the higher one.
        big: bool,
    },
    /// Four bytes.
    ThirtyTwoBits {
        /// Whether the first is the highest one.
        big: bool,
    },
}

/// Which runs are shown, and how.
#[derive(Clone, Copy, Debug, PartialEq, Eq)]
pub struct StringsOptions {
    /// What its characters are.
    pub encoding: Encoding,
    /// The fewest characters of a run: 1 to 4,096.
    pub least: u16,
    /// How the place of a run is written before it.
    pub offsets: Address,
    ghost some: { 0 < least },
    ghost few: { least ≤ 4096 },
}
