//! How xxd dumps.
ghost use Rattle.std.specs.Prelude.{◌<◌, ◌≤◌, ◌+◌, ◌^◌};

/// The style of the lines.
#[derive(Clone, Copy)]
pub enum XxdStyle<'a> {
    /// An address, hexadecimal digits in groups, and the bytes as text.
    Normal,
    /// Hexadecimal digits alone.
    Plain,
    /// As `Normal`, with binary digits.
    Bits,
    /// The items of a C array, and its declaration where it has a name.
    Include(Option<&'a str>),
    /// Hexadecimal digits alone, all on one line.
    Unbroken,
    /// As `Normal`, or as `Bits`, with addresses in decimal.
    Decimal {
        /// Whether bytes are binary digits.
        bits: bool,
    },
    /// As `Normal`, with each group as a number whose first byte is the lowest (little-endian), at the right of its column.
    Words {
        /// Whether addresses are decimal.
        decimal: bool,
    },
}

/// What xxd dumps, and how.
#[derive(Clone, Copy, Debug, PartialEq, Eq)]
pub struct XxdOptions {
    /// The bytes of a line: 1 to 256.
    pub cols: u16,
    /// The bytes of a group, at most 256; 0 for one group of all columns.
    pub group: u16,
    /// The most bytes that are dumped.
    pub limit: Option<u64>,
    /// How many bytes are skipped: at most 2^62.
    pub seek: u64,
    /// What is added to each address: at most 2^63 less `seek`.
    pub shift: u64,
    /// Hexadecimal digits above 9 in upper case.
    pub upper: bool,
    /// A `*` stands for all but the first of three and more lines of zeros in a row; the last line is shown (autoskip).
    pub autoskip: bool,
    ghost some: { 0 < cols },
    ghost few: { cols ≤ 256 },
    ghost small_groups: { group ≤ 256 },
    ghost near: { seek ≤ 2 ^ 62 },
    ghost low: { seek + shift ≤ 2 ^ 63 },
}
