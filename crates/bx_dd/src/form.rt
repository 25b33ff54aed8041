//! How an input is converted.

/// The case that ASCII letters are put in.
#[derive(Clone, Copy, Debug, PartialEq, Eq)]
pub enum Letters {
    /// Letters stay as they are.
    Keep,
    /// `conv=ucase`.
    Upper,
    /// `conv=lcase`.
    Lower,
}

/// Between lines and records of one size.
#[derive(Clone, Copy, Debug, PartialEq, Eq)]
pub enum Shape {
    /// Bytes stay where they are.
    Flat,
    /// `conv=block`: lines become records of one size.
    Block,
    /// `conv=unblock`: records of one size become lines.
    Unblock,
}

/// The sizes and conversions of a plan. Sizes are in bytes.
#[derive(Clone, Copy, Debug, PartialEq, Eq)]
pub struct Form {
    /// The size of an input block.
    pub ibs: u64,
    /// The size of an output block, by which output is counted.
    pub obs: u64,
    /// The size of a record, 0 where none was given.
    pub cbs: u64,
    /// Whether the bytes of each pair in a block change places.
    pub swab: bool,
    /// Whether a short block is filled up.
    pub sync: bool,
    pub letters: Letters,
    pub shape: Shape,
}
