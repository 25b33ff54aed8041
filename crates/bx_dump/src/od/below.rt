//! The types of values that stand below another.
ghost use Rattle.std.specs.Prelude.{◌≤◌};

use bx_dump_columns::od::options::Kind;

/// A type of values.
#[derive(Clone, Copy, Debug, PartialEq, Eq)]
pub struct Column {
    /// What the bytes are shown as.
    pub kind: Kind,
    /// Whether the bytes stand as text behind the values.
    pub text: bool,
}

/// Up to 15 types of values.
#[derive(Clone, Copy, Debug, PartialEq, Eq)]
pub struct Below {
    /// The types, and behind them any.
    pub columns: [Column; 15],
    /// How many they are, at most 15.
    pub count: u8,
    ghost few: { count ≤ 15 },
}
