//! The types of values that stand below another, and how wide they are.
ghost use Rattle.std.specs.Prelude.{◌≡◌, ◌+◌, ◌*◌, ◌<◌, ◌≤◌, length, IfSome, IfNone};
ghost use Rattle.bx_dump.specs.Od.{columns_below, values_width, widest};

use crate::od::below::{Below, Column};
use bx_dump_columns::od::options::Kind;

impl Below {
    /// These types; none where they are more than 15.
    pub fn of(columns: &[Column]) -> Option<Below>
        ensures some { IfSome result (λ below. columns_below below ≡ columns.now) }
        ensures none { IfNone result (15 < length columns.now) }
    {
        if columns.len() > 15 {
            return None;
        }
        let mut all = [Column {
            kind: Kind::Chars,
            text: false,
        }; 15];
        all[..columns.len()].copy_from_slice(columns);
        Some(Below {
            columns: all,
            count: columns.len() as u8,
        })
    }

    /// The types.
    pub(crate) fn as_slice(&self) -> &[Column]
        ensures { result.now ≡ columns_below self.now }
    {
        &self.columns[..self.count as usize]
    }
}

/// How many characters the values of a full line have.
pub(crate) fn values_width(cols: usize, kind: Kind) -> usize
    requires { cols ≤ 256 }
    ensures value { result ≡ values_width cols kind }
    ensures most { result ≤ 5 * cols }
{
    (kind.field() + 1) * (cols / kind.width())
}

/// The most that the values of one of the types have.
pub(crate) fn widest(cols: usize, columns: &[Column]) -> usize
    requires { cols ≤ 256 }
    ensures value { result ≡ widest cols columns.now }
    ensures most { result ≤ 5 * cols }
{
    let mut at = columns.len();
    let mut wide = 0;
    while at > 0 {
        at -= 1;
        wide = values_width(cols, columns[at].kind).max(wide);
    }
    wide
}
