//! What a comparison of two files is asked for.
use bx_text::Name;

/// `diff`: the files that are compared, and how it writes what differs.
#[derive(Drop)]
pub struct DiffJob {
    /// Whether a row of 16 bytes is written whole where a byte of it differs.
    pub rows: bool,
    /// Whether nothing is written, and it only answers whether they are equal.
    pub quiet: bool,
    /// The name of the old file.
    pub old: Name,
    /// The name of the new file.
    pub new: Name,
}
