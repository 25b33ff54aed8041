//! What each dump is written by: an input read block by block, its text a page at a time, lines that repeat folded.
pub(crate) mod pages;
pub(crate) mod wide;
