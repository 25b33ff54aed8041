//! Whether an image is the one that a line is of, also where something is unfinished beside it.
pub(crate) mod judge;
pub(crate) mod unfinished;
