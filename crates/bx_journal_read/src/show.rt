//! What is written of a journal's text, and of an image beside it, without a session.
pub(crate) mod differences;
pub(crate) mod fault;
pub(crate) mod heading;
pub(crate) mod lengths;
pub(crate) mod lines;
pub(crate) mod marks;
pub(crate) mod ranges;
pub(crate) mod unfinished;
pub(crate) mod way;
pub(crate) mod writing;
