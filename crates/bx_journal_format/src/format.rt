//! The words of an entry: numbers and lines, how long they are, and the digits of many bytes at once.
mod hex;
pub(crate) mod lanes;
pub(crate) mod length;
pub(crate) mod line;
pub(crate) mod newline;
pub(crate) mod version;
pub(crate) mod words;
