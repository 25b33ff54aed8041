//! Values that own their memory: bytes, pieces, words.
pub(crate) mod bytes;
pub(crate) mod pieces;
pub(crate) mod words;
