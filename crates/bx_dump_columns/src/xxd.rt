//! What stands for the bytes of a line of xxd, and the declaration around the items of a C array.
pub mod binary;
pub mod cells;
pub mod names;
mod tables;
pub mod words;
