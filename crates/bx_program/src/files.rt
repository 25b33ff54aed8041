//! The files of an image: as they are opened to be read, and what is said of those that aren't.
pub mod look;
pub mod names;
pub mod read;
pub mod tail;
mod unfit;
pub mod unopened;
