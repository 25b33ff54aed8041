//! A dump of a named file: opened by its name, lent behind the bytes that a seek passes, and closed; and of an input, which is read
//! from where it stands.
mod dumped;
mod error;
mod placed;

pub use dumped::{dump_file, dump_input};
pub use error::DumpError;
