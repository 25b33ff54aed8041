//! strings: the printable runs of an input.
mod dump;
mod encodings;
mod options;

pub use encodings::strings;
pub use options::{Encoding, StringsOptions};
