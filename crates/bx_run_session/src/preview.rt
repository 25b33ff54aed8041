//! What two files differ in, and what a change would, which isn't made; the files are only read.
mod diff;
mod error;
mod made;
mod named;
mod write;

pub use diff::{DiffError, write_diff};
pub use error::PreviewError;
pub use write::write_preview;
