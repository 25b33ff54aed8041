//! Looks at the changes of an image, by the names of its files: which stand, and what the next undo or redo does; the files are only
//! read.
pub mod devices;
pub mod error;
mod kinds;
pub mod lent;
mod listed;
pub mod noted;
mod shown;
mod stepped;
mod unfinished;

pub use error::ReportError;
pub use kinds::{Report, write_report};
pub use listed::{log, log_with_ranges};
pub use shown::{show, show_unfinished};
pub use stepped::show_patch;
pub use unfinished::log_unfinished;
