//! Commands that only read: dumps of named files and of an input, and reports of the changes of an image. An inner part of `bx_run`.
//!
//! `docs/FORMATS.md` has what they write.
#![tactic(auto)]

mod dump;
mod report;

pub use dump::{DumpError, dump_file, dump_input};
pub use report::devices::{Seen, closed, is_whole};
pub use report::error::reason_of;
pub use report::lent::close;
pub use report::noted::{NoteLine, read_note_line};
pub use report::{Report, ReportError, write_report};
