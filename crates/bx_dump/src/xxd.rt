//! xxd: its lines and its dump.
mod columns;
mod decimal;
mod dump;
mod lines;
mod options;
mod rows;
mod words;
mod zeros;

pub use columns::Digits;
pub use dump::xxd;
pub use options::{XxdOptions, XxdStyle};
