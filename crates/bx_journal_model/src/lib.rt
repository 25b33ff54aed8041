//! What a journal's text and an image stand for, with the types and the faults of a session: what reading a journal and writing it
//! both stand on. An inner part of `bx_journal`.
//!
//! `docs/SAFETY.md` argues for it.
#![tactic(auto)]

mod answers;
mod devices;
mod entries;
mod fault;
mod long;
mod mark;
mod window;

pub use answers::{LogRow, Recovered, RecoveryOutcome};
pub use devices::Devices;
pub use entries::FinishedRead;
pub use fault::{SessionFault, of_redo, of_text};
pub use long::{Cut, long_line, newline_from, passed, read_cut};
pub use mark::{Mark, start_size};
pub use window::{WINDOW, enough_of};
