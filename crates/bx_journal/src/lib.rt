//! A journal of changes to an image, a write-ahead undo log by which they are taken back.
//!
//! On a session that `Session::open` answered, a change, its undo and its redo:
//!
//! ```
//! session.perform(change)?;
//! session.undo(1)?;
//! session.redo(1)
//! ```
//!
//! `docs/CALLING.md` has the whole caller, which the gate proves and runs.
//!
//! `docs/SAFETY.md` argues for it.
#![tactic(auto)]

mod forget;
pub mod laws;
mod look;
mod recovery;
mod session;

pub use bx_journal_model::{Devices, LogRow, Recovered, RecoveryOutcome, SessionFault};
pub use bx_journal_read::{Direction, ShowFault, Steps};
pub use bx_journal_store::{FileText, FuseText, MemText, TextStore};
pub use forget::forget_devices;
pub use look::{log_ranges, show_steps};
pub use session::Session;
