//! An undo, a redo or a change of named files, and what a change would make of them. An inner part of `bx_run`.
//!
//! `docs/SAFETY.md` argues why an undo is safe, and `docs/FORMATS.md` has the order of what is done to the files ("Order of device
//! calls").
#![tactic(auto)]

mod edit;
mod preview;
mod session;

pub use edit::{Edit, ReadEdit, task_of};
pub use preview::{DiffError, PreviewError, write_diff, write_preview};
pub use session::{Answer, Moved, Task, change_files, is_whole_refusal, move_changes};
