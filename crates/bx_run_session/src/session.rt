//! A task on the files of an image: opened by their names, lent as devices, and given back; an undo and a redo with the number
//! that they write, and a change that makes files which are missing.
mod changes;
mod devices;
mod guarded;
mod lent;
mod looked;
mod moves;
mod named;
mod refusal;
mod task;
mod terms;

pub use changes::change_files;
pub use moves::{Moved, move_changes};
pub use named::Answer;
pub use refusal::is_whole_refusal;
pub use task::Task;
