//! What a change, an undo and a redo prepare before their first write, which takes memory, and the steps that then write to an image,
//! its journal and its redo text, each with a sync at its end, which take none. An inner part of `bx_journal`.
//!
//! `docs/SAFETY.md` argues for the order of the steps, and `docs/FORMATS.md` has it ("Order of device calls").
#![tactic(auto)]

mod before;
mod protocol;
mod write;

pub use before::change::prepare_change;
pub use before::lengths::ranges_len;
pub use before::ranges::prepare_redo;
pub use before::records::prepare_takens;
pub use before::settle::settle;
pub use protocol::entry::write_change;
pub use protocol::fill::fill_last;
pub use protocol::redo_entry::{begin_last, redo_entries};
pub use protocol::redo_text::{RedoCut, cut_redo};
pub use protocol::restore::{Buffers, buffers_of};
pub use protocol::rollback::{drop_tail, take_back};
pub use protocol::undo_entry::{Placed, undo_entries};
pub use write::head::{Head, Place};
pub use write::look::look_and_begin;
