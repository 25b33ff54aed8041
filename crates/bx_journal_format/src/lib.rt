//! The text of a journal's entries: as it is written, read and counted. No device is in it. An inner part of `bx_journal`.
//!
//! `docs/FORMATS.md` has each line ("The journal"), and `docs/DECISIONS.md` why it is text ("Formats and numbers").
#![tactic(auto)]

mod fault;
mod format;
pub mod laws;
mod read;
mod write;

pub use bx_text::NoMemory;
pub use fault::EntryFault;
pub use format::length::head_len;
pub use format::line::{SavedLine, saved_in};
pub use format::newline::line_end;
pub use format::version::Version;
pub use format::words::{Words, save_text};
pub use read::classify::MOST_CHANGES;
pub use read::count::{Place, Tally, full_behind, next_end};
pub use read::damage::{SURELY_LONG, is_damaged, lines_in_place};
pub use read::lines::{LinesRead, nothing_read, read_lines};
pub use read::long::{mark_long, read_long};
pub use read::marks::{Mark, MarkedLines, Marking, mark_lines, nothing_marked};
pub use read::parts::{Part, parts_in};
pub use read::ranges::{RangedLines, Ranging, nothing_ranged, range_last, range_lines};
pub use read::rows::{Summed, nothing_summed, sum_full, sum_one};
pub use read::runs::full_lines::ENDED;
pub use read::shown::{LastLine, faded_is_front, follow_zero, shown_len, zero_at};
pub use read::tail::rest_may_follow;
pub use read::take_line::told_length;
pub use read::types::{EntryRead, Front, StageRead};
pub use read::whole::{JournalRead, read_behind, read_journal};
pub use read::window::{Counted, Passed, count_lines, count_one, counted_by, no_entries};
pub use write::entry::{entry_end, start_words};
pub use write::page::new_page;
pub use write::rows::{push_full_row, push_rows, row_of};
