//! A journal's text, read from its store and shown; memory is taken, and nothing is written to a device. An inner part of `bx_journal`.
//!
//! `docs/FORMATS.md` says how a text is read and judged ("The journal"), and `docs/SAFETY.md` what recovery rests on.
#![tactic(auto)]

mod scan;
mod show;

pub use scan::count::{CountedText, count_text};
pub use scan::damage::text_damage;
pub use scan::entries::{read_again, read_last_of};
pub use scan::journal::{Found, read_text};
pub use scan::newlines::{line_from, newlines};
pub use scan::torn::Torn;
pub use scan::unfit::unfit_line;
pub use scan::whole::read_journal;
pub use scan::windows::{Scan, Taken, scan_windows};
pub use show::differences::put_differences;
pub use show::fault::ShowFault;
pub use show::heading::put_heading;
pub use show::lines::put_lines;
pub use show::marks::all_marks;
pub use show::ranges::put_ranges;
pub use show::unfinished::{Marked, front_marks, put_torn};
pub use show::way::{Direction, Step, Steps};
pub use show::writing::{Writing, begin_writing, put};
