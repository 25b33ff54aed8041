//! The strict reader of dumps.
//!
//! The pieces of a dump, each with its address and its bytes:
//!
//! ```
//! let pieces = read_dump(alloc, dump.as_bytes())?;
//! for piece in pieces.as_slice() {
//!     count = count.saturating_add(piece.bytes.as_slice().len());
//! }
//! ```
//!
//! `docs/CALLING.md` has the whole caller, which the gate proves and runs.
//!
//! `docs/FORMATS.md` has the forms that are read ("Dumps that `revert` reads").
#![tactic(auto)]

mod digits;
mod dump;
mod fault;
mod full;
pub mod laws;
mod line;
mod lines;
mod plain;
mod plain_window;
mod runs;
mod sources;
mod window;

pub use dump::read_dump;
pub use fault::ReadFault;
pub use full::lanes::parse_address;
pub use full::{FullLine, full_text};
pub use line::Line;
pub use lines::DumpLines;
pub use plain::read_plain;
pub use plain_window::PlainRead;
pub use runs::read_runs;
pub use sources::{read_plain_from, read_runs_from};
pub use window::DumpRead;
