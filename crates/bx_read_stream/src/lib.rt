//! What a dump, or plain hexadecimal, makes of nothing, written: a dump line by line as it comes.
//!
//! `lay_dump(alloc, reader, writer, 0)` answers how many bytes were written.
//!
//! `docs/FORMATS.md` has the forms that are read ("Dumps that `revert` reads"), and `docs/DECISIONS.md` why no line may go back ("Formats and numbers").
#![tactic(auto)]

mod blocks;
mod dump;
mod fault;
mod laying;
mod line;
mod plain;

pub use dump::lay_dump;
pub use fault::StreamFault;
pub use plain::lay_plain;
