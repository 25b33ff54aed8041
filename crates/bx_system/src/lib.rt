//! The system as the world that the program runs in: its files by name, and the standard streams. An inner part of `bx_program`.
//!
//! No proof takes it for faithful: `docs/DECISIONS.md` says how to look at it ("How that trust is looked at").
#![tactic(auto)]

mod facts;
mod files;
mod folders;
mod note;
mod noted;
mod progress;
mod refusal;
mod system;
mod tally;
mod world;

pub use facts::dev::is_among_devices;
pub use facts::mounts::is_mounted;
pub use facts::stat::stat_of;
pub use facts::tables::Unknown;
pub use files::counted_file::CountedFile;
pub use files::left::{Ended, Left};
pub use files::links::Misplaced;
pub use files::open::{fixed_length, open_there, open_to_read};
pub use files::opened::OpenFile;
pub use folders::folder_of;
pub use noted::Noted;
pub use progress::{Counted, Progress};
pub use system::System;
pub use tally::Tally;
pub use world::SystemWorld;
