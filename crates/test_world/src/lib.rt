//! A world in memory, which tests run commands in: files under names, whose calls are refused and whose devices fail where a plan
//! says so.
//!
//! `docs/CASES.md` says what is played on it ("Playing").
#![tactic(auto)]

mod memory;

pub use memory::image::LentImage;
pub use memory::input::LentInput;
pub use memory::text::LentText;
pub use memory::{Fails, MemoryWorld, OpenFile, Plan};
