//! What the program does with files and the standard streams. The crate `bx` is its start and its exit status.
//!
//! `docs/DECISIONS.md` argues for it ("The program and runs of commands"); `docs/CASES.md` names its tests.
#![tactic(auto)]

mod advice;
mod devices;
mod faults;
mod files;
mod history;
mod jobs;
mod progress;
mod streams;

pub use bx_hints::{Reason, Stopped, Terminals};
pub use jobs::{perform, run};
