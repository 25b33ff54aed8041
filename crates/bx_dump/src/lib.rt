//! Dumps of whole streams.
//!
//! A dump of bytes into a `Vec`:
//!
//! ```
//! let mut input = bytes;
//! let mut out = Vec::new(alloc);
//! xxd(&mut input, &mut out, XxdStyle::Normal, &options)?;
//! ```
//!
//! `docs/CALLING.md` has the whole caller, which the gate proves and runs.
//!
//! `docs/FORMATS.md` has the lines ("Dumps that are written"), and `docs/SPEED.md` how fast they come.
#![tactic(auto)]

mod driver;
pub mod hexdump;
pub mod laws;
pub mod od;
pub mod strings;
pub mod xxd;
