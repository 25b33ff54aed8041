//! Values and characters as text in columns, for the dumps of `bx_dump`. No reader is in it. An inner part of `bx_dump`.
//!
//! `docs/FORMATS.md` has the lines ("Dumps that are written"), and `docs/SPEED.md` how fast they come.
#![tactic(auto)]

pub mod hex_lanes;
pub mod od;
pub mod strings;
pub mod xxd;
