//! A command that stopped: which fault, of what, and why; and the hint that says it.
pub mod cause;
pub mod hint;
pub mod names;
pub mod stopped;
