//! Sessions that cases are played on, the sweeps that several kinds of cases share, and how what they find is compared and counted.
//!
//! `docs/CASES.md` has the sweeps ("Playing").
#![tactic(auto)]

pub mod report;
pub mod session;
pub mod sweep;
