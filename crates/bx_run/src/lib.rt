//! One call for every command on named files, and for dumps of an input, whose contract has all of them.
//!
//! `docs/HEADLINE.md` begins with its contract, and `docs/SAFETY.md` argues why it is so.
#![tactic(auto)]

mod forget;
pub mod laws;
mod renew;
mod run;

pub use bx_run_report::{Report, ReportError};
pub use bx_run_session::{Edit, ReadEdit};
pub use run::{Cause, CommandFile, Done, Failure, Request, Step, Stop, run_request};
