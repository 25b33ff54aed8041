//! Runs of a job with each growth refused in turn.
use crate::words::outcome::right;
use crate::words::run::{RunOf, dumped};
use bumpalo::Bump;
use bx_cli::{Done, Fault};
use bx_dd::report;
use bx_text::IoFault;
use std::alloc::Global;
use test_case_sessions::report::compare::{Wrong, same_bytes};
use test_case_sessions::session::ask::{Limit, eased, limit_to};
use test_case_sessions::sweep::hunt::Call;

impl Call for RunOf<'_> {
    fn make<'a>(
        &self,
        alloc: Global,
        bump: &'a Bump,
        limit: Limit<'_>,
    ) -> Result<Option<usize>, Wrong> {
        limit_to(limit)?;
        let has_room = ran(alloc, bump, self)?;
        Ok(eased(limit, !has_room))
    }
}

/// Whether there was memory for a run and for its report. What was run is right, and else nothing was written.
fn ran<'a>(alloc: Global, bump: &'a Bump, run: &RunOf<'_>) -> Result<bool, Wrong> {
    let mut from = run.input;
    let mut to = Vec::new(alloc);
    let done = dumped(bump, run.job, run.length, &mut from, &mut to);
    if done == Err(Fault::Io(IoFault::NoMemory)) {
        same_bytes(alloc, "output without memory", b"", to.as_slice())?;
        return Ok(false);
    }
    right(alloc, run.case, done, to.as_slice())?;
    match done {
        Ok(Done::Copied(counts)) => Ok(report(bump, &counts).is_ok()),
        _ => Ok(true),
    }
}
