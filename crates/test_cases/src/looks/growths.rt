//! Looks with each growth refused in turn.
use crate::looks::shown::{show, shown_so, wanted_of};
use bumpalo::Bump;
use bx_cli::Fault;
use std::alloc::Global;
use test_case_files::Look;
use test_case_sessions::report::compare::{Wrong, front_of, is_out_of_memory};
use test_case_sessions::session::ask::{Limit, eased, limit_to};
use test_case_sessions::session::devices::{Texts, in_memory};
use test_case_sessions::session::fuse::{LOCKED, fuse};
use test_case_sessions::sweep::hunt::Call;

/// A look of a case.
#[derive(Clone, Copy)]
pub struct LookOf<'a> {
    pub look: &'a Look,
    pub texts: Texts<'a>,
}

impl Call for LookOf<'_> {
    fn make<'a>(
        &self,
        alloc: Global,
        bump: &'a Bump,
        limit: Limit<'_>,
    ) -> Result<Option<usize>, Wrong> {
        let mut found = Vec::new(alloc);
        let devices = fuse(in_memory(bump, self.texts)?, LOCKED)?;
        limit_to(limit)?;
        let outcome = show(bump, devices, self.look, false, &mut found);
        let has_room = had_room(alloc, self.look, found.as_slice(), outcome)?;
        Ok(eased(limit, !has_room))
    }
}

/// Whether there was memory for a look. It came to what the case tells, or wrote a front of it.
fn had_room(
    alloc: Global,
    look: &Look,
    found: &[u8],
    outcome: Result<(), Fault>,
) -> Result<bool, Wrong> {
    match outcome {
        Err(fault) if is_out_of_memory(fault) => {
            front_of(alloc, "output", wanted_of(look, false), found)?;
            Ok(false)
        }
        outcome => {
            shown_so(alloc, look, false, found, outcome)?;
            Ok(true)
        }
    }
}
