//! Patches with each growth refused in turn.
use crate::patches::read::reads;
use crate::patches::write::{images, write};
use bumpalo::Bump;
use bx_patch::{DiffFault, Extent};
use std::alloc::Global;
use test_case_files::{PatchRead, PatchWritten};
use test_case_sessions::report::compare::{Wrong, differs, front_of, same_bytes};
use test_case_sessions::session::ask::{Limit, eased, limit_to};
use test_case_sessions::sweep::hunt::Call;

/// The writing of a case's patch.
#[derive(Clone, Copy)]
pub struct WriteOf<'a> {
    pub case: &'a PatchWritten,
}

impl Call for WriteOf<'_> {
    fn make<'a>(
        &self,
        alloc: Global,
        bump: &'a Bump,
        limit: Limit<'_>,
    ) -> Result<Option<usize>, Wrong> {
        let images = images(&bump, self.case)?;
        let mut found = Vec::new(alloc);
        limit_to(limit)?;
        let done = write(&bump, images, Extent::Bytes, &mut found)?;
        let refused = eased(limit, done == Err(DiffFault::NoMemory));
        same_written(alloc, self.case, done, found.as_slice())?;
        Ok(refused)
    }
}

/// What was written is what the case tells, or where there was no memory a front of it.
fn same_written(
    alloc: Global,
    case: &PatchWritten,
    done: Result<(), DiffFault>,
    found: &[u8],
) -> Result<(), Wrong> {
    match done {
        Ok(()) => same_bytes(alloc, "output", case.output.as_slice(), found),
        Err(DiffFault::NoMemory) => front_of(alloc, "output", case.output.as_slice(), found),
        Err(_) => Err(differs(alloc, "fault", "out of memory", "another")),
    }
}

/// The reading of a case's patch.
#[derive(Clone, Copy)]
pub struct ReadOf<'a> {
    pub case: &'a PatchRead,
}

impl Call for ReadOf<'_> {
    fn make<'a>(
        &self,
        alloc: Global,
        bump: &'a Bump,
        limit: Limit<'_>,
    ) -> Result<Option<usize>, Wrong> {
        limit_to(limit)?;
        let has_room = reads(alloc, bump, self.case)?;
        Ok(eased(limit, !has_room))
    }
}
