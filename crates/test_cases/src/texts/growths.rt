//! Openings with each growth refused in turn.
use bumpalo::Bump;
use bx_cli::Fault;
use bx_journal::SessionFault;
use std::alloc::Global;
use test_case_files::Found;
use test_case_sessions::report::compare::Wrong;
use test_case_sessions::session::answers::found_so;
use test_case_sessions::session::ask::{Limit, eased, limit_to};
use test_case_sessions::session::devices::{MemDevices, Texts, in_memory, unchanged};
use test_case_sessions::session::open::open;
use test_case_sessions::sweep::hunt::Call;

/// The opening of a case.
#[derive(Clone, Copy)]
pub struct OpeningOf<'a> {
    pub wanted: &'a Found,
    pub texts: Texts<'a>,
}

impl Call for OpeningOf<'_> {
    fn make<'a>(
        &self,
        alloc: Global,
        bump: &'a Bump,
        limit: Limit<'_>,
    ) -> Result<Option<usize>, Wrong> {
        let devices = in_memory(bump, self.texts)?;
        limit_to(limit)?;
        match open(bump, devices) {
            Ok((_, found)) => {
                found_so(alloc, self.wanted, Ok(found))?;
                Ok(eased(limit, false))
            }
            Err((devices, fault)) => {
                let refused = eased(limit, fault == Fault::Session(SessionFault::NoMemory));
                unchanged(alloc, self.texts, &devices)?;
                match refused {
                    Some(_) => opens_so(alloc, bump, self.wanted, devices)?,
                    None => found_so(alloc, self.wanted, Err(fault))?,
                }
                Ok(refused)
            }
        }
    }
}

/// Opening devices that were refused answers what the case tells.
fn opens_so<'a>(
    alloc: Global,
    bump: &'a Bump,
    wanted: &Found,
    devices: MemDevices<&'a Bump>,
) -> Result<(), Wrong> {
    match open(bump, devices) {
        Ok((_, found)) => found_so(alloc, wanted, Ok(found)),
        Err((_, fault)) => found_so(alloc, wanted, Err(fault)),
    }
}
