//! Sessions that are closed, looked at, and opened again.
use crate::report::compare::{Wrong, unwanted};
use crate::session::answers::same_opening;
use crate::session::devices::{Devices, Held, Wanted, contents};
use crate::session::open::{close, found_again, open};
use crate::session::places::Place;
use bx_image::Device;
use bx_journal::Session;
use bx_journal_store::TextStore;
use std::alloc::Global;
use test_case_files::Opening;

/// Opens devices, which are found so.
pub fn opened<D: Device + Drop, T: TextStore + Drop>(
    alloc: Global,
    devices: Devices<D, T>,
    wanted: Opening,
) -> Result<Session<D, T>, Wrong> {
    match open(alloc, devices) {
        Ok((session, found)) => {
            same_opening(alloc, wanted, found)?;
            Ok(session)
        }
        Err((_, fault)) => Err(unwanted(alloc, "opening", fault)),
    }
}

/// A session that was opened, and what its devices hold.
#[derive(Drop)]
pub struct Standing<D: Device, T: TextStore> {
    pub session: Session<D, T>,
    pub held: Held,
}

/// Finds devices again, and opens them.
fn opened_again<D: Device + Drop, T: TextStore + Drop, P: Place<D, T>>(
    alloc: Global,
    place: &P,
    devices: Devices<D, T>,
    wanted: Opening,
) -> Result<Session<D, T>, Wrong> {
    let devices = place.again(devices)?;
    opened(alloc, devices, wanted)
}

/// Closes a session, looks at what its devices hold, and opens them again: they are found clean.
pub fn again<D: Device + Drop, T: TextStore + Drop, P: Place<D, T>>(
    alloc: Global,
    place: &P,
    session: Session<D, T>,
) -> Result<Standing<D, T>, Wrong> {
    let wanted = found_again(&session);
    let mut devices = close(session);
    let held = contents(alloc, &mut devices)?;
    let session = opened_again(alloc, place, devices, wanted)?;
    Ok(Standing { session, held })
}

/// Devices hold what is wanted.
pub fn hold<D: Device, T: TextStore>(
    alloc: Global,
    devices: &mut Devices<D, T>,
    wanted: Wanted<'_>,
) -> Result<(), Wrong> {
    let held = contents(alloc, devices)?;
    wanted.same(alloc, held.texts())
}

/// The same of a session whose devices hold what is wanted.
pub fn again_with<D: Device + Drop, T: TextStore + Drop, P: Place<D, T>>(
    alloc: Global,
    place: &P,
    session: Session<D, T>,
    wanted: Wanted<'_>,
) -> Result<Session<D, T>, Wrong> {
    let opening = found_again(&session);
    let mut devices = close(session);
    hold(alloc, &mut devices, wanted)?;
    opened_again(alloc, place, devices, opening)
}
