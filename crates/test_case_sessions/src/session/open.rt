//! Sessions opened and closed.
use crate::session::MANY;
use crate::session::devices::Devices;
use bx_cli::Fault;
use bx_image::{Device, MemImage};
use bx_journal::{Recovered, RecoveryOutcome, Session, SessionFault};
use bx_journal_store::{MemText, TextStore};
use std::alloc::{Allocator, Global};
use test_case_files::Opening;

pub type MemSession<A = Global> = Session<MemImage<A>, MemText<A>, A>;

/// A session and what was found, or the devices and the fault.
pub type Opened<D, T, A = Global> = Result<(Session<D, T, A>, Opening), (Devices<D, T>, Fault)>;

/// Opens a session, or hands the devices back.
pub fn open<D: Device, T: TextStore, A: Allocator + Clone>(
    alloc: A,
    devices: Devices<D, T>,
) -> Opened<D, T, A> {
    let fault = Fault::Session(SessionFault::DeviceFailed);
    if devices.image.faults() > MANY {
        return Err((devices, fault));
    }
    if devices.journal.faults() > MANY {
        return Err((devices, fault));
    }
    if devices.redo.faults() > MANY {
        return Err((devices, fault));
    }
    let Devices {
        image,
        journal,
        redo,
    } = devices;
    match Session::open(alloc, image, journal, redo) {
        Ok((session, found)) => Ok((session, opening_of(found))),
        Err((image, journal, redo, fault)) => {
            let devices = Devices {
                image,
                journal,
                redo,
            };
            Err((devices, Fault::Session(fault)))
        }
    }
}

/// What was found, as a case file says it.
fn opening_of(found: Recovered) -> Opening {
    let changes = found.changes;
    match found.how {
        RecoveryOutcome::Clean => Opening::Clean {
            changes,
            undone: found.undone,
        },
        RecoveryOutcome::Dropped => Opening::Dropped { changes },
        RecoveryOutcome::Restored { number } => Opening::Restored { number, changes },
    }
}

/// How a session would be found, if it were closed and opened again.
pub fn found_again<D: Device, T: TextStore>(session: &Session<D, T>) -> Opening {
    Opening::Clean {
        changes: session.changes(),
        undone: session.undone(),
    }
}

/// Closes a session.
pub fn close<D: Device, T: TextStore, A: Allocator + Clone>(
    session: Session<D, T, A>,
) -> Devices<D, T> {
    let (image, journal, redo) = session.close();
    Devices {
        image,
        journal,
        redo,
    }
}
