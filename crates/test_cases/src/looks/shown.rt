//! One look, and what it is to write.
use bx_cli::{Fault, list_steps};
use bx_image::Device;
use bx_journal::{Direction, SessionFault, Steps};
use bx_journal_store::TextStore;
use std::alloc::{Allocator, Global};
use test_case_files::{Look, Shows};
use test_case_sessions::report::compare::{Wrong, no_fault, same_bytes, same_fault};
use test_case_sessions::session::MANY;
use test_case_sessions::session::devices::Devices;
use test_case_sessions::session::open::{close, open};

/// Shows what a case asks for, as the program does with files that may only be read.
pub fn show<D: Device + Drop, T: TextStore + Drop, A: Allocator + Clone>(
    alloc: A,
    devices: Devices<D, T>,
    look: &Look,
    compares: bool,
    out: &mut Vec<u8>,
) -> Result<(), Fault> {
    let steps = Steps {
        way: if look.is_redo {
            Direction::Redo
        } else {
            Direction::Undo
        },
        count: look.count,
        changes: 0,
        compares,
    };
    match open(alloc.clone()?, devices) {
        Ok((session, _)) => {
            let changes = session.changes();
            put(alloc, close(session), Steps { changes, ..steps }, out)
        }
        Err((devices, Fault::Session(SessionFault::Interrupted))) => {
            put_unfinished(alloc, devices, steps, out)
        }
        Err((_, fault)) => Err(fault),
    }
}

/// Shows what an undo would do once what is unfinished is recovered. Nothing can be made again then.
fn put_unfinished<D: Device + Drop, T: TextStore + Drop, A: Allocator + Clone>(
    alloc: A,
    devices: Devices<D, T>,
    steps: Steps,
    out: &mut Vec<u8>,
) -> Result<(), Fault> {
    if steps.way == Direction::Redo && steps.count > 0 {
        return Err(Fault::Session(SessionFault::NothingToRedo { have: 0 }));
    }
    let way = Direction::Undo;
    put(alloc, devices, Steps { way, ..steps }, out)
}

/// Shows what the journal's text says of an undo, or the redo text of a redo.
fn put<D: Device + Drop, T: TextStore + Drop, A: Allocator + Clone>(
    alloc: A,
    devices: Devices<D, T>,
    steps: Steps,
    out: &mut Vec<u8>,
) -> Result<(), Fault> {
    let Devices {
        image,
        journal,
        redo,
    } = devices;
    let mut image = image;
    let mut text = match steps.way {
        Direction::Undo => journal,
        Direction::Redo => redo,
    };
    if image.faults() > MANY {
        return Err(Fault::Session(SessionFault::DeviceFailed));
    }
    if text.faults() > MANY {
        return Err(Fault::Session(SessionFault::DeviceFailed));
    }
    list_steps(&alloc, &mut image, &mut text, steps, out)
}

/// What a look is to write.
pub fn wanted_of(look: &Look, compares: bool) -> &[u8] {
    match &look.shows {
        Shows::Text {
            compared: Some(text),
            ..
        } if compares => text.as_slice(),
        Shows::Text { plain, .. } => plain.as_slice(),
        Shows::Refused(_) => b"",
    }
}

/// A look came to what the case tells.
pub fn shown_so(
    alloc: Global,
    look: &Look,
    compares: bool,
    found: &[u8],
    outcome: Result<(), Fault>,
) -> Result<(), Wrong> {
    same_bytes(alloc, "output", wanted_of(look, compares), found)?;
    match outcome {
        Ok(()) => match &look.shows {
            Shows::Refused(wanted) => Err(no_fault(alloc, wanted.as_str())),
            Shows::Text { .. } => Ok(()),
        },
        Err(fault) => match &look.shows {
            Shows::Refused(wanted) => same_fault(alloc, wanted.as_str(), fault),
            Shows::Text { .. } => same_fault(alloc, "no fault", fault),
        },
    }
}
