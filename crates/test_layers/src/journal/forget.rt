//! History that is dropped: what is left where a call that writes to the journal fails, and where no opening takes the texts.
use crate::journal::reads::{HALF, MADE_TWO, UNDONE_TWO};
use crate::journal::rows::{Calls, Left, Row, assert_held, play};
use crate::journal::sessions::{ALL, Ask, Finds, Held, held};
use bx_journal::SessionFault::{DeviceFailed, Interrupted};
use bx_journal::{Devices, forget_devices};
use std::test::Fail;

const START: Held<'_> = (b"b", MADE_TWO, UNDONE_TWO);

// The journal is synced, cut and synced again. The redo text is emptied before the cut.
const FORGETS: &[Row] = &[
    (
        Calls::Writes,
        (0, 1),
        ALL,
        HALF,
        (Ask::Forget, Err(DeviceFailed)),
        Left::Same,
    ),
    (
        Calls::Writes,
        (1, 2),
        ALL,
        HALF,
        (Ask::Forget, Err(Interrupted)),
        Left::Found(Finds::Clean(2, 0)),
    ),
    (
        Calls::Writes,
        (2, 3),
        ALL,
        HALF,
        (Ask::Forget, Err(Interrupted)),
        Left::Found(Finds::Clean(0, 0)),
    ),
    (
        Calls::Writes,
        (3, 4),
        ALL,
        HALF,
        (Ask::Forget, Ok(0)),
        Left::Found(Finds::Clean(0, 0)),
    ),
];

#[test]
fn forgets(rt: HostRuntime) -> Result<(), Fail> {
    play(rt.alloc(), &rt, START, FORGETS)?;
    Ok(())
}

// An image of another length, and texts that no opening takes.
#[test]
fn forgets_without_session(rt: HostRuntime) -> Result<(), Fail> {
    let (image, journal, redo) = held(rt.alloc(), (b"another", MADE_TWO, b"no text"))?;
    let mut devices = Devices {
        image,
        journal,
        redo,
    };
    assert!(rt; forget_devices(&mut devices) == Ok(()));
    let Devices {
        image,
        journal,
        redo,
    } = devices;
    assert_held(&rt, &(image, journal, redo), (b"another", b"", b""));
    Ok(())
}
