//! Sessions in memory on devices that fail, and what is asked of them.
use crate::image::guarded::change;
use bx_image::{Change, Device, FuseImage, MemImage, Part};
use bx_journal::{Devices, Recovered, RecoveryOutcome, Session, SessionFault, forget_devices};
use bx_journal_store::{FuseText, MemText, TextStore};
use std::alloc::{AllocError, Allocator, Global};
use std::process::Abort;

/// More failed calls than any test comes near.
const MANY: u64 = 100_000;

/// An image, its journal and its redo text.
pub type Trio<D, T> = (D, T, T);

pub type MemTrio = Trio<MemImage, MemText>;

/// The bytes of three.
pub type Held<'a> = (&'a [u8], &'a [u8], &'a [u8]);

/// How many reads of the image, of the journal and of the redo text pass.
pub type Passes = (u64, u64, u64);

/// Each read passes.
pub const ALL: Passes = (u64::MAX, u64::MAX, u64::MAX);

/// What opening finds.
#[derive(Clone, Copy)]
pub enum Finds {
    /// Changes that stand, and undone ones.
    Clean(u32, u32),
    /// Behind these changes an unfinished one that was dropped.
    Dropped(u32),
    /// One of the first number behind as many changes as the second says, which was taken back.
    Restored(u32, u32),
    /// A fault.
    Fails(SessionFault),
}

fn opened_of(finds: Finds) -> Result<Recovered, SessionFault> {
    let (how, changes, undone) = match finds {
        Finds::Clean(changes, undone) => (RecoveryOutcome::Clean, changes, undone),
        Finds::Dropped(changes) => (RecoveryOutcome::Dropped, changes, 0),
        Finds::Restored(number, changes) => (RecoveryOutcome::Restored { number }, changes, 0),
        Finds::Fails(fault) => return Err(fault),
    };
    Ok(Recovered {
        how,
        changes,
        undone,
    })
}

/// Enough saved bytes for an entry of more than 256 KiB.
pub const WHOLE: usize = 65_536;

/// What a session is asked for once it is open.
#[derive(Clone, Copy)]
pub enum Ask {
    Nothing,
    /// A change of nothing.
    Same,
    /// Puts `xy` at 2, where the image is cut.
    Replace,
    /// Puts `WHOLE` bytes at 0.
    Whole,
    Undo(u32),
    Redo(u32),
    /// Drops the history, behind the session.
    Forget,
    /// The rows of the log: how many there are.
    Log,
}

/// What is asked for, and what has to be answered.
pub type Step = (Ask, Result<u32, SessionFault>);

pub const NO_STEP: Step = (Ask::Nothing, Ok(0));

/// Opens a session over three devices, or hands them back.
pub fn open<D: Device, T: TextStore, A: Allocator + Clone>(
    alloc: A,
    trio: Trio<D, T>,
) -> Result<(Session<D, T, A>, Recovered), (D, T, T, SessionFault)> {
    let (device, store, redo_text) = trio;
    if device.faults() > MANY || store.faults() > MANY || redo_text.faults() > MANY {
        return Err((device, store, redo_text, SessionFault::DeviceFailed));
    }
    Session::open(alloc, device, store, redo_text)
}

fn change_of(alloc: Global, ask: Ask) -> Result<Change, AllocError> {
    match ask {
        Ask::Whole => {
            let bytes = vec![in alloc; b'x'; WHOLE]?;
            change(alloc, None, &[(0, bytes.as_slice())])
        }
        Ask::Replace => change(alloc, Some(2), &[(2, b"xy")]),
        _ => change(alloc, None, &[]),
    }
}

/// Makes the call of a session; a history is dropped behind it.
fn asked<D: Device, T: TextStore>(
    alloc: Global,
    session: &mut Session<D, T>,
    ask: Ask,
) -> Result<u32, SessionFault> {
    if session.faults() > MANY {
        return Err(SessionFault::Broken);
    }
    match ask {
        Ask::Nothing | Ask::Forget => Ok(0),
        Ask::Undo(k) => session.undo(k),
        Ask::Redo(j) => session.redo(j),
        Ask::Log => match session.log() {
            Ok(rows) => Ok(rows.len().min(u32::MAX as usize) as u32),
            Err(fault) => Err(fault),
        },
        _ => match change_of(alloc, ask) {
            Ok(change) => session.perform(&change),
            Err(_) => Err(SessionFault::NoMemory),
        },
    }
}

/// Drops the history of three, which answers so, and hands them back.
fn forget<D: Device, T: TextStore>(
    rt: &impl Abort,
    trio: Trio<D, T>,
    wanted: Result<u32, SessionFault>,
) -> Trio<D, T> {
    let (image, journal, redo) = trio;
    assert!(rt; image.faults() <= MANY && journal.faults() <= MANY && redo.faults() <= MANY);
    let mut devices = Devices {
        image,
        journal,
        redo,
    };
    let answer = match forget_devices(&mut devices) {
        Ok(()) => Ok(0),
        Err(fault) => Err(fault),
    };
    assert!(rt; answer == wanted);
    (devices.image, devices.journal, devices.redo)
}

/// Opens a session and makes the call: both answer so. Answers what is left.
fn sit<D: Device, T: TextStore>(
    alloc: Global,
    rt: &impl Abort,
    trio: Trio<D, T>,
    finds: Finds,
    step: Step,
) -> Trio<D, T> {
    match open(alloc, trio) {
        Ok((mut session, recovered)) => {
            assert!(rt; Ok(recovered) == opened_of(finds));
            match step {
                (Ask::Forget, wanted) => forget(rt, session.close(), wanted),
                (ask, wanted) => {
                    assert!(rt; asked(alloc, &mut session, ask) == wanted);
                    session.close()
                }
            }
        }
        Err((device, store, redo_text, fault)) => {
            assert!(rt; Err(fault) == opened_of(finds));
            (device, store, redo_text)
        }
    }
}

fn text_of(alloc: Global, bytes: &[u8]) -> Result<MemText, AllocError> {
    Ok(MemText::from_vec(bytes.to_vec(alloc)?))
}

/// Three of these bytes, in memory.
pub fn held(alloc: Global, bytes: Held<'_>) -> Result<MemTrio, AllocError> {
    let image = MemImage::from_vec(bytes.0.to_vec(alloc)?);
    let journal = text_of(alloc, bytes.1)?;
    Ok((image, journal, text_of(alloc, bytes.2)?))
}

/// What stops a session.
#[derive(Clone, Copy)]
pub enum Stops {
    /// Of each device all reads but the first ones, which pass.
    Reads(Passes),
    /// All calls that write to the journal but the first ones, which pass.
    Writes(u64),
}

/// The journal behind its fuse.
fn fused(journal: MemText, stops: Stops) -> FuseText<MemText> {
    match stops {
        Stops::Reads(passes) => FuseText::on_reads(journal, passes.1),
        Stops::Writes(pass) => FuseText::new(journal, pass, Part::Nothing, false),
    }
}

/// What a session leaves whose calls are stopped so.
pub fn left_by(
    alloc: Global,
    rt: &impl Abort,
    start: Held<'_>,
    stops: Stops,
    finds: Finds,
    step: Step,
) -> Result<MemTrio, AllocError> {
    let (image, journal, redo_text) = held(alloc, start)?;
    let (of_image, _, of_redo) = match stops {
        Stops::Reads(passes) => passes,
        Stops::Writes(_) => ALL,
    };
    let trio = (
        FuseImage::on_reads(image, of_image),
        fused(journal, stops),
        FuseText::on_reads(redo_text, of_redo),
    );
    let (image, journal, redo_text) = sit(alloc, rt, trio, finds, step);
    Ok((
        image.into_inner(),
        journal.into_inner(),
        redo_text.into_inner(),
    ))
}
