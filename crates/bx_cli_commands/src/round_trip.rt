//! Undo and redo in the user's words: calls of sessions one after another, and what the three devices hold before and after them.
ghost use Rattle.std.specs.Prelude.{◌≡◌, ◌≤◌, length, IfSome, OnSome};
ghost use Rattle.bx_image.specs.Change.{effect};
ghost use Rattle.bx_journal.specs.Images.{Images, redo_of, undo_of};
ghost use Rattle.bx_journal.specs.Machine.{PerformStep, RedoStep, UndoStep};
ghost use Rattle.bx_journal.specs.Opened.{OfAll};
ghost use Rattle.bx_journal.specs.ThreeDevices.{AreBelow};
ghost use Rattle.bx_cli_commands.specs.Standing.{CountsBelow};
ghost use Rattle.bx_cli_commands.specs.RoundTrip.{ChangesAgain, ChangesAndUndoes, MovesBy, MovesOn, OpensAt, RestsIn, UndoneFrom, images_after};

pub mod patch;

use bx_image::{Change, Device};
use bx_journal::laws::{one_stack, one_undone};
use bx_journal::{Devices, RecoveryOutcome, Session};
use bx_journal_store::TextStore;
use std::alloc::Allocator;

/// Opens the three devices. None where something in the journal is unfinished, or where opening answers a fault.
fn open_clean<D: Device + Drop, T: TextStore + Drop, A: Allocator + Clone>(
    alloc: &A,
    devices: Devices<D, T>,
) -> Option<Session<D, T, A>>
    requires countable { AreBelow D.Device T.TextStore u64.MAX devices }
    ensures countable { IfSome result (CountsBelow D.Device T.TextStore u64.MAX) }
    ensures opens { OfAll D.Device T.TextStore devices (IfSome result (OpensAt D.Device T.TextStore devices)) }
{
    let alloc = match alloc.clone() {
        Ok(alloc) => alloc,
        Err(_) => return None,
    };
    match Session::open_devices(alloc, devices) {
        Ok((session, recovered)) => match recovered.how {
            RecoveryOutcome::Clean => Some(session),
            RecoveryOutcome::Dropped => None,
            RecoveryOutcome::Restored { .. } => None,
        },
        Err(_) => None,
    }
}

/// The three devices of a session, which is closed.
fn closed<D: Device, T: TextStore, A: Allocator>(session: Session<D, T, A>) -> Devices<D, T>
    ensures image { result.image ≡ session.image }
    ensures journal { result.journal ≡ session.journal }
    ensures redo { result.redo ≡ session.redo }
{
    let (image, journal, redo) = session.close();
    Devices {
        image,
        journal,
        redo,
    }
}

/// Closes a session and opens its devices again, where that is asked for.
fn opened_again<D: Device + Drop, T: TextStore + Drop, A: Allocator + Clone>(
    alloc: &A,
    session: Session<D, T, A>,
    again: bool,
) -> Option<Session<D, T, A>>
    requires countable { CountsBelow D.Device T.TextStore u64.MAX session }
    ensures countable { IfSome result (CountsBelow D.Device T.TextStore u64.MAX) }
    ensures same { MovesOn D.Device T.TextStore (λ i. i) session result }
{
    if !again {
        return Some(session);
    }
    one_stack();
    one_undone();
    let devices = closed(session);
    open_clean(alloc, devices)
}

/// Makes a change.
fn changed<D: Device + Drop, T: TextStore + Drop, A: Allocator + Clone>(
    session: Session<D, T, A>,
    change: &Change<A>,
) -> Option<Session<D, T, A>>
    requires countable { CountsBelow D.Device T.TextStore u64.MAX session }
    ensures countable { IfSome result (CountsBelow D.Device T.TextStore u64.MAX) }
    ensures moves { MovesBy D.Device T.TextStore (λ i r next. PerformStep i.stack change.now r next.stack) (images_after change.now) session result }
{
    let mut session = session;
    match session.perform(change) {
        Ok(_) => Some(session),
        Err(_) => None,
    }
}

/// Undoes a change.
fn undone<D: Device + Drop, T: TextStore + Drop, A: Allocator + Clone>(
    session: Session<D, T, A>,
) -> Option<Session<D, T, A>>
    requires countable { CountsBelow D.Device T.TextStore u64.MAX session }
    ensures countable { IfSome result (CountsBelow D.Device T.TextStore u64.MAX) }
    ensures moves { MovesBy D.Device T.TextStore (λ i r next. UndoStep i.stack 1 r next.stack) (undo_of 1) session result }
{
    let mut session = session;
    match session.undo(1) {
        Ok(_) => Some(session),
        Err(_) => None,
    }
}

/// Makes the change again that was undone last.
fn redone<D: Device + Drop, T: TextStore + Drop, A: Allocator + Clone>(
    session: Session<D, T, A>,
) -> Option<Session<D, T, A>>
    requires countable { CountsBelow D.Device T.TextStore u64.MAX session }
    ensures countable { IfSome result (CountsBelow D.Device T.TextStore u64.MAX) }
    ensures moves { MovesBy D.Device T.TextStore (λ i r next. RedoStep i 1 r next) (redo_of 1) session result }
    ensures some { (i : Images) → RestsIn D.Device T.TextStore session i → OnSome result (1 ≤ length i.undone) }
{
    let mut session = session;
    match session.redo(1) {
        Ok(_) => Some(session),
        Err(_) => None,
    }
}

/// Opens the three devices, makes a change, and undoes it; in between they are opened again where that is asked for.
fn changed_and_undone<D: Device + Drop, T: TextStore + Drop, A: Allocator + Clone>(
    alloc: &A,
    devices: Devices<D, T>,
    change: &Change<A>,
    again: bool,
) -> Option<Session<D, T, A>>
    requires countable { AreBelow D.Device T.TextStore u64.MAX devices }
    ensures countable { IfSome result (CountsBelow D.Device T.TextStore u64.MAX) }
    ensures moves { OfAll D.Device T.TextStore devices (IfSome result (UndoneFrom D.Device T.TextStore devices change.now)) }
{
    let session = open_clean(alloc, devices)?;
    let session = changed(session, change)?;
    let session = opened_again(alloc, session, again)?;
    undone(session)
}

/// **Undo gives the image back.** Opens an image with its journal and its redo text, makes any change, and undoes it. With
/// `again` the three are closed after the change and opened again before the undo. If each call is accepted, and opening found
/// nothing unfinished, the image has the bytes and the length that it had before, whatever the change was; the change is undone, and can
/// be made again; and the three devices are as faithful as before. The answer is none where a call is refused, or something is
/// unfinished.
pub fn change_and_undo<D: Device + Drop, T: TextStore + Drop, A: Allocator + Clone>(
    alloc: &A,
    devices: Devices<D, T>,
    change: &Change<A>,
    again: bool,
) -> Option<Devices<D, T>>
    requires countable { AreBelow D.Device T.TextStore u64.MAX devices }
    ensures image { OfAll D.Device T.TextStore devices (IfSome result (λ o. D.image o.image ≡ D.image devices.image)) }
    ensures done { OfAll D.Device T.TextStore devices (IfSome result (ChangesAndUndoes D.Device T.TextStore devices change.now (λ i. i))) }
{
    let done = changed_and_undone(alloc, devices, change, again)?;
    Some(closed(done))
}

/// **Redo gives the changed image back.** Opens an image with its journal and its redo text, makes any change, undoes it, and makes
/// it again. With `again` the three are closed and opened again before the undo and before the redo. If each call is accepted, and
/// opening found nothing unfinished, the image has the bytes and the length that the change makes of it. The answer is none where a
/// call is refused, or something is unfinished.
pub fn change_undo_and_redo<D: Device + Drop, T: TextStore + Drop, A: Allocator + Clone>(
    alloc: &A,
    devices: Devices<D, T>,
    change: &Change<A>,
    again: bool,
) -> Option<Devices<D, T>>
    requires countable { AreBelow D.Device T.TextStore u64.MAX devices }
    ensures image { OfAll D.Device T.TextStore devices (IfSome result (λ o. D.image o.image ≡ effect change.now (D.image devices.image))) }
    ensures done { OfAll D.Device T.TextStore devices (IfSome result (ChangesAgain D.Device T.TextStore devices change.now)) }
{
    let session = changed_and_undone(alloc, devices, change, again)?;
    let session = opened_again(alloc, session, again)?;
    let session = redone(session)?;
    Some(closed(session))
}
