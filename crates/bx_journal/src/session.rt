//! A session: changes to an image, each with its entry in the journal, a write-ahead undo log.
ghost use Rattle.std.specs.Prelude.{◌≡◌, ◌+◌, ◌<◌, ◌≤◌, [], false, IfOk, IfErr, OnOk};
ghost use Rattle.bx_journal_model.specs.Machine.{PerformStep, changed};

mod compare;
mod log;
mod open;
mod redo;
mod undo;
mod view;

use bx_image::{Change, Device};
use bx_journal_format::MOST_CHANGES;
use bx_journal_model::{Devices, SessionFault};
use bx_journal_protocol::{RedoCut, prepare_change, write_change};
use bx_journal_store::TextStore;
use std::alloc::{Allocator, Global};
use std::marker::Model;

/// An image, the journal of its changes, and the redo text of those that were undone. After a fault in the middle of
/// writing it is broken: it answers `Broken` until the three are opened again.
#[derive(Drop)]
pub struct Session<D: Device, T: TextStore, A: Allocator = Global> {
    pub(crate) alloc: A,
    pub(crate) devices: Devices<D, T>,
    pub(crate) count: u32,
    pub(crate) undone: u32,
    pub(crate) is_broken: bool,
    ghost few: { count + undone ≤ 65535 },
}

impl<D: Device, T: TextStore, A: Allocator> Model for Session<D, T, A> {
    ghost use Rattle.bx_journal_model.specs.SessionView.{SessionView};

    ghost Value = { SessionView D T };

    ghost view = { λ s. record { image = s.devices.image; journal = s.devices.journal; redo = s.devices.redo; count = s.count; undone = s.undone; is_broken = s.is_broken } };
}

impl<D: Device, T: TextStore, A: Allocator + Clone> Session<D, T, A> {
    ghost use Rattle.bx_journal_model.specs.Performing.{AppendsEntry, FindsOne, StaysReady, Steps, StopsPerform};
    ghost use Rattle.bx_journal_model.specs.Calls.{AfterFault};
    ghost use Rattle.bx_journal_model.specs.Power.{NothingNew, ChangeSurvives};
    ghost use Rattle.bx_journal_model.specs.SessionView.{devices_of};
    ghost use Rattle.bx_journal_protocol.specs.protocol.Written.{AreSettled};
    ghost use Rattle.bx_journal_model.specs.Session.{FailsSafely, HasUndone};
    ghost use Rattle.bx_journal.specs.Faults.{FaultsOfChange};

    /// Changes the image, and answers the change's number, which is how many changes then stand. What was undone is
    /// given up: the redo text is then empty.
    ///
    /// All memory is taken before the first write. The faults come in this order: `Broken`, `JournalFull`,
    /// `DeviceFailed` of the length, `TooLarge`, then `DeviceFailed` and `NoMemory` of reading what it overwrites and of
    /// reserving, and `Interrupted` from the first write on. Each but the last changes nothing. Of what it overwrites no
    /// more is held than a page of the journal has.
    pub fn perform(&mut self, change: &Change<A>) -> Result<u32, SessionFault>
        requires image_countable { D.failures self.old.image < u64.MAX }
        requires journal_countable { T.failures self.old.journal < u64.MAX }
        requires redo_countable { T.failures self.old.redo < u64.MAX }

        // Accepted, it makes the machine's step, and the session goes on.
        ensures accepted { D.faithful self.old.image → T.faithful self.old.journal → Steps D.image T.text self.old self.new PerformStep change.now changed result }
        ensures sound { D.faithful self.old.image → T.faithful self.old.journal → StaysReady D.image T.text self.old self.new (changed change.now) result }
        ensures number { IfOk result (λ n. (n ≡ self.old.count + 1) × (self.new.count ≡ n) × (self.new.undone ≡ 0) × (self.new.is_broken ≡ false)) }
        ensures entry { D.faithful self.old.image → T.faithful self.old.journal
            → IfOk result (AppendsEntry D.image T.text change.now self.old self.new) }

        // What was undone is given up.
        ensures emptied { T.faithful self.old.redo → OnOk result (T.text self.new.redo ≡ []) }
        ensures undone { T.faithful self.old.redo → OnOk result (HasUndone D.image T.text self.new []) }

        // An interruption leaves the old stack or the new one, and another fault leaves all as it was.
        ensures fault { D.faithful self.old.image → T.faithful self.old.journal → StopsPerform D.image T.text change.now self.old self.new result }

        ensures finds { D.faithful self.old.image → T.faithful self.old.journal → T.faithful self.old.redo
            → FindsOne D.image T.text change.now self.old self.new result }

        // So it is behind a loss of power inside the call; where it is accepted, the new images are on the disk,
        // and of each of the three no more is found than what it has.
        ensures survives { D.faithful self.old.image → T.faithful self.old.journal → T.faithful self.old.redo
            → ChangeSurvives D.image D.survives T.text T.survives change.now self.old self.new result
            × OnOk result (AreSettled D.Device T.TextStore (devices_of self.new)) }

        // A refusal leaves nothing to be found after a loss of power that wasn't to be found before.
        ensures found_before { IfErr result (λ e. AfterFault e (Unit {0}) (NothingNew D.Device T.TextStore self.old self.new)) }

        // Which faults come, and when.
        ensures faults { FaultsOfChange D.Device change.now self.old result }

        // A refusal changes nothing, an interruption breaks the session, and a broken one refuses all.
        ensures safe { FailsSafely D.Device T.TextStore self.old self.new result }
    {
        if self.is_broken {
            return Err(SessionFault::Broken);
        }
        if self.count >= MOST_CHANGES {
            return Err(SessionFault::JournalFull);
        }
        let number = self.count + 1;
        let mut ready = prepare_change(&self.alloc, &mut self.devices, change, number)?;
        let ranges = ready.ranges.as_slice();
        let line = ready.end.as_bytes();
        let head = &mut ready.head;
        match write_change(&mut self.devices, head, ranges, change, line, RedoCut::All) {
            Ok(()) => {
                self.undone = 0;
                self.count = number;
                Ok(number)
            }
            Err(_) => {
                self.is_broken = true;
                Err(SessionFault::Interrupted)
            }
        }
    }
}
