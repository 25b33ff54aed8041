//! Undo: changes are taken back, the newest first.
ghost use Rattle.std.specs.Prelude.{◌≡◌, ◌↔◌, ◌+◌, ◌<◌, ◌≤◌, ℕ, drop, true, false, IfOk, IfErr, OnOk, IsErrOf};
ghost use Rattle.bx_journal_model.specs.Images.{undo_of};
ghost use Rattle.bx_journal_model.specs.Machine.{UndoStep};

use crate::Session;
use bx_image::Device;
use bx_journal_model::SessionFault;
use bx_journal_protocol::{prepare_takens, undo_entries};
use bx_journal_read::read_last_of;
use bx_journal_store::TextStore;
use std::alloc::Allocator;

/// How many changes still stand when `undone` are undone.
#[inline]
fn count_left(count: u32, undone: u32) -> u32
    requires { undone ≤ count }
    ensures { result + undone ≡ count }
{
    count - undone
}

impl<D: Device, T: TextStore, A: Allocator + Clone> Session<D, T, A> {
    ghost use Rattle.bx_journal_model.specs.Calls.{AfterFault};
    ghost use Rattle.bx_journal_model.specs.Power.{NothingNew, StepsSurvive};
    ghost use Rattle.bx_journal_model.specs.SessionView.{devices_of};
    ghost use Rattle.bx_journal_protocol.specs.protocol.Written.{AreSettled};
    ghost use Rattle.bx_journal_model.specs.Session.{FailsSafely};
    ghost use Rattle.bx_journal_model.specs.Performing.{FindsSome, KeepsTaken, StaysReady, Steps, StopsUndo, UndoesImages};
    ghost use Rattle.bx_journal.specs.Faults.{FaultsOfUndo};
    ghost use Rattle.bx_journal_model.specs.Undoing.{LeavesFront};

    /// Takes the last k changes back, the newest first, and answers how many are left. Their images are then undone, and
    /// can be made again; but an image of more than `MAX_LEN` bytes, and what was undone before it, is given up.
    ///
    /// All memory is taken before the first write. It is once the bytes that the k changes moved: first those that the journal's last k
    /// entries saved, and then those that the k changes wrote or added; but blocks of zeros that they added take none. The faults come
    /// in this order: `Broken`, `TooFew`, `DeviceFailed` and `NoMemory` of reading, `Damaged` where the text was changed by others,
    /// `DeviceFailed` of the lengths, `NoMemory`, `DeviceFailed` of looking for zeros in the image, `NoMemory`, `DeviceFailed` of reading
    /// the image, and `Interrupted` from the first write on. Each but the last changes nothing.
    pub fn undo(&mut self, k: u32) -> Result<u32, SessionFault>
        requires image_countable { D.failures self.old.image < u64.MAX }
        requires journal_countable { T.failures self.old.journal < u64.MAX }
        requires redo_countable { T.failures self.old.redo < u64.MAX }

        // Accepted, it makes the machine's step, and the session goes on.
        ensures accepted { D.faithful self.old.image → T.faithful self.old.journal → Steps D.image T.text self.old self.new UndoStep k drop result }
        ensures sound { D.faithful self.old.image → T.faithful self.old.journal → StaysReady D.image T.text self.old self.new (drop k) result }
        ensures left { IfOk result (λ left. (left + k ≡ self.old.count) × (self.new.count ≡ left) × (self.new.is_broken ≡ false)
            × (self.new.undone ≤ self.old.undone + k)) }

        // The text is then that of the other entries.
        ensures text { T.faithful self.old.journal → LeavesFront (T.text self.old.journal) k (T.text self.new.journal) result }

        // The images that were taken back are undone, above those that were.
        ensures undone { D.faithful self.old.image → T.faithful self.old.journal → T.faithful self.old.redo
            → UndoesImages D.image T.text k self.old self.new result }

        // The redo text has them as entries, each with what its undo took of the image, but perhaps zeros behind it.
        ensures kept { D.faithful self.old.image → T.faithful self.old.journal → T.faithful self.old.redo
            → KeepsTaken D.image T.text k self.old self.new result }

        // An interruption leaves the stack without some of the images, and another fault leaves all as it was.
        ensures fault { D.faithful self.old.image → T.faithful self.old.journal → StopsUndo D.image T.text k self.old self.new result }
        ensures finds { D.faithful self.old.image → T.faithful self.old.journal → T.faithful self.old.redo
            → FindsSome D.image T.text self.old self.new undo_of k result }

        // So it is behind a loss of power inside the call; where it is accepted, the images behind it are on the disk,
        // and of each of the three no more is found than what it has.
        ensures survives { D.faithful self.old.image → T.faithful self.old.journal → T.faithful self.old.redo
            → StepsSurvive D.image D.survives T.text T.survives undo_of k self.old self.new result
            × OnOk result (AreSettled D.Device T.TextStore (devices_of self.new)) }

        // A refusal leaves nothing to be found after a loss of power that wasn't to be found before.
        ensures found_before { IfErr result (λ e. AfterFault e (Unit {0}) (NothingNew D.Device T.TextStore self.old self.new)) }

        // Which faults come, and when: the text is called damaged exactly where it isn't `count` finished entries alone.
        ensures faults { FaultsOfUndo T.TextStore k self.old result }

        // A refusal changes nothing, an interruption breaks the session, and a broken one refuses all.
        ensures safe { FailsSafely D.Device T.TextStore self.old self.new result }
    {
        if self.is_broken {
            return Err(SessionFault::Broken);
        }
        if k > self.count {
            return Err(SessionFault::TooFew { have: self.count });
        }
        let read = read_last_of(&self.alloc, &mut self.devices.journal, self.count, k)?;
        // All memory is taken here, and all three are on the disk behind it: from then on only a device can stop this.
        let mut taking = prepare_takens(&self.alloc, &mut self.devices, read, k)?;
        match undo_entries(
            &mut self.devices,
            &mut taking.page,
            &mut taking.buffers,
            &mut taking.placed,
            &mut taking.takens,
            self.undone,
        ) {
            Ok(undone) => {
                self.count = count_left(self.count, k);
                self.undone = undone;
                Ok(self.count)
            }
            Err(_) => {
                self.is_broken = true;
                Err(SessionFault::Interrupted)
            }
        }
    }
}
