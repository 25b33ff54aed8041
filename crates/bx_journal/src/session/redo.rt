//! Redo: undone changes are made again.
ghost use Rattle.std.specs.Prelude.{◌≡◌, ◌↔◌, ◌+◌, ◌<◌, ◌≤◌, ℕ, length, true, false, IfOk, IfErr, OnOk, IsErrOf};
ghost use Rattle.bx_image.specs.Power.{NoMore};
ghost use Rattle.bx_journal_model.specs.Images.{redo_of};
ghost use Rattle.bx_journal_model.specs.Looking.{LooksAt};
ghost use Rattle.bx_journal_format.specs.Text.{IsPrefix};
ghost use Rattle.bx_journal_model.specs.Undoing.{IsLastFrom, RedoAgainFault};

use crate::Session;
use bx_image::Device;
use bx_journal_model::{FinishedRead, SessionFault, of_redo};
use bx_journal_protocol::{prepare_redo, redo_entries};
use bx_journal_read::read_last_of;
use bx_journal_store::TextStore;
use std::alloc::Allocator;

/// Reads the last j entries of a redo text that is to be `undone` finished entries alone. It changes nothing.
fn read_undone<T: TextStore, A: Allocator + Clone>(
    alloc: &A,
    redo: &mut T,
    undone: u32,
    j: u32,
) -> Result<FinishedRead<A>, SessionFault>
    requires countable { T.failures redo.old < u64.MAX }
    requires few { j ≤ undone }
    ensures read { IfOk result (λ o. IsLastFrom (T.faithful redo.old) (T.text redo.old) o.len o.entries.items undone) }
    ensures few { IfOk result (λ o. j ≤ length o.entries.items) }
    ensures fault { IfErr result (RedoAgainFault (T.faithful redo.old) (T.text redo.old) undone) }
    ensures looks { LooksAt T.faithful T.text T.failures result redo.old redo.new }
    ensures survives { T.faithful redo.old → NoMore (T.survives redo.old) (T.survives redo.new) }
{
    match read_last_of(alloc, redo, undone, j) {
        Ok(read) => Ok(read),
        Err(fault) => Err(of_redo(fault)),
    }
}

/// Whether more are wanted than there are.
#[inline]
fn is_beyond(wanted: u32, have: u32) -> bool
    ensures { (result ≡ true) ↔ (have < wanted) }
{
    wanted > have
}

/// How many changes are still undone when `made` are made again.
#[inline]
fn undone_left(undone: u32, made: u32) -> u32
    requires { made ≤ undone }
    ensures { result + made ≡ undone }
{
    undone - made
}

impl<D: Device, T: TextStore, A: Allocator + Clone> Session<D, T, A> {
    ghost use Rattle.bx_journal_model.specs.Calls.{AfterFault};
    ghost use Rattle.bx_journal_model.specs.Power.{NothingNew, StepsSurvive};
    ghost use Rattle.bx_journal_model.specs.SessionView.{devices_of};
    ghost use Rattle.bx_journal_protocol.specs.protocol.Written.{AreSettled};
    ghost use Rattle.bx_journal_model.specs.Session.{FailsSafely};
    ghost use Rattle.bx_journal_model.specs.Performing.{FindsSome, GrowsByTaken, KeepsOldStack, RedoesImages, StaysRedone};
    ghost use Rattle.bx_journal.specs.Faults.{FaultsOfRedo};
    ghost use Rattle.bx_journal_model.specs.Undoing.{LeavesFront};

    /// Makes the last j undone changes again, the one undone last first, and answers how many changes then stand.
    ///
    /// All memory is taken before the first write: it is in proportion to the bytes that the last j entries of the redo text
    /// saved, and to the number of their runs. What the j changes overwrite is read from the image while the journal is
    /// written, and no more of it is held than a page. The faults come in this order: `Broken`, `NothingToRedo`,
    /// `DeviceFailed` and `NoMemory` of reading, `RedoDamaged` where the redo text was changed by others, `DeviceFailed`
    /// of the lengths, `NoMemory`, also of an image that an entry can't tell, `DeviceFailed` of reading what the first
    /// change overwrites and of the syncs, and `Interrupted` from the first write on. Each but the last changes nothing. A redo
    /// text that is the session's own never leads to an image that is too long.
    pub fn redo(&mut self, j: u32) -> Result<u32, SessionFault>
        requires image_countable { D.failures self.old.image < u64.MAX }
        requires journal_countable { T.failures self.old.journal < u64.MAX }
        requires redo_countable { T.failures self.old.redo < u64.MAX }

        // Accepted, it makes the machine's step, and the session goes on.
        ensures accepted { D.faithful self.old.image → T.faithful self.old.journal → T.faithful self.old.redo
            → RedoesImages D.image T.text j self.old self.new result }
        ensures sound { D.faithful self.old.image → T.faithful self.old.journal → T.faithful self.old.redo
            → StaysRedone D.image T.text j self.old self.new result }
        ensures number { IfOk result (λ n. (n ≡ self.old.count + j) × (self.new.count ≡ n)
            × (self.new.undone + j ≡ self.old.undone) × (self.new.is_broken ≡ false)) }

        // Whatever the redo text gives, the old stack still stands, with j images on top, behind an interruption with some.
        ensures stands { KeepsOldStack D.Device T.TextStore j self.old self.new result }

        // The redo text is then that of the other entries, and the journal goes on with what each of the j took of the image.
        ensures text { T.faithful self.old.redo → LeavesFront (T.text self.old.redo) j (T.text self.new.redo) result }
        ensures grown { D.faithful self.old.image → T.faithful self.old.journal → T.faithful self.old.redo
            → GrowsByTaken D.image T.text j self.old self.new result }
        ensures front { T.faithful self.old.journal → OnOk result (IsPrefix (T.text self.old.journal) (T.text self.new.journal)) }

        // An interruption leaves the old stack with some of the images made again, and another fault leaves all as it was.
        ensures finds { D.faithful self.old.image → T.faithful self.old.journal → T.faithful self.old.redo
            → FindsSome D.image T.text self.old self.new redo_of j result }

        // So it is behind a loss of power inside the call; where it is accepted, the images behind it are on the disk,
        // and of each of the three no more is found than what it has.
        ensures survives { D.faithful self.old.image → T.faithful self.old.journal → T.faithful self.old.redo
            → StepsSurvive D.image D.survives T.text T.survives redo_of j self.old self.new result
            × OnOk result (AreSettled D.Device T.TextStore (devices_of self.new)) }

        // A refusal leaves nothing to be found after a loss of power that wasn't to be found before.
        ensures found_before { IfErr result (λ e. AfterFault e (Unit {0}) (NothingNew D.Device T.TextStore self.old self.new)) }

        // Which faults come, and when: the redo text is called damaged exactly where it isn't `undone` finished entries alone.
        ensures faults { FaultsOfRedo T.TextStore j self.old result }

        // A refusal changes nothing, an interruption breaks the session, and a broken one refuses all.
        ensures safe { FailsSafely D.Device T.TextStore self.old self.new result }
    {
        if self.is_broken {
            return Err(SessionFault::Broken);
        }
        if is_beyond(j, self.undone) {
            return Err(SessionFault::NothingToRedo { have: self.undone });
        }
        let mut read = read_undone(&self.alloc, &mut self.devices.redo, self.undone, j)?;
        let mut again = prepare_redo(&self.alloc, &mut self.devices, &read, j, self.count + 1)?;
        match redo_entries(
            &mut self.devices,
            &mut again.head,
            &mut read.entries,
            &mut again.takens,
            self.count,
        ) {
            Ok(count) => {
                self.undone = undone_left(self.undone, j);
                self.count = count;
                Ok(count)
            }
            Err(_) => {
                self.is_broken = true;
                Err(SessionFault::Interrupted)
            }
        }
    }
}
