//! Rolling an unfinished entry back.
ghost use Rattle.std.specs.Prelude.{◌≡◌, ◌↔◌, ◌<◌, ◌≤◌, Some, length, take, OnOk, OnErr, is_err};
ghost use Rattle.bx_image.specs.Change.{restore};
ghost use Rattle.bx_image.specs.Device.{GoesOn};
ghost use Rattle.bx_image.specs.Power.{Only};
ghost use Rattle.bx_journal_protocol.specs.protocol.Fading.{BackSurvives, RestSurvives, TailSurvives};
ghost use Rattle.bx_journal_format.specs.Kept.{Kept};
ghost use Rattle.bx_journal_format.specs.Shown.{shown};
ghost use Rattle.bx_journal_format.specs.read.Faded.{HasFirst};
ghost use Rattle.bx_journal_store.specs.Store.{IsCutInPart};
ghost use Rattle.bx_journal_protocol.specs.write.First.{AllLeft, WhereSettled};
ghost use Rattle.bx_journal_protocol.specs.protocol.Opening.{HasBuffersFor};
ghost use Rattle.bx_journal_model.specs.Restoring.{StandsAt};
ghost use Rattle.bx_journal_model.specs.Step.{StopsTail, TailRests, TailStops, TakesTail};
ghost use Rattle.bx_journal_model.specs.Looking.{OneMore};

use crate::protocol::restore::{Buffers, restore_windows};
use bx_image::{Device, DeviceFailed};
use bx_journal_model::Mark;
use bx_journal_store::TextStore;
use std::alloc::Allocator;

/// Cuts a text that is to be empty to its first byte, and puts that on the disk. So no loss of power leaves more than one zero of it.
fn keep_first<T: TextStore>(journal: &mut T, begins: u64) -> Result<(), DeviceFailed>
    requires countable { T.failures journal.old < u64.MAX }
    requires within { T.faithful journal.old → begins ≤ length (T.text journal.old) }
    ensures part { T.faithful journal.old → IsCutInPart begins (T.text journal.old) (T.text journal.new) }
    ensures first { T.faithful journal.old → HasFirst (T.text journal.old) (T.text journal.new) }
    ensures short { T.faithful journal.old → OnOk result (begins ≡ 0 → length (T.text journal.new) ≤ 1) }
    ensures settled { WhereSettled T.TextStore journal.old (OnOk result (Only (T.text journal.new) (T.survives journal.new))) }
    ensures survives { WhereSettled T.TextStore journal.old (AllLeft begins (T.text journal.old) (T.survives journal.new)) }
    ensures goes_on { GoesOn T.faithful T.room T.failures (is_err result) journal.old journal.new }
{
    if begins > 0 {
        return Ok(());
    }
    if journal.len()? <= 1 {
        return Ok(());
    }
    journal.cut(1)?;
    journal.sync()
}

/// Cuts off an unfinished entry whose change is not in the image, and puts that on the disk.
pub fn drop_tail<T: TextStore>(journal: &mut T, begins: u64) -> Result<(), DeviceFailed>
    requires countable { T.failures journal.old < u64.MAX }
    requires within_text { T.faithful journal.old → begins ≤ length (T.text journal.old) }
    ensures ok { T.faithful journal.old → TailRests (T.text journal.old) begins (T.text journal.new) result }
    ensures fault { T.faithful journal.old → TailStops (T.text journal.old) begins (T.text journal.new) result }
    ensures shown_rests { T.faithful journal.old → TailRests (shown (T.text journal.old)) begins (T.text journal.new) result }
    ensures shown_stops { T.faithful journal.old → TailStops (shown (T.text journal.old)) begins (shown (T.text journal.new)) result }
    ensures settled { T.faithful journal.old → OnOk result (Only (T.text journal.new) (T.survives journal.new)) }
    ensures survives { WhereSettled T.TextStore journal.old (TailSurvives (T.text journal.old) begins (T.survives journal.new)) }
    ensures shown_survives { T.faithful journal.old → Only (T.text journal.old) (T.survives journal.old)
        → RestSurvives (shown (T.text journal.old)) begins (T.survives journal.new) }
    ensures text { T.faithful journal.old → OnOk result (T.text journal.new ≡ take begins (T.text journal.old)) }
    ensures goes_on { GoesOn T.faithful T.room T.failures (is_err result) journal.old journal.new }
{
    keep_first(journal, begins)?;
    journal.cut(begins)?;
    journal.sync()
}

/// Takes back the change of an entry that has its save line and no end, and cuts the entry off. Its record is read from the text, a
/// window at a time.
pub fn take_back<D: Device, T: TextStore, A: Allocator>(
    image: &mut D,
    journal: &mut T,
    buffers: &mut Buffers<A>,
    mark: Mark,
    begins: u64,
) -> Result<(), DeviceFailed>
    requires image_countable { D.failures image.old < u64.MAX }
    requires journal_countable { T.failures journal.old < u64.MAX }
    requires within_text { T.faithful journal.old → begins ≤ length (T.text journal.old) }
    requires within_mark { T.faithful journal.old → mark.saved ≤ length (T.text journal.old) }
    requires order { mark.lines ≤ mark.saved }
    requires buffers { HasBuffersFor (Some mark) buffers.old }
    requires image_room { mark.len ≤ D.room image.old }
    ensures ok { D.faithful image.old → T.faithful journal.old → (s : Kept) → StandsAt (T.text journal.old) mark s
        → TakesTail s begins (T.text journal.old) (D.image image.old) (T.text journal.new) (D.image image.new) result }
    ensures fault { D.faithful image.old → T.faithful journal.old → (s : Kept) → StandsAt (T.text journal.old) mark s
        → StopsTail s begins (T.text journal.old) (D.image image.old) (T.text journal.new) (D.image image.new) result }
    ensures image { D.faithful image.old → T.faithful journal.old → (s : Kept) → StandsAt (T.text journal.old) mark s
        → OnOk result (D.image image.new ≡ restore s (D.image image.old)) }
    ensures text { T.faithful journal.old → OnOk result (T.text journal.new ≡ take begins (T.text journal.old)) }
    ensures settled { D.faithful image.old → OnOk result (Only (D.image image.new) (D.survives image.new)) }
    ensures journal_settled { T.faithful journal.old → OnOk result (Only (T.text journal.new) (T.survives journal.new)) }
    ensures survives { D.faithful image.old → T.faithful journal.old → (s : Kept) → StandsAt (T.text journal.old) mark s
        → Only (D.image image.old) (D.survives image.old) → Only (T.text journal.old) (T.survives journal.old)
        → BackSurvives s (shown (T.text journal.old)) (D.image image.old) begins (D.survives image.new) (T.survives journal.new) }
    ensures image_faith { D.faithful image.new ↔ D.faithful image.old }
    ensures journal_faith { T.faithful journal.new ↔ T.faithful journal.old }
    ensures room { D.room image.old ≤ D.room image.new }
    ensures no_failure { OnOk result ((D.failures image.new ≡ D.failures image.old) × (T.failures journal.new ≡ T.failures journal.old)) }
    ensures failure { OnErr result (OneMore (D.failures image.old) (T.failures journal.old) (D.failures image.new) (T.failures journal.new)) }
{
    let window = buffers.window.as_mut_slice();
    restore_windows(image, journal, window, &mut buffers.parts, mark)?;
    drop_tail(journal, begins)
}
