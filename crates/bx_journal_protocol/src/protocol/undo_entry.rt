//! Undoing entries: the newest, or some of them one after another.
ghost use Rattle.std.specs.Prelude.{◌≡◌, ◌+◌, ◌<◌, ◌≤◌, ◌++◌, ◌∷◌, ℕ, is_err, [], length, take, nat_le, vec_capacity, if◌then◌else◌, IfOk, OnOk, OnErr};
ghost use Rattle.bx_image.specs.Change.{restore};
ghost use Rattle.bx_journal_format.specs.Kept.{Kept};
ghost use Rattle.bx_image.specs.Device.{GoesOn};
ghost use Rattle.bx_image.specs.Power.{NoMore, Only};
ghost use Rattle.bx_journal_model.specs.ThreeDevices.{AreBelow, ImageIsFirst, StepsOn};
ghost use Rattle.bx_journal_protocol.specs.write.First.{WhereSettled};
ghost use Rattle.bx_journal_model.specs.Undoing.{LeavesFront};
ghost use Rattle.bx_journal_protocol.specs.protocol.Entries.{DropsRest, DropsSome, DropsStand, StaySettled, UndoAll, UndoSome, UndoSomeSurvives, UndoTakes};
ghost use Rattle.bx_journal_protocol.specs.protocol.Placed.{AllFit, ArePreparedIn};
ghost use Rattle.bx_journal_model.specs.Restoring.{StandsAt};
ghost use Rattle.bx_journal_protocol.specs.protocol.Takens.{AllShaped, entries_len};
ghost use Rattle.bx_journal_protocol.specs.protocol.Undone.{CanKeep, CanRestore, CutsFirst, KeepsLeftOut, KeepsRoom, LeftUndo, UndoRests, UndoStops, UndoSurvives, Undoes};
ghost use Rattle.bx_journal_protocol.specs.protocol.Fading.{AllStayOpen, CutSurvives};
ghost use Rattle.bx_journal_protocol.specs.protocol.Written.{EntrySettles};
ghost use Rattle.bx_journal_store.specs.Store.{IsCutInPart};

use crate::protocol::fill::fill_last;
use crate::protocol::redo_text::keep_undone;
use crate::protocol::restore::{Buffers, restore_windows};
use crate::protocol::rollback::drop_tail;
use bx_image::{Device, DeviceFailed, MAX_LEN, Saved};
use bx_journal_model::{Devices, Mark};
use bx_journal_store::TextStore;
use std::alloc::Allocator;

/// An entry that is to be taken back: where it begins in its text, and where its record stands.
#[derive(Clone, Copy)]
pub struct Placed {
    pub begins: u64,
    pub mark: Mark,
}

/// Restores the image from the record in the journal, and keeps the image that is undone. Whatever it answers, each byte
/// stays that the record leaves out, so a pair that is open on it stays open.
fn change_undone<D: Device, T: TextStore, A: Allocator>(
    devices: &mut Devices<D, T>,
    page: &mut Vec<u8, A>,
    buffers: &mut Buffers<A>,
    mark: Mark,
    number: u32,
    taken: &Saved<A>,
) -> Result<(), DeviceFailed>
    requires countable { AreBelow D.Device T.TextStore u64.MAX devices.old }
    requires within_text { T.faithful devices.old.journal → mark.saved ≤ length (T.text devices.old.journal) }
    requires restorable { CanRestore (D.room devices.old.image) mark buffers.old }
    requires ready { CanKeep T.TextStore devices.old.redo page.old.items (vec_capacity page.old) number taken.now mark.len }
    ensures keeps { KeepsLeftOut D.Device T.TextStore mark devices.old devices.new }
    ensures settled { D.faithful devices.old.image → OnOk result (Only (D.image devices.new.image) (D.survives devices.new.image)) }
    ensures redo_settled { T.faithful devices.old.redo → OnOk result (Only (T.text devices.new.redo) (T.survives devices.new.redo)) }
    ensures survives { D.faithful devices.old.image → T.faithful devices.old.journal → (s : Kept) → StandsAt (T.text devices.old.journal) mark s
        → Only (D.image devices.old.image) (D.survives devices.old.image) → AllStayOpen s (D.image devices.old.image) (D.survives devices.new.image) }
    ensures order { T.faithful devices.old.journal → (s : Kept) → StandsAt (T.text devices.old.journal) mark s
        → ImageIsFirst D.faithful D.image result (restore s) devices.old.image devices.new.image devices.old.redo devices.new.redo }
    ensures text { T.faithful devices.old.journal → T.text devices.new.journal ≡ T.text devices.old.journal }
    ensures text_survives { T.faithful devices.old.journal → NoMore (T.survives devices.old.journal) (T.survives devices.new.journal) }
    ensures emptied { OnOk result (page.new.items ≡ []) }
    ensures page_kept { vec_capacity page.old ≤ vec_capacity page.new }
    ensures buffers_kept { KeepsRoom buffers.old buffers.new }
    ensures undoes { Undoes D.Device T.TextStore result devices.old devices.new number taken.now mark }
    ensures steps_on { StepsOn D.Device T.TextStore result devices.old devices.new }
{
    let window = buffers.window.as_mut_slice();
    restore_windows(
        &mut devices.image,
        &mut devices.journal,
        window,
        &mut buffers.parts,
        mark,
    )?;
    keep_undone(&mut devices.redo, page, number, taken, mark.len)
}

/// Cuts off the line that ends the newest entry, and puts that on the disk.
fn cut_end<T: TextStore>(journal: &mut T, saved: u64) -> Result<(), DeviceFailed>
    requires countable { T.failures journal.old < u64.MAX }
    requires within_text { T.faithful journal.old → saved ≤ length (T.text journal.old) }
    ensures text { T.faithful journal.old → OnOk result (T.text journal.new ≡ take saved (T.text journal.old)) }
    ensures cut { T.faithful journal.old → OnErr result (IsCutInPart saved (T.text journal.old) (T.text journal.new)) }
    ensures settled { T.faithful journal.old → OnOk result (Only (T.text journal.new) (T.survives journal.new)) }
    ensures survives { WhereSettled T.TextStore journal.old (CutSurvives (T.text journal.old) saved (T.survives journal.new)) }
    ensures goes_on { GoesOn T.faithful T.room T.failures (is_err result) journal.old journal.new }
{
    journal.cut(saved)?;
    journal.sync()
}

/// Cuts off the line that ends the newest entry, and only then touches image and redo text: restores the image from what
/// is left of the entry, and keeps the image that is undone.
fn open_and_change<D: Device, T: TextStore, A: Allocator>(
    devices: &mut Devices<D, T>,
    page: &mut Vec<u8, A>,
    buffers: &mut Buffers<A>,
    mark: Mark,
    number: u32,
    taken: &Saved<A>,
) -> Result<(), DeviceFailed>
    requires countable { AreBelow D.Device T.TextStore u64.MAX devices.old }
    requires within_text { T.faithful devices.old.journal → mark.saved ≤ length (T.text devices.old.journal) }
    requires restorable { CanRestore (D.room devices.old.image) mark buffers.old }
    requires ready { CanKeep T.TextStore devices.old.redo page.old.items (vec_capacity page.old) number taken.now mark.len }
    ensures order { T.faithful devices.old.journal → CutsFirst T.TextStore mark.saved devices.old devices.new result }
    ensures keeps { KeepsLeftOut D.Device T.TextStore mark devices.old devices.new }
    ensures settles { EntrySettles D.Device T.TextStore devices.old devices.new result }
    ensures survives { (begins : ℕ) → UndoSurvives D.Device T.TextStore (record { begins = begins; mark = mark }) number taken.now devices.old devices.new }
    ensures text { T.faithful devices.old.journal → OnOk result (T.text devices.new.journal ≡ take mark.saved (T.text devices.old.journal)) }
    ensures emptied { OnOk result (page.new.items ≡ []) }
    ensures page_kept { vec_capacity page.old ≤ vec_capacity page.new }
    ensures buffers_kept { KeepsRoom buffers.old buffers.new }
    ensures undoes { Undoes D.Device T.TextStore result devices.old devices.new number taken.now mark }
    ensures steps_on { StepsOn D.Device T.TextStore result devices.old devices.new }
{
    cut_end(&mut devices.journal, mark.saved)?;
    change_undone(devices, page, buffers, mark, number, taken)?;
    Ok(())
}

/// Takes the newest entry back: cuts the line that ends it, restores the image from its record, keeps the image that is
/// undone, and cuts the rest of the entry.
pub fn undo_entry<D: Device, T: TextStore, A: Allocator>(
    devices: &mut Devices<D, T>,
    page: &mut Vec<u8, A>,
    buffers: &mut Buffers<A>,
    entry: Placed,
    number: u32,
    taken: &Saved<A>,
) -> Result<(), DeviceFailed>
    requires countable { AreBelow D.Device T.TextStore u64.MAX devices.old }
    requires order { entry.begins ≤ entry.mark.saved }
    requires within_text { T.faithful devices.old.journal → entry.mark.saved ≤ length (T.text devices.old.journal) }
    requires restorable { CanRestore (D.room devices.old.image) entry.mark buffers.old }
    requires ready { CanKeep T.TextStore devices.old.redo page.old.items (vec_capacity page.old) number taken.now entry.mark.len }
    ensures ok { D.faithful devices.old.image → T.faithful devices.old.journal
        → UndoRests D.Device T.TextStore entry devices.old devices.new result }
    ensures fault { D.faithful devices.old.image → T.faithful devices.old.journal
        → UndoStops D.Device T.TextStore entry devices.old devices.new result }
    ensures left { LeftUndo D.Device T.TextStore entry number taken.now devices.old devices.new result }
    ensures settles { EntrySettles D.Device T.TextStore devices.old devices.new result }
    ensures survives { UndoSurvives D.Device T.TextStore entry number taken.now devices.old devices.new }
    ensures text { T.faithful devices.old.journal → OnOk result (T.text devices.new.journal ≡ take entry.begins (T.text devices.old.journal)) }
    ensures emptied { OnOk result (page.new.items ≡ []) }
    ensures page_kept { vec_capacity page.old ≤ vec_capacity page.new }
    ensures buffers_kept { KeepsRoom buffers.old buffers.new }
    ensures undoes { Undoes D.Device T.TextStore result devices.old devices.new number taken.now entry.mark }
    ensures steps_on { StepsOn D.Device T.TextStore result devices.old devices.new }
{
    open_and_change(devices, page, buffers, entry.mark, number, taken)?;
    drop_tail(&mut devices.journal, entry.begins)
}

/// Takes the last place off, and the last record.
fn take_last<A: Allocator>(
    placed: &mut Vec<Placed, A>,
    takens: &mut Vec<Saved<A>, A>,
) -> (Placed, Saved<A>)
    requires some { 0 < length takens.old.items }
    requires same { length placed.old.items ≡ length takens.old.items }
    ensures entry { placed.old.items ≡ placed.new.items ++ result.0 ∷ [] }
    ensures taken { takens.old.items ≡ takens.new.items ++ result.1 ∷ [] }
{
    (placed.pop().unwrap(), takens.pop().unwrap())
}

/// How many changes are undone with one more, from an image of this length.
fn undone_with(undone: u32, len: u64) -> u32
    requires { undone < 65535 }
    ensures { result ≡ (if nat_le len MAX_LEN then undone + 1 else 0) }
{
    if len <= MAX_LEN { undone + 1 } else { 0 }
}

/// Takes as many of the last entries back as there are records, the newest first, each from its text, and answers how many
/// changes are then undone.
pub fn undo_entries<D: Device, T: TextStore, A: Allocator>(
    devices: &mut Devices<D, T>,
    page: &mut Vec<u8, A>,
    buffers: &mut Buffers<A>,
    placed: &mut Vec<Placed, A>,
    takens: &mut Vec<Saved<A>, A>,
    undone: u32,
) -> Result<u32, DeviceFailed>
    requires countable { AreBelow D.Device T.TextStore u64.MAX devices.old }
    requires same { length placed.old.items ≡ length takens.old.items }
    requires bound { undone + length takens.old.items ≤ 65535 }
    requires placed { AllFit (D.room devices.old.image) (length buffers.old.window.items) placed.old.items }
    requires parts { 0 < vec_capacity buffers.old.parts }
    requires prepared { ArePreparedIn D.Device T.TextStore devices.old placed.old.items takens.old.items }
    requires shaped { AllShaped takens.old.items }
    requires fits { T.faithful devices.old.redo → length (T.text devices.old.redo) + entries_len takens.old.items ≤ T.room devices.old.redo }
    requires empty { page.old.items ≡ [] }
    requires page_room { 82 ≤ vec_capacity page.old }
    ensures ok { D.faithful devices.old.image → T.faithful devices.old.journal
        → DropsRest D.Device T.TextStore devices.old devices.new takens.old.items result }
    ensures stands { D.faithful devices.old.image → T.faithful devices.old.journal
        → DropsStand D.Device T.TextStore devices.old devices.new takens.old.items result }
    ensures left { T.faithful devices.old.journal → LeavesFront (T.text devices.old.journal) (length takens.old.items) (T.text devices.new.journal) result }
    ensures fault { D.faithful devices.old.image → T.faithful devices.old.journal
        → DropsSome D.Device T.TextStore devices.old devices.new takens.old.items result }
    ensures images { UndoAll D.Device T.TextStore devices.old devices.new undone takens.old.items result }
    ensures taken { UndoTakes D.Device T.TextStore devices.old devices.new undone takens.old.items result }
    ensures few { IfOk result (λ n. n ≤ undone + length takens.old.items) }
    ensures finds { UndoSome D.Device T.TextStore devices.old devices.new undone takens.old.items result }
    ensures settles { StaySettled D.Device T.TextStore devices.old devices.new result }
    ensures survives { UndoSomeSurvives D.Device T.TextStore devices.old devices.new undone takens.old.items result }
    ensures steps_on { StepsOn D.Device T.TextStore result devices.old devices.new }
{
    let k = takens.len();
    let mut undone = undone;
    for i in 0..k {
        let (entry, taken) = take_last(placed, takens);
        undo_entry(devices, page, buffers, entry, undone + 1, &taken)?;
        undone = undone_with(undone, taken.len);
        fill_last(&mut devices.image, takens)?;
    }
    Ok(undone)
}
