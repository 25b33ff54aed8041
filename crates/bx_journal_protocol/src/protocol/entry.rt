//! The entry of a change: its head (the undo record), its end (the commit mark), and both with the change of the image between them, which cuts the redo text.
ghost use Rattle.std.specs.Prelude.{◌≡◌, ◌↔◌, ◌⊎◌, ◌+◌, ◌<◌, ◌≤◌, [], ◌++◌, ℕ, length, take, OnOk, OnErr, is_err};
ghost use Rattle.bx_journal_format.specs.Kept.{kept_of};
ghost use Rattle.bx_image.specs.Change.{effect, saved, IsAsGood};
ghost use Rattle.bx_image.specs.Device.{GoesOn};
ghost use Rattle.bx_image.specs.Power.{Only};
ghost use Rattle.bx_journal_format.specs.Entry.{head_text};
ghost use Rattle.bx_journal_format.specs.Text.{IsPrefix};
ghost use Rattle.bx_journal_protocol.specs.write.Begun.{rest_of, IsBegunOver, IsOpenHead, KeepsBuffers};
ghost use Rattle.bx_journal_model.specs.ThreeDevices.{AreBelow, GoOnPaired, ImageIsFirst, StepsOn};
ghost use Rattle.bx_journal_model.specs.Looking.{OneMore};
ghost use Rattle.bx_journal_protocol.specs.protocol.Fading.{AllStayOpenFor, EndSurvives, HeadSurvives};
ghost use Rattle.bx_journal_model.specs.Phase.{StaysOpenFor};
ghost use Rattle.bx_journal_protocol.specs.write.First.{WhereSettled};
ghost use Rattle.bx_journal_protocol.specs.write.Page.{HasAppended};
ghost use Rattle.bx_journal_protocol.specs.write.Ranges.{kept_over};
ghost use Rattle.bx_journal_model.specs.Step.{EndRests, EndStops, HeadOpens, HeadStops};
ghost use Rattle.bx_journal_protocol.specs.protocol.Turns.{cut_place};
ghost use Rattle.bx_journal_protocol.specs.protocol.Written.{entry_on, head_on, EntrySettles, LeavesBoth, RestsBehind, StopsEither, SurvivesBoth};

use crate::protocol::image::change_image;
use crate::protocol::redo_text::{RedoCut, cut_redo};
use crate::write::head::Head;
use crate::write::ranges::put_head_from;
use bx_image::{Change, Device, DeviceFailed, Span};
use bx_journal_model::Devices;
use bx_journal_store::TextStore;
use std::alloc::Allocator;

/// Appends an entry up to its save line, page by page, with the image's own bytes in some ranges, and puts it on the disk. Its
/// first page is made already; the lines after that are read from the image page by page, and no more of them is held.
pub fn append_head_of<D: Device, T: TextStore, A: Allocator>(
    image: &mut D,
    journal: &mut T,
    head: &mut Head<A>,
    ranges: &[Span],
) -> Result<(), DeviceFailed>
    requires image_countable { D.failures image.old < u64.MAX }
    requires journal_countable { T.failures journal.old < u64.MAX }
    requires head { IsOpenHead ranges.now head.old }
    requires some { 0 < length head.old.page.items }
    requires begun { D.faithful image.old → IsBegunOver (D.image image.old) ranges.now head.old }
    requires fits { T.faithful journal.old → length (T.text journal.old) + rest_of ranges.now head.old ≤ T.room journal.old }
    ensures ok { D.faithful image.old → HeadOpens T.TextStore journal.old (head_on D.image image.old ranges.now head.old) journal.new result }
    ensures fault { D.faithful image.old → HeadStops T.TextStore journal.old (head_on D.image image.old ranges.now head.old) journal.new result }
    ensures text { D.faithful image.old → HasAppended T.TextStore journal.old (head_on D.image image.old ranges.now head.old) journal.new result }
    ensures settled { T.faithful journal.old → OnOk result (Only (T.text journal.new) (T.survives journal.new)) }
    ensures survives { D.faithful image.old → WhereSettled T.TextStore journal.old
        (HeadSurvives (T.text journal.old) (head_on D.image image.old ranges.now head.old) (T.survives journal.new)) }
    ensures long { T.faithful journal.old → OnOk result (length (T.text journal.new) ≡ length (T.text journal.old) + rest_of ranges.now head.old) }
    ensures front { T.faithful journal.old → OnOk result (IsPrefix (T.text journal.old) (T.text journal.new)) }
    ensures emptied { OnOk result (head.new.page.items ≡ []) }
    ensures kept { KeepsBuffers head.old head.new }
    ensures goes_on { GoOnPaired D.Device T.TextStore result image.old journal.old image.new journal.new }
{
    put_head_from(image, journal, head, ranges)?;
    journal.sync()
}

/// Appends the line that ends an entry, and puts it on the disk.
pub fn append_end<T: TextStore>(journal: &mut T, end: &[u8]) -> Result<(), DeviceFailed>
    requires countable { T.failures journal.old < u64.MAX }
    requires fits { T.faithful journal.old → length (T.text journal.old) + length end.now ≤ T.room journal.old }
    ensures ok { T.faithful journal.old → EndRests (T.text journal.old) end.now (T.text journal.new) result }
    ensures fault { T.faithful journal.old → EndStops (T.text journal.old) end.now (T.text journal.new) result }
    ensures settled { T.faithful journal.old → OnOk result (Only (T.text journal.new) (T.survives journal.new)) }
    ensures survives { WhereSettled T.TextStore journal.old (EndSurvives (T.text journal.old) end.now (T.survives journal.new)) }
    ensures text { HasAppended T.TextStore journal.old end.now journal.new result }
    ensures goes_on { GoesOn T.faithful T.room T.failures (is_err result) journal.old journal.new }
{
    journal.append(end)?;
    journal.sync()
}

/// Changes the image, and cuts the redo text. Whatever it answers, a pair that is open on what the change takes
/// stays open.
pub fn change_with<D: Device, T: TextStore, A: Allocator>(
    image: &mut D,
    redo: &mut T,
    change: &Change<A>,
    part: RedoCut,
) -> Result<(), DeviceFailed>
    requires image_countable { D.failures image.old < u64.MAX }
    requires redo_countable { T.failures redo.old < u64.MAX }
    requires room { length (effect change.now []) ≤ D.room image.old }
    requires within { T.faithful redo.old → cut_place part ≤ length (T.text redo.old) }
    ensures phase { D.faithful image.old → StaysOpenFor change.now (D.image image.old) (D.image image.new) }
    ensures settled { D.faithful image.old → OnOk result (Only (D.image image.new) (D.survives image.new)) }
    ensures redo_settled { T.faithful redo.old → OnOk result (Only (T.text redo.new) (T.survives redo.new)) }
    ensures survives { D.faithful image.old → Only (D.image image.old) (D.survives image.old)
        → AllStayOpenFor change.now (D.image image.old) (D.survives image.new) }
    ensures image { D.faithful image.old → OnOk result (D.image image.new ≡ effect change.now (D.image image.old)) }
    ensures back { D.faithful image.old → OnOk result (IsAsGood (kept_of (saved change.now (D.image image.old))) (D.image image.old) (D.image image.new)) }
    ensures redo { T.faithful redo.old → OnOk result (T.text redo.new ≡ take (cut_place part) (T.text redo.old)) }
    ensures emptied_first { T.faithful redo.old → part ≡ RedoCut.All → OnErr result ((image.new ≡ image.old) ⊎ (T.text redo.new ≡ [])) }
    ensures order { (n : ℕ) → part ≡ RedoCut.From n → ImageIsFirst D.faithful D.image result (effect change.now) image.old image.new redo.old redo.new }
    ensures image_room { D.room image.old ≤ D.room image.new }
    ensures image_faith { D.faithful image.new ↔ D.faithful image.old }
    ensures redo_faith { T.faithful redo.new ↔ T.faithful redo.old }
    ensures no_failure { OnOk result ((D.failures image.new ≡ D.failures image.old) × (T.failures redo.new ≡ T.failures redo.old)) }
    ensures failure { OnErr result (OneMore (D.failures image.old) (T.failures redo.old) (D.failures image.new) (T.failures redo.new)) }
{
    match part {
        RedoCut::All => {
            cut_redo(redo, 0)?;
            change_image(image, change)
        }
        RedoCut::From(begins) => {
            change_image(image, change)?;
            cut_redo(redo, begins)
        }
    }
}

/// Appends the entry of a change with the image's own bytes in some ranges, and changes the image and the redo text in between.
pub fn write_change<D: Device, T: TextStore, A: Allocator>(
    devices: &mut Devices<D, T>,
    head: &mut Head<A>,
    ranges: &[Span],
    change: &Change<A>,
    end: &[u8],
    part: RedoCut,
) -> Result<(), DeviceFailed>
    requires countable { AreBelow D.Device T.TextStore u64.MAX devices.old }
    requires head { IsOpenHead ranges.now head.old }
    requires some { 0 < length head.old.page.items }
    requires begun { D.faithful devices.old.image → IsBegunOver (D.image devices.old.image) ranges.now head.old }
    requires image_room { length (effect change.now []) ≤ D.room devices.old.image }
    requires text_room { T.faithful devices.old.journal
        → length (T.text devices.old.journal) + rest_of ranges.now head.old + length end.now ≤ T.room devices.old.journal }
    requires within { T.faithful devices.old.redo → cut_place part ≤ length (T.text devices.old.redo) }
    ensures ok { RestsBehind D.Device T.TextStore change.now (entry_on D.image devices.old ranges.now head.old end.now) devices.old devices.new result }
    ensures fault { StopsEither D.Device T.TextStore change.now (entry_on D.image devices.old ranges.now head.old end.now) devices.old devices.new result }
    ensures left { LeavesBoth D.Device T.TextStore change.now (entry_on D.image devices.old ranges.now head.old end.now) part devices.old devices.new result }
    ensures survives { SurvivesBoth D.Device T.TextStore change.now (entry_on D.image devices.old ranges.now head.old end.now) part devices.old devices.new }
    ensures settles { EntrySettles D.Device T.TextStore devices.old devices.new result }
    ensures image { D.faithful devices.old.image → OnOk result (D.image devices.new.image ≡ effect change.now (D.image devices.old.image)) }
    ensures back { D.faithful devices.old.image
        → OnOk result (IsAsGood (kept_of (saved change.now (D.image devices.old.image))) (D.image devices.old.image) (D.image devices.new.image)) }
    ensures text { D.faithful devices.old.image → T.faithful devices.old.journal → OnOk result (T.text devices.new.journal
        ≡ T.text devices.old.journal ++ head_text head.old.number (kept_over (D.image devices.old.image) ranges.now) ++ end.now) }
    ensures redo { T.faithful devices.old.redo → OnOk result (T.text devices.new.redo ≡ take (cut_place part) (T.text devices.old.redo)) }
    ensures long { T.faithful devices.old.journal
        → OnOk result (length (T.text devices.new.journal) ≡ length (T.text devices.old.journal) + rest_of ranges.now head.old + length end.now) }
    ensures front { T.faithful devices.old.journal → OnOk result (IsPrefix (T.text devices.old.journal) (T.text devices.new.journal)) }
    ensures emptied { OnOk result (head.new.page.items ≡ []) }
    ensures kept { KeepsBuffers head.old head.new }
    ensures room { D.room devices.old.image ≤ D.room devices.new.image }
    ensures journal_room { T.room devices.old.journal ≤ T.room devices.new.journal }
    ensures steps_on { StepsOn D.Device T.TextStore result devices.old devices.new }
{
    append_head_of(&mut devices.image, &mut devices.journal, head, ranges)?;
    change_with(&mut devices.image, &mut devices.redo, change, part)?;
    append_end(&mut devices.journal, end)
}
