//! Making undone changes again: some entries of the redo text, the last first.
ghost use Rattle.std.specs.Prelude.{◌≡◌, ◌+◌, ◌-◌, ◌^◌, ◌<◌, ◌≤◌, ◌++◌, ◌∷◌, [], length, drop, reverse, vec_capacity, IfOk, OnOk, is_err};
ghost use Rattle.bx_image.specs.Device.{GoesOn};
ghost use Rattle.bx_image.specs.Power.{NoMore};
ghost use Rattle.bx_journal_format.specs.Parsed.{AllKept};
ghost use Rattle.bx_journal_model.specs.ThreeDevices.{AreBelow, StepsOn};
ghost use Rattle.bx_journal_model.specs.Undoing.{LeavesFront, AreReadFrom};
ghost use Rattle.bx_journal_protocol.specs.protocol.Entries.{RedoAll, RedoRests, RedoSome, RedoSomeSurvives, RedoTakes, RestsOnTop, RedoStands, StaySettled, StopsOnTop};
ghost use Rattle.bx_journal_protocol.specs.write.Touched.{AreTouchedFrom, IsFirstBegun, IsFirstHead, IsFirstWithin, entries_over};
ghost use Rattle.bx_journal_format.specs.Text.{IsPrefix};

use crate::protocol::entry::write_change;
use crate::protocol::redo_text::RedoCut;
use crate::write::head::{Head, Place};
use crate::write::look::look_and_begin;
use bx_image::{Device, DeviceFailed, Span};
use bx_journal_format::{EntryRead, entry_end};
use bx_journal_model::Devices;
use bx_journal_store::TextStore;
use std::alloc::Allocator;

/// Takes the last entry off, and the last ranges.
fn take_both<A: Allocator>(
    entries: &mut Vec<EntryRead<A>, A>,
    takens: &mut Vec<Vec<Span, A>, A>,
) -> (EntryRead<A>, Vec<Span, A>)
    requires some { 0 < length takens.old.items }
    requires few { length takens.old.items ≤ length entries.old.items }
    ensures entry { entries.old.items ≡ entries.new.items ++ result.0 ∷ [] }
    ensures ranges { takens.old.items ≡ takens.new.items ++ result.1 ∷ [] }
{
    (entries.pop().unwrap(), takens.pop().unwrap())
}

/// Looks at what the entry with the last of some ranges is to keep of an image of `len` bytes, and begins its head in the page.
/// Where there are none it does nothing. It takes no memory, and changes no device.
pub fn begin_last<D: Device, A: Allocator>(
    image: &mut D,
    page: &mut Vec<u8, A>,
    window: &mut [u8],
    takens: &[Vec<Span, A>],
    number: u32,
    len: u64,
) -> Result<Place, DeviceFailed>
    requires countable { D.failures image.old < u64.MAX }
    requires long { D.faithful image.old → len ≡ length (D.image image.old) }
    requires within { IsFirstWithin len (reverse takens.now) }
    requires window { 16 ≤ length window.old }
    requires empty { page.old.items ≡ [] }
    requires room { 82 ≤ vec_capacity page.old }
    ensures begun { IfOk result (IsFirstBegun (D.faithful image.old) (D.image image.old) number (reverse takens.now) page.new.items) }
    ensures room { vec_capacity page.old ≤ vec_capacity page.new }
    ensures window { length window.new ≡ length window.old }
    ensures image { D.faithful image.old → D.image image.new ≡ D.image image.old }
    ensures survives { D.faithful image.old → NoMore (D.survives image.old) (D.survives image.new) }
    ensures goes_on { GoesOn D.faithful D.room D.failures (is_err result) image.old image.new }
{
    let count = takens.len();
    if count == 0 {
        return Ok(Place { range: 0, done: 0 });
    }
    let ranges = takens[count - 1].as_slice();
    look_and_begin(image, page, window, ranges, number, len)
}

/// Makes as many of the last entries of the redo text again as there are ranges that they touch, the last first, and answers how
/// many changes then stand. The first head is begun.
pub fn redo_entries<D: Device, T: TextStore, A: Allocator>(
    devices: &mut Devices<D, T>,
    head: &mut Head<A>,
    entries: &mut Vec<EntryRead<A>, A>,
    takens: &mut Vec<Vec<Span, A>, A>,
    count: u32,
) -> Result<u32, DeviceFailed>
    requires countable { AreBelow D.Device T.TextStore u64.MAX devices.old }
    requires few { length takens.old.items ≤ length entries.old.items }
    requires bound { count + length takens.old.items ≤ 65535 }
    requires kept { AllKept (D.room devices.old.image) (drop (length entries.old.items - length takens.old.items) entries.old.items) }
    requires read { AreReadFrom (T.faithful devices.old.redo) (T.text devices.old.redo) entries.old.items }
    requires touched { AreTouchedFrom (D.faithful devices.old.image) (D.image devices.old.image) entries.old.items takens.old.items }
    requires begun { IsFirstHead D.Device devices.old.image (count + 1) takens.old.items head.old }
    requires fits { T.faithful devices.old.journal → length (T.text devices.old.journal) + entries_over takens.old.items ≤ T.room devices.old.journal }
    requires page_room { 82 ≤ vec_capacity head.old.page }
    requires window { 16 ≤ length head.old.window.items }
    ensures found { RedoRests D.Device T.TextStore devices.old devices.new count takens.old.items result }
    ensures images { RedoAll D.Device T.TextStore devices.old devices.new count takens.old.items result }
    ensures rests { RestsOnTop D.Device T.TextStore devices.old devices.new count takens.old.items result }
    ensures stands { RedoStands D.Device T.TextStore devices.old devices.new count takens.old.items result }
    ensures fault { StopsOnTop D.Device T.TextStore devices.old devices.new count takens.old.items result }
    ensures taken { RedoTakes D.Device T.TextStore devices.old devices.new count takens.old.items result }
    ensures number { IfOk result (λ n. n ≡ count + length takens.old.items) }
    ensures left { T.faithful devices.old.redo → LeavesFront (T.text devices.old.redo) (length takens.old.items) (T.text devices.new.redo) result }
    ensures front { T.faithful devices.old.journal → OnOk result (IsPrefix (T.text devices.old.journal) (T.text devices.new.journal)) }
    ensures finds { RedoSome D.Device T.TextStore devices.old devices.new count takens.old.items result }
    ensures settles { StaySettled D.Device T.TextStore devices.old devices.new result }
    ensures survives { RedoSomeSurvives D.Device T.TextStore devices.old devices.new count takens.old.items result }
    ensures steps_on { StepsOn D.Device T.TextStore result devices.old devices.new }
{
    let k = takens.len();
    let mut count = count;
    for i in 0..k {
        let (entry, ranges) = take_both(entries, takens);
        let spans = ranges.as_slice();
        let number = count + 1;
        let begins = entry.begins;
        let after = entry.kept.len;
        let end = entry_end(number, after);
        let change = entry.kept.into_change();
        let cut = RedoCut::From(begins);
        head.number = number;
        write_change(devices, head, spans, &change, end.as_bytes(), cut)?;
        count = number;
        let image = &mut devices.image;
        let page = &mut head.page;
        let window = head.window.as_mut_slice();
        let place = begin_last(image, page, window, takens.as_slice(), number + 1, after)?;
        head.place = place;
    }
    Ok(count)
}
