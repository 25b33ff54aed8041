//! The saved lines of ranges of an image, which is read a part at a time: no more of it is in memory than a page has lines for.
ghost use Rattle.std.specs.Prelude.{◌≡◌, ◌↔◌, ◌⊎◌, true, ◌+◌, ◌-◌, ◌*◌, ◌/◌, ◌^◌, ◌<◌, ◌≤◌, ◌++◌, [], length, take, drop, vec_capacity, IfOk, OnOk, OnErr, is_err};
ghost use Rattle.bx_image.specs.Device.{GoesOn};
ghost use Rattle.bx_image.specs.Power.{FadesBehind, NoMore, Only};
ghost use Rattle.bx_journal_store.specs.Store.{IsPartlyAppended};
ghost use Rattle.bx_journal_format.specs.Entry.{rows, head_text, rows_text};
ghost use Rattle.bx_journal_format.specs.Text.{ended, IsPrefix};
ghost use Rattle.bx_journal_model.specs.ThreeDevices.{GoOnPaired};
ghost use Rattle.bx_journal_protocol.specs.write.Begun.{rest_of, IsOpenHead, KeepsBuffers};
ghost use Rattle.bx_journal_protocol.specs.write.First.{AllHaveFirst};
ghost use Rattle.bx_journal_protocol.specs.write.Page.{IsPaged, row_text};
ghost use Rattle.bx_journal_protocol.specs.write.Ranges.{saved_lines_text, range_len, head_from, kept_over, left_len, rest_text, rest_len, AreRanges, IsPlaceBehind, IsPlace};

use crate::write::entry::put_words;
use crate::write::first::put_first;
use crate::write::head::{Head, Place};
use crate::write::page::append_page;
use bx_image::{Device, DeviceFailed, Span};
use bx_journal_format::{Words, push_rows, row_of, save_text, start_words};
use bx_journal_store::TextStore;
use std::alloc::Allocator;

/// The most bytes of a saved line, its newline included.
const LINE: usize = 82;

/// Puts a saved line into the page, which has room for it.
fn push_row<A: Allocator>(page: &mut Vec<u8, A>, at: u64, bytes: &[u8])
    requires some { 0 < length bytes.now }
    requires few { length bytes.now ≤ 16 }
    requires free { length page.old.items + 82 ≤ vec_capacity page.old }
    ensures line { page.new.items ≡ page.old.items ++ row_text at bytes.now }
    ensures long { length page.new.items ≤ length page.old.items + 82 }
    ensures room { vec_capacity page.old ≤ vec_capacity page.new }
{
    let line = row_of(at, bytes);
    let _ = page.extend_from_slice(line.as_bytes());
}

/// Puts the saved lines of a run into the page, which has room for them.
fn push_run<A: Allocator>(page: &mut Vec<u8, A>, at: u64, bytes: &[u8])
    requires within { at + length bytes.now < 2 ^ 64 }
    requires free { length page.old.items + 82 * ((length bytes.now + 15) / 16) ≤ vec_capacity page.old }
    ensures rows { page.new.items ≡ page.old.items ++ rows_text (rows (record { at = at; bytes = bytes.now })) }
    ensures room { vec_capacity page.old ≤ vec_capacity page.new }
{
    let count = (bytes.len() + 15) / 16;
    let mut k = 0;
    while k < count {
        let more = push_rows(page, at, bytes, k);
        let from = 16 * (k + more);
        let to = (from + 16).min(bytes.len());
        push_row(page, at + from as u64, &bytes[from..to]);
        k = k + more + 1;
    }
}

/// Puts the saved lines of a part of the image into the page, which has room for them.
fn fill_part<D: Device, A: Allocator>(
    image: &mut D,
    page: &mut Vec<u8, A>,
    part: &mut [u8],
    at: u64,
) -> Result<(), DeviceFailed>
    requires countable { D.failures image.old < u64.MAX }
    requires range { D.faithful image.old → at + length part.old ≤ length (D.image image.old) }
    requires sum { at + length part.old < 2 ^ 64 }
    requires free { length page.old.items + 82 * ((length part.old + 15) / 16) ≤ vec_capacity page.old }
    ensures put { D.faithful image.old → OnOk result (page.new.items ≡ page.old.items ++ saved_lines_text (D.image image.old) at (at + length part.old)) }
    ensures long { OnOk result (length page.new.items ≡ length page.old.items + range_len at (at + length part.old)) }
    ensures room { vec_capacity page.old ≤ vec_capacity page.new }
    ensures image { D.faithful image.old → D.image image.new ≡ D.image image.old }
    ensures survives { D.faithful image.old → NoMore (D.survives image.old) (D.survives image.new) }
    ensures goes_on { GoesOn D.faithful D.room D.failures (is_err result) image.old image.new }
{
    image.read_at(at, part)?;
    push_run(page, at, part);
    Ok(())
}

/// For how many bytes the page has room, and the window too: 16 for each line.
fn fits_in(free: usize, window: usize) -> usize
    requires free { 82 ≤ free }
    requires window { 16 ≤ window }
    ensures some { 0 < result }
    ensures lines { 82 * result ≤ free }
    ensures window { 16 * result ≤ window }
{
    (free / LINE).min(window / 16)
}

/// Puts as many saved lines of a range into the page as it has room for. It answers the address that it got to.
fn fill_range<D: Device, A: Allocator>(
    image: &mut D,
    page: &mut Vec<u8, A>,
    window: &mut [u8],
    at: u64,
    end: u64,
) -> Result<u64, DeviceFailed>
    requires countable { D.failures image.old < u64.MAX }
    requires some { at < end }
    requires range { D.faithful image.old → end ≤ length (D.image image.old) }
    requires free { length page.old.items + 82 ≤ vec_capacity page.old }
    requires window { 16 ≤ length window.old }
    ensures forth { IfOk result (λ next. (at < next) × (next ≤ end)) }
    ensures put { D.faithful image.old
        → IfOk result (λ next. page.new.items ++ saved_lines_text (D.image image.old) next end ≡ page.old.items ++ saved_lines_text (D.image image.old) at end) }
    ensures long { IfOk result (λ next. length page.new.items + range_len next end ≡ length page.old.items + range_len at end) }
    ensures more { OnOk result (length page.old.items < length page.new.items) }
    ensures room { vec_capacity page.old ≤ vec_capacity page.new }
    ensures window { length window.new ≡ length window.old }
    ensures image { D.faithful image.old → D.image image.new ≡ D.image image.old }
    ensures survives { D.faithful image.old → NoMore (D.survives image.old) (D.survives image.new) }
    ensures goes_on { GoesOn D.faithful D.room D.failures (is_err result) image.old image.new }
{
    let lines = fits_in(page.capacity() - page.len(), window.len());
    let count = (end - at).min(16 * lines as u64) as usize;
    let (part, _) = window.split_at_mut(count);
    fill_part(image, page, part, at)?;
    Ok(at + count as u64)
}

/// The place that follows the bytes of a range up to an address.
fn behind(range: Span, place: Place, next: u64) -> Place
    requires order { range.at ≤ next }
    requires within { next ≤ range.end }
    requires countable { place.range < u64.MAX }
    ensures { IsPlaceBehind range place next result }
{
    if next == range.end {
        return Place {
            range: place.range + 1,
            done: 0,
        };
    }
    Place {
        range: place.range,
        done: next - range.at,
    }
}

/// Whether the page has room for a line.
#[inline]
fn has_room<A: Allocator>(page: &Vec<u8, A>) -> bool
    ensures { (result ≡ true) ↔ (length page.now.items + 82 ≤ vec_capacity page.now) }
{
    page.capacity() - page.len() >= LINE
}

/// Puts saved lines of some ranges into the page, from a place on and as many as it has room for. It answers where the others
/// go on. It takes no memory.
pub fn fill_page<D: Device, A: Allocator>(
    image: &mut D,
    page: &mut Vec<u8, A>,
    window: &mut [u8],
    ranges: &[Span],
    place: Place,
) -> Result<Place, DeviceFailed>
    requires countable { D.failures image.old < u64.MAX }
    requires ordered { AreRanges (2 ^ 64) ranges.now }
    requires ranges { D.faithful image.old → AreRanges (length (D.image image.old)) ranges.now }
    requires place { IsPlace ranges.now place }
    requires window { 16 ≤ length window.old }
    ensures put { D.faithful image.old
        → IfOk result (λ next. page.new.items ++ rest_text (D.image image.old) ranges.now next
        ≡ page.old.items ++ rest_text (D.image image.old) ranges.now place) }
    ensures long { IfOk result (λ next. length page.new.items + rest_len ranges.now next ≡ length page.old.items + rest_len ranges.now place) }
    ensures place { IfOk result (IsPlace ranges.now) }
    ensures more { place.range < length ranges.now → length page.old.items + 82 ≤ vec_capacity page.old
        → OnOk result (length page.old.items < length page.new.items) }
    ensures grows { OnOk result (length page.old.items ≤ length page.new.items) }
    ensures room { vec_capacity page.old ≤ vec_capacity page.new }
    ensures window { length window.new ≡ length window.old }
    ensures image { D.faithful image.old → D.image image.new ≡ D.image image.old }
    ensures survives { D.faithful image.old → NoMore (D.survives image.old) (D.survives image.new) }
    ensures goes_on { GoesOn D.faithful D.room D.failures (is_err result) image.old image.new }
{
    let mut now = place;
    while now.range < ranges.len() && has_room(page) {
        let range = ranges[now.range];
        let next = fill_range(image, page, window, range.at + now.done, range.end)?;
        now = behind(range, now, next);
    }
    Ok(now)
}

/// Appends the page and the lines from a place on, page by page; the last page waits.
pub fn put_pages<D: Device, T: TextStore, A: Allocator>(
    image: &mut D,
    journal: &mut T,
    page: &mut Vec<u8, A>,
    window: &mut [u8],
    ranges: &[Span],
    place: Place,
) -> Result<(), DeviceFailed>
    requires image_countable { D.failures image.old < u64.MAX }
    requires journal_countable { T.failures journal.old < u64.MAX }
    requires ordered { AreRanges (2 ^ 64) ranges.now }
    requires ranges { D.faithful image.old → AreRanges (length (D.image image.old)) ranges.now }
    requires place { IsPlace ranges.now place }
    requires window { 16 ≤ length window.old }
    requires fits { T.faithful journal.old → length (T.text journal.old) + length page.old.items + rest_len ranges.now place ≤ T.room journal.old }
    requires room { 82 ≤ vec_capacity page.old }
    ensures ok { D.faithful image.old → T.faithful journal.old
        → OnOk result (IsPaged (page.old.items ++ rest_text (D.image image.old) ranges.now place) (T.text journal.old) (T.text journal.new) page.new.items) }
    ensures fault { D.faithful image.old → T.faithful journal.old
        → OnErr result (IsPartlyAppended (page.old.items ++ rest_text (D.image image.old) ranges.now place) (T.text journal.old) (T.text journal.new)) }
    ensures fades { D.faithful image.old → T.faithful journal.old
        → FadesBehind (T.text journal.old) (page.old.items ++ rest_text (D.image image.old) ranges.now place) (T.survives journal.old) (T.survives journal.new) }
    ensures long { T.faithful journal.old
        → OnOk result (length (T.text journal.new) + length page.new.items ≡ length (T.text journal.old) + length page.old.items + rest_len ranges.now place) }
    ensures front { T.faithful journal.old → OnOk result (IsPrefix (T.text journal.old) (T.text journal.new)) }
    ensures window { length window.new ≡ length window.old }
    ensures room { vec_capacity page.old ≤ vec_capacity page.new }
    ensures goes_on { GoOnPaired D.Device T.TextStore result image.old journal.old image.new journal.new }
{
    let mut now = place;
    while now.range < ranges.len() {
        append_page(journal, page)?;
        now = fill_page(image, page, window, ranges, now)?;
    }
    Ok(())
}

/// Puts a line with its newline into the page, which has room for it.
fn push_line<A: Allocator>(page: &mut Vec<u8, A>, line: Words)
    requires short { length line < 34 }
    requires free { length page.old.items + 34 ≤ vec_capacity page.old }
    ensures line { page.new.items ≡ page.old.items ++ ended line }
    ensures room { vec_capacity page.old ≤ vec_capacity page.new }
{
    let mut line = line;
    line.push(b'\n');
    let _ = page.extend_from_slice(line.as_bytes());
}

/// Puts the line that begins an entry into an empty page, and then as many saved lines of its ranges as there is room for. It
/// answers where the others go on. It takes no memory, and changes no device.
pub fn begin_head<D: Device, A: Allocator>(
    image: &mut D,
    page: &mut Vec<u8, A>,
    window: &mut [u8],
    ranges: &[Span],
    number: u32,
    len: u64,
) -> Result<Place, DeviceFailed>
    requires countable { D.failures image.old < u64.MAX }
    requires ordered { AreRanges (2 ^ 64) ranges.now }
    requires ranges { D.faithful image.old → AreRanges (length (D.image image.old)) ranges.now }
    requires long { D.faithful image.old → len ≡ length (D.image image.old) }
    requires window { 16 ≤ length window.old }
    requires empty { page.old.items ≡ [] }
    requires room { 82 ≤ vec_capacity page.old }
    ensures begun { D.faithful image.old
        → IfOk result (λ p. head_from (D.image image.old) ranges.now p page.new.items number ≡ head_text number (kept_over (D.image image.old) ranges.now)) }
    ensures long { IfOk result (λ p. length page.new.items + rest_len ranges.now p ≡ 34 + left_len ranges.now 0) }
    ensures some { OnOk result (0 < length page.new.items) }
    ensures place { IfOk result (IsPlace ranges.now) }
    ensures room { vec_capacity page.old ≤ vec_capacity page.new }
    ensures window { length window.new ≡ length window.old }
    ensures image { D.faithful image.old → D.image image.new ≡ D.image image.old }
    ensures survives { D.faithful image.old → NoMore (D.survives image.old) (D.survives image.new) }
    ensures goes_on { GoesOn D.faithful D.room D.failures (is_err result) image.old image.new }
{
    push_line(page, start_words(number, len));
    let first = Place { range: 0, done: 0 };
    fill_page(image, page, window, ranges, first)
}

/// Appends the page that an entry's head begins with, and the rest of the head.
fn put_rest_of<D: Device, T: TextStore, A: Allocator>(
    image: &mut D,
    journal: &mut T,
    head: &mut Head<A>,
    ranges: &[Span],
) -> Result<(), DeviceFailed>
    requires image_countable { D.failures image.old < u64.MAX }
    requires journal_countable { T.failures journal.old < u64.MAX }
    requires head { IsOpenHead ranges.now head.old }
    requires ranges { D.faithful image.old → AreRanges (length (D.image image.old)) ranges.now }
    requires fits { T.faithful journal.old → length (T.text journal.old) + rest_of ranges.now head.old ≤ T.room journal.old }
    ensures ok { D.faithful image.old → T.faithful journal.old
        → OnOk result (T.text journal.new ≡ T.text journal.old ++ head_from (D.image image.old) ranges.now head.old.place head.old.page.items head.old.number) }
    ensures fault { D.faithful image.old → T.faithful journal.old
        → OnErr result (IsPartlyAppended (head_from (D.image image.old) ranges.now head.old.place head.old.page.items head.old.number) (T.text journal.old) (T.text journal.new)) }
    ensures fades { D.faithful image.old → T.faithful journal.old
        → FadesBehind (T.text journal.old) (head_from (D.image image.old) ranges.now head.old.place head.old.page.items head.old.number) (T.survives journal.old) (T.survives journal.new) }
    ensures long { T.faithful journal.old → OnOk result (length (T.text journal.new) ≡ length (T.text journal.old) + rest_of ranges.now head.old) }
    ensures front { T.faithful journal.old → OnOk result (IsPrefix (T.text journal.old) (T.text journal.new)) }
    ensures emptied { OnOk result (head.new.page.items ≡ []) }
    ensures kept { KeepsBuffers head.old head.new }
    ensures goes_on { GoOnPaired D.Device T.TextStore result image.old journal.old image.new journal.new }
{
    let window = head.window.as_mut_slice();
    let page = &mut head.page;
    put_pages(image, journal, page, window, ranges, head.place)?;
    put_words(journal, page, save_text(head.number))?;
    append_page(journal, page)
}

/// Appends an entry's head, whose first page is made. Where the text is empty, its first byte is on the disk before the others.
pub fn put_head_from<D: Device, T: TextStore, A: Allocator>(
    image: &mut D,
    journal: &mut T,
    head: &mut Head<A>,
    ranges: &[Span],
) -> Result<(), DeviceFailed>
    requires image_countable { D.failures image.old < u64.MAX }
    requires journal_countable { T.failures journal.old < u64.MAX }
    requires head { IsOpenHead ranges.now head.old }
    requires some { 0 < length head.old.page.items }
    requires ranges { D.faithful image.old → AreRanges (length (D.image image.old)) ranges.now }
    requires fits { T.faithful journal.old → length (T.text journal.old) + rest_of ranges.now head.old ≤ T.room journal.old }
    ensures ok { D.faithful image.old → T.faithful journal.old
        → OnOk result (T.text journal.new ≡ T.text journal.old ++ head_from (D.image image.old) ranges.now head.old.place head.old.page.items head.old.number) }
    ensures fault { D.faithful image.old → T.faithful journal.old
        → OnErr result (IsPartlyAppended (head_from (D.image image.old) ranges.now head.old.place head.old.page.items head.old.number) (T.text journal.old) (T.text journal.new)) }
    ensures fades { D.faithful image.old → T.faithful journal.old
        → FadesBehind (T.text journal.old) (head_from (D.image image.old) ranges.now head.old.place head.old.page.items head.old.number) (T.survives journal.old) (T.survives journal.new) }
    ensures first { D.faithful image.old → T.faithful journal.old → Only (T.text journal.old) (T.survives journal.old)
        → AllHaveFirst (T.text journal.old ++ head_from (D.image image.old) ranges.now head.old.place head.old.page.items head.old.number) (T.survives journal.new) }
    ensures long { T.faithful journal.old → OnOk result (length (T.text journal.new) ≡ length (T.text journal.old) + rest_of ranges.now head.old) }
    ensures front { T.faithful journal.old → OnOk result (IsPrefix (T.text journal.old) (T.text journal.new)) }
    ensures emptied { OnOk result (head.new.page.items ≡ []) }
    ensures kept { KeepsBuffers head.old head.new }
    ensures goes_on { GoOnPaired D.Device T.TextStore result image.old journal.old image.new journal.new }
{
    put_first(journal, &mut head.page)?;
    put_rest_of(image, journal, head, ranges)
}
