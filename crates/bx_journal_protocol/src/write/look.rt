//! What an entry is to keep of an image is looked at once before the first write: an image that can't be read refuses the
//! change then, and nothing is changed.
ghost use Rattle.std.specs.Prelude.{◌≡◌, ◌+◌, ◌-◌, ◌^◌, ◌<◌, ◌≤◌, [], length, take, drop, vec_capacity, IfOk, OnOk, is_err};
ghost use Rattle.bx_image.specs.Change.{AreBytes, HaveBytes};
ghost use Rattle.bx_image.specs.Device.{GoesOn};
ghost use Rattle.bx_image.specs.Power.{NoMore};
ghost use Rattle.bx_journal_format.specs.Entry.{head_text};
ghost use Rattle.bx_journal_protocol.specs.write.Ranges.{head_from, kept_over, left_len, rest_len, AreRanges, IsPlace};

use crate::write::head::Place;
use crate::write::ranges::begin_head;
use bx_image::{Device, DeviceFailed, Span};
use std::alloc::Allocator;

/// What the type of a slice says of its numbers.
fn are_bytes(bytes: &[u8])
    ensures { AreBytes bytes.now }
{}

/// Reads a part of the image.
fn look_part<D: Device>(image: &mut D, part: &mut [u8], at: u64) -> Result<(), DeviceFailed>
    requires countable { D.failures image.old < u64.MAX }
    requires range { D.faithful image.old → at + length part.old ≤ length (D.image image.old) }
    ensures bytes { D.faithful image.old → OnOk result (AreBytes (take (length part.old) (drop at (D.image image.old)))) }
    ensures same_length { length part.new ≡ length part.old }
    ensures image { D.faithful image.old → D.image image.new ≡ D.image image.old }
    ensures survives { D.faithful image.old → NoMore (D.survives image.old) (D.survives image.new) }
    ensures goes_on { GoesOn D.faithful D.room D.failures (is_err result) image.old image.new }
{
    let result = image.read_at(at, part);
    are_bytes(part);
    result
}

/// Reads a range of the image, a window at a time.
fn look_range<D: Device>(
    image: &mut D,
    window: &mut [u8],
    at: u64,
    end: u64,
) -> Result<(), DeviceFailed>
    requires countable { D.failures image.old < u64.MAX }
    requires order { at ≤ end }
    requires range { D.faithful image.old → end ≤ length (D.image image.old) }
    requires window { 16 ≤ length window.old }
    ensures bytes { D.faithful image.old → OnOk result (AreBytes (take (end - at) (drop at (D.image image.old)))) }
    ensures window { length window.new ≡ length window.old }
    ensures image { D.faithful image.old → D.image image.new ≡ D.image image.old }
    ensures survives { D.faithful image.old → NoMore (D.survives image.old) (D.survives image.new) }
    ensures goes_on { GoesOn D.faithful D.room D.failures (is_err result) image.old image.new }
{
    let mut from = at;
    while from < end {
        let count = (end - from).min(window.len() as u64) as usize;
        let (part, _) = window.split_at_mut(count);
        look_part(image, part, from)?;
        from += count as u64;
    }
    Ok(())
}

/// Reads the image's bytes in some ranges, and keeps none of them.
pub fn look_at<D: Device>(
    image: &mut D,
    window: &mut [u8],
    ranges: &[Span],
) -> Result<(), DeviceFailed>
    requires countable { D.failures image.old < u64.MAX }
    requires ordered { AreRanges (2 ^ 64) ranges.now }
    requires ranges { D.faithful image.old → AreRanges (length (D.image image.old)) ranges.now }
    requires window { 16 ≤ length window.old }
    ensures bytes { D.faithful image.old → OnOk result (HaveBytes (kept_over (D.image image.old) ranges.now).runs) }
    ensures window { length window.new ≡ length window.old }
    ensures image { D.faithful image.old → D.image image.new ≡ D.image image.old }
    ensures survives { D.faithful image.old → NoMore (D.survives image.old) (D.survives image.new) }
    ensures goes_on { GoesOn D.faithful D.room D.failures (is_err result) image.old image.new }
{
    for range in ranges {
        look_range(image, window, range.at, range.end)?;
    }
    Ok(())
}

/// Looks at what an entry is to keep, and begins its head. It takes no memory, and changes no device.
pub fn look_and_begin<D: Device, A: Allocator>(
    image: &mut D,
    page: &mut Vec<u8, A>,
    window: &mut [u8],
    ranges: &[Span],
    number: u32,
    len: u64,
) -> Result<Place, DeviceFailed>
    requires countable { D.failures image.old < u64.MAX }
    requires ordered { AreRanges (2 ^ 64) ranges.now }
    requires ranges { D.faithful image.old → AreRanges (length (D.image image.old)) ranges.now }
    requires long { D.faithful image.old → len ≡ length (D.image image.old) }
    requires window { 16 ≤ length window.old }
    requires empty { page.old.items ≡ [] }
    requires room { 82 ≤ vec_capacity page.old }
    ensures begun { D.faithful image.old
        → IfOk result (λ p. head_from (D.image image.old) ranges.now p page.new.items number ≡ head_text number (kept_over (D.image image.old) ranges.now)) }
    ensures bytes { D.faithful image.old → OnOk result (HaveBytes (kept_over (D.image image.old) ranges.now).runs) }
    ensures long { IfOk result (λ p. length page.new.items + rest_len ranges.now p ≡ 34 + left_len ranges.now 0) }
    ensures some { OnOk result (0 < length page.new.items) }
    ensures place { IfOk result (IsPlace ranges.now) }
    ensures room { vec_capacity page.old ≤ vec_capacity page.new }
    ensures window { length window.new ≡ length window.old }
    ensures image { D.faithful image.old → D.image image.new ≡ D.image image.old }
    ensures survives { D.faithful image.old → NoMore (D.survives image.old) (D.survives image.new) }
    ensures goes_on { GoesOn D.faithful D.room D.failures (is_err result) image.old image.new }
{
    look_at(image, window, ranges)?;
    begin_head(image, page, window, ranges, number, len)
}
