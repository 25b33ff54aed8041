//! What a command finds of an image beside two finished texts.
ghost use Rattle.std.specs.Prelude.{◌≡◌, ◌+◌, ◌<◌, ◌≤◌, length, take, drop, is_err, IfOk, IfErr, OnOk};
ghost use Rattle.bx_image.specs.Cached.{OnlyReadsImage};
ghost use Rattle.bx_journal_model.specs.Fault.{LacksOrFails};
ghost use Rattle.bx_journal_model.specs.Opening.{ThreeCounts};
ghost use Rattle.bx_journal_image.specs.Looks.{ThreeCount, LooksAtBoth, LeavesDevice};
ghost use Rattle.bx_journal_image.specs.Stand.{IsDigested, IsLastRead, IsStandOf};
ghost use Rattle.bx_journal_image.specs.Written.{appended_bytes};

use crate::advice::Standing;
use crate::finding::entry::{last_entry, length_before, number_at_end};
use crate::finding::summed::{nothing_summed, sum_end};
use crate::finding::written::{Part, sum_text};
use crate::line::digest::{Digest, digest_of};
use bx_image::{Device, DeviceFailed};
use bx_journal_model::SessionFault;
use bx_journal_store::TextStore;
use std::alloc::Allocator;

/// How many bytes of a text are read at a time.
const WINDOW: usize = 65_536;

/// How many bytes of an image are.
const PAGE: usize = 4096;

/// How many bytes of an entry's text count.
const MOST: u64 = 4_456_448;

/// How many bytes count of what a change appended.
const APPENDED: u64 = 65_536;

/// What is found of an image beside two finished texts.
#[derive(Clone, Copy, Debug, PartialEq, Eq)]
pub struct AtRest {
    /// How many changes stand and are undone, the image's length, and the digests of what it has where the last of each wrote.
    pub standing: Standing,
    /// The length in bytes that an undo of one change gives the image, where its entry tells it.
    pub before: Option<u64>,
    /// That which a redo of one gives it.
    pub after: Option<u64>,
}

/// What is found of a text: the number of its last entry, the length that this restores, and the digest of what the image has where it
/// wrote.
#[derive(Clone, Copy)]
pub struct Last {
    pub number: u32,
    pub before: Option<u64>,
    pub digest: Digest,
}

/// The last entry of a text of `to` bytes, from a place on, beside an image of `length` bytes.
#[derive(Clone, Copy)]
pub struct Entry {
    pub length: u64,
    pub from: u64,
    pub to: u64,
    pub before: Option<u64>,
}

/// Reads what a change appended that began with an image of this length, and says how many bytes.
fn read_appended<D: Device>(
    image: &mut D,
    total: u64,
    before: Option<u64>,
    window: &mut [u8],
) -> Result<usize, DeviceFailed>
    requires countable { D.failures image.old < u64.MAX }
    requires long { D.faithful image.old → total ≡ length (D.image image.old) }
    requires window { length window.old ≡ 65536 }
    ensures bytes { D.faithful image.old → IfOk result (λ n. take n window.new ≡ appended_bytes (D.image image.old) before) }
    ensures within { IfOk result (λ n. n ≤ 65536) }
    ensures window { length window.new ≡ 65536 }
    ensures reads { OnlyReadsImage D.Device (is_err result) image.old image.new }
{
    let Some(at) = before else {
        return Ok(0);
    };
    if total <= at {
        return Ok(0);
    }
    let count = APPENDED.min(total - at) as usize;
    let (now, _) = window.split_at_mut(count);
    image.read_at(at, now)?;
    Ok(count)
}

/// The digest of what an image has where an entry wrote; none where a line of it is longer than a window.
fn digest_entry<D: Device, T: TextStore>(
    image: &mut D,
    text: &mut T,
    page: &mut [u8],
    window: &mut [u8],
    entry: Entry,
) -> Result<Option<Digest>, DeviceFailed>
    requires image_countable { D.failures image.old < u64.MAX }
    requires text_countable { T.failures text.old < u64.MAX }
    requires long { D.faithful image.old → entry.length ≡ length (D.image image.old) }
    requires order { entry.from ≤ entry.to }
    requires end { T.faithful text.old → entry.to ≡ length (T.text text.old) }
    requires page { length page.old ≡ 4096 }
    requires window { length window.old ≡ 65536 }
    ensures digest { D.faithful image.old → T.faithful text.old → IfOk result (IsDigested (D.image image.old) (T.text text.old) entry.from entry.before) }
    ensures page { length page.new ≡ 4096 }
    ensures window { length window.new ≡ 65536 }
    ensures looks { LooksAtBoth D.Device T.TextStore (is_err result) image.old image.new text.old text.new }
{
    let part = Part {
        length: entry.length,
        from: entry.from,
        to: entry.from + MOST.min(entry.to - entry.from),
    };
    let mut sum = nothing_summed();
    let all = sum_text(image, text, page, window, &mut sum, part)?;
    if !all {
        return Ok(None);
    }
    let more = read_appended(image, entry.length, entry.before, window)?;
    Ok(Some(sum_end(sum, &window[..more])))
}

/// What is found of a text beside an image of this length; none where it isn't finished entries of the newer form.
fn last_of<D: Device, T: TextStore>(
    image: &mut D,
    text: &mut T,
    page: &mut [u8],
    window: &mut [u8],
    total: u64,
) -> Result<Option<Last>, DeviceFailed>
    requires image_countable { D.failures image.old < u64.MAX }
    requires text_countable { T.failures text.old < u64.MAX }
    requires long { D.faithful image.old → total ≡ length (D.image image.old) }
    requires page { length page.old ≡ 4096 }
    requires window { length window.old ≡ 65536 }
    ensures last { D.faithful image.old → T.faithful text.old → IfOk result (IsLastRead (D.image image.old) (T.text text.old)) }
    ensures page { length page.new ≡ 4096 }
    ensures window { length window.new ≡ 65536 }
    ensures looks { LooksAtBoth D.Device T.TextStore (is_err result) image.old image.new text.old text.new }
{
    let to = text.len()?;
    if to == 0 {
        return Ok(Some(Last {
            number: 0,
            before: None,
            digest: digest_of(b""),
        }));
    }
    let Some(number) = number_at_end(text, window, to)? else {
        return Ok(None);
    };
    let from = last_entry(text, window, to)?;
    let before = length_before(text, window, from, to)?;
    let entry = Entry {
        length: total,
        from,
        to,
        before,
    };
    let Some(digest) = digest_entry(image, text, page, window, entry)? else {
        return Ok(None);
    };
    Ok(Some(Last {
        number,
        before,
        digest,
    }))
}

/// What is found of an image beside both texts.
fn stand_in<D: Device, T: TextStore>(
    image: &mut D,
    journal: &mut T,
    redo: &mut T,
    page: &mut [u8],
    window: &mut [u8],
) -> Result<Option<AtRest>, DeviceFailed>
    requires image_countable { D.failures image.old < u64.MAX }
    requires journal_countable { T.failures journal.old < u64.MAX }
    requires redo_countable { T.failures redo.old < u64.MAX }
    requires page { length page.old ≡ 4096 }
    requires window { length window.old ≡ 65536 }
    ensures found { D.faithful image.old → T.faithful journal.old → T.faithful redo.old
        → IfOk result (IsStandOf (D.image image.old) (T.text journal.old) (T.text redo.old)) }
    ensures image { LeavesDevice D.faithful D.image D.survives image.old image.new }
    ensures journal { LeavesDevice T.faithful T.text T.survives journal.old journal.new }
    ensures redo { LeavesDevice T.faithful T.text T.survives redo.old redo.new }
    ensures counted { ThreeCount (is_err result) (D.failures image.old) (T.failures journal.old) (T.failures redo.old)
        (D.failures image.new) (T.failures journal.new) (T.failures redo.new) }
{
    let length = image.len()?;
    let Some(last) = last_of(image, journal, page, window, length)? else {
        return Ok(None);
    };
    let Some(next) = last_of(image, redo, page, window, length)? else {
        return Ok(None);
    };
    let standing = Standing {
        changes: last.number,
        undone: next.number,
        length,
        last: last.digest,
        next: next.digest,
    };
    Ok(Some(AtRest {
        standing,
        before: last.before,
        after: next.before,
    }))
}

/// What a command finds of an image beside a journal and a redo text, where both are finished entries of the newer form, or empty;
/// none where one isn't, or a line of its last entry is longer than 64 KiB. It takes 68 KiB, and only reads.
///
/// # Errors
/// `NoMemory` where a growth is refused, `DeviceFailed` where one of the three fails.
pub fn stand<D: Device, T: TextStore, A: Allocator + Clone>(
    alloc: &A,
    image: &mut D,
    journal: &mut T,
    redo: &mut T,
) -> Result<Option<AtRest>, SessionFault>
    requires image_countable { D.failures image.old < u64.MAX }
    requires journal_countable { T.failures journal.old < u64.MAX }
    requires redo_countable { T.failures redo.old < u64.MAX }
    ensures found { D.faithful image.old → T.faithful journal.old → T.faithful redo.old
        → IfOk result (IsStandOf (D.image image.old) (T.text journal.old) (T.text redo.old)) }
    ensures fault { IfErr result LacksOrFails }
    ensures image { LeavesDevice D.faithful D.image D.survives image.old image.new }
    ensures journal { LeavesDevice T.faithful T.text T.survives journal.old journal.new }
    ensures redo { LeavesDevice T.faithful T.text T.survives redo.old redo.new }
    ensures no_failure { OnOk result ((D.failures image.new ≡ D.failures image.old) × (T.failures journal.new ≡ T.failures journal.old)
        × (T.failures redo.new ≡ T.failures redo.old)) }
    ensures counts { IfErr result (λ e. ThreeCounts e (D.failures image.old) (T.failures journal.old) (T.failures redo.old)
        (D.failures image.new) (T.failures journal.new) (T.failures redo.new)) }
{
    let mut room = vec![in alloc.clone()?; 0u8; WINDOW + PAGE]?;
    let (window, page) = room.as_mut_slice().split_at_mut(WINDOW);
    match stand_in(image, journal, redo, page, window) {
        Ok(found) => Ok(found),
        Err(_) => Err(SessionFault::DeviceFailed),
    }
}
