//! The digest of what an image has where the saved lines of an entry say.
ghost use Rattle.std.specs.Prelude.{◌≡◌, ◌↔◌, ◌+◌, ◌<◌, ◌≤◌, length, take, drop, true, false, is_err, IfOk, []};
ghost use Rattle.bx_image.specs.Cached.{IsCache, OnlyReadsImage};
ghost use Rattle.bx_journal_format.specs.Text.{split};
ghost use Rattle.bx_journal_read.specs.scan.Windows.{rest_to};
ghost use Rattle.bx_journal_image.specs.Blocks.{HasLongLine};
ghost use Rattle.bx_journal_image.specs.Looks.{LooksAtBoth};
ghost use Rattle.bx_journal_image.specs.Written.{Sums, at_line, at_lines};

use crate::finding::summed::{Sum, sum_bytes};
use bx_image::{Cached, Device, DeviceFailed, MAX_LEN, keep_cached};
use bx_journal_format::{line_end, saved_in};
use bx_journal_store::TextStore;

/// Digests what the image has where a whole line says, if it is a saved one.
fn sum_line<D: Device>(
    image: &mut D,
    cached: Cached,
    page: &mut [u8],
    sum: &mut Sum,
    line: &[u8],
) -> Result<Cached, DeviceFailed>
    requires countable { D.failures image.old < u64.MAX }
    requires cache { IsCache (D.faithful image.old) (D.image image.old) page.old cached }
    requires room { 16 ≤ length page.old }
    ensures sums { D.faithful image.old → IfOk result (λ _. Sums sum.old sum.new (at_line (D.image image.old) line.now)) }
    ensures cache { IfOk result (IsCache (D.faithful image.old) (D.image image.old) page.new) }
    ensures room { length page.new ≡ length page.old }
    ensures reads { OnlyReadsImage D.Device (is_err result) image.old image.new }
{
    let Some(saved) = saved_in(MAX_LEN, line) else {
        return Ok(cached);
    };
    if cached.len <= saved.at {
        return Ok(cached);
    }
    let bytes = &saved.bytes[..saved.count];
    let count = (bytes.len() as u64).min(cached.len - saved.at) as usize;
    let kept = keep_cached(image, cached, page, saved.at, count)?;
    let from = (saved.at - kept.at) as usize;
    sum_bytes(sum, &page[from..from + count]);
    Ok(kept)
}

/// What the page has behind some lines, and how many bytes of text these have.
#[derive(Clone, Copy)]
pub struct Lines {
    pub cached: Cached,
    pub taken: usize,
}

/// Digests what the image has where the whole lines of a text say.
fn sum_lines<D: Device>(
    image: &mut D,
    cached: Cached,
    page: &mut [u8],
    sum: &mut Sum,
    text: &[u8],
) -> Result<Lines, DeviceFailed>
    requires countable { D.failures image.old < u64.MAX }
    requires cache { IsCache (D.faithful image.old) (D.image image.old) page.old cached }
    requires room { 16 ≤ length page.old }
    ensures sums { D.faithful image.old → IfOk result (λ _. Sums sum.old sum.new (at_lines (D.image image.old) text.now)) }
    ensures cache { IfOk result (λ lines. IsCache (D.faithful image.old) (D.image image.old) page.new lines.cached) }
    ensures within { IfOk result (λ lines. lines.taken ≤ length text.now) }
    ensures lines { IfOk result (λ lines. (split (take lines.taken text.now)).lines ≡ (split text.now).lines) }
    ensures whole { IfOk result (λ lines. (split (take lines.taken text.now)).rest ≡ []) }
    ensures room { length page.new ≡ length page.old }
    ensures reads { OnlyReadsImage D.Device (is_err result) image.old image.new }
{
    let mut now = cached;
    let mut rest = text;
    let mut taken = 0;
    while let Some(i) = line_end(rest) {
        now = sum_line(image, now, page, sum, &rest[..i])?;
        let (_, behind) = rest.split_at(i + 1);
        taken += i + 1;
        rest = behind;
    }
    Ok(Lines { cached: now, taken })
}

/// Two places of a text, beside an image of this length.
#[derive(Clone, Copy)]
pub struct Part {
    pub length: u64,
    pub from: u64,
    pub to: u64,
}

/// Digests what the image has where the whole lines between two places of a text say, which are read a window at a time. It says no
/// where a line is longer than the window.
pub fn sum_text<D: Device, T: TextStore>(
    image: &mut D,
    store: &mut T,
    page: &mut [u8],
    window: &mut [u8],
    sum: &mut Sum,
    part: Part,
) -> Result<bool, DeviceFailed>
    requires image_countable { D.failures image.old < u64.MAX }
    requires text_countable { T.failures store.old < u64.MAX }
    requires long { D.faithful image.old → part.length ≡ length (D.image image.old) }
    requires order { part.from ≤ part.to }
    requires within { T.faithful store.old → part.to ≤ length (T.text store.old) }
    requires page { length page.old ≡ 4096 }
    requires window { length window.old ≡ 65536 }
    ensures sums { D.faithful image.old → T.faithful store.old → IfOk result (λ all. all ≡ true
        → Sums sum.old sum.new (at_lines (D.image image.old) (rest_to part.to part.from (T.text store.old)))) }
    ensures long { T.faithful store.old → IfOk result (λ all. all ≡ false → HasLongLine 65536 part.from part.to (T.text store.old)) }
    ensures page { length page.new ≡ 4096 }
    ensures window { length window.new ≡ 65536 }
    ensures looks { LooksAtBoth D.Device T.TextStore (is_err result) image.old image.new store.old store.new }
{
    let mut cached = Cached {
        len: part.length,
        at: 0,
        count: 0,
    };
    let mut at = part.from;
    while at < part.to {
        let size = (window.len() as u64).min(part.to - at) as usize;
        let (now, _) = window.split_at_mut(size);
        store.read_at(at, now)?;
        let lines = sum_lines(image, cached, page, sum, now)?;
        if lines.taken == 0 {
            return Ok(size < window.len());
        }
        cached = lines.cached;
        at += lines.taken as u64;
    }
    Ok(true)
}
