//! The saved lines of an entry that is marked, each made from its bytes behind a `+`, and before it what an image has at its
//! addresses, behind a `-`.
ghost use Rattle.std.specs.Prelude.{◌≡◌, ◌+◌, ◌<◌, ◌≤◌, ◌++◌, length, take, drop, codes, OnOk, IfOk, IfErr};
ghost use Rattle.std.specs.Io.KnownBytes.{Appends};
ghost use Rattle.bx_image.specs.Cached.{IsCache};
ghost use Rattle.bx_journal_format.specs.Text.{split};
ghost use Rattle.bx_journal_read.specs.show.Differences.{diff_line, diff_text, shown_between, signed_line, AreAdded, AreWritten, HasGoneOn};
ghost use Rattle.bx_journal_read.specs.show.Showing.{WritesBeside, WritesFrom, lines_at};
ghost use Rattle.bx_journal_read.specs.show.Stopping.{CountsBytes, IsOfReading, StopsPrefix};

use crate::show::fault::ShowFault;
use crate::show::lines::{GATHERED, push_signed};
use crate::show::writing::{Writing, put};
use bx_image::{Cached, Device, keep_cached};
use bx_journal_format::{Mark, line_end, saved_in};
use bx_journal_model::{SessionFault, passed, read_cut};
use bx_journal_store::TextStore;
use std::alloc::Allocator;
use std::io::Write;

/// The count of bytes of the image that are read at a time.
const PAGE: usize = 4096;

/// Where reading stands in the text, and what is kept of the image.
#[derive(Clone, Copy)]
pub struct Compared {
    pub at: u64,
    pub cached: Cached,
}

/// The comparison of an entry: its mark, and what is done of its lines.
#[derive(Clone, Copy)]
struct Comparison {
    mark: Mark,
    done: Compared,
}

/// How many bytes of a window were taken, and what is kept of the image.
#[derive(Clone, Copy)]
struct Taken {
    taken: usize,
    cached: Cached,
}

/// Adds the line for what an image has at the addresses of a saved line, as far as it has these.
fn push_now<D: Device, A: Allocator>(
    device: &mut D,
    cached: Cached,
    page: &mut [u8],
    at: u64,
    count: usize,
    text: &mut Vec<u8, A>,
) -> Result<Cached, ShowFault>
    requires countable { D.failures device.old < u64.MAX }
    requires cache { IsCache (D.faithful device.old) (D.image device.old) page.old cached }
    requires room { 16 ≤ length page.old }
    requires few { count ≤ 16 }
    ensures added { D.faithful device.old → OnOk result
        (text.new.items ≡ text.old.items ++ signed_line (codes "-") at (take count (drop at (D.image device.old)))) }
    ensures cache { IfOk result (IsCache (D.faithful device.old) (D.image device.old) page.new) }
    ensures room { length page.new ≡ length page.old }
    ensures puts { WritesFrom D.faithful D.image D.survives D.failures result device.old device.new }
    ensures read { IfErr result IsOfReading }
{
    if cached.len <= at {
        return Ok(cached);
    }
    let there = (count as u64).min(cached.len - at) as usize;
    let kept = keep_cached(device, cached, page, at, there)?;
    let from = (at - kept.at) as usize;
    push_signed(text, b"-", at, &page[from..from + there])?;
    Ok(kept)
}

/// Adds a saved line of an entry that begins with the length `before`, beside what the image has there. A line that isn't a
/// saved one adds nothing.
fn push_beside<D: Device, A: Allocator>(
    device: &mut D,
    cached: Cached,
    page: &mut [u8],
    before: u64,
    line: &[u8],
    text: &mut Vec<u8, A>,
) -> Result<Cached, ShowFault>
    requires countable { D.failures device.old < u64.MAX }
    requires cache { IsCache (D.faithful device.old) (D.image device.old) page.old cached }
    requires room { 16 ≤ length page.old }
    ensures added { D.faithful device.old → OnOk result (text.new.items ≡ text.old.items ++ diff_line (D.image device.old) before line.now) }
    ensures cache { IfOk result (IsCache (D.faithful device.old) (D.image device.old) page.new) }
    ensures room { length page.new ≡ length page.old }
    ensures puts { WritesFrom D.faithful D.image D.survives D.failures result device.old device.new }
    ensures read { IfErr result IsOfReading }
{
    let Some(saved) = saved_in(before, line) else {
        return Ok(cached);
    };
    let kept = push_now(device, cached, page, saved.at, saved.count, text)?;
    push_signed(text, b"+", saved.at, &saved.bytes[..saved.count])?;
    Ok(kept)
}

/// Adds the whole lines at the start of a window, each beside what the image has there. It takes no more lines where many bytes
/// are gathered.
fn push_lines<D: Device, A: Allocator>(
    device: &mut D,
    cached: Cached,
    page: &mut [u8],
    before: u64,
    window: &[u8],
    text: &mut Vec<u8, A>,
) -> Result<Taken, ShowFault>
    requires countable { D.failures device.old < u64.MAX }
    requires cache { IsCache (D.faithful device.old) (D.image device.old) page.old cached }
    requires room { 16 ≤ length page.old }
    ensures within { IfOk result (λ lines. lines.taken ≤ length window.now) }
    ensures added { D.faithful device.old → IfOk result (λ lines. AreAdded (diff_line (D.image device.old) before)
        window.now lines.taken text.old.items text.new.items) }
    ensures cache { IfOk result (λ lines. IsCache (D.faithful device.old) (D.image device.old) page.new lines.cached) }
    ensures room { length page.new ≡ length page.old }
    ensures puts { WritesFrom D.faithful D.image D.survives D.failures result device.old device.new }
    ensures read { IfErr result IsOfReading }
{
    let mut taken: usize = 0;
    let mut now = cached;
    let mut rest = window;
    while text.len() < GATHERED {
        let Some(i) = line_end(rest) else {
            return Ok(Taken { taken, cached: now });
        };
        now = push_beside(device, now, page, before, &rest[..i], text)?;
        let (_, behind) = rest.split_at(i + 1);
        rest = behind;
        taken += i + 1;
    }
    Ok(Taken { taken, cached: now })
}

/// Writes the whole lines of the window at a place, each beside what the image has there.
fn put_window<D: Device, T: TextStore, A: Allocator, W: Write>(
    device: &mut D,
    page: &mut [u8],
    store: &mut T,
    writing: &mut Writing<A>,
    now: Comparison,
    out: &mut W,
) -> Result<Compared, ShowFault>
    requires countable { D.failures device.old < u64.MAX }
    requires also_countable { T.failures store.old < u64.MAX }
    requires cache { IsCache (D.faithful device.old) (D.image device.old) page.old now.done.cached }
    requires room { 16 ≤ length page.old }
    requires within { T.faithful store.old → now.mark.to ≤ length (T.text store.old) }
    requires at { now.done.at ≤ now.mark.to }
    ensures put { D.faithful device.old → T.faithful store.old → IfOk result (λ next. AreWritten (diff_line (D.image device.old) now.mark.len)
        (T.text store.old) now.done.at next.at (W.contents out.old) (W.contents out.new)) }
    ensures counted { D.faithful device.old → T.faithful store.old → IfOk result (λ next. CountsBytes writing.old.written
        (shown_between (diff_line (D.image device.old) now.mark.len) (T.text store.old) now.done.at next.at) writing.new.written) }
    ensures stops { D.faithful device.old → T.faithful store.old → IfErr result (StopsPrefix writing.old.written
        (shown_between (diff_line (D.image device.old) now.mark.len) (T.text store.old) now.done.at now.mark.to)
        (W.contents out.old) (W.contents out.new)) }
    ensures on { IfOk result (HasGoneOn now.mark.to now.done) }
    ensures cache { IfOk result (λ next. IsCache (D.faithful device.old) (D.image device.old) page.new next.cached) }
    ensures room { length page.new ≡ length page.old }
    ensures puts { WritesBeside D.Device T.TextStore result device.old device.new store.old store.new }
{
    let window = writing.window.as_mut_slice();
    let cut = read_cut(store, window, now.done.at, now.mark.to)?;
    let (part, _) = window.split_at(cut.count);
    let text = &mut writing.gathered;
    text.clear();
    let lines = push_lines(device, now.done.cached, page, now.mark.len, part, text)?;
    if lines.taken == 0 {
        return Err(ShowFault::Text(SessionFault::NoMemory));
    }
    writing.written = put(out, writing.written, text.as_slice())?;
    Ok(Compared {
        at: now.done.at + passed(cut, lines.taken),
        cached: lines.cached,
    })
}

/// Writes the saved lines of an entry from a place on, a window at a time.
fn put_windows<D: Device, T: TextStore, A: Allocator, W: Write>(
    device: &mut D,
    page: &mut [u8],
    store: &mut T,
    writing: &mut Writing<A>,
    from: Comparison,
    out: &mut W,
) -> Result<(), ShowFault>
    requires countable { D.failures device.old < u64.MAX }
    requires also_countable { T.failures store.old < u64.MAX }
    requires cache { IsCache (D.faithful device.old) (D.image device.old) page.old from.done.cached }
    requires room { 16 ≤ length page.old }
    requires within { T.faithful store.old → from.mark.to ≤ length (T.text store.old) }
    requires at { from.done.at ≤ from.mark.to }
    ensures put { D.faithful device.old → T.faithful store.old → OnOk result (AreWritten (diff_line (D.image device.old) from.mark.len)
        (T.text store.old) from.done.at from.mark.to (W.contents out.old) (W.contents out.new)) }
    ensures counted { D.faithful device.old → T.faithful store.old → OnOk result (CountsBytes writing.old.written
        (shown_between (diff_line (D.image device.old) from.mark.len) (T.text store.old) from.done.at from.mark.to) writing.new.written) }
    ensures stops { D.faithful device.old → T.faithful store.old → IfErr result (StopsPrefix writing.old.written
        (shown_between (diff_line (D.image device.old) from.mark.len) (T.text store.old) from.done.at from.mark.to)
        (W.contents out.old) (W.contents out.new)) }
    ensures puts { WritesBeside D.Device T.TextStore result device.old device.new store.old store.new }
{
    let mut done = from.done;
    while done.at < from.mark.to {
        let now = Comparison {
            mark: from.mark,
            done,
        };
        done = put_window(device, page, store, writing, now, out)?;
    }
    Ok(())
}

/// Writes the saved lines of an entry, each behind a `+`, and before it a line of what the image has at its addresses, behind a
/// `-`.
///
/// A line of the image is in xxd's default form. It is shorter where the image ends within it, and left out where the image
/// ends before it.
///
/// # Errors
/// `NoMemory`, `DeviceFailed`, and `WriteFailed` with how many bytes were written.
pub fn put_differences<D: Device, T: TextStore, A: Allocator + Clone, W: Write>(
    device: &mut D,
    store: &mut T,
    writing: &mut Writing<A>,
    mark: Mark,
    out: &mut W,
) -> Result<(), ShowFault>
    requires countable { D.failures device.old < u64.MAX }
    requires also_countable { T.failures store.old < u64.MAX }
    requires within { T.faithful store.old → mark.to ≤ length (T.text store.old) }
    requires order { mark.from ≤ mark.to }
    ensures put { D.faithful device.old → T.faithful store.old → OnOk result (Appends (W.contents out.old) (W.contents out.new)
        (diff_text (D.image device.old) mark.len (split (lines_at (T.text store.old) mark)).lines)) }
    ensures counted { D.faithful device.old → T.faithful store.old → OnOk result (CountsBytes writing.old.written
        (diff_text (D.image device.old) mark.len (split (lines_at (T.text store.old) mark)).lines) writing.new.written) }
    ensures stops { D.faithful device.old → T.faithful store.old → IfErr result (StopsPrefix writing.old.written
        (diff_text (D.image device.old) mark.len (split (lines_at (T.text store.old) mark)).lines) (W.contents out.old) (W.contents out.new)) }
    ensures puts { WritesBeside D.Device T.TextStore result device.old device.new store.old store.new }
{
    let mut page = vec![in writing.alloc.clone()?; 0u8; PAGE]?;
    let len = device.len()?;
    let done = Compared {
        at: mark.from,
        cached: Cached {
            len,
            at: 0,
            count: 0,
        },
    };
    let from = Comparison { mark, done };
    put_windows(device, page.as_mut_slice(), store, writing, from, out)
}
