//! The saved lines of an entry that is marked, each made from the bytes that it gives: no byte of a line reaches the output as it
//! stands.
ghost use Rattle.std.specs.Prelude.{◌≡◌, ◌<◌, ◌≤◌, ◌++◌, length, OnOk, IfOk, IfErr};
ghost use Rattle.std.specs.Io.KnownBytes.{Appends};
ghost use Rattle.bx_journal_format.specs.Text.{split};
ghost use Rattle.bx_journal_read.specs.show.Differences.{made_line, made_text, shown_between, signed_line, AreAdded, AreWritten};
ghost use Rattle.bx_journal_read.specs.show.Showing.{WritesFrom, lines_at};
ghost use Rattle.bx_journal_read.specs.show.Stopping.{CountsBytes, StopsPrefix};

use crate::show::fault::ShowFault;
use crate::show::writing::{Writing, put};
use bx_journal_format::{Mark, line_end, row_of, saved_in};
use bx_journal_model::{SessionFault, passed, read_cut};
use bx_journal_store::TextStore;
use std::alloc::{AllocError, Allocator};
use std::io::Write;

/// The count of bytes up to which lines are gathered before they are written.
pub const GATHERED: usize = 1 << 20;

/// Adds xxd's default line for bytes at an address behind a sign; nothing where there are no bytes.
pub fn push_signed<A: Allocator>(
    text: &mut Vec<u8, A>,
    sign: &[u8],
    at: u64,
    bytes: &[u8],
) -> Result<(), AllocError>
    requires { length bytes.now ≤ 16 }
    ensures { OnOk result (text.new.items ≡ text.old.items ++ signed_line sign.now at bytes.now) }
{
    if bytes.is_empty() {
        return Ok(());
    }
    text.extend_from_slice(sign)?;
    text.extend_from_slice(row_of(at, bytes).as_bytes())?;
    Ok(())
}

/// Adds the line of the bytes that a saved line gives in an entry that begins with the length `before`. A line that gives none
/// adds nothing.
fn push_made<A: Allocator>(
    text: &mut Vec<u8, A>,
    before: u64,
    line: &[u8],
) -> Result<(), AllocError>
    ensures { OnOk result (text.new.items ≡ text.old.items ++ made_line before line.now) }
{
    match saved_in(before, line) {
        Some(saved) => push_signed(text, b"", saved.at, &saved.bytes[..saved.count]),
        None => Ok(()),
    }
}

/// Adds the whole lines at the start of a window, each made from its bytes, and answers how many bytes of the window they are.
/// It takes no more lines where many bytes are gathered.
fn push_lines<A: Allocator>(
    text: &mut Vec<u8, A>,
    before: u64,
    window: &[u8],
) -> Result<usize, AllocError>
    ensures within { IfOk result (λ taken. taken ≤ length window.now) }
    ensures added { IfOk result (λ taken. AreAdded (made_line before) window.now taken text.old.items text.new.items) }
{
    let mut taken: usize = 0;
    let mut rest = window;
    while text.len() < GATHERED {
        let Some(i) = line_end(rest) else {
            return Ok(taken);
        };
        push_made(text, before, &rest[..i])?;
        let (_, behind) = rest.split_at(i + 1);
        rest = behind;
        taken += i + 1;
    }
    Ok(taken)
}

/// Writes the whole lines of the window at a place, each made from its bytes, and answers the place behind them.
fn put_window<T: TextStore, A: Allocator, W: Write>(
    store: &mut T,
    writing: &mut Writing<A>,
    mark: Mark,
    at: u64,
    out: &mut W,
) -> Result<u64, ShowFault>
    requires countable { T.failures store.old < u64.MAX }
    requires within { T.faithful store.old → mark.to ≤ length (T.text store.old) }
    requires at { at ≤ mark.to }
    ensures put { T.faithful store.old → IfOk result (λ next. AreWritten (made_line mark.len)
        (T.text store.old) at next (W.contents out.old) (W.contents out.new)) }
    ensures counted { T.faithful store.old → IfOk result (λ next. CountsBytes writing.old.written
        (shown_between (made_line mark.len) (T.text store.old) at next) writing.new.written) }
    ensures stops { T.faithful store.old → IfErr result (StopsPrefix writing.old.written
        (shown_between (made_line mark.len) (T.text store.old) at mark.to) (W.contents out.old) (W.contents out.new)) }
    ensures on { IfOk result (λ next. (at < next) × (next ≤ mark.to)) }
    ensures puts { WritesFrom T.faithful T.text T.survives T.failures result store.old store.new }
{
    let window = writing.window.as_mut_slice();
    let cut = read_cut(store, window, at, mark.to)?;
    let (part, _) = window.split_at(cut.count);
    let text = &mut writing.gathered;
    text.clear();
    let taken = push_lines(text, mark.len, part)?;
    if taken == 0 {
        return Err(ShowFault::Text(SessionFault::NoMemory));
    }
    writing.written = put(out, writing.written, text.as_slice())?;
    Ok(at + passed(cut, taken))
}

/// Writes the saved lines of an entry, each made from the bytes that it gives.
///
/// # Errors
/// `NoMemory`, `DeviceFailed`, and `WriteFailed` with how many bytes were written.
pub fn put_lines<T: TextStore, A: Allocator, W: Write>(
    store: &mut T,
    writing: &mut Writing<A>,
    mark: Mark,
    out: &mut W,
) -> Result<(), ShowFault>
    requires countable { T.failures store.old < u64.MAX }
    requires within { T.faithful store.old → mark.to ≤ length (T.text store.old) }
    requires order { mark.from ≤ mark.to }
    ensures put { T.faithful store.old → OnOk result
        (Appends (W.contents out.old) (W.contents out.new) (made_text mark.len (split (lines_at (T.text store.old) mark)).lines)) }
    ensures counted { T.faithful store.old → OnOk result (CountsBytes writing.old.written
        (made_text mark.len (split (lines_at (T.text store.old) mark)).lines) writing.new.written) }
    ensures stops { T.faithful store.old → IfErr result (StopsPrefix writing.old.written
        (made_text mark.len (split (lines_at (T.text store.old) mark)).lines) (W.contents out.old) (W.contents out.new)) }
    ensures puts { WritesFrom T.faithful T.text T.survives T.failures result store.old store.new }
{
    let mut at = mark.from;
    while at < mark.to {
        at = put_window(store, writing, mark, at, out)?;
    }
    Ok(())
}
