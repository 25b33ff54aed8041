//! Between which lengths an undo or a redo of several changes leaves an image, by what the entries of a text tell.
ghost use Rattle.std.specs.Prelude.{◌≡◌, ◌∷◌, [], ◌<◌, ◌≤◌, List, ℕ, length, take, true, false, is_err, IfOk};
ghost use Rattle.bx_journal_format.specs.Text.{ended, split};
ghost use Rattle.bx_journal_model.specs.Looking.{OnlyReadsText};
ghost use Rattle.bx_journal_image.specs.Entry.{IsOlderBeginning};
ghost use Rattle.bx_journal_image.specs.Seal.{IsStepsSpan, Widens};

use crate::finding::entry::{FIRST, length_in};
use crate::sealing::seal::Span;
use bx_image::DeviceFailed;
use bx_journal_format::line_end;
use bx_journal_store::TextStore;

/// What the line begins with that begins an entry of the older form.
const OLDER: &[u8] = b"change ";

/// Whether a line begins an entry of the older form.
fn is_older(line: &[u8]) -> bool
    ensures yes { result ≡ true → IsOlderBeginning line.now }
    ensures no { result ≡ false → IsOlderBeginning line.now → ⊥ }
{
    if line.len() < OLDER.len() {
        return false;
    }
    let (word, _) = line.split_at(OLDER.len());
    word == OLDER
}

/// A span, and the length that a line with its newline tells, if it does.
fn with_told(span: Span, line: &[u8]) -> Span
    requires { IsOlderBeginning line.now → ⊥ }
    ensures { (bare : List ℕ) → line.now ≡ ended bare → Widens (bare ∷ []) span result }
{
    if line.len() != FIRST {
        return span;
    }
    match length_in(line) {
        Some(length) => span.with(length),
        None => span,
    }
}

/// The same, and any length where the line begins an entry of the older form.
fn with_line(span: Span, line: &[u8]) -> Span
    ensures { (bare : List ℕ) → line.now ≡ ended bare → Widens (bare ∷ []) span result }
{
    if is_older(line) {
        return Span::any();
    }
    with_told(span, line)
}

/// Widens a span by the whole lines of a text, and says how many bytes these lines have.
fn widen(span: &mut Span, text: &[u8]) -> usize
    ensures widened { Widens (split text.now).lines span.old span.new }
    ensures within { result ≤ length text.now }
    ensures lines { (split (take result text.now)).lines ≡ (split text.now).lines }
    ensures whole { (split (take result text.now)).rest ≡ [] }
{
    let mut rest = text;
    let mut taken = 0;
    while let Some(i) = line_end(rest) {
        let (line, behind) = rest.split_at(i + 1);
        *span = with_line(*span, line);
        taken += i + 1;
        rest = behind;
    }
    taken
}

/// The span that `steps_span` says, by a text of `len` bytes, which is read a window at a time.
fn span_to<T: TextStore>(
    store: &mut T,
    window: &mut [u8],
    total: u64,
    len: u64,
) -> Result<Span, DeviceFailed>
    requires countable { T.failures store.old < u64.MAX }
    requires long { T.faithful store.old → len ≡ length (T.text store.old) }
    requires room { length window.old ≡ 65536 }
    ensures span { T.faithful store.old → IfOk result (IsStepsSpan total (T.text store.old)) }
    ensures reads { OnlyReadsText T.TextStore (is_err result) store.old store.new }
{
    let mut span = Span::between(total, total);
    let mut at = 0;
    while at < len {
        let size = (window.len() as u64).min(len - at) as usize;
        let (now, _) = window.split_at_mut(size);
        store.read_at(at, now)?;
        let taken = widen(&mut span, now);
        if taken == 0 {
            return Ok(Span::any());
        }
        at += taken as u64;
    }
    Ok(span)
}

/// Between which lengths an undo or a redo by the entries of a text leaves an image of `total` bytes, wherever it is stopped: the least and
/// the greatest of those that the entries restore, and of its own one. It is any length where an entry of the older form begins, or where
/// a line is longer than the window.
pub(crate) fn steps_span<T: TextStore>(
    store: &mut T,
    window: &mut [u8],
    total: u64,
) -> Result<Span, DeviceFailed>
    requires countable { T.failures store.old < u64.MAX }
    requires room { length window.old ≡ 65536 }
    ensures span { T.faithful store.old → IfOk result (IsStepsSpan total (T.text store.old)) }
    ensures reads { OnlyReadsText T.TextStore (is_err result) store.old store.new }
{
    let len = store.len()?;
    let span = span_to(store, window, total, len)?;
    Ok(span)
}
