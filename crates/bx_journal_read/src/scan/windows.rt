//! A text that is read in windows: one window is in memory at a time, however long the text is.
ghost use Rattle.std.specs.Prelude.{◌≡◌, ◌+◌, ◌<◌, ◌≤◌, ◌++◌, ◌^◌, ℕ, List, [], length, take, is_err, IfOk, IfSome};
ghost use Rattle.bx_journal_format.specs.Text.{ended, split};
ghost use Rattle.bx_journal_format.specs.read.Plain.{HasNoNewline};
ghost use Rattle.bx_journal_model.specs.Looking.{OnlyReadsText};
ghost use Rattle.bx_journal_read.specs.scan.Windows.{IfReached, IsLedTo, IsReached, TakesLong};

use bx_image::DeviceFailed;
use bx_journal_format::SURELY_LONG;
use bx_journal_model::long_line;
use bx_journal_store::TextStore;
use bx_text::NoMemory;

/// What the whole lines at the start of a window lead to, and how many bytes they have.
#[derive(Drop)]
pub struct Taken<S> {
    pub scan: S,
    pub taken: usize,
}

/// What the text up to a place leads to.
#[derive(Drop)]
pub struct Reached<S> {
    pub scan: S,
    pub at: u64,
}

/// What goes along the lines of a text, and keeps what they lead to.
pub trait Scan: Drop {
    /// A text of whole lines leads from the first state to another.
    ghost Leads: { Self → Self → List ℕ → Type 0 };

    /// Whether no more lines are wanted.
    fn is_done(&self) -> bool {
        false
    }

    /// Takes the whole lines at the start of a window, with which a text of `at` bytes goes on; `left` bytes of text are behind the window. It
    /// answers none where a line is out of place. The window's bytes may be other ones afterwards.
    fn take_lines(
        self,
        at: u64,
        left: u64,
        window: &mut [u8],
    ) -> Result<Option<Taken<Self>>, NoMemory>
        requires countable { at + length window.old + left < 2 ^ 64 }
        requires led { (first : Self) × (text : List ℕ) × (length text ≡ at) × Leads first self text }
        ensures leads { (first : Self) (text : List ℕ) → length text ≡ at → Leads first self text
            → IfOk result (λ found. IfSome found (λ t. Leads first t.scan (text ++ take t.taken window.old))) }
        ensures within { IfOk result (λ found. IfSome found (λ t. t.taken ≤ length window.old)) };

    /// Takes a line of `size` bytes, with which a text of `at` bytes goes on: only its first bytes are here. It takes all of them, or
    /// none where it stops before a line that is out of place; else it answers none there.
    fn take_long(self, at: u64, size: u64, line: &[u8]) -> Result<Option<Taken<Self>>, NoMemory>
        requires countable { at + size + 1 < 2 ^ 64 }
        requires enough { 1024 ≤ length line.now }
        requires led { (first : Self) × (text : List ℕ) × (length text ≡ at) × Leads first self text }
        ensures leads { (first : Self) (text more : List ℕ) → length text ≡ at → Leads first self text → HasNoNewline (line.now ++ more)
            → size ≡ length line.now + length more
            → IfOk result (λ found. IfSome found (TakesLong (Leads first) text (ended (line.now ++ more)))) };

    /// Such a text ends with a line's end.
    ghost whole: { (first now : Self) (text : List ℕ) → Leads first now text → (split text).rest ≡ [] };
}

/// Takes the whole lines of the window at a place of a text's first `len` bytes.
fn take_some<T: TextStore, S: Scan>(
    store: &mut T,
    window: &mut [u8],
    scan: S,
    at: u64,
    len: u64,
) -> Result<Result<Option<Reached<S>>, NoMemory>, DeviceFailed>
    requires countable { T.failures store.old < u64.MAX }
    requires within { T.faithful store.old → len ≤ length (T.text store.old) }
    requires below { at ≤ len }
    requires led { (first : S) × IsLedTo (T.faithful store.old) (T.text store.old) (S.Leads first) at scan }
    ensures reached { (first : S) → IsLedTo (T.faithful store.old) (T.text store.old) (S.Leads first) at scan
        → IfReached result (IsReached (T.faithful store.old) (T.text store.old) (S.Leads first) len) }
    ensures forth { IfReached result (λ next. at ≤ next.at) }
    ensures window { length window.new ≡ length window.old }
    ensures reads { OnlyReadsText T.TextStore (is_err result) store.old store.new }
{
    let size = (window.len() as u64).min(len - at) as usize;
    let (now, _) = window.split_at_mut(size);
    store.read_at(at, now)?;
    let found = match scan.take_lines(at, len - at - size as u64, now) {
        Ok(found) => found,
        Err(fault) => return Ok(Err(fault)),
    };
    let Some(next) = found else {
        return Ok(Ok(None));
    };
    Ok(Ok(Some(Reached {
        scan: next.scan,
        at: at + next.taken as u64,
    })))
}

/// Takes the line at a place of a text's first `len` bytes by its first bytes, where it ends there and these say what it is.
fn take_first<T: TextStore, S: Scan>(
    store: &mut T,
    window: &mut [u8],
    scan: S,
    at: u64,
    len: u64,
) -> Result<Result<Option<Reached<S>>, NoMemory>, DeviceFailed>
    requires countable { T.failures store.old < u64.MAX }
    requires within { T.faithful store.old → len ≤ length (T.text store.old) }
    requires below { at ≤ len }
    requires room { 1024 ≤ length window.old }
    requires led { (first : S) × IsLedTo (T.faithful store.old) (T.text store.old) (S.Leads first) at scan }
    ensures reached { (first : S) → IsLedTo (T.faithful store.old) (T.text store.old) (S.Leads first) at scan
        → IfReached result (IsReached (T.faithful store.old) (T.text store.old) (S.Leads first) len) }
    ensures forth { IfReached result (λ next. at ≤ next.at) }
    ensures window { length window.new ≡ length window.old }
    ensures reads { OnlyReadsText T.TextStore (is_err result) store.old store.new }
{
    let found = long_line(store, window, at, len)?;
    let Some(size) = found else {
        return Ok(Ok(Some(Reached { scan, at })));
    };
    let (line, _) = window.split_at(SURELY_LONG);
    let taken = match scan.take_long(at, size, line) {
        Ok(taken) => taken,
        Err(fault) => return Ok(Err(fault)),
    };
    let Some(next) = taken else {
        return Ok(Ok(None));
    };
    if next.taken == 0 {
        return Ok(Ok(Some(Reached {
            scan: next.scan,
            at,
        })));
    }
    Ok(Ok(Some(Reached {
        scan: next.scan,
        at: at + size + 1,
    })))
}

/// Takes the whole lines of the window at a place of a text's first `len` bytes, or one that is longer than the window.
fn take_step<T: TextStore, S: Scan>(
    store: &mut T,
    window: &mut [u8],
    scan: S,
    at: u64,
    len: u64,
) -> Result<Result<Option<Reached<S>>, NoMemory>, DeviceFailed>
    requires countable { T.failures store.old < u64.MAX }
    requires within { T.faithful store.old → len ≤ length (T.text store.old) }
    requires below { at ≤ len }
    requires led { (first : S) × IsLedTo (T.faithful store.old) (T.text store.old) (S.Leads first) at scan }
    ensures reached { (first : S) → IsLedTo (T.faithful store.old) (T.text store.old) (S.Leads first) at scan
        → IfReached result (IsReached (T.faithful store.old) (T.text store.old) (S.Leads first) len) }
    ensures forth { IfReached result (λ next. at ≤ next.at) }
    ensures window { length window.new ≡ length window.old }
    ensures reads { OnlyReadsText T.TextStore (is_err result) store.old store.new }
{
    let step = take_some(store, window, scan, at, len)?;
    let found = match step {
        Ok(found) => found,
        Err(fault) => return Ok(Err(fault)),
    };
    let Some(next) = found else {
        return Ok(Ok(None));
    };
    if next.at > at {
        return Ok(Ok(Some(next)));
    }
    if window.len() < SURELY_LONG {
        return Ok(Ok(Some(next)));
    }
    take_first(store, window, next.scan, at, len)
}

/// Goes along the whole lines of a text's first `len` bytes from a place on, a window at a time: up to the end, to a line that has none, or to
/// where no more are wanted. What is left of a window's last line is read again with the next one; a line that is longer than the window is taken by
/// its first bytes. It answers none where a line is out of place.
pub fn scan_windows<T: TextStore, S: Scan>(
    store: &mut T,
    window: &mut [u8],
    scan: S,
    from: u64,
    len: u64,
) -> Result<Result<Option<Reached<S>>, NoMemory>, DeviceFailed>
    requires countable { T.failures store.old < u64.MAX }
    requires within { T.faithful store.old → len ≤ length (T.text store.old) }
    requires below { from ≤ len }
    requires led { IsLedTo (T.faithful store.old) (T.text store.old) (S.Leads scan) from scan }
    ensures reached { IfReached result (IsReached (T.faithful store.old) (T.text store.old) (S.Leads scan) len) }
    ensures window { length window.new ≡ length window.old }
    ensures reads { OnlyReadsText T.TextStore (is_err result) store.old store.new }
{
    let mut scan = scan;
    let mut at = from;
    let mut ends = true;
    while ends && at < len && !scan.is_done() {
        let step = take_step(store, window, scan, at, len)?;
        let found = match step {
            Ok(found) => found,
            Err(fault) => return Ok(Err(fault)),
        };
        let Some(next) = found else {
            return Ok(Ok(None));
        };
        ends = next.at > at;
        at = next.at;
        scan = next.scan;
    }
    Ok(Ok(Some(Reached { scan, at })))
}

/// Goes along the whole lines of a text's first `len` bytes from the start, as `scan_windows` does. It answers none also where memory is
/// refused.
pub fn scan_start<T: TextStore, S: Scan>(
    store: &mut T,
    window: &mut [u8],
    scan: S,
    len: u64,
) -> Result<Option<Reached<S>>, DeviceFailed>
    requires countable { T.failures store.old < u64.MAX }
    requires within { T.faithful store.old → len ≤ length (T.text store.old) }
    requires led { IsLedTo (T.faithful store.old) (T.text store.old) (S.Leads scan) 0 scan }
    ensures reached { IfOk result (λ found. IfSome found (IsReached (T.faithful store.old) (T.text store.old) (S.Leads scan) len)) }
    ensures window { length window.new ≡ length window.old }
    ensures reads { OnlyReadsText T.TextStore (is_err result) store.old store.new }
{
    let scanned = scan_windows(store, window, scan, 0, len)?;
    let Ok(found) = scanned else {
        return Ok(None);
    };
    Ok(found)
}
