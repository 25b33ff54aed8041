//! The newlines of a text, counted: a window at a time, however long the text is.
ghost use Rattle.std.specs.Prelude.{◌≡◌, ◌<◌, ◌≤◌, suc, length, take, is_err, IfOk};
ghost use Rattle.bx_journal_format.specs.Text.{split};
ghost use Rattle.bx_journal_model.specs.Looking.{LooksThrough, OnlyReadsText};

use bx_image::DeviceFailed;
use bx_journal_model::{SessionFault, WINDOW};
use bx_journal_store::TextStore;
use std::alloc::Allocator;

/// How many newlines a text has.
pub fn newlines(text: &[u8]) -> u64
    ensures lines { result ≡ length (split text.now).lines }
    ensures most { result ≤ length text.now }
{
    let mut count: u64 = 0;
    for byte in text {
        if *byte == b'\n' {
            count += 1;
        }
    }
    count
}

/// How many newlines a text's first `len` bytes have, a window at a time.
pub fn newlines_to<T: TextStore>(
    store: &mut T,
    window: &mut [u8],
    len: u64,
) -> Result<u64, DeviceFailed>
    requires countable { T.failures store.old < u64.MAX }
    requires within { T.faithful store.old → len ≤ length (T.text store.old) }
    requires some { 0 < length window.old }
    ensures lines { T.faithful store.old → IfOk result (λ n. n ≡ length (split (take len (T.text store.old))).lines) }
    ensures most { IfOk result (λ n. n ≤ len) }
    ensures window { length window.new ≡ length window.old }
    ensures reads { OnlyReadsText T.TextStore (is_err result) store.old store.new }
{
    let mut at = 0;
    let mut count: u64 = 0;
    while at < len {
        let size = (len - at).min(window.len() as u64) as usize;
        let (part, _) = window.split_at_mut(size);
        store.read_at(at, part)?;
        count += newlines(part);
        at += size as u64;
    }
    Ok(count)
}

/// How many newlines stand before a place of a text.
fn newlines_before<T: TextStore, A: Allocator + Clone>(
    alloc: &A,
    store: &mut T,
    at: u64,
) -> Result<u64, SessionFault>
    requires { T.failures store.old < u64.MAX }
    ensures lines { T.faithful store.old → at ≤ length (T.text store.old) → IfOk result (λ n. n ≡ length (split (take at (T.text store.old))).lines) }
    ensures reads { LooksThrough T.TextStore result store.old store.new }
{
    let len = store.len()?;
    let mut window = vec![in alloc.clone()?; 0u8; WINDOW as usize]?;
    let count = match newlines_to(store, window.as_mut_slice(), at.min(len)) {
        Ok(count) => count,
        Err(_) => return Err(SessionFault::DeviceFailed),
    };
    Ok(count)
}

/// The number, from 1, of the line that begins at a place of a text, in as much memory for any length. It changes nothing. One that has no number
/// here, behind 2^64 - 1 newlines, is answered as want of memory.
pub fn line_from<T: TextStore, A: Allocator + Clone>(
    alloc: &A,
    store: &mut T,
    begins: u64,
) -> Result<u64, SessionFault>
    requires { T.failures store.old < u64.MAX }
    ensures line { T.faithful store.old → begins ≤ length (T.text store.old)
        → IfOk result (λ n. n ≡ suc (length (split (take begins (T.text store.old))).lines)) }
    ensures reads { LooksThrough T.TextStore result store.old store.new }
{
    let before = match newlines_before(alloc, store, begins) {
        Ok(before) => before,
        Err(fault) => return Err(fault),
    };
    if before == u64::MAX {
        return Err(SessionFault::NoMemory);
    }
    Ok(before + 1)
}
