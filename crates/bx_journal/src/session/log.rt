//! The rows of a log: a row for each change.
ghost use Rattle.std.specs.Prelude.{◌≡◌, ◌+◌, ◌<◌, ◌≤◌, ◌^◌, List, ℕ, length, All, IfOk, IfErr, OnOk};
ghost use Rattle.bx_journal_model.specs.Calls.{rows_of};
ghost use Rattle.bx_journal_format.specs.Parsed.{entries_of};
ghost use Rattle.bx_journal_format.specs.Kept.{kept_of};
ghost use Rattle.bx_journal_format.specs.count.Rows.{saved_length};
ghost use Rattle.bx_journal_format.specs.Text.{Entry};
ghost use Rattle.bx_journal_model.specs.Undoing.{AgainFault, HasCount};
ghost use Rattle.bx_journal_format.specs.Finished.{IsFinished};

mod windows;

use crate::Session;
use crate::session::log::windows::rows_in_windows;
use bx_image::{Device, Saved};
use bx_journal_format::EntryRead;
use bx_journal_model::{LogRow, SessionFault};
use bx_journal_read::read_again;
use bx_journal_store::TextStore;
use bx_text::NoMemory;
use std::alloc::Allocator;

/// How many bytes the saved lines of an entry have.
fn saved_bytes<A: Allocator>(kept: &Saved<A>) -> u64
    requires { saved_length (kept_of kept.now) < 2 ^ 64 }
    ensures { result ≡ saved_length (kept_of kept.now) }
{
    let mut total: u64 = 0;
    for run in kept.runs.as_slice() {
        total += run.bytes.as_slice().len() as u64;
    }
    total
}

/// One row for each entry, the oldest first.
fn rows<A: Allocator + Clone>(
    alloc: &A,
    entries: &[EntryRead<A>],
) -> Result<Vec<LogRow, A>, NoMemory>
    requires few { length entries.now ≤ 65535 }
    requires countable { All (λ e. saved_length (kept_of e.kept) < 2 ^ 64) entries.now }
    ensures { IfOk result (λ rows. rows.items ≡ rows_of (entries_of entries.now)) }
{
    let mut rows = Vec::new(alloc.clone().map_err(|_| NoMemory)?);
    for i in 0..entries.len() {
        let entry = &entries[i];
        let row = LogRow {
            number: i as u32 + 1,
            old_len: entry.kept.len,
            saved: saved_bytes(&entry.kept),
        };
        if rows.push(row).is_err() {
            return Err(NoMemory);
        }
    }
    Ok(rows)
}

ghost use Rattle.bx_journal.specs.private.Rows.{FindsRows};

/// The rows of a text that is to be `count` finished entries alone, and is read whole.
fn rows_of_whole<T: TextStore, A: Allocator + Clone>(
    alloc: &A,
    journal: &mut T,
    count: u32,
) -> Result<Vec<LogRow, A>, SessionFault>
    requires { T.failures journal.old < u64.MAX }
    ensures { FindsRows T.TextStore count result journal.old journal.new }
{
    let read = match read_again(alloc, journal, count) {
        Ok(read) => read,
        Err(fault) => return Err(fault),
    };
    Ok(rows(alloc, &read.entries)?)
}

/// The rows of a text that is to be `count` finished entries alone. It changes nothing. The text is read in windows, and
/// only one that can't be read so is read whole.
fn rows_of_text<T: TextStore, A: Allocator + Clone>(
    alloc: &A,
    journal: &mut T,
    count: u32,
) -> Result<Vec<LogRow, A>, SessionFault>
    requires { T.failures journal.old < u64.MAX }
    ensures { FindsRows T.TextStore count result journal.old journal.new }
{
    let found = match rows_in_windows(alloc, journal, count) {
        Ok(found) => found,
        Err(fault) => return Err(fault),
    };
    match found {
        Some(rows) => Ok(rows),
        None => rows_of_whole(alloc, journal, count),
    }
}

impl<D: Device, T: TextStore, A: Allocator + Clone> Session<D, T, A> {
    ghost use Rattle.bx_journal_model.specs.Power.{NothingNew};
    ghost use Rattle.bx_journal_model.specs.Session.{FailsSafely};

    /// One row for each change, the oldest first. It reads the journal's text again, and changes nothing.
    pub fn log(&mut self) -> Result<Vec<LogRow, A>, SessionFault>
        requires { T.failures self.old.journal < u64.MAX }
        ensures rows { T.faithful self.old.journal → (es : List Entry) → IsFinished (T.text self.old.journal) es → IfOk result (λ rows. rows.items ≡ rows_of es) }

        // Nothing is changed, and nothing more is to be found after a loss of power. A broken session isn't even read.
        ensures safe { FailsSafely D.Device T.TextStore self.old self.new result }
        ensures found_before { NothingNew D.Device T.TextStore self.old self.new }
        ensures text { T.faithful self.old.journal → T.text self.new.journal ≡ T.text self.old.journal }
        ensures image { self.new.image ≡ self.old.image }
        ensures redo { self.new.redo ≡ self.old.redo }
        ensures count { self.new.count ≡ self.old.count }
        ensures undone { self.new.undone ≡ self.old.undone }
        ensures is_broken { self.new.is_broken ≡ self.old.is_broken }
        ensures fault { IfErr result (λ e. (e ≡ SessionFault.Broken → ⊥) → AgainFault (T.faithful self.old.journal) (T.text self.old.journal) self.old.count e) }

        // The text is called damaged exactly where it isn't `count` finished entries alone.
        ensures undamaged { T.faithful self.old.journal → HasCount (T.text self.old.journal) self.old.count
            → IfErr result (λ e. (n : ℕ) → e ≡ SessionFault.Damaged n → ⊥) }
        ensures whole { T.faithful self.old.journal → OnOk result (HasCount (T.text self.old.journal) self.old.count) }
    {
        if self.is_broken {
            return Err(SessionFault::Broken);
        }
        let rows = rows_of_text(&self.alloc, &mut self.devices.journal, self.count)?;
        Ok(rows)
    }
}
