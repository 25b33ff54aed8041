//! What steps would make of an image: changes, read from the entries of a text.
ghost use Rattle.std.specs.Prelude.{◌≡◌, ◌++◌, ◌∷◌, ◌<◌, ◌≤◌, List, [], ℕ, drop, length, IfErr, IfOk, true};
ghost use Rattle.bx_image.specs.declared.change.TheConstants.{MAX_LEN};
ghost use Rattle.bx_patch.specs.preview.Changed.{effects};
ghost use Rattle.bx_journal_format.specs.Parsed.{AllKept, entries_onto};
ghost use Rattle.bx_journal.specs.Images.{Images};
ghost use Rattle.bx_journal.specs.Machine.{top};
ghost use Rattle.bx_journal.specs.Stack.{StandsFor, stack_of};
ghost use Rattle.bx_journal.specs.Text.{Entry};
ghost use Rattle.bx_journal.specs.ThreeDevices.{AreBelow};
ghost use Rattle.bx_journal.specs.Undoing.{HasCount};
ghost use Rattle.bx_run_report.specs.report.Devices.{HoldBytes, IsDeviceStop, failed_reads};
ghost use Rattle.bx_run_report.specs.report.Looks.{is_look_failed};
ghost use Rattle.bx_run_report.specs.report.Stepped.{HoldImages, behind_steps, steps_in};

use crate::report::error::ReportError;
use bx_cli_commands::Fault;
use bx_image::{Change, Device};
use bx_journal::{Devices, Direction};
use bx_journal_format::EntryRead;
use bx_journal_read::read_last_of;
use bx_journal_store::TextStore;
use bx_text::IoFault;
use std::alloc::{AllocError, Global};

/// Takes the last entry off.
fn take_last(entries: &mut Vec<EntryRead>) -> EntryRead
    requires { 0 < length entries.old.items }
    ensures { entries.old.items ≡ entries.new.items ++ result ∷ [] }
{
    entries.pop().unwrap()
}

/// The changes that restore the last k entries, the newest first.
fn restoring(alloc: Global, entries: Vec<EntryRead>, k: u32) -> Result<Vec<Change>, AllocError>
    requires few { k ≤ length entries.items }
    requires kept { AllKept MAX_LEN entries.items }
    ensures { (older : List Entry) (x : List ℕ)
        → IfOk result (λ cs. effects cs.items x ≡ top (drop k (stack_of (entries_onto older entries.items) x))) }
{
    let mut entries = entries;
    let mut changes = Vec::new(alloc);
    for i in 0..k {
        let entry = take_last(&mut entries);
        changes.push(entry.kept.into_change())?;
    }
    Ok(changes)
}

/// The changes that restore the last k of a text's entries, of `count` in all, the newest first.
fn read_changes<T: TextStore>(
    alloc: Global,
    text: &mut T,
    count: u32,
    k: u32,
) -> Result<Vec<Change>, ReportError>
    requires countable { T.failures text.old < u64.MAX }
    requires few { k ≤ count }
    ensures makes { T.faithful text.old → (x : List ℕ) (stack : List (List ℕ)) → StandsFor (T.text text.old) x stack
        → IfOk result (λ cs. effects cs.items x ≡ top (drop k stack)) }
    ensures fails { T.faithful text.old → HasCount (T.text text.old) count → IfErr result IsDeviceStop }
    ensures failed { is_look_failed result ≡ true → 0 < T.failures text.new }
{
    let read = match read_last_of(&alloc, text, count, k) {
        Ok(read) => read,
        Err(fault) => return Err(ReportError::Stopped(Fault::Session(fault))),
    };
    match restoring(alloc, read.entries, k) {
        Ok(changes) => Ok(changes),
        Err(_) => Err(ReportError::Stopped(Fault::Io(IoFault::NoMemory))),
    }
}

/// The changes that k steps would make, where there are `have` of them.
pub fn read_steps<D: Device, T: TextStore>(
    alloc: Global,
    devices: &mut Devices<D, T>,
    way: Direction,
    have: u32,
    k: u32,
) -> Result<Vec<Change>, ReportError>
    requires countable { AreBelow D.Device T.TextStore u64.MAX devices.old }
    requires few { k ≤ have }
    ensures image { devices.new.image ≡ devices.old.image }
    ensures makes { (x text redo : List ℕ) (s : Images) → HoldBytes D.Device T.TextStore x text redo devices.old → HoldImages x text redo s
        → have ≡ steps_in way s → IfOk result (λ cs. effects cs.items x ≡ top (behind_steps way k s).stack) }
    ensures fails { (x text redo : List ℕ) (s : Images) → HoldBytes D.Device T.TextStore x text redo devices.old → HoldImages x text redo s
        → have ≡ steps_in way s → IfErr result IsDeviceStop }
    ensures failed { is_look_failed result ≡ true → 0 < failed_reads D.Device T.TextStore devices.new }
{
    match way {
        Direction::Undo => read_changes(alloc, &mut devices.journal, have, k),
        Direction::Redo => read_changes(alloc, &mut devices.redo, have, k),
    }
}
