//! Recovery, which opening begins with: what image, journal and redo text hold, and how an unfinished entry is discarded or rolled back.
ghost use Rattle.std.specs.Prelude.{◌+◌, ◌≤◌, IfOk};
ghost use Rattle.bx_journal_model.specs.ThreeDevices.{AreBelow};
ghost use Rattle.bx_journal.specs.Opened.{CountsStack, FindsNothingNew, Opens, SettlesRecovered, SurvivesOpening};
ghost use Rattle.bx_journal.specs.private.Recovering.{AnswersAsRead, CallsCount, JudgesJournal, LeavesRead, RefusesRedoText, SetsRedo, SparesAll};

mod finished;
mod length;
mod redo;
mod unfinished;

use crate::recovery::finished::open_finished;
use crate::recovery::unfinished::recover_read;
use bx_image::Device;
use bx_journal_model::{Devices, Recovered, RecoveryOutcome, SessionFault};
use bx_journal_read::{Found, read_text};
use bx_journal_store::TextStore;
use std::alloc::Allocator;

/// Reads the journal. Beside finished entries alone the redo text is judged; anything else is taken back.
pub fn recover<D: Device, T: TextStore, A: Allocator + Clone>(
    alloc: &A,
    devices: &mut Devices<D, T>,
) -> Result<Recovered, SessionFault>
    requires countable { AreBelow D.Device T.TextStore u64.MAX devices.old }
    ensures opened { Opens D.Device T.TextStore devices.old devices.new result }
    ensures left { LeavesRead T.TextStore devices.old.journal devices.new.journal result }
    ensures text { JudgesJournal D.Device T.TextStore devices.old result }
    ensures fault { AnswersAsRead D.Device T.TextStore devices.old result }
    ensures counted { CountsStack D.Device T.TextStore devices.old result }
    ensures sum { IfOk result (λ o. o.changes + o.undone ≤ 65535) }
    ensures spares { SparesAll D.Device T.TextStore devices.old devices.new result }
    ensures redo { SetsRedo D.Device T.TextStore devices.old devices.new result }
    ensures redo_fault { RefusesRedoText D.Device T.TextStore devices.old result }
    ensures survives { SurvivesOpening D.Device T.TextStore devices.old devices.new result }
    ensures settled { SettlesRecovered D.Device T.TextStore devices.old devices.new result }
    ensures found_before { FindsNothingNew D.Device T.TextStore devices.old devices.new result }
    ensures calls { CallsCount D.Device T.TextStore devices.old devices.new result }
{
    let found = match read_text(alloc, &mut devices.journal) {
        Ok(found) => found,
        Err(fault) => return Err(fault),
    };
    match found {
        Found::Finished(counted) => open_finished(
            alloc,
            &mut devices.image,
            &mut devices.redo,
            counted,
        ),
        // Nothing of the redo text is read: a bad one doesn't hinder recovery, which empties it.
        Found::Unfinished(torn) => recover_read(alloc, devices, torn),
    }
}
