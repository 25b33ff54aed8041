//! A task on three devices, which are opened as a session and handed back.
ghost use Rattle.std.specs.Prelude.{◌≡◌, ◌<◌, Some, IfSome, true};
ghost use Rattle.bx_journal_format.specs.Shown.{shown};
ghost use Rattle.bx_journal_format.specs.Text.{IsAccepted};
ghost use Rattle.bx_journal.specs.Images.{Images};
ghost use Rattle.bx_journal.specs.Power.{FoundBefore};
ghost use Rattle.bx_journal.specs.Session.{HasUndone, IsReady};
ghost use Rattle.bx_journal.specs.SessionView.{devices_of};
ghost use Rattle.bx_cli_commands.specs.Refusal.{IsWholeRefusal};
ghost use Rattle.bx_cli_commands.specs.Replies.{stands_by};
ghost use Rattle.bx_cli_commands.specs.Run.{Unfailed, is_failure};
ghost use Rattle.bx_cli_commands.specs.Standing.{Shows, Standing};
ghost use Rattle.bx_run_session.specs.session.Contents.{AreFresh, AreFaithful, AreInPlace, Does, DoesFound, FoundIn, Holds, StayFaithful, Spared, SparesDisk, StandsIn, StepsRead, StepsTo, Survives, SurvivesFound, TellsUnfinished, held_by};
ghost use Rattle.bx_run_session.specs.session.Guarded.{AreFew, failed_by};
ghost use Rattle.bx_run_session.specs.session.Task.{IsNearTask, TaskStep};

use crate::session::task::{Task, do_task};
use bx_cli_commands::{Fault, Reply};
use bx_image::Device;
use bx_journal::{Devices, RecoveryOutcome, Session};
use bx_journal_store::TextStore;
use std::alloc::Global;
use std::io::Read;

/// Three devices behind a task, and the reply to it.
pub struct Closed<D: Device, T: TextStore> {
    /// The image, its journal and its redo text.
    pub devices: Devices<D, T>,
    /// The reply.
    pub reply: Reply,
    /// What opening found unfinished; none where it was refused.
    pub how: Option<RecoveryOutcome>,
}

/// Does a task on a session, and closes it.
fn run_and_close<D: Device, T: TextStore, R: Read + Drop>(
    alloc: Global,
    mut session: Session<D, T>,
    how: RecoveryOutcome,
    task: Task<R>,
) -> Closed<D, T>
    requires near { IsNearTask task }
    requires fresh { AreFresh D.Device T.TextStore (devices_of session) }
    ensures order { AreInPlace D.Device T.TextStore result.devices }
    ensures few { AreFew D.Device T.TextStore result.devices }
    ensures failed { is_failure result.reply ≡ true → 0 < failed_by D.Device T.TextStore result.devices }
    ensures faith { StayFaithful D.Device T.TextStore (devices_of session) result.devices }
    ensures how { result.how ≡ Some how }
    ensures does { AreFaithful D.Device T.TextStore (devices_of session) → (s : Images)
        → IsReady D.image T.text session s.stack → HasUndone D.image T.text session s.undone
        → StepsTo R.remaining s task result.reply (held_by D.Device T.TextStore result.devices) }
    ensures whole { AreFaithful D.Device T.TextStore (devices_of session) → IsWholeRefusal result.reply
        → held_by D.Device T.TextStore result.devices ≡ held_by D.Device T.TextStore (devices_of session) }
    ensures survives { AreFaithful D.Device T.TextStore (devices_of session) → (s : Images)
        → IsReady D.image T.text session s.stack → HasUndone D.image T.text session s.undone → (IsWholeRefusal result.reply → ⊥)
        → Survives R.remaining s task result.reply
        (D.survives result.devices.image) (T.survives result.devices.journal) (T.survives result.devices.redo) }
    ensures stands { AreFaithful D.Device T.TextStore (devices_of session) → Unfailed result.reply → (s : Images) → Shows D.image T.text session s
        → (next : Images) × TaskStep R.remaining (Standing.Up s) task result.reply (Standing.Up next)
        × StandsIn (held_by D.Device T.TextStore result.devices) next }
    ensures before { IsWholeRefusal result.reply → FoundBefore D.Device T.TextStore (devices_of session) result.devices }
{
    let reply = do_task(alloc, &mut session, task);
    let (image, journal, redo) = session.close();
    Closed {
        devices: Devices {
            image,
            journal,
            redo,
        },
        reply,
        how: Some(how),
    }
}

/// Opens three devices as a session, does a task, and hands them back. The journal's failures count from 0 and those of the
/// redo text from 2^32, so that none is handed back in the other's place.
pub fn open_and_run<D: Device, T: TextStore, R: Read + Drop>(
    alloc: Global,
    devices: Devices<D, T>,
    task: Task<R>,
) -> Closed<D, T>
    requires near { IsNearTask task }
    requires fresh { AreFresh D.Device T.TextStore devices }
    ensures order { AreInPlace D.Device T.TextStore result.devices }
    ensures few { AreFew D.Device T.TextStore result.devices }
    ensures faith { StayFaithful D.Device T.TextStore devices result.devices }

    // The fault of a device is answered only where a call of one failed.
    ensures failed { is_failure result.reply ≡ true → 0 < failed_by D.Device T.TextStore result.devices }

    // Only a journal that is accepted is opened.
    ensures accepted { AreFaithful D.Device T.TextStore devices
        → IfSome result.how (λ _. IsAccepted (shown (T.text devices.journal))) }

    // What was unfinished is said. On devices that hold images nothing was, and the task makes the machine's step, unless its opening
    // was refused.
    ensures how { AreFaithful D.Device T.TextStore devices → TellsUnfinished (held_by D.Device T.TextStore devices) result.how (stands_by result.reply) }
    ensures does { AreFaithful D.Device T.TextStore devices → (s : Images) → Holds (held_by D.Device T.TextStore devices) s
        → Does R.remaining s task result.reply (held_by D.Device T.TextStore result.devices) }

    // On devices in which opening finds images it is done on what is recovered.
    ensures found { AreFaithful D.Device T.TextStore devices → (s : Images) → FoundIn (held_by D.Device T.TextStore devices) s
        → DoesFound R.remaining s task result.how result.reply (held_by D.Device T.TextStore result.devices) }

    // On all others that opening takes it makes the machine's step on the images for which they stand.
    ensures stands { AreFaithful D.Device T.TextStore devices → Unfailed result.reply
        → IfSome result.how (λ how. StepsRead R.remaining task how result.reply
        (held_by D.Device T.TextStore devices) (held_by D.Device T.TextStore result.devices)) }

    // One that is refused leaves what was held, byte for byte, whatever that is, or what was recovered.
    ensures whole { AreFaithful D.Device T.TextStore devices → IsWholeRefusal result.reply
        → Spared result.how (held_by D.Device T.TextStore devices) (held_by D.Device T.TextStore result.devices) }

    // Behind a loss of power opening finds an end of the task.
    ensures survives { AreFaithful D.Device T.TextStore devices → (s : Images) → Holds (held_by D.Device T.TextStore devices) s
        → (IsWholeRefusal result.reply → ⊥)
        → Survives R.remaining s task result.reply
        (D.survives result.devices.image) (T.survives result.devices.journal) (T.survives result.devices.redo) }
    ensures endures { AreFaithful D.Device T.TextStore devices → (s : Images) → FoundIn (held_by D.Device T.TextStore devices) s
        → (IsWholeRefusal result.reply → ⊥)
        → SurvivesFound R.remaining s task result.how result.reply
        (D.survives result.devices.image) (T.survives result.devices.journal) (T.survives result.devices.redo) }
    ensures spares { AreFaithful D.Device T.TextStore devices → IsWholeRefusal result.reply
        → SparesDisk D.Device T.TextStore result.how devices result.devices }
{
    match Session::open_devices(alloc, devices) {
        Ok((session, found)) => run_and_close(alloc, session, found.how, task),
        Err((devices, fault)) => Closed {
            devices,
            reply: Reply::Refused(Fault::Session(fault)),
            how: None,
        },
    }
}
