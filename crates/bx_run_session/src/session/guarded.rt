//! A task on three devices that are lent, of whose image the note tells: it is judged before anything is written, and sealed before the
//! task's first write.
ghost use Rattle.std.specs.Prelude.{◌≡◌, ◌↔◌, ◌⊎◌, ◌<◌, ◌≤◌, ◌+◌, [], None, Some, IfSome, cond, true, false};
ghost use Rattle.bx_cli_commands.specs.Refusal.{IsWholeRefusal};
ghost use Rattle.bx_cli_commands.specs.Run.{is_failure};
ghost use Rattle.bx_journal_image.specs.Line.{image_line};
ghost use Rattle.bx_cli_commands.specs.declared.command.Reply.TheVariants.{Refused};
ghost use Rattle.bx_cli_commands.specs.declared.fault.Fault.TheVariants.{OpenFailed, Session};
ghost use Rattle.bx_world.specs.declared.world.Noted.TheVariants.{Stands};
ghost use Rattle.bx_world.specs.World.{NothingNewFound};
ghost use Rattle.bx_run_session.specs.session.Contents.{AreFresh, AreFaithful, AreInPlace, StayFaithful, held_by};
ghost use Rattle.bx_run_session.specs.session.Guarded.{AreFew, IsSealed, LookAt, RiseByOne, WasJudged, another, failed_by, line_to_put};
ghost use Rattle.bx_run_session.specs.declared.session.looked.Seal.TheVariants.{Kept};
ghost use Rattle.bx_run_session.specs.session.Named.{ClearsNote, IsNoteCleared, IsUnrecovered};
ghost use Rattle.bx_run_session.specs.session.Ran.{EndsAs, IsUnbegun, RunsTask};
ghost use Rattle.bx_run_session.specs.session.Task.{IsNearTask};

use crate::session::devices::{Closed, open_and_run};
use crate::session::looked::{Looked, Ready, Seal, line_behind, look_at};
use crate::session::refusal::{is_unrecovered, is_whole_refusal};
use crate::session::task::Task;
use crate::session::terms::{Terms, Told, told_by};
use bx_cli_commands::{Fault, Reply};
use bx_image::Device;
use bx_journal::{Devices, RecoveryOutcome, SessionFault};
use bx_journal_image::{ImageLine, NO_CHANGES, write_line};
use bx_journal_store::TextStore;
use bx_world::{FileRole, Guard, Made, Noted, OpenError, OpenFailure, World};
use std::alloc::Global;
use std::io::Read;

/// Three devices behind a task, and what became of it.
pub struct Ended<D: Device, T: TextStore> {
    /// The image, its journal and its redo text.
    pub devices: Devices<D, T>,
    /// The reply.
    pub reply: Reply,
    /// What opening found unfinished; none where it was refused.
    pub how: Option<RecoveryOutcome>,
    /// Why the task wasn't begun; none where it was.
    pub unopened: Option<OpenError>,
}

/// Whether the note has what it was to have, or nothing.
fn is_put(noted: Noted) -> bool
    ensures { (result ≡ true) ↔ (noted ≡ Stands → ⊥) }
{
    match noted {
        Noted::Put | Noted::Without => true,
        Noted::Stands => false,
    }
}

/// The line that is put on the disk before a task. One that is kept is put too: a command that syncs nothing may have left it, and
/// behind a loss of power an older one would be found.
fn line_to_put(seal: Seal, found: Option<ImageLine>) -> Option<ImageLine>
    ensures { result ≡ line_to_put seal found }
{
    match seal {
        Seal::Kept => found,
        Seal::Line(line) => Some(line),
    }
}

/// Puts what the note is to have while a task writes, on the disk; says no where it stands as it was.
fn put_seal<W: World>(world: &mut W, line: Option<ImageLine>) -> bool
    ensures sealed { W.faithful world.old → result ≡ true → IsSealed line (W.note world.old) (W.note world.new) (W.note_survives world.new) }
    ensures counted { W.faithful world.old → W.refusals world.new ≡ cond result (W.refusals world.old) (W.refusals world.old + 1) }
    ensures same { W.faithful world.old → W.state world.new ≡ W.state world.old }
    ensures survives { W.faithful world.old → NothingNewFound (W.survives world.old) (W.survives world.new) }
    ensures faith { W.faithful world.new ↔ W.faithful world.old }
{
    match line {
        None => true,
        Some(line) => {
            let text = write_line(line);
            is_put(world.put_note(text.as_bytes(), true))
        }
    }
}

/// Whether a task writes where it is done, by what the note has meanwhile.
fn is_sealed(seal: Seal) -> bool
    ensures kept { result ≡ false → seal ≡ Kept }
{
    match seal {
        Seal::Kept => false,
        Seal::Line(_) => true,
    }
}

/// Whether the note tells nothing of the texts while a task writes, as before an undo.
fn is_on_no_texts(seal: Seal) -> bool
    ensures kept { seal ≡ Kept → result ≡ false }
{
    match seal {
        Seal::Kept => false,
        Seal::Line(line) => line.changes == NO_CHANGES,
    }
}

/// Whether a task was refused with nothing recovered, and not stopped in the middle.
fn is_spared(reply: &Reply, how: Option<RecoveryOutcome>) -> bool
    ensures { (result ≡ true) ↔ (IsWholeRefusal reply.now × IsUnrecovered how) }
{
    is_whole_refusal(reply) && is_unrecovered(how)
}

/// Whether a command ended whose line has to be written once more: it changed something, or the line before it tells nothing of the texts,
/// and no device stopped it in the middle.
fn is_ended(reply: &Reply, how: Option<RecoveryOutcome>, seal: Seal) -> bool
    ensures kept { seal ≡ Kept → IsWholeRefusal reply.now → IsUnrecovered how → result ≡ false }
{
    match reply {
        Reply::Refused(Fault::Session(SessionFault::Interrupted)) => false,
        Reply::Refused(_) => is_on_no_texts(seal) || !is_unrecovered(how),
        Reply::Changed { .. }
        | Reply::Copied { .. }
        | Reply::Undone { .. }
        | Reply::Redone { .. } => is_sealed(seal) || !is_unrecovered(how),
    }
}

/// Puts the line on the image behind a task in the note. It isn't put on the disk: where it is lost the line before it tells nothing of
/// finished texts, as it counts other changes. What fails leaves that one too.
fn put_end<W: World>(
    world: &mut W,
    alloc: &Global,
    devices: &mut Devices<W::Image, W::Text>,
    others: u32,
)
    requires few { AreFew W.Image.Device W.Text.TextStore devices.old }
    ensures looks { LookAt W.Image.Device W.Text.TextStore devices.old devices.new }
    ensures counts { RiseByOne W.Image.Device W.Text.TextStore devices.old devices.new }
    ensures counted { W.faithful world.old → W.refusals world.old ≤ W.refusals world.new }
    ensures same { W.faithful world.old → W.state world.new ≡ W.state world.old }
    ensures survives { W.faithful world.old → NothingNewFound (W.survives world.old) (W.survives world.new) }
    ensures faith { W.faithful world.new ↔ W.faithful world.old }
{
    if let Some(line) = line_behind(alloc, devices, others) {
        let text = write_line(line);
        // The task is done by now. Where this fails the line of before stays, which counts other changes and so says nothing.
        let _ = world.put_note(text.as_bytes(), false);
    }
}

/// Whether the line goes that was put for a task.
fn is_unmade(goes: bool, seal: Seal, reply: &Reply, how: Option<RecoveryOutcome>) -> bool
    ensures only { result ≡ true → (goes ≡ true) × IsWholeRefusal reply.now × IsUnrecovered how }
    ensures kept { result ≡ false → goes ≡ true → IsWholeRefusal reply.now → IsUnrecovered how → seal ≡ Kept }
{
    goes && is_sealed(seal) && is_spared(reply, how)
}

/// Takes the note away that was put for a task, where `goes` says so: a refused command leaves nothing that it made.
fn clear_note<W: World>(world: &mut W, goes: bool)
    ensures cleared { W.faithful world.old → goes ≡ true
        → (W.note world.new ≡ []) ⊎ (W.refusals world.old < W.refusals world.new) }
    ensures stays { goes ≡ false → world.new ≡ world.old }
    ensures counted { W.faithful world.old → W.refusals world.old ≤ W.refusals world.new }
    ensures same { W.faithful world.old → W.state world.new ≡ W.state world.old }
    ensures survives { W.faithful world.old → NothingNewFound (W.survives world.old) (W.survives world.new) }
    ensures faith { W.faithful world.new ↔ W.faithful world.old }
{
    if goes {
        // Not synced: a loss of power leaves the line, which is that of the image as it is.
        let _ = world.put_note(&[], false);
    }
}

/// A task that wasn't begun, as the image is another one: the three are as they were.
fn unbegun<D: Device, T: TextStore>(devices: Devices<D, T>) -> Ended<D, T>
    ensures devices { result.devices ≡ devices }
    ensures reply { result.reply ≡ Refused OpenFailed }
    ensures how { result.how ≡ None }
    ensures unopened { result.unopened ≡ Some another }
{
    Ended {
        devices,
        reply: Reply::Refused(Fault::OpenFailed),
        how: None,
        unopened: Some(FileRole::Image.unopened(OpenFailure::Another)),
    }
}

/// A task that a fault refused before opening.
fn failed<D: Device, T: TextStore>(devices: Devices<D, T>, fault: SessionFault) -> Ended<D, T>
    ensures devices { result.devices ≡ devices }
    ensures reply { result.reply ≡ Refused (Session fault) }
    ensures how { result.how ≡ None }
    ensures unopened { result.unopened ≡ None }
{
    Ended {
        devices,
        reply: Reply::Refused(Fault::Session(fault)),
        how: None,
        unopened: None,
    }
}

/// Does a task that may go on, and puts the line on the image behind it in the note. Where it is refused, and `goes` says so, the line goes
/// that was put before it.
fn run_sealed<W: World, R: Read + Drop>(
    world: &mut W,
    alloc: Global,
    devices: Devices<W::Image, W::Text>,
    ready: Ready,
    goes: bool,
    task: Task<R>,
) -> Ended<W::Image, W::Text>
    requires near { IsNearTask task }
    requires fresh { AreFresh W.Image.Device W.Text.TextStore devices }
    ensures order { AreInPlace W.Image.Device W.Text.TextStore result.devices }
    ensures faithful { StayFaithful W.Image.Device W.Text.TextStore devices result.devices }
    ensures runs { RunsTask W.Image.Device W.Text.TextStore R.remaining devices task result }
    ensures failed { is_failure result.reply ≡ true → 0 < failed_by W.Image.Device W.Text.TextStore result.devices }
    ensures counted { W.faithful world.old → W.refusals world.old ≤ W.refusals world.new }
    ensures note { W.faithful world.old → goes ≡ true → IsWholeRefusal result.reply → IsUnrecovered result.how
        → ((ready.seal ≡ Kept) × (W.note world.new ≡ W.note world.old)) ⊎ (W.note world.new ≡ []) ⊎ (W.refusals world.old < W.refusals world.new) }
    ensures unopened { result.unopened ≡ None }
    ensures same { W.faithful world.old → W.state world.new ≡ W.state world.old }
    ensures survives { W.faithful world.old → NothingNewFound (W.survives world.old) (W.survives world.new) }
    ensures faith { W.faithful world.new ↔ W.faithful world.old }
{
    let closed = open_and_run(alloc, devices, task);
    let Closed {
        mut devices,
        reply,
        how,
    } = closed;
    if is_ended(&reply, how, ready.seal) {
        put_end(world, &alloc, &mut devices, ready.others);
    }
    clear_note(world, is_unmade(goes, ready.seal, &reply, how));
    Ended {
        devices,
        reply,
        how,
        unopened: None,
    }
}

/// Does a task on an image that was looked at: unless it is another one, or the note can't take what is known of it.
fn run_looked<W: World, R: Read + Drop>(
    world: &mut W,
    alloc: Global,
    devices: Devices<W::Image, W::Text>,
    looked: Looked,
    told: Told,
    task: Task<R>,
) -> Ended<W::Image, W::Text>
    requires near { IsNearTask task }
    requires fresh { AreFresh W.Image.Device W.Text.TextStore devices }
    ensures order { AreInPlace W.Image.Device W.Text.TextStore result.devices }
    ensures faithful { StayFaithful W.Image.Device W.Text.TextStore devices result.devices }
    ensures runs { RunsTask W.Image.Device W.Text.TextStore R.remaining devices task result }
    ensures failed { W.faithful world.old → is_failure result.reply ≡ true
        → W.refusals world.old < W.refusals world.new + failed_by W.Image.Device W.Text.TextStore result.devices }
    ensures counted { W.faithful world.old → W.refusals world.old ≤ W.refusals world.new }
    ensures unopened { EndsAs looked result.unopened result.how }
    ensures left { IfSome result.unopened (IsUnbegun W.Image.Device W.Text.TextStore devices result) }
    ensures unbegun { W.faithful world.old → IfSome result.unopened (λ _. W.note world.new ≡ W.note world.old) }
    ensures note { W.faithful world.old → IfSome told.line (λ line. W.note world.old ≡ image_line line) → told.goes ≡ true
        → IsWholeRefusal result.reply → IsUnrecovered result.how
        → IsNoteCleared (W.refusals world.old < W.refusals world.new) (W.note world.old) (W.note world.new) }
    ensures same { W.faithful world.old → W.state world.new ≡ W.state world.old }
    ensures survives { W.faithful world.old → NothingNewFound (W.survives world.old) (W.survives world.new) }
    ensures faith { W.faithful world.new ↔ W.faithful world.old }
{
    match looked {
        Looked::Another => unbegun(devices),
        Looked::Goes(ready) => {
            if put_seal(world, line_to_put(ready.seal, told.line)) {
                run_sealed(world, alloc, devices, ready, told.goes, task)
            } else {
                failed(devices, SessionFault::DeviceFailed)
            }
        }
    }
}

/// Does a task on three devices, behind what `guard` allows; `made` says which of their files were made for it. The note is read, and the
/// image is judged by it: a task for which that is another one isn't begun. One whose line the note can't take is refused as where a
/// device failed.
pub fn run_guarded<W: World, R: Read + Drop>(
    world: &mut W,
    alloc: Global,
    devices: Devices<W::Image, W::Text>,
    guard: Guard,
    made: Made,
    task: Task<R>,
) -> Ended<W::Image, W::Text>
    requires near { IsNearTask task }
    requires fresh { AreFresh W.Image.Device W.Text.TextStore devices }
    ensures order { AreInPlace W.Image.Device W.Text.TextStore result.devices }
    ensures faithful { StayFaithful W.Image.Device W.Text.TextStore devices result.devices }
    ensures runs { RunsTask W.Image.Device W.Text.TextStore R.remaining devices task result }

    // The fault of a device is answered only where a call of one failed, or the note couldn't be put.
    ensures failed { W.faithful world.old → is_failure result.reply ≡ true
        → W.refusals world.old < W.refusals world.new + failed_by W.Image.Device W.Text.TextStore result.devices }
    ensures counted { W.faithful world.old → W.refusals world.old ≤ W.refusals world.new }

    // A task that isn't begun leaves the three as they were.
    ensures left { IfSome result.unopened (IsUnbegun W.Image.Device W.Text.TextStore devices result) }

    // The image was judged before, by the line that the note had.
    ensures judged { W.faithful world.old → AreFaithful W.Image.Device W.Text.TextStore devices
        → WasJudged guard made.image (W.note world.old) (held_by W.Image.Device W.Text.TextStore devices) task result.unopened result.how }

    // A line that was put for a task which is refused goes again, where the note had no bytes, or no journal stood beside it.
    ensures note { W.faithful world.old → ClearsNote (IsWholeRefusal result.reply) result.unopened result.how made.journal
        (W.refusals world.old < W.refusals world.new) (W.note world.old) (W.note world.new) }
    ensures same { W.faithful world.old → W.state world.new ≡ W.state world.old }
    ensures survives { W.faithful world.old → NothingNewFound (W.survives world.old) (W.survives world.new) }
    ensures faith { W.faithful world.new ↔ W.faithful world.old }
{
    let told = told_by(world, made.journal);
    let terms = Terms {
        guard,
        missing: made.image,
        line: told.line,
        unread: told.unread,
    };
    let mut devices = devices;
    match look_at(&alloc, &mut devices, &terms, &task) {
        Ok(looked) => run_looked(world, alloc, devices, looked, told, task),
        Err(fault) => failed(devices, fault),
    }
}
