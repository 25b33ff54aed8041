//! What is known of an image before a task writes to it. The three devices are only looked at.
ghost use Rattle.std.specs.Prelude.{◌≡◌, ◌≤◌, ◌<◌, true, length, is_err, IfOk, IfErr, IfSome};
ghost use Rattle.bx_journal_format.specs.Shown.{shown};
ghost use Rattle.bx_journal_image.specs.Stand.{IsStandOf};
ghost use Rattle.bx_journal_image.specs.Seal.{IsInSpan, IsOpenSeal, IsSealOf, IsStepsSealOf};
ghost use Rattle.bx_journal_model.specs.Looking.{OnlyReadsText};
ghost use Rattle.bx_journal_model.specs.Fault.{DeviceFault};
ghost use Rattle.bx_journal_read.specs.scan.Recovery.{FindFault};
ghost use Rattle.bx_run_session.specs.session.Contents.{AreFaithful, held_by};
ghost use Rattle.bx_run_session.specs.session.Lengths.{IsChangeSpan, IsPatchSpan, IsSpanTo, IsTaskSpan};
ghost use Rattle.bx_run_session.specs.session.Guarded.{AreFew, CountLooks, EndsLine, EndsWhole, IsFoundAtRest, IsJudgedBeside, IsLineBehind, IsLineOn, IsLookedAt, IsReadyBehind, IsSealAtRest, LookAt, RiseByOne, is_other, is_too_many, is_writing, known_by, others_of, standing_before, standing_of, steps_of};

use crate::session::task::Task;
use crate::session::terms::{Terms, is_kept_off, is_moved_off};
use bx_cli_commands::{Command, Kept};
use bx_image::{Change, Device, DeviceFailed, check};
use bx_journal::{Devices, Direction, SessionFault};
use bx_journal_image::{
    AtRest, ImageLine, Span, Standing, Verdict, digest_of, end_of, judge_unfinished, others_after,
    seal, seal_steps, seal_unfinished, stand,
};
use bx_journal_store::TextStore;
use bx_patch::Patch;
use bx_text::Piece;
use std::alloc::Global;
use std::io::Read;

/// How many bytes the line has that ends an entry, with the newline before it.
const LAST: usize = 33;

/// What the note is to have while a task writes.
#[derive(Clone, Copy)]
pub enum Seal {
    /// What it has: the task writes nothing but what it recovers.
    Kept,
    /// A line on the image.
    Line(ImageLine),
}

/// What a task goes on with.
#[derive(Clone, Copy)]
pub struct Ready {
    /// What the note is to have.
    pub seal: Seal,
    /// How many of the oldest changes stand for another image.
    pub others: u32,
}

/// What was found of an image.
#[derive(Clone, Copy)]
pub enum Looked {
    /// It is another one than the journal was written beside: the task is refused.
    Another,
    /// The task may go on.
    Goes(Ready),
}

/// Whether a task writes where it is done, and nothing is unfinished.
fn is_writing<R: Read>(task: &Task<R>) -> bool
    ensures { result ≡ is_writing task.now }
{
    match task {
        Task::Run(Command::Undo { k }) => *k > 0,
        Task::Run(Command::Redo { j }) => *j > 0,
        Task::Put(Err(_)) => false,
        Task::Put(Ok(_)) | Task::Keep(_) => true,
        Task::Run(
            Command::Revert { .. }
            | Command::RevertPlain { .. }
            | Command::Dd { .. }
            | Command::Copy { .. }
            | Command::Patch { .. },
        ) => true,
    }
}

/// Whether a task asks for more steps than there are, and so writes nothing.
fn is_too_many<R: Read>(task: &Task<R>, found: &Option<AtRest>) -> bool
    ensures { result ≡ is_too_many task.now found.now }
{
    let Some(found) = found else {
        return false;
    };
    match task {
        Task::Run(Command::Undo { k }) => *k > found.standing.changes,
        Task::Run(Command::Redo { j }) => *j > found.standing.undone,
        Task::Run(
            Command::Revert { .. }
            | Command::RevertPlain { .. }
            | Command::Dd { .. }
            | Command::Copy { .. }
            | Command::Patch { .. },
        )
        | Task::Put(_)
        | Task::Keep(_) => false,
    }
}

/// Which way a task goes by more than one step.
fn steps_of<R: Read>(task: &Task<R>) -> Option<Direction>
    ensures { result ≡ steps_of task.now }
{
    match task {
        Task::Run(Command::Undo { k }) => { if *k > 1 { Some(Direction::Undo) } else { None } }
        Task::Run(Command::Redo { j }) => { if *j > 1 { Some(Direction::Redo) } else { None } }
        Task::Run(
            Command::Revert { .. }
            | Command::RevertPlain { .. }
            | Command::Dd { .. }
            | Command::Copy { .. }
            | Command::Patch { .. },
        )
        | Task::Put(_)
        | Task::Keep(_) => None,
    }
}

/// The lengths between which a change leaves an image of `len` bytes, wherever it is stopped: its base comes first, and then each write.
fn span_of_change(change: &Change, len: u64) -> Span
    ensures within { IsInSpan result len }
    ensures known { IsChangeSpan change.now len result }
{
    match check(change, len) {
        Ok(longest) => {
            let base = change.base.unwrap_or(len);
            Span::between(base.min(len).min(longest), longest.max(len))
        }
        Err(_) => Span::any(),
    }
}

/// The lengths between which an image of `len` bytes is that is brought to another length.
fn span_to(len: u64, told: Option<u64>) -> Span
    ensures within { IsInSpan result len }
    ensures known { IsSpanTo len told result }
{
    match told {
        Some(other) => Span::between(len, other),
        None => Span::any(),
    }
}

/// The greatest length that an image of `len` bytes has while pieces are written to it.
fn longest_with(pieces: &[Piece], len: u64) -> u64
    ensures { len ≤ result }
{
    let mut longest = len;
    for piece in pieces {
        let count = piece.bytes.as_slice().len() as u64;
        longest = longest.max(piece.at.saturating_add(count));
    }
    longest
}

/// The lengths between which the change of a patch leaves an image of `len` bytes that agrees with it: behind a length that the patch tells
/// it writes nothing.
fn span_of_patch(patch: &Patch, len: u64) -> Span
    ensures within { IsInSpan result len }
    ensures known { IsPatchSpan patch.now len result }
{
    match patch.lengths {
        Some(lengths) => Span::between(len, lengths.new),
        None => Span::between(len, longest_with(patch.written.as_slice(), len)),
    }
}

/// The lengths between which a task of one step leaves an image, by what is found of it.
fn span_of<R: Read>(task: &Task<R>, found: &AtRest) -> Span
    ensures within { IsInSpan result found.now.standing.length }
    ensures known { IsTaskSpan task.now found.now result }
{
    let len = found.standing.length;
    match task {
        Task::Run(Command::Undo { .. }) => span_to(len, found.before),
        Task::Run(Command::Redo { .. }) => span_to(len, found.after),
        Task::Put(Ok(change)) | Task::Keep(Kept::Change(change)) => span_of_change(change, len),
        Task::Keep(Kept::Patch(patch)) | Task::Run(Command::Patch { patch }) => {
            span_of_patch(patch, len)
        }
        // What these ask isn't read before the task. The program asks for none of them: it reads first.
        Task::Put(Err(_))
        | Task::Run(
            Command::Revert { .. }
            | Command::RevertPlain { .. }
            | Command::Dd { .. }
            | Command::Copy { .. },
        ) => Span::any(),
    }
}

/// The same, where nothing may be found of it.
fn span_if<R: Read>(task: &Task<R>, found: &Option<AtRest>) -> Span
    ensures { IfSome found.now (λ f. IsInSpan result f.standing.length × IsTaskSpan task.now f result) }
{
    match found {
        Some(found) => span_of(task, found),
        None => Span::any(),
    }
}

/// What the line tells of the texts; of texts that can't be read so it tells as many changes as no journal has.
fn standing_of(found: &Option<AtRest>) -> Standing
    ensures { result ≡ standing_of found.now }
{
    match found {
        Some(found) => found.standing,
        None => Standing {
            changes: u32::MAX,
            undone: 0,
            length: 0,
            last: digest_of(b""),
            next: digest_of(b""),
        },
    }
}

/// The same before a task: before an undo, which takes changes from the journal one by one, it is on no texts.
fn standing_before<R: Read>(task: &Task<R>, found: &Option<AtRest>) -> Standing
    ensures { result ≡ standing_before task.now found.now }
{
    let now = standing_of(found);
    match task {
        Task::Run(Command::Undo { .. }) => now.on_no_texts(),
        Task::Run(
            Command::Redo { .. }
            | Command::Revert { .. }
            | Command::RevertPlain { .. }
            | Command::Dd { .. }
            | Command::Copy { .. }
            | Command::Patch { .. },
        )
        | Task::Put(_)
        | Task::Keep(_) => now,
    }
}

/// How many of the oldest changes stand for another image, by a line and what is found.
fn others_of(line: &Option<ImageLine>, found: &Option<AtRest>) -> u32
    ensures { result ≡ others_of line.now found.now }
{
    match (line, found) {
        (Some(line), Some(found)) => others_after(line, &found.standing),
        (None, _) | (Some(_), None) => 0,
    }
}

/// Whether the line tells that a task would find another image, and it doesn't go on anyway.
fn is_other<R: Read>(terms: &Terms, found: &Option<AtRest>, task: &Task<R>) -> bool
    ensures { result ≡ is_other terms.now found.now task.now }
{
    match (&terms.line, found) {
        (Some(line), Some(found)) => {
            !terms.guard.anyway && is_moved_off(line, &found.standing, task)
        }
        (None, _) | (Some(_), None) => false,
    }
}

/// What is found of finished texts; none where they aren't.
fn find<D: Device, T: TextStore>(
    alloc: &Global,
    devices: &mut Devices<D, T>,
) -> Result<Option<AtRest>, SessionFault>
    requires few { AreFew D.Device T.TextStore devices.old }
    ensures found { AreFaithful D.Device T.TextStore devices.old
        → IfOk result (IsStandOf (D.image devices.old.image) (T.text devices.old.journal) (T.text devices.old.redo)) }
    ensures fault { IfErr result DeviceFault }
    ensures looks { LookAt D.Device T.TextStore devices.old devices.new }
    ensures counts { CountLooks D.Device T.TextStore result devices.old devices.new }
{
    stand(
        alloc,
        &mut devices.image,
        &mut devices.journal,
        &mut devices.redo,
    )
}

/// Whether these bytes are a newline and the line that ends an entry.
fn is_end(bytes: &[u8]) -> bool
    ensures { result ≡ true → EndsLine bytes.now }
{
    if bytes.len() != LAST {
        return false;
    }
    let (newline, line) = bytes.split_at(1);
    newline[0] == b'\n' && end_of(line).is_some()
}

/// Whether a text is empty, or ends so.
fn ends_whole<T: TextStore>(text: &mut T) -> Result<bool, DeviceFailed>
    requires countable { T.failures text.old < u64.MAX }
    ensures ends { T.faithful text.old → IfOk result (λ ends. ends ≡ true → EndsWhole (T.text text.old)) }
    ensures reads { OnlyReadsText T.TextStore (is_err result) text.old text.new }
{
    let len = text.len()?;
    if len == 0 {
        return Ok(true);
    }
    if len < LAST as u64 {
        return Ok(false);
    }
    let mut room = [0u8; LAST];
    text.read_at(len - LAST as u64, &mut room)?;
    Ok(is_end(&room))
}

/// What the image is by the line, where something unfinished has its `save` line; none elsewhere. A journal that ends an entry isn't read
/// for that: nothing of it is unfinished.
fn judge<D: Device, T: TextStore>(
    alloc: &Global,
    devices: &mut Devices<D, T>,
    line: Option<ImageLine>,
) -> Result<Option<Verdict>, SessionFault>
    requires few { AreFew D.Device T.TextStore devices.old }
    ensures verdict { AreFaithful D.Device T.TextStore devices.old
        → IfOk result (IsJudgedBeside line (T.text devices.old.journal) (D.image devices.old.image)) }
    ensures fault { IfErr result (FindFault (T.faithful devices.old.journal) (shown (T.text devices.old.journal))) }
    ensures looks { LookAt D.Device T.TextStore devices.old devices.new }
    ensures counts { CountLooks D.Device T.TextStore result devices.old devices.new }
{
    let ends = match ends_whole(&mut devices.journal) {
        Ok(ends) => ends,
        Err(_) => return Err(SessionFault::DeviceFailed),
    };
    if ends {
        return Ok(None);
    }
    judge_unfinished(alloc, &mut devices.image, &mut devices.journal, line)
}

/// The line on the image as it is, before one step.
fn seal_one<D: Device, T: TextStore>(
    alloc: &Global,
    devices: &mut Devices<D, T>,
    now: Standing,
    others: u32,
    span: Span,
) -> Result<ImageLine, SessionFault>
    requires few { AreFew D.Device T.TextStore devices.old }
    ensures line { AreFaithful D.Device T.TextStore devices.old → IfOk result (IsSealOf (D.image devices.old.image) now others span) }
    ensures fault { IfErr result DeviceFault }
    ensures looks { LookAt D.Device T.TextStore devices.old devices.new }
    ensures counts { CountLooks D.Device T.TextStore result devices.old devices.new }
{
    seal(alloc, &mut devices.image, now, others, span)
}

/// The same before steps back.
fn seal_back<D: Device, T: TextStore>(
    alloc: &Global,
    devices: &mut Devices<D, T>,
    now: Standing,
    others: u32,
) -> Result<ImageLine, SessionFault>
    requires few { AreFew D.Device T.TextStore devices.old }
    ensures line { AreFaithful D.Device T.TextStore devices.old
        → IfOk result (IsStepsSealOf (D.image devices.old.image) (T.text devices.old.journal) now others) }
    ensures fault { IfErr result DeviceFault }
    ensures looks { LookAt D.Device T.TextStore devices.old devices.new }
    ensures counts { CountLooks D.Device T.TextStore result devices.old devices.new }
{
    seal_steps(alloc, &mut devices.image, &mut devices.journal, now, others)
}

/// The same before steps that are made again.
fn seal_again<D: Device, T: TextStore>(
    alloc: &Global,
    devices: &mut Devices<D, T>,
    now: Standing,
    others: u32,
) -> Result<ImageLine, SessionFault>
    requires few { AreFew D.Device T.TextStore devices.old }
    ensures line { AreFaithful D.Device T.TextStore devices.old
        → IfOk result (IsStepsSealOf (D.image devices.old.image) (T.text devices.old.redo) now others) }
    ensures fault { IfErr result DeviceFault }
    ensures looks { LookAt D.Device T.TextStore devices.old devices.new }
    ensures counts { CountLooks D.Device T.TextStore result devices.old devices.new }
{
    seal_steps(alloc, &mut devices.image, &mut devices.redo, now, others)
}

/// The line on the image as it is, before a task on what is found of its texts.
fn line_on<D: Device, T: TextStore, R: Read>(
    alloc: &Global,
    devices: &mut Devices<D, T>,
    task: &Task<R>,
    found: &Option<AtRest>,
    others: u32,
) -> Result<ImageLine, SessionFault>
    requires few { AreFew D.Device T.TextStore devices.old }
    ensures line { AreFaithful D.Device T.TextStore devices.old
        → IfOk result (IsLineOn (steps_of task.now) (IsTaskSpan task.now) (held_by D.Device T.TextStore devices.old) found.now
        (standing_before task.now found.now) others) }
    ensures fault { IfErr result DeviceFault }
    ensures looks { LookAt D.Device T.TextStore devices.old devices.new }
    ensures counts { CountLooks D.Device T.TextStore result devices.old devices.new }
{
    let now = standing_before(task, found);
    match steps_of(task) {
        Some(Direction::Undo) => seal_back(alloc, devices, now, others),
        Some(Direction::Redo) => seal_again(alloc, devices, now, others),
        None => seal_one(alloc, devices, now, others, span_if(task, found)),
    }
}

/// What the note is to have before a task on what is found of finished texts.
fn seal_at_rest<D: Device, T: TextStore, R: Read>(
    alloc: &Global,
    devices: &mut Devices<D, T>,
    task: &Task<R>,
    found: &Option<AtRest>,
    others: u32,
) -> Result<Seal, SessionFault>
    requires few { AreFew D.Device T.TextStore devices.old }
    ensures seal { AreFaithful D.Device T.TextStore devices.old
        → IfOk result (IsSealAtRest (held_by D.Device T.TextStore devices.old) task.now found.now others) }
    ensures fault { IfErr result DeviceFault }
    ensures looks { LookAt D.Device T.TextStore devices.old devices.new }
    ensures counts { CountLooks D.Device T.TextStore result devices.old devices.new }
{
    if !is_writing(task) || is_too_many(task, found) {
        return Ok(Seal::Kept);
    }
    match line_on(alloc, devices, task, found, others) {
        Ok(line) => Ok(Seal::Line(line)),
        Err(fault) => Err(fault),
    }
}

/// What is known of the image before a task, where nothing that is unfinished has its `save` line.
fn look_at_rest<D: Device, T: TextStore, R: Read>(
    alloc: &Global,
    devices: &mut Devices<D, T>,
    terms: &Terms,
    task: &Task<R>,
) -> Result<Looked, SessionFault>
    requires few { AreFew D.Device T.TextStore devices.old }
    ensures looked { AreFaithful D.Device T.TextStore devices.old
        → IfOk result (IsFoundAtRest terms.now (held_by D.Device T.TextStore devices.old) task.now) }
    ensures fault { IfErr result DeviceFault }
    ensures looks { LookAt D.Device T.TextStore devices.old devices.new }
    ensures counts { CountLooks D.Device T.TextStore result devices.old devices.new }
{
    let found = match find(alloc, devices) {
        Ok(found) => found,
        Err(fault) => return Err(fault),
    };
    if is_other(terms, &found, task) {
        return Ok(Looked::Another);
    }
    let others = others_of(&terms.line, &found);
    match seal_at_rest(alloc, devices, task, &found, others) {
        Ok(seal) => Ok(Looked::Goes(Ready { seal, others })),
        Err(fault) => Err(fault),
    }
}

/// The line that is on an image which was judged so.
fn known_by(line: Option<ImageLine>, verdict: Verdict) -> Option<ImageLine>
    ensures { result ≡ known_by line verdict }
{
    match verdict {
        Verdict::Same | Verdict::Untold => line,
        Verdict::Other => None,
    }
}

/// How many of the oldest changes stand for another image, by a line that is on it.
fn others_in(line: &Option<ImageLine>) -> u32 {
    match line {
        Some(line) => line.others,
        None => 0,
    }
}

/// The line behind the recovery of what is unfinished, by the one that was found.
fn seal_behind<D: Device, T: TextStore>(
    alloc: &Global,
    devices: &mut Devices<D, T>,
    line: Option<ImageLine>,
) -> Result<ImageLine, SessionFault>
    requires few { AreFew D.Device T.TextStore devices.old }
    ensures line { AreFaithful D.Device T.TextStore devices.old → IfOk result (IsOpenSeal line (T.text devices.old.journal)) }
    ensures fault { IfErr result (FindFault (T.faithful devices.old.journal) (shown (T.text devices.old.journal))) }
    ensures looks { LookAt D.Device T.TextStore devices.old devices.new }
    ensures counts { CountLooks D.Device T.TextStore result devices.old devices.new }
{
    seal_unfinished(alloc, &mut devices.journal, line)
}

/// What a task goes on with that recovers first, onto an image that was judged so: the note is to tell nothing of the blocks that the
/// recovery writes, as the stopped command may have been an undo.
fn look_behind<D: Device, T: TextStore, R: Read>(
    alloc: &Global,
    devices: &mut Devices<D, T>,
    terms: &Terms,
    verdict: Verdict,
    task: &Task<R>,
) -> Result<Ready, SessionFault>
    requires few { AreFew D.Device T.TextStore devices.old }
    ensures ready { AreFaithful D.Device T.TextStore devices.old
        → IfOk result (IsReadyBehind terms.now (held_by D.Device T.TextStore devices.old) task.now verdict) }
    ensures fault { IfErr result (FindFault (T.faithful devices.old.journal) (shown (T.text devices.old.journal))) }
    ensures looks { LookAt D.Device T.TextStore devices.old devices.new }
    ensures counts { CountLooks D.Device T.TextStore result devices.old devices.new }
{
    let line = known_by(terms.line, verdict);
    let others = others_in(&line);
    if !is_writing(task) {
        return Ok(Ready {
            seal: Seal::Kept,
            others,
        });
    }
    match seal_behind(alloc, devices, line) {
        Ok(sealed) => Ok(Ready {
            seal: Seal::Line(sealed),
            others,
        }),
        Err(fault) => Err(fault),
    }
}

/// Looks at the image before a task: what is unfinished is judged by the line, and finished texts are compared with it. Nothing is written.
pub fn look_at<D: Device, T: TextStore, R: Read>(
    alloc: &Global,
    devices: &mut Devices<D, T>,
    terms: &Terms,
    task: &Task<R>,
) -> Result<Looked, SessionFault>
    requires few { AreFew D.Device T.TextStore devices.old }
    ensures looked { AreFaithful D.Device T.TextStore devices.old
        → IfOk result (IsLookedAt terms.now (held_by D.Device T.TextStore devices.old) task.now) }
    ensures fault { IfErr result (FindFault (T.faithful devices.old.journal) (shown (T.text devices.old.journal))) }
    ensures looks { LookAt D.Device T.TextStore devices.old devices.new }
    ensures counts { CountLooks D.Device T.TextStore result devices.old devices.new }
{
    // No `?` here: it would hide from the proof which fault it is.
    let verdict = match judge(alloc, devices, terms.line) {
        Ok(verdict) => verdict,
        Err(fault) => return Err(fault),
    };
    if is_kept_off(terms, verdict) {
        return Ok(Looked::Another);
    }
    match verdict {
        Some(verdict) => match look_behind(alloc, devices, terms, verdict, task) {
            Ok(ready) => Ok(Looked::Goes(ready)),
            Err(fault) => Err(fault),
        },
        None => look_at_rest(alloc, devices, terms, task),
    }
}

/// The line on the image behind a task, with as many of the oldest changes that stand for another image; none where they can't be
/// counted.
pub fn line_behind<D: Device, T: TextStore>(
    alloc: &Global,
    devices: &mut Devices<D, T>,
    others: u32,
) -> Option<ImageLine>
    requires few { AreFew D.Device T.TextStore devices.old }
    ensures line { AreFaithful D.Device T.TextStore devices.old
        → IfSome result (IsLineBehind (held_by D.Device T.TextStore devices.old) others) }
    ensures looks { LookAt D.Device T.TextStore devices.old devices.new }
    ensures counts { RiseByOne D.Device T.TextStore devices.old devices.new }
{
    let found = match find(alloc, devices) {
        Ok(Some(found)) => found,
        Ok(None) | Err(_) => return None,
    };
    let others = others.min(found.standing.changes);
    let len = found.standing.length;
    match seal_one(
        alloc,
        devices,
        found.standing,
        others,
        Span::between(len, len),
    ) {
        Ok(line) => Some(line),
        Err(_) => None,
    }
}
