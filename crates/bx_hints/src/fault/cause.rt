//! The hint on what stopped a job: the file that did it, why it did, and what can be done.
use crate::fault::hint::{Known, hint_text};
use crate::fault::names::{name_hint, subject};
use crate::fault::stopped::{Reason, Row, Stopped};
use crate::text::commands::{is_named, operands_of, push_word, words_of};
use crate::text::quoted::{printed, quoted};
use crate::text::steps::stopped_text;
use bx_cli_commands::{ChangeJob, Fault, Job, Target};
use bx_image::FailedCall;
use std::alloc::{AllocError, Global};
use std::fmt::Write as _;
use std::fs::{self, File};
use std::io;
use std::rt::Files;

/// What is said of an image that is missing beside its journal.
const GONE: &str =
    "it is missing, and its journal keeps changes of it; put it back, or begin a new history by --fresh of the command that writes it";

/// What is said of an image that has what a patch writes.
const APPLIED: &str =
    "it has what the patch writes, so the patch is applied already; bx patch -R takes it back";

/// The same of a patch that is turned round.
const TAKEN_BACK: &str =
    "it has what stood before the patch, so that is taken back already; bx patch without -R applies it";

/// Writes the hint on words that were refused: the word at fault, why it is, and how the command is called.
pub fn show_misuse<R>(
    rt: &R,
    fault: Fault,
    word: &str,
    reason: &str,
    usage: &str,
) -> Result<(), AllocError>
where
    R: Eprint + AllocGlobal,
{
    let word = printed(rt.alloc(), word)?;
    let known = Known {
        subject: word.as_str(),
        reason,
        words: "",
        usage,
    };
    show_known(rt, fault, &known);
    Ok(())
}

/// Writes the hint on the file that stopped the job, why it did, and what can be done. An undo or a redo that was stopped in the middle
/// had begun with the change of the number `begun`, where that is known.
pub fn show_cause<R>(
    rt: &R,
    job: Option<&Job>,
    stopped: Stopped<'_>,
    begun: Option<u32>,
) -> Result<(), AllocError>
where
    R: Files<File = File> + Eprint + AllocGlobal,
{
    let file = stopped.file.unwrap_or("");
    let name = subject(rt.alloc(), file)?;
    let reason = reason_text(rt, job, stopped)?;
    if stopped.reason.is_all() {
        let _ = eprintln!(rt; "hint: {name}: {reason}");
        return Ok(());
    }
    if let Some(text) = steps_text(rt.alloc(), job, begun)? {
        show_steps(rt, name.as_str(), reason.as_str(), text.as_str());
        return Ok(());
    }
    let words = match job {
        Some(job) => words_of(rt.alloc(), stopped.fault, job)?,
        None => String::new(rt.alloc()),
    };
    let known = Known {
        subject: name.as_str(),
        reason: reason.as_str(),
        words: words.as_str(),
        usage: if stopped.fault == Fault::OpenFailed {
            name_hint(file)
        } else {
            ""
        },
    };
    show_known(rt, stopped.fault, &known);
    Ok(())
}

/// What is said of an undo or a redo that was stopped in the middle; none of another job.
fn steps_text(
    alloc: Global,
    job: Option<&Job>,
    begun: Option<u32>,
) -> Result<Option<String>, AllocError> {
    match (job, begun) {
        (Some(job), Some(number)) => stopped_text(alloc, job, number),
        (None, _) | (_, None) => Ok(None),
    }
}

/// The same with what stopped it, as far as that is known.
fn show_steps<R: Eprint>(rt: &R, name: &str, reason: &str, text: &str) {
    if name.is_empty() {
        let _ = eprintln!(rt; "hint: {text}");
    } else if reason.is_empty() {
        let _ = eprintln!(rt; "hint: {name}; {text}");
    } else {
        let _ = eprintln!(rt; "hint: {name}: {reason}; {text}");
    }
}

fn show_known<R>(rt: &R, fault: Fault, known: &Known<'_>)
where
    R: Eprint + AllocGlobal,
{
    if let Some(text) = hint_text(rt.alloc(), fault, known) {
        let _ = eprintln!(rt; "hint: {text}");
    }
}

/// Whether the words of the command line are at fault, which were read.
pub fn is_of_words(stopped: Stopped<'_>) -> bool {
    let number = stopped.fault.number();
    let of_words = (20..28).contains(&number) || stopped.fault == Fault::Usage;
    of_words && matches!(stopped.reason, Reason::Unknown)
}

/// The reason in words, as the system says it.
fn reason_text<R>(rt: &R, job: Option<&Job>, stopped: Stopped<'_>) -> Result<String, AllocError>
where
    R: Files<File = File> + AllocGlobal,
{
    let alloc = rt.alloc();
    match stopped.reason {
        Reason::Unknown => Ok(String::new(alloc)),
        Reason::System(code) => system_text(alloc, code),
        Reason::Call(call) => call_text(alloc, call),
        Reason::Told(why) => String::from_str(alloc, why),
        Reason::Wide { bits } => wide_text(rt, job, stopped.file.unwrap_or(""), bits),
        Reason::Unfinished => unfinished_text(alloc, job),
        Reason::Begun => begun_text(alloc, job),
        Reason::Gone => String::from_str(alloc, GONE),
        Reason::Applied { reverse: false } => String::from_str(alloc, APPLIED),
        Reason::Applied { reverse: true } => String::from_str(alloc, TAKEN_BACK),
        Reason::Silent => Ok(String::new(alloc)),
        Reason::Another { is_told } => another_text(alloc, job, is_told),
        Reason::Fixed { has, wanted } => {
            format!(in alloc; "it has {has} bytes and can't grow to {wanted}")
        }
        Reason::Longer { has, wanted } => {
            format!(in alloc; "it has {has} bytes, and would have {wanted}")
        }
        Reason::Full { has } => {
            format!(in alloc;
                "it has {has} bytes and can't grow, and the input goes on behind them"
            )
        }
        Reason::Stays => String::from_str(alloc, "it is a block device, whose length stays"),
        Reason::There(row) => there_text(alloc, &row),
        Reason::Lengths { has, expected } => {
            format!(in alloc; "it has {has} bytes and not {expected}")
        }
    }
}

/// What is said of a text that more people may read or write than the image, and the command that narrows it and the other texts that
/// are there to these bits.
fn wide_text<R>(rt: &R, job: Option<&Job>, name: &str, bits: u32) -> Result<String, AllocError>
where
    R: Files<File = File> + AllocGlobal,
{
    let mut text = format!(in rt.alloc();
        "somebody may read or write it who may not do so with the image; chmod {bits:03o}"
    )?;
    push_word(&mut text, name)?;
    if let Some(target) = job.and_then(Job::target) {
        push_others(rt, &mut text, target, name)?;
    }
    text.push_str(" narrows it, and -J names a journal elsewhere")?;
    Ok(text)
}

/// Puts the names of those texts of an image that are there, but for this one.
fn push_others<R>(rt: &R, text: &mut String, target: &Target, name: &str) -> Result<(), AllocError>
where
    R: Files<File = File> + AllocGlobal,
{
    let (journal, redo) = (target.texts.journal.as_str(), target.texts.redo.as_str());
    let note = format!(in rt.alloc(); "{journal}.image")?;
    for other in [journal, redo, note.as_str()] {
        if other != name && fs::symlink_metadata(rt, other).is_ok_and(|found| found.is_file()) {
            push_word(text, other)?;
        }
    }
    Ok(())
}

/// What an image has where a patch has other bytes, as xxd writes it.
fn there_text(alloc: Global, row: &Row) -> Result<String, AllocError> {
    let Row { at, bytes, count } = *row;
    if count == 0 {
        return String::from_str(alloc, "it ends before");
    }
    let mut text = format!(in alloc; "it has '{at:08x}: ")?;
    for (i, byte) in bytes[..count.min(bytes.len())].iter().enumerate() {
        let between = if i > 0 && i % 2 == 0 { " " } else { "" };
        write!(text, "{between}{byte:02x}")?;
    }
    text.push_str("' there")?;
    Ok(text)
}

/// What is said of a file that has to be written before the changes can be listed.
fn unfinished_text(alloc: Global, job: Option<&Job>) -> Result<String, AllocError> {
    let operands = match job.and_then(Job::target) {
        Some(target) => operands_of(alloc, target)?,
        None => String::new(alloc),
    };
    format!(in alloc;
        "a change is unfinished, and recovery has to write this file; let someone run bx log{operands} who may"
    )
}

/// The call that the system refused, by its name, and why.
fn call_text(alloc: Global, call: FailedCall) -> Result<String, AllocError> {
    let name = call.operation.name();
    match call.error {
        Some(code) => {
            let why = system_text(alloc, code)?;
            format!(in alloc; "{name}: {why}")
        }
        None => String::from_str(alloc, name),
    }
}

/// What is said where a change is unfinished behind those that can be shown.
fn begun_text(alloc: Global, job: Option<&Job>) -> Result<String, AllocError> {
    let operands = match job.and_then(Job::target) {
        Some(target) => operands_of(alloc, target)?,
        None => String::new(alloc),
    };
    format!(in alloc;
        "a change is unfinished, and isn't counted; bx log{operands} takes it back or drops it, as each command but bx show does, and lists the changes"
    )
}

/// What is said of an image where what is unfinished wasn't begun on it, or nothing says whether it was.
fn another_text(alloc: Global, job: Option<&Job>, is_told: bool) -> Result<String, AllocError> {
    let Some(job) = job else {
        return Ok(String::new(alloc));
    };
    let Some(target) = job.target() else {
        return Ok(String::new(alloc));
    };
    let operands = operands_of(alloc, target)?;
    let journal = quoted(alloc, target.texts.journal.as_str())?;
    if !drops_history(job) {
        let anyway = if is_named(target) { " --anyway" } else { "" };
        return format!(in alloc;
            "{journal} has a change that is unfinished, and wasn't begun on this image; put the right one back, or bx forget{anyway}{operands} drops the changes and leaves this one as it is; --anyway goes on all the same"
        );
    }
    if is_told {
        return format!(in alloc;
            "{journal} has a change that is unfinished, and wasn't begun on this image: it may be the journal of another one; --anyway drops it all the same"
        );
    }
    format!(in alloc;
        "{journal} has a change that is unfinished, and nothing tells whether it was begun on this image: if it was, bx undo -k 0{operands} takes it back first; if not, --anyway drops it and leaves the image"
    )
}

/// Whether a job drops the history of its image.
fn drops_history(job: &Job) -> bool {
    match job {
        Job::Change(ChangeJob::Forget(_)) => true,
        Job::Change(ChangeJob::Revert(job)) => job.fresh,
        Job::Change(ChangeJob::Patch(job)) => job.fresh,
        Job::Change(ChangeJob::Dd(job)) => job.fresh,
        Job::Change(ChangeJob::Undo(_) | ChangeJob::Redo(_))
        | Job::Dump(_)
        | Job::Lay(_)
        | Job::Look(_)
        | Job::Diff(_)
        | Job::Help { .. } => false,
    }
}

/// The system's text, without the number that std puts behind it.
fn system_text(alloc: Global, code: i32) -> Result<String, AllocError> {
    let error = io::Error::from_raw_os_error(code);
    let text = format!(in alloc; "{error}")?;
    match text.as_str().split_once(" (os error") {
        Some((front, _)) => String::from_str(alloc, front),
        None => Ok(text),
    }
}
