//! What the program writes of the fault that stopped it.
ghost use Rattle.std.specs.Prelude.{◌≡◌};

use crate::files::tail::tail_of;
use bx_cli::{ChangeJob, Fault, Job, misuse_of};
use bx_hints::{Stopped, Tail, is_of_words, show_cause, show_misuse};
use bx_journal::SessionFault;
use bx_system::System;
use bx_text::Words;

/// Writes the text of the fault, and behind it where hints are written the hint. A hint that can't be made or written is left
/// out. Where the reader of standard output has gone nothing is written, as by other programs. The job is none where the words
/// ask for none.
pub fn show_fault<R: System>(
    rt: &R,
    hints: bool,
    words: &Words,
    job: Option<&Job>,
    stopped: Stopped<'_>,
) -> Fault
    ensures { result ≡ stopped.entry.fault }
{
    let fault = stopped.fault;
    if stopped.is_silent() {
        return fault;
    }
    // Standard error may be closed or full: the exit status tells of the fault all the same.
    let _ = eprintln!(rt; "bx: {fault}");
    if hints {
        let _ = show_hint(rt, words, job, stopped);
    }
    fault
}

/// Writes the text of a fault that stops no job, and behind it where hints are written the hint.
pub fn show_passed<R: System>(rt: &R, hints: bool, stopped: Stopped<'_>) {
    let fault = stopped.fault;
    let _ = eprintln!(rt; "bx: {fault}");
    if hints {
        let _ = show_cause(rt, None, stopped, None);
    }
}

/// The hint on a line of its own.
fn show_hint<R: System>(
    rt: &R,
    words: &Words,
    job: Option<&Job>,
    stopped: Stopped<'_>,
) -> Result<(), Fault> {
    let fault = stopped.fault;
    if is_of_words(stopped) {
        let misuse = misuse_of(rt.alloc(), words, fault)?;
        show_misuse(
            rt,
            fault,
            misuse.word.as_str(),
            misuse.reason,
            misuse.usage.as_str(),
        )?;
        return Ok(());
    }
    show_cause(rt, job, stopped, begun_at(rt, job, fault))?;
    Ok(())
}

/// The change at which an undo or a redo was stopped in the middle, where the journal's end tells it. None of another job.
fn begun_at<R: System>(rt: &R, job: Option<&Job>, fault: Fault) -> Option<u32> {
    if !matches!(fault, Fault::Session(SessionFault::Interrupted)) {
        return None;
    }
    let steps = match job? {
        Job::Change(ChangeJob::Undo(steps) | ChangeJob::Redo(steps)) => steps,
        _ => return None,
    };
    match tail_of(rt, steps.target.texts.journal.as_str()) {
        Tail::Begun(number) => Some(number),
        Tail::Finished(_) | Tail::Unknown => None,
    }
}
