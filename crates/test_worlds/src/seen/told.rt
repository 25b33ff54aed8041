//! What a case tells of an asking, and what may come of it where a call fails.
use crate::left::Cause;
use crate::report::Wrong;
use crate::seen::asked::Outcome;
use bx_cli_commands::{Done, Fault};
use bx_journal::SessionFault;
use bx_run::ReportError;
use bx_world::{OpenError, OpenFailure, Refusal};
use std::alloc::Global;
use test_world::MemoryWorld;

/// What has to come of it.
#[derive(Clone, Copy)]
pub enum Told<'a> {
    /// This text, and of a dump these counts.
    Text(&'a [u8], Option<Done>),
    /// This fault, and no text.
    Fault(&'a str),
    /// Something is unfinished.
    Unfinished,
    /// This file isn't opened.
    Unopened(OpenError),
}

impl<'a> Told<'a> {
    /// What is written.
    fn text(self) -> &'a [u8] {
        match self {
            Told::Text(text, _) => text,
            Told::Fault(_) | Told::Unfinished | Told::Unopened(_) => b"",
        }
    }
}

/// Whether it ended as the case tells.
fn is_told(alloc: Global, told: Told<'_>, outcome: Outcome) -> Result<bool, Wrong> {
    match (told, outcome) {
        (Told::Text(_, told), Ok(done)) => Ok(told == done),
        // forgetting asks the note, which has no line here, where a change is to be taken back
        (Told::Unfinished, Err(ReportError::Unfinished | ReportError::Another)) => Ok(true),
        (Told::Unopened(told), Err(ReportError::Unopened(unopened))) => Ok(told == unopened),
        (Told::Fault(told), Err(ReportError::Stopped(fault))) => {
            let text = format!(in alloc; "{fault}")?;
            Ok(text.as_str() == told)
        }
        _ => Ok(false),
    }
}

/// The fault of a call that fails, behind as many bytes that were written.
fn fault_of(alloc: Global, cause: Cause, written: usize) -> Result<String, Wrong> {
    match cause {
        Cause::World | Cause::Dropping => Ok(String::new(alloc)),
        Cause::Device | Cause::Emptying => Ok(String::from_str(alloc, "device failed")?),
        Cause::Input => Ok(String::from_str(alloc, "read failed")?),
        Cause::Output => Ok(format!(in alloc; "write failed after {written} bytes")?),
    }
}

/// Whether it ended so for a call that failed. What the system refused has written nothing.
fn is_due(
    alloc: Global,
    world: &MemoryWorld,
    cause: Cause,
    outcome: Outcome,
    output: &[u8],
) -> Result<bool, Wrong> {
    match outcome {
        Ok(_) | Err(ReportError::Unfinished | ReportError::Another) => Ok(false),
        Err(ReportError::Unopened(unopened)) => {
            let is_refused = unopened.why == OpenFailure::System(Refusal::Other(None));
            Ok(is_refused && world.was_refused() && output.is_empty())
        }
        Err(ReportError::Stopped(Fault::Session(SessionFault::Interrupted))) => {
            Ok(cause == Cause::Emptying)
        }
        // of forgetting: a note that can't be read is a device that failed
        Err(ReportError::Stopped(Fault::Session(SessionFault::DeviceFailed)))
            if cause == Cause::Dropping => { Ok(output.is_empty()) }
        Err(ReportError::Stopped(fault)) => {
            let text = format!(in alloc; "{fault}")?;
            Ok(text == fault_of(alloc, cause, output.len())?)
        }
    }
}

/// It ended as the case tells, with its whole text, or for a call that failed, with a front of it. Tells whether no call failed.
pub fn judge(
    alloc: Global,
    world: &MemoryWorld,
    told: Told<'_>,
    cause: Cause,
    outcome: Outcome,
    output: &[u8],
) -> Result<bool, Wrong> {
    let is_told = is_told(alloc, told, outcome)?;
    let is_right = if is_told {
        !world.was_refused() || (cause == Cause::Dropping && outcome.is_ok())
    } else {
        is_due(alloc, world, cause, outcome, output)?
    };
    if !is_right {
        return Err(Wrong::Outcome);
    }
    let is_written = if is_told {
        output == told.text()
    } else {
        told.text().starts_with(output)
    };
    if !is_written {
        return Err(Wrong::Streams);
    }
    Ok(is_told && !world.was_refused())
}
