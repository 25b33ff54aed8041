//! Dumps of several files: of od and hexdump as one input, of strings one by one.
use crate::faults::show_passed;
use crate::jobs::single::{cut_off, dump_input, dump_named, dump_standard};
use crate::streams::chained::Chained;
use crate::streams::labelled::Labelled;
use bx_cli::{DumpJob, Fault};
use bx_hints::{Reason, Remarks, STANDARD_INPUT, Stopped};
use bx_run::Done;
use bx_system::System;
use bx_text::{IoFault, Words};
use std::io::Write;

/// The files of a job behind its first, and how they are read.
#[derive(Clone, Copy)]
pub enum More<'a> {
    /// There is none.
    Alone,
    /// As one input with the first.
    AsOne(&'a Words),
    /// Each for itself.
    Each(&'a Words),
}

/// The files of a job behind its first.
pub fn more_of(job: &DumpJob) -> More<'_> {
    match job {
        DumpJob::Od(job) if job.more.len() > 0 => More::AsOne(&job.more),
        DumpJob::Hexdump(job) if job.more.len() > 0 => More::AsOne(&job.more),
        DumpJob::Strings(job) if job.named || job.more.len() > 0 => More::Each(&job.more),
        DumpJob::Od(_)
        | DumpJob::Xxd(_)
        | DumpJob::Hexdump(_)
        | DumpJob::Strings(_)
        | DumpJob::Dd(_) => More::Alone,
    }
}

/// What stopped a job where some of its files were left out, which is said by then.
fn missed<'a>() -> Stopped<'a> {
    Stopped {
        fault: Fault::OpenFailed,
        file: None,
        reason: Reason::Silent,
    }
}

/// The names of all files of a job, `-` for standard input.
fn names_of<R: System>(rt: &R, job: &DumpJob, more: &Words) -> Result<Words, Fault> {
    let mut names = Words::new(rt.alloc());
    match job.input() {
        Some(name) => names.push(name.as_str())?,
        None => names.push("-")?,
    }
    for i in 0..more.len() {
        names.push(more.get(i).unwrap_or(""))?;
    }
    Ok(names)
}

/// Dumps the files of a job as one input: what is skipped and how much is dumped counts over all. One that can't be opened or
/// read is said and left out.
///
/// # Errors
/// The dump's fault; where only files were left out `OpenFailed`, and no more is to be said of it. Where none is opened nothing is
/// written.
pub fn dump_as_one<'a, R: System, W: Write>(
    rt: &R,
    job: &'a DumpJob,
    more: &Words,
    out: &mut W,
    remarks: &Remarks,
) -> Result<(), Stopped<'a>> {
    let names = names_of(rt, job, more)?;
    let mut chain = Chained::new(rt, &names, remarks.audience.hints);
    if !chain.advance() {
        return Err(missed());
    }
    match dump_input(rt, job, &mut chain, out, remarks) {
        Ok(_) if chain.missed => Err(missed()),
        Ok(_) => Ok(()),
        Err(failure) => Err(cut_off(STANDARD_INPUT, None, failure)),
    }
}

/// Dumps the files of a job one by one. One that can't be opened or read is said, and the others are dumped.
///
/// # Errors
/// The first fault but those, which ends the dumps; where only files were left out `OpenFailed`, and no more is to be said of it.
pub fn dump_each<'a, R: System, W: Write>(
    rt: &R,
    job: &'a DumpJob,
    more: &'a Words,
    out: &mut W,
    remarks: &Remarks,
) -> Result<(), Stopped<'a>> {
    let first = match job.input() {
        Some(name) => name.as_str(),
        None => "-",
    };
    let mut whole = dump_next(rt, job, first, out, remarks)?;
    for i in 0..more.len() {
        if let Some(name) = more.get(i) {
            let next = dump_next(rt, job, name, out, remarks)?;
            whole = whole && next;
        }
    }
    if whole { Ok(()) } else { Err(missed()) }
}

/// Whether the name of its file stands in front of each line.
fn is_labelled(job: &DumpJob) -> bool {
    match job {
        DumpJob::Strings(job) => job.named,
        DumpJob::Od(_) | DumpJob::Xxd(_) | DumpJob::Hexdump(_) | DumpJob::Dd(_) => false,
    }
}

/// What stands in front of each line of a file, as GNU strings has it.
fn label_of<R: System>(rt: &R, name: &str) -> Result<String, Fault> {
    let name = match name {
        "-" => "{standard input}",
        _ => name,
    };
    Ok(format!(in rt.alloc(); "{name}: ")?)
}

/// Dumps one of several files.
fn dump_one<'a, R: System, W: Write>(
    rt: &R,
    job: &DumpJob,
    name: &'a str,
    out: &mut W,
    remarks: &Remarks,
) -> Result<Done, Stopped<'a>> {
    match name {
        "-" => dump_standard(rt, job, out, remarks),
        _ => dump_named(rt, job, name, out, remarks),
    }
}

/// Dumps one of several files, and answers whether it was opened and read, which is said where it wasn't.
fn dump_next<'a, R: System, W: Write>(
    rt: &R,
    job: &DumpJob,
    name: &'a str,
    out: &mut W,
    remarks: &Remarks,
) -> Result<bool, Stopped<'a>> {
    let outcome = if is_labelled(job) {
        let mut labelled = Labelled::new(rt.alloc(), out, label_of(rt, name)?);
        dump_one(rt, job, name, &mut labelled, remarks)
    } else {
        dump_one(rt, job, name, out, remarks)
    };
    match outcome {
        Ok(_) => Ok(true),
        Err(stopped) => match stopped.fault {
            Fault::OpenFailed | Fault::Io(IoFault::ReadFailed) => {
                show_passed(rt, remarks.audience.hints, stopped);
                Ok(false)
            }
            _ => Err(stopped),
        },
    }
}
