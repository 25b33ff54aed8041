//! The jobs, and one run of the program.
mod copies;
mod diff;
mod ends;
mod kept;
mod lay;
mod looks;
mod patch;
mod previews;
mod ready;
mod several;
mod single;
mod states;
mod steps;

use crate::faults::show_fault;
use crate::history::forget::forget;
use crate::history::told::look_for_others;
use crate::jobs::copies::{copy_onto, tell};
use crate::jobs::ends::{back_of, dump_end};
use crate::jobs::kept::{Manner, put_change};
use crate::jobs::lay::lay;
use crate::jobs::looks::look;
use crate::jobs::previews::{preview_copy, preview_read};
use crate::jobs::several::{More, dump_as_one, dump_each, more_of};
use crate::jobs::single::{dump_named, dump_standard};
use crate::jobs::states::{look_at_change, look_before, tell_behind};
use crate::jobs::steps::take_steps;
use crate::progress::{progress_of_input, progress_of_reading};
use crate::streams::closed::Held;
use crate::streams::input::{MOST_INPUT, Placed, whole};
use bx_cli::{ChangeJob, DumpJob, Fault, Job, RevertJob, plan_words};
use bx_dd::Counts;
use bx_hints::{
    Audience, Remarks, STANDARD_INPUT, Seen, Stopped, Terminals, Watched, asks_for_hints,
};
use bx_journal::Direction;
use bx_run::ReadEdit;
use bx_system::{Counted, Noted, Progress, System, Tally};
use bx_text::{IoFault, Source, Words, emit};
use std::alloc::Global;
use std::env;
use std::io::{self, Read, Write};
use std::rt::Env;

const NOT_UTF_8: &str = "a word is not UTF-8; a file of such a name can be given by a link to it";

/// Does what the words of the command line ask for, and writes the text of the fault that stopped it, with a hint behind it
/// where a person looks at standard error, or the first word asks for hints. A standard stream that is closed keeps its number to the end, so that no file gets
/// it.
pub fn run<R: System + Env>(rt: &R, terminals: Terminals) -> Result<(), Fault> {
    let mut words = Words::new(rt.alloc());
    let mut audience = Audience::new(terminals);
    match Held::new(rt) {
        // Held to the end: a file that is opened takes the least number that is free.
        Ok(_held) => run_words(rt, &mut audience, &mut words),
        Err(fault) => Err(show_fault(rt, audience.hints, &words, None, Stopped::from(fault))),
    }
}

/// Does what the words ask for, which are read first.
fn run_words<R: System + Env>(
    rt: &R,
    audience: &mut Audience,
    words: &mut Words,
) -> Result<(), Fault> {
    let job = match planned(rt, audience, words) {
        Ok(job) => job,
        Err(stopped) => return Err(show_fault(rt, audience.hints, words, None, stopped)),
    };
    match perform_for(rt, *audience, &job) {
        Ok(()) => Ok(()),
        Err(stopped) => Err(show_fault(rt, audience.hints, words, Some(&job), stopped)),
    }
}

/// What stopped the reading of the words. One that isn't UTF-8 is a wrong argument.
fn unread(error: io::Error) -> Stopped<'static> {
    match error.kind() {
        io::ErrorKind::OutOfMemory => Stopped::from(Fault::Io(IoFault::NoMemory)),
        _ => Stopped::by_words(NOT_UTF_8),
    }
}

/// The job that the words behind the program's name ask for, which are read. A first one that asks for hints is none of the command's.
fn planned<R: System + Env>(
    rt: &R,
    audience: &mut Audience,
    words: &mut Words,
) -> Result<Job, Stopped<'static>> {
    let args = env::args(rt).map_err(unread)?;
    for (place, arg) in args.skip(1).enumerate() {
        if place == 0 && asks_for_hints(arg.as_str()) {
            audience.hints = true;
        } else if words.push(arg.as_str()).is_err() {
            return Err(Stopped::from(Fault::Io(IoFault::NoMemory)));
        }
    }
    Ok(plan_words(rt.alloc(), words)?)
}

/// Runs a job and writes what it shows, and then the hints on what was done, where they are written.
fn perform_for<'a, R: System>(rt: &R, audience: Audience, job: &'a Job) -> Result<(), Stopped<'a>> {
    let mut remarks = Remarks::new(audience);
    look_before(rt, job, &mut remarks);
    perform_seen(rt, job, &mut remarks)?;
    tell_behind(rt, job, &mut remarks);
    Ok(())
}

/// Runs a job, and writes what it shows.
pub fn perform<'a, R: System>(rt: &R, job: &'a Job) -> Result<(), Stopped<'a>> {
    let terminals = Terminals {
        input: false,
        output: false,
        errors: false,
    };
    perform_seen(rt, job, &mut Remarks::new(Audience::new(terminals)))
}

/// Runs a job, and writes what it shows; `remarks` see it.
fn perform_seen<'a, R: System>(
    rt: &R,
    job: &'a Job,
    remarks: &mut Remarks,
) -> Result<(), Stopped<'a>> {
    let mut out = Tally::new(io::writer(rt));
    let counts = match run_job(rt, job, &mut out, remarks) {
        Ok(counts) => counts,
        Err(stopped) => return Err(stopped.on_output(out.error)),
    };
    if out.flush().is_err() {
        let written = out.written;
        let fault = Fault::Io(IoFault::WriteFailed { written });
        return Err(Stopped::from(fault).on_output(out.error));
    }
    if let Some(counts) = counts {
        tell(rt, &counts, out.written)?;
    }
    Ok(())
}

/// Runs a job, and answers what dd counted, unless that is reported.
fn run_job<'a, R: System, W: Write>(
    rt: &R,
    job: &'a Job,
    out: &mut W,
    remarks: &mut Remarks,
) -> Result<Option<Counts>, Stopped<'a>> {
    match job {
        Job::Dump(job) => return dump(rt, job, out, remarks),
        Job::Change(job) => return change(rt, job, out, remarks),
        Job::Lay(job) => lay(rt, job, out, remarks)?,
        Job::Look(job) => look(rt, job, out, remarks)?,
        Job::Diff(job) => diff::diff(rt, job, out, remarks)?,
        Job::Help { text } => emit(out, text.as_str().as_bytes()).map_err(Fault::Io)?,
    }
    Ok(None)
}

/// Runs a job that changes an image, and answers what dd counted, unless that is reported.
fn change<'a, R: System, W: Write>(
    rt: &R,
    job: &'a ChangeJob,
    out: &mut W,
    remarks: &mut Remarks,
) -> Result<Option<Counts>, Stopped<'a>> {
    match job {
        ChangeJob::Dd(job) if job.dry_run => return preview_copy(rt, job, remarks, out),
        ChangeJob::Dd(job) => copy_onto(rt, job, remarks)?,
        ChangeJob::Revert(job) => revert(rt, job, out, remarks)?,
        ChangeJob::Patch(job) => patch::patch(rt, job, out, remarks)?,
        ChangeJob::Forget(job) => forget(rt, &job.target, remarks)?,
        ChangeJob::Undo(job) => take_steps(rt, Direction::Undo, job, remarks)?,
        ChangeJob::Redo(job) => take_steps(rt, Direction::Redo, job, remarks)?,
    }
    Ok(None)
}

/// Puts the bytes of a dump onto the image: the whole dump is read first.
fn revert<'a, R: System, W: Write>(
    rt: &R,
    job: &'a RevertJob,
    out: &mut W,
    remarks: &mut Remarks,
) -> Result<(), Stopped<'a>> {
    let mut seen = remarks.seen_of(rt.alloc(), job.plain);
    let edit = dump_of(rt, job, &mut seen, remarks)?;
    let has_returns = seen.has_returns;
    remarks.look_at_dump(seen);
    match put_dump(rt, job, edit, out, remarks) {
        Err(stopped) if has_returns => Err(stopped.on_returns(dump_name(job))),
        outcome => outcome,
    }
}

/// What is said of the dump in place of its name where it has none.
fn dump_name(job: &RevertJob) -> &str {
    match &job.dump {
        Some(name) => name.as_str(),
        None => STANDARD_INPUT,
    }
}

/// What the dump asks that a job reads; `seen` sees it.
fn dump_of<'a, R: System>(
    rt: &R,
    job: &'a RevertJob,
    seen: &mut Seen,
    remarks: &Remarks,
) -> Result<ReadEdit, Stopped<'a>> {
    let input = whole(rt, &job.dump)?;
    let progress = progress_of_reading(rt, remarks, &job.dump, input.left);
    let edit = edit_of(rt.alloc(), job, input, seen, &progress);
    progress.end();
    edit
}

/// What the dump asks that an input gives.
fn edit_of<'a, R: System>(
    alloc: Global,
    job: &RevertJob,
    input: Placed<'a, R>,
    seen: &mut Seen,
    progress: &Progress<'_, R>,
) -> Result<ReadEdit, Stopped<'a>> {
    let expected = input.left.unwrap_or(0);
    let name = input.name;
    let mut reader = Noted::new(input.reader);
    match edit_by(alloc, job, &mut reader, expected, seen, progress) {
        Ok(edit) => Ok(edit),
        Err(fault) => Err(Stopped::from(fault).on_input(name, reader.error)),
    }
}

/// What the dump asks that a reader gives, of `expected` bytes where that is known.
fn edit_by<R: System, I: Read + Drop>(
    alloc: Global,
    job: &RevertJob,
    reader: I,
    expected: u64,
    seen: &mut Seen,
    progress: &Progress<'_, R>,
) -> Result<ReadEdit, Fault> {
    let watched = Watched::new(Counted::new(reader, progress), seen);
    let mut source = Source::new(watched, MOST_INPUT);
    ReadEdit::of_dump(alloc, job, &mut source, expected)
}

/// Makes the change of a dump that was read on the job's image, or writes the patch that it would be.
fn put_dump<'a, R: System, W: Write>(
    rt: &R,
    job: &'a RevertJob,
    edit: ReadEdit,
    out: &mut W,
    remarks: &mut Remarks,
) -> Result<(), Stopped<'a>> {
    let progress = progress_of_input(rt, remarks);
    if job.dry_run {
        return preview_read(rt, &job.target, edit, &progress, out);
    }
    look_for_others(rt, &job.target, job.fresh, remarks);
    let manner = Manner {
        fresh: job.fresh,
        no_grow: job.no_grow,
    };
    if let Some(change) = edit.change() {
        look_at_change(rt, &job.target, change, remarks);
    }
    put_change(rt, &job.target, manner, edit, &progress, remarks)?;
    Ok(())
}

/// Dumps or copies each FILE, or standard input where there is none, and answers what dd counted.
fn dump<'a, R: System, W: Write>(
    rt: &R,
    job: &'a DumpJob,
    out: &mut W,
    remarks: &Remarks,
) -> Result<Option<Counts>, Stopped<'a>> {
    match more_of(job) {
        More::Alone => return dump_alone(rt, job, out, remarks),
        More::AsOne(more) => dump_as_one(rt, job, more, out, remarks)?,
        More::Each(more) => dump_each(rt, job, more, out, remarks)?,
    }
    Ok(None)
}

/// Dumps or copies the only file of a job, or standard input, and answers what dd counted.
fn dump_alone<'a, R: System, W: Write>(
    rt: &R,
    job: &'a DumpJob,
    out: &mut W,
    remarks: &Remarks,
) -> Result<Option<Counts>, Stopped<'a>> {
    let done = match (job.input(), back_of(job)) {
        (name, Some((xxd, back))) => dump_end(rt, xxd, back, name, out, remarks)?,
        (Some(name), None) => dump_named(rt, job, name.as_str(), out, remarks)?,
        (None, None) => dump_standard(rt, job, out, remarks)?,
    };
    match done.counts {
        Some(counts) if !is_quiet(job) => Ok(Some(counts)),
        Some(_) | None => Ok(None),
    }
}

/// Whether a job asks for no report.
fn is_quiet(job: &DumpJob) -> bool {
    match job {
        DumpJob::Dd(job) => job.plan.quiet,
        DumpJob::Od(_) | DumpJob::Xxd(_) | DumpJob::Hexdump(_) | DumpJob::Strings(_) => false,
    }
}
