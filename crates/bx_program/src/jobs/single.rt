//! A dump of one file, or of standard input.
ghost use Rattle.std.specs.Prelude.{◌≡◌};

use crate::files::unopened::number_of;
use crate::jobs::ready::most_of_dd;
use crate::progress::{progress_of_dump, progress_of_dumped};
use bx_cli::DumpJob;
use bx_hints::{Remarks, STANDARD_INPUT, Stopped};
use bx_run::{Cause, Done, Failure, Request, run_request};
use bx_system::{Counted, Noted, System, SystemWorld};
use bx_world::OpenFailure;
use std::io::{Empty, Read, Write};

/// Dumps or copies a file by its name.
pub fn dump_named<'a, R: System, W: Write>(
    rt: &R,
    job: &DumpJob,
    name: &'a str,
    out: &mut W,
    remarks: &Remarks,
) -> Result<Done, Stopped<'a>> {
    let progress = progress_of_dump(rt, remarks);
    let mut world = SystemWorld::reading(rt, &progress, most_of(job));
    let request: Request<'_, Empty> = Request::Dump { job, name };
    match run_request(&mut world, rt.alloc(), request, out) {
        Ok(done) => Ok(done),
        Err(failure) => Err(cut_off(name, world.unread, failure)),
    }
}

/// What stopped a dump of this file, whose reading was refused with the system's number.
pub fn cut_off(name: &str, unread: Option<i32>, failure: Failure) -> Stopped<'_>
    ensures { result.fault ≡ failure.fault }
{
    let fault = failure.fault;
    let by = match failure.stop.map(|stop| stop.cause) {
        Some(Cause::Unopened(OpenFailure::System(refusal)) | Cause::Unplaced(refusal)) => {
            Stopped::by(fault, name, number_of(refusal))
        }
        Some(_) | None => Stopped::from(fault).on_input(name, unread),
    };
    Stopped { fault, ..by }
}

/// Dumps or copies standard input, which has no seek: what is skipped is read.
pub fn dump_standard<R: System, W: Write>(
    rt: &R,
    job: &DumpJob,
    out: &mut W,
    remarks: &Remarks,
) -> Result<Done, Stopped<'static>> {
    let mut reader = Noted::new(rt.reader());
    match dump_input(rt, job, &mut reader, out, remarks) {
        Ok(done) => Ok(done),
        Err(failure) => Err(cut_off(STANDARD_INPUT, reader.error, failure)),
    }
}

/// Dumps or copies what an input gives.
pub fn dump_input<R: System, I: Read + Drop, W: Write>(
    rt: &R,
    job: &DumpJob,
    input: I,
    out: &mut W,
    remarks: &Remarks,
) -> Result<Done, Failure> {
    let progress = progress_of_dumped(rt, remarks, most_of(job));
    let mut world = SystemWorld::new(rt, &progress, false);
    let request = Request::DumpInput {
        job,
        input: Counted::new(input, &progress),
    };
    let answer = run_request(&mut world, rt.alloc(), request, out);
    progress.end();
    answer
}

/// How many bytes a job reads at most behind those that it skips; none where its options don't tell.
pub fn most_of(job: &DumpJob) -> Option<u64> {
    match job {
        DumpJob::Od(job) => job.options.limit,
        DumpJob::Xxd(job) => job.options.limit,
        DumpJob::Hexdump(job) => job.options.limit,
        DumpJob::Strings(_) => None,
        DumpJob::Dd(job) => most_of_dd(&job.plan),
    }
}
