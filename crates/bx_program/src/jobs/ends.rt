//! A dump of the end of a file.
use crate::jobs::single::dump_named;
use crate::streams::input::whole_file;
use bx_cli::{DumpJob, Fault, XxdJob};
use bx_cli_commands::xxd_from_end;
use bx_hints::{Reason, Remarks, STANDARD_INPUT, Stopped};
use bx_run::Done;
use bx_system::System;
use bx_text::{IoFault, Name};
use std::io::Write;

/// What is said of an input that has no end to count from before it is read.
const NO_END: &str =
    "a negative -s counts from the end, which only a file or a block device has that is given by its name";

/// What is said of a file that ends before.
const TOO_FAR: &str = "it has fewer bytes than a negative -s counts from its end";

/// The job of xxd whose place counts from the end, and how many bytes stand behind that place.
pub fn back_of(job: &DumpJob) -> Option<(&XxdJob, u64)> {
    match job {
        DumpJob::Xxd(job) => match job.from_end {
            Some(back) => Some((job, back)),
            None => None,
        },
        DumpJob::Od(_) | DumpJob::Hexdump(_) | DumpJob::Strings(_) | DumpJob::Dd(_) => None,
    }
}

/// What stopped a job whose place isn't in its input.
fn unplaced<'a>(name: &'a str, why: &'static str) -> Stopped<'a> {
    Stopped {
        fault: Fault::Io(IoFault::ReadFailed),
        file: Some(name),
        reason: Reason::Told(why),
    }
}

/// Dumps the last `back` bytes of a file. Its length is asked before, so a file that gets longer meanwhile is dumped from there on.
///
/// # Errors
/// Those of a dump; `ReadFailed` where the file has fewer bytes, or no length, as standard input.
pub fn dump_end<'a, R: System, W: Write>(
    rt: &R,
    job: &XxdJob,
    back: u64,
    name: &'a Option<Name>,
    out: &mut W,
    remarks: &Remarks,
) -> Result<Done, Stopped<'a>> {
    let Some(name) = name else {
        return Err(unplaced(STANDARD_INPUT, NO_END));
    };
    let Some(length) = whole_file(rt, name)?.left else {
        return Err(unplaced(name.as_str(), NO_END));
    };
    match xxd_from_end(rt.alloc(), job, back, length)? {
        Some(job) => dump_named(rt, &DumpJob::Xxd(job), name.as_str(), out, remarks),
        None => Err(unplaced(name.as_str(), TOO_FAR)),
    }
}
