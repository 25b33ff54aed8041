//! The patch from one file to another.
use crate::devices::left::reason_of;
use crate::files::unopened::{Blame, not_opened_alone, number_of};
use crate::progress::progress_of_dump;
use bx_cli::DiffJob;
use bx_hints::{Reason, Remarks, Stopped};
use bx_image::FailedCall;
use bx_patch::Extent;
use bx_run::{Cause, CommandFile, Failure, Request, Stop, run_request};
use bx_system::{System, SystemWorld};
use std::io::{self, Empty, ErrorKind, Write};

/// What stopped a comparison; a device that failed had this call.
fn stopped(job: &DiffJob, call: Option<FailedCall>, failure: Failure) -> Stopped<'_> {
    match failure.stop {
        Some(stop) => blamed(job, call, stop).with(failure.fault),
        None => Stopped::from(failure.fault),
    }
}

/// The file that stopped a comparison.
fn blamed(job: &DiffJob, call: Option<FailedCall>, stop: Stop) -> Blame<'_> {
    let file = if stop.file == CommandFile::New {
        job.new.as_str()
    } else {
        job.old.as_str()
    };
    let reason = match stop.cause {
        Cause::Unopened(why) => return not_opened_alone(file, why),
        Cause::Unplaced(refusal) => return Blame::by(file, number_of(refusal)),
        Cause::Failed => reason_of(call),
        Cause::Outgrown(_) | Cause::Unfinished | Cause::Another => Reason::Unknown,
    };
    Blame { file, reason }
}

/// What a patch is written to: an output, or nothing, which stops at the first line that tells a difference.
#[derive(Drop)]
struct Asked<'o, W> {
    out: &'o mut W,
    is_quiet: bool,
    // whether a byte of a difference came
    is_differing: bool,
}

impl<W: Write> Write for Asked<'_, W> {
    fn write(&mut self, buf: &[u8]) -> io::Result<usize> {
        if !self.is_quiet {
            return self.out.write(buf);
        }
        // The patch of equal files is its last line alone, and any other begins with the line on the lengths.
        if buf.first() == Some(&b'l') {
            self.is_differing = true;
            return Err(io::Error::from(ErrorKind::Other));
        }
        Ok(buf.len())
    }

    fn flush(&mut self) -> io::Result<()> {
        self.out.flush()
    }
}

/// Writes the patch from one file to another, or answers whether they are equal.
pub fn diff<'a, R: System, W: Write>(
    rt: &R,
    job: &'a DiffJob,
    out: &mut W,
    remarks: &Remarks,
) -> Result<(), Stopped<'a>> {
    let progress = progress_of_dump(rt, remarks);
    let mut world = SystemWorld::comparing(rt, &progress);
    let extent = if job.rows {
        Extent::Rows
    } else {
        Extent::Bytes
    };
    let (old, new) = (job.old.as_str(), job.new.as_str());
    let mut asked = Asked {
        out,
        is_quiet: job.quiet,
        is_differing: false,
    };
    let request: Request<'_, Empty> = Request::Diff { old, new, extent };
    let answer = run_request(&mut world, rt.alloc(), request, &mut asked);
    match answer {
        Ok(_) => Ok(()),
        Err(failure) if asked.is_differing => Err(Stopped::differing(failure.fault)),
        Err(failure) => Err(stopped(job, world.left.image.call, failure)),
    }
}
