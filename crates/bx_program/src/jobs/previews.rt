//! What a change would be: the image is only read, and the patch of the change is written.
ghost use Rattle.std.specs.Prelude.{◌≡◌};
ghost use Rattle.bx_cli_commands.specs.jobs.Passing.{CanPass, plan_skip};

use crate::devices::agreement::missing;
use crate::devices::left::stopped;
use crate::files::look::is_missing;
use crate::files::names::world_of;
use crate::files::unopened::not_opened_alone;
use crate::jobs::ready::{Ready, plan_behind};
use crate::progress::progress_of_reading;
use crate::streams::input::{Placed, behind_skip};
use bx_cli::{DdImageJob, Fault, Target};
use bx_dd::Counts;
use bx_hints::{Remarks, Stopped};
use bx_run::{Cause, Edit, Failure, ReadEdit, Request, Stop, run_request};
use bx_system::{Progress, System, SystemWorld};
use std::io::{Empty, Read, Write};

/// What stopped the patch of what is asked of an image. One that is missing has no byte.
fn cut_off<'a, R: System>(
    rt: &R,
    target: &'a Target,
    world: &SystemWorld<'_, '_, R>,
    failure: Failure,
) -> Stopped<'a>
    ensures { result.fault ≡ failure.fault }
{
    let name = target.image.as_str();
    let by = match (failure.stop, failure.fault) {
        (
            Some(
                Stop {
                    cause: Cause::Unopened(why),
                    ..
                },
            ),
            _,
        ) => return not_opened_alone(name, why).with(failure.fault),
        (None, Fault::Disagrees(other)) if is_missing(rt, name) => missing(name, other),
        (_, _) => return stopped(rt, target, world, failure),
    };
    Stopped {
        fault: failure.fault,
        ..by
    }
}

/// Writes the patch of what is asked of an image, and answers what dd counted.
fn preview<'a, R: System, I: Read + Drop, W: Write>(
    rt: &R,
    target: &'a Target,
    edit: Edit<I>,
    progress: &Progress<'_, R>,
    out: &mut W,
) -> Result<Option<Counts>, Stopped<'a>> {
    let name = target.image.as_str();
    let mut world = world_of(rt, target, progress)?;
    let request = Request::Preview { name, edit };
    match run_request(&mut world, rt.alloc(), request, out) {
        Ok(done) => Ok(done.counts),
        Err(failure) => Err(cut_off(rt, target, &world, failure)),
    }
}

/// Writes the patch that what was read would be, or refuses it for its text's fault; with a patch the image has to agree.
pub fn preview_read<'a, R: System, W: Write>(
    rt: &R,
    target: &'a Target,
    edit: ReadEdit,
    progress: &Progress<'_, R>,
    out: &mut W,
) -> Result<(), Stopped<'a>> {
    let edit: Edit<Empty> = Edit::Read(edit);
    preview(rt, target, edit, progress, out)?;
    Ok(())
}

/// Writes the patch that dd's copy onto an image would be, and answers the counts, unless no report is asked for.
pub fn preview_copy<'a, R: System, W: Write>(
    rt: &R,
    job: &'a DdImageJob,
    remarks: &Remarks,
    out: &mut W,
) -> Result<Option<Counts>, Stopped<'a>> {
    let progress = progress_of_reading(rt, remarks, &job.plan.input, None);
    let input = behind_skip(rt, job.skip(), &job.plan.input)?;
    preview_from(rt, job, input, &progress, out)
}

/// The same of an input that is open.
fn preview_from<'a, R: System, W: Write>(
    rt: &R,
    job: &'a DdImageJob,
    input: Placed<'a, R>,
    progress: &Progress<'_, R>,
    out: &mut W,
) -> Result<Option<Counts>, Stopped<'a>>
    requires { CanPass input.passed (plan_skip job.now.plan) }
{
    let plan = plan_behind(rt, job, input.passed);
    let mut ready = Ready::new(rt, job, input, progress);
    if job.no_grow {
        let (edit, counts) = ready.made(rt.alloc(), &plan, job.no_grow)?;
        return match preview_read(rt, &job.target, edit, progress, out) {
            Ok(()) if job.plan.quiet => Ok(None),
            Ok(()) => Ok(Some(counts)),
            Err(stopped) => Err(ready.stopped(stopped)),
        };
    }
    let edit = Edit::Copy {
        plan,
        input: &mut ready.reader,
    };
    match preview(rt, &job.target, edit, progress, out) {
        Ok(_) if job.plan.quiet => Ok(None),
        Ok(counts) => Ok(counts),
        Err(stopped) => Err(ready.stopped(stopped)),
    }
}
