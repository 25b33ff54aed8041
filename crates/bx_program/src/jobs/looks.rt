//! The jobs that show the changes of an image. Its files are only read; for a log, what is unfinished is recovered before.
use crate::advice::{ANOTHER, Advice, put_other};
use crate::devices::left::{is_unfinished, stopped};
use crate::files::look::refuse_without_journal;
use crate::files::names::{names_of, world_of};
use crate::history::recover_image;
use crate::progress::progress_of_input;
use crate::streams::paged::Paged;
use bx_cli::{Fault, LogJob, LookJob, ShowJob, Target};
use bx_hints::{Remarks, Stopped};
use bx_journal::{Direction, SessionFault, Steps};
use bx_run::{Done, Failure, Report, Request, run_request};
use bx_system::{Progress, System, SystemWorld};
use bx_text::IoFault;
use bx_world::Names;
use std::io::{Empty, Write};

/// Shows the changes of an image.
pub fn look<'a, R: System, W: Write>(
    rt: &R,
    job: &'a LookJob,
    out: &mut W,
    remarks: &Remarks,
) -> Result<(), Stopped<'a>> {
    let progress = progress_of_input(rt, remarks);
    match job {
        LookJob::Log(job) => show_log(rt, job, &progress, out),
        LookJob::Show(job) => show_next(rt, job, &progress, out),
    }
}

/// Shows the changes that stand, a line each; what is unfinished is recovered before, where the note says that it was begun on this
/// image, or it goes on anyway. Else that is said, and no file is written.
fn show_log<'a, R: System, W: Write>(
    rt: &R,
    job: &'a LogJob,
    progress: &Progress<'_, R>,
    out: &mut W,
) -> Result<(), Stopped<'a>> {
    let target = &job.target;
    refuse_without_journal(rt, target)?;
    let advice = if job.verbose {
        Advice::of(rt, target)
    } else {
        Advice::Nothing
    };
    let names = names_of(rt.alloc(), target)?;
    let mut world = world_of(rt, target, progress)?;
    let mut page = Paged::new(rt.alloc(), out);
    advice.put_in_log(rt.alloc(), &mut page).map_err(Fault::Io)?;
    let asked = if job.verbose {
        Report::LogWithRanges
    } else {
        Report::Log
    };
    let mut answer = report(rt, &mut world, &names, asked, &mut page);
    if answer.is_err_and(is_unfinished) {
        let report = match recover_image(rt, target, target.access.anyway, progress) {
            Ok(()) => asked,
            Err(stopped) if stopped.fault == Fault::ChangedSince => {
                page.put_behind_line(another_line(rt, target));
                Report::LogUnfinished {
                    verbose: job.verbose,
                }
            }
            Err(stopped) => return Err(stopped),
        };
        answer = self::report(rt, &mut world, &names, report, &mut page);
    }
    match answer {
        Ok(_) => Ok(page.put()?),
        Err(failure) => Err(cut_off(rt, target, &world, failure, page.stopped)),
    }
}

/// Writes a report on a page.
fn report<R: System, W: Write>(
    rt: &R,
    world: &mut SystemWorld<'_, '_, R>,
    names: &Names,
    report: Report,
    page: &mut Paged<'_, W>,
) -> Result<Done, Failure> {
    let request: Request<'_, Empty> = Request::Look { names, report };
    run_request(world, rt.alloc(), request, page)
}

/// What stopped a report; or what stopped the page that it is written on, which the call knows as an output alone.
fn cut_off<'a, R: System>(
    rt: &R,
    target: &'a Target,
    world: &SystemWorld<'_, '_, R>,
    failure: Failure,
    unwritten: Option<IoFault>,
) -> Stopped<'a> {
    match unwritten {
        Some(unwritten) if failure.stop.is_none() => Stopped::from(Fault::Io(unwritten)),
        Some(_) | None => stopped(rt, target, world, failure),
    }
}

/// What stands behind the line on what is unfinished: that the image isn't the one that it was begun on, where it isn't. The line
/// then doesn't say what the next command does with it, as that is nothing.
fn another_line<R: System>(rt: &R, target: &Target) -> &'static str {
    if Advice::of(rt, target).is_another() == Some(true) {
        ANOTHER
    } else {
        ""
    }
}

/// Shows what an undo or a redo would do, as lines or as one patch.
fn show_next<'a, R: System, W: Write>(
    rt: &R,
    job: &'a ShowJob,
    progress: &Progress<'_, R>,
    out: &mut W,
) -> Result<(), Stopped<'a>> {
    let target = &job.target;
    refuse_without_journal(rt, target)?;
    let is_other = Advice::of(rt, target).is_shown(job.way, job.count);
    let mut page = Paged::new(rt.alloc(), out);
    put_other(is_other, &mut page).map_err(Fault::Io)?;
    let names = names_of(rt.alloc(), target)?;
    let mut world = world_of(rt, target, progress)?;
    let asked = asked_of(job);
    match report(rt, &mut world, &names, asked, &mut page) {
        Ok(_) => Ok(page.put()?),
        Err(failure) if !job.as_patch && is_unfinished(failure) => {
            show_begun(rt, job, &names, &mut world, page)
        }
        Err(failure) => Err(cut_off(rt, target, &world, failure, page.stopped)),
    }
}

/// The report that a job asks for. No patch leads from an image whose change is unfinished.
fn asked_of(job: &ShowJob) -> Report {
    if job.as_patch {
        return Report::Patch {
            way: job.way,
            count: job.count,
        };
    }
    Report::Show(steps_of(job))
}

/// The steps that a job asks for, whatever changes stand.
fn steps_of(job: &ShowJob) -> Steps {
    Steps {
        way: job.way,
        count: job.count,
        changes: 0,
        compares: job.compares,
    }
}

/// Shows that something is unfinished, and what an undo would do once it is recovered. Nothing can be made again then. The line
/// on it is written also where fewer changes stand than are to be shown.
fn show_begun<'a, R: System, W: Write>(
    rt: &R,
    job: &'a ShowJob,
    names: &Names,
    world: &mut SystemWorld<'_, '_, R>,
    page: Paged<'_, W>,
) -> Result<(), Stopped<'a>> {
    let mut page = page;
    page.put_behind_line(another_line(rt, &job.target));
    let steps = steps_of(job);
    let mut outcome = if steps.way == Direction::Redo && steps.count > 0 {
        let fault = SessionFault::NothingToRedo { have: 0 };
        Err(Stopped::from(Fault::Session(fault)))
    } else {
        report_begun(rt, job, names, world, steps, &mut page)
    };
    if are_too_few(&outcome) {
        page.put_behind_line(another_line(rt, &job.target));
        let none = Steps { count: 0, ..steps };
        if let Err(stopped) = report_begun(rt, job, names, world, none, &mut page) {
            outcome = Err(stopped);
        }
    }
    if outcome.is_ok() || are_too_few(&outcome) {
        page.put()?;
    }
    match outcome {
        Ok(()) => Ok(()),
        Err(stopped) => Err(stopped.on_begun(job.target.image.as_str())),
    }
}

/// Writes on a page that something is unfinished, and what undos would do once it is recovered.
fn report_begun<'a, R: System, W: Write>(
    rt: &R,
    job: &'a ShowJob,
    names: &Names,
    world: &mut SystemWorld<'_, '_, R>,
    steps: Steps,
    page: &mut Paged<'_, W>,
) -> Result<(), Stopped<'a>> {
    match report(rt, world, names, Report::ShowUnfinished(steps), page) {
        Ok(_) => Ok(()),
        Err(failure) => Err(cut_off(rt, &job.target, world, failure, page.stopped)),
    }
}

/// Whether fewer changes stand than are to be shown.
fn are_too_few(outcome: &Result<(), Stopped<'_>>) -> bool {
    match outcome {
        Ok(()) => false,
        Err(stopped) => matches!(
            stopped.fault,
            Fault::Session(SessionFault::TooFew { .. } | SessionFault::NothingToRedo { .. })
        ),
    }
}
