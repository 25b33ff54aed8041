//! dd onto an image or a device, and its report.
mod device;

use crate::history::told::look_for_others;
use crate::jobs::copies::device::{copy_to_device, goes_to_device};
use crate::jobs::kept::{Manner, put_change};
use crate::jobs::ready::{Ready, most_of_dd, plan_behind};
use crate::jobs::states::tell_before_copy;
use crate::progress::progress_of_reading;
use crate::streams::input::behind_skip;
use bx_cli::{DdImageJob, Fault};
use bx_dd::{Counts, report};
use bx_hints::{Remarks, Stopped};
use bx_system::{Progress, System};
use bx_text::IoFault;

/// Puts what the plan makes of the input onto the image, and tells the counts. The input is read whole before the image is opened: they may
/// be one file. To a character device it goes as it is read.
pub fn copy_onto<'a, R: System>(
    rt: &R,
    job: &'a DdImageJob,
    remarks: &mut Remarks,
) -> Result<(), Stopped<'a>> {
    let progress = progress_of_reading(rt, remarks, &job.plan.input, None);
    let counts = if goes_to_device(rt, job) {
        copy_to_device(rt, job, &progress)?
    } else {
        look_for_others(rt, &job.target, job.fresh, remarks);
        copy_input(rt, job, &progress, remarks)?
    };
    remarks.look_at_counts(&counts);
    if !job.plan.quiet {
        // One that can't be made or written is no fault: what it tells of is done.
        let _ = tell(rt, &counts, 0);
    }
    Ok(())
}

/// Reads the input, puts what the plan makes of it onto the image, and answers the counts. The image is opened once the input is read:
/// so the lengths that the change leaves are known before its first write, and behind a stop an image of another length is refused.
fn copy_input<'a, R: System>(
    rt: &R,
    job: &'a DdImageJob,
    progress: &Progress<'_, R>,
    remarks: &mut Remarks,
) -> Result<Counts, Stopped<'a>> {
    let input = behind_skip(rt, job.skip(), &job.plan.input)?;
    tell_before_copy(rt, job, input.most(most_of_dd(&job.plan)), remarks);
    let plan = plan_behind(rt, job, input.passed);
    let mut ready = Ready::new(rt, job, input, progress);
    let (edit, counts) = ready.made(rt.alloc(), &plan, job.no_grow)?;
    let manner = Manner {
        fresh: job.fresh,
        no_grow: job.no_grow,
    };
    match put_change(rt, &job.target, manner, edit, progress, remarks) {
        Ok(_) => Ok(counts),
        Err(stopped) => Err(ready.stopped(stopped)),
    }
}

/// dd's report, on standard error. `written` bytes went to standard output before, and a write fault tells them: how much of
/// the report went out isn't known.
pub fn tell<R: System>(rt: &R, counts: &Counts, written: u64) -> Result<(), Fault> {
    let text = report(rt.alloc(), counts)?;
    match eprint!(rt; "{}", str::from_utf8(text.as_slice()).unwrap_or("")) {
        Ok(()) => Ok(()),
        Err(_) => Err(Fault::Io(IoFault::WriteFailed { written })),
    }
}
