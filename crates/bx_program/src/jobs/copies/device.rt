//! dd onto a character device, which keeps nothing that an undo could restore: its output goes there as to standard output.
use crate::jobs::ready::most_of_dd;
use crate::streams::input::behind_skip;
use crate::streams::part::Part;
use bx_cli::{DdImageJob, Fault, plan_rest};
use bx_dd::{Counts, copy_out};
use bx_hints::{Stopped, is_named};
use bx_system::{Noted, Progress, System, Tally};
use bx_text::IoFault;
use std::fs::{self, File};
use std::os::unix::fs::FileTypeExt;

/// What is said of a device where the plan seeks.
const NO_PLACE: &str = "a character device is written in order, and has no place to seek to";

/// What is said of a file that has taken a device's place.
const NO_DEVICE: &str = "it was a character device, and is none any longer";

/// Whether the output goes to a character device as it is made. A job that asks for a history, or for the patch of a change, is
/// refused there, as on any file that can't be an image.
pub fn goes_to_device<R: System>(rt: &R, job: &DdImageJob) -> bool {
    let name = job.target.image.as_str();
    let asks_for_image = job.dry_run || job.fresh || job.no_grow || is_named(&job.target);
    !asks_for_image && is_character_device(rt, name)
}

/// Whether a character device has this name, behind whatever links lead to it.
fn is_character_device<R: System>(rt: &R, name: &str) -> bool {
    fs::metadata(rt, name).is_ok_and(|found| found.file_type().is_char_device())
}

/// Writes what the plan makes of the input to the device as it is read, and answers the counts. The input is opened first.
pub fn copy_to_device<'a, R: System>(
    rt: &R,
    job: &'a DdImageJob,
    progress: &Progress<'_, R>,
) -> Result<Counts, Stopped<'a>> {
    let input = behind_skip(rt, job.skip(), &job.plan.input)?;
    let device = job.target.image.as_str();
    let mut out = Tally::new(open_device(rt, job)?);
    let total = input.most(most_of_dd(&job.plan));
    let (name, passed) = (input.name, input.passed);
    let mut reader = Noted::new(Part::new(input.reader, total, progress));
    let plan = plan_rest(&job.plan, passed);
    let outcome = copy_out(rt.alloc(), &mut reader, &mut out, &plan);
    progress.end();
    match outcome {
        Ok(counts) => Ok(counts),
        Err(fault @ IoFault::WriteFailed { .. }) => {
            Err(Stopped::by(Fault::Io(fault), device, out.error))
        }
        Err(fault) => Err(Stopped::from(Fault::Io(fault)).on_input(name, reader.error)),
    }
}

/// The device, opened to be written. A plan that seeks is refused before that.
fn open_device<'a, R: System>(rt: &R, job: &'a DdImageJob) -> Result<File, Stopped<'a>> {
    let name = job.target.image.as_str();
    if let Err(fault) = job.plan.for_stream() {
        let fault = Fault::Dd(fault);
        return Err(Stopped {
            fault,
            ..Stopped::refused(name, NO_PLACE)
        });
    }
    let file = match File::options().write(true).open(rt, name) {
        Ok(file) => file,
        Err(error) => return Err(Stopped::unopened(name, error)),
    };
    match file.metadata() {
        Ok(found) if found.file_type().is_char_device() => Ok(file),
        Ok(_) => Err(Stopped::refused(name, NO_DEVICE)),
        Err(error) => Err(Stopped::unopened(name, error)),
    }
}
