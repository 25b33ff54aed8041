//! What a dump makes of nothing, as a stream.
use crate::progress::progress_of_reading;
use crate::streams::input::{Placed, whole};
use bx_cli::{LayJob, run_lay};
use bx_hints::{Remarks, Stopped};
use bx_system::{Counted, Noted, Progress, System};
use std::alloc::Global;
use std::io::Write;

/// Writes what the dump of a job makes of nothing, as it is read.
pub fn lay<'a, R: System, W: Write>(
    rt: &R,
    job: &'a LayJob,
    out: &mut W,
    remarks: &Remarks,
) -> Result<(), Stopped<'a>> {
    let input = whole(rt, &job.dump)?;
    let progress = progress_of_reading(rt, remarks, &job.dump, input.left);
    let laid = lay_input(rt.alloc(), job, input, out, &progress);
    progress.end();
    laid
}

/// Writes what the dump makes of nothing that an input gives.
fn lay_input<'a, R: System, W: Write>(
    alloc: Global,
    job: &LayJob,
    input: Placed<'a, R>,
    out: &mut W,
    progress: &Progress<'_, R>,
) -> Result<(), Stopped<'a>> {
    let expected = input.left.unwrap_or(0);
    let name = input.name;
    let mut reader = Noted::new(input.reader);
    let counted = Counted::new(&mut reader, progress);
    match run_lay(alloc, job, counted, out, expected) {
        Ok(_) => Ok(()),
        Err(fault) => Err(Stopped::from(fault).on_input(name, reader.error)),
    }
}
