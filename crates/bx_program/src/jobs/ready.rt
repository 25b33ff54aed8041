//! An input of dd that is made ready for an image.
ghost use Rattle.bx_cli_commands.specs.jobs.Passing.{CanPass, plan_skip};

use crate::files::look::{device_length, is_device};
use crate::streams::fitting::Fitting;
use crate::streams::input::{Placed, Reader};
use crate::streams::part::Part;
use bx_cli::{DdImageJob, Fault, plan_rest};
use bx_dd::{Counts, Plan};
use bx_hints::Stopped;
use bx_run::ReadEdit;
use bx_system::{Noted, Progress, System};
use std::alloc::Global;

/// How many bytes dd reads at most behind those that it skips; none where its operands don't tell.
pub fn most_of_dd(plan: &Plan) -> Option<u64> {
    plan.count.map(|count| count.saturating_mul(plan.ibs))
}

/// The plan for what stands behind passed bytes. On a block device, whose length stays, it has `conv=notrunc`, as the real dd
/// takes it.
pub fn plan_behind<R: System>(rt: &R, job: &DdImageJob, passed: u64) -> Plan
    requires { CanPass passed (plan_skip job.now.plan) }
{
    let mut rest = plan_rest(&job.plan, passed);
    rest.notrunc = rest.notrunc || is_device(rt, job.target.image.as_str());
    rest
}

/// An input whose bytes are counted. For a block device no more is read than shows that it doesn't fit.
#[derive(Drop)]
pub struct Ready<'a, I> {
    /// What gives its bytes.
    pub reader: Fitting<Noted<I>>,
    // what is said of it: its name, or what stands for one
    name: &'a str,
}

impl<'a, 'p, 'r, R: System> Ready<'a, Part<'p, 'r, Reader<R::Reader>, R>> {
    /// The input for the image of this job.
    pub fn new(
        rt: &R,
        job: &DdImageJob,
        input: Placed<'a, R>,
        progress: &'p Progress<'r, R>,
    ) -> Self {
        let length = device_length(rt, job.target.image.as_str());
        let total = input.most(most_of_dd(&job.plan));
        let (name, passed) = (input.name, input.passed);
        let counted = Noted::new(Part::new(input.reader, total, progress));
        Ready {
            reader: Fitting::new(counted, &job.plan, passed, length),
            name,
        }
    }

    /// What the plan makes of this input, which is read whole, and its counts. With `no_grow` it isn't to make the image longer.
    pub fn made(
        &mut self,
        alloc: Global,
        plan: &Plan,
        no_grow: bool,
    ) -> Result<(ReadEdit, Counts), Stopped<'a>> {
        match ReadEdit::of_copy(alloc, plan, &mut self.reader, no_grow) {
            Ok(made) => Ok(made),
            Err(fault) => Err(self.stopped(Stopped::from(Fault::from(fault)))),
        }
    }

    /// What stopped the job, with what this input has to do with it.
    pub fn stopped(&self, stopped: Stopped<'a>) -> Stopped<'a> {
        if self.reader.is_full() {
            stopped.on_more_input()
        } else {
            stopped.on_input(self.name, self.reader.input.error)
        }
    }
}
