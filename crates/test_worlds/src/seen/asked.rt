//! What is asked of named files, and of an input.
ghost use Rattle.std.specs.Prelude.{◌≡◌, None};

use crate::answers::which_of;
use crate::changes::{copied, patch_of};
use crate::left::Cause;
use crate::report::Wrong;
use crate::setting::CAREFUL;
use crate::sweeps::Failing;
use bx_cli_commands::{Done, DumpJob, Fault};
use bx_dd::{Plan as DdPlan, parse};
use bx_journal::{Direction, Steps};
use bx_patch::Extent;
use bx_run::{
    Cause as FileCause, Done as Answered, Edit, Failure, Report, ReportError, Request, run_request,
};
use bx_text::{IoFault, Words};
use bx_world::{FileRole, Names, OpenError, OpenFailure, Refusal, World};
use std::alloc::Global;
use std::io::{Empty, Write};
use test_case_files::PatchWritten;
use test_world::{LentInput, MemoryWorld, Plan};

/// What makes the one file of a case of the other.
#[derive(Clone, Copy, Debug, PartialEq, Eq)]
pub enum Proposed {
    /// A change that was read before.
    Read,
    /// The patch.
    Patch,
    /// A copy of all bytes.
    Copy,
}

impl Proposed {
    pub const EACH: [Proposed; 3] = [Proposed::Read, Proposed::Patch, Proposed::Copy];

    /// The command that has it.
    pub fn name(self) -> &'static str {
        match self {
            Proposed::Read => "revert -n",
            Proposed::Patch => "patch -n",
            Proposed::Copy => "dd -n",
        }
    }
}

/// What is asked.
#[derive(Clone, Copy)]
pub enum Asked<'a> {
    /// The changes that stand, a line each.
    Log,
    /// The same with ranges.
    Ranges,
    /// The next undos or redos.
    Steps(Steps),
    /// The next undos, where something is unfinished.
    Unfinished(Steps),
    /// A dump of the image.
    Dump(&'a DumpJob),
    /// A dump of an input that has these bytes.
    Input(&'a DumpJob, &'a [u8]),
    /// The patch from the image to the file of the journal's name.
    Diff(Extent),
    /// The history is dropped.
    Forget,
    /// The patch that a change would be, which makes the second file of a case of the image.
    Preview(Proposed, &'a PatchWritten),
    /// The patch of the last change that stands, or of the one that was undone last.
    Patch(Direction),
}

impl Asked<'_> {
    /// Which faults may come of what fails. A comparison says of a device that it was not read; a text that is emptied may be left in
    /// the middle of it.
    pub fn cause(self, failing: Failing) -> Cause {
        match (self, failing, failing.cause()) {
            (Asked::Diff(_), _, Cause::Device) => Cause::Input,
            (Asked::Forget, Failing::Journal | Failing::Redo, _) => Cause::Emptying,
            (Asked::Forget, Failing::World, _) => Cause::Dropping,
            (_, _, cause) => cause,
        }
    }
}

/// How it ended: a dump with its counts.
pub type Outcome = Result<Option<Done>, ReportError>;

/// The image, which the system refused.
fn refused(refusal: Refusal) -> ReportError {
    ReportError::Unopened(OpenError {
        which: FileRole::Image,
        why: OpenFailure::System(refusal),
    })
}

/// Writes a dump of the image.
fn put_dump<O: Write>(
    world: &mut MemoryWorld,
    alloc: Global,
    names: &Names,
    job: &DumpJob,
    out: &mut O,
) -> Outcome
    requires { (⟦<MemoryWorld as World>⟧.state world.old).lent ≡ None }
{
    let request: Request<'_, Empty> = Request::Dump {
        job,
        name: names.image.as_str(),
    };
    seen_of(run_request(world, alloc, request, out))
}

/// Why a command is not done.
fn unseen_of(failure: Failure) -> ReportError {
    let Some(stop) = failure.stop else {
        return ReportError::Stopped(failure.fault);
    };
    match stop.cause {
        FileCause::Unopened(why) => ReportError::Unopened(OpenError {
            which: which_of(stop.file),
            why,
        }),
        FileCause::Unplaced(refusal) => refused(refusal),
        FileCause::Unfinished => ReportError::Unfinished,
        FileCause::Another => ReportError::Another,
        FileCause::Failed | FileCause::Outgrown(_) => ReportError::Stopped(failure.fault),
    }
}

/// How a command ended that was run in a world.
fn seen_of(answer: Result<Answered, Failure>) -> Outcome {
    match answer {
        Ok(answered) => match (answered.dumped, answered.counts) {
            (Some(count), _) => Ok(Some(Done::Dumped(count))),
            (None, Some(counts)) => Ok(Some(Done::Copied(counts))),
            (None, None) => Ok(None),
        },
        Err(failure) => Err(unseen_of(failure)),
    }
}

/// Writes a dump of an input.
fn put_input<O: Write>(
    world: &mut MemoryWorld,
    alloc: Global,
    job: &DumpJob,
    input: LentInput,
    out: &mut O,
) -> Outcome
    requires { (⟦<MemoryWorld as World>⟧.state world.old).lent ≡ None }
{
    let request = Request::DumpInput { job, input };
    seen_of(run_request(world, alloc, request, out))
}

/// Writes the patch from the image to the file of the journal's name.
fn put_diff<O: Write>(
    world: &mut MemoryWorld,
    alloc: Global,
    names: &Names,
    extent: Extent,
    out: &mut O,
) -> Outcome
    requires { (⟦<MemoryWorld as World>⟧.state world.old).lent ≡ None }
{
    let request: Request<'_, Empty> = Request::Diff {
        old: names.image.as_str(),
        new: names.journal.as_str(),
        extent,
    };
    seen_of(run_request(world, alloc, request, out))
}

/// Drops the history.
fn forget<O: Write>(world: &mut MemoryWorld, alloc: Global, names: &Names, out: &mut O) -> Outcome
    requires { (⟦<MemoryWorld as World>⟧.state world.old).lent ≡ None }
{
    let request: Request<'_, Empty> = Request::Forget {
        names,
        guard: CAREFUL,
    };
    seen_of(run_request(world, alloc, request, out))
}

/// The plan of a copy onto an image.
fn copying(alloc: Global) -> Result<DdPlan, Wrong> {
    let mut words = Words::new(alloc);
    words.push("of=disk")?;
    parse(alloc, &words).map_err(|_| Wrong::Unknown)
}

/// What is proposed, whose input fails as the plan says.
fn edit_of(
    alloc: Global,
    proposed: Proposed,
    case: &PatchWritten,
    plan: Plan,
) -> Result<Edit<LentInput>, Wrong> {
    let new = case.new.as_slice();
    match proposed {
        Proposed::Read => Ok(Edit::Read(copied(alloc, "of=disk", new, false)?)),
        Proposed::Patch => patch_of(alloc, case.output.as_slice(), false, false),
        Proposed::Copy => Ok(Edit::Copy {
            plan: copying(alloc)?,
            input: LentInput::new(new.to_vec(alloc)?, 0, plan.input),
        }),
    }
}

/// Writes the patch that a change would be.
fn preview<O: Write>(
    world: &mut MemoryWorld,
    alloc: Global,
    names: &Names,
    edit: Edit<LentInput>,
    out: &mut O,
) -> Outcome
    requires { (⟦<MemoryWorld as World>⟧.state world.old).lent ≡ None }
{
    let request = Request::Preview {
        name: names.image.as_str(),
        edit,
    };
    seen_of(run_request(world, alloc, request, out))
}

/// Writes a report of the changes.
fn put_report<O: Write>(
    world: &mut MemoryWorld,
    alloc: Global,
    names: &Names,
    report: Report,
    out: &mut O,
) -> Outcome
    requires { (⟦<MemoryWorld as World>⟧.state world.old).lent ≡ None }
{
    let request: Request<'_, Empty> = Request::Look { names, report };
    seen_of(run_request(world, alloc, request, out))
}

/// What an input has, whose reads fail as the plan says.
fn input_of(alloc: Global, bytes: &[u8], plan: Plan) -> Result<LentInput, ReportError> {
    match bytes.to_vec(alloc) {
        Ok(bytes) => Ok(LentInput::new(bytes, 0, plan.input)),
        Err(_) => Err(ReportError::Stopped(Fault::Io(IoFault::NoMemory))),
    }
}

/// Does what is asked of files of these names, or of an input, in a world that does what its plan says.
pub fn ask<O: Write>(
    world: &mut MemoryWorld,
    alloc: Global,
    names: &Names,
    plan: Plan,
    asked: Asked<'_>,
    out: &mut O,
) -> Outcome {
    world.begin(plan);
    match asked {
        Asked::Log => put_report(world, alloc, names, Report::Log, out),
        Asked::Ranges => put_report(world, alloc, names, Report::LogWithRanges, out),
        Asked::Steps(steps) => put_report(world, alloc, names, Report::Show(steps), out),
        Asked::Unfinished(steps) => {
            put_report(world, alloc, names, Report::ShowUnfinished(steps), out)
        }
        Asked::Dump(job) => put_dump(world, alloc, names, job, out),
        Asked::Input(job, bytes) => {
            let input = input_of(alloc, bytes, plan)?;
            put_input(world, alloc, job, input, out)
        }
        Asked::Diff(extent) => put_diff(world, alloc, names, extent, out),
        Asked::Forget => forget(world, alloc, names, out),
        Asked::Preview(proposed, case) => match edit_of(alloc, proposed, case, plan) {
            Ok(edit) => preview(world, alloc, names, edit, out),
            Err(_) => Err(ReportError::Stopped(Fault::Usage)),
        },
        Asked::Patch(way) => put_report(world, alloc, names, Report::Patch { way, count: 1 }, out),
    }
}
