//! What the commands on an image ask for: those that change it, and those that show its changes.
ghost use Rattle.std.specs.Prelude.{◌≡◌, ◌≤◌, ◌^◌, Some};
ghost use Rattle.bx_dd.specs.Parsing.{IsPlanOf};

use crate::{Skip, Target};
use bx_dd::Plan;
use bx_journal::Direction;
use bx_text::{Name, Words};

/// `dd` with `of=`: what its operands ask for, the operands themselves, and the image that `of=` names.
#[derive(Drop)]
pub struct DdImageJob {
    /// What the operands ask for.
    pub plan: Plan,
    /// The operands as they were given.
    pub operands: Words,
    /// The image that `of=` names.
    pub target: Target,
    /// Whether the image's history is dropped before the change.
    pub fresh: bool,
    /// Whether nothing is changed, and the patch that the change would be is written.
    pub dry_run: bool,
    /// Whether the change is refused where it makes the image longer.
    pub no_grow: bool,
    ghost planned: { IsPlanOf operands plan },
    ghost named: { plan.output ≡ Some target.image },
}

impl DdImageJob {
    ghost use Rattle.bx_cli_commands.specs.jobs.Passing.{plan_skip};

    /// What it skips of its input.
    pub fn skip(&self) -> Skip
        ensures { result ≡ plan_skip self.now.plan }
    {
        Skip::Blocks {
            count: self.plan.skip,
            size: self.plan.ibs,
        }
    }
}

/// `revert`: the dump, and the image that it is written onto. `at` is added to the addresses, or with `plain` the place of the
/// first byte.
#[derive(Drop)]
pub struct RevertJob {
    /// The dump's name; none is standard input.
    pub dump: Option<Name>,
    /// Whether the dump is plain hexadecimal, without addresses.
    pub plain: bool,
    /// What is added to each address in bytes, or the first byte's place; at most 2^62.
    pub at: u64,
    /// The image that is changed.
    pub target: Target,
    /// Whether the image's history is dropped before the change.
    pub fresh: bool,
    /// Whether nothing is changed, and the patch that the change would be is written.
    pub dry_run: bool,
    /// Whether the change is refused where it makes the image longer.
    pub no_grow: bool,
    ghost near: { at ≤ 2 ^ 62 },
}

/// `patch`: the patch, and the image that it changes.
#[derive(Drop)]
pub struct PatchJob {
    /// The name of the patch; none is standard input.
    pub patch: Option<Name>,
    /// Whether it is made the other way round: what it writes is expected, and what it expects is written.
    pub reverse: bool,
    /// The image that is changed.
    pub target: Target,
    /// Whether the image's history is dropped before the change.
    pub fresh: bool,
    /// Whether nothing is changed, and the patch that the change would be is written.
    pub dry_run: bool,
    /// Whether the change is refused where it makes the image longer.
    pub no_grow: bool,
}

/// `forget`: the image whose changes are accepted.
#[derive(Drop)]
pub struct ForgetJob {
    /// The image, which is changed only where something is recovered.
    pub target: Target,
}

/// `undo` and `redo`: how many changes they take back, or make again.
#[derive(Drop)]
pub struct StepsJob {
    /// How many, at most 65,535.
    pub count: u32,
    /// The image that is changed.
    pub target: Target,
    ghost few: { count ≤ 65535 },
}

/// `log`: the changes that stand.
#[derive(Drop)]
pub struct LogJob {
    /// Whether each line has the length after the change too, and where the saved bytes stand.
    pub verbose: bool,
    /// The image, which is changed where something is recovered.
    pub target: Target,
}

/// `show`: what an undo or a redo would do.
#[derive(Drop)]
pub struct ShowJob {
    /// Which of the two.
    pub way: Direction,
    /// How many changes are shown, at most 65,535.
    pub count: u32,
    /// Whether what the image has stands beside each saved line.
    pub compares: bool,
    /// Whether the changes are shown as one patch: of an undo from the image before them to the one that is there, of a redo from that to
    /// the one behind them.
    pub as_patch: bool,
    /// The image, which is only read.
    pub target: Target,
    ghost few: { count ≤ 65535 },
}

/// A job that changes an image.
#[derive(Drop)]
pub enum ChangeJob {
    /// Copies onto it.
    Dd(DdImageJob),
    /// Writes a dump onto it.
    Revert(RevertJob),
    /// Makes the change of a patch.
    Patch(PatchJob),
    /// Takes the last changes back.
    Undo(StepsJob),
    /// Makes the last undone changes again.
    Redo(StepsJob),
    /// Accepts its changes, and drops their history.
    Forget(ForgetJob),
}

impl ChangeJob {
    ghost use Rattle.bx_cli_commands.specs.jobs.Job.{changed_of};

    /// The image that it changes.
    pub fn target(&self) -> &Target
        ensures { result.now ≡ changed_of self.now }
    {
        match self {
            ChangeJob::Dd(job) => &job.target,
            ChangeJob::Revert(job) => &job.target,
            ChangeJob::Patch(job) => &job.target,
            ChangeJob::Undo(job) | ChangeJob::Redo(job) => &job.target,
            ChangeJob::Forget(job) => &job.target,
        }
    }
}

/// A job that shows the changes of an image.
#[derive(Drop)]
pub enum LookJob {
    /// Lists the changes that stand.
    Log(LogJob),
    /// Shows what an undo or a redo would do.
    Show(ShowJob),
}

impl LookJob {
    ghost use Rattle.bx_cli_commands.specs.jobs.Job.{shown_of};

    /// The image whose changes it shows.
    pub fn target(&self) -> &Target
        ensures { result.now ≡ shown_of self.now }
    {
        match self {
            LookJob::Log(job) => &job.target,
            LookJob::Show(job) => &job.target,
        }
    }
}
