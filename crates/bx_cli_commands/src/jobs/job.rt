//! What a command line asks for.
ghost use Rattle.std.specs.Prelude.{◌≡◌};
ghost use Rattle.std.specs.Option.{option_copied};

use crate::{ChangeJob, DiffJob, DumpJob, LayJob, LookJob, Target};
use bx_text::Name;

/// What a command line asks for: one of the subcommands, which are of five kinds, or help.
#[derive(Drop)]
pub enum Job {
    /// Reads one input, and writes one output.
    Dump(DumpJob),
    /// Writes what a dump makes of nothing.
    Lay(LayJob),
    /// Changes an image.
    Change(ChangeJob),
    /// Shows the changes of an image.
    Look(LookJob),
    /// Writes what differs between two files.
    Diff(DiffJob),
    /// Writes a text of help.
    Help {
        /// The text that is written.
        text: Name,
    },
}

impl Job {
    ghost use Rattle.bx_cli_commands.specs.jobs.Job.{is_dump, target_of};

    /// Whether the job only reads one input and writes one output; dd does so without `of=`.
    pub fn is_dump(&self) -> bool
        ensures { result ≡ is_dump self.now }
    {
        match self {
            Job::Dump(_) => true,
            Job::Lay(_) | Job::Change(_) | Job::Look(_) | Job::Diff(_) | Job::Help { .. } => false,
        }
    }

    /// The image that it works on; none where it has none.
    pub fn target(&self) -> Option<&Target>
        ensures { option_copied result ≡ target_of self.now }
    {
        match self {
            Job::Change(job) => Some(job.target()),
            Job::Look(job) => Some(job.target()),
            Job::Dump(_) | Job::Lay(_) | Job::Diff(_) | Job::Help { .. } => None,
        }
    }
}
