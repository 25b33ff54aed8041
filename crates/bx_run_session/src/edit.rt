//! What is asked of an image: the change of an input.
ghost use Rattle.std.specs.Prelude.{◌≡◌};
ghost use Rattle.bx_run_session.specs.Edit.{asked, task_by};
ghost use Rattle.bx_run_session.specs.session.Task.{IsNearTask};

pub mod proposal;
mod read;

use crate::edit::proposal::Proposal;
use crate::session::Task;
use bx_cli_commands::Command;
use bx_dd::Plan;
pub use read::ReadEdit;
use std::io::{Empty, Read};

/// What is asked of an image. `R` is what dd reads.
#[derive(Drop)]
pub enum Edit<R = Empty> {
    /// What an input asks that was read before.
    Read(ReadEdit),
    /// What dd's plan makes of an input.
    Copy {
        /// The plan.
        plan: Plan,
        /// The input.
        input: R,
    },
}

/// The task that does what an input asks that was read.
fn task_by<R: Read + Drop>(proposal: Proposal) -> Task<R>
    ensures is { result ≡ task_by proposal }
    ensures near { IsNearTask result }
{
    match proposal {
        Proposal::Read(read) => Task::Put(read),
        Proposal::Patch(patch) => Task::Run(Command::Patch { patch }),
        Proposal::Keep(kept) => Task::Keep(kept),
    }
}

/// The task of a session that does what is asked.
pub fn task_of<R: Read + Drop>(edit: Edit<R>) -> Task<R>
    ensures is { result ≡ asked edit }
    ensures near { IsNearTask result }
{
    match edit {
        Edit::Read(read) => task_by(read.into_proposal()),
        Edit::Copy { plan, input } => Task::Run(Command::Copy { plan, input }),
    }
}
