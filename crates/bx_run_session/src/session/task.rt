//! What is done to a session that is open.
ghost use Rattle.bx_cli_commands.specs.Command.{IsNear};
ghost use Rattle.bx_cli_commands.specs.Obeys.{Obeys};
ghost use Rattle.bx_cli_commands.specs.Run.{CommandStep};
ghost use Rattle.bx_cli_commands.specs.Standing.{CountsBelow};
ghost use Rattle.bx_run_session.specs.session.Task.{IsNearTask, TaskStep};

use bx_cli_commands::{Command, Kept, Reply, change_if_read, run_kept, run_one};
use bx_image::{Change, Device};
use bx_journal::Session;
use bx_journal_store::TextStore;
use bx_read::ReadFault;
use std::alloc::Global;
use std::io::{Empty, Read};

/// What is done to an image. `R` is what dd reads.
#[derive(Drop)]
pub enum Task<R = Empty> {
    /// A command.
    Run(Command<R>),
    /// The change of a text that was read before, or the text's fault.
    Put(Result<Change, ReadFault>),
    /// A change that isn't to make the image longer.
    Keep(Kept),
}

/// Runs a command on a session.
fn run_whole<D: Device, T: TextStore, R: Read + Drop>(
    alloc: Global,
    session: &mut Session<D, T>,
    mut command: Command<R>,
) -> Reply
    requires countable { CountsBelow D.Device T.TextStore u64.MAX session.old }
    requires near { IsNear command }
    ensures obeys { Obeys D.Device T.TextStore session.old session.new result (λ s. CommandStep R.remaining s command) }
{
    run_one(&alloc, session, &mut command)
}

/// Does a task on a session.
pub fn do_task<D: Device, T: TextStore, R: Read + Drop>(
    alloc: Global,
    session: &mut Session<D, T>,
    task: Task<R>,
) -> Reply
    requires countable { CountsBelow D.Device T.TextStore u64.MAX session.old }
    requires near { IsNearTask task }
    ensures obeys { Obeys D.Device T.TextStore session.old session.new result (λ s. TaskStep R.remaining s task) }
{
    match task {
        Task::Run(command) => run_whole(alloc, session, command),
        Task::Put(read) => change_if_read(session, read),
        Task::Keep(kept) => run_kept(session, kept),
    }
}
