//! A change on a session, and the reply to it.
ghost use Rattle.std.specs.Prelude.{◌≡◌};
ghost use Rattle.bx_cli_commands.specs.Obeys.{Obeys};
ghost use Rattle.bx_cli_commands.specs.Refusal.{IsOwnRefusal};
ghost use Rattle.bx_cli_commands.specs.Run.{ChangeStep, made_reply};
ghost use Rattle.bx_cli_commands.specs.Standing.{CountsBelow};
ghost use Rattle.bx_cli_commands.specs.Tells.{ChangeTells};

use crate::{Fault, Reply};
use bx_dd::Counts;
use bx_image::{Change, Device};
use bx_journal::Session;
use bx_journal_store::TextStore;
use std::alloc::Allocator;

/// Makes the change; the reply has the counts beside its number.
pub fn run_change<D: Device, T: TextStore, A: Allocator + Clone>(
    session: &mut Session<D, T, A>,
    change: &Change<A>,
    counts: Option<Counts>,
) -> Reply
    requires countable { CountsBelow D.Device T.TextStore u64.MAX session.old }
    ensures obeys { Obeys D.Device T.TextStore session.old session.new result (λ s. ChangeStep s change.now counts) }
    ensures tells { ChangeTells session.old result session.new }
    ensures asked { IsOwnRefusal result → ⊥ }
{
    match session.perform(change) {
        Ok(number) => made_reply(counts, number),
        Err(fault) => Reply::Refused(Fault::Session(fault)),
    }
}

/// The reply to a change that was made.
fn made_reply(counts: Option<Counts>, number: u32) -> Reply
    ensures { result ≡ made_reply counts number }
{
    match counts {
        None => Reply::Changed { number },
        Some(counts) => Reply::Copied { number, counts },
    }
}
