//! Whether a task was refused, and whether something was recovered before.
ghost use Rattle.std.specs.Prelude.{◌≡◌, ◌↔◌, true};
ghost use Rattle.bx_cli_commands.specs.Refusal.{IsWholeRefusal};
ghost use Rattle.bx_run_session.specs.session.Named.{IsUnrecovered};

use bx_cli_commands::{Fault, Reply};
use bx_journal::{RecoveryOutcome, SessionFault};

/// Whether a task was refused, and no device stopped it in the middle of writing.
pub fn is_whole_refusal(reply: &Reply) -> bool
    ensures { (result ≡ true) ↔ IsWholeRefusal reply.now }
{
    match reply {
        Reply::Refused(Fault::Session(SessionFault::Interrupted)) => false,
        Reply::Refused(_) => true,
        Reply::Changed { .. }
        | Reply::Copied { .. }
        | Reply::Undone { .. }
        | Reply::Redone { .. } => false,
    }
}

/// Whether opening found finished entries alone, or was refused.
pub fn is_unrecovered(how: Option<RecoveryOutcome>) -> bool
    ensures { (result ≡ true) ↔ IsUnrecovered how }
{
    match how {
        None | Some(RecoveryOutcome::Clean) => true,
        Some(RecoveryOutcome::Dropped | RecoveryOutcome::Restored { .. }) => false,
    }
}
