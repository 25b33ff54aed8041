//! The program's start, and its exit status.
//!
//! `man/bx.1` has the statuses (EXIT STATUS); `docs/ARCHITECTURE.md` says what `main` starts.
#![tactic(auto)]

ghost use Rattle.std.specs.Prelude.{◌≡◌};
ghost use Rattle.bx.specs.Status.{status_by};

use bx_cli::Fault;
use bx_program::Terminals;
use std::io::IsTerminal;
use std::process::ExitCode;

/// 0 where all is done, 2 where the words are wrong, and 1 at any other fault.
fn status(outcome: Result<(), Fault>) -> u8
    ensures { result ≡ status_by outcome }
{
    match outcome {
        Ok(()) => 0,
        Err(Fault::Usage) => 2,
        Err(
            Fault::Io(_)
            | Fault::Read(_)
            | Fault::Behind { .. }
            | Fault::Dd(_)
            | Fault::Patch(_)
            | Fault::Disagrees(_)
            | Fault::NotReversible
            | Fault::NothingToWrite
            | Fault::Session(_)
            | Fault::Grows { .. }
            | Fault::ChangedSince
            | Fault::OpenFailed,
        ) => 1,
    }
}

fn main(rt: HostRuntime) -> ExitCode {
    let terminals = Terminals {
        input: rt.stdin().is_terminal(),
        output: rt.stdout().is_terminal(),
        errors: rt.stderr().is_terminal(),
    };
    ExitCode::from(status(bx_program::run(&rt, terminals)))
}
