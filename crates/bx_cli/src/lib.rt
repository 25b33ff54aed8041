//! From the words of a command line to a job, and lists of commands run on a session.
//!
//! A list of commands, which `run_all` runs on a session with a reply for each:
//!
//! ```
//! list.push(Command::RevertPlain { text, at })?;
//! list.push(Command::Undo { k: 1 })?;
//! ```
//!
//! `docs/CALLING.md` has the whole caller, which the gate proves and runs.
//!
//! `docs/FORMATS.md` has the words ("Numbers on the command line"), and `docs/DECISIONS.md` why.
#![tactic(auto)]

mod dashed;
mod given;
mod instead;
pub mod laws;
mod misuse;
mod options;
mod plan;
mod types;

pub use bx_cli_commands::{
    Access, ChangeJob, Command, DdChange, DdImageJob, DdJob, DiffJob, Done, DumpJob, Durability,
    Fault, ForgetJob, Form, HexdumpJob, Job, Kept, LayJob, LogJob, LookJob, OdJob, PatchJob, Reply,
    RevertJob, ShowJob, Skip, StepsJob, StringsJob, Target, Texts, XxdJob, XxdLook, change_from,
    change_if_read, change_of_plan, list_ranges, list_steps, log_text, plan_rest, read_dump,
    read_patch_of, refuse_growth, run_all, run_dd, run_dump, run_kept, run_lay, run_one,
};
pub use misuse::{Misuse, misuse_of};
pub use plan::plan_words;
