//! What command lines ask for, as jobs and commands, and their runs: dumps and copies, and commands on a session; with a fault that holds
//! those of all crates. `bx_cli` exports all of it.
//!
//! `docs/DECISIONS.md` argues for it ("The program and runs of commands").
#![tactic(auto)]

mod changes;
mod command;
mod fault;
mod inputs;
pub mod jobs;
pub mod laws;
mod listing;
mod reading;
pub mod round_trip;
mod run;

pub use changes::{DdChange, change_of_plan};
pub use command::{Command, Kept, Reply};
pub use fault::Fault;
pub use inputs::{read_dump, read_patch_of};
pub use jobs::diff::DiffJob;
pub use jobs::dump::{Done, run_dump};
pub use jobs::dumps::{DdJob, DumpJob, HexdumpJob, OdJob, StringsJob, XxdJob, XxdLook};
pub use jobs::images::{
    ChangeJob, DdImageJob, ForgetJob, LogJob, LookJob, PatchJob, RevertJob, ShowJob, StepsJob,
};
pub use jobs::job::Job;
pub use jobs::labels::push_labelled;
pub use jobs::lay::{LayJob, run_lay};
pub use jobs::rest::{plan_rest, xxd_from_end};
pub use jobs::skip::Skip;
pub use jobs::target::{Access, Durability, Target, Texts};
pub use jobs::values::{
    MOST_COLUMNS, MOST_LEAST, MOST_STEPS, bytes, columns, count_or, encoding, endian, kind_word,
    line_width, name_of, number, number_or, radix, texts_of, word_len,
};
pub use listing::{list_ranges, list_steps, log_text};
pub use reading::{Form, change_from};
pub use run::{change_if_read, refuse_growth, run_all, run_dd, run_kept, run_one};
