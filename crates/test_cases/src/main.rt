//! Plays the case files of a folder, in each way that their kind allows.
//!
//! `docs/CASES.md` has the kinds ("Case files") and the ways ("Playing").
#![tactic(auto)]

mod commands;
mod files;
mod looks;
mod patches;
mod reading;
mod texts;
mod words;

use std::env;
use std::process::ExitCode;

/// The folder that is named, or the one that the program is run in.
fn folder(rt: &HostRuntime) -> String {
    let Ok(args) = env::args(rt) else {
        return String::new(rt.alloc());
    };
    match args.skip(1).next() {
        Some(name) => name,
        None => String::new(rt.alloc()),
    }
}

fn main(rt: HostRuntime) -> ExitCode {
    let name = folder(&rt);
    let folder = if name.is_empty() { "." } else { name.as_str() };
    if files::play_folder(&rt, folder) {
        ExitCode::SUCCESS
    } else {
        ExitCode::from(1)
    }
}
