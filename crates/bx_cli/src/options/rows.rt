//! Tables of options, and commands that take them.
use clap::{Arg, ArgAction, ArgGroup, Command};
use std::alloc::{AllocError, Global};

/// A flag, or where it has the name of a value an option.
#[derive(Clone, Copy)]
pub struct Row {
    pub id: &'static str,
    pub short: char,
    pub value: Option<&'static str>,
    pub help: &'static str,
}

/// The option or the flag of a row.
fn arg_of<'a>(alloc: Global, row: &Row) -> Arg<'a> {
    let arg = Arg::new(alloc, row.id).short(row.short).help(row.help);
    match row.value {
        None => arg.action(ArgAction::SetTrue),
        Some(value) => arg.action(ArgAction::Set).value_name(value),
    }
}

/// The command with an option or a flag for each row.
pub fn with_rows<'a>(
    alloc: Global,
    command: Command<'a>,
    rows: &[Row],
) -> Result<Command<'a>, AllocError> {
    let mut command = command;
    for row in rows {
        command = command.arg(arg_of(alloc, row))?;
    }
    Ok(command)
}

/// What stands above the options that the tools have beside those of POSIX and of the first release.
pub const ALSO: &str = "Further options";

/// The command with an option or a flag more for each row, under a heading of their own.
pub fn with_more<'a>(
    alloc: Global,
    command: Command<'a>,
    rows: &[Row],
) -> Result<Command<'a>, AllocError> {
    let mut command = command;
    for row in rows {
        command = command.arg(arg_of(alloc, row).help_heading(ALSO))?;
    }
    Ok(command)
}

/// A group: at most one option of it may be given.
fn group_of<'a>(
    alloc: Global,
    id: &'static str,
    members: &[&'static str],
) -> Result<ArgGroup<'a>, AllocError> {
    ArgGroup::new(alloc, id).args(members)
}

/// The command with at most one of these options at a time.
pub fn with_group<'a>(
    alloc: Global,
    command: Command<'a>,
    id: &'static str,
    members: &[&'static str],
) -> Result<Command<'a>, AllocError> {
    command.group(group_of(alloc, id, members)?)
}
