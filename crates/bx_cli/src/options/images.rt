//! What the commands on IMAGE share.
use crate::options::rows::{Row, with_rows};
use clap::{Arg, ArgAction, Command};
use std::alloc::{AllocError, Global};

pub const JOURNAL: Row = Row {
    id: "journal",
    short: 'J',
    value: Some("JOURNAL"),
    help: "File that keeps what is overwritten [default: IMAGE.bxj]",
};

pub const UNSYNCED: Row = Row {
    id: "unsynced",
    short: 'U',
    value: None,
    help: "Do not wait for the disk: faster, but not safe from power loss",
};

/// A command with the rows, and the options for another image and for devices that are mounted.
pub fn with_mounted<'a>(
    alloc: Global,
    command: Command<'a>,
    rows: &[Row],
    help: &'static str,
) -> Result<Command<'a>, AllocError> {
    with_rows(alloc, command, rows)?
        .arg(anyway(alloc))?
        .arg(mounted(alloc, help))
}

/// For one who knows what the image is now.
pub fn anyway<'a>(alloc: Global) -> Arg<'a> {
    Arg::new(alloc, "anyway")
        .long("anyway")
        .action(ArgAction::SetTrue)
        .help("Go on where the image isn't the one that was left")
}

fn mounted<'a>(alloc: Global, help: &'static str) -> Arg<'a> {
    Arg::new(alloc, "mounted")
        .long("mounted")
        .action(ArgAction::SetTrue)
        .help(help)
}

pub fn image<'a>(alloc: Global) -> Arg<'a> {
    Arg::new(alloc, "image")
        .value_name("IMAGE")
        .required(true)
        .help("Image, a file or a block device; a device wants -J")
}

/// A command on IMAGE.
pub fn changer<'a>(
    alloc: Global,
    command: Command<'a>,
    rows: &[Row],
) -> Result<Command<'a>, AllocError> {
    with_mounted(
        alloc,
        command,
        rows,
        "Change a block device even while it is mounted",
    )?
    .arg(image(alloc))
}
