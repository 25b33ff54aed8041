//! The commands that look at IMAGE and its history, and the one that drops it.
use crate::options::images::{JOURNAL, UNSYNCED, image, with_mounted};
use crate::options::rows::{Row, with_group, with_rows};
use clap::{Arg, ArgAction, Command};
use std::alloc::{AllocError, Global};

static LOG: [Row; 3] = [
    JOURNAL,
    Row {
        id: "unsynced",
        short: 'U',
        value: None,
        help: "Do not wait for the disk where a stopped change is taken back",
    },
    Row {
        id: "verbose",
        short: 'v',
        value: None,
        help: "Show the length after each change, and which bytes were saved",
    },
];

static SHOW: [Row; 5] = [
    JOURNAL,
    Row {
        id: "count",
        short: 'k',
        value: Some("COUNT"),
        help: "Changes to show, 0 to 65535 [default: 1]",
    },
    Row {
        id: "redo",
        short: 'r',
        value: None,
        help: "Show what a redo would do [default: what an undo would do]",
    },
    Row {
        id: "difference",
        short: 'd',
        value: None,
        help: "Show beside each line what the image has there now",
    },
    Row {
        id: "patch",
        short: 'p',
        value: None,
        help: "Show the changes as one patch, which bx patch applies",
    },
];

static SHOW_FORMS: [&str; 2] = ["difference", "patch"];

static DIFF: [Row; 2] = [
    Row {
        id: "quiet",
        short: 'q',
        value: None,
        help: "Write nothing; the exit status is 1 where the files differ",
    },
    Row {
        id: "rows",
        short: 'v',
        value: None,
        help: "Write whole rows of 16 bytes where a byte differs",
    },
];

static DIFF_FORMS: [&str; 2] = ["quiet", "rows"];

static FORGET: [Row; 2] = [JOURNAL, UNSYNCED];

pub fn log<'a>(alloc: Global) -> Result<Command<'a>, AllocError> {
    let command = Command::new(alloc, "log")
        .about("List the changes of an image, the oldest first")
        .after_help(
            "Each line has a change's number, the image's bytes before it, and the bytes that\nwere saved; with -v the bytes before and after it, the bytes saved, and their\nranges. A change that was stopped is taken back first; bx show only looks.\n\nEXAMPLES:\n  bx log disk.img\n  bx log -v disk.img\n  bx log -J other.bxj disk.img",
        );
    with_mounted(
        alloc,
        command,
        &LOG,
        "Recover on a block device even while it is mounted",
    )?
    .arg(image(alloc))
}

pub fn show<'a>(alloc: Global) -> Result<Command<'a>, AllocError> {
    let command = Command::new(alloc, "show")
        .about("Show what an undo or a redo would do; nothing is written")
        .after_help(
            "COUNT: decimal. Each change has a heading that begins with #, and the lines that\nwould be written onto the image; without the headings they are a dump that\nrevert takes. A stopped change comes first, whatever COUNT is.\n\nEXAMPLES:\n  bx show disk.img            what an undo of the last change would do\n  bx show -d disk.img         the same, beside what the image has there now\n  bx show -r -k 2 disk.img    what a redo of two changes would do\n  bx show -p -k 2 disk.img    the last two changes, as one patch",
        );
    let formed = one_form(alloc, command)?;
    with_rows(alloc, formed, &SHOW)?.arg(image(alloc))
}

/// Lines beside the image, or a patch.
fn one_form<'a>(alloc: Global, command: Command<'a>) -> Result<Command<'a>, AllocError> {
    with_group(alloc, command, "form", &SHOW_FORMS)
}

/// Rows, or nothing.
fn one_difference<'a>(alloc: Global, command: Command<'a>) -> Result<Command<'a>, AllocError> {
    with_group(alloc, command, "difference", &DIFF_FORMS)
}

pub fn diff<'a>(alloc: Global) -> Result<Command<'a>, AllocError> {
    let command = Command::new(alloc, "diff")
        .about("Write what differs between two files, as a patch")
        .after_help(
            "The first line tells both lengths. Each other line is bytes as xxd writes them,\nbehind - those of OLD and behind + those of NEW. Nothing is written where the\nfiles are equal; the exit status is 0 in either case.\n\nEXAMPLES:\n  bx diff old.bin new.bin       the bytes that differ, and no others\n  bx diff -v old.bin new.bin    the rows in which they stand",
        );
    let formed = one_difference(alloc, command)?;
    with_rows(alloc, formed, &DIFF)?
        .arg(compared(alloc, "old", "OLD"))?
        .arg(compared(alloc, "new", "NEW"))
}

/// One of the files that are compared.
fn compared<'a>(alloc: Global, id: &'static str, value: &'static str) -> Arg<'a> {
    Arg::new(alloc, id)
        .value_name(value)
        .required(true)
        .help("File or block device to compare")
}

pub fn forget<'a>(alloc: Global) -> Result<Command<'a>, AllocError> {
    let command = Command::new(alloc, "forget")
        .about("Accept all changes of an image, and drop their history")
        .after_help(
            "Journal and redo file are emptied, so nothing can be undone or redone then. The\nimage isn't written, unless a change was stopped, which is taken back first.\n\nEXAMPLES:\n  bx forget disk.img",
        );
    with_mounted(
        alloc,
        command,
        &FORGET,
        "Recover on a block device even while it is mounted",
    )?
    .arg(image(alloc))
}
