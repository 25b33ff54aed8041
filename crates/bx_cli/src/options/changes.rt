//! The commands that change IMAGE.
use crate::options::images::{JOURNAL, UNSYNCED, changer, image, with_mounted};
use crate::options::rows::{Row, with_rows};
use clap::{Arg, ArgAction, Command};
use std::alloc::{AllocError, Global};

static REVERT: [Row; 5] = [
    JOURNAL,
    UNSYNCED,
    Row {
        id: "plain",
        short: 'p',
        value: None,
        help: "The dump is digits alone, as xxd -p writes",
    },
    Row {
        id: "offset",
        short: 's',
        value: Some("OFFSET"),
        help: "Bytes to add to each address, with -p the first [default: 0]",
    },
    Row {
        id: "dump",
        short: 'f',
        value: Some("DUMP"),
        help: "File to read the dump from [default: standard input]",
    },
];

static UNDO: [Row; 3] = [
    JOURNAL,
    UNSYNCED,
    Row {
        id: "count",
        short: 'k',
        value: Some("COUNT"),
        help: "Changes to take back, 0 to 65535 [default: 1]",
    },
];

static REDO: [Row; 3] = [
    JOURNAL,
    UNSYNCED,
    Row {
        id: "count",
        short: 'k',
        value: Some("COUNT"),
        help: "Undone changes to make again, 0 to 65535 [default: 1]",
    },
];

static PATCH: [Row; 4] = [
    JOURNAL,
    UNSYNCED,
    Row {
        id: "reverse",
        short: 'R',
        value: None,
        help: "Apply the patch the other way round",
    },
    Row {
        id: "patch",
        short: 'f',
        value: Some("PATCH"),
        help: "File to read the patch from [default: standard input]",
    },
];

static DD: [Row; 2] = [JOURNAL, UNSYNCED];

/// For build scripts, which write the image anew.
fn fresh<'a>(alloc: Global) -> Arg<'a> {
    Arg::new(alloc, "fresh")
        .long("fresh")
        .action(ArgAction::SetTrue)
        .help("Drop the image's history first: its changes are accepted")
}

/// For a look at what a change would be.
fn dry_run<'a>(alloc: Global) -> Arg<'a> {
    Arg::new(alloc, "dry-run")
        .short('n')
        .long("dry-run")
        .action(ArgAction::SetTrue)
        .help("Change nothing, and write the patch that it would be")
}

/// For images that have no room behind their end, as firmware.
fn no_grow<'a>(alloc: Global) -> Arg<'a> {
    Arg::new(alloc, "no-grow")
        .long("no-grow")
        .action(ArgAction::SetTrue)
        .help("Refuse a change that would make the image longer")
}

/// A command that changes IMAGE by what it reads.
fn writer<'a>(
    alloc: Global,
    command: Command<'a>,
    rows: &[Row],
) -> Result<Command<'a>, AllocError> {
    changer(alloc, command, rows)?
        .arg(fresh(alloc))?
        .arg(dry_run(alloc))?
        .arg(no_grow(alloc))
}

pub fn dd<'a>(alloc: Global) -> Result<Command<'a>, AllocError> {
    let command = Command::new(alloc, "dd")
        .about("Copy and convert bytes, to standard output or onto an image")
        .after_help(
            "Operands:\n  if=FILE       File to read [default: standard input]\n  of=IMAGE      Image to change, file or block device; or a character device,\n                to write to as to standard output [default: standard output]\n  ibs=BYTES     Bytes of an input block, 1 to 16777216 [default: 512]\n  obs=BYTES     Bytes of an output block [default: 512]\n  bs=BYTES      Both, 1 to 1099511627775, as far as there is memory\n  cbs=BYTES     Bytes of a record of block and unblock, 1 to 16777216\n  skip=BLOCKS   Input blocks to skip first [default: 0]\n  seek=BLOCKS   Output blocks in front of the place in IMAGE [default: 0]\n  count=BLOCKS  Most input blocks to copy [default: all]\n  conv=WORDS    Of block, unblock, lcase, ucase, swab, sync, notrunc, by commas;\n                fsync and fdatasync are taken, as all is put on the disk\n  iflag=WORDS   fullblock is taken, as input blocks are always filled\n  status=WORD   none: no counts; noxfer and progress change nothing\n\nNumbers: decimal, then b (512), k or K (1024), M (1048576) or G (1073741824);\nx multiplies, so 2x80 is 160, and 0x80 is 0.\nFurther suffixes: c (1), w (2), T, and of BYTES kB (1000), KiB (1024), and so\non with M, G and T.\n\nEXAMPLES:\n  bx dd if=boot.bin of=disk.img seek=1 conv=notrunc   onto byte 512 of an image\n  bx dd if=log.txt conv=ucase count=1                 512 bytes in upper case\n  bx dd if=cards conv=unblock cbs=80                  a line for each 80 bytes",
        );
    with_mounted(
        alloc,
        command,
        &DD,
        "Change a block device even while it is mounted",
    )?
    .arg(fresh(alloc))?
    .arg(dry_run(alloc))?
    .arg(no_grow(alloc))?
    .arg(operands(alloc))
}

fn operands<'a>(alloc: Global) -> Arg<'a> {
    Arg::new(alloc, "operand")
        .value_name("OPERAND")
        .num_args(1..)
        .action(ArgAction::Append)
        .help("NAME=VALUE, as below")
}

pub fn revert<'a>(alloc: Global) -> Result<Command<'a>, AllocError> {
    let command = Command::new(alloc, "revert")
        .about("Write the bytes of a dump onto an image")
        .after_help(
            "OFFSET: decimal, 0x and hexadecimal, or 0 and octal.\nImage, journal and redo file are made where they are missing.\n\nA line: an address in hexadecimal, a colon, a space, pairs of hexadecimal digits\nwith at most one space between two. From two spaces on nothing is read, so edit\nthe digits and not the characters beside them. Lines end in a newline alone.\n\nRead, but not as they are meant: dumps of xxd -b (binary digits), of xxd -e\n(bytes in another order) and of xxd -d (decimal addresses), and pairs behind a\ngap of two spaces, as in lines of hexdump -C.\n\nEXAMPLES:\n  echo '00000002: 7879' | bx revert disk.img     two bytes at place 2\n  bx revert -f edited.txt disk.img               a dump of xxd that was edited\n  echo 7879 | bx revert -p -s 0x200 disk.img     two bytes at place 512\n  bx revert -n -f edited.txt disk.img            what it would change",
        );
    writer(alloc, command, &REVERT)
}

pub fn undo<'a>(alloc: Global) -> Result<Command<'a>, AllocError> {
    let command = Command::new(alloc, "undo")
        .about("Take the last changes of an image back, and show how many are left")
        .after_help(
            "COUNT: decimal.\n\nEXAMPLES:\n  bx undo disk.img         the last change\n  bx undo -k 3 disk.img    the last three changes",
        );
    changer(alloc, command, &UNDO)
}

pub fn redo<'a>(alloc: Global) -> Result<Command<'a>, AllocError> {
    let command = Command::new(alloc, "redo")
        .about("Make the last undone changes again, and show how many then stand")
        .after_help(
            "COUNT: decimal. A change that another command makes gives up what was undone.\n\nEXAMPLES:\n  bx redo disk.img         the change that was undone last\n  bx redo -k 3 disk.img    the last three undone changes",
        );
    changer(alloc, command, &REDO)
}

pub fn patch<'a>(alloc: Global) -> Result<Command<'a>, AllocError> {
    let command = Command::new(alloc, "patch")
        .about("Apply a patch of bx diff to an image, as one change")
        .after_help(
            "The patch is read whole, and found right before anything is opened. The image\nhas to have the length that it states and the bytes behind each -; else nothing\nis changed. Image, journal and redo file are made where they are missing.\n\nEXAMPLES:\n  bx diff old.bin new.bin | bx patch disk.img    what makes new.bin of old.bin\n  bx patch -f fix.patch disk.img                 a patch that was kept\n  bx patch -R -f fix.patch disk.img              the same, the other way round\n  bx patch -n -f fix.patch disk.img              what it would change",
        );
    writer(alloc, command, &PATCH)
}
