//! The commands that dump FILE, or standard input.
use crate::options::rows::{ALSO, Row, with_group, with_more, with_rows};
use clap::{Arg, ArgAction, Command};
use std::alloc::{AllocError, Global};

static OD: [Row; 3] = [
    Row {
        id: "radix",
        short: 'A',
        value: Some("RADIX"),
        help: "Base of the addresses: d, o, x, or n for none [default: o]",
    },
    Row {
        id: "skip",
        short: 'j',
        value: Some("COUNT"),
        help: "Bytes to skip first [default: 0]",
    },
    Row {
        id: "limit",
        short: 'N',
        value: Some("COUNT"),
        help: "Maximum number of bytes to dump [default: all]",
    },
];

static OD_FLAGS: [Row; 7] = [
    Row {
        id: "o1",
        short: 'b',
        value: None,
        help: "Octal bytes, as -t o1",
    },
    Row {
        id: "chars",
        short: 'c',
        value: None,
        help: "Characters, as -t c",
    },
    Row {
        id: "u2",
        short: 'd',
        value: None,
        help: "Unsigned decimal of 2 bytes, as -t u2",
    },
    Row {
        id: "o2",
        short: 'o',
        value: None,
        help: "Octal of 2 bytes, as -t o2",
    },
    Row {
        id: "d2",
        short: 's',
        value: None,
        help: "Signed decimal of 2 bytes, as -t d2",
    },
    Row {
        id: "x2",
        short: 'x',
        value: None,
        help: "Hexadecimal of 2 bytes, as -t x2",
    },
    Row {
        id: "all",
        short: 'v',
        value: None,
        help: "Show every line [default: lines equal to the one before are one *]",
    },
];

/// What GNU's od has beside POSIX' options.
static OD_MORE: [Row; 2] = [
    Row {
        id: "d4",
        short: 'i',
        value: None,
        help: "Signed decimal of 4 bytes, as -t d4",
    },
    Row {
        id: "d8",
        short: 'l',
        value: None,
        help: "Signed decimal of 8 bytes, as -t d8",
    },
];

static XXD: [Row; 7] = [
    Row {
        id: "bits",
        short: 'b',
        value: None,
        help: "Eight binary digits for each byte",
    },
    Row {
        id: "cols",
        short: 'c',
        value: Some("COLS"),
        help: "Bytes on a line, 1 to 256 [default: 16; -b 6, -i 12, -p 30]",
    },
    Row {
        id: "group",
        short: 'g',
        value: Some("BYTES"),
        help: "Bytes in a group, 0 for one group a line [default: 2; -b 1]",
    },
    Row {
        id: "include",
        short: 'i',
        value: None,
        help: "A C array, with FILE as its name",
    },
    Row {
        id: "limit",
        short: 'l',
        value: Some("COUNT"),
        help: "Maximum number of bytes to dump [default: all]",
    },
    Row {
        id: "shift",
        short: 'o',
        value: Some("OFFSET"),
        help: "Bytes to add to the addresses shown [default: 0]",
    },
    Row {
        id: "plain",
        short: 'p',
        value: None,
        help: "Digits alone",
    },
];

static XXD_LAST: [Row; 1] = [Row {
    id: "upper",
    short: 'u',
    value: None,
    help: "Digits in upper case",
}];

static XXD_MORE: [Row; 4] = [
    Row {
        id: "decimal",
        short: 'd',
        value: None,
        help: "Addresses in decimal",
    },
    Row {
        id: "words",
        short: 'e',
        value: None,
        help: "Each group as a little-endian number [-g default: 4]",
    },
    Row {
        id: "array",
        short: 'n',
        value: Some("NAME"),
        help: "Name of the C array, with its length [default: that of FILE]",
    },
    Row {
        id: "revert",
        short: 'r',
        value: None,
        help: "Write the bytes of a dump, FILE, with -p and -s alone beside it",
    },
];

static XXD_STYLES: [&str; 4] = ["bits", "plain", "include", "words"];

static XXD_CASES: [&str; 2] = ["include", "upper"];

static HEXDUMP: [Row; 4] = [
    Row {
        id: "canonical",
        short: 'C',
        value: None,
        help: "The canonical form, the only one; must be given",
    },
    Row {
        id: "limit",
        short: 'n',
        value: Some("COUNT"),
        help: "Maximum number of bytes to dump [default: all]",
    },
    Row {
        id: "skip",
        short: 's',
        value: Some("COUNT"),
        help: "Bytes to skip first [default: 0]",
    },
    Row {
        id: "all",
        short: 'v',
        value: None,
        help: "Show every line [default: lines equal to the one before are one *]",
    },
];

static STRINGS: [Row; 3] = [
    Row {
        id: "whole",
        short: 'a',
        value: None,
        help: "Read the whole file, as is always done",
    },
    Row {
        id: "least",
        short: 'n',
        value: Some("COUNT"),
        help: "Minimum run length, 1 to 4096 [default: 4]",
    },
    Row {
        id: "offsets",
        short: 't',
        value: Some("RADIX"),
        help: "Show where each run begins, in d, o or x [default: no offsets]",
    },
];

/// What GNU's strings has beside POSIX' options.
static STRINGS_MORE: [Row; 2] = [
    Row {
        id: "named",
        short: 'f',
        value: None,
        help: "The name of its file, and a colon, in front of each line",
    },
    Row {
        id: "encoding",
        short: 'e',
        value: Some("ENCODING"),
        help: "Characters: s, S, b, l, B or L [default: s, 7-bit bytes]",
    },
];

/// A command that reads FILE, or standard input.
fn reader<'a>(
    alloc: Global,
    command: Command<'a>,
    rows: &[Row],
) -> Result<Command<'a>, AllocError> {
    let command = with_rows(alloc, command, rows)?;
    let file = Arg::new(alloc, "file")
        .value_name("FILE")
        .help("File to read [default: standard input]");
    command.arg(file)
}

/// A command that reads each FILE, or standard input; `help` says how.
fn reader_of_all<'a>(
    alloc: Global,
    command: Command<'a>,
    rows: &[Row],
    help: &'static str,
) -> Result<Command<'a>, AllocError> {
    let command = with_rows(alloc, command, rows)?;
    let files = Arg::new(alloc, "file")
        .value_name("FILE")
        .num_args(0..)
        .action(ArgAction::Append)
        .help(help);
    command.arg(files)
}

/// What the files of od and hexdump are.
const AS_ONE: &str = "Files to read, as one input [default: standard input]";

pub fn od<'a>(alloc: Global) -> Result<Command<'a>, AllocError> {
    let command = Command::new(alloc, "od")
        .about("Dump bytes as numbers or characters")
        .after_help(
            "COUNT: decimal, 0x and hexadecimal, or 0 and octal; then b (512), k (1024) or\nm (1048576). As GNU od has them also K, M, G, T and P, and kB (1000), MB and so\non; a TYPE may be a letter alone (4 bytes), have C, S, I or L for its size, and\nz behind it for the bytes as text. Each further type is a row below, for the\nsame bytes: -t x1z -t c is -t x1zc, and -xc is -t x2c. They are at most 16.\n\nEXAMPLES:\n  bx od -A x -t x1 disk.img     bytes in hexadecimal, with hexadecimal addresses\n  bx od -c -N 64 notes.txt      the first 64 bytes as characters\n  bx od -t u4 -j 1k disk.img    numbers of 4 bytes, from byte 1024 on",
        );
    let typed = with_rows(alloc, command, &OD)?.arg(types(alloc))?;
    let more = with_more(
        alloc,
        reader_of_all(alloc, typed, &OD_FLAGS, AS_ONE)?,
        &OD_MORE,
    )?;
    more.arg(endian(alloc))?.arg(width(alloc))
}

/// Types may be given again.
fn types<'a>(alloc: Global) -> Arg<'a> {
    Arg::new(alloc, "kind")
        .short('t')
        .action(ArgAction::Append)
        .value_name("TYPE")
        .help("Values: c, or d o u x and 1 2 4 8 bytes, as in x1 [default: o2]")
}

/// For numbers of other machines.
fn endian<'a>(alloc: Global) -> Arg<'a> {
    Arg::new(alloc, "endian")
        .help_heading(ALSO)
        .long("endian")
        .action(ArgAction::Set)
        .value_name("ORDER")
        .help("Bytes of a number: big or little [default: little]")
}

/// For lines as long as a record.
fn width<'a>(alloc: Global) -> Arg<'a> {
    Arg::new(alloc, "width")
        .help_heading(ALSO)
        .short('w')
        .long("width")
        .action(ArgAction::Set)
        .value_name("BYTES")
        .help("Bytes on a line, 1 to 256; -w alone is 32 [default: 16]")
}

pub fn xxd<'a>(alloc: Global) -> Result<Command<'a>, AllocError> {
    let command = Command::new(alloc, "xxd")
        .about("Dump bytes in hexadecimal")
        .after_help(
            "Numbers: decimal, 0x and hexadecimal, or 0 and octal.\n\nEXAMPLES:\n  bx xxd -l 512 disk.img                   the first 512 bytes\n  bx xxd -s 0x1000 -c 8 -g 1 disk.img      from byte 4096 on, 8 bytes on a line\n  bx xxd -p key.bin | bx revert -p image   the bytes of one file onto another\n  bx xxd -r edited.txt > disk.img          the bytes of a dump\n  bx xxd -r edited.txt disk.img            onto an image, as bx revert -f",
        );
    let styled = one_style(alloc, command)?;
    let grouped = one_case(alloc, styled)?;
    let placed = with_rows(alloc, grouped, &XXD)?.arg(seek(alloc))?;
    let read = reader(alloc, placed, &XXD_LAST)?
        .arg(out(alloc))?
        .arg(autoskip(alloc))?;
    with_more(alloc, read, &XXD_MORE)
}

/// Under -r alone.
fn out<'a>(alloc: Global) -> Arg<'a> {
    Arg::new(alloc, "out").value_name("OUT").help(
        "File to change under -r, as bx revert does [default: standard output]",
    )
}

/// Given twice it is off again.
fn autoskip<'a>(alloc: Global) -> Arg<'a> {
    Arg::new(alloc, "autoskip")
        .help_heading(ALSO)
        .short('a')
        .action(ArgAction::Count)
        .help("A row of zeros as its first line and a *; -a -a is off again")
}

/// A negative place counts from the end.
fn seek<'a>(alloc: Global) -> Arg<'a> {
    Arg::new(alloc, "seek")
        .short('s')
        .action(ArgAction::Set)
        .value_name("OFFSET")
        .allow_hyphen_values(true)
        .help("Bytes to skip first, -N all but the last N of FILE [default: 0]")
}

// Each of the two groups has a function of its own: a proof that sees one text in both statics takes twenty times as long.

/// One style at a time.
fn one_style<'a>(alloc: Global, command: Command<'a>) -> Result<Command<'a>, AllocError> {
    with_group(alloc, command, "style", &XXD_STYLES)
}

/// The C array has no upper case.
fn one_case<'a>(alloc: Global, command: Command<'a>) -> Result<Command<'a>, AllocError> {
    with_group(alloc, command, "case", &XXD_CASES)
}

pub fn hexdump<'a>(alloc: Global) -> Result<Command<'a>, AllocError> {
    let command = Command::new(alloc, "hexdump")
        .about("Dump bytes in hexadecimal beside their characters")
        .after_help(
            "COUNT: decimal, 0x and hexadecimal, or 0 and octal;\nthen b (512), k (1024) or m (1048576).\n\nEXAMPLES:\n  bx hexdump -C disk.img\n  bx hexdump -C -s 1m -n 256 disk.img    256 bytes, from byte 1048576 on",
        );
    reader_of_all(alloc, command, &HEXDUMP, AS_ONE)
}

pub fn strings<'a>(alloc: Global) -> Result<Command<'a>, AllocError> {
    let command = Command::new(alloc, "strings")
        .about("Show the printable runs of a file")
        .after_help(
            "COUNT: decimal.\n\nEXAMPLES:\n  bx strings program\n  bx strings -n 8 -t x program    runs of 8 bytes and more, with their places",
        );
    let each = reader_of_all(
        alloc,
        command,
        &STRINGS,
        "Files to read, one by one [default: standard input]",
    )?;
    with_more(alloc, each, &STRINGS_MORE)
}
