//! The subcommands and their options, as clap takes them.
mod changes;
mod dumps;
mod images;
mod looks;
mod rows;

use clap::{Arg, ArgAction, Command};
use std::alloc::{AllocError, Global};

/// A subcommand.
#[derive(Clone, Copy)]
pub enum Verb {
    Od,
    Xxd,
    Hexdump,
    Strings,
    Dd,
    Revert,
    Undo,
    Redo,
    Log,
    Show,
    Diff,
    Patch,
    Forget,
}

/// All subcommands, in the order of the help.
static VERBS: [Verb; 13] = [
    Verb::Od,
    Verb::Xxd,
    Verb::Hexdump,
    Verb::Strings,
    Verb::Dd,
    Verb::Revert,
    Verb::Undo,
    Verb::Redo,
    Verb::Log,
    Verb::Show,
    Verb::Diff,
    Verb::Patch,
    Verb::Forget,
];

impl Verb {
    /// How it is called.
    fn name(self) -> &'static str {
        match self {
            Verb::Od => "od",
            Verb::Xxd => "xxd",
            Verb::Hexdump => "hexdump",
            Verb::Strings => "strings",
            Verb::Dd => "dd",
            Verb::Revert => "revert",
            Verb::Undo => "undo",
            Verb::Redo => "redo",
            Verb::Log => "log",
            Verb::Show => "show",
            Verb::Diff => "diff",
            Verb::Patch => "patch",
            Verb::Forget => "forget",
        }
    }

    /// The identifier of its operand, where it takes one and no more.
    pub fn operand(self) -> Option<&'static str> {
        match self {
            Verb::Od | Verb::Xxd | Verb::Hexdump | Verb::Strings => Some("file"),
            Verb::Revert
            | Verb::Undo
            | Verb::Redo
            | Verb::Log
            | Verb::Show
            | Verb::Patch
            | Verb::Forget => Some("image"),
            Verb::Dd | Verb::Diff => None,
        }
    }

    /// What it takes.
    fn command<'a>(self, alloc: Global) -> Result<Command<'a>, AllocError> {
        match self {
            Verb::Od => dumps::od(alloc),
            Verb::Xxd => dumps::xxd(alloc),
            Verb::Hexdump => dumps::hexdump(alloc),
            Verb::Strings => dumps::strings(alloc),
            Verb::Dd => changes::dd(alloc),
            Verb::Revert => changes::revert(alloc),
            Verb::Undo => changes::undo(alloc),
            Verb::Redo => changes::redo(alloc),
            Verb::Log => looks::log(alloc),
            Verb::Show => looks::show(alloc),
            Verb::Diff => looks::diff(alloc),
            Verb::Patch => changes::patch(alloc),
            Verb::Forget => looks::forget(alloc),
        }
    }

    /// The one that is called so.
    pub fn of(name: &str) -> Option<Verb> {
        VERBS.iter().copied().find(|verb| verb.name() == name)
    }
}

/// All that the program takes.
pub fn program<'a>(alloc: Global) -> Result<Command<'a>, AllocError> {
    program_of(alloc, &VERBS)
}

/// What the program takes of words that begin with this one. Where it calls a subcommand, that is the only one: such words get
/// to no other, and nothing that is said of them names another.
pub fn program_behind<'a>(alloc: Global, first: &str) -> Result<Command<'a>, AllocError> {
    match Verb::of(first) {
        Some(verb) => program_of(alloc, &[verb]),
        None => program(alloc),
    }
}

/// For a script, whose standard error is no terminal. The program takes it from the words before they are read here.
fn verbose<'a>(alloc: Global) -> Arg<'a> {
    Arg::new(alloc, "verbose")
        .short('v')
        .long("verbose")
        .action(ArgAction::SetTrue)
        .help("Write hints to a file or a pipe too, not only to a terminal")
}

/// The program with these subcommands.
fn program_of<'a>(alloc: Global, verbs: &[Verb]) -> Result<Command<'a>, AllocError> {
    let mut program = Command::new(alloc, "bx")
        .version("1.3.0")
        .about("A byte toolkit with undo: dumps files, patches them, and takes changes back")
        .after_help(
            "EXAMPLES:\n  bx xxd -l 64 disk.img\n  echo '00000002: 7879' | bx revert disk.img\n  bx undo disk.img\n  bx redo disk.img\n  bx -v undo disk.img    as on a terminal, with hints, in a script too\n\nThe exit status is 0, 1 for a fault, and 2 for wrong words.\nSee 'bx COMMAND --help' for its options, and 'man bx' for formats and faults.",
        )
        .subcommand_required(true)
        .arg(verbose(alloc))?;
    for verb in verbs {
        program = taking(program, verb.command(alloc))?;
    }
    Ok(program)
}

/// The program with one command more.
fn taking<'a>(
    program: Command<'a>,
    command: Result<Command<'a>, AllocError>,
) -> Result<Command<'a>, AllocError> {
    program.subcommand(command?)
}
