//! From words to a job.
ghost use Rattle.std.specs.Prelude.{◌≡◌, ◌≤◌, ◌^◌, IfOk};

use crate::dashed::by_letter;
use crate::given::Given;
use crate::options::{Verb, program_behind};
use crate::types::Types;
use bx_cli_commands::{
    Access, ChangeJob, DdImageJob, DdJob, DiffJob, DumpJob, Durability, Fault, ForgetJob,
    HexdumpJob, Job, LayJob, LogJob, LookJob, MOST_COLUMNS, MOST_LEAST, MOST_STEPS, OdJob,
    PatchJob, RevertJob, ShowJob, StepsJob, StringsJob, Target, XxdJob, XxdLook, bytes, columns,
    count_or, encoding, endian, name_of, number, number_or, radix, texts_of, word_len,
};
use bx_dd::parse;
use bx_dump::hexdump::HexdumpOptions;
use bx_dump::od::{Address, OdOptions};
use bx_dump::strings::StringsOptions;
use bx_dump::xxd::XxdOptions;
use bx_journal::Direction;
use bx_text::{IoFault, Name, SizeStyle, Words};
use clap::Error;
use clap::error::ErrorKind;
use std::alloc::Global;

/// The words as clap takes them, behind the program's name: those that xxd has behind one dash, up to a `--`, by their letters.
pub(crate) fn words_of(alloc: Global, words: &Words) -> Result<Vec<&str>, Fault> {
    let mut texts = Vec::new(alloc);
    texts.push("bx").map_err(|_| Fault::Io(IoFault::NoMemory))?;
    let mut is_of_xxd = words.get(0) == Some("xxd");
    for i in 0..words.len() {
        if let Some(word) = words.get(i) {
            is_of_xxd = is_of_xxd && word != "--";
            push_word(&mut texts, if is_of_xxd { by_letter(word) } else { word })?;
        }
    }
    Ok(texts)
}

/// Puts a word behind the others, and behind od's -w without a number its own.
fn push_word<'a>(texts: &mut Vec<&'a str>, word: &'a str) -> Result<(), Fault> {
    let bare = texts.get(1) == Some(&"od") && is_bare_width(word) && !texts.contains(&"--");
    texts.push(word).map_err(|_| Fault::Io(IoFault::NoMemory))?;
    if bare {
        texts.push("32").map_err(|_| Fault::Io(IoFault::NoMemory))?;
    }
    Ok(())
}

/// Whether a word ends in od's -w, behind flags alone.
fn is_bare_width(word: &str) -> bool {
    if word == "--width" {
        return true;
    }
    match word.strip_prefix('-') {
        Some(letters) => match letters.strip_suffix('w') {
            Some(flags) => flags.bytes().all(|flag| b"bcdilosvx".contains(&flag)),
            None => false,
        },
        None => false,
    }
}

/// The job that the words ask for; the words are those behind the program's name.
pub fn plan_words(alloc: Global, words: &Words) -> Result<Job, Fault> {
    if let Some((verb, given)) = Given::alone(words) {
        return job_of(alloc, verb, &given);
    }
    let texts = words_of(alloc, words)?;
    let command = program_behind(alloc, words.get(0).unwrap_or(""))?;
    let matches = match command.try_get_matches_from(texts.as_slice()) {
        Ok(matches) => matches,
        Err(error) => return refused(alloc, error),
    };
    let Some((name, inner)) = matches.subcommand() else {
        return Err(Fault::Usage);
    };
    match Verb::of(name) {
        Some(verb) => job_of(alloc, verb, &Given::Read(inner)),
        None => Err(Fault::Usage),
    }
}

// Words that ask for help are no mistake.
fn refused(alloc: Global, error: Error) -> Result<Job, Fault> {
    match error.kind() {
        ErrorKind::DisplayHelp | ErrorKind::DisplayVersion => {
            let text = error.to_string(alloc)?;
            Ok(Job::Help {
                text: Name::from_string(text),
            })
        }
        ErrorKind::OutOfMemory => Err(Fault::Io(IoFault::NoMemory)),
        ErrorKind::InvalidValue
        | ErrorKind::UnknownArgument
        | ErrorKind::InvalidSubcommand
        | ErrorKind::NoEquals
        | ErrorKind::ValueValidation
        | ErrorKind::TooManyValues
        | ErrorKind::TooFewValues
        | ErrorKind::WrongNumberOfValues
        | ErrorKind::ArgumentConflict
        | ErrorKind::MissingRequiredArgument
        | ErrorKind::MissingSubcommand
        | ErrorKind::DisplayHelpOnMissingArgumentOrSubcommand
        | ErrorKind::Io
        | ErrorKind::Format => Err(Fault::Usage),
    }
}

fn job_of(alloc: Global, verb: Verb, inner: &Given<'_, '_>) -> Result<Job, Fault> {
    match verb {
        Verb::Od => Ok(Job::Dump(DumpJob::Od(od(alloc, inner)?))),
        Verb::Xxd => xxd_or_back(alloc, inner),
        Verb::Hexdump => Ok(Job::Dump(DumpJob::Hexdump(hexdump(alloc, inner)?))),
        Verb::Strings => Ok(Job::Dump(DumpJob::Strings(strings(alloc, inner)?))),
        Verb::Dd => dd(alloc, inner),
        Verb::Revert => Ok(Job::Change(ChangeJob::Revert(revert(alloc, inner)?))),
        Verb::Undo => Ok(Job::Change(ChangeJob::Undo(steps(alloc, inner)?))),
        Verb::Redo => Ok(Job::Change(ChangeJob::Redo(steps(alloc, inner)?))),
        Verb::Log => Ok(Job::Look(LookJob::Log(log(alloc, inner)?))),
        Verb::Show => Ok(Job::Look(LookJob::Show(show(alloc, inner)?))),
        Verb::Diff => Ok(Job::Diff(diff(alloc, inner)?)),
        Verb::Patch => Ok(Job::Change(ChangeJob::Patch(patch(alloc, inner)?))),
        Verb::Forget => Ok(Job::Change(ChangeJob::Forget(forget(alloc, inner)?))),
    }
}

fn name(alloc: Global, m: &Given<'_, '_>, id: &str) -> Result<Option<Name>, Fault> {
    match m.get_str(id) {
        None => Ok(None),
        Some(text) => Ok(Some(name_of(alloc, text)?)),
    }
}

/// The input that is named. Its name `-` is that of standard input, as it is in the tools.
fn input(alloc: Global, m: &Given<'_, '_>) -> Result<Option<Name>, Fault> {
    match m.get_str("file") {
        Some("-") => Ok(None),
        _ => name(alloc, m, "file"),
    }
}

/// The names of the files behind the first.
fn more(alloc: Global, m: &Given<'_, '_>) -> Result<Words, Fault> {
    let mut more = Words::new(alloc);
    if let Some(names) = m.get_strs("file") {
        for name in names.iter().skip(1) {
            more.push(name)?;
        }
    }
    Ok(more)
}

// The image that is named, the texts beside it, and how they are used.
fn target(alloc: Global, m: &Given<'_, '_>, access: Access) -> Result<Target, Fault> {
    let Some(image) = m.get_str("image") else {
        return Err(Fault::Usage);
    };
    target_of(alloc, m, image, access)
}

fn target_of(alloc: Global, m: &Given<'_, '_>, image: &str, access: Access) -> Result<Target, Fault>
    ensures { IfOk result (λ t. t.image ≡ image.now) }
{
    let texts = texts_of(alloc, m.get_str("journal"), image)?;
    if is_beside(image, texts.journal.as_str()) {
        return Err(Fault::Usage);
    }
    Ok(Target {
        image: name_of(alloc, image)?,
        texts,
        access,
    })
}

/// Whether a journal has the name of another text that the image has without `-J`.
fn is_beside(image: &str, journal: &str) -> bool {
    matches!(
        journal.strip_prefix(image),
        Some(".bxj.redo" | ".bxj.image")
    )
}

fn access(m: &Given<'_, '_>) -> Access {
    let durability = if m.get_flag("unsynced") {
        Durability::Unsynced
    } else {
        Durability::Synced
    };
    Access {
        durability,
        mounted: m.get_flag("mounted"),
        anyway: m.get_flag("anyway"),
    }
}

fn od(alloc: Global, m: &Given<'_, '_>) -> Result<OdJob, Fault> {
    let types = Types::of(m)?;
    let (first, below) = types.split()?;
    Ok(OdJob {
        options: OdOptions {
            address: radix(m.get_str("radix"), Address::Octal, true)?,
            kind: first.kind,
            text: first.text,
            below,
            endian: endian(m.get_str("endian"))?,
            width: types.width(m.get_str("width"))?,
            first: 0,
            skip: bytes(m.get_str("skip"))?.unwrap_or(0),
            limit: bytes(m.get_str("limit"))?,
            all: m.get_flag("all"),
        },
        file: input(alloc, m)?,
        more: more(alloc, m)?,
    })
}

/// The look that the flags of xxd ask for, and the bytes of a line without `-c`.
fn flagged(m: &Given<'_, '_>) -> (XxdLook, u64)
    ensures { (1 ≤ result.1) × (result.1 ≤ 256) }
{
    let decimal = m.get_flag("decimal");
    if m.get_flag("plain") {
        (XxdLook::Plain, 30)
    } else if m.get_flag("include") {
        (XxdLook::Include, 12)
    } else if m.get_flag("words") {
        (XxdLook::Words { decimal }, 16)
    } else if decimal {
        let bits = m.get_flag("bits");
        (XxdLook::Decimal { bits }, if bits { 6 } else { 16 })
    } else if m.get_flag("bits") {
        (XxdLook::Bits, 6)
    } else {
        (XxdLook::Normal, 16)
    }
}

/// The look of xxd's dump, and the bytes of a line.
pub(crate) fn look(m: &Given<'_, '_>) -> Result<(XxdLook, u16), Fault>
    ensures { IfOk result (λ found. (1 ≤ found.1) × (found.1 ≤ 256)) }
{
    let cols = m.get_str("cols");
    let (look, default) = flagged(m);
    if look == XxdLook::Plain && number(cols, SizeStyle::Bare)? == Some(0) {
        return Ok((XxdLook::Unbroken, 30));
    }
    Ok((look, columns(cols, default)?))
}

/// The bytes of a group in lines of `cols` bytes.
fn group(m: &Given<'_, '_>, look: XxdLook, cols: u16) -> Result<u16, Fault>
    requires { 1 ≤ cols }
    ensures { IfOk result (λ n. n ≤ 256) }
{
    let default = match look {
        XxdLook::Words { .. } => 4,
        XxdLook::Bits | XxdLook::Decimal { bits: true } => 1,
        _ => 2,
    };
    let group = number_or(m.get_str("group"), SizeStyle::Bare, default)?.min(MOST_COLUMNS) as u16;
    match look {
        XxdLook::Words { .. } => word_len(cols, group),
        _ => Ok(group),
    }
}

/// The place to begin at, from the start, or where a number is negative from the end.
fn place(m: &Given<'_, '_>) -> Result<(u64, Option<u64>), Fault>
    ensures { IfOk result (λ found. found.0 ≤ 2 ^ 62) }
{
    let text = m.get_str("seek");
    match text.and_then(|text| text.strip_prefix('-')) {
        Some(back) => Ok((0, number(Some(back), SizeStyle::Bare)?)),
        None => Ok((number_or(text, SizeStyle::Bare, 0)?, None)),
    }
}

fn xxd(alloc: Global, m: &Given<'_, '_>) -> Result<XxdJob, Fault> {
    let (look, cols) = look(m)?;
    let group = group(m, look, cols)?;
    let (seek, from_end) = place(m)?;
    Ok(XxdJob {
        look,
        options: XxdOptions {
            cols,
            group,
            limit: number(m.get_str("limit"), SizeStyle::Bare)?,
            seek,
            shift: number_or(m.get_str("shift"), SizeStyle::Bare, 0)?,
            upper: m.get_flag("upper"),
            autoskip: m.get_count("autoskip") % 2 == 1,
        },
        from_end,
        array: name(alloc, m, "array")?,
        file: input(alloc, m)?,
    })
}

/// A dump, or with `-r` its way back.
fn xxd_or_back(alloc: Global, m: &Given<'_, '_>) -> Result<Job, Fault> {
    if m.get_flag("revert") {
        return back(alloc, m);
    }
    match m.get_str("out") {
        Some(_) => Err(Fault::Usage),
        None => Ok(Job::Dump(DumpJob::Xxd(xxd(alloc, m)?))),
    }
}

/// The way back of a dump: to standard output, or onto a file as `revert` writes it.
fn back(alloc: Global, m: &Given<'_, '_>) -> Result<Job, Fault> {
    if beside_back(m).is_some() || is_onto_itself(m) {
        return Err(Fault::Usage);
    }
    let at = number_or(m.get_str("seek"), SizeStyle::Bare, 0)?;
    let dump = input(alloc, m)?;
    let plain = m.get_flag("plain");
    match m.get_str("out") {
        None | Some("-") => Ok(Job::Lay(LayJob { dump, plain, at })),
        Some(image) => Ok(Job::Change(ChangeJob::Revert(RevertJob {
            dump,
            plain,
            at,
            target: target_of(alloc, m, image, access(m))?,
            fresh: false,
            dry_run: false,
            no_grow: false,
        }))),
    }
}

/// The first option that means nothing beside `-r`.
pub(crate) fn beside_back(m: &Given<'_, '_>) -> Option<&'static str> {
    if m.get_count("autoskip") > 0 {
        return Some("-a");
    }
    for (id, option) in &FLAGS {
        if m.get_flag(id) {
            return Some(*option);
        }
    }
    value_beside_back(m)
}

/// The first option with a value that means nothing beside `-r`.
fn value_beside_back(m: &Given<'_, '_>) -> Option<&'static str> {
    for (id, option) in &VALUES {
        if m.get_str(id).is_some() {
            return Some(*option);
        }
    }
    None
}

/// The flags of xxd that a dump's way back doesn't have.
static FLAGS: [(&str, &str); 5] = [
    ("bits", "-b"),
    ("include", "-i"),
    ("words", "-e"),
    ("decimal", "-d"),
    ("upper", "-u"),
];

/// Its options with a value that a dump's way back doesn't have.
static VALUES: [(&str, &str); 5] = [
    ("cols", "-c"),
    ("group", "-g"),
    ("limit", "-l"),
    ("array", "-n"),
    ("shift", "-o"),
];

/// Whether the dump is the file that is to be written.
pub(crate) fn is_onto_itself(m: &Given<'_, '_>) -> bool {
    match (m.get_str("file"), m.get_str("out")) {
        (Some(dump), Some(out)) => dump == out && dump != "-",
        (Some(_), None) | (None, _) => false,
    }
}

// The canonical form has to be asked for: there is no other.
fn hexdump(alloc: Global, m: &Given<'_, '_>) -> Result<HexdumpJob, Fault> {
    if !m.get_flag("canonical") {
        return Err(Fault::Usage);
    }
    Ok(HexdumpJob {
        options: HexdumpOptions {
            first: 0,
            skip: number_or(m.get_str("skip"), SizeStyle::Count, 0)?,
            limit: number(m.get_str("limit"), SizeStyle::Count)?,
            all: m.get_flag("all"),
        },
        file: input(alloc, m)?,
        more: more(alloc, m)?,
    })
}

fn strings(alloc: Global, m: &Given<'_, '_>) -> Result<StringsJob, Fault> {
    let least = count_or(m.get_str("least"), 4, MOST_LEAST)? as u16;
    if least == 0 {
        return Err(Fault::Usage);
    }
    Ok(StringsJob {
        options: StringsOptions {
            encoding: encoding(m.get_str("encoding"))?,
            least,
            offsets: radix(m.get_str("offsets"), Address::Without, false)?,
        },
        named: m.get_flag("named"),
        file: input(alloc, m)?,
        more: more(alloc, m)?,
    })
}

fn operands_of(alloc: Global, m: &Given<'_, '_>) -> Result<Words, Fault> {
    let mut operands = Words::new(alloc);
    if let Given::Read(matches) = m {
        if let Some(words) = matches.get_strs("operand") {
            for word in words {
                operands.push(word)?;
            }
        }
    }
    Ok(operands)
}

// To a stream, or onto the image that `of=` names. The operands' faults come before that of the texts' names.
fn dd(alloc: Global, m: &Given<'_, '_>) -> Result<Job, Fault> {
    let operands = operands_of(alloc, m)?;
    let plan = parse(alloc, &operands)?;
    let target = match &plan.output {
        Some(image) => target_of(alloc, m, image.as_str(), access(m))?,
        None => return Ok(Job::Dump(DumpJob::Dd(DdJob { plan, operands }))),
    };
    Ok(Job::Change(ChangeJob::Dd(DdImageJob {
        plan,
        operands,
        target,
        fresh: m.get_flag("fresh"),
        dry_run: m.get_flag("dry-run"),
        no_grow: m.get_flag("no-grow"),
    })))
}

fn revert(alloc: Global, m: &Given<'_, '_>) -> Result<RevertJob, Fault> {
    let at = number_or(m.get_str("offset"), SizeStyle::Bare, 0)?;
    let target = target(alloc, m, access(m))?;
    Ok(RevertJob {
        dump: name(alloc, m, "dump")?,
        plain: m.get_flag("plain"),
        at,
        target,
        fresh: m.get_flag("fresh"),
        dry_run: m.get_flag("dry-run"),
        no_grow: m.get_flag("no-grow"),
    })
}

fn patch(alloc: Global, m: &Given<'_, '_>) -> Result<PatchJob, Fault> {
    let target = target(alloc, m, access(m))?;
    Ok(PatchJob {
        patch: name(alloc, m, "patch")?,
        reverse: m.get_flag("reverse"),
        target,
        fresh: m.get_flag("fresh"),
        dry_run: m.get_flag("dry-run"),
        no_grow: m.get_flag("no-grow"),
    })
}

fn forget(alloc: Global, m: &Given<'_, '_>) -> Result<ForgetJob, Fault> {
    let target = target(alloc, m, access(m))?;
    Ok(ForgetJob { target })
}

fn steps(alloc: Global, m: &Given<'_, '_>) -> Result<StepsJob, Fault> {
    let count = count_or(m.get_str("count"), 1, MOST_STEPS)? as u32;
    let target = target(alloc, m, access(m))?;
    Ok(StepsJob { count, target })
}

fn log(alloc: Global, m: &Given<'_, '_>) -> Result<LogJob, Fault> {
    let target = target(alloc, m, access(m))?;
    Ok(LogJob {
        verbose: m.get_flag("verbose"),
        target,
    })
}

// Nothing of the image is written, so nothing is waited for.
fn show(alloc: Global, m: &Given<'_, '_>) -> Result<ShowJob, Fault> {
    let count = count_or(m.get_str("count"), 1, MOST_STEPS)? as u32;
    let access = Access {
        durability: Durability::Unsynced,
        mounted: false,
        anyway: false,
    };
    let target = target(alloc, m, access)?;
    let way = if m.get_flag("redo") {
        Direction::Redo
    } else {
        Direction::Undo
    };
    Ok(ShowJob {
        way,
        count,
        compares: m.get_flag("difference"),
        as_patch: m.get_flag("patch"),
        target,
    })
}

fn diff(alloc: Global, m: &Given<'_, '_>) -> Result<DiffJob, Fault> {
    let (Some(old), Some(new)) = (m.get_str("old"), m.get_str("new")) else {
        return Err(Fault::Usage);
    };
    Ok(DiffJob {
        rows: m.get_flag("rows"),
        quiet: m.get_flag("quiet"),
        old: name_of(alloc, old)?,
        new: name_of(alloc, new)?,
    })
}
