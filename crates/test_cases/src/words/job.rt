//! The fields of jobs, as a case file names them.
use bx_cli::{
    Access, ChangeJob, DdImageJob, DdJob, DiffJob, DumpJob, Durability, ForgetJob, HexdumpJob, Job,
    LayJob, LogJob, LookJob, OdJob, PatchJob, RevertJob, ShowJob, StepsJob, StringsJob, Target,
    XxdJob, XxdLook,
};
use bx_dd::{Letters, Plan, Shape};
use bx_dump::od::{Address, Endian, Kind, NumForm, Size};
use bx_dump::strings::Encoding;
use bx_journal::Direction;
use bx_text::{Name, Words};
use std::alloc::{AllocError, Global};
use test_case_sessions::report::compare::{Wrong, differs, same_text};

/// What a field of a job says.
#[derive(Clone, Copy)]
enum Field<'a> {
    /// The job has no such field.
    Missing,
    Text(&'a str),
    Number(u64),
    /// A letter and how many bytes a value has.
    Form(&'a str, u64),
    /// These words with commas between them.
    Joined(&'a Words),
}

/// The subcommand of a job.
fn name_of(job: &Job) -> &'static str {
    match job {
        Job::Dump(DumpJob::Od(_)) => "od",
        Job::Dump(DumpJob::Xxd(_)) => "xxd",
        Job::Dump(DumpJob::Hexdump(_)) => "hexdump",
        Job::Dump(DumpJob::Strings(_)) => "strings",
        Job::Dump(DumpJob::Dd(_)) | Job::Change(ChangeJob::Dd(_)) => "dd",
        Job::Lay(_) => "lay",
        Job::Change(ChangeJob::Revert(_)) => "revert",
        Job::Change(ChangeJob::Patch(_)) => "patch",
        Job::Change(ChangeJob::Forget(_)) => "forget",
        Job::Change(ChangeJob::Undo(_)) => "undo",
        Job::Change(ChangeJob::Redo(_)) => "redo",
        Job::Look(LookJob::Log(_)) => "log",
        Job::Look(LookJob::Show(_)) => "show",
        Job::Diff(_) => "diff",
        Job::Help { .. } => "help",
    }
}

fn flag<'a>(is_set: bool) -> Field<'a> {
    Field::Text(if is_set { "yes" } else { "no" })
}

fn limit<'a>(limit: Option<u64>) -> Field<'a> {
    match limit {
        Some(n) => Field::Number(n),
        None => Field::Text("none"),
    }
}

fn access_field<'a>(access: Access, name: &str) -> Field<'a> {
    match name {
        "unsynced" => flag(access.durability == Durability::Unsynced),
        "mounted" => flag(access.mounted),
        "anyway" => flag(access.anyway),
        _ => Field::Missing,
    }
}

fn file(file: &Option<Name>) -> Field<'_> {
    match file {
        Some(name) => Field::Text(name.as_str()),
        None => Field::Text("none"),
    }
}

fn address<'a>(address: Address) -> Field<'a> {
    Field::Text(match address {
        Address::Octal => "o",
        Address::Decimal => "d",
        Address::Hexadecimal => "x",
        Address::Without => "n",
    })
}

fn kind<'a>(kind: Kind) -> Field<'a> {
    let Kind::Number { form, size } = kind else {
        return Field::Text("c");
    };
    let letter = match form {
        NumForm::Signed => "d",
        NumForm::Octal => "o",
        NumForm::Unsigned => "u",
        NumForm::Hexadecimal => "x",
    };
    let bytes = match size {
        Size::One => 1,
        Size::Two => 2,
        Size::Four => 4,
        Size::Eight => 8,
    };
    Field::Form(letter, bytes)
}

fn encoding<'a>(encoding: Encoding) -> Field<'a> {
    Field::Text(match encoding {
        Encoding::SevenBits => "s",
        Encoding::EightBits => "S",
        Encoding::SixteenBits { big: true } => "b",
        Encoding::SixteenBits { big: false } => "l",
        Encoding::ThirtyTwoBits { big: true } => "B",
        Encoding::ThirtyTwoBits { big: false } => "L",
    })
}

fn endian<'a>(endian: Endian) -> Field<'a> {
    Field::Text(match endian {
        Endian::Little => "little",
        Endian::Big => "big",
    })
}

fn od_field<'a>(job: &'a OdJob, name: &str) -> Field<'a> {
    match name {
        "address" => address(job.options.address),
        "kind" => kind(job.options.kind),
        "text" => flag(job.options.text),
        "below" => Field::Number(job.options.below.count as u64),
        "endian" => endian(job.options.endian),
        "width" => Field::Number(job.options.width as u64),
        "first" => Field::Number(job.options.first),
        "skip" => Field::Number(job.options.skip),
        "limit" => limit(job.options.limit),
        "all" => flag(job.options.all),
        "file" => file(&job.file),
        "more" => Field::Joined(&job.more),
        _ => Field::Missing,
    }
}

fn look<'a>(look: XxdLook) -> Field<'a> {
    Field::Text(match look {
        XxdLook::Normal => "normal",
        XxdLook::Plain => "plain",
        XxdLook::Bits => "bits",
        XxdLook::Include => "include",
        XxdLook::Unbroken => "unbroken",
        XxdLook::Decimal { bits: false } => "decimal",
        XxdLook::Decimal { bits: true } => "decimal-bits",
        XxdLook::Words { decimal: false } => "words",
        XxdLook::Words { decimal: true } => "decimal-words",
    })
}

fn xxd_field<'a>(job: &'a XxdJob, name: &str) -> Field<'a> {
    match name {
        "look" => look(job.look),
        "cols" => Field::Number(job.options.cols as u64),
        "group" => Field::Number(job.options.group as u64),
        "limit" => limit(job.options.limit),
        "seek" => Field::Number(job.options.seek),
        "from_end" => limit(job.from_end),
        "shift" => Field::Number(job.options.shift),
        "upper" => flag(job.options.upper),
        "autoskip" => flag(job.options.autoskip),
        "array" => file(&job.array),
        "file" => file(&job.file),
        _ => Field::Missing,
    }
}

fn hexdump_field<'a>(job: &'a HexdumpJob, name: &str) -> Field<'a> {
    match name {
        "first" => Field::Number(job.options.first),
        "skip" => Field::Number(job.options.skip),
        "limit" => limit(job.options.limit),
        "all" => flag(job.options.all),
        "file" => file(&job.file),
        "more" => Field::Joined(&job.more),
        _ => Field::Missing,
    }
}

fn strings_field<'a>(job: &'a StringsJob, name: &str) -> Field<'a> {
    match name {
        "least" => Field::Number(job.options.least as u64),
        "offsets" => address(job.options.offsets),
        "encoding" => encoding(job.options.encoding),
        "named" => flag(job.named),
        "file" => file(&job.file),
        "more" => Field::Joined(&job.more),
        _ => Field::Missing,
    }
}

/// The field of a dd to a stream, which has no texts.
fn dd_field<'a>(job: &'a DdJob, name: &str) -> Field<'a> {
    match name {
        "operands" => Field::Joined(&job.operands),
        "journal" | "redo" => Field::Text("none"),
        _ => plan_field(&job.plan, name),
    }
}

/// The field of a dd onto an image.
fn dd_image_field<'a>(job: &'a DdImageJob, name: &str) -> Field<'a> {
    match name {
        "operands" => Field::Joined(&job.operands),
        "journal" | "redo" | "unsynced" | "mounted" | "anyway" => {
            target_field(&job.target, name)
        }
        "fresh" => flag(job.fresh),
        "dry_run" => flag(job.dry_run),
        "no_grow" => flag(job.no_grow),
        _ => plan_field(&job.plan, name),
    }
}

fn plan_field<'a>(plan: &'a Plan, name: &str) -> Field<'a> {
    match name {
        "ibs" => Field::Number(plan.ibs),
        "obs" => Field::Number(plan.obs),
        "cbs" => Field::Number(plan.cbs),
        "skip" => Field::Number(plan.skip),
        "seek" => Field::Number(plan.seek),
        "count" => limit(plan.count),
        "input" => file(&plan.input),
        "output" => file(&plan.output),
        _ => conversion(plan, name),
    }
}

fn conversion<'a>(plan: &'a Plan, name: &str) -> Field<'a> {
    match name {
        "swab" => flag(plan.swab),
        "sync" => flag(plan.sync),
        "notrunc" => flag(plan.notrunc),
        "quiet" => flag(plan.quiet),
        "lcase" => flag(plan.letters == Letters::Lower),
        "ucase" => flag(plan.letters == Letters::Upper),
        "block" => flag(plan.shape == Shape::Block),
        "unblock" => flag(plan.shape == Shape::Unblock),
        _ => Field::Missing,
    }
}

fn revert_field<'a>(job: &'a RevertJob, name: &str) -> Field<'a> {
    match name {
        "dump" => file(&job.dump),
        "plain" => flag(job.plain),
        "at" => Field::Number(job.at),
        "fresh" => flag(job.fresh),
        "dry_run" => flag(job.dry_run),
        "no_grow" => flag(job.no_grow),
        _ => target_field(&job.target, name),
    }
}

fn patch_field<'a>(job: &'a PatchJob, name: &str) -> Field<'a> {
    match name {
        "patch" => file(&job.patch),
        "reverse" => flag(job.reverse),
        "fresh" => flag(job.fresh),
        "dry_run" => flag(job.dry_run),
        "no_grow" => flag(job.no_grow),
        _ => target_field(&job.target, name),
    }
}

fn forget_field<'a>(job: &'a ForgetJob, name: &str) -> Field<'a> {
    target_field(&job.target, name)
}

/// A field of the image that a job works on.
fn target_field<'a>(target: &'a Target, name: &str) -> Field<'a> {
    match name {
        "unsynced" | "mounted" | "anyway" => access_field(target.access, name),
        _ => image_field(target, name),
    }
}

/// The name of an image, or of a text beside it.
fn image_field<'a>(target: &'a Target, name: &str) -> Field<'a> {
    Field::Text(match name {
        "image" => target.image.as_str(),
        "journal" => target.texts.journal.as_str(),
        "redo" => target.texts.redo.as_str(),
        _ => return Field::Missing,
    })
}

fn steps_field<'a>(job: &'a StepsJob, name: &str) -> Field<'a> {
    match name {
        "count" => Field::Number(job.count as u64),
        _ => target_field(&job.target, name),
    }
}

fn log_field<'a>(job: &'a LogJob, name: &str) -> Field<'a> {
    match name {
        "verbose" => flag(job.verbose),
        _ => target_field(&job.target, name),
    }
}

fn show_field<'a>(job: &'a ShowJob, name: &str) -> Field<'a> {
    match name {
        "way" => Field::Text(if job.way == Direction::Redo {
            "redo"
        } else {
            "undo"
        }),
        "count" => Field::Number(job.count as u64),
        "compares" => flag(job.compares),
        "as_patch" => flag(job.as_patch),
        _ => image_field(&job.target, name),
    }
}

fn lay_field<'a>(job: &'a LayJob, name: &str) -> Field<'a> {
    match name {
        "dump" => file(&job.dump),
        "plain" => flag(job.plain),
        "at" => Field::Number(job.at),
        _ => Field::Missing,
    }
}

fn diff_field<'a>(job: &'a DiffJob, name: &str) -> Field<'a> {
    match name {
        "rows" => flag(job.rows),
        "quiet" => flag(job.quiet),
        "old" => Field::Text(job.old.as_str()),
        "new" => Field::Text(job.new.as_str()),
        _ => Field::Missing,
    }
}

/// The field of this name.
fn field_of<'a>(job: &'a Job, name: &str) -> Field<'a> {
    match job {
        Job::Dump(job) => dump_field(job, name),
        Job::Lay(job) => lay_field(job, name),
        Job::Change(ChangeJob::Dd(job)) => dd_image_field(job, name),
        Job::Change(ChangeJob::Revert(job)) => revert_field(job, name),
        Job::Change(ChangeJob::Patch(job)) => patch_field(job, name),
        Job::Change(ChangeJob::Forget(job)) => forget_field(job, name),
        Job::Change(ChangeJob::Undo(job) | ChangeJob::Redo(job)) => steps_field(job, name),
        Job::Look(LookJob::Log(job)) => log_field(job, name),
        Job::Look(LookJob::Show(job)) => show_field(job, name),
        Job::Diff(job) => diff_field(job, name),
        Job::Help { .. } => Field::Missing,
    }
}

fn dump_field<'a>(job: &'a DumpJob, name: &str) -> Field<'a> {
    match job {
        DumpJob::Od(job) => od_field(job, name),
        DumpJob::Xxd(job) => xxd_field(job, name),
        DumpJob::Hexdump(job) => hexdump_field(job, name),
        DumpJob::Strings(job) => strings_field(job, name),
        DumpJob::Dd(job) => dd_field(job, name),
    }
}

fn joined(alloc: Global, words: &Words) -> Result<String, AllocError> {
    let mut text = String::new(alloc);
    for i in 0..words.len() {
        if i > 0 {
            text.push(',')?;
        }
        text.push_str(words.get(i).unwrap_or(""))?;
    }
    Ok(text)
}

/// A field, as a case file writes it.
fn text_of(alloc: Global, field: Field<'_>) -> Result<String, AllocError> {
    match field {
        Field::Missing => String::from_str(alloc, "no such field"),
        Field::Text(text) => String::from_str(alloc, text),
        Field::Number(n) => format!(in alloc; "{n}"),
        Field::Form(letter, bytes) => format!(in alloc; "{letter}{bytes}"),
        Field::Joined(words) => joined(alloc, words),
    }
}

/// The job has the field that the word names, with this value.
fn fits(alloc: Global, job: &Job, word: &str) -> Result<(), Wrong> {
    let Some((name, value)) = word.split_once('=') else {
        return Err(differs(alloc, "field", "NAME=VALUE", word));
    };
    let field = field_of(job, name);
    let found = text_of(alloc, field)?;
    if found.as_str() == value && !matches!(field, Field::Missing) {
        return Ok(());
    }
    Err(differs(alloc, "field", word, found.as_str()))
}

/// The job has this name, and these fields.
pub fn same_job(alloc: Global, wanted: &Words, job: &Job) -> Result<(), Wrong> {
    same_text(alloc, "job", wanted.get(0).unwrap_or(""), name_of(job))?;
    for i in 1..wanted.len() {
        fits(alloc, job, wanted.get(i).unwrap_or(""))?;
    }
    Ok(())
}
