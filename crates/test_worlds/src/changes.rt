//! A change, as a case asks for it.
use crate::report::Wrong;
use crate::setting::CAREFUL;
use bx_cli::plan_words;
use bx_cli_commands::{ChangeJob, Fault, Form, Job, Reply};
use bx_dd::{Counts, parse};
use bx_image::Fuse;
use bx_run::{Done, Edit, Failure, ReadEdit, Request, run_request};
use bx_text::{Source, Words};
use bx_world::Names;
use std::alloc::Global;
use std::io::sink;
use test_case_files::{Answer, Ask, Records};
use test_world::{LentInput, MemoryWorld, Plan};

/// The furthest place that a command names.
const MOST_PLACE: u64 = 1 << 62;

/// The most that is read of a text.
const MOST_TEXT: u64 = 1 << 40;

/// What dd reads.
fn input_of(alloc: Global, bytes: &[u8], reads: Fuse) -> Result<LentInput, Wrong> {
    Ok(LentInput::new(bytes.to_vec(alloc)?, 0, reads))
}

/// The job that words ask for.
fn job_of(alloc: Global, command: &str) -> Result<ChangeJob, Wrong> {
    let mut words = Words::new(alloc);
    words.push(command)?;
    words.push("disk")?;
    match plan_words(alloc, &words) {
        Ok(Job::Change(job)) => Ok(job),
        Ok(_) | Err(_) => Err(Wrong::Unknown),
    }
}

/// The patch of a text, in its direction, whose image with `keeps` isn't to get longer.
pub fn patch_of(
    alloc: Global,
    text: &[u8],
    reversed: bool,
    keeps: bool,
) -> Result<Edit<LentInput>, Wrong> {
    let ChangeJob::Patch(mut job) = job_of(alloc, "patch")? else {
        return Err(Wrong::Unknown);
    };
    job.reverse = reversed;
    job.no_grow = keeps;
    match ReadEdit::of_patch(alloc, &job, text) {
        Ok(read) => Ok(Edit::Read(read)),
        Err(_) => Err(Wrong::Unknown),
    }
}

/// What dd makes of these bytes by an operand, whose image with `keeps` isn't to get longer: read before, as with `--fresh`.
pub fn copied(alloc: Global, operand: &str, bytes: &[u8], keeps: bool) -> Result<ReadEdit, Wrong> {
    let mut words = Words::new(alloc);
    words.push(operand)?;
    let Ok(plan) = parse(alloc, &words) else {
        return Err(Wrong::Unknown);
    };
    let mut input = bytes;
    match ReadEdit::of_copy(alloc, &plan, &mut input, keeps) {
        Ok((read, _)) => Ok(read),
        Err(_) => Err(Wrong::Unknown),
    }
}

/// What the text of a dump asks, or its fault, whose image with `keeps` isn't to get longer.
pub fn read_as(
    alloc: Global,
    text: &[u8],
    form: Form,
    at: u64,
    keeps: bool,
) -> Result<ReadEdit, Wrong> {
    let ChangeJob::Revert(mut job) = job_of(alloc, "revert")? else {
        return Err(Wrong::Unknown);
    };
    job.plain = form == Form::Plain;
    job.at = at.min(MOST_PLACE);
    job.no_grow = keeps;
    let mut source = Source::new(text, MOST_TEXT);
    match ReadEdit::of_dump(alloc, &job, &mut source, 0) {
        Ok(read) => Ok(read),
        // The program refuses it before anything is opened; the session's row on it stays, as that of a copy of nothing.
        Err(Fault::NothingToWrite) => copied(alloc, "conv=notrunc", b"", keeps),
        Err(_) => Err(Wrong::Unknown),
    }
}

/// The copy that operands ask for, whose input fails as the fuse says.
fn copy_of(
    alloc: Global,
    operands: &Words,
    input: &[u8],
    reads: Fuse,
) -> Result<Edit<LentInput>, Wrong> {
    match parse(alloc, operands) {
        Ok(plan) => Ok(Edit::Copy {
            plan,
            input: input_of(alloc, input, reads)?,
        }),
        Err(_) => Err(Wrong::Unknown),
    }
}

/// What a case asks of its image, which with `keeps` isn't to get longer, read before as the program does it; of dd's reads those fail that
/// the fuse says.
pub fn edit_of(
    alloc: Global,
    ask: &Ask,
    keeps: bool,
    reads: Fuse,
) -> Result<Edit<LentInput>, Wrong> {
    match ask {
        Ask::Revert { dump, shift } => {
            let read = read_as(alloc, dump.as_slice(), Form::Dump, *shift, keeps)?;
            Ok(Edit::Read(read))
        }
        Ask::Plain { digits, at } => {
            let read = read_as(alloc, digits.as_slice(), Form::Plain, *at, keeps)?;
            Ok(Edit::Read(read))
        }
        Ask::Dd { operands, input } => copy_of(alloc, operands, input.as_slice(), reads),
        Ask::Patch { text, reversed } => patch_of(alloc, text.as_slice(), *reversed, keeps),
        Ask::Undo(_) | Ask::Redo(_) | Ask::Change { .. } | Ask::Open => Err(Wrong::Unknown),
    }
}

/// Whether a change is one that the program makes: it stops at operands that are faulty before it opens a file.
pub fn is_asked(alloc: Global, ask: &Ask) -> bool {
    match ask {
        Ask::Dd { operands, .. } => parse(alloc, operands).is_ok(),
        Ask::Revert { .. } | Ask::Plain { .. } | Ask::Patch { .. } => true,
        Ask::Undo(_) | Ask::Redo(_) | Ask::Change { .. } | Ask::Open => false,
    }
}

/// dd's counts, as a case has them.
fn records_of(counts: Counts) -> Records {
    Records {
        whole_in: counts.whole_in,
        part_in: counts.part_in,
        whole_out: counts.whole_out,
        part_out: counts.part_out,
        cut: counts.cut,
    }
}

/// Whether this is the answer that a case tells.
pub fn is_answer(told: &Answer, reply: Reply) -> bool {
    match (told, reply) {
        (Answer::Changed(told), Reply::Changed { number }) => *told == number,
        (Answer::Copied(told, records), Reply::Copied { number, counts }) => {
            *told == number && *records == records_of(counts)
        }
        (
            Answer::Changed(_)
            | Answer::Copied(_, _)
            | Answer::Undone(_)
            | Answer::Redone(_)
            | Answer::Opened(_)
            | Answer::Refused(_),
            Reply::Changed { .. }
            | Reply::Copied { .. }
            | Reply::Undone { .. }
            | Reply::Redone { .. }
            | Reply::Refused(_),
        ) => false,
    }
}

/// Makes a change in a world that does what its plan says.
pub fn change(
    world: &mut MemoryWorld,
    alloc: Global,
    names: &Names,
    plan: Plan,
    edit: Edit<LentInput>,
) -> Result<Done, Failure> {
    world.begin(plan);
    let request = Request::Change {
        names,
        guard: CAREFUL,
        edit,
    };
    run_request(world, alloc, request, &mut sink())
}
