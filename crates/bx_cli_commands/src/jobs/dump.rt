//! Dumps and copies to a writer, as jobs ask for them.
ghost use Rattle.std.specs.Prelude.{◌≡◌, ◌+◌, ◌*◌, ◌%◌, ◌^◌, ◌≤◌, IfOk, IfErr};
ghost use Rattle.bx_cli_commands.specs.jobs.Dump.{IsStyleOf, array_name};
ghost use Rattle.bx_cli_commands.specs.jobs.JobDump.{DumpsJob, StopsJob, CopiesBehind, DumpsHexdumpBehind, DumpsLookBehind, DumpsOdBehind, StopsCopyBehind, StopsHexdumpBehind, StopsLookBehind, StopsOdBehind};
ghost use Rattle.bx_cli_commands.specs.jobs.CopyOut.{CopiesOut, StopsOut};
ghost use Rattle.bx_cli_commands.specs.jobs.Passing.{CanPass, skip_of};
ghost use Rattle.bx_dump.specs.Styles.{IsCountable};

use crate::jobs::rest::{hexdump_rest, od_rest, plan_rest, xxd_rest};
use crate::{DumpJob, Fault, XxdJob, XxdLook};
use bx_dd::{Counts, Plan, copy_out};
use bx_dump::hexdump::{HexdumpOptions, hexdump_c};
use bx_dump::od::{OdOptions, od};
use bx_dump::strings::strings;
use bx_dump::xxd::{XxdStyle, xxd};
use bx_text::{IoFault, Name};
use std::alloc::Allocator;
use std::io::{Read, Write};

/// The longest name that a C array is given.
const MOST_NAME: usize = 1 << 62;

/// What a dump did.
#[derive(Clone, Copy, Debug, PartialEq, Eq)]
pub enum Done {
    /// The count of bytes that were dumped.
    Dumped(u64),
    /// dd counted this.
    Copied(Counts),
}

/// Dumps or copies what the reader gives as the job asks, where it gives what stands behind the first `passed` bytes of the
/// input, and the job skips those: as many as `Skip::seekable` says, which are none where there is no seek. Addresses count
/// from the input's first byte, and limits what is read. Where dd seeks, nothing is read.
pub fn run_dump<R: Read, W: Write, A: Allocator + Clone>(
    alloc: A,
    job: &DumpJob,
    passed: u64,
    r: &mut R,
    w: &mut W,
) -> Result<Done, Fault>
    requires { CanPass passed (skip_of job.now) }
    ensures ok { IfOk result (DumpsJob passed job.now (R.remaining r.old) (R.remaining r.new) (W.contents w.old) (W.contents w.new)) }
    ensures err { IfErr result (StopsJob passed job.now (R.remaining r.old) (R.remaining r.new) (W.contents w.old) (W.contents w.new)) }
{
    match job {
        DumpJob::Od(job) => Ok(Done::Dumped(run_od(&job.options, passed, r, w)?)),
        DumpJob::Xxd(job) => Ok(Done::Dumped(run_xxd(job, passed, r, w)?)),
        DumpJob::Hexdump(job) => Ok(Done::Dumped(run_hexdump(&job.options, passed, r, w)?)),
        DumpJob::Strings(job) => Ok(Done::Dumped(strings(r, w, &job.options)?)),
        DumpJob::Dd(job) => Ok(Done::Copied(run_dd(alloc, &job.plan, passed, r, w)?)),
    }
}

/// Writes od's text of what the reader gives behind passed bytes.
fn run_od<R: Read, W: Write>(
    o: &OdOptions,
    passed: u64,
    r: &mut R,
    w: &mut W,
) -> Result<u64, IoFault>
    requires skip { passed ≤ o.now.skip }
    requires first { o.now.first + passed ≤ 2 ^ 62 }
    ensures ok { IfOk result (DumpsOdBehind passed o.now (R.remaining r.old) (R.remaining r.new) (W.contents w.old) (W.contents w.new)) }
    ensures err { IfErr result (StopsOdBehind passed o.now (R.remaining r.old) (R.remaining r.new) (W.contents w.old) (W.contents w.new)) }
{
    od(r, w, &od_rest(o, passed))
}

/// Writes the text of hexdump -C of what the reader gives behind passed bytes.
fn run_hexdump<R: Read, W: Write>(
    o: &HexdumpOptions,
    passed: u64,
    r: &mut R,
    w: &mut W,
) -> Result<u64, IoFault>
    requires skip { passed ≤ o.now.skip }
    requires first { o.now.first + passed ≤ 2 ^ 62 }
    ensures ok { IfOk result (DumpsHexdumpBehind passed o.now (R.remaining r.old) (R.remaining r.new) (W.contents w.old) (W.contents w.new)) }
    ensures err { IfErr result (StopsHexdumpBehind passed o.now (R.remaining r.old) (R.remaining r.new) (W.contents w.old) (W.contents w.new)) }
{
    hexdump_c(r, w, &hexdump_rest(o, passed))
}

/// The name of the job's array.
fn array_name(job: &XxdJob) -> &Option<Name>
    ensures { result.now ≡ array_name job.now.array job.now.file }
{
    match job.array {
        Some(_) => &job.array,
        None => &job.file,
    }
}

/// The style of the look; an array has this name.
fn xxd_style(look: XxdLook, array: &Option<Name>) -> XxdStyle<'_>
    ensures style { IsStyleOf look array.now result }
    ensures countable { IsCountable result }
{
    match look {
        XxdLook::Normal => XxdStyle::Normal,
        XxdLook::Plain => XxdStyle::Plain,
        XxdLook::Bits => XxdStyle::Bits,
        XxdLook::Unbroken => XxdStyle::Unbroken,
        XxdLook::Decimal { bits } => XxdStyle::Decimal { bits },
        XxdLook::Words { decimal } => XxdStyle::Words { decimal },
        XxdLook::Include => match array {
            Some(name) if name.as_str().len() <= MOST_NAME => {
                XxdStyle::Include(Some(name.as_str()))
            }
            Some(_) | None => XxdStyle::Include(None),
        },
    }
}

/// Writes the text that the job's options ask for, of what the reader gives behind passed bytes.
fn run_xxd<R: Read, W: Write>(
    job: &XxdJob,
    passed: u64,
    r: &mut R,
    w: &mut W,
) -> Result<u64, IoFault>
    requires { passed ≤ job.now.options.seek }
    ensures ok { IfOk result (DumpsLookBehind passed job.now (R.remaining r.old) (R.remaining r.new) (W.contents w.old) (W.contents w.new)) }
    ensures err { IfErr result (StopsLookBehind passed job.now (R.remaining r.old) (R.remaining r.new) (W.contents w.old) (W.contents w.new)) }
{
    let style = xxd_style(job.look, array_name(job));
    xxd(r, w, style, &xxd_rest(&job.options, passed))
}

/// Writes what the plan makes of what the reader gives behind passed blocks, as it is read.
fn run_dd<R: Read, W: Write, A: Allocator + Clone>(
    alloc: A,
    plan: &Plan,
    passed: u64,
    r: &mut R,
    w: &mut W,
) -> Result<Counts, Fault>
    requires skip { passed ≤ plan.now.skip * plan.now.ibs }
    requires whole { passed % plan.now.ibs ≡ 0 }
    ensures ok { IfOk result (CopiesBehind passed plan.now (R.remaining r.old) (R.remaining r.new) (W.contents w.old) (W.contents w.new)) }
    ensures err { IfErr result (StopsCopyBehind passed plan.now (R.remaining r.old) (R.remaining r.new) (W.contents w.old) (W.contents w.new)) }
{
    let rest = plan_rest(plan, passed);
    copied(alloc, &rest, r, w)
}

/// Writes what the plan makes of the input, as it is read. A plan that seeks is refused before anything is read.
fn copied<R: Read, W: Write, A: Allocator + Clone>(
    alloc: A,
    plan: &Plan,
    r: &mut R,
    w: &mut W,
) -> Result<Counts, Fault>
    ensures ok { IfOk result (CopiesOut plan.now (R.remaining r.old) (R.remaining r.new) (W.contents w.old) (W.contents w.new)) }
    ensures err { IfErr result (StopsOut plan.now (R.remaining r.old) (R.remaining r.new) (W.contents w.old) (W.contents w.new)) }
{
    if let Err(fault) = plan.for_stream() {
        return Err(Fault::from(fault));
    }
    match copy_out(alloc, r, w, plan) {
        Ok(counts) => Ok(counts),
        Err(fault) => Err(Fault::from(fault)),
    }
}
