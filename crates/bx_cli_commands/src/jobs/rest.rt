//! What is left to ask of an input behind bytes that were passed, as a seek passes them, and of the end of one.
ghost use Rattle.std.specs.Prelude.{◌≡◌, ◌+◌, ◌-◌, ◌*◌, ◌%◌, ◌^◌, ◌≤◌, IfOk, MatchOption};
ghost use Rattle.bx_cli_commands.specs.jobs.FromEnd.{CountsTooFar, IsXxdAt};
ghost use Rattle.bx_dd.specs.Behind.{IsPlanRest};
ghost use Rattle.bx_dump.specs.Behind.{IsHexdumpRest, IsOdRest, IsXxdRest};

use crate::Fault;
use crate::jobs::dumps::XxdJob;
use crate::jobs::values::name_of;
use bx_dd::Plan;
use bx_dump::hexdump::HexdumpOptions;
use bx_dump::od::OdOptions;
use bx_dump::xxd::XxdOptions;
use bx_text::Name;
use std::alloc::Global;

/// The options of od behind passed bytes.
pub fn od_rest(o: &OdOptions, passed: u64) -> OdOptions
    requires skip { passed ≤ o.now.skip }
    requires first { o.now.first + passed ≤ 2 ^ 62 }
    ensures { IsOdRest passed o.now result }
{
    OdOptions {
        address: o.address,
        kind: o.kind,
        text: o.text,
        below: o.below,
        endian: o.endian,
        width: o.width,
        first: o.first + passed,
        skip: o.skip - passed,
        limit: o.limit,
        all: o.all,
    }
}

/// The options of hexdump behind passed bytes.
pub fn hexdump_rest(o: &HexdumpOptions, passed: u64) -> HexdumpOptions
    requires skip { passed ≤ o.now.skip }
    requires first { o.now.first + passed ≤ 2 ^ 62 }
    ensures { IsHexdumpRest passed o.now result }
{
    HexdumpOptions {
        first: o.first + passed,
        skip: o.skip - passed,
        limit: o.limit,
        all: o.all,
    }
}

/// The options of xxd behind passed bytes.
pub fn xxd_rest(o: &XxdOptions, passed: u64) -> XxdOptions
    requires { passed ≤ o.now.seek }
    ensures { IsXxdRest passed o.now result }
{
    XxdOptions {
        cols: o.cols,
        group: o.group,
        limit: o.limit,
        seek: o.seek - passed,
        shift: o.shift + passed,
        upper: o.upper,
        autoskip: o.autoskip,
    }
}

/// The job of xxd for the last `back` bytes of an input of this length; none where it has fewer.
pub fn xxd_from_end(
    alloc: Global,
    job: &XxdJob,
    back: u64,
    length: u64,
) -> Result<Option<XxdJob>, Fault>
    ensures { IfOk result (λ found. MatchOption found (CountsTooFar back length) (IsXxdAt (length - back) job.now)) }
{
    if length < back || length - back > 1 << 62 {
        return Ok(None);
    }
    Ok(Some(xxd_at(alloc, job, length - back)?))
}

/// The job of xxd that skips this many bytes, counted from the first.
fn xxd_at(alloc: Global, job: &XxdJob, seek: u64) -> Result<XxdJob, Fault>
    requires { seek ≤ 2 ^ 62 }
    ensures { IfOk result (IsXxdAt seek job.now) }
{
    let o = &job.options;
    Ok(XxdJob {
        look: job.look,
        options: XxdOptions {
            cols: o.cols,
            group: o.group,
            limit: o.limit,
            seek,
            shift: o.shift,
            upper: o.upper,
            autoskip: o.autoskip,
        },
        from_end: None,
        array: copied(alloc, &job.array)?,
        file: copied(alloc, &job.file)?,
    })
}

/// A name of these bytes.
fn copied(alloc: Global, name: &Option<Name>) -> Result<Option<Name>, Fault>
    ensures { IfOk result (λ copy. copy ≡ name.now) }
{
    match name {
        Some(name) => Ok(Some(name_of(alloc, name.as_str())?)),
        None => Ok(None),
    }
}

/// The plan of dd behind passed blocks. It names no files.
pub fn plan_rest(plan: &Plan, passed: u64) -> Plan
    requires skip { passed ≤ plan.now.skip * plan.now.ibs }
    requires whole { passed % plan.now.ibs ≡ 0 }
    ensures { IsPlanRest passed plan.now result }
{
    Plan {
        input: None,
        output: None,
        ibs: plan.ibs,
        obs: plan.obs,
        cbs: plan.cbs,
        skip: plan.skip - passed / plan.ibs,
        seek: plan.seek,
        count: plan.count,
        swab: plan.swab,
        sync: plan.sync,
        notrunc: plan.notrunc,
        quiet: plan.quiet,
        letters: plan.letters,
        shape: plan.shape,
    }
}
