//! A dump of a named file, and of an input.
ghost use Rattle.std.specs.Prelude.{◌≡◌, ◌↔◌, ◌≤◌, Some, IfErr, IfOk, List, drop, length, ℕ};
ghost use Rattle.bx_cli_commands.specs.jobs.Passing.{CanPass, skip_of};
ghost use Rattle.bx_world.specs.World.{NothingNewFound};
ghost use Rattle.bx_run_report.specs.dump.Dumps.{CountsUndumped, DumpsInput, DumpsNamed, IsStopped, StopsInput, StopsNamed, StopsOpened, WritesDumpFront};
ghost use Rattle.bx_run_report.specs.dump.Texts.{DumpsWhole};

use crate::dump::error::DumpError;
use crate::dump::placed::passed_of;
use bx_cli_commands::{Done, DumpJob, Fault, run_dump};
use bx_world::World;
use std::alloc::Global;
use std::io::{Read, Write};

/// `bx od FILE` and its like: the writer gets exactly the text that the job makes of the file's bytes, or a front of it where
/// a fault is answered. What stands behind the bytes that a seek passes is read, and no file is changed, made or taken away.
pub fn dump_file<W: World, O: Write>(
    world: &mut W,
    alloc: Global,
    job: &DumpJob,
    name: &str,
    out: &mut O,
) -> Result<Done, DumpError>
    ensures ok { W.faithful world.old
        → IfOk result (λ done. DumpsNamed job.now name.now (W.state world.old) done (O.contents out.old) (O.contents out.new)) }
    ensures err { W.faithful world.old
        → IfErr result (λ e. StopsNamed job.now name.now (W.state world.old) e (O.contents out.old) (O.contents out.new)) }
    ensures same { W.faithful world.old → W.state world.new ≡ W.state world.old }
    ensures counted { W.faithful world.old → CountsUndumped result (W.refusals world.old) (W.refusals world.new) }
    ensures survives { W.faithful world.old → NothingNewFound (W.survives world.old) (W.survives world.new) }
    ensures faith { W.faithful world.new ↔ W.faithful world.old }
{
    match world.open_input(name) {
        Ok(file) => dump_opened(world, alloc, job, file, out),
        Err(refusal) => Err(DumpError::Unopened(refusal)),
    }
}

/// `bx od < FILE` and its like: the writer gets exactly the text that the job makes of the bytes that an input gives from where it
/// stands, or a front of it where a fault is answered. What is skipped is read.
pub fn dump_input<R: Read + Drop, O: Write>(
    alloc: Global,
    job: &DumpJob,
    input: R,
    out: &mut O,
) -> Result<Done, DumpError>
    ensures ok { IfOk result (λ done. DumpsInput job.now (R.remaining input) done (O.contents out.old) (O.contents out.new)) }
    ensures err { IfErr result (StopsInput job.now (R.remaining input) (O.contents out.old) (O.contents out.new)) }
    ensures kind { IfErr result IsStopped }
{
    let mut input = input;
    match run_dump(alloc, job, 0, &mut input, out) {
        Ok(done) => Ok(done),
        Err(why) => Err(DumpError::Stopped(why)),
    }
}

/// Dumps a file that is open, and closes it.
fn dump_opened<W: World, O: Write>(
    world: &mut W,
    alloc: Global,
    job: &DumpJob,
    file: W::File,
    out: &mut O,
) -> Result<Done, DumpError>
    ensures ok { W.faithful world.old → IfOk result (λ done. DumpsWhole job.now ((W.state world.old).bytes (W.number file)) done
        (O.contents out.old) (O.contents out.new)) }
    ensures err { W.faithful world.old → IfErr result (λ e. StopsOpened job.now ((W.state world.old).bytes (W.number file)) e
        (O.contents out.old) (O.contents out.new)) }
    ensures same { W.faithful world.old → W.state world.new ≡ W.state world.old }
    ensures counted { W.faithful world.old → CountsUndumped result (W.refusals world.old) (W.refusals world.new) }
    ensures survives { W.faithful world.old → NothingNewFound (W.survives world.old) (W.survives world.new) }
    ensures faith { W.faithful world.new ↔ W.faithful world.old }
{
    let passed = passed_of(world, &file, job.skip());
    let input = match world.lend_input(file, passed) {
        Ok(input) => input,
        Err(refusal) => return Err(DumpError::Unplaced(refusal)),
    };
    match dump_lent(world, alloc, job, passed, input, out) {
        Ok(done) => Ok(done),
        Err(fault) => Err(DumpError::Stopped(fault)),
    }
}

/// Dumps what an input gives that is lent behind passed bytes, and takes it back.
fn dump_lent<W: World, O: Write>(
    world: &mut W,
    alloc: Global,
    job: &DumpJob,
    passed: u64,
    input: W::Input,
    out: &mut O,
) -> Result<Done, Fault>
    requires { CanPass passed (skip_of job.now) }
    ensures ok { (bytes : List ℕ) → passed ≤ length bytes → W.Input.remaining input ≡ Some (drop passed bytes)
        → IfOk result (λ done. DumpsWhole job.now bytes done (O.contents out.old) (O.contents out.new)) }
    ensures err { IfErr result (WritesDumpFront passed job.now (W.Input.remaining input) (O.contents out.old) (O.contents out.new)) }
    ensures same { W.faithful world.old → W.state world.new ≡ W.state world.old }
    ensures counted { W.faithful world.old → W.refusals world.new ≡ W.refusals world.old }
    ensures survives { W.faithful world.old → NothingNewFound (W.survives world.old) (W.survives world.new) }
    ensures faith { W.faithful world.new ↔ W.faithful world.old }
{
    let mut input = input;
    let outcome = run_dump(alloc, job, passed, &mut input, out);
    world.close_input(input);
    outcome
}
