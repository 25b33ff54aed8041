//! What the input of a job asks of its image: a dump's change, or a patch. What is made of an image is made of what these calls answer.
ghost use Rattle.std.specs.Prelude.{◌≡◌, ◌⊎◌, ℕ, List, IfOk, IfErr, OnOk};
ghost use Rattle.std.specs.Io.KnownBytes.{Consumes, IsAtEnd};
ghost use Rattle.bx_text.specs.Stream.{fault_of};
ghost use Rattle.bx_text.specs.declared.stream.State.{State};
ghost use Rattle.bx_patch.specs.Grammar.{IsReadPatch};
ghost use Rattle.bx_patch.specs.Patch.{TurnsRound, reversed};
ghost use Rattle.bx_patch.specs.Read.{asked_of};
ghost use Rattle.bx_cli_commands.specs.Inputs.{AsksByDump, AsksByPatch, RefusesPatch, form_by};
ghost use Rattle.bx_cli_commands.specs.Reading.{IsUnread};

use crate::fault::Fault;
use crate::jobs::images::{PatchJob, RevertJob};
use crate::reading::{Form, change_from};
use bx_image::Change;
use bx_patch::{Patch, read_patch};
use bx_read::ReadFault;
use bx_text::Source;
use std::alloc::Allocator;
use std::io::Read;

/// How the dump of a job is written.
fn form_of(plain: bool) -> Form
    ensures { result ≡ form_by plain }
{
    if plain { Form::Plain } else { Form::Dump }
}

/// The change that the dump of a job asks for, in the job's form and by its place, or the fault of the dump's text. The source is read up to its end.
/// `expected` is the length of the text as far as it is known before, else 0: the answer doesn't depend on it.
///
/// # Errors
/// `Io` where the source fails or memory is refused, and `NothingToWrite` where the text has no byte.
pub fn read_dump<R: Read + Drop, A: Allocator + Clone>(
    alloc: &A,
    job: &RevertJob,
    source: &mut Source<R>,
    expected: u64,
) -> Result<Result<Change<A>, ReadFault>, Fault>
    // What was read is the text, up to the end, and the change is the one that it asks for.
    ensures asks { IfOk result (λ read. (text : List ℕ) × Consumes (R.remaining source.old.reader) (R.remaining source.new.reader) text
        × AsksByDump job.now.plain job.now.at text read) }
    ensures end { OnOk result (source.old.meter.state ≡ State.Open → IsAtEnd (R.remaining source.new.reader)) }
    ensures err { IfErr result (IsUnread A (form_by job.now.plain) job.now.at
        (R.remaining source.old.reader) (R.remaining source.new.reader) (fault_of source.new.meter.state)) }
{
    change_from(alloc, source, form_of(job.plain), job.at, expected)
}

/// A patch the other way round.
fn turned<A: Allocator>(patch: Patch<A>) -> Result<Patch<A>, Fault>
    requires read { IsReadPatch (asked_of patch) }
    ensures ok { IfOk result (λ turned. TurnsRound (asked_of patch) × (asked_of turned ≡ reversed (asked_of patch))) }
    ensures err { IfErr result (λ e. (e ≡ Fault.NotReversible) × (TurnsRound (asked_of patch) → ⊥)) }
{
    match patch.reversed() {
        Some(turned) => Ok(turned),
        None => Err(Fault::NotReversible),
    }
}

/// What the text of a job's patch asks, in the job's direction.
///
/// # Errors
/// `Patch` with what is wrong with the text, or where memory is refused; `NotReversible` where it can't be turned round, and is to be.
pub fn read_patch_of<A: Allocator + Clone>(
    alloc: A,
    job: &PatchJob,
    text: &[u8],
) -> Result<Patch<A>, Fault>
    ensures ok { IfOk result (λ patch. AsksByPatch job.now.reverse text.now (asked_of patch)) }
    ensures err { IfErr result (RefusesPatch job.now.reverse text.now) }
{
    match read_patch(alloc, text) {
        Ok(patch) if job.reverse => turned(patch),
        Ok(patch) => Ok(patch),
        Err(fault) => Err(Fault::Patch(fault)),
    }
}
