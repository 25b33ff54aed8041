//! What the text of a job, or an input of dd, asks of an image: nothing else can be asked of one.
ghost use Rattle.bx_run_session.specs.Input.{HasInput};

use crate::edit::proposal::{Proposal, patch_as, read_as};
use bx_cli_commands::{Fault, Kept, PatchJob, RevertJob, change_of_plan, read_dump, read_patch_of};
use bx_dd::{Counts, DdFault, Plan};
use bx_image::Change;
use bx_patch::Patch;
use bx_text::Source;
use std::alloc::Global;
use std::io::Read;

/// What an input asks that was read. Only the functions that read an input make one, so that it is what this input asks.
#[derive(Drop)]
pub struct ReadEdit {
    proposal: Proposal,
    ghost made: { ∥ HasInput proposal ∥₁ },
}

impl ReadEdit {
    ghost use Rattle.std.specs.Prelude.{◌≡◌, ◌^◌, ℕ, List, IfOk, IfErr, OnErr, OnOk};
    ghost use Rattle.std.specs.Option.{option_copied};
    ghost use Rattle.std.specs.Io.KnownBytes.{Consumes, IsAtEnd};
    ghost use Rattle.bx_text.specs.Stream.{fault_of};
    ghost use Rattle.bx_text.specs.declared.stream.State.{State};
    ghost use Rattle.bx_dd.specs.Transfer.{HasStopped, ReadsWithin};
    ghost use Rattle.bx_cli_commands.specs.Inputs.{RefusesPatch, form_by};
    ghost use Rattle.bx_cli_commands.specs.Reading.{IsUnread};
    ghost use Rattle.bx_run_session.specs.Edit.{proposed};
    ghost use Rattle.bx_run_session.specs.Input.{Input, IsMadeOf, change_in, patch_in};

    /// What the dump of a job asks, in the job's form and by its place, which with the job's `no_grow` isn't to make the image longer. The source
    /// is read up to its end. `expected` is the length of the text as far as it is known before, else 0: the answer doesn't depend on it.
    ///
    /// # Errors
    /// `Io` where the source fails or memory is refused, and `NothingToWrite` where the text has no byte.
    pub fn of_dump<R: Read + Drop>(
        alloc: Global,
        job: &RevertJob,
        source: &mut Source<R>,
        expected: u64,
    ) -> Result<Self, Fault>
        // What was read is the text, up to the end, and the edit is made of it.
        ensures reads { IfOk result (λ edit. (text : List ℕ) × Consumes (R.remaining source.old.reader) (R.remaining source.new.reader) text
            × IsMadeOf job.now.no_grow (Input.OfDump job.now.plain job.now.at text) (proposed edit)) }
        ensures end { OnOk result (source.old.meter.state ≡ State.Open → IsAtEnd (R.remaining source.new.reader)) }
        ensures err { IfErr result (IsUnread Global (form_by job.now.plain) job.now.at
            (R.remaining source.old.reader) (R.remaining source.new.reader) (fault_of source.new.meter.state)) }
    {
        match read_dump(&alloc, job, source, expected) {
            Ok(read) => Ok(ReadEdit {
                proposal: read_as(read, job.no_grow),
            }),
            Err(fault) => Err(fault),
        }
    }

    /// What the text of a job's patch asks, in the job's direction, which with the job's `no_grow` isn't to make the image longer.
    ///
    /// # Errors
    /// `Patch` with what is wrong with the text, or where memory is refused; `NotReversible` where it can't be turned round, and is to be.
    pub fn of_patch(alloc: Global, job: &PatchJob, text: &[u8]) -> Result<Self, Fault>
        ensures ok { IfOk result (λ edit. IsMadeOf job.now.no_grow (Input.OfPatch job.now.reverse text.now) (proposed edit)) }
        ensures err { IfErr result (RefusesPatch job.now.reverse text.now) }
    {
        match read_patch_of(alloc, job, text) {
            Ok(patch) => Ok(ReadEdit {
                proposal: patch_as(patch, job.no_grow),
            }),
            Err(fault) => Err(fault),
        }
    }

    /// What dd's plan makes of an input, which is read before the image is opened, and what it counted. With `no_grow` it isn't to make the
    /// image longer.
    ///
    /// # Errors
    /// The fault of the input, or want of memory.
    pub fn of_copy<R: Read>(
        alloc: Global,
        plan: &Plan,
        input: &mut R,
        no_grow: bool,
    ) -> Result<(Self, Counts), DdFault>
        ensures ok { IfOk result (λ made. IsMadeOf no_grow
            (Input.OfCopy plan.now (R.remaining input.old) (R.remaining input.new) made.1) (proposed made.0)) }
        ensures err { IfErr result (HasStopped (R.remaining input.old) (R.remaining input.new) (2 ^ 40)) }
        ensures within { OnErr result (ReadsWithin plan.now (R.remaining input.old) (R.remaining input.new)) }
    {
        match change_of_plan(&alloc, plan, input) {
            Ok(made) => {
                let edit = ReadEdit {
                    proposal: read_as(Ok(made.change), no_grow),
                };
                Ok((edit, made.counts))
            }
            Err(fault) => Err(fault),
        }
    }

    /// The change of a dump or of a copy; none of a dump that has a fault, or of a patch.
    pub fn change(&self) -> Option<&Change>
        ensures { option_copied result ≡ change_in (proposed self.now) }
    {
        match &self.proposal {
            Proposal::Read(Ok(change)) | Proposal::Keep(Kept::Change(change)) => Some(change),
            Proposal::Read(Err(_)) | Proposal::Patch(_) | Proposal::Keep(Kept::Patch(_)) => None,
        }
    }

    /// The patch, if it is made of one.
    pub fn patch(&self) -> Option<&Patch>
        ensures { option_copied result ≡ patch_in (proposed self.now) }
    {
        match &self.proposal {
            Proposal::Patch(patch) | Proposal::Keep(Kept::Patch(patch)) => Some(patch),
            Proposal::Read(_) | Proposal::Keep(Kept::Change(_)) => None,
        }
    }

    /// What is asked.
    pub(crate) fn into_proposal(self) -> Proposal
        ensures { result ≡ proposed self }
    {
        self.proposal
    }
}
