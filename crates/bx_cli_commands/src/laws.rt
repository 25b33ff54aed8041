//! Laws of commands, over their definitions alone.
ghost use Rattle.bx_cli_commands.specs.Inputs.{DumpIsPut};
ghost use Rattle.bx_cli_commands.specs.Loss.{LossAtAnyCall, LossGoesOn, LossInEachCall};
ghost use Rattle.bx_cli_commands.specs.ShowDump.{ShownIsADump, ShownIsUndone, ShownReverts, ShownUnheaded, UnfinishedUnheaded};
ghost use Rattle.bx_cli_commands.specs.Laws.{KChangesAndUndo, KeptNeverGrows, RedoGivesBack, RedoGivesPart, RunsJoin, StackRunsJoin, StopsInPart, UndoGivesBack, UnfailedRuns};

use bx_image::{Device, FuseImage};
use bx_journal_store::{FuseText, TextStore};
use std::alloc::Allocator;
use std::io::Read;

/// Undo is exact: behind k changes that were made, one after the other, an undo of k that is made leads back to the stack
/// of whole images before them, so to the same image, its bytes and its length.
pub fn undo_gives_back<R: Read, A: Allocator>()
    ensures { UndoGivesBack R A R.remaining }
{}

/// The same of devices: on faithful ones, none of whose calls fails, behind k changes that were made an undo of k that is made gives the
/// image of the device back.
pub fn k_changes_and_undo<D: Device, T: TextStore, R: Read, A: Allocator>()
    ensures { KChangesAndUndo D.Device T.TextStore R A R.remaining }
{}

/// Redo is exact: an undo of k and a redo of k behind it that are both made lead back to the same images, those that stand
/// and those that were undone before, so to the same image, its bytes and its length.
pub fn redo_gives_back<R: Read, A: Allocator>()
    ensures { RedoGivesBack R A R.remaining }
{}

/// Redo goes in order: an undo of k that is made, and a redo of j after it that is made, where j is at most k, lead to the same
/// images as an undo of k - j.
pub fn redo_gives_part<R: Read, A: Allocator>()
    ensures { RedoGivesPart R A R.remaining }
{}

/// The runs of two lists, one from where the other ends, are a run of both: so it does not matter whether the session
/// is closed and opened again between them. This holds of runs in which no device fails, from images to images, and of
/// those in which devices fail.
pub fn runs_join<R: Read, A: Allocator>()
    ensures stacks { StackRunsJoin R A R.remaining }
    ensures standings { RunsJoin R A R.remaining }
{}

/// A run in which no device fails goes from whole images to whole images.
pub fn unfailed_runs<R: Read, A: Allocator>()
    ensures { UnfailedRuns R A R.remaining }
{}

/// A command is done in whole, or in whole steps. Whatever moment the power is lost at, or a device fails at, the next opening finds
/// the images after the last command that was answered; or, where one was stopped, those before it, those after it, or those with
/// i of the k changes that it takes back or makes again. That what is found is an end of the run is said by `run_all`.
pub fn stops_in_part<R: Read, A: Allocator>()
    ensures { StopsInPart R A R.remaining }
{}

/// **A loss of power inside a call.** Three faithful devices are put behind fuses, which pass some calls and fail all others; they are
/// opened, and a list of commands is run on them. Whatever the fuses pass, what is then found of the devices below them is what opening found,
/// or the images after all commands that were answered, or a part of the one that was stopped.
pub fn loss_at_any_call<D: Device, T: TextStore, R: Read, A: Allocator>()
    ensures { LossAtAnyCall D.Device T.TextStore ⟦<FuseImage<D> as Device>⟧ ⟦<FuseText<T> as TextStore>⟧ R A R.remaining }
{}

/// The same of one call alone, as a program makes it of a session that it opens: of a command, of a change that was read, and of one that
/// isn't to make the image longer. Behind a whole refusal what opening found is found, else what the call's step leads to, or a part of it.
pub fn loss_in_each_call<D: Device, T: TextStore, R: Read, A: Allocator>()
    ensures { LossInEachCall D.Device T.TextStore ⟦<FuseImage<D> as Device>⟧ ⟦<FuseText<T> as TextStore>⟧ R A R.remaining }
{}

/// What such a loss leaves has images on the disk again, so all of this holds of the next process too, and of a loss inside it.
pub fn loss_goes_on<D: Device, T: TextStore, R: Read, A: Allocator>()
    ensures { LossGoesOn D.Device T.TextStore R A R.remaining }
{}

/// What `show` writes of the next undos is, without the lines that begin with `#`, a dump that a revert takes: it reads as exactly the runs that are shown.
/// Where no change changed the length, the change that it asks for makes of the image what the undo makes of it, read by lines or by runs.
pub fn shown_is_a_dump<A: Allocator>()
    ensures unheaded { ShownUnheaded }
    ensures unfinished { UnfinishedUnheaded }
    ensures read { ShownIsADump }
    ensures reverts { ShownReverts A }
    ensures undone { ShownIsUndone A }
{}

/// Behind a change that isn't to make its image longer none is longer: whatever the images were, whatever it answers, and where it was
/// stopped in the middle.
pub fn kept_never_grows<A: Allocator>()
    ensures { KeptNeverGrows A }
{}

/// The bytes of a job's dump are what is written onto its image: the step by what `read_dump` answers is the one that puts the whole text
/// onto it.
pub fn dump_is_put<A: Allocator>()
    ensures { DumpIsPut A }
{}
