//! What an asking leaves of the files: all as it was, or of a history that is dropped its image and less of its texts.
use crate::odd::is_untouched;
use crate::report::Wrong;
use crate::seen::asked::{Asked, Outcome};
use crate::setting::{Held, Kept, There, has_other, held_by, there_in};
use bx_cli_commands::Fault;
use bx_journal::SessionFault;
use bx_run::ReportError;
use std::alloc::Global;
use test_world::MemoryWorld;

/// What is left of an image and its texts.
#[derive(Clone, Copy, Debug, PartialEq, Eq)]
pub enum Leaves {
    /// All as it was.
    All,
    /// The image, beside empty texts.
    Image,
    /// The image, beside fronts of the texts: of the journal all, unless the redo text is empty.
    Fronts,
}

impl Leaves {
    /// What is left where it ended so.
    pub fn of(asked: Asked<'_>, outcome: Outcome) -> Self {
        match (asked, outcome) {
            (Asked::Forget, Ok(_)) => Leaves::Image,
            (Asked::Forget, Err(ReportError::Stopped(Fault::Session(SessionFault::Interrupted)))) =>
                Leaves::Fronts,
            _ => Leaves::All,
        }
    }

    /// Whether these are left of the three.
    fn has(self, kept: Held<'_>, now: Held<'_>) -> bool {
        let is_less = match self {
            Leaves::All => return now.is_same(kept),
            Leaves::Image => now.journal.is_empty() && now.redo.is_empty(),
            Leaves::Fronts => {
                kept.journal.starts_with(now.journal)
                    && kept.redo.starts_with(now.redo)
                    && (now.journal == kept.journal || now.redo.is_empty())
            }
        };
        is_less && now.image == kept.image
    }

    /// Nothing was written, the three are as they are to be, and no other file has changed, was made or is gone.
    pub fn are_left(self, world: &MemoryWorld, kept: &Kept, before: There) -> Result<(), Wrong> {
        if self == Leaves::All {
            return is_untouched(world, kept, before);
        }
        if !world.output().is_empty() || !world.errors().is_empty() {
            return Err(Wrong::Streams);
        }
        let is_same = has_other(world) && there_in(world) == before && world.stuck() == 0;
        if !is_same || !self.has(kept.held(), held_by(world)) || !self.has_note(world) {
            return Err(Wrong::Files);
        }
        Ok(())
    }

    /// Whether the note is gone behind a history that is dropped, unless a call was refused.
    fn has_note(self, world: &MemoryWorld) -> bool {
        self != Leaves::Image || world.note().is_empty() || world.was_refused()
    }

    /// The power is lost: the three are as they are to be on the disk, and where one text has what is on its disk and the other one
    /// what it had.
    pub fn are_found(
        self,
        alloc: Global,
        world: &mut MemoryWorld,
        kept: &Kept,
        before: There,
    ) -> Result<(), Wrong> {
        let had = Kept::of(alloc, held_by(world))?;
        world.lose_power()?;
        self.are_left(world, kept, before)?;
        let disk = held_by(world);
        let of_journal = Held {
            redo: had.redo.as_slice(),
            ..disk
        };
        let of_redo = Held {
            journal: had.journal.as_slice(),
            ..disk
        };
        if !self.has(kept.held(), of_journal) || !self.has(kept.held(), of_redo) {
            return Err(Wrong::Found);
        }
        Ok(())
    }
}
