//! What the devices of a session said as they were given back, for a person who wants to know which of them stopped it.
use crate::files::counted_file::CountedFile;
use crate::system::System;
use bx_image::{Device, FailedCall, FileImage};
use bx_journal_store::{FileText, TextStore};
use bx_world::Outgrown;

/// What a device said of its calls.
#[derive(Clone, Copy)]
pub struct Ended {
    /// Whether one of them failed.
    pub has_failed: bool,
    /// The last one that the system refused.
    pub call: Option<FailedCall>,
}

impl Ended {
    /// None of its calls failed.
    pub const WELL: Ended = Ended {
        has_failed: false,
        call: None,
    };
}

/// What the three devices of a session said.
#[derive(Clone, Copy)]
pub struct Left {
    /// The image.
    pub image: Ended,
    /// Its journal.
    pub journal: Ended,
    /// Its redo text.
    pub redo: Ended,
    /// The length that the image was refused last, as one that can't grow so far.
    pub outgrown: Option<Outgrown>,
}

impl Left {
    /// No session has ended yet.
    pub const NOTHING: Left = Left {
        image: Ended::WELL,
        journal: Ended::WELL,
        redo: Ended::WELL,
        outgrown: None,
    };

    /// What three devices said. The failures of the redo text count from `first` on.
    pub fn of<R: System>(
        image: &FileImage<CountedFile<'_, '_, R>>,
        journal: &FileText<CountedFile<'_, '_, R>>,
        redo: &FileText<CountedFile<'_, '_, R>>,
        first: u64,
    ) -> Left {
        Left {
            image: Ended {
                has_failed: image.faults() > 0,
                call: image.file().failed(),
            },
            journal: ended_text(journal, 0),
            redo: ended_text(redo, first),
            outgrown: outgrown_by(image),
        }
    }
}

/// The length that an image was refused last, as one that can't grow so far.
fn outgrown_by<R: System>(image: &FileImage<CountedFile<'_, '_, R>>) -> Option<Outgrown> {
    let wanted = image.refused()?;
    Some(Outgrown {
        has: image.reserved(),
        wanted,
    })
}

/// What a text said of its calls, whose failures count from `first` on.
fn ended_text<R: System>(text: &FileText<CountedFile<'_, '_, R>>, first: u64) -> Ended {
    Ended {
        has_failed: text.faults() > first,
        call: text.file().failed(),
    }
}
