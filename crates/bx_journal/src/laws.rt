//! Laws over the definitions alone.
ghost use Rattle.bx_journal.specs.Losses.{FindsIsFound, OpeningFinds, OpeningsFind};
ghost use Rattle.bx_journal.specs.ShowLaws.{FinishedIsSpelled, ShownIsWritten, ShownRedoIsAPatch, ShownUndoIsAPatch, ShowsAsDump};
ghost use Rattle.bx_journal_model.specs.Laws.{WrittenIsRead, StandsForOne, DamagedAtOne, EmptyIsSound};
ghost use Rattle.bx_journal_model.specs.RedoLaws.{EmptyIsRedo, IsWrittenAgain, RedoIsOne, RedoLineOne};

use bx_image::Device;
use bx_journal_store::TextStore;
use std::alloc::Allocator;

/// The entry that is written is read again, and gives its number, its record and its length.
pub fn written_entry_is_read()
    ensures { WrittenIsRead }
{}

/// Two stacks for which one text and image stand are equal.
pub fn one_stack()
    ensures { StandsForOne }
{}

/// A text is damaged at one line, and only where it is not accepted.
pub fn one_damaged_line()
    ensures { DamagedAtOne }
{}

/// An empty text is sound with every image.
pub fn empty_text_is_sound()
    ensures { EmptyIsSound }
{}

/// An empty text is the redo text of no undone image, whatever the image is.
pub fn empty_is_redo()
    ensures { EmptyIsRedo }
{}

/// A redo text and an image determine the undone images.
pub fn one_undone()
    ensures { RedoIsOne }
{}

/// A redo text is refused at one line, and only where it isn't one.
pub fn one_redo_line()
    ensures { RedoLineOne }
{}

/// Behind a change that was made, an undo that is made and a redo that is made leave the very text of the journal.
pub fn entry_is_written_again<D: Device, T: TextStore, A: Allocator>()
    ensures { IsWrittenAgain A D.image T.text }
{}

/// What opening finds of a text it finds of the same text behind a loss of power. So a fault that leaves images to be found
/// (`Finds`) leaves them to an opening, which asks for `Found`.
pub fn finds_is_found()
    ensures { FindsIsFound }
{}

/// Where the three devices are found with some images whatever a loss of power leaves, they are so behind an opening, whatever it answers, or
/// without those that were undone. So what a call that was answered put on the disk outlives the openings of later processes.
pub fn opening_finds<D: Device, T: TextStore>()
    ensures { OpeningFinds D.Device T.TextStore }
{}

/// The same through any number of losses of power and openings, each loss at any moment of the opening before it.
pub fn openings_find<D: Device, T: TextStore>()
    ensures { OpeningsFind D.Device T.TextStore }
{}

/// An undo writes what is shown of it. `show` writes a line of a dump for each run that an entry's saved lines give, and an undo of k makes
/// of the image exactly what the runs of the newest k entries make of it, each entry's placed onto the image cut, or filled up, to its length.
pub fn shown_is_written()
    ensures shown { ShowsAsDump }
    ensures written { ShownIsWritten }
{}

/// Each text of finished entries alone is spelled, so what is shown of a text that is accepted is said of each of them.
pub fn finished_is_spelled()
    ensures { FinishedIsSpelled }
{}

/// What is shown of one undo or one redo, beside the image, is a patch: it agrees with the image that is there, and its change makes of it
/// the image that the undo or the redo gives, bytes and length. Of an undo the newest entry has to tell the length after its change.
pub fn shown_is_a_patch<A: Allocator>()
    ensures undo { ShownUndoIsAPatch A }
    ensures redo { ShownRedoIsAPatch A }
{}
