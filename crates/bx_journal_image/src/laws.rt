//! Laws of the advice, over definitions alone.
ghost use Rattle.bx_journal_image.specs.Laws.{NeverRefusesBehindSteps, NeverRefusesTheRightImage, NothingStoppedIsOlder, OlderIsRefused, RedoRefusedOnlyIfChanged, RefusedOnlyIfChanged, RefusesAnother, SmallAreWhole};
ghost use Rattle.bx_journal_image.specs.Unfinished.{NeverRefusesWhatIsRecovered};

/// An undo that leaves those changes alone that stand for another image is refused only where the image has other bytes in the ranges of
/// the last change than the command left that wrote the line, or the texts are older than it.
pub fn refused_only_if_changed()
    ensures { RefusedOnlyIfChanged }
{}

/// A redo is refused only where it has other bytes in the ranges of the change that was undone last, or the texts are older.
pub fn redo_refused_only_if_changed()
    ensures { RedoRefusedOnlyIfChanged }
{}

/// Texts that a stopped command left are never older than its line.
pub fn nothing_stopped_is_older()
    ensures { NothingStoppedIsOlder }
{}

/// Of texts that are older each undo and each redo is refused, as far as there are as many steps.
pub fn older_is_refused()
    ensures { OlderIsRefused }
{}

/// An image that a stopped command may have made of the one that the line is of isn't another one.
pub fn never_refuses_the_right_image()
    ensures { NeverRefusesTheRightImage }
{}

/// So it is where blocks were struck before a command of several steps.
pub fn never_refuses_behind_steps()
    ensures { NeverRefusesBehindSteps }
{}

/// So in the words of recovery: an image is never refused if restoring what is unfinished makes the same image of it.
pub fn never_refuses_what_is_recovered()
    ensures { NeverRefusesWhatIsRecovered }
{}

/// One of another length, or with another block that the command doesn't touch, is.
pub fn refuses_another()
    ensures { RefusesAnother }
{}

/// The blocks of a small image are all of it.
pub fn small_are_whole()
    ensures { SmallAreWhole }
{}
