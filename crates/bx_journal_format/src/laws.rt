//! Laws of a journal's text, over its definitions alone.
ghost use Rattle.bx_journal_format.specs.Grammar.{DamagedIsFirst, JournalHasForm};

/// A text is accepted exactly where it is finished entries with what may stand behind them, and it reads as these.
pub fn journal_has_form()
    ensures { JournalHasForm }
{}

/// A text is damaged exactly at the first line that no journal has there.
pub fn damaged_is_first()
    ensures { DamagedIsFirst }
{}
