//! A journal's whole text, read at once.
ghost use Rattle.std.specs.Prelude.{IfOk, IfErr};
ghost use Rattle.bx_journal_format.specs.Text.{Reads};
ghost use Rattle.bx_journal_format.specs.read.Journal.{HasRead};
ghost use Rattle.bx_journal_format.specs.Parsed.{reading_of};
ghost use Rattle.bx_journal_model.specs.Calls.{ReadFault};

use bx_journal_format::{EntryFault, JournalRead, read_journal as read_entries};
use bx_journal_model::SessionFault;
use std::alloc::Allocator;

/// Reads a journal's text, or says at which line it is damaged. What it reads takes the text's memory where it can.
pub fn read_journal<A: Allocator + Clone>(
    alloc: &A,
    bytes: Vec<u8, A>,
) -> Result<JournalRead<A>, SessionFault>
    ensures reads { IfOk result (λ j. Reads bytes.items (reading_of j.entries.items j.stage)) }
    ensures read { IfOk result (λ j. HasRead bytes.items j) }
    ensures fault { IfErr result (ReadFault bytes.items) }
{
    match read_entries(alloc, bytes) {
        Ok(journal) => Ok(journal),
        Err(EntryFault::NoMemory) => Err(SessionFault::NoMemory),
        Err(EntryFault::Damaged { line }) => Err(SessionFault::Damaged { line }),
    }
}
