//! All of a journal's text.
ghost use Rattle.std.specs.Prelude.{List, ℕ, IfOk, IfErr};
ghost use Rattle.bx_journal_format.specs.Text.{Entry, Reads};
ghost use Rattle.bx_journal_format.specs.Parsed.{reading_of};

use crate::format::newline::line_end;
use crate::read::runs::extend::go_on;
use crate::read::runs::full_lines::ENDED;
use crate::read::runs::text::{Unread, behind, rest_of};
use crate::read::tail::rest_fits;
use crate::read::take_line::{take_line, told_behind};
use crate::{EntryFault, EntryRead, Front, StageRead};
use std::alloc::{Allocator, Global};

/// What was read. The last newline is before `whole`.
#[derive(Drop)]
pub struct JournalRead<A: Allocator = Global> {
    pub entries: Vec<EntryRead<A>, A>,
    pub stage: StageRead<A>,
    pub whole: u64,
}

ghost use Rattle.bx_journal_format.specs.read.Journal.{HasRead, HasReadBehind, IsBehind};
ghost use Rattle.bx_journal_format.specs.Fault.{StopsReading};

/// Reads a journal's text, or says at which line it is damaged. What it reads takes the text's memory where it can.
pub fn read_journal<A: Allocator + Clone>(
    alloc: &A,
    bytes: Vec<u8, A>,
) -> Result<JournalRead<A>, EntryFault>
    ensures reads { IfOk result (λ j. Reads bytes.items (reading_of j.entries.items j.stage)) }
    ensures read { IfOk result (λ j. HasRead bytes.items j) }
    ensures fault { IfErr result (StopsReading bytes.items) }
{
    let front = Front {
        count: 0,
        told: None,
        at: 0,
        lines: 0,
    };
    read_behind(alloc, front, bytes)
}

/// Reads what a journal's text has behind a front of finished entries alone, or says at which line of the whole text it is
/// damaged. The places are those in the whole text. What it reads takes the memory of `bytes` where it can.
pub fn read_behind<A: Allocator + Clone>(
    alloc: &A,
    front: Front,
    bytes: Vec<u8, A>,
) -> Result<JournalRead<A>, EntryFault>
    requires { (text : List ℕ) × (older : List Entry) × IsBehind text older front bytes.items }
    ensures read { (text : List ℕ) (older : List Entry) → IsBehind text older front bytes.items → IfOk result (HasReadBehind text older) }
    ensures fault { (text : List ℕ) (older : List Entry) → IsBehind text older front bytes.items → IfErr result (StopsReading text) }
{
    let mut entries = Vec::new(alloc.clone()?);
    let mut stage = StageRead::Between;
    let mut at: u64 = front.at;
    let mut line: u64 = front.lines + 1;
    let mut text = Unread { bytes, from: 0 };
    while let Some(i) = line_end(rest_of(&text)) {
        let after = at + i as u64 + 1;
        let (now, _) = rest_of(&text).split_at(i);
        let Ok(taken) = take_line(alloc, front, &mut entries, stage, at, now) else {
            return Err(EntryFault::NoMemory);
        };
        let Some(next) = taken else {
            return Err(EntryFault::Damaged { line });
        };
        let Ok(gone) = go_on(alloc, next, behind(text, i + 1)) else {
            return Err(EntryFault::NoMemory);
        };
        at = after + (ENDED * gone.count) as u64;
        line = line + 1 + gone.count as u64;
        stage = gone.stage;
        text = gone.text;
    }
    let number = front.count + entries.len() as u32 + 1;
    let told = told_behind(front.told, &entries);
    if !rest_fits(number, told, &stage, rest_of(&text)) {
        return Err(EntryFault::Damaged { line });
    }
    Ok(JournalRead {
        entries,
        stage,
        whole: at,
    })
}
