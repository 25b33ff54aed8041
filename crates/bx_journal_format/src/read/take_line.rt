//! One more line of a journal's text, kept.
ghost use Rattle.std.specs.Prelude.{◌≡◌, ◌+◌, ◌<◌, ◌≤◌, ◌^◌, List, length, IfOk, OnOk, []};
ghost use Rattle.bx_journal_format.specs.Text.{Entry};
ghost use Rattle.bx_journal_format.specs.Parsed.{told_by, entries_of, entries_onto, stage_of};
ghost use Rattle.bx_journal_format.specs.read.Event.{IsClassified};
ghost use Rattle.bx_journal_format.specs.count.Tally.{place_of};
ghost use Rattle.bx_journal_format.specs.read.TakeLine.{IsCompleted, IsFinishedBy, IsSavedOn, TakesLine};

use crate::format::line::{SavedLine, push_line};
use crate::read::classify::{Event, classify};
use crate::read::count::{Place, Tally};
use crate::{EntryRead, Front, StageRead};
use bx_image::Saved;
use bx_text::{NoMemory, Piece, Pieces};
use std::alloc::Allocator;

/// Where a text stands at a stage.
fn place_at<A: Allocator>(stage: &StageRead<A>) -> Place
    ensures { result ≡ place_of (stage_of stage.now) }
{
    match stage {
        StageRead::Between => Place::Between,
        StageRead::Saving { version, len, .. } => Place::Saving {
            version: *version,
            len: *len,
        },
        StageRead::Ending { version, .. } => Place::Ending { version: *version },
    }
}

/// What a line is at a stage behind a front and these entries.
pub fn event_at<A: Allocator>(
    front: Front,
    entries: &[EntryRead<A>],
    stage: &StageRead<A>,
    line: &[u8],
) -> Option<Event>
    requires { front.count + length entries.now ≤ 65535 }
    ensures { (older : List Entry) → front.count ≡ length older → front.told ≡ told_by older
        → IsClassified (entries_onto older entries.now) (stage_of stage.now) line.now result }
{
    let tally = Tally {
        count: front.count + entries.len() as u32,
        told: told_behind(front.told, entries),
        place: place_at(stage),
    };
    classify(tally, line)
}

fn no_runs<A: Allocator + Clone>(alloc: &A) -> Result<Vec<Piece<A>, A>, NoMemory>
    ensures { IfOk result (λ runs. runs.items ≡ []) }
{
    Ok(Vec::new(alloc.clone().map_err(|_| NoMemory)?))
}

/// The stage with a saved line more.
pub fn with_line<A: Allocator + Clone>(
    alloc: &A,
    stage: StageRead<A>,
    line: SavedLine,
) -> Result<StageRead<A>, NoMemory>
    ensures { IfOk result (IsSavedOn stage line) }
{
    let mut stage = stage;
    if let StageRead::Saving { runs, .. } = &mut stage {
        push_line(alloc, runs, line.at, &line.bytes[..line.count])?;
    }
    Ok(stage)
}

/// The stage behind a save line, which ends at `saved`.
fn completed<A: Allocator>(stage: StageRead<A>, saved: u64) -> StageRead<A>
    ensures { IsCompleted stage saved result }
{
    match stage {
        StageRead::Saving {
            version,
            len,
            runs,
            begins,
        } => {
            let kept = Saved {
                len,
                runs: Pieces::from_vec(runs),
            };
            StageRead::Ending {
                version,
                kept,
                begins,
                saved,
            }
        }
        other => other,
    }
}

/// Adds the entry that is finished by its end line, which tells this length.
fn finish<A: Allocator>(
    entries: &mut Vec<EntryRead<A>, A>,
    stage: StageRead<A>,
    after: Option<u64>,
) -> Result<(), NoMemory>
    ensures { OnOk result (IsFinishedBy entries.old.items stage after entries.new.items) }
{
    match stage {
        StageRead::Between => Ok(()),
        StageRead::Saving { .. } => Ok(()),
        StageRead::Ending {
            version,
            kept,
            begins,
            saved,
        } => {
            let entry = EntryRead {
                version,
                kept,
                after,
                begins,
                saved,
            };
            if entries.push(entry).is_err() {
                return Err(NoMemory);
            }
            Ok(())
        }
    }
}

/// Takes a line at a place, behind entries that stand before those that were read. The answer is none where it is out of
/// place.
pub fn take_line<A: Allocator + Clone>(
    alloc: &A,
    front: Front,
    entries: &mut Vec<EntryRead<A>, A>,
    stage: StageRead<A>,
    at: u64,
    line: &[u8],
) -> Result<Option<StageRead<A>>, NoMemory>
    requires few { front.count + length entries.old.items ≤ 65535 }
    requires room { at + length line.now + 1 < 2 ^ 64 }
    ensures { (older : List Entry) → front.count ≡ length older → front.told ≡ told_by older
        → IfOk result (TakesLine older entries.old.items stage at line.now entries.new.items) }
{
    let Some(event) = event_at(front, entries, &stage, line) else {
        return Ok(None);
    };
    match event {
        Event::Begun { version, len } => {
            let runs = no_runs(alloc)?;
            Ok(Some(StageRead::Saving {
                version,
                len,
                runs,
                begins: at,
            }))
        }
        Event::Saved { line } => Ok(Some(with_line(alloc, stage, line)?)),
        Event::Complete { .. } => Ok(Some(completed(stage, at + line.len() as u64 + 1))),
        Event::Committed { after } => {
            finish(entries, stage, after)?;
            Ok(Some(StageRead::Between))
        }
    }
}

/// The length that the next entry has to begin with: of these entries the last one tells it, and where there are none, the
/// last of those before them.
pub fn told_behind<A: Allocator>(told: Option<u64>, entries: &[EntryRead<A>]) -> Option<u64>
    ensures { (older : List Entry) → told ≡ told_by older → result ≡ told_by (entries_onto older entries.now) }
{
    if entries.is_empty() {
        return told;
    }
    told_length(entries)
}

/// The length that the next entry has to begin with, where the last one tells it.
pub fn told_length<A: Allocator>(entries: &[EntryRead<A>]) -> Option<u64>
    ensures { result ≡ told_by (entries_of entries.now) }
{
    let last = entries.last()?;
    last.after
}
