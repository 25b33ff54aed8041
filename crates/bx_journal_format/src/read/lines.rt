//! The whole lines of a window, read into entries: of a text that is read in windows no more than one is in memory.
ghost use Rattle.std.specs.Prelude.{◌≡◌, ◌+◌, ◌*◌, ◌^◌, ◌<◌, ◌≤◌, List, ℕ, length, drop, IfOk, IfSome};
ghost use Rattle.bx_journal_format.specs.read.Lines.{IsFront, IsReadAlike, IsReadUpTo, ReadsOn, StageGoesOnBy};
ghost use Rattle.bx_journal_format.specs.Text.{Entry};

use crate::format::newline::line_end;
use crate::read::classify::MOST_CHANGES;
use crate::read::runs::full_lines::ENDED;
use crate::read::runs::gather::{Gathered, gather_last, trim_last};
use crate::read::take_line::take_line;
use crate::{EntryRead, Front, StageRead};
use bx_text::NoMemory;
use std::alloc::{Allocator, Global};

/// What was read behind a front up to the place `at`, and whether its last run has room for lines that come later.
#[derive(Drop)]
pub struct LinesRead<A: Allocator = Global> {
    pub entries: Vec<EntryRead<A>, A>,
    pub stage: StageRead<A>,
    pub at: u64,
    pub has_room: bool,
}

/// A stage, how many full lines led to it, and whether its last run has room for lines of the windows to come.
#[derive(Drop)]
struct GoneOn<A: Allocator = Global> {
    stage: StageRead<A>,
    gathered: Gathered,
}

/// Nothing is read yet behind a front.
pub fn nothing_read<A: Allocator + Clone>(alloc: &A, front: Front) -> Result<LinesRead<A>, NoMemory>
    ensures read { (text : List ℕ) (older : List Entry) → IsFront text older front → IfOk result (IsReadUpTo text older front) }
    ensures at { IfOk result (λ r. r.at ≡ front.at) }
{
    let alloc = alloc.clone().map_err(|_| NoMemory)?;
    Ok(LinesRead {
        entries: Vec::new(alloc),
        stage: StageRead::Between,
        at: front.at,
        has_room: false,
    })
}

/// What isn't read yet of a window.
#[inline(always)]
pub fn rest_at(window: &[u8], from: usize) -> &[u8]
    requires { from ≤ length window.now }
    ensures { result.now ≡ drop from window.now }
{
    let (_, rest) = window.split_at(from);
    rest
}

/// Goes on from a stage with the full lines at a place of a window, where they go on with its last run.
fn go_on_in<A: Allocator>(
    stage: StageRead<A>,
    left: u64,
    from: usize,
    window: &mut [u8],
) -> Result<GoneOn<A>, NoMemory>
    requires within { from ≤ length window.old }
    ensures within { IfOk result (λ g. from + 68 * g.gathered.count ≤ length window.old) }
    ensures left { IfOk result (λ g. drop (from + 68 * g.gathered.count) window.new ≡ drop (from + 68 * g.gathered.count) window.old) }
    ensures same_length { length window.new ≡ length window.old }
    ensures read { IfOk result (λ g. StageGoesOnBy (drop from window.old) stage g.stage g.gathered.count) }
{
    let mut stage = stage;
    let gathered = if let StageRead::Saving { len, runs, .. } = &mut stage {
        gather_last(*len, runs, left, from, window)?
    } else {
        Gathered {
            count: 0,
            has_room: false,
        }
    };
    Ok(GoneOn { stage, gathered })
}

/// The stage without the room that its last run has for lines that come later, where it has some.
pub fn without_room<A: Allocator>(
    stage: StageRead<A>,
    has_room: bool,
) -> Result<StageRead<A>, NoMemory>
    ensures { IfOk result (IsReadAlike stage) }
{
    let mut stage = stage;
    if let StageRead::Saving { runs, .. } = &mut stage {
        if has_room {
            trim_last(runs)?;
        }
    }
    Ok(stage)
}

/// Takes the whole lines at the start of a window, with which the text goes on behind what was read; `left` bytes of text
/// are behind the window. It answers none where a line is out of place. The window's bytes may be other ones afterwards.
pub fn read_lines<A: Allocator + Clone>(
    alloc: &A,
    front: Front,
    read: LinesRead<A>,
    left: u64,
    window: &mut [u8],
) -> Result<Option<LinesRead<A>>, NoMemory>
    requires { read.at + length window.old < 2 ^ 64 }
    ensures read { ReadsOn front read window.old result }
    ensures forth { IfOk result (λ found. IfSome found (λ r. read.at ≤ r.at)) }
    ensures within { IfOk result (λ found. IfSome found (λ r. r.at ≤ read.at + length window.old)) }
{
    let LinesRead {
        mut entries,
        stage,
        at: start,
        mut has_room,
    } = read;
    let first = go_on_in(stage, left, 0, window)?;
    has_room = has_room || first.gathered.has_room;
    let mut stage = first.stage;
    let mut from = ENDED * first.gathered.count;
    while let Some(i) = line_end(rest_at(window, from)) {
        if front.count as usize + entries.len() > MOST_CHANGES as usize {
            return Ok(None);
        }
        let old = without_room(stage, has_room)?;
        let at = start + from as u64;
        let (line, _) = rest_at(window, from).split_at(i);
        let taken = take_line(alloc, front, &mut entries, old, at, line)?;
        let Some(next) = taken else {
            return Ok(None);
        };
        let gone = go_on_in(next, left, from + i + 1, window)?;
        from = from + i + 1 + ENDED * gone.gathered.count;
        has_room = gone.gathered.has_room;
        stage = gone.stage;
    }
    Ok(Some(LinesRead {
        entries,
        stage,
        at: start + from as u64,
        has_room,
    }))
}
