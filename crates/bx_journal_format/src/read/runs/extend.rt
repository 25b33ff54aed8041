//! Going on from a stage with the full lines that come next.
ghost use Rattle.std.specs.Prelude.{◌≡◌, ◌*◌, ◌≤◌, length, map, drop, IfOk};
ghost use Rattle.bx_journal_format.specs.Kept.{run_of};
ghost use Rattle.bx_journal_format.specs.read.Followed.{GoesOnBy};
ghost use Rattle.bx_journal_format.specs.Parsed.{ReadingGoesOnBy};

use crate::StageRead;
use crate::format::line::push;
use crate::read::runs::reuse_text::{Extended, extend_in_place};
use crate::read::runs::text::Unread;
use bx_text::{Bytes, NoMemory, Piece};
use std::alloc::{Allocator, Global};

/// A stage, how many full lines led to it, and the text behind them.
#[derive(Drop)]
pub struct GoneOn<A: Allocator = Global> {
    pub stage: StageRead<A>,
    pub count: usize,
    pub text: Unread<A>,
}

/// How many full lines go on with the last run, and the text behind them.
#[derive(Drop)]
struct Followed<A: Allocator = Global> {
    count: usize,
    text: Unread<A>,
}

/// Takes the full lines that go on with the last run.
fn extend_last<A: Allocator + Clone>(
    alloc: &A,
    len: u64,
    runs: &mut Vec<Piece<A>, A>,
    text: Unread<A>,
) -> Result<Followed<A>, NoMemory>
    ensures goes_on { IfOk result (λ f. GoesOnBy len (drop text.from text.bytes.items) (map run_of runs.old.items) (map run_of runs.new.items) f.count) }
    ensures left { IfOk result (λ f. drop f.text.from f.text.bytes.items ≡ drop (68 * f.count) (drop text.from text.bytes.items)) }
{
    let Some(last) = runs.pop() else {
        return Ok(Followed { count: 0, text });
    };
    let Piece { at, bytes } = last;
    let Extended { bytes, count, text } = extend_in_place(alloc, len, at, bytes.into_vec(), text)?;
    let bytes = Bytes::from_vec(bytes);
    push(runs, Piece { at, bytes })?;
    Ok(Followed { count, text })
}

/// Goes on from a stage with the full lines that come next in the text, where they go on with its last run.
pub fn go_on<A: Allocator + Clone>(
    alloc: &A,
    stage: StageRead<A>,
    text: Unread<A>,
) -> Result<GoneOn<A>, NoMemory>
    ensures within { IfOk result (λ g. 68 * g.count ≤ length (drop text.from text.bytes.items)) }
    ensures left { IfOk result (λ g. drop g.text.from g.text.bytes.items ≡ drop (68 * g.count) (drop text.from text.bytes.items)) }
    ensures read { IfOk result (λ g. ReadingGoesOnBy (drop text.from text.bytes.items) stage g.stage g.count) }
{
    let mut stage = stage;
    let Followed { count, text } = if let StageRead::Saving { len, runs, .. } = &mut stage {
        extend_last(alloc, *len, runs, text)?
    } else {
        Followed { count: 0, text }
    };
    Ok(GoneOn { stage, count, text })
}
