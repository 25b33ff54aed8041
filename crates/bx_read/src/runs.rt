//! Whole dumps, in which lines that go on with one another are one run.
ghost use Rattle.std.specs.Prelude.{◌≡◌, ◌⊎◌, ◌+◌, ◌^◌, ◌<◌, ◌≤◌, ◌++◌, ℕ, List, length, Ok, Err, MatchResult, IfOk, IfErr, All};
ghost use Rattle.bx_read.specs.Text.{lines_of, answers, dump_pieces, contents, gathered};
ghost use Rattle.bx_read.specs.Runs.{joined};
ghost use Rattle.bx_read.specs.Lines.{coming};
ghost use Rattle.bx_read.specs.private.NextLine.{piece_of, IsNextLine, lines_left, joined_of, runs_with, runs_then};

use crate::fault::ReadFault;
use crate::full::rows::goes_on;
use crate::full::{ENDED, FullLine};
use crate::line::Line;
use crate::lines::DumpLines;
use bx_text::{Bytes, Piece};
use std::alloc::{Allocator, Global};

/// Reads the text of a dump as `read_dump` does, but neighbours are one piece where one begins at the end of the one
/// before. A line out of order, one that overlaps the line before it and one behind a gap each begin a piece of their own.
pub fn read_runs<A: Allocator + Clone>(alloc: A, text: &[u8]) -> Result<Vec<Piece<A>, A>, ReadFault>
    // The runs of the pieces, or the fault that reading them gives.
    ensures exact { IfOk result (λ v. (pieces : List (ℕ × List ℕ)) × (dump_pieces text.now ≡ Ok pieces) × (contents v.items ≡ joined pieces)) }
    ensures fault { IfErr result (λ e. (e ≡ ReadFault.NoMemory) ⊎ (dump_pieces text.now ≡ Err e)) }
    // Each run begins below 2^62.
    ensures near { IfOk result (λ v. All (λ run. run.at < 2 ^ 62) v.items) }
{
    let _len = text.len();
    gather_runs(alloc, text, 0)
}

/// The runs of a text that follows `passed` lines, one after another. Memory for the first one is guessed from the text's
/// length, as if all lines went on.
pub(crate) fn gather_runs<A: Allocator + Clone>(
    alloc: A,
    text: &[u8],
    passed: u64,
) -> Result<Vec<Piece<A>, A>, ReadFault>
    requires { passed + length text.now < 2 ^ 64 }
    ensures { MatchResult result (λ v. joined_of (gathered (answers (passed + 1) (lines_of text.now))) ≡ Ok (contents v.items))
        (λ e. (e ≡ ReadFault.NoMemory) ⊎ (gathered (answers (passed + 1) (lines_of text.now)) ≡ Err e)) }
{
    let mut runs = Vec::new(alloc.clone()?);
    let mut room = text.len() / ENDED * 16 + 16;
    let mut lines = DumpLines::behind(text, passed);
    let mut next = next_line(&mut lines)?;
    while let Some(first) = next {
        let taken = take_run(alloc.clone()?, &mut lines, first, room)?;
        runs.push(taken.run)?;
        next = taken.next;
        room = 0;
    }
    Ok(runs)
}

/// A line of a dump.
#[derive(Drop)]
enum DumpLine<'a> {
    /// One of xxd's default form that holds 16 bytes.
    Full(FullLine),
    /// Any other.
    Other(Line<'a>),
}

impl<'a> DumpLine<'a> {
    ghost use Rattle.bx_read.specs.private.NextLine.{piece_of};

    /// The address of its first byte.
    #[inline]
    fn at(&self) -> u64
        ensures { result ≡ (piece_of self.now).0 }
    {
        match self {
            DumpLine::Full(line) => line.at,
            DumpLine::Other(line) => line.at,
        }
    }

    /// Adds its bytes.
    #[inline]
    fn push_to<A: Allocator>(&self, bytes: &mut Vec<u8, A>) -> Result<(), ReadFault>
        ensures { MatchResult result (λ _. bytes.new.items ≡ bytes.old.items ++ (piece_of self.now).1) (λ e. e ≡ ReadFault.NoMemory) }
    {
        match self {
            DumpLine::Full(line) => bytes.extend_from_slice(&line.bytes)?,
            DumpLine::Other(line) => {
                let mut out = [0u8; 256];
                let count = line.decode(&mut out);
                bytes.extend_from_slice(&out[..count])?;
            }
        }
        Ok(())
    }
}

/// The next line, and none at the end.
#[inline]
fn next_line<'a>(lines: &mut DumpLines<'a>) -> Result<Option<DumpLine<'a>>, ReadFault>
    ensures { MatchResult result (IsNextLine (coming lines.old) (coming lines.new)) (λ e. gathered (coming lines.old) ≡ Err e) }
{
    if let Some(full) = lines.take_full() {
        return Ok(Some(DumpLine::Full(full)));
    }
    match lines.next() {
        None => Ok(None),
        Some(Err(fault)) => Err(fault),
        Some(Ok(line)) => Ok(Some(DumpLine::Other(line))),
    }
}

/// A run, and the line behind it.
#[derive(Drop)]
struct TakenRun<'a, A: Allocator = Global> {
    run: Piece<A>,
    next: Option<DumpLine<'a>>,
}

/// The run that a line begins, with room for `room` bytes at first.
fn take_run<'a, A: Allocator>(
    alloc: A,
    lines: &mut DumpLines<'a>,
    first: DumpLine<'a>,
    room: usize,
) -> Result<TakenRun<'a, A>, ReadFault>
    ensures run { IfOk result (λ t. runs_with (piece_of first.entry) (coming lines.old) ≡ runs_then (t.run.at, t.run.bytes) t.next (coming lines.new)) }
    ensures fault { IfErr result (λ e. (e ≡ ReadFault.NoMemory) ⊎ (gathered (coming lines.old) ≡ Err e)) }
    ensures fewer { IfOk result (λ t. lines_left t.next (coming lines.new) ≤ length (coming lines.old)) }
{
    let at = first.at();
    let mut bytes = Vec::with_capacity(alloc, room)?;
    first.push_to(&mut bytes)?;
    let next = grow(lines, at, &mut bytes)?;
    let run = Piece {
        at,
        bytes: Bytes::from_vec(bytes),
    };
    Ok(TakenRun { run, next })
}

/// Adds the lines that go on with a run, and answers the first one that doesn't.
fn grow<'a, A: Allocator>(
    lines: &mut DumpLines<'a>,
    at: u64,
    bytes: &mut Vec<u8, A>,
) -> Result<Option<DumpLine<'a>>, ReadFault>
    ensures run { IfOk result (λ next. runs_with (at, bytes.old.items) (coming lines.old) ≡ runs_then (at, bytes.new.items) next (coming lines.new)) }
    ensures fault { IfErr result (λ e. (e ≡ ReadFault.NoMemory) ⊎ (gathered (coming lines.old) ≡ Err e)) }
    ensures fewer { IfOk result (λ next. lines_left next (coming lines.new) ≤ length (coming lines.old)) }
{
    lines.take_row(at, bytes)?;
    while let Some(line) = next_line(lines)? {
        if !goes_on(at, bytes.len(), line.at()) {
            return Ok(Some(line));
        }
        line.push_to(bytes)?;
        lines.take_row(at, bytes)?;
    }
    Ok(None)
}
