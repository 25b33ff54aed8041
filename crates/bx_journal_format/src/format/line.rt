//! One line of a journal's text.
ghost use Rattle.std.specs.Prelude.{◌≡◌, ◌+◌, ◌<◌, ◌≤◌, ◌==◌, [], ◌∷◌, ◌++◌, length, map, take, IfOk, IfSome, OnOk, MatchOption, Some, None};
ghost use Rattle.std.specs.Str.{bytes_eq};
ghost use Rattle.bx_journal_format.specs.DumpLine.{run_of_line};
ghost use Rattle.bx_journal_format.specs.Kept.{run_of, with_run};
ghost use Rattle.bx_journal_format.specs.Line.{at_most as most, length_in as length_read, after_in as after_read, saved_in as saved_read, save_line, start_size};

use crate::Version;
use crate::format::version::width_of;
use crate::format::words::{behind_end, behind_start, is_numbered, number_of};
use bx_image::MAX_LEN;
use bx_read::{FullLine, Line, full_text};
use bx_text::{Bytes, NoMemory, Piece};
use std::alloc::Allocator;

/// The number, where it is a length that an image may have.
#[inline(always)]
fn at_most_longest(n: Option<u64>) -> Option<u64>
    ensures { result ≡ most MAX_LEN n }
{
    let n = n?;
    if n <= MAX_LEN { Some(n) } else { None }
}

/// How long the line is that begins an entry of this version.
#[inline(always)]
fn start_size_of(version: Version) -> usize
    ensures { result ≡ start_size version }
{
    match version {
        Version::First => 24,
        Version::Second => 33,
    }
}

/// The length in the line that begins an entry of this version and number.
#[tactic(auto, unfolding(crate::specs::Line::length_in))]
#[inline(always)]
pub fn length_in(version: Version, number: u32, line: &[u8]) -> Option<u64>
    ensures { result ≡ length_read version number line.now }
{
    if line.len() != start_size_of(version) {
        return None;
    }
    let digits = behind_start(version, number, line)?;
    at_most_longest(number_of(width_of(version), digits))
}

/// Whether the line ends what the entry of this number saves.
#[tactic(auto, unfolding(crate::specs::Line::save_line))]
#[inline(always)]
pub fn is_save(number: u32, line: &[u8]) -> bool
    ensures { result ≡ bytes_eq line.now (save_line number) }
{
    is_numbered(b"save ", number, line)
}

/// The length after the change, where the line ends the entry of this version and number. The first version has none.
#[tactic(auto, unfolding(crate::specs::Line::after_in, crate::specs::Line::end_line, crate::specs::Line::end_head))]
#[inline(always)]
pub fn after_in(version: Version, number: u32, line: &[u8]) -> Option<Option<u64>>
    ensures { result ≡ after_read version number line.now }
{
    match version {
        Version::First => {
            if is_numbered(b"done ", number, line) {
                Some(None)
            } else {
                None
            }
        }
        Version::Second => {
            let digits = behind_end(number, line)?;
            Some(Some(at_most_longest(number_of(16, digits))?))
        }
    }
}

/// What a saved line gives: an address, and `count` bytes, at most 16.
#[derive(Clone, Copy)]
pub struct SavedLine {
    pub at: u64,
    pub bytes: [u8; 16],
    pub count: usize,
    ghost few: { count ≤ 16 },
}

/// What a line in xxd's default form gives that has 16 bytes at an address of 8 digits, as most have.
#[tactic(auto, unfolding(crate::specs::DumpLine::run_of_line))]
#[inline(always)]
pub fn full_in(line: &[u8]) -> Option<FullLine>
    ensures { IfSome result (λ l. run_of_line line.now ≡ Some (record { at = l.at; bytes = l.bytes })) }
{
    if line.len() == 67 {
        full_text(line)
    } else {
        None
    }
}

/// The line, where it lies within this length.
#[inline(always)]
pub fn within(len: u64, line: SavedLine) -> Option<SavedLine>
    ensures { MatchOption result (len < line.at + line.count) (λ l. (l ≡ line) × (line.at + line.count ≤ len)) }
{
    let count = line.count as u64;
    if count > len || line.at > len - count {
        return None;
    }
    Some(line)
}

/// What a saved line of any form gives in an entry of an image of this length.
#[inline(never)]
fn any_in(len: u64, line: &[u8]) -> Option<SavedLine>
    ensures { MatchOption result (saved_read len line.now ≡ None) (λ l. saved_read len line.now ≡ Some (record { at = l.at; bytes = take l.count l.bytes })) }
{
    let Ok(read) = Line::parse(line, 1) else {
        return None;
    };
    let mut out = [0; 256];
    let count = read.decode(&mut out);
    if count > 16 {
        return None;
    }
    let mut bytes = [0; 16];
    bytes.copy_from_slice(&out[..16]);
    within(
        len,
        SavedLine {
            at: read.at,
            bytes,
            count,
        },
    )
}

/// What a saved line gives in an entry of an image of this length.
#[inline]
pub fn saved_in(len: u64, line: &[u8]) -> Option<SavedLine>
    ensures { MatchOption result (saved_read len line.now ≡ None) (λ l. saved_read len line.now ≡ Some (record { at = l.at; bytes = take l.count l.bytes })) }
{
    if let Some(full) = full_in(line) {
        let bytes = full.bytes;
        return within(
            len,
            SavedLine {
                at: full.at,
                bytes,
                count: 16,
            },
        );
    }
    any_in(len, line)
}

/// These bytes at an address, in memory of their own.
fn piece_at<A: Allocator + Clone>(alloc: &A, at: u64, bytes: &[u8]) -> Result<Piece<A>, NoMemory>
    ensures { IfOk result (λ piece. run_of piece ≡ record { at = at; bytes = bytes.now }) }
{
    let alloc = alloc.clone().map_err(|_| NoMemory)?;
    let bytes = Vec::from_slice(alloc, bytes).map_err(|_| NoMemory)?;
    Ok(Piece {
        at,
        bytes: Bytes::from_vec(bytes),
    })
}

/// Whether the run ends where this address is.
fn ends_at<A: Allocator>(run: &Piece<A>, at: u64) -> bool
    ensures { result ≡ (at == run.now.at + length run.now.bytes) }
{
    at >= run.at && at - run.at == run.bytes.as_slice().len() as u64
}

/// The run with more bytes at its end.
fn longer<A: Allocator>(run: Piece<A>, more: &[u8]) -> Result<Piece<A>, NoMemory>
    ensures { IfOk result (λ piece. run_of piece ≡ record { at = run.at; bytes = run.bytes ++ more.now }) }
{
    let Piece { at, bytes } = run;
    let mut bytes = bytes.into_vec();
    if bytes.extend_from_slice(more).is_err() {
        return Err(NoMemory);
    }
    Ok(Piece {
        at,
        bytes: Bytes::from_vec(bytes),
    })
}

pub fn push<A: Allocator>(runs: &mut Vec<Piece<A>, A>, run: Piece<A>) -> Result<(), NoMemory>
    ensures { OnOk result (map run_of runs.new.items ≡ map run_of runs.old.items ++ run_of run ∷ []) }
{
    if runs.push(run).is_err() {
        return Err(NoMemory);
    }
    Ok(())
}

/// Adds the bytes of a saved line. They go on with the last run where they begin at its end.
pub fn push_line<A: Allocator + Clone>(
    alloc: &A,
    runs: &mut Vec<Piece<A>, A>,
    at: u64,
    bytes: &[u8],
) -> Result<(), NoMemory>
    ensures { OnOk result (map run_of runs.new.items ≡ with_run (map run_of runs.old.items) (record { at = at; bytes = bytes.now })) }
{
    let Some(last) = runs.pop() else {
        if runs.reserve_exact(1).is_err() {
            return Err(NoMemory);
        }
        return push(runs, piece_at(alloc, at, bytes)?);
    };
    if ends_at(&last, at) {
        return push(runs, longer(last, bytes)?);
    }
    push(runs, last)?;
    push(runs, piece_at(alloc, at, bytes)?)
}
