//! Whole dumps.
ghost use Rattle.std.specs.Prelude.{◌≡◌, ◌⊎◌, ◌*◌, ◌^◌, ◌<◌, ◌≤◌, ℕ, Result, length, Some, Ok, Err, MatchResult, IfOk, All, sum_by};
ghost use Rattle.bx_read.specs.Text.{lines_of, dump_pieces, contents};
ghost use Rattle.bx_read.specs.Lines.{coming};
ghost use Rattle.bx_read.specs.private.Next.{IsNextPiece, IsNextFault};
ghost use Rattle.bx_read.specs.declared.fault.ReadFault.{ReadFault};

use crate::fault::ReadFault;
use crate::full::ENDED;
use crate::lines::DumpLines;
use bx_text::{Bytes, Piece};
use memchr::memchr;
use std::alloc::Allocator;

/// Reads the text of a dump, whose last newline may be missing: the pieces of its lines, in order. Empty lines and
/// lines `*` give none. A fault is the first one of the first faulty line.
pub fn read_dump<A: Allocator + Clone>(alloc: A, text: &[u8]) -> Result<Vec<Piece<A>, A>, ReadFault>
    // What is read is what the grammar gives, by `text_has_form`.
    ensures exact { MatchResult result (λ v. dump_pieces text.now ≡ Ok (contents v.items)) (λ e. (e ≡ ReadFault.NoMemory) ⊎ (dump_pieces text.now ≡ Err e)) }
    // Each piece has 1 to 256 bytes at an address below 2^62.
    ensures pieces { IfOk result (λ v. All (λ p. (0 < length p.bytes) × (length p.bytes ≤ 256) × (p.at < 2 ^ 62) × All (λ b. b < 256) p.bytes) v.items) }
    // How much it can be at most.
    ensures count { IfOk result (λ v. length v.items ≤ length (lines_of text.now)) }
    ensures bytes { IfOk result (λ v. 2 * sum_by (λ p. length p.bytes) v.items ≤ length text.now) }
{
    gather(alloc, text)
}

/// The pieces, one after another.
fn gather<A: Allocator + Clone>(alloc: A, text: &[u8]) -> Result<Vec<Piece<A>, A>, ReadFault>
    ensures { MatchResult result (λ v. dump_pieces text.now ≡ Ok (contents v.items)) (λ e. (e ≡ ReadFault.NoMemory) ⊎ (dump_pieces text.now ≡ Err e)) }
{
    let mut pieces = Vec::with_capacity(alloc.clone()?, expected_lines(text))?;
    let mut lines = DumpLines::new(text);
    while let Some(piece) = next_piece(&alloc, &mut lines)? {
        pieces.push(piece)?;
    }
    Ok(pieces)
}

/// How many lines there are if all are like the first, and none is shorter than xxd's default.
fn expected_lines(text: &[u8]) -> usize {
    let first = memchr(b'\n', text).unwrap_or(0);
    text.len() / first.max(ENDED - 1) + 1
}

/// The next line's piece, and none at the end.
fn next_piece<A: Allocator + Clone>(
    alloc: &A,
    lines: &mut DumpLines<'_>,
) -> Result<Option<Piece<A>>, ReadFault>
    ensures { MatchResult result (IsNextPiece (coming lines.old) (coming lines.new)) (IsNextFault (coming lines.old)) }
{
    if let Some(full) = lines.take_full() {
        return Ok(Some(piece(alloc.clone()?, full.at, &full.bytes)?));
    }
    match lines.next() {
        None => Ok(None),
        Some(Err(fault)) => Err(fault),
        Some(Ok(line)) => {
            let mut out = [0u8; 256];
            let count = line.decode(&mut out);
            Ok(Some(piece(alloc.clone()?, line.at, &out[..count])?))
        }
    }
}

/// The bytes at their address.
fn piece<A: Allocator>(alloc: A, at: u64, bytes: &[u8]) -> Result<Piece<A>, ReadFault>
    ensures { MatchResult result (λ p. (p.at ≡ at) × (p.bytes ≡ bytes.now)) (λ e. e ≡ ReadFault.NoMemory) }
{
    let bytes = Vec::from_slice(alloc, bytes)?;
    Ok(Piece {
        at,
        bytes: Bytes::from_vec(bytes),
    })
}
