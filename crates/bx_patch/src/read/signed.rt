//! A line of a dump behind a sign.
ghost use Rattle.std.specs.Prelude.{◌≡◌, ◌⊎◌, ◌+◌, ◌<◌, ◌^◌, length, drop, IfOk, IfErr, IfSome};
ghost use Rattle.bx_patch.specs.Grammar.{IsSigned};
ghost use Rattle.bx_patch.specs.private.Read.{Gives, HasSign, IsSignedFault};

use crate::read::fault::PatchFault;
use bx_read::{FullLine, Line, full_text};
use bx_text::{Bytes, Piece};
use std::alloc::Allocator;

/// The piece of these bytes at an address.
fn made<A: Allocator>(alloc: A, at: u64, bytes: &[u8]) -> Result<Piece<A>, PatchFault>
    ensures ok { IfOk result (λ piece. (piece.at ≡ at) × (piece.bytes ≡ bytes.now)) }
    ensures err { IfErr result (λ e. e ≡ PatchFault.NoMemory) }
{
    match Vec::from_slice(alloc, bytes) {
        Ok(bytes) => Ok(Piece {
            at,
            bytes: Bytes::from_vec(bytes),
        }),
        Err(_) => Err(PatchFault::NoMemory),
    }
}

/// What a line gives that has 16 bytes at an address of 8 digits, as nearly all do that `diff` writes. None of any other line, and of
/// some that are read all the same.
fn full_piece(line: &[u8]) -> Option<FullLine>
    ensures { IfSome result (λ full. Gives line.now full.at full.bytes) }
{
    if line.len() == 67 {
        full_text(line)
    } else {
        None
    }
}

/// The piece of a line of any form.
fn any_piece<A: Allocator>(alloc: A, line: &[u8], number: u64) -> Result<Piece<A>, PatchFault>
    ensures ok { IfOk result (λ piece. Gives line.now piece.at piece.bytes) }
    ensures err { IfErr result (λ e. (e ≡ PatchFault.NoMemory) ⊎ IsSignedFault number line.now e) }
{
    match Line::parse(line, number) {
        Err(fault) => Err(PatchFault::Line(fault)),
        Ok(read) => {
            let mut out = [0u8; 256];
            let count = read.decode(&mut out);
            made(alloc, read.at, &out[..count])
        }
    }
}

/// The piece of a line that stands behind a sign.
fn piece_of<A: Allocator>(alloc: A, line: &[u8], number: u64) -> Result<Piece<A>, PatchFault>
    ensures ok { IfOk result (λ piece. Gives line.now piece.at piece.bytes) }
    ensures err { IfErr result (λ e. (e ≡ PatchFault.NoMemory) ⊎ IsSignedFault number line.now e) }
{
    match full_piece(line) {
        Some(full) => made(alloc, full.at, &full.bytes),
        None => any_piece(alloc, line, number),
    }
}

/// A line without its first character.
fn behind(line: &[u8]) -> &[u8]
    ensures { result.now ≡ drop 1 line.now }
{
    match line.split_first() {
        Some((_, rest)) => rest,
        None => line,
    }
}

/// The piece of a line that begins with a sign.
pub fn signed_piece<A: Allocator>(
    alloc: A,
    line: &[u8],
    new: bool,
    number: u64,
) -> Result<Piece<A>, PatchFault>
    requires { HasSign new line.now }
    ensures ok { IfOk result (λ piece. IsSigned new line.now (piece.at, piece.bytes)) }
    ensures small { IfOk result (λ piece. piece.at + length piece.bytes < 2 ^ 63) }
    ensures err { IfErr result (λ e. (e ≡ PatchFault.NoMemory) ⊎ IsSignedFault number (drop 1 line.now) e) }
{
    piece_of(alloc, behind(line), number)
}
