//! A line of a patch, taken.
ghost use Rattle.std.specs.Prelude.{◌≡◌, ◌⊎◌, ◌↔◌, ◌+◌, ◌<◌, ◌^◌, length, IfErr, OnOk, IsTrue};
ghost use Rattle.std.specs.Option.{option_map};
ghost use Rattle.bx_patch.specs.Fault.{HasNoSign, IsFaultOfLine, IsPast, IsToTell, TellsLines};
ghost use Rattle.bx_patch.specs.Grammar.{IsRemark};
ghost use Rattle.bx_patch.specs.Read.{asked_of};
ghost use Rattle.bx_patch.specs.private.Read.{Adds, HasSign, IsKind};

use crate::read::fault::PatchFault;
use crate::read::lengths::{PatchLengths, after, lengths_in};
use crate::read::patch::{Patch, push};
use crate::read::signed::signed_piece;
use bx_text::Piece;
use std::alloc::Allocator;

/// What a line is.
#[derive(Clone, Copy)]
pub enum Kind {
    /// It counts for nothing.
    Remark,
    /// It is to tell the lengths.
    Lengths,
    /// It begins with a sign, which says whether it has new bytes.
    Signed { new: bool },
    /// It tells how many lines stand before it.
    Count,
    /// It is none of these.
    Other,
}

/// Whether a line that has no sign is to tell the lengths: as the first one that counts.
fn lengths_kind<A: Allocator>(patch: &Patch<A>, line: &[u8]) -> bool
    ensures { IsTrue result ↔ IsToTell (asked_of patch.now) line.now }
{
    if !patch.is_nothing() {
        return false;
    }
    match after(line, b"length ") {
        Some(_) => true,
        None => false,
    }
}

/// Whether a line tells how many lines stand before it.
fn tells_count(line: &[u8]) -> bool
    ensures { IsTrue result ↔ TellsLines line.now }
{
    match after(line, b"end ") {
        Some(_) => true,
        None => false,
    }
}

/// What a line is behind others that begins with no sign, and isn't a remark.
fn kind_of_words<A: Allocator>(patch: &Patch<A>, line: &[u8]) -> Kind
    requires sign { HasNoSign line.now }
    requires remark { IsRemark line.now → ⊥ }
    ensures { IsKind (asked_of patch.now) line.now result }
{
    if lengths_kind(patch, line) {
        return Kind::Lengths;
    }
    if tells_count(line) {
        return Kind::Count;
    }
    Kind::Other
}

/// What a line is behind others, where it isn't the last one.
fn kind_of<A: Allocator>(patch: &Patch<A>, line: &[u8]) -> Kind
    ensures { IsKind (asked_of patch.now) line.now result }
{
    match line.first() {
        None => Kind::Remark,
        Some(b'#') => Kind::Remark,
        Some(b'+') => Kind::Signed { new: true },
        Some(b'-') => Kind::Signed { new: false },
        Some(_) => kind_of_words(patch, line),
    }
}

/// Takes the line that tells the lengths.
fn take_lengths<A: Allocator>(
    patch: &mut Patch<A>,
    line: &[u8],
    number: u64,
) -> Result<(), PatchFault>
    requires { IsToTell (asked_of patch.old) line.now }
    ensures ok { OnOk result (Adds (asked_of patch.old) line.now (asked_of patch.new)) }
    ensures err { IfErr result (IsFaultOfLine (asked_of patch.old) number line.now) }
{
    match lengths_in(line) {
        Some(lengths) => {
            patch.lengths = Some(lengths);
            Ok(())
        }
        None => Err(PatchFault::BadLength { line: number }),
    }
}

/// Whether a piece ends behind the length of its image, where a line states it.
fn is_past<A: Allocator>(lengths: Option<PatchLengths>, new: bool, piece: &Piece<A>) -> bool
    requires { piece.now.at + length piece.now.bytes < 2 ^ 63 }
    ensures { IsTrue result ↔ IsPast (option_map (λ lengths. (lengths.old, lengths.new)) lengths) new (piece.now.at, piece.now.bytes) }
{
    let end = piece.at + piece.bytes.as_slice().len() as u64;
    match lengths {
        None => false,
        Some(lengths) => end > if new { lengths.new } else { lengths.old },
    }
}

/// Takes a line that begins with a sign.
fn take_signed<A: Allocator + Clone>(
    alloc: &A,
    patch: &mut Patch<A>,
    line: &[u8],
    new: bool,
    number: u64,
) -> Result<(), PatchFault>
    requires { HasSign new line.now }
    ensures ok { OnOk result (Adds (asked_of patch.old) line.now (asked_of patch.new)) }
    ensures err { IfErr result (λ e. (e ≡ PatchFault.NoMemory) ⊎ IsFaultOfLine (asked_of patch.old) number line.now e) }
{
    let piece = match signed_piece(alloc.clone()?, line, new, number) {
        Ok(piece) => piece,
        Err(fault) => return Err(fault),
    };
    if is_past(patch.lengths, new, &piece) {
        return Err(PatchFault::PastLength { line: number });
    }
    if new {
        push(&mut patch.written, piece)
    } else {
        push(&mut patch.expected, piece)
    }
}

/// Takes a line behind others, which is line `number` and not the last one.
pub fn take_line<A: Allocator + Clone>(
    alloc: &A,
    patch: &mut Patch<A>,
    line: &[u8],
    number: u64,
) -> Result<(), PatchFault>
    ensures ok { OnOk result (Adds (asked_of patch.old) line.now (asked_of patch.new)) }
    ensures err { IfErr result (λ e. (e ≡ PatchFault.NoMemory) ⊎ IsFaultOfLine (asked_of patch.old) number line.now e) }
{
    match kind_of(patch, line) {
        Kind::Remark => Ok(()),
        Kind::Lengths => take_lengths(patch, line, number),
        Kind::Signed { new } => take_signed(alloc, patch, line, new, number),
        Kind::Count => Err(PatchFault::BadCount { line: number }),
        Kind::Other => Err(PatchFault::OfNoKind { line: number }),
    }
}
