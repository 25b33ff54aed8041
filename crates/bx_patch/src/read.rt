//! The text of a patch, read.
ghost use Rattle.std.specs.Prelude.{◌≡◌, ◌⊎◌, ◌↔◌, ◌∷◌, ◌++◌, ◌+◌, ◌<◌, ◌≤◌, [], length, IsTrue, IfOk, IfErr, MatchOption, MatchResult, OnOk};
ghost use Rattle.bx_patch.specs.Fault.{HasNoLineEnd, IsFaultOfPatch};
ghost use Rattle.bx_patch.specs.Grammar.{IsPatchEnd, IsPatch};
ghost use Rattle.bx_patch.specs.Patch.{nothing_asked};
ghost use Rattle.bx_patch.specs.Read.{asked_of};

pub mod fault;
pub mod lengths;
mod line;
pub mod patch;
mod signed;
mod turn;

use bx_text::dec_field;
use fault::PatchFault;
use lengths::after;
use line::take_line;
use memchr::memchr;
use patch::Patch;
use std::alloc::Allocator;

/// The last line, where it doesn't tell how many stand before it.
const END: &[u8] = b"end";

/// Whether a line is the last one of a text that has `count` lines before it.
fn is_end(line: &[u8], count: u64) -> bool
    ensures { IsTrue result ↔ IsPatchEnd count line.now }
{
    if line == END {
        return true;
    }
    match after(line, b"end ") {
        Some(told) => told == dec_field(count as i128, 0, b' ').as_bytes(),
        None => false,
    }
}

/// The first line without its newline, and what follows it; None where the text has no newline.
fn first_line(text: &[u8]) -> Option<(&[u8], &[u8])>
    ensures { MatchOption result (HasNoLineEnd text.now) (λ parts. HasNoLineEnd parts.0.now × (text.now ≡ parts.0.now ++ 10 ∷ parts.1.now)) }
{
    let end = memchr(b'\n', text)?;
    Some((&text[..end], &text[end + 1..]))
}

/// What stands behind the last line, which has `count` lines before it: nothing may.
fn finish(later: &[u8], count: u64) -> Result<(), PatchFault>
    requires { count + 2 ≤ u64.MAX }
    ensures { MatchResult result (λ _. later.now ≡ []) (λ e. (e ≡ PatchFault.OfNoKind (count + 2)) × (0 < length later.now)) }
{
    if later.is_empty() {
        return Ok(());
    }
    Err(PatchFault::OfNoKind { line: count + 2 })
}

/// Takes the lines of a text, up to the last one.
fn take_lines<A: Allocator + Clone>(
    alloc: &A,
    patch: &mut Patch<A>,
    text: &[u8],
) -> Result<(), PatchFault>
    requires { asked_of patch.old ≡ nothing_asked }
    ensures ok { OnOk result (IsPatch text.now (asked_of patch.new)) }
    ensures err { IfErr result (λ e. (e ≡ PatchFault.NoMemory) ⊎ IsFaultOfPatch text.now e) }
{
    let _len = text.len();
    let mut rest = text;
    let mut count: u64 = 0;
    while let Some((line, later)) = first_line(rest) {
        if is_end(line, count) {
            return finish(later, count);
        }
        count += 1;
        match take_line(alloc, patch, line, count) {
            Ok(()) => rest = later,
            Err(fault) => return Err(fault),
        }
    }
    Err(PatchFault::NoEnd)
}

/// Reads the text of a patch: the lengths, the pieces that are expected, and those that are written, each in their order.
///
/// # Errors
/// `NoMemory`; else what is wrong with the first line that isn't in the grammar, or that ends behind the length of its image; `NoEnd` where
/// the text ends before its last line, whose newline may not be missing, and `OfNoKind` of what stands behind that.
pub fn read_patch<A: Allocator + Clone>(alloc: A, text: &[u8]) -> Result<Patch<A>, PatchFault>
    // A text reads as one request at most, by `patch_is_unique`; no front of it reads, by `front_of_any_is_refused`.
    ensures ok { IfOk result (λ patch. IsPatch text.now (asked_of patch)) }
    // A text that has a fault is no patch, by `fault_is_of_patch`, and has no other one, by `patch_fault_is_unique`.
    ensures err { IfErr result (λ e. (e ≡ PatchFault.NoMemory) ⊎ IsFaultOfPatch text.now e) }
{
    let mut patch = Patch {
        lengths: None,
        expected: Vec::new(alloc.clone()?),
        written: Vec::new(alloc.clone()?),
    };
    match take_lines(&alloc, &mut patch, text) {
        Ok(()) => Ok(patch),
        Err(fault) => Err(fault),
    }
}
