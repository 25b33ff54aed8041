//! What a patch asks of an image.
ghost use Rattle.std.specs.Prelude.{◌≡◌, ◌++◌, ◌∷◌, [], IsTrue, ◌↔◌, IfErr, MatchOption, OnOk};
ghost use Rattle.std.specs.Option.{option_and_then, option_map};
ghost use Rattle.bx_read.specs.Text.{contents};
ghost use Rattle.bx_patch.specs.Grammar.{IsReadPatch};
ghost use Rattle.bx_patch.specs.Patch.{ChangesNothing, TurnsRound, new_length, nothing_asked, patch_change, reversed};
ghost use Rattle.bx_patch.specs.Read.{asked_of};

use crate::read::fault::PatchFault;
use crate::read::lengths::PatchLengths;
use crate::read::turn::turns;
use bx_image::Change;
use bx_text::{Piece, Pieces};
use std::alloc::{Allocator, Global};

/// What a patch asks.
#[derive(Drop)]
pub struct Patch<A: Allocator = Global> {
    /// The lengths that it tells.
    pub lengths: Option<PatchLengths>,
    /// What the image is to have.
    pub expected: Vec<Piece<A>, A>,
    /// What is written.
    pub written: Vec<Piece<A>, A>,
}

impl<A: Allocator> Patch<A> {
    /// Whether nothing is asked.
    pub(crate) fn is_nothing(&self) -> bool
        ensures { IsTrue result ↔ (asked_of self.now ≡ nothing_asked) }
    {
        if self.lengths.is_some() {
            return false;
        }
        if !self.expected.as_slice().is_empty() {
            return false;
        }
        self.written.as_slice().is_empty()
    }

    /// Whether it writes no byte and keeps the length, as the patch of two equal images. Then it makes of each image the same image, as
    /// `nothing_is_changed` says.
    pub fn changes_nothing(&self) -> bool
        ensures { IsTrue result ↔ ChangesNothing (asked_of self.now) }
    {
        if base_of(self.lengths).is_some() {
            return false;
        }
        self.written.as_slice().is_empty()
    }

    /// The patch the other way round, where it can be turned round: what was written is expected. Then it makes the old image of the new
    /// one, as `turned_makes_old` says. None where it can't: pieces stand in no order, or below both lengths they are expected and written at
    /// other places, or a place that is cut off isn't expected.
    pub fn reversed(self) -> Option<Patch<A>>
        requires { IsReadPatch (asked_of self) }
        ensures { MatchOption result (TurnsRound (asked_of self) → ⊥)
            (λ patch. TurnsRound (asked_of self) × (asked_of patch ≡ reversed (asked_of self))) }
    {
        if turns(
            self.expected.as_slice(),
            self.written.as_slice(),
            self.lengths,
        ) {
            return Some(self.turned());
        }
        None
    }

    /// The patch the other way round.
    fn turned(self) -> Patch<A>
        ensures { asked_of result ≡ reversed (asked_of self) }
    {
        let lengths = match self.lengths {
            Some(lengths) => Some(exchanged(lengths)),
            None => None,
        };
        Patch {
            lengths,
            expected: self.written,
            written: self.expected,
        }
    }

    /// The change that the patch makes, without what is expected.
    pub fn into_change(self) -> Change<A>
        ensures { result ≡ patch_change (asked_of self) }
    {
        let base = base_of(self.lengths);
        Change {
            base,
            writes: Pieces::from_vec(self.written),
        }
    }
}

/// Both lengths the other way round.
fn exchanged(lengths: PatchLengths) -> PatchLengths
    ensures old { result.old ≡ lengths.new }
    ensures new { result.new ≡ lengths.old }
{
    PatchLengths {
        old: lengths.new,
        new: lengths.old,
    }
}

/// The length to which an image is brought.
fn new_length(lengths: PatchLengths) -> Option<u64>
    ensures { result ≡ new_length (lengths.old, lengths.new) }
{
    if lengths.old == lengths.new {
        return None;
    }
    Some(lengths.new)
}

/// The length to which an image is brought, where lengths are stated.
fn base_of(lengths: Option<PatchLengths>) -> Option<u64>
    ensures { result ≡ option_and_then new_length (option_map (λ lengths. (lengths.old, lengths.new)) lengths) }
{
    match lengths {
        Some(lengths) => new_length(lengths),
        None => None,
    }
}

/// Adds a piece.
pub fn push<A: Allocator>(pieces: &mut Vec<Piece<A>, A>, piece: Piece<A>) -> Result<(), PatchFault>
    ensures ok { OnOk result (contents pieces.new.items ≡ contents pieces.old.items ++ (piece.at, piece.bytes) ∷ []) }
    ensures err { IfErr result (λ e. e ≡ PatchFault.NoMemory) }
{
    match pieces.push(piece) {
        Ok(()) => Ok(()),
        Err(_) => Err(PatchFault::NoMemory),
    }
}
