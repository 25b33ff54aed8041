//! An image beside what a patch expects of it.
ghost use Rattle.std.specs.Prelude.{◌≡◌, ◌≢◌, ◌<◌, Some, length, IfOk, IfSome, MatchOption, is_err};
ghost use Rattle.bx_read.specs.Text.{contents};
ghost use Rattle.bx_patch.specs.Diff.{OnlyReads};
ghost use Rattle.bx_patch.specs.Other.{FindsOther};
ghost use Rattle.bx_patch.specs.Read.{asked_of};
ghost use Rattle.bx_patch.specs.private.Other.{FindsAmong};

mod piece;

use crate::{Patch, PatchLengths};
use bx_image::{Cached, Device, DeviceFailed};
use bx_text::Piece;
use piece::{PAGE, count_in_piece};
use std::alloc::Allocator;
use thiserror::Error;

/// What an image has otherwise than a patch expects.
#[derive(Clone, Copy, Debug, PartialEq, Eq, Error)]
pub enum Other {
    /// Its length; the patch tells this one.
    #[error("image should have {expected} bytes")]
    Length { expected: u64 },
    /// Its bytes, first at this address.
    #[error("the image has other bytes at {at}")]
    Bytes { at: u64 },
}

/// The first address, in the order of pieces, at which an image of this length hasn't their bytes.
fn other_among<D: Device, A: Allocator>(
    device: &mut D,
    len: u64,
    pieces: &[Piece<A>],
) -> Result<Option<u64>, DeviceFailed>
    requires countable { D.failures device.old < u64.MAX }
    requires len { D.faithful device.old → len ≡ length (D.image device.old) }
    ensures found { D.faithful device.old → IfOk result (FindsAmong (D.image device.old) (contents pieces.now)) }
    ensures reads { OnlyReads D.faithful D.image D.room D.failures D.survives (is_err result) device.old device.new }
{
    let mut page = [0u8; PAGE];
    let mut kept = Cached {
        len,
        at: 0,
        count: 0,
    };
    for i in 0..pieces.len() {
        let piece = &pieces[i];
        let bytes = piece.bytes.as_slice();
        match count_in_piece(device, kept, &mut page, piece.at, bytes) {
            Ok(looked) => {
                kept = looked.cached;
                if looked.same < bytes.len() {
                    return Ok(Some(piece.at + looked.same as u64));
                }
            }
            Err(fault) => return Err(fault),
        }
    }
    Ok(None)
}

/// The length of an image, which is only read.
fn length_of<D: Device>(device: &mut D) -> Result<u64, DeviceFailed>
    requires countable { D.failures device.old < u64.MAX }
    ensures len { D.faithful device.old → IfOk result (λ len. len ≡ length (D.image device.old)) }
    ensures reads { OnlyReads D.faithful D.image D.room D.failures D.survives (is_err result) device.old device.new }
{
    device.len()
}

/// The length before, where this isn't it.
fn unlike(lengths: PatchLengths, len: u64) -> Option<u64>
    ensures { MatchOption result (len ≡ lengths.old) (λ n. (n ≡ lengths.old) × (len ≢ n)) }
{
    if lengths.old == len {
        return None;
    }
    Some(lengths.old)
}

/// The length before, where a patch tells one and this isn't it.
fn other_length(lengths: Option<PatchLengths>, len: u64) -> Option<u64>
    ensures { MatchOption result (IfSome lengths (λ lengths. len ≡ lengths.old))
        (λ n. (l : PatchLengths) × (lengths ≡ Some l) × (n ≡ l.old) × (len ≢ n)) }
{
    match lengths {
        Some(lengths) => unlike(lengths, len),
        None => None,
    }
}

/// What an image has otherwise than a patch expects: its length, or else the first address, in the order of the text, at which it
/// hasn't the bytes of a `-` line. None where the image agrees with the patch. It is only read, no more than a page at a time, and no
/// memory is taken.
///
/// # Errors
/// `DeviceFailed` where the device fails.
pub fn find_other<D: Device, A: Allocator>(
    device: &mut D,
    patch: &Patch<A>,
) -> Result<Option<Other>, DeviceFailed>
    requires countable { D.failures device.old < u64.MAX }
    // Nothing is found exactly where the image agrees, by `other_disagrees`.
    ensures found { D.faithful device.old → IfOk result (FindsOther (asked_of patch.now) (D.image device.old)) }
    ensures reads { OnlyReads D.faithful D.image D.room D.failures D.survives (is_err result) device.old device.new }
{
    let len = match length_of(device) {
        Ok(len) => len,
        Err(fault) => return Err(fault),
    };
    if let Some(expected) = other_length(patch.lengths, len) {
        return Ok(Some(Other::Length { expected }));
    }
    match other_among(device, len, patch.expected.as_slice()) {
        Ok(Some(at)) => Ok(Some(Other::Bytes { at })),
        Ok(None) => Ok(None),
        Err(fault) => Err(fault),
    }
}
