//! Laws of patches, over definitions alone.
ghost use Rattle.bx_patch.specs.Fault.{FaultIsOfPatch, PatchFaultIsUnique};
ghost use Rattle.bx_patch.specs.Other.{OtherDisagrees};
ghost use Rattle.bx_patch.specs.preview.Changed.{OnlyReadRefusesNone};
ghost use Rattle.bx_patch.specs.Laws.{EqualIsEmpty, FailedIsRefused, FrontIsRefused, FrontOfAnyIsRefused, NothingIsChanged, PatchIsLeast, PatchIsStrict, PatchIsUnique, PatchMakesNew, PatchReversed, PatchTellsLength, PatchTurnsRound, TurnedMakesOld};

use bx_image::Device;
use std::alloc::Allocator;

/// No text asks two different things.
pub fn patch_is_unique()
    ensures { PatchIsUnique }
{}

/// A text that has a fault, as `read_patch` answers it, is no patch.
pub fn fault_is_of_patch()
    ensures { FaultIsOfPatch }
{}

/// The text of the patch from one image to another is a patch; it agrees with the first, and makes the second of it, bytes and length.
pub fn patch_makes_new<A: Allocator>()
    ensures { PatchMakesNew A }
{}

/// The other way round the patch agrees with the second, and makes the first of it.
pub fn patch_reversed<A: Allocator>()
    ensures { PatchReversed A }
{}

/// The patch from one image to another can be turned round.
pub fn patch_turns_round()
    ensures { PatchTurnsRound }
{}

/// A patch that can be turned round makes the old image of the new one, for each image that agreed with it.
pub fn turned_makes_old<A: Allocator>()
    ensures { TurnedMakesOld A }
{}

/// Where the patch from one image to another agrees with an image, that has the length of the first, and its byte at each address where
/// the two differ.
pub fn patch_is_strict()
    ensures { PatchIsStrict }
{}

/// Any patch that tells lengths makes an image of the new length of each image that agrees with it.
pub fn patch_tells_length<A: Allocator>()
    ensures { PatchTellsLength A }
{}

/// The patch from one image to another names no address at which they are equal, where it has only the bytes that differ.
pub fn patch_is_least()
    ensures { PatchIsLeast }
{}

/// A patch that changes nothing makes of each image the same image.
pub fn nothing_is_changed<A: Allocator>()
    ensures { NothingIsChanged A }
{}

/// A text has one fault at most, as `read_patch` answers it.
pub fn patch_fault_is_unique()
    ensures { PatchFaultIsUnique }
{}

/// No front of a patch is a patch, even where a single byte is missing: it has no end.
pub fn front_of_any_is_refused()
    ensures { FrontOfAnyIsRefused }
{}

/// No front of the patch from one image to another is a patch: it has no end.
pub fn front_is_refused()
    ensures { FrontIsRefused }
{}

/// What a failed `write_patch` left is no patch: it has no end.
pub fn failed_is_refused()
    ensures { FailedIsRefused }
{}

/// Two images have the last line alone between them exactly where they are equal.
pub fn equal_is_empty()
    ensures { EqualIsEmpty }
{}

/// An image in which anything is found otherwise than a patch expects doesn't agree with it.
pub fn other_disagrees()
    ensures { OtherDisagrees }
{}

/// An image behind changes that was only read has refused no call that would write, so the device within has failed as often.
pub fn only_read_refuses_none<D: Device, A: Allocator>()
    ensures { OnlyReadRefusesNone D.Device A }
{}
