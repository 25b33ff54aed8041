//! The patch from one device to another.
ghost use Rattle.std.specs.Prelude.{◌<◌, IfErr, OnOk, MatchResult};
ghost use Rattle.std.specs.Io.KnownBytes.{Appends};
ghost use Rattle.bx_patch.specs.Text.{patch_text};
ghost use Rattle.bx_patch.specs.Diff.{AreShort, IsFaultFor, OnlyReads, WritesPrefix, fails, of_new, of_old};

pub mod alike;
mod compare;
mod device;
pub mod fault;
mod lines;
mod memory;
pub mod row;
mod writing;

use alike::Alike;
use bx_image::Device;
use compare::{Place, Walk, compare_devices};
use device::lengths_of;
use fault::DiffFault;
use memory::memory_for;
use row::Extent;
use std::alloc::Allocator;
use std::io::Write;

/// Writes the patch from one device to another: with it `old` becomes `new`, as `patch_makes_new` says. Both
/// are only read, a window at a time and each window at most once; windows that are equal take no more than their comparison, and those that
/// `alike` knows to be the same aren't read. It takes memory for two windows and for the lines of one.
///
/// # Errors
/// `TooLarge` where one of the two is longer than an image can be, `OldFailed` and `NewFailed` where a call of that device fails,
/// `NoMemory`, and `WriteFailed`. What was written then is no patch, as `failed_is_refused` says.
pub fn write_patch<D: Device, E: Device, W: Write, S: Alike, A: Allocator + Clone>(
    alloc: &A,
    old: &mut D,
    new: &mut E,
    out: &mut W,
    extent: Extent,
    alike: &S,
) -> Result<(), DiffFault>
    requires old_countable { D.failures old.old < u64.MAX }
    requires new_countable { E.failures new.old < u64.MAX }
    // Where it succeeds, exactly the text was written, if the two images are as is known of them.
    ensures text { D.faithful old.old → E.faithful new.old → S.AreAlike alike.now (D.image old.old) (E.image new.old)
        → OnOk result (Appends (W.contents out.old) (W.contents out.new) (patch_text extent (D.image old.old) (E.image new.old))) }
    // After a fault a prefix of it was that isn't all of it, and a failed write tells how long that is.
    ensures part { D.faithful old.old → E.faithful new.old → S.AreAlike alike.now (D.image old.old) (E.image new.old)
        → IfErr result (WritesPrefix (W.contents out.old) (W.contents out.new) (patch_text extent (D.image old.old) (E.image new.old))) }
    // It is too large exactly where one of the two is, unless a length couldn't be read.
    ensures fault { D.faithful old.old → E.faithful new.old
        → MatchResult result (λ _. AreShort (D.image old.old) (E.image new.old)) (IsFaultFor (D.image old.old) (E.image new.old)) }
    // Each of the two counts a failure exactly where the fault says that it failed.
    ensures old { OnlyReads D.faithful D.image D.room D.failures D.survives (fails of_old result) old.old old.new }
    ensures new { OnlyReads E.faithful E.image E.room E.failures E.survives (fails of_new result) new.old new.new }
{
    let lengths = match lengths_of(old, new) {
        Ok(lengths) => lengths,
        Err(fault) => return Err(fault),
    };
    let mut memory = match memory_for(alloc, lengths) {
        Ok(memory) => memory,
        Err(fault) => return Err(fault),
    };
    let place = Place {
        at: 0,
        lengths,
        extent,
        head: memory.head.as_bytes(),
    };
    let walk = Walk { place, alike };
    let buffer = memory.buffer.as_mut_slice();
    compare_devices(old, new, out, buffer, &mut memory.writing, walk)
}
