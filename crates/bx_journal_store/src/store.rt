//! What holds a text that grows and is cut at its end, as the text of a journal.
ghost use Rattle.std.specs.Prelude.{◌≡◌, ◌+◌, ◌<◌, ◌≤◌, ◌^◌, List, ℕ, length, take, drop, ◌++◌, IfOk, IsOk, OnOk, OnErr, is_err, false};
ghost use Rattle.bx_image.specs.Device.{GoesOn};
ghost use Rattle.bx_image.specs.Power.{FadesBehind, FadesFrom, NoMore, Only};
ghost use Rattle.bx_journal_store.specs.Store.{IsPartlyAppended, IsCutInPart, MayEmpty, text_has_failed};

use crate::{DeviceFailed, NoMemory, TextFault};
use std::alloc::Allocator;

/// No store makes room for a longer text.
pub const MOST: u64 = 1 << 62;

/// What holds one text, as bytes.
///
/// A store is faithful if a read gives what was written and nobody else writes, and what is said of
/// the text is said of faithful stores. A store is faithful after a call exactly if it was before.
///
/// Each call that answers `DeviceFailed` adds one to `faults`, no other call changes it, and each
/// call that may fail asks that it is below `u64::MAX`. The room, up to which a text can grow
/// without memory, never falls.
pub trait TextStore {
    /// The text that a faithful store has.
    ghost text: { Self → List ℕ };

    /// A read gives what was written, and nobody else writes.
    ghost faithful: { Self → Type 0 };

    /// Appends up to this length take no memory.
    ghost room: { Self → ℕ };

    /// How many calls have answered `DeviceFailed`.
    ghost failures: { Self → ℕ };

    /// What may be found of the text after a loss of power.
    ghost survives: { Self → List ℕ → Type 0 };

    /// A cut to nothing is one step: where it fails, or loses its power, nothing between the text and an empty one is left.
    ghost empties_at_once: { Type 0 };

    /// How many bytes the text has. It stays.
    fn len(&mut self) -> Result<u64, DeviceFailed>
        requires { failures self.old < u64.MAX }
        ensures len { faithful self.old → IfOk result (λ n. n ≡ length (text self.old)) }
        ensures text { faithful self.old → text self.new ≡ text self.old }
        ensures survives { faithful self.old → NoMore (survives self.old) (survives self.new) }
        ensures goes_on { GoesOn faithful room failures (is_err result) self.old self.new };

    /// The whole text, in memory of `alloc`. It stays.
    ///
    /// # Errors
    /// `NoMemory` where a growth is refused, `DeviceFailed` where the store fails.
    fn read_all<A: Allocator>(&mut self, alloc: A) -> Result<Vec<u8, A>, TextFault>
        requires { failures self.old < u64.MAX }
        ensures bytes { faithful self.old → IfOk result (λ bytes. bytes.items ≡ text self.old) }
        ensures text { faithful self.old → text self.new ≡ text self.old }
        ensures survives { faithful self.old → NoMore (survives self.old) (survives self.new) }
        ensures goes_on { GoesOn faithful room failures (text_has_failed result) self.old self.new };

    /// Fills `buf` with the bytes from the place `at` on; the range has to lie within the text. The
    /// text stays.
    fn read_at(&mut self, at: u64, buf: &mut [u8]) -> Result<(), DeviceFailed>
        requires countable { failures self.old < u64.MAX }
        requires range { faithful self.old → at + length buf.old ≤ length (text self.old) }
        ensures bytes { faithful self.old → OnOk result (buf.new ≡ take (length buf.old) (drop at (text self.old))) }
        ensures text { faithful self.old → text self.new ≡ text self.old }
        ensures survives { faithful self.old → NoMore (survives self.old) (survives self.new) }
        ensures goes_on { GoesOn faithful room failures (is_err result) self.old self.new };

    /// Adds the bytes at the end; the new length has to lie within the room.
    ///
    /// Where it fails, a front of them was added, perhaps none or all.
    fn append(&mut self, bytes: &[u8]) -> Result<(), DeviceFailed>
        requires countable { failures self.old < u64.MAX }
        requires fits { faithful self.old → length (text self.old) + length bytes.now ≤ room self.old }
        ensures ok { faithful self.old → OnOk result (text self.new ≡ text self.old ++ bytes.now) }
        ensures failed { faithful self.old → OnErr result (IsPartlyAppended bytes.now (text self.old) (text self.new)) }
        ensures fades { faithful self.old → FadesBehind (text self.old) bytes.now (survives self.old) (survives self.new) }
        ensures goes_on { GoesOn faithful room failures (is_err result) self.old self.new };

    /// Leaves the first `n` bytes; the text has at least `n`.
    ///
    /// Where it fails, a front of the text is left that has at least these.
    fn cut(&mut self, n: u64) -> Result<(), DeviceFailed>
        requires countable { failures self.old < u64.MAX }
        requires within { faithful self.old → n ≤ length (text self.old) }
        ensures ok { faithful self.old → OnOk result (text self.new ≡ take n (text self.old)) }
        ensures failed { faithful self.old → OnErr result (IsCutInPart n (text self.old) (text self.new)) }
        ensures fades { faithful self.old → FadesFrom n (survives self.old) (survives self.new) }
        ensures at_once { empties_at_once → faithful self.old → n ≡ 0 → MayEmpty (survives self.old) (survives self.new) }
        ensures goes_on { GoesOn faithful room failures (is_err result) self.old self.new };

    /// Puts all that was written on the disk, so that a loss of power leaves the text as it is. The text stays.
    fn sync(&mut self) -> Result<(), DeviceFailed>
        requires { failures self.old < u64.MAX }
        ensures settled { faithful self.old → OnOk result (Only (text self.old) (survives self.new)) }
        ensures text { faithful self.old → text self.new ≡ text self.old }
        ensures survives { faithful self.old → NoMore (survives self.old) (survives self.new) }
        ensures goes_on { GoesOn faithful room failures (is_err result) self.old self.new };

    /// Makes room for a text of `n` bytes. The text stays.
    ///
    /// # Errors
    /// `NoMemory` where a growth is refused, and for more than 2^62 bytes; the room then stays too.
    /// Room that is there already, up to 2^62 bytes, is never refused.
    fn reserve(&mut self, n: u64) -> Result<(), NoMemory>
        ensures within { n ≤ room self.old → n ≤ 2 ^ 62 → IsOk result }
        ensures ok { OnOk result (n ≤ room self.new) }
        ensures limit { OnOk result (n ≤ 2 ^ 62) }
        ensures err { OnErr result (room self.new ≡ room self.old) }
        ensures text { faithful self.old → text self.new ≡ text self.old }
        ensures survives { faithful self.old → NoMore (survives self.old) (survives self.new) }
        ensures goes_on { GoesOn faithful room failures false self.old self.new };

    /// The room that there is: up to which length, in bytes, the text can grow without memory.
    fn reserved(&self) -> u64
        ensures { result ≡ room self.now };

    /// How many calls of this store have answered `DeviceFailed`.
    fn faults(&self) -> u64
        ensures { result ≡ failures self.now };

    /// A text that is there may also be found.
    ghost present: { (t : Self) → faithful t → survives t (text t) };
}
