//! What is read and written at addresses, one step at a time.
ghost use Rattle.std.specs.Prelude.{◌≡◌, ◌↔◌, ◌+◌, ◌-◌, ◌^◌, ◌<◌, ◌≤◌, ℕ, List, length, take, drop, min, IfOk, OnOk};
ghost use Rattle.std.specs.Io.{ReadsAtMost, WritesAtMost};
ghost use Rattle.bx_image.specs.File.{WriteLeaves, ResizeLeaves};
ghost use Rattle.bx_image.specs.Power.{FadesBehind, FadesFrom, Follows, KeepsBelow, KeepsOutside, NoMore, Only};

use std::io;

/// What stopped one call of a file.
#[derive(Clone, Copy, Debug, PartialEq, Eq)]
pub enum Stop {
    /// It did nothing, and can be tried again.
    Interrupted,
    /// It failed.
    Failed,
}

/// A file that is read and written at addresses, one step at a time: a step may move fewer bytes
/// than it was asked for, or be interrupted.
pub trait RandomAccess {
    /// The bytes that a faithful file has.
    ghost content: { Self → List ℕ };

    /// A read gives what was written, and nobody else writes.
    ghost faithful: { Self → Type 0 };

    /// What may be found of the bytes after a loss of power.
    ghost survives: { Self → List ℕ → Type 0 };

    /// How many bytes the file has.
    fn size(&mut self) -> Result<u64, Stop>
        ensures size { faithful self.old → IfOk result (λ n. n ≡ length (content self.old)) }
        ensures content { faithful self.old → content self.new ≡ content self.old }
        ensures survives { faithful self.old → NoMore (survives self.old) (survives self.new) }
        ensures faith { faithful self.new ↔ faithful self.old };

    /// Reads some of the bytes from an address on, and answers how many: none past the end.
    fn read_some(&mut self, at: u64, buf: &mut [u8]) -> Result<usize, Stop>
        ensures bound { ReadsAtMost result buf.new }
        ensures bytes { faithful self.old → IfOk result (λ n. take n buf.new ≡ take n (drop at (content self.old))) }
        ensures content { faithful self.old → content self.new ≡ content self.old }
        ensures survives { faithful self.old → NoMore (survives self.old) (survives self.new) }
        ensures faith { faithful self.new ↔ faithful self.old };

    /// Writes some of the bytes from an address on, and answers how many. A gap past the end is zeros.
    /// A write that fails wrote a front of the bytes, one that is interrupted none.
    fn write_some(&mut self, at: u64, bytes: &[u8]) -> Result<usize, Stop>
        requires { at + length bytes.now < 2 ^ 64 }
        ensures bound { WritesAtMost result bytes.now }
        ensures content { faithful self.old → WriteLeaves result at bytes.now (content self.old) (content self.new) }
        ensures survives { faithful self.old → Follows (KeepsOutside at (length bytes.now)) (survives self.old) (survives self.new) }
        ensures fades { faithful self.old → at ≡ length (content self.old) → FadesBehind (content self.old) bytes.now (survives self.old) (survives self.new) }
        ensures faith { faithful self.new ↔ faithful self.old };

    /// Cuts the file to `n` bytes, or fills it up to them with zeros. One that fails may have gone some
    /// of the way; one that is interrupted did nothing.
    fn resize(&mut self, n: u64) -> Result<(), Stop>
        ensures content { faithful self.old → ResizeLeaves result n (content self.old) (content self.new) }
        ensures survives { faithful self.old → Follows (KeepsBelow (min n (length (content self.old)))) (survives self.old) (survives self.new) }
        ensures fades { faithful self.old → n ≤ length (content self.old) → FadesFrom n (survives self.old) (survives self.new) }
        ensures faith { faithful self.new ↔ faithful self.old };

    /// Puts all that was written on the disk. The bytes stay.
    fn sync(&mut self) -> Result<(), Stop>
        ensures settled { faithful self.old → OnOk result (Only (content self.old) (survives self.new)) }
        ensures content { faithful self.old → content self.new ≡ content self.old }
        ensures survives { faithful self.old → NoMore (survives self.old) (survives self.new) }
        ensures faith { faithful self.new ↔ faithful self.old };

    /// Each address of a faithful file is a number of 64 bits.
    ghost within: { (f : Self) → faithful f → length (content f) ≤ 2 ^ 64 - 1 };

    /// Bytes that are there may also be found.
    ghost present: { (f : Self) → faithful f → survives f (content f) };
}

impl From<io::Error> for Stop {
    fn from(error: io::Error) -> Self {
        if error.kind() == io::ErrorKind::Interrupted {
            Stop::Interrupted
        } else {
            Stop::Failed
        }
    }
}
