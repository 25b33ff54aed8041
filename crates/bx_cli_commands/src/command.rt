//! What a list asks for, and what is answered.
ghost use Rattle.std.specs.Prelude.{◌≡◌};

use crate::Fault;
use bx_dd::{Counts, Plan};
use bx_image::Change;
use bx_patch::Patch;
use bx_text::{Bytes, Words};
use std::alloc::{Allocator, Global};
use std::io::Empty;

/// One command on an image. `R` is what dd reads.
#[derive(Drop)]
pub enum Command<R = Empty, A: Allocator = Global> {
    /// Puts the bytes of a dump onto the image, each at its address plus `offset`.
    Revert { text: Bytes<A>, offset: u64 },
    /// Puts the bytes of plain hexadecimal onto the image from `at` on.
    RevertPlain { text: Bytes<A>, at: u64 },
    /// Puts what dd's operands make of the input onto the image; the files that they name are not looked at.
    Dd { operands: Words<A>, input: R },
    /// The same by a plan, as `bx_dd::parse` makes one of operands.
    Copy { plan: Plan<A>, input: R },
    /// Makes the change of a patch, where the image agrees with it: it has the length that the patch tells, and the bytes of each `-` line.
    Patch { patch: Patch<A> },
    /// Takes the last `k` changes back.
    Undo { k: u32 },
    /// Makes the last `j` undone changes again.
    Redo { j: u32 },
}

/// A change that isn't to make its image longer.
#[derive(Drop)]
pub enum Kept<A: Allocator = Global> {
    /// One that was read before.
    Change(Change<A>),
    /// That of a patch, where the image agrees with it.
    Patch(Patch<A>),
}

/// The answer to one command.
#[derive(Clone, Copy, Debug, PartialEq, Eq)]
pub enum Reply {
    /// The change was made, and has this number.
    Changed { number: u32 },
    /// dd's change was made, and has this number; the counts are dd's.
    Copied { number: u32, counts: Counts },
    /// The count of changes that are left.
    Undone { left: u32 },
    /// The count of changes that then stand.
    Redone { changes: u32 },
    /// Nothing was done, unless the fault says otherwise.
    Refused(Fault),
}

impl Reply {
    ghost use Rattle.bx_cli_commands.specs.Replies.{counted_by, stands_by};

    /// How many changes stand behind the command, which it tells; or the fault that it was refused for.
    pub fn standing(self) -> Result<u32, Fault>
        ensures { result ≡ stands_by self }
    {
        match self {
            Reply::Changed { number } | Reply::Copied { number, .. } => Ok(number),
            Reply::Undone { left } => Ok(left),
            Reply::Redone { changes } => Ok(changes),
            Reply::Refused(fault) => Err(fault),
        }
    }

    /// What dd counted; none of another command, and where it was refused.
    pub fn counts(self) -> Option<Counts>
        ensures { result ≡ counted_by self }
    {
        match self {
            Reply::Copied { counts, .. } => Some(counts),
            Reply::Changed { .. }
            | Reply::Undone { .. }
            | Reply::Redone { .. }
            | Reply::Refused(_) => None,
        }
    }
}
