//! The line of an image that is written before a command's first write, so that it can be judged where the command is stopped.
ghost use Rattle.std.specs.Prelude.{◌≡◌, ℕ, List, ◌<◌, min, max, length, IfOk, IfErr};
ghost use Rattle.bx_image.specs.Power.{NoMore};
ghost use Rattle.bx_journal_model.specs.Fault.{LacksOrFails};
ghost use Rattle.bx_journal_model.specs.Looking.{LooksAt};
ghost use Rattle.bx_journal_image.specs.Seal.{IsLineOf, IsSealOf, any_length};

use crate::advice::Standing;
use crate::judging::judge::{Blocks, mark_image};
use crate::line::form::ImageLine;
use crate::line::marks::BLOCK;
use bx_image::Device;
use bx_journal_model::SessionFault;
use std::alloc::Allocator;

/// Between which lengths a command leaves an image that is stopped.
#[derive(Clone, Copy, Debug, PartialEq, Eq)]
pub struct Span {
    /// The least, in bytes.
    pub least: u64,
    /// The greatest.
    pub most: u64,
}

impl Span {
    /// Any length: of a command that isn't known beforehand.
    pub fn any() -> Span
        ensures { result ≡ any_length }
    {
        Span {
            least: 0,
            most: u64::MAX,
        }
    }

    /// Those between two, the image's length and the one that the command gives it.
    pub fn between(one: u64, other: u64) -> Span
        ensures { result ≡ record { least = min one other; most = max one other } }
    {
        Span {
            least: one.min(other),
            most: one.max(other),
        }
    }

    /// These, and those up to one more.
    pub(crate) fn with(self, length: u64) -> Span
        ensures { result ≡ record { least = min self.least length; most = max self.most length } }
    {
        Span {
            least: self.least.min(length),
            most: self.most.max(length),
        }
    }
}

/// The line on an image of these blocks.
pub(crate) fn line_of(now: Standing, others: u32, span: Span, blocks: Blocks) -> ImageLine
    ensures line { (x : List ℕ) → blocks.total ≡ length x → IsLineOf x now others span result }
    ensures marks { result.marks ≡ blocks.marks }
{
    let marks = blocks.marks;
    ImageLine {
        changes: now.changes,
        undone: now.undone,
        length: blocks.total,
        last: now.last,
        next: now.next,
        others,
        least: span.least,
        most: span.most,
        marks,
    }
}

/// The line of the image as it is, before a command that leaves a length within the span where it is stopped. Of the span of the
/// image's own length it is the line at rest. It takes 4 KiB, and only reads.
///
/// # Errors
/// `NoMemory` where a growth is refused, `DeviceFailed` where the image fails.
pub fn seal<D: Device, A: Allocator + Clone>(
    alloc: &A,
    image: &mut D,
    now: Standing,
    others: u32,
    span: Span,
) -> Result<ImageLine, SessionFault>
    requires { D.failures image.old < u64.MAX }
    ensures line { D.faithful image.old → IfOk result (IsSealOf (D.image image.old) now others span) }
    ensures fault { IfErr result LacksOrFails }
    ensures looks { LooksAt D.faithful D.image D.failures result image.old image.new }
    ensures survives { D.faithful image.old → NoMore (D.survives image.old) (D.survives image.new) }
{
    let mut room = vec![in alloc.clone()?; 0u8; BLOCK]?;
    match mark_image(image, room.as_mut_slice()) {
        Ok(blocks) => Ok(line_of(now, others, span, blocks)),
        Err(_) => Err(SessionFault::DeviceFailed),
    }
}
