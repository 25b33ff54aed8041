//! The line of an image that is written before an undo or a redo of several changes.
ghost use Rattle.std.specs.Prelude.{◌≡◌, ◌<◌, length, is_err, IfOk, IfErr, OnOk};
ghost use Rattle.bx_journal_model.specs.Fault.{LacksOrFails};
ghost use Rattle.bx_journal_model.specs.Looking.{FaultCounts};
ghost use Rattle.bx_journal_image.specs.Looks.{LooksAtBoth, LeavesDevice};
ghost use Rattle.bx_journal_image.specs.Seal.{AreStepsMarks, IsStepsSealOf, IsStepsSpan};

use crate::advice::Standing;
use crate::blocks::strikes::strike_text;
use crate::judging::judge::{Blocks, mark_image};
use crate::line::form::ImageLine;
use crate::line::marks::BLOCK;
use crate::sealing::lengths::steps_span;
use crate::sealing::seal::{Span, line_of};
use bx_image::{Device, DeviceFailed};
use bx_journal_model::SessionFault;
use bx_journal_store::TextStore;
use std::alloc::Allocator;

/// How many bytes of a text are read at a time.
const WINDOW: usize = 65_536;

/// The blocks of an image, but for those that a change of a text touches; none where a line of the text is longer than a window.
fn mark_untouched<D: Device, T: TextStore>(
    image: &mut D,
    text: &mut T,
    room: &mut [u8],
) -> Result<Blocks, DeviceFailed>
    requires image_countable { D.failures image.old < u64.MAX }
    requires text_countable { T.failures text.old < u64.MAX }
    requires room { length room.old ≡ 65536 }
    ensures total { D.faithful image.old → IfOk result (λ b. b.total ≡ length (D.image image.old)) }
    ensures marks { D.faithful image.old → T.faithful text.old → IfOk result (λ b. AreStepsMarks (D.image image.old) (T.text text.old) b.marks) }
    ensures room { length room.new ≡ 65536 }
    ensures looks { LooksAtBoth D.Device T.TextStore (is_err result) image.old image.new text.old text.new }
{
    let (block, _) = room.split_at_mut(BLOCK);
    let mut blocks = mark_image(image, block)?;
    let to = text.len()?;
    let all = strike_text(text, room, &mut blocks.marks, blocks.total, 0, to)?;
    if !all {
        blocks.marks = [None; 32];
    }
    Ok(blocks)
}

/// What is known of an image before steps: its blocks that none of them touches, and between which lengths they leave it.
#[derive(Clone, Copy)]
struct Steps {
    blocks: Blocks,
    span: Span,
}

/// What is known of an image before the steps that the entries of a text tell, which is read twice.
fn look_through<D: Device, T: TextStore>(
    image: &mut D,
    text: &mut T,
    room: &mut [u8],
) -> Result<Steps, DeviceFailed>
    requires image_countable { D.failures image.old < u64.MAX }
    requires text_countable { T.failures text.old < u64.MAX }
    requires room { length room.old ≡ 65536 }
    ensures total { D.faithful image.old → IfOk result (λ s. s.blocks.total ≡ length (D.image image.old)) }
    ensures marks { D.faithful image.old → T.faithful text.old
        → IfOk result (λ s. AreStepsMarks (D.image image.old) (T.text text.old) s.blocks.marks) }
    ensures span { D.faithful image.old → T.faithful text.old
        → IfOk result (λ s. IsStepsSpan (length (D.image image.old)) (T.text text.old) s.span) }
    ensures looks { LooksAtBoth D.Device T.TextStore (is_err result) image.old image.new text.old text.new }
{
    let blocks = mark_untouched(image, text, room)?;
    let span = steps_span(text, room, blocks.total)?;
    Ok(Steps { blocks, span })
}

/// The line of the image as it is, before an undo or a redo of more than one change: nothing is known of the blocks that a change of
/// the text touches (of an undo the journal, of a redo the redo text), and it leaves the lengths between the least and the greatest that
/// an entry of the text restores or that the image has; any length where not all of these are known. It takes 64 KiB, and only reads.
///
/// # Errors
/// `NoMemory` where a growth is refused, `DeviceFailed` where the image or the text fails.
pub fn seal_steps<D: Device, T: TextStore, A: Allocator + Clone>(
    alloc: &A,
    image: &mut D,
    text: &mut T,
    now: Standing,
    others: u32,
) -> Result<ImageLine, SessionFault>
    requires image_countable { D.failures image.old < u64.MAX }
    requires text_countable { T.failures text.old < u64.MAX }
    ensures line { D.faithful image.old → T.faithful text.old → IfOk result (IsStepsSealOf (D.image image.old) (T.text text.old) now others) }
    ensures fault { IfErr result LacksOrFails }
    ensures image { LeavesDevice D.faithful D.image D.survives image.old image.new }
    ensures text { LeavesDevice T.faithful T.text T.survives text.old text.new }
    ensures no_failure { OnOk result ((D.failures image.new ≡ D.failures image.old) × (T.failures text.new ≡ T.failures text.old)) }
    ensures counts { IfErr result (λ e. FaultCounts e (D.failures image.old) (T.failures text.old) (D.failures image.new) (T.failures text.new)) }
{
    let mut room = vec![in alloc.clone()?; 0u8; WINDOW]?;
    match look_through(image, text, room.as_mut_slice()) {
        Ok(steps) => Ok(line_of(now, others, steps.span, steps.blocks)),
        Err(_) => Err(SessionFault::DeviceFailed),
    }
}
