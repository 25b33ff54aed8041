//! Whether what is unfinished in a journal is of this image: judged before anything is recovered, and nothing is written.
ghost use Rattle.std.specs.Prelude.{◌≡◌, ◌↔◌, ◌<◌, ◌≤◌, length, is_err, IfOk, IfErr, OnOk};
ghost use Rattle.bx_image.specs.Power.{NoMore};
ghost use Rattle.bx_journal_format.specs.Shown.{shown};
ghost use Rattle.bx_journal_model.specs.Fault.{LacksOrFails};
ghost use Rattle.bx_journal_model.specs.Looking.{FaultCounts, OnlyReadsText};
ghost use Rattle.bx_journal_read.specs.scan.Recovery.{FindFault};
ghost use Rattle.bx_journal_image.specs.Looks.{LooksAtBoth};
ghost use Rattle.bx_journal_image.specs.Unfinished.{IsJudgedAt, IsJudgedBy, IsStruckAt, IsUnfinishedJudged};

use crate::blocks::places::strike_from;
use crate::blocks::strikes::strike_text;
use crate::judging::judge::{Verdict, judge_image};
use crate::line::form::ImageLine;
use crate::line::marks::{BLOCK, Marks};
use bx_image::{Device, DeviceFailed};
use bx_journal_model::{Mark, SessionFault};
use bx_journal_read::{Found, read_text};
use bx_journal_store::TextStore;
use std::alloc::Allocator;

/// How many bytes are read at a time.
const ROOM: usize = 65_536;

/// Strikes the blocks of a line that the record touches which stands at a mark of the journal, and those that end behind the length
/// that it restores; none where a line of the record is longer than the room.
pub fn strike_marked<T: TextStore>(
    journal: &mut T,
    room: &mut [u8],
    line: &ImageLine,
    mark: Mark,
) -> Result<Option<Marks>, DeviceFailed>
    requires countable { T.failures journal.old < u64.MAX }
    requires order { mark.lines ≤ mark.saved }
    requires within { T.faithful journal.old → mark.saved ≤ length (T.text journal.old) }
    requires room { length room.old ≡ 65536 }
    ensures struck { T.faithful journal.old → IfOk result (IsStruckAt line.now (T.text journal.old) mark) }
    ensures room { length room.new ≡ 65536 }
    ensures reads { OnlyReadsText T.TextStore (is_err result) journal.old journal.new }
{
    let mut marks = line.marks;
    strike_from(&mut marks, line.length, mark.len);
    let all = strike_text(
        journal,
        room,
        &mut marks,
        line.length,
        mark.lines,
        mark.saved,
    )?;
    if !all {
        return Ok(None);
    }
    Ok(Some(marks))
}

/// Judges the image by a line, without the blocks that such a record touches.
fn judge_marked<D: Device, T: TextStore>(
    image: &mut D,
    journal: &mut T,
    room: &mut [u8],
    line: &ImageLine,
    mark: Mark,
) -> Result<Verdict, DeviceFailed>
    requires image_countable { D.failures image.old < u64.MAX }
    requires journal_countable { T.failures journal.old < u64.MAX }
    requires order { mark.lines ≤ mark.saved }
    requires within { T.faithful journal.old → mark.saved ≤ length (T.text journal.old) }
    requires room { length room.old ≡ 65536 }
    ensures verdict { D.faithful image.old → T.faithful journal.old → IfOk result (IsJudgedAt line.now (T.text journal.old) mark (D.image image.old)) }
    ensures looks { LooksAtBoth D.Device T.TextStore (is_err result) image.old image.new journal.old journal.new }
{
    let Some(marks) = strike_marked(journal, room, line, mark)? else {
        return Ok(Verdict::Untold);
    };
    let (block, _) = room.split_at_mut(BLOCK);
    judge_image(image, line, &marks, block)
}

/// The same by a line that may be missing, in memory that is taken here.
fn judge_at<D: Device, T: TextStore, A: Allocator + Clone>(
    alloc: &A,
    image: &mut D,
    journal: &mut T,
    line: Option<ImageLine>,
    mark: Mark,
) -> Result<Verdict, SessionFault>
    requires image_countable { D.failures image.old < u64.MAX }
    requires journal_countable { T.failures journal.old < u64.MAX }
    requires order { mark.lines ≤ mark.saved }
    requires within { T.faithful journal.old → mark.saved ≤ length (T.text journal.old) }
    ensures verdict { D.faithful image.old → T.faithful journal.old → IfOk result (IsJudgedBy line (T.text journal.old) mark (D.image image.old)) }
    ensures fault { IfErr result LacksOrFails }
    ensures image { D.faithful image.old → D.image image.new ≡ D.image image.old }
    ensures journal { T.faithful journal.old → T.text journal.new ≡ T.text journal.old }
    ensures image_before { D.faithful image.old → NoMore (D.survives image.old) (D.survives image.new) }
    ensures journal_before { T.faithful journal.old → NoMore (T.survives journal.old) (T.survives journal.new) }
    ensures image_faith { D.faithful image.new ↔ D.faithful image.old }
    ensures journal_faith { T.faithful journal.new ↔ T.faithful journal.old }
    ensures no_failure { OnOk result ((D.failures image.new ≡ D.failures image.old) × (T.failures journal.new ≡ T.failures journal.old)) }
    ensures counts { IfErr result (λ e. FaultCounts e (D.failures image.old) (T.failures journal.old) (D.failures image.new) (T.failures journal.new)) }
{
    let Some(line) = line else {
        return Ok(Verdict::Untold);
    };
    let mut room = vec![in alloc.clone()?; 0u8; ROOM]?;
    match judge_marked(image, journal, room.as_mut_slice(), &line, mark) {
        Ok(verdict) => Ok(verdict),
        Err(_) => Err(SessionFault::DeviceFailed),
    }
}

/// What an image is by a line, where recovery would write to it: behind a journal with something unfinished whose `save` line stands. It
/// takes 64 KiB, and only reads.
pub fn judge_unfinished<D: Device, T: TextStore, A: Allocator + Clone>(
    alloc: &A,
    image: &mut D,
    journal: &mut T,
    line: Option<ImageLine>,
) -> Result<Option<Verdict>, SessionFault>
    requires image_countable { D.failures image.old < u64.MAX }
    requires journal_countable { T.failures journal.old < u64.MAX }
    ensures verdict { D.faithful image.old → T.faithful journal.old
        → IfOk result (IsUnfinishedJudged line (T.text journal.old) (D.image image.old)) }
    ensures fault { IfErr result (FindFault (T.faithful journal.old) (shown (T.text journal.old))) }
    ensures image { D.faithful image.old → D.image image.new ≡ D.image image.old }
    ensures journal { T.faithful journal.old → T.text journal.new ≡ T.text journal.old }
    ensures image_before { D.faithful image.old → NoMore (D.survives image.old) (D.survives image.new) }
    ensures journal_before { T.faithful journal.old → NoMore (T.survives journal.old) (T.survives journal.new) }
    ensures image_faith { D.faithful image.new ↔ D.faithful image.old }
    ensures journal_faith { T.faithful journal.new ↔ T.faithful journal.old }
    ensures no_failure { OnOk result ((D.failures image.new ≡ D.failures image.old) × (T.failures journal.new ≡ T.failures journal.old)) }
    ensures counts { IfErr result (λ e. FaultCounts e (D.failures image.old) (T.failures journal.old) (D.failures image.new) (T.failures journal.new)) }
{
    let found = match read_text(alloc, journal) {
        Ok(found) => found,
        Err(fault) => return Err(fault),
    };
    let Found::Unfinished(torn) = found else {
        return Ok(None);
    };
    let Some(mark) = torn.mark else {
        return Ok(None);
    };
    match judge_at(alloc, image, journal, line, mark) {
        Ok(verdict) => Ok(Some(verdict)),
        Err(fault) => Err(fault),
    }
}
