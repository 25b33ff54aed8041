//! Steps over changes, as they are shown: a heading, the saved lines, and an empty line for each.
ghost use Rattle.std.specs.Prelude.{◌≡◌, ◌+◌, ◌<◌, ◌≤◌, ℕ, All, IsTrue, length, OnOk, IfErr};
ghost use Rattle.std.specs.Io.KnownBytes.{Appends};
ghost use Rattle.bx_journal_read.specs.show.ShownSteps.{first_number, AreStepsPut, mark_step, newest_steps, number_at, saved_lines_at, shows_patch};
ghost use Rattle.bx_journal_read.specs.show.Stopping.{CountsBytes, StopsPrefix};
ghost use Rattle.bx_journal_read.specs.show.Showing.{CountsNone, LiesWithin, PutFault, WritesBeside};
ghost use Rattle.bx_journal.specs.ShownText.{last_line};

use bx_image::Device;
use bx_journal_format::Mark;
use bx_journal_read::{
    Direction, ShowFault, Step, Steps, Writing, put, put_differences, put_heading, put_lines,
};
use bx_journal_store::TextStore;
use std::alloc::Allocator;
use std::io::Write;

/// The number of the change that the step behind `i` others is over, where a text has `entries` entries.
fn step_number(steps: Steps, entries: usize, i: u32) -> u64
    requires { i ≤ entries }
    ensures { result ≡ number_at steps.way (first_number steps.way steps.changes entries) i }
{
    match steps.way {
        Direction::Undo => entries as u64 - i as u64,
        Direction::Redo => steps.changes as u64 + 1 + i as u64,
    }
}

/// Writes the saved lines of an entry, each made from its bytes, alone or beside what the image has there.
fn put_saved<D: Device, T: TextStore, A: Allocator + Clone, W: Write>(
    image: &mut D,
    journal: &mut T,
    writing: &mut Writing<A>,
    compares: bool,
    mark: Mark,
    out: &mut W,
) -> Result<(), ShowFault>
    requires countable { D.failures image.old < u64.MAX }
    requires also_countable { T.failures journal.old < u64.MAX }
    requires within { T.faithful journal.old → mark.to ≤ length (T.text journal.old) }
    requires order { mark.from ≤ mark.to }
    ensures put { T.faithful journal.old → (IsTrue compares → D.faithful image.old) → OnOk result
        (Appends (W.contents out.old) (W.contents out.new) (saved_lines_at compares (D.image image.old) (T.text journal.old) mark)) }
    ensures counted { T.faithful journal.old → (IsTrue compares → D.faithful image.old) → OnOk result (CountsBytes writing.old.written
        (saved_lines_at compares (D.image image.old) (T.text journal.old) mark) writing.new.written) }
    ensures stops { T.faithful journal.old → (IsTrue compares → D.faithful image.old) → IfErr result (StopsPrefix writing.old.written
        (saved_lines_at compares (D.image image.old) (T.text journal.old) mark) (W.contents out.old) (W.contents out.new)) }
    ensures puts { WritesBeside D.Device T.TextStore result image.old image.new journal.old journal.new }
{
    match compares {
        true => put_differences(image, journal, writing, mark, out),
        false => put_lines(journal, writing, mark, out),
    }
}

/// Writes the step over the change of a mark.
fn put_step<D: Device, T: TextStore, A: Allocator + Clone, W: Write>(
    image: &mut D,
    journal: &mut T,
    writing: &mut Writing<A>,
    step: Step,
    out: &mut W,
) -> Result<(), ShowFault>
    requires countable { D.failures image.old < u64.MAX }
    requires also_countable { T.failures journal.old < u64.MAX }
    requires within { T.faithful journal.old → step.mark.to ≤ length (T.text journal.old) }
    requires order { step.mark.from ≤ step.mark.to }
    ensures step { T.faithful journal.old → (IsTrue step.steps.compares → D.faithful image.old) → OnOk result
        (Appends (W.contents out.old) (W.contents out.new) (mark_step step.steps (D.image image.old) (T.text journal.old) step.number step.mark)) }
    ensures counted { T.faithful journal.old → (IsTrue step.steps.compares → D.faithful image.old) → OnOk result (CountsBytes writing.old.written
        (mark_step step.steps (D.image image.old) (T.text journal.old) step.number step.mark) writing.new.written) }
    ensures stops { T.faithful journal.old → (IsTrue step.steps.compares → D.faithful image.old) → IfErr result (StopsPrefix writing.old.written
        (mark_step step.steps (D.image image.old) (T.text journal.old) step.number step.mark) (W.contents out.old) (W.contents out.new)) }
    ensures puts { WritesBeside D.Device T.TextStore result image.old image.new journal.old journal.new }
{
    put_heading(journal, writing, step, out)?;
    put_saved(image, journal, writing, step.steps.compares, step.mark, out)?;
    writing.written = put(out, writing.written, b"\n")?;
    Ok(())
}

/// Writes the steps over the changes of the newest marks, as many as are asked for, the newest first.
pub fn put_steps<D: Device, T: TextStore, A: Allocator + Clone, W: Write>(
    image: &mut D,
    journal: &mut T,
    writing: &mut Writing<A>,
    marks: &[Mark],
    steps: Steps,
    out: &mut W,
) -> Result<(), ShowFault>
    requires countable { D.failures image.old < u64.MAX }
    requires also_countable { T.failures journal.old < u64.MAX }
    requires enough { steps.count ≤ length marks.now }
    requires lie { (len : ℕ) × (T.faithful journal.old → len ≤ length (T.text journal.old)) × All (LiesWithin len) marks.now }
    ensures steps { T.faithful journal.old → (IsTrue steps.compares → D.faithful image.old) → OnOk result
        (AreStepsPut steps (D.image image.old) (T.text journal.old) steps.count marks.now (W.contents out.old) (W.contents out.new)) }
    ensures counted { T.faithful journal.old → (IsTrue steps.compares → D.faithful image.old) → OnOk result (CountsBytes writing.old.written
        (newest_steps steps (D.image image.old) (T.text journal.old) steps.count marks.now) writing.new.written) }
    ensures stops { T.faithful journal.old → (IsTrue steps.compares → D.faithful image.old) → IfErr result (StopsPrefix writing.old.written
        (newest_steps steps (D.image image.old) (T.text journal.old) steps.count marks.now) (W.contents out.old) (W.contents out.new)) }
    ensures puts { WritesBeside D.Device T.TextStore result image.old image.new journal.old journal.new }
{
    for i in 0..steps.count {
        let mark = &marks[marks.len() - 1 - i as usize];
        let number = step_number(steps, marks.len(), i);
        let step = Step {
            steps,
            number,
            mark: *mark,
        };
        put_step(image, journal, writing, step, out)?;
    }
    Ok(())
}

/// Whether steps are shown as a patch.
fn is_patch(steps: Steps) -> bool
    ensures { result ≡ shows_patch steps }
{
    match steps.compares {
        true => steps.count == 1,
        false => false,
    }
}

/// Writes the last line of a patch, where the steps are shown as one, behind `before` bytes.
pub fn put_last<W: Write>(steps: Steps, before: u64, out: &mut W) -> Result<(), ShowFault>
    ensures put { OnOk result (Appends (W.contents out.old) (W.contents out.new) (last_line steps)) }
    ensures kind { IfErr result PutFault }
    ensures counts { IfErr result CountsNone }
    ensures stops { IfErr result (StopsPrefix before (last_line steps) (W.contents out.old) (W.contents out.new)) }
{
    if !is_patch(steps) {
        return Ok(());
    }
    match put(out, before, b"end\n") {
        Ok(_) => Ok(()),
        Err(fault) => Err(fault),
    }
}
