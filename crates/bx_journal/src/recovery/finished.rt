//! Opening beside a journal of committed entries alone: the redo text is read and judged.
ghost use Rattle.std.specs.Prelude.{◌≡◌, ◌↔◌, ◌+◌, ◌<◌, ◌≤◌, ℕ, OnOk, IfOk, IfErr, IfSome, MatchResult};
ghost use Rattle.bx_journal_read.specs.scan.Judging.{IsUnfitIn};
ghost use Rattle.bx_journal_model.specs.Opening.{RefusesLength};
ghost use Rattle.bx_image.specs.Power.{NoMore};
ghost use Rattle.bx_journal_model.specs.Looking.{FaultCounts, LooksAt};
ghost use Rattle.bx_journal_model.specs.Fault.{LacksOrFails};
ghost use Rattle.bx_journal_read.specs.scan.Recovery.{FaultBeside, HasOtherLength, HasToldLength, RefusesBeside, TellsCount};
ghost use Rattle.bx_journal.specs.private.RedoFound.{IsRedoCountedIn, IsRedoIn};

use crate::recovery::length::check_length;
use crate::recovery::redo::{RedoFound, judge_redo};
use bx_image::Device;
use bx_journal_format::{Counted, MOST_CHANGES};
use bx_journal_model::{Recovered, RecoveryOutcome, SessionFault, of_text};
use bx_journal_read::{CountedText, count_text, text_damage, unfit_line};
use bx_journal_store::TextStore;
use std::alloc::Allocator;

/// Counts the entries of the redo text, where it is one beside `changes` changes. It changes nothing.
fn count_redo<T: TextStore, A: Allocator + Clone>(
    alloc: &A,
    redo: &mut T,
    changes: u32,
) -> Result<Option<CountedText>, SessionFault>
    requires countable { T.failures redo.old < u64.MAX }
    requires few { changes ≤ 65535 }
    ensures counted { IfOk result (λ found. IfSome found (IsRedoCountedIn (T.faithful redo.old) (T.text redo.old) changes)) }
    ensures fault { IfErr result LacksOrFails }
    ensures looks { LooksAt T.faithful T.text T.failures result redo.old redo.new }
    ensures found_before { T.faithful redo.old → NoMore (T.survives redo.old) (T.survives redo.new) }
{
    let found = match count_text(alloc, redo, true) {
        Ok(found) => found,
        Err(fault) => return Err(fault),
    };
    let Some(text) = found else {
        return Ok(None);
    };
    if text.counted.count > MOST_CHANGES - changes {
        return Ok(None);
    }
    Ok(Some(text))
}

/// The line at which a text is no redo text beside `changes` changes, if that is found in windows. It changes nothing.
fn find_unfit_line<T: TextStore, A: Allocator + Clone>(
    alloc: &A,
    redo: &mut T,
    changes: u32,
) -> Result<Option<u64>, SessionFault>
    requires countable { T.failures redo.old < u64.MAX }
    requires few { changes ≤ 65535 }
    ensures line { IfOk result (λ found. IfSome found (IsUnfitIn (T.faithful redo.old) (T.text redo.old) changes)) }
    ensures fault { IfErr result LacksOrFails }
    ensures looks { LooksAt T.faithful T.text T.failures result redo.old redo.new }
    ensures found_before { T.faithful redo.old → NoMore (T.survives redo.old) (T.survives redo.new) }
{
    let damage = match text_damage(alloc, redo, false) {
        Ok(damage) => damage,
        Err(fault) => return Err(fault),
    };
    if damage.is_some() {
        return Ok(damage);
    }
    unfit_line(alloc, redo, changes)
}

/// What a redo text is that wasn't counted: the line at which it is none is found in windows, and only where that isn't found so the text is
/// read whole. It changes nothing.
fn read_redo<T: TextStore, A: Allocator + Clone>(
    alloc: &A,
    redo: &mut T,
    changes: u32,
) -> Result<RedoFound<A>, SessionFault>
    requires countable { T.failures redo.old < u64.MAX }
    requires few { changes ≤ 65535 }
    ensures found { IfOk result (IsRedoIn (T.faithful redo.old) (T.text redo.old) changes) }
    ensures fault { IfErr result LacksOrFails }
    ensures looks { LooksAt T.faithful T.text T.failures result redo.old redo.new }
    ensures found_before { T.faithful redo.old → NoMore (T.survives redo.old) (T.survives redo.new) }
{
    let unfit = match find_unfit_line(alloc, redo, changes) {
        Ok(unfit) => unfit,
        Err(fault) => return Err(fault),
    };
    if let Some(line) = unfit {
        return Ok(RedoFound::Unfit { line });
    }
    match redo.read_all(alloc.clone()?) {
        Ok(bytes) => Ok(RedoFound::Text(bytes)),
        Err(fault) => Err(of_text(fault)),
    }
}

/// What the redo text is beside `changes` changes: counted in windows, and read otherwise only where it isn't counted so. It
/// changes nothing.
fn find_redo<T: TextStore, A: Allocator + Clone>(
    alloc: &A,
    redo: &mut T,
    changes: u32,
) -> Result<RedoFound<A>, SessionFault>
    requires countable { T.failures redo.old < u64.MAX }
    requires few { changes ≤ 65535 }
    ensures found { IfOk result (IsRedoIn (T.faithful redo.old) (T.text redo.old) changes) }
    ensures fault { IfErr result LacksOrFails }
    ensures looks { LooksAt T.faithful T.text T.failures result redo.old redo.new }
    ensures found_before { T.faithful redo.old → NoMore (T.survives redo.old) (T.survives redo.new) }
{
    let counted = match count_redo(alloc, redo, changes) {
        Ok(counted) => counted,
        Err(fault) => return Err(fault),
    };
    if let Some(text) = counted {
        return Ok(RedoFound::Counted(text));
    }
    read_redo(alloc, redo, changes)
}

/// Compares the image's length with the one that the last finished entry tells, and judges the redo text. Nothing is
/// changed.
pub fn open_finished<D: Device, T: TextStore, A: Allocator + Clone>(
    alloc: &A,
    image: &mut D,
    redo: &mut T,
    found: Counted,
) -> Result<Recovered, SessionFault>
    requires image_countable { D.failures image.old < u64.MAX }
    requires redo_countable { T.failures redo.old < u64.MAX }
    requires few { found.count ≤ 65535 }
    ensures clean { IfOk result (λ o. (o.how ≡ RecoveryOutcome.Clean) × (o.changes ≡ found.count)) }
    ensures same_length { D.faithful image.old → OnOk result (HasToldLength found.told (D.image image.old)) }
    ensures undone { D.faithful image.old → T.faithful redo.old → TellsCount (T.text redo.old) (D.image image.old) found.count result }
    ensures sum { IfOk result (λ o. o.changes + o.undone ≤ 65535) }
    ensures fault { IfErr result (FaultBeside (D.faithful image.old) (T.faithful redo.old)
        (T.text redo.old) (D.image image.old) found.count found.told) }
    ensures differs { D.faithful image.old → (n : ℕ) → HasOtherLength found.told (D.image image.old) n → MatchResult result (λ _. ⊥) (RefusesLength n) }
    ensures unfit { D.faithful image.old → T.faithful redo.old
        → RefusesBeside (T.text redo.old) (D.image image.old) found.count found.told result }
    ensures image { D.faithful image.old → D.image image.new ≡ D.image image.old }
    ensures redo_same { T.faithful redo.old → T.text redo.new ≡ T.text redo.old }
    ensures image_before { D.faithful image.old → NoMore (D.survives image.old) (D.survives image.new) }
    ensures redo_before { T.faithful redo.old → NoMore (T.survives redo.old) (T.survives redo.new) }
    ensures image_faith { D.faithful image.new ↔ D.faithful image.old }
    ensures redo_faith { T.faithful redo.new ↔ T.faithful redo.old }
    ensures no_failure { OnOk result ((D.failures image.new ≡ D.failures image.old) × (T.failures redo.new ≡ T.failures redo.old)) }
    ensures counts { IfErr result (λ e. FaultCounts e (D.failures image.old) (T.failures redo.old) (D.failures image.new) (T.failures redo.new)) }
{
    let text = match find_redo(alloc, redo, found.count) {
        Ok(text) => text,
        Err(fault) => return Err(fault),
    };
    if let Err(fault) = check_length(image, found.told) {
        return Err(fault);
    }
    let undone = match judge_redo(alloc, image, text, found.count) {
        Ok(undone) => undone,
        Err(fault) => return Err(fault),
    };
    Ok(Recovered {
        how: RecoveryOutcome::Clean,
        changes: found.count,
        undone,
    })
}
