//! Whether a text is a redo text: finished entries of the second form, no more than a journal holds beside its changes.
ghost use Rattle.std.specs.Prelude.{◌≡◌, ◌⊎◌, ◌+◌, ◌<◌, ◌≤◌, List, ℕ, suc, length, take, Some, OnOk, IfOk, IfErr, IfSome, IfNone, MatchResult};
ghost use Rattle.bx_journal_format.specs.read.Journal.{HasRead};
ghost use Rattle.bx_journal_read.specs.scan.Judging.{RefusesRedo, AllTold, IsBeyondAt, IsFit, IsRedoCounted, IsUnfitAt, IsUnfitFrom, IsUntoldAt, JudgeFault, LastLineFault, RedoTextFault};
ghost use Rattle.bx_image.specs.Power.{NoMore};
ghost use Rattle.bx_journal_model.specs.Looking.{LooksAt};
ghost use Rattle.bx_journal_read.specs.scan.Recovery.{HasUndoneCount};
ghost use Rattle.bx_journal_format.specs.Parsed.{entries_of};
ghost use Rattle.bx_journal_format.specs.Text.{split};

use bx_image::Device;
use bx_journal_format::{Counted, EntryRead, JournalRead, MOST_CHANGES, StageRead, told_length};
use bx_journal_model::{SessionFault, of_redo};
use bx_journal_read::{CountedText, newlines, read_journal};
use std::alloc::{Allocator, Global};

/// What a redo text is.
#[derive(Drop)]
pub enum RedoFound<A: Allocator = Global> {
    /// Entries of the second form alone, and not too many, which were counted.
    Counted(CountedText),
    /// A text that is none at a line: the damaged one, or one of those that `redo_counted` reports.
    Unfit { line: u64 },
    /// Any other text, as it is.
    Text(Vec<u8, A>),
}

ghost use Rattle.bx_journal.specs.private.RedoFound.{AcceptsFound, IsFewFound, IsOfText, IsRedoFound, RefusesFound};

/// The number, from 1, of the line that begins at this place.
fn line_at(text: &[u8], at: u64) -> u64
    requires { at ≤ length text.now }
    ensures { result ≡ suc (length (split (take at text.now)).lines) }
{
    let count = newlines(&text[..at as usize]);
    count + 1
}

/// Where the first entry begins that tells no length.
fn first_untold<A: Allocator>(entries: &[EntryRead<A>]) -> Option<u64>
    ensures some { IfSome result (IsUntoldAt entries.now) }
    ensures none { IfNone result (AllTold entries.now) }
{
    for entry in entries {
        if entry.after.is_none() {
            return Some(entry.begins);
        }
    }
    None
}

/// Where the first entry begins that tells no length, or else the first that is too many beside `changes` changes.
fn unfit_entry<A: Allocator>(entries: &[EntryRead<A>], changes: u32) -> Option<u64>
    requires { changes ≤ 65535 }
    ensures some { IfSome result (λ at. IsUntoldAt entries.now at ⊎ IsBeyondAt entries.now changes at) }
    ensures none { IfNone result (AllTold entries.now × (changes + length entries.now ≤ 65535)) }
{
    if let Some(at) = first_untold(entries) {
        return Some(at);
    }
    let most = (MOST_CHANGES - changes) as usize;
    let entry = entries.get(most)?;
    Some(entry.begins)
}

/// Where a text of `len` bytes that was read isn't a redo text beside `changes` changes: where it is unfinished, else at
/// the first entry that tells no length, else at the first that is too many.
pub fn unfit_place<A: Allocator>(journal: &JournalRead<A>, len: u64, changes: u32) -> Option<u64>
    requires { changes ≤ 65535 }
    ensures some { (text : List ℕ) → HasRead text journal.now → len ≡ length text → IfSome result (IsUnfitFrom text changes) }
    ensures none { (text : List ℕ) → HasRead text journal.now → len ≡ length text → IfNone result (IsFit text changes (entries_of journal.now.entries.items)) }
{
    match &journal.stage {
        StageRead::Between => {
            if journal.whole != len {
                return Some(journal.whole);
            }
            unfit_entry(&journal.entries, changes)
        }
        StageRead::Saving { begins, .. } => Some(*begins),
        StageRead::Ending { begins, .. } => Some(*begins),
    }
}

/// How many entries were read in a text, where it is a redo text beside `changes` changes.
fn counted_read<A: Allocator>(
    text: &[u8],
    journal: &JournalRead<A>,
    changes: u32,
) -> Result<CountedText, SessionFault>
    requires few { changes ≤ 65535 }
    requires read { HasRead text.now journal.now }
    ensures ok { IfOk result (λ c. IsRedoCounted text.now changes c.counted.count c.counted.told) }
    ensures lines { IfOk result (λ c. c.lines ≡ length (split text.now).lines) }
    ensures refused { IfErr result (RedoTextFault text.now changes) }
{
    if let Some(at) = unfit_place(journal, text.len() as u64, changes) {
        return Err(SessionFault::RedoDamaged {
            line: line_at(text, at),
        });
    }
    let counted = Counted {
        count: journal.entries.len() as u32,
        told: told_length(&journal.entries),
    };
    Ok(CountedText {
        counted,
        lines: newlines(text),
    })
}

/// How many entries and lines a redo text beside `changes` changes has, and the length that the last one tells. The line
/// that is reported is the damaged one, else the first that is unfinished, else where the first entry of the first form begins,
/// else where the first begins that is too many.
pub fn redo_counted<A: Allocator + Clone>(
    alloc: &A,
    text: &[u8],
    changes: u32,
) -> Result<CountedText, SessionFault>
    requires few { changes ≤ 65535 }
    ensures ok { IfOk result (λ c. IsRedoCounted text.now changes c.counted.count c.counted.told) }
    ensures lines { IfOk result (λ c. c.lines ≡ length (split text.now).lines) }
    ensures refused { IfErr result (RedoTextFault text.now changes) }
    ensures unfit { (line : ℕ) → IsUnfitAt text.now changes line → MatchResult result (λ _. ⊥) (RefusesRedo line) }
{
    // Reading takes the text, in which the number of the line is counted afterwards.
    let copy = Vec::from_slice(alloc.clone()?, text)?;
    match read_journal(alloc, copy) {
        Ok(journal) => counted_read(text, &journal, changes),
        Err(fault) => Err(of_redo(fault)),
    }
}

/// What a redo text beside `changes` changes was counted as. Where it wasn't counted yet it is read entry by entry, from a
/// copy of it.
fn count_found<A: Allocator + Clone>(
    alloc: &A,
    found: RedoFound<A>,
    changes: u32,
) -> Result<CountedText, SessionFault>
    requires few { changes ≤ 65535 }
    ensures ok { (text : List ℕ) → IsRedoFound text changes found → IfOk result (λ c. IsRedoCounted text changes c.counted.count c.counted.told) }
    ensures lines { (text : List ℕ) → IsRedoFound text changes found → IfOk result (λ c. c.lines ≡ length (split text).lines) }
    ensures refused { (text : List ℕ) → IsRedoFound text changes found → IfErr result (RedoTextFault text changes) }
    ensures few { IsFewFound changes found → IfOk result (λ c. changes + c.counted.count ≤ 65535) }
    ensures kind { IfErr result IsOfText }
{
    match found {
        RedoFound::Counted(counted) => Ok(counted),
        RedoFound::Unfit { line } => Err(SessionFault::RedoDamaged { line }),
        RedoFound::Text(bytes) => redo_counted(alloc, &bytes, changes),
    }
}

/// Whether the image has the length that the last entry of a redo text of `lines` lines tells, if there is one. A text
/// whose last line tells another length is damaged at that line.
pub fn check_redo_length<D: Device>(
    image: &mut D,
    lines: u64,
    told: Option<u64>,
) -> Result<(), SessionFault>
    requires { D.failures image.old < u64.MAX }
    ensures same_length { D.faithful image.old → OnOk result (IfSome told (λ n. length (D.image image.old) ≡ n)) }
    ensures fault { IfErr result (LastLineFault (D.faithful image.old) lines told (D.image image.old)) }
    ensures looks { LooksAt D.faithful D.image D.failures result image.old image.new }
    ensures found_before { D.faithful image.old → NoMore (D.survives image.old) (D.survives image.new) }
{
    let Some(expected) = told else { return Ok(()) };
    let len = image.len()?;
    if len != expected {
        return Err(SessionFault::RedoDamaged { line: lines });
    }
    Ok(())
}

/// How many changes are undone, where the text that was found is the redo text of the image and of `changes` changes. It
/// changes nothing.
pub fn judge_redo<D: Device, A: Allocator + Clone>(
    alloc: &A,
    image: &mut D,
    found: RedoFound<A>,
    changes: u32,
) -> Result<u32, SessionFault>
    requires countable { D.failures image.old < u64.MAX }
    requires few { changes ≤ 65535 }
    ensures undone { D.faithful image.old → (text : List ℕ) → IsRedoFound text changes found → IfOk result (HasUndoneCount text (D.image image.old) changes) }
    ensures sum { IsFewFound changes found → IfOk result (λ n. changes + n ≤ 65535) }
    ensures fault { (text : List ℕ) → IfErr result (JudgeFault (D.faithful image.old × IsRedoFound text changes found) text (D.image image.old) changes) }
    ensures unfit { D.faithful image.old → RefusesFound found changes (D.image image.old) result }
    ensures kept { D.faithful image.old → AcceptsFound found changes (D.image image.old) result }
    ensures looks { LooksAt D.faithful D.image D.failures result image.old image.new }
    ensures found_before { D.faithful image.old → NoMore (D.survives image.old) (D.survives image.new) }
{
    let counted = match count_found(alloc, found, changes) {
        Ok(counted) => counted,
        Err(fault) => return Err(fault),
    };
    if let Err(fault) = check_redo_length(image, counted.lines, counted.counted.told) {
        return Err(fault);
    }
    Ok(counted.counted.count)
}
