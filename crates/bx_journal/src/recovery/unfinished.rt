//! An unfinished entry at the end of a journal, and how opening discards it or rolls it back.
ghost use Rattle.std.specs.Prelude.{◌≡◌, ◌↔◌, ◌⊎◌, ◌+◌, ◌<◌, ◌≤◌, [], List, ℕ, OnOk, OnErr, IfOk, IfErr};
ghost use Rattle.bx_journal_model.specs.Calls.{AfterFault};
ghost use Rattle.bx_journal_model.specs.ThreeDevices.{AreBelow, AreCounted, AreUnfailed, HaveStayed, StepsOn};
ghost use Rattle.bx_journal_model.specs.Looking.{LooksAt, OneMore, LookFault};
ghost use Rattle.bx_journal_protocol.specs.protocol.Entries.{StaySettled};
ghost use Rattle.bx_journal_protocol.specs.protocol.Fading.{OpeningSurvives, PairSurvives};
ghost use Rattle.bx_journal_protocol.specs.protocol.Written.{AreSettled};
ghost use Rattle.bx_image.specs.Power.{NoMore, Only};
ghost use Rattle.bx_journal_model.specs.Power.{FoundBefore, RecoverySurvives};
ghost use Rattle.bx_journal_protocol.specs.protocol.Opening.{HasBuffersFor, HasRoomToRestore};
ghost use Rattle.bx_journal.specs.Opened.{CountsStack, FaultsAsRead, KeepsPair, OfAll, Opens, IsLengthRefused, SparesPair};
ghost use Rattle.bx_journal.specs.private.Recovering.{CallsCount, EmptiesRedo, FaultsOfTorn, LeavesRead, OpensRead, WherePairSettled};
ghost use Rattle.bx_journal_read.specs.scan.Recovery.{IsTorn, IsUnfinishedIn, KeepsStack, RecoverFault};
ghost use Rattle.bx_journal_model.specs.Stack.{HaveLengths, image_at};
ghost use Rattle.bx_journal_format.specs.Text.{Reading};

use crate::recovery::length::check_length;
use bx_image::{Device, DeviceFailed};
use bx_journal_model::{Devices, Mark, Recovered, RecoveryOutcome, SessionFault};
use bx_journal_protocol::{Buffers, buffers_of, cut_redo, drop_tail, settle, take_back};
use bx_journal_read::Torn;
use bx_journal_store::TextStore;
use std::alloc::Allocator;

/// Compares the image's length with the one that the last finished entry records, or makes room for what is to be
/// restored, whose length the unfinished entry records.
fn prepare<D: Device>(image: &mut D, torn: Torn) -> Result<(), SessionFault>
    requires { D.failures image.old < u64.MAX }
    ensures lengths { D.faithful image.old → (text : List ℕ) (r : Reading) → IsTorn text r torn
        → OnOk result (HaveLengths r.entries (image_at r.stage (D.image image.old))) }
    ensures fault { FaultsOfTorn D.Device image.old torn result }
    ensures kind { IfErr result (LookFault ⊥ [] []) }
    ensures room { OnOk result (HasRoomToRestore torn.mark (D.room image.new)) }
    ensures looks { LooksAt D.faithful D.image D.failures result image.old image.new }
    ensures found_before { D.faithful image.old → NoMore (D.survives image.old) (D.survives image.new) }
{
    match torn.mark {
        None => check_length(image, torn.told),
        Some(mark) => {
            image.reserve(mark.len)?;
            Ok(())
        }
    }
}

/// Cuts off what is unfinished, and takes its change back where its save line stands.
fn cut_unfinished<D: Device, T: TextStore, A: Allocator>(
    image: &mut D,
    journal: &mut T,
    buffers: &mut Buffers<A>,
    torn: Torn,
) -> Result<Recovered, DeviceFailed>
    requires image_countable { D.failures image.old < u64.MAX }
    requires journal_countable { T.failures journal.old < u64.MAX }
    requires found { IsUnfinishedIn (T.faithful journal.old) (T.text journal.old) torn }
    requires room { HasRoomToRestore torn.mark (D.room image.old) }
    requires buffers { HasBuffersFor torn.mark buffers.old }
    ensures opened { OpensRead D.Device T.TextStore image.old journal.old image.new journal.new result }
    ensures left { LeavesRead T.TextStore journal.old journal.new result }
    ensures unclean { IfOk result (λ o. (o.how ≡ RecoveryOutcome.Clean → ⊥) × (o.undone ≡ 0)) }
    ensures keeps { D.faithful image.old → T.faithful journal.old
        → KeepsStack result (T.text journal.old) (D.image image.old) (T.text journal.new) (D.image image.new) }
    ensures survives { WherePairSettled D.Device T.TextStore image.old journal.old
        (PairSurvives (T.text journal.old) (D.image image.old) (D.survives image.new) (T.survives journal.new)) }
    ensures settled { D.faithful image.old → T.faithful journal.old → Only (D.image image.old) (D.survives image.old)
        → OnOk result (Only (D.image image.new) (D.survives image.new) × Only (T.text journal.new) (T.survives journal.new)) }
    ensures changes { IfOk result (λ o. o.changes ≡ torn.count) }
    ensures image_faith { D.faithful image.new ↔ D.faithful image.old }
    ensures journal_faith { T.faithful journal.new ↔ T.faithful journal.old }
    ensures no_failure { OnOk result ((D.failures image.new ≡ D.failures image.old) × (T.failures journal.new ≡ T.failures journal.old)) }
    ensures failure { OnErr result (OneMore (D.failures image.old) (T.failures journal.old) (D.failures image.new) (T.failures journal.new)) }
{
    match torn.mark {
        None => {
            drop_tail(journal, torn.begins)?;
            Ok(Recovered {
                how: RecoveryOutcome::Dropped,
                changes: torn.count,
                undone: 0,
            })
        }
        Some(mark) => {
            take_back(image, journal, buffers, mark, torn.begins)?;
            Ok(Recovered {
                how: RecoveryOutcome::Restored {
                    number: torn.count + 1,
                },
                changes: torn.count,
                undone: 0,
            })
        }
    }
}

/// Empties the redo text, and then takes back what is unfinished. So a journal of finished entries alone has no redo
/// text that isn't its own.
fn finish<D: Device, T: TextStore, A: Allocator>(
    devices: &mut Devices<D, T>,
    buffers: &mut Buffers<A>,
    torn: Torn,
) -> Result<Recovered, DeviceFailed>
    requires countable { AreBelow D.Device T.TextStore u64.MAX devices.old }
    requires found { IsUnfinishedIn (T.faithful devices.old.journal) (T.text devices.old.journal) torn }
    requires room { HasRoomToRestore torn.mark (D.room devices.old.image) }
    requires buffers { HasBuffersFor torn.mark buffers.old }
    ensures opened { OpensRead D.Device T.TextStore devices.old.image devices.old.journal devices.new.image devices.new.journal result }
    ensures left { LeavesRead T.TextStore devices.old.journal devices.new.journal result }
    ensures unclean { IfOk result (λ o. (o.how ≡ RecoveryOutcome.Clean → ⊥) × (o.undone ≡ 0)) }
    ensures keeps { KeepsPair D.Device T.TextStore devices.old devices.new result }
    ensures changes { IfOk result (λ o. o.changes ≡ torn.count) }
    ensures emptied { T.faithful devices.old.redo → OnOk result (T.text devices.new.redo ≡ []) }
    ensures emptied_first { T.faithful devices.old.redo → OnErr result ((devices.new.journal ≡ devices.old.journal) ⊎ (T.text devices.new.redo ≡ [])) }
    ensures survives { D.faithful devices.old.image → T.faithful devices.old.journal → T.faithful devices.old.redo
        → AreSettled D.Device T.TextStore devices.old
        → OpeningSurvives (T.text devices.old.journal) (D.image devices.old.image) (T.text devices.old.redo) (D.survives devices.new.image) (T.survives devices.new.journal) (T.survives devices.new.redo) }
    ensures settles { StaySettled D.Device T.TextStore devices.old devices.new result }
    ensures steps_on { StepsOn D.Device T.TextStore result devices.old devices.new }
{
    // Before the journal is finished again, else a stop could leave a finished journal beside another image's redo text.
    cut_redo(&mut devices.redo, 0)?;
    cut_unfinished(&mut devices.image, &mut devices.journal, buffers, torn)
}

/// The memory that restoring takes: as much for a record of any length.
fn buffers_for<A: Allocator + Clone>(
    alloc: &A,
    mark: Option<Mark>,
) -> Result<Buffers<A>, SessionFault>
    ensures buffers { IfOk result (HasBuffersFor mark) }
    ensures fault { IfErr result (λ e. e ≡ SessionFault.NoMemory) }
{
    let len = match mark {
        None => 0,
        Some(at) => at.saved,
    };
    buffers_of(alloc, len)
}

/// What opening takes before its first write, with all on the disk that the three have.
fn get_ready<D: Device, T: TextStore, A: Allocator + Clone>(
    alloc: &A,
    devices: &mut Devices<D, T>,
    torn: Torn,
) -> Result<Buffers<A>, SessionFault>
    requires countable { AreBelow D.Device T.TextStore u64.MAX devices.old }
    ensures lengths { D.faithful devices.old.image → (text : List ℕ) (r : Reading) → IsTorn text r torn
        → OnOk result (HaveLengths r.entries (image_at r.stage (D.image devices.old.image))) }
    ensures fault { FaultsOfTorn D.Device devices.old.image torn result }
    ensures kind { IfErr result (LookFault ⊥ [] []) }
    ensures room { OnOk result (HasRoomToRestore torn.mark (D.room devices.new.image)) }
    ensures buffers { IfOk result (HasBuffersFor torn.mark) }
    ensures settled { D.faithful devices.old.image → T.faithful devices.old.journal → T.faithful devices.old.redo
        → OnOk result (AreSettled D.Device T.TextStore devices.new) }
    ensures stayed { HaveStayed D.Device T.TextStore devices.old devices.new }
    ensures found_before { FoundBefore D.Device T.TextStore devices.old devices.new }
    ensures no_failure { AreUnfailed D.Device T.TextStore devices.old devices.new result }
    ensures counts { AreCounted D.Device T.TextStore devices.old devices.new result }
{
    let buffers = match buffers_for(alloc, torn.mark) {
        Ok(buffers) => buffers,
        Err(fault) => return Err(fault),
    };
    if let Err(fault) = prepare(&mut devices.image, torn) {
        return Err(fault);
    }
    match settle(devices) {
        Ok(()) => Ok(buffers),
        Err(_) => Err(SessionFault::DeviceFailed),
    }
}

/// Takes back what is unfinished at the end of a journal.
pub fn recover_read<D: Device, T: TextStore, A: Allocator + Clone>(
    alloc: &A,
    devices: &mut Devices<D, T>,
    torn: Torn,
) -> Result<Recovered, SessionFault>
    requires countable { AreBelow D.Device T.TextStore u64.MAX devices.old }
    requires found { IsUnfinishedIn (T.faithful devices.old.journal) (T.text devices.old.journal) torn }
    ensures opened { Opens D.Device T.TextStore devices.old devices.new result }
    ensures left { LeavesRead T.TextStore devices.old.journal devices.new.journal result }
    ensures unclean { IfOk result (λ o. (o.how ≡ RecoveryOutcome.Clean → ⊥) × (o.undone ≡ 0)) }
    ensures sum { IfOk result (λ o. o.changes + o.undone ≤ 65535) }
    ensures faults { FaultsAsRead D.Device T.TextStore devices.old result }
    ensures kind { IfErr result RecoverFault }
    ensures differs { IsLengthRefused D.Device T.TextStore devices.old result }
    ensures keeps { KeepsPair D.Device T.TextStore devices.old devices.new result }
    ensures counted { CountsStack D.Device T.TextStore devices.old result }
    ensures refused { SparesPair D.Device T.TextStore devices.old devices.new result }
    ensures empties { EmptiesRedo T.TextStore devices.old devices.new result }
    ensures settled { OfAll D.Device T.TextStore devices.old (OnOk result (AreSettled D.Device T.TextStore devices.new)) }
    ensures found_before { IfErr result (λ e. AfterFault e (Unit {0}) (FoundBefore D.Device T.TextStore devices.old devices.new)) }
    ensures redo_same { T.faithful devices.old.redo → IfErr result (λ e. AfterFault e (Unit {0}) (T.text devices.new.redo ≡ T.text devices.old.redo)) }
    ensures survives { OfAll D.Device T.TextStore devices.old (RecoverySurvives D.Device T.TextStore result (λ o. Unit {0}) (λ e. e) devices.old devices.new) }
    ensures calls { CallsCount D.Device T.TextStore devices.old devices.new result }
{
    let mut buffers = match get_ready(alloc, devices, torn) {
        Ok(buffers) => buffers,
        Err(fault) => return Err(fault),
    };
    match finish(devices, &mut buffers, torn) {
        Ok(found) => Ok(found),
        Err(_) => Err(SessionFault::Interrupted),
    }
}
