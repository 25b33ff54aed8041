//! What a change takes before its first write.
ghost use Rattle.std.specs.Prelude.{◌≡◌, ◌↔◌, ◌+◌, ◌<◌, ◌≤◌, [], length, IfOk, IfErr, OnOk, IsErrOf};
ghost use Rattle.bx_image.specs.Change.{effect, Fits};
ghost use Rattle.bx_journal_protocol.specs.before.Ready.{IsReadyChange};
ghost use Rattle.bx_journal_model.specs.Power.{FoundBefore};
ghost use Rattle.bx_journal_protocol.specs.write.Begun.{rest_of, IsOpenHead};
ghost use Rattle.bx_journal_model.specs.ThreeDevices.{AreCounted, AreUnfailed, HaveStayed};
ghost use Rattle.bx_journal_model.specs.Fault.{PrepareFault};
ghost use Rattle.bx_journal_protocol.specs.protocol.Written.{AreSettled};

use crate::before::head::begin_change;
use crate::{Head, settle};
use bx_image::{Change, Device, MAX_LEN, Span, check};
use bx_journal_format::{Words, entry_end};
use bx_journal_model::{Devices, SessionFault};
use bx_journal_store::TextStore;
use std::alloc::{Allocator, Global};

/// The ranges that the entry keeps, its head that is begun, and the line that ends it.
#[derive(Drop)]
pub struct Prepared<A: Allocator = Global> {
    pub ranges: Vec<Span, A>,
    pub head: Head<A>,
    pub end: Words,
}

/// Checks a change, looks at what it overwrites, makes room for it and for its entry of this number, begins the entry's text,
/// and puts on the disk what all three have. It changes nothing.
pub fn prepare_change<D: Device, T: TextStore, A: Allocator + Clone>(
    alloc: &A,
    devices: &mut Devices<D, T>,
    change: &Change<A>,
    number: u32,
) -> Result<Prepared<A>, SessionFault>
    requires image_countable { D.failures devices.old.image < u64.MAX }
    requires journal_countable { T.failures devices.old.journal < u64.MAX }
    requires redo_countable { T.failures devices.old.redo < u64.MAX }
    ensures head { IfOk result (λ p. IsOpenHead p.ranges.items p.head) }
    ensures some { IfOk result (λ p. 0 < length p.head.page.items) }
    ensures number { IfOk result (λ p. p.head.number ≡ number) }
    ensures prepared { D.faithful devices.old.image → IfOk result (IsReadyChange change.now (D.image devices.old.image) number) }
    ensures image_room { OnOk result (length (effect change.now []) ≤ D.room devices.new.image) }
    ensures text_room { T.faithful devices.old.journal
        → IfOk result (λ p. length (T.text devices.new.journal) + rest_of p.ranges.items p.head + length p.end ≤ T.room devices.new.journal) }
    ensures settled { D.faithful devices.old.image → T.faithful devices.old.journal → T.faithful devices.old.redo
        → OnOk result (AreSettled D.Device T.TextStore devices.new) }
    ensures large { D.faithful devices.old.image → IsErrOf result SessionFault.TooLarge → Fits change.now (length (D.image devices.old.image)) MAX_LEN → ⊥ }
    ensures fitting { D.faithful devices.old.image → IsErrOf result SessionFault.NoMemory → Fits change.now (length (D.image devices.old.image)) MAX_LEN }
    ensures kind { IfErr result PrepareFault }
    ensures stayed { HaveStayed D.Device T.TextStore devices.old devices.new }
    ensures found_before { FoundBefore D.Device T.TextStore devices.old devices.new }
    ensures no_failure { AreUnfailed D.Device T.TextStore devices.old devices.new result }
    ensures counts { AreCounted D.Device T.TextStore devices.old devices.new result }
{
    let len = devices.image.len()?;
    let after = check(change, len)?;
    let begun = begin_change(alloc, &mut devices.image, change, number, len)?;
    let end = entry_end(number, after);
    devices.image.reserve(after)?;
    let text_len = devices.journal.len()?;
    let most = text_len
        .saturating_add(begun.len)
        .saturating_add(end.as_bytes().len() as u64);
    devices.journal.reserve(most)?;
    settle(devices)?;
    Ok(Prepared {
        ranges: begun.ranges,
        head: begun.head,
        end,
    })
}
