//! Restoring a record from the text in which it stands, a window at a time: nothing of it is held. All memory is taken before.
ghost use Rattle.std.specs.Prelude.{◌≡◌, ◌↔◌, ◌+◌, ◌-◌, ◌<◌, ◌≤◌, List, ℕ, length, map, All, IfOk, IfErr, OnOk, OnErr, is_err, vec_capacity};
ghost use Rattle.bx_image.specs.Change.{placed, restore, KeepsUnmapped};
ghost use Rattle.bx_image.specs.Device.{GoesOn};
ghost use Rattle.bx_image.specs.Image.{cut};
ghost use Rattle.bx_image.specs.Power.{Follows, NoMore, Only};
ghost use Rattle.bx_journal_format.specs.Kept.{Kept};
ghost use Rattle.bx_journal_format.specs.count.Parts.{LiesIn, part_run};
ghost use Rattle.bx_journal_model.specs.Looking.{OneMore};
ghost use Rattle.bx_journal_protocol.specs.protocol.Fading.{AllKeepUnmapped};
ghost use Rattle.bx_journal_model.specs.Phase.{StaysOpen};
ghost use Rattle.bx_journal_model.specs.Restoring.{AreNamed, IsRestoredTo, IsEnough, Names, RestoresWindow, StandsAt};

use crate::protocol::image::{restore_len, restore_part};
use bx_image::{Device, DeviceFailed};
use bx_journal_format::{Part, parts_in};
use bx_journal_model::{Mark, SessionFault, enough_of, passed, read_cut};
use bx_journal_store::TextStore;
use std::alloc::{Allocator, Global};

/// What restoring a record takes before its first write: a window of its text, and the parts of one.
#[derive(Drop)]
pub struct Buffers<A: Allocator = Global> {
    pub window: Vec<u8, A>,
    pub parts: Vec<Part, A>,
}

/// No saved line that `bx` writes is shorter, its newline included.
const SHORTEST_LINE: usize = 53;

/// What restoring takes from a text of `len` bytes.
pub fn buffers_of<A: Allocator + Clone>(alloc: &A, len: u64) -> Result<Buffers<A>, SessionFault>
    ensures window { IfOk result (λ b. IsEnough (length b.window.items)) }
    ensures parts { IfOk result (λ b. 0 < vec_capacity b.parts) }
    ensures kind { IfErr result (λ e. e ≡ SessionFault.NoMemory) }
{
    let size = enough_of(len) as usize;
    let window = vec![in alloc.clone()?; 0u8; size]?;
    let parts = Vec::with_capacity(alloc.clone()?, size / SHORTEST_LINE + 1)?;
    Ok(Buffers { window, parts })
}

/// Writes the parts of a window to an image of at most this length.
fn restore_parts<D: Device>(
    image: &mut D,
    len: u64,
    window: &[u8],
    parts: &[Part],
) -> Result<(), DeviceFailed>
    requires countable { D.failures image.old < u64.MAX }
    requires room { len ≤ D.room image.old }
    requires lie { All (LiesIn (length window.now) len) parts.now }
    ensures ok { D.faithful image.old → OnOk result (D.image image.new ≡ placed (map (part_run window.now) parts.now) (D.image image.old)) }
    ensures keeps { D.faithful image.old → (r : Kept) → AreNamed r (map (part_run window.now) parts.now)
        → KeepsUnmapped r (D.image image.old) (D.image image.new) }
    ensures survives { D.faithful image.old → (r : Kept) → AreNamed r (map (part_run window.now) parts.now)
        → Follows (KeepsUnmapped r) (D.survives image.old) (D.survives image.new) }
    ensures goes_on { GoesOn D.faithful D.room D.failures (is_err result) image.old image.new }
{
    for part in parts {
        let (_, behind) = window.split_at(part.from);
        let (bytes, _) = behind.split_at(part.count);
        restore_part(image, part.at, bytes)?;
    }
    Ok(())
}

/// Restores the saved lines of a window at a place, and tells how many bytes of text they are.
fn restore_window<D: Device, T: TextStore, A: Allocator>(
    image: &mut D,
    from: &mut T,
    window: &mut [u8],
    parts: &mut Vec<Part, A>,
    at: u64,
    mark: Mark,
) -> Result<u64, DeviceFailed>
    requires image_countable { D.failures image.old < u64.MAX }
    requires journal_countable { T.failures from.old < u64.MAX }
    requires room { mark.len ≤ D.room image.old }
    requires within { T.faithful from.old → mark.saved ≤ length (T.text from.old) }
    requires below { at ≤ mark.saved }
    requires window { IsEnough (length window.old) }
    ensures below { IfOk result (λ n. at + n ≤ mark.saved) }
    ensures restored { D.faithful image.old → T.faithful from.old → (text : List ℕ) → T.text from.old ≡ text → IfOk result (λ n. RestoresWindow text mark.len
        (mark.saved - at) (vec_capacity parts.old) at n (D.image image.old) (D.image image.new)) }
    ensures keeps { D.faithful image.old → T.faithful from.old → (text : List ℕ) → T.text from.old ≡ text → (s r : Kept) (stands : StandsAt text mark s)
        → Names r s → (x : List ℕ) → IsRestoredTo text stands.entries stands.version mark.len at x (D.image image.old)
        → KeepsUnmapped r (D.image image.old) (D.image image.new) × Follows (KeepsUnmapped r) (D.survives image.old) (D.survives image.new) }
    ensures long { D.faithful image.old → length (D.image image.old) ≡ mark.len → OnOk result (length (D.image image.new) ≡ mark.len) }
    ensures text { T.faithful from.old → T.text from.new ≡ T.text from.old }
    ensures text_survives { T.faithful from.old → NoMore (T.survives from.old) (T.survives from.new) }
    ensures window { length window.new ≡ length window.old }
    ensures parts { vec_capacity parts.old ≤ vec_capacity parts.new }
    ensures image_faith { D.faithful image.new ↔ D.faithful image.old }
    ensures journal_faith { T.faithful from.new ↔ T.faithful from.old }
    ensures no_less_room { D.room image.old ≤ D.room image.new }
    ensures no_failure { OnOk result ((D.failures image.new ≡ D.failures image.old) × (T.failures from.new ≡ T.failures from.old)) }
    ensures failure { OnErr result (OneMore (D.failures image.old) (T.failures from.old) (D.failures image.new) (T.failures from.new)) }
{
    let cut = read_cut(from, window, at, mark.saved)?;
    let (now, _) = window.split_at_mut(cut.count);
    let taken = parts_in(mark.len, now, parts);
    restore_parts(image, mark.len, now, parts)?;
    Ok(passed(cut, taken))
}

/// Restores the saved lines of a record, a window at a time. It ends where a window begins with another line: in a text that is as it was
/// when its record was found, that is the `save` line.
fn restore_lines<D: Device, T: TextStore, A: Allocator>(
    image: &mut D,
    from: &mut T,
    window: &mut [u8],
    parts: &mut Vec<Part, A>,
    mark: Mark,
) -> Result<(), DeviceFailed>
    requires image_countable { D.failures image.old < u64.MAX }
    requires journal_countable { T.failures from.old < u64.MAX }
    requires room { mark.len ≤ D.room image.old }
    requires within { T.faithful from.old → mark.saved ≤ length (T.text from.old) }
    requires order { mark.lines ≤ mark.saved }
    requires window { IsEnough (length window.old) }
    requires parts { 0 < vec_capacity parts.old }
    ensures ok { D.faithful image.old → T.faithful from.old → (s : Kept) → StandsAt (T.text from.old) mark s → (x : List ℕ) → D.image image.old ≡ cut x mark.len
        → OnOk result (D.image image.new ≡ restore s x) }
    ensures keeps { D.faithful image.old → T.faithful from.old → (s r : Kept) → StandsAt (T.text from.old) mark s → Names r s
        → KeepsUnmapped r (D.image image.old) (D.image image.new) × Follows (KeepsUnmapped r) (D.survives image.old) (D.survives image.new) }
    ensures long { D.faithful image.old → length (D.image image.old) ≡ mark.len → OnOk result (length (D.image image.new) ≡ mark.len) }
    ensures text { T.faithful from.old → T.text from.new ≡ T.text from.old }
    ensures text_survives { T.faithful from.old → NoMore (T.survives from.old) (T.survives from.new) }
    ensures window { length window.new ≡ length window.old }
    ensures parts { vec_capacity parts.old ≤ vec_capacity parts.new }
    ensures image_faith { D.faithful image.new ↔ D.faithful image.old }
    ensures journal_faith { T.faithful from.new ↔ T.faithful from.old }
    ensures no_less_room { D.room image.old ≤ D.room image.new }
    ensures no_failure { OnOk result ((D.failures image.new ≡ D.failures image.old) × (T.failures from.new ≡ T.failures from.old)) }
    ensures failure { OnErr result (OneMore (D.failures image.old) (T.failures from.old) (D.failures image.new) (T.failures from.new)) }
{
    let mut at = mark.lines;
    while at < mark.saved {
        let taken = restore_window(image, from, window, parts, at, mark)?;
        if taken == 0 {
            return Ok(());
        }
        at += taken;
    }
    Ok(())
}

/// Restores the record that stands in a text, and puts it on the disk: gives the image its length, and then the bytes of its saved
/// lines, which are read a window at a time. Whatever it answers, each byte stays that the record leaves out, also after a loss of power; so
/// a pair that is open on it stays open.
pub fn restore_windows<D: Device, T: TextStore, A: Allocator>(
    image: &mut D,
    from: &mut T,
    window: &mut [u8],
    parts: &mut Vec<Part, A>,
    mark: Mark,
) -> Result<(), DeviceFailed>
    requires image_countable { D.failures image.old < u64.MAX }
    requires journal_countable { T.failures from.old < u64.MAX }
    requires room { mark.len ≤ D.room image.old }
    requires within { T.faithful from.old → mark.saved ≤ length (T.text from.old) }
    requires order { mark.lines ≤ mark.saved }
    requires window { IsEnough (length window.old) }
    requires parts { 0 < vec_capacity parts.old }
    ensures ok { D.faithful image.old → T.faithful from.old → (s : Kept) → StandsAt (T.text from.old) mark s
        → OnOk result (D.image image.new ≡ restore s (D.image image.old)) }
    ensures keeps { D.faithful image.old → T.faithful from.old → (s r : Kept) → StandsAt (T.text from.old) mark s → Names r s
        → KeepsUnmapped r (D.image image.old) (D.image image.new) }
    ensures phase { D.faithful image.old → T.faithful from.old → (s r : Kept) → StandsAt (T.text from.old) mark s → Names r s
        → StaysOpen r (D.image image.old) (D.image image.new) }
    ensures settled { D.faithful image.old → OnOk result (Only (D.image image.new) (D.survives image.new)) }
    ensures survives { D.faithful image.old → T.faithful from.old → (s r : Kept) → StandsAt (T.text from.old) mark s → Names r s
        → Only (D.image image.old) (D.survives image.old) → AllKeepUnmapped r (D.image image.old) (D.survives image.new) }
    ensures long { D.faithful image.old → OnOk result (length (D.image image.new) ≡ mark.len) }
    ensures text { T.faithful from.old → T.text from.new ≡ T.text from.old }
    ensures text_survives { T.faithful from.old → NoMore (T.survives from.old) (T.survives from.new) }
    ensures window { length window.new ≡ length window.old }
    ensures parts { vec_capacity parts.old ≤ vec_capacity parts.new }
    ensures image_faith { D.faithful image.new ↔ D.faithful image.old }
    ensures journal_faith { T.faithful from.new ↔ T.faithful from.old }
    ensures no_less_room { D.room image.old ≤ D.room image.new }
    ensures no_failure { OnOk result ((D.failures image.new ≡ D.failures image.old) × (T.failures from.new ≡ T.failures from.old)) }
    ensures failure { OnErr result (OneMore (D.failures image.old) (T.failures from.old) (D.failures image.new) (T.failures from.new)) }
{
    restore_len(image, mark.len)?;
    restore_lines(image, from, window, parts, mark)?;
    image.sync()
}
