//! The note of a world in memory.
ghost use Rattle.std.specs.Prelude.{◌≡◌, length, true, IfSome};
ghost use Rattle.bx_world.specs.World.{IsFrontRead};

use crate::memory::MemoryWorld;
use crate::memory::files::Contents;
use bx_world::Noted;
use std::alloc::Global;

/// What is on the disk of a note that gets these bytes: they, or what was there.
fn disk_of(alloc: Global, old: &Contents, bytes: &[u8], synced: bool) -> Option<Vec<u8>>
    ensures { synced ≡ true → IfSome result (λ disk. disk.items ≡ bytes.now) }
{
    if synced {
        return Vec::from_slice(alloc, bytes).ok();
    }
    Vec::from_slice(alloc, old.synced.as_slice()).ok()
}

/// A note that gets these bytes; none where a growth is refused.
fn note_of(alloc: Global, old: &Contents, bytes: &[u8], synced: bool) -> Option<Contents>
    ensures bytes { IfSome result (λ c. c.bytes.items ≡ bytes.now) }
    ensures synced { synced ≡ true → IfSome result (λ c. c.synced.items ≡ bytes.now) }
{
    let disk = disk_of(alloc, old, bytes, synced)?;
    let bytes = Vec::from_slice(alloc, bytes).ok()?;
    Some(Contents {
        bytes,
        synced: disk,
    })
}

impl MemoryWorld {
    ghost use Rattle.std.specs.Prelude.{[]};
    ghost use Rattle.test_world.specs.Memory.{PutsNote, note_of};
    ghost use Rattle.bx_world.specs.declared.world.Noted.TheVariants.{Put};

    /// Reads the first bytes of the note into a buffer, as many as it has room for.
    pub fn note_front(&self, buf: &mut [u8]) -> usize
        ensures within { length buf.new ≡ length buf.old }
        ensures read { IsFrontRead result (length buf.old) buf.new (note_of self.now) }
    {
        let bytes = self.run.note.bytes.as_slice();
        let count = buf.len().min(bytes.len());
        buf[..count].copy_from_slice(&bytes[..count]);
        count
    }

    /// Empties the note, unless its plan refuses that. What is on its disk stays.
    fn empty_note(&mut self) -> Noted
        ensures emptied { PutsNote result [] self.old self.new }
        ensures not_put { result ≡ Put → ⊥ }
    {
        if self.run.note.bytes.is_empty() {
            return Noted::Without;
        }
        if self.plan.calls.blows() {
            self.run.refusals.note_failure();
            return Noted::Stands;
        }
        self.run.note.bytes = Vec::new(self.alloc);
        Noted::Without
    }

    /// Puts bytes in place of the note. Where a growth is refused it is emptied, and so it is where its plan refuses the call.
    pub fn write_note(&mut self, bytes: &[u8], synced: bool) -> Noted
        ensures put { PutsNote result bytes.now self.old self.new }
        ensures synced { result ≡ Put → synced ≡ true → self.new.run.note.synced.items ≡ bytes.now }
    {
        if self.plan.calls.blows() {
            return self.empty_note();
        }
        match note_of(self.alloc, &self.run.note, bytes, synced) {
            Some(note) => {
                self.run.note = note;
                if bytes.is_empty() {
                    Noted::Without
                } else {
                    Noted::Put
                }
            }
            None => self.empty_note(),
        }
    }
}
