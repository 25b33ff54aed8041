//! What cases do with a world in memory between runs.
ghost use Rattle.std.specs.Prelude.{◌≡◌, ◌==◌, ◌<◌, List, ℕ, length, not, None, IfOk, OnOk};
ghost use Rattle.bx_image.specs.Power.{Only};
ghost use Rattle.test_world.specs.Loss.{HasLost};
ghost use Rattle.test_world.specs.MemoryFiles.{bytes_at, synced_at};

use crate::memory::files::{Contents, Entry, Leads, Stored, copy_of_disk, file_named};
use crate::memory::refusals::Refusals;
use crate::memory::{MemoryWorld, Plan};
use bx_text::{Name, NoMemory};
use bx_world::{Stat, World};
use std::alloc::Global;

/// A copy of bytes.
fn copy_of(alloc: Global, bytes: &[u8]) -> Result<Vec<u8>, NoMemory>
    ensures { IfOk result (λ copy. copy.items ≡ bytes.now) }
{
    Vec::from_slice(alloc, bytes).map_err(|_| NoMemory)
}

/// Gives a file what is on its disk.
fn lose(alloc: Global, files: &mut [Stored], number: usize) -> Result<(), NoMemory>
    requires { number < length files.old }
    ensures lost { OnOk result (HasLost number files.old files.new) }
{
    let bytes = copy_of_disk(alloc, files, number).map_err(|_| NoMemory)?;
    files[number].contents.bytes = bytes;
    Ok(())
}

/// Gives each file what is on its disk.
fn lose_all(alloc: Global, files: &mut [Stored]) -> Result<(), NoMemory>
    ensures lost { OnOk result ((i : ℕ) → bytes_at files.new i ≡ synced_at files.old i) }
{
    for number in 0..files.len() {
        lose(alloc, files, number)?;
    }
    Ok(())
}

impl MemoryWorld {
    /// Gives a name to what it leads to; it is the newest of that name.
    fn put_entry(&mut self, name: &str, leads: Leads) -> Result<(), NoMemory> {
        let text = String::from_str(self.alloc, name).map_err(|_| NoMemory)?;
        let name = Name::from_string(text);
        let entry = Entry { name, leads };
        self.entries.insert(0, entry).map_err(|_| NoMemory)?;
        Ok(())
    }

    /// Puts a file there, which is on its disk.
    pub fn put_file(&mut self, name: &str, bytes: &[u8], stat: Stat) -> Result<(), NoMemory> {
        let contents = Contents {
            bytes: copy_of(self.alloc, bytes)?,
            synced: copy_of(self.alloc, bytes)?,
        };
        let number = self.files.len();
        let stored = Stored {
            contents,
            stat,
            is_gone: false,
        };
        self.files.push(stored).map_err(|_| NoMemory)?;
        self.put_entry(name, Leads::File(number))
    }

    /// Puts a symbolic link there.
    pub fn put_link(&mut self, name: &str, target: &str) -> Result<(), NoMemory> {
        let text = String::from_str(self.alloc, target).map_err(|_| NoMemory)?;
        self.put_entry(name, Leads::Link(Name::from_string(text)))
    }

    /// Gives the file of a name a second one. How many names it has is what its case says of it.
    pub fn put_name(&mut self, name: &str, of: &str) -> Result<(), NoMemory> {
        match file_named(self.files.as_slice(), self.entries.as_slice(), of) {
            Some(number) => self.put_entry(name, Leads::File(number)),
            None => Ok(()),
        }
    }

    /// Puts a note there, which is on its disk. No bytes are none.
    ///
    /// # Errors
    /// `NoMemory`, and then the note is as it was.
    pub fn plant_note(&mut self, bytes: &[u8]) -> Result<(), NoMemory>
        ensures note { OnOk result (⟦<MemoryWorld as World>⟧.note self.new ≡ bytes.now) }
        ensures settled { OnOk result (Only bytes.now (⟦<MemoryWorld as World>⟧.note_survives self.new)) }
    {
        self.run.note = Contents {
            bytes: copy_of(self.alloc, bytes)?,
            synced: copy_of(self.alloc, bytes)?,
        };
        Ok(())
    }

    /// Begins a run, with nothing lent or written yet.
    pub fn begin(&mut self, plan: Plan)
        ensures free { (⟦<MemoryWorld as World>⟧.state self.new).lent ≡ None }
        ensures begun { (⟦<MemoryWorld as World>⟧.state self.new).before ≡ (⟦<MemoryWorld as World>⟧.state self.new).there }
        ensures calm { ⟦<MemoryWorld as World>⟧.refusals self.new ≡ 0 }
        ensures named { (m : List ℕ) → (⟦<MemoryWorld as World>⟧.state self.new).named m ≡ (⟦<MemoryWorld as World>⟧.state self.old).named m }
        ensures bytes { (i : ℕ) → (⟦<MemoryWorld as World>⟧.state self.new).bytes i ≡ (⟦<MemoryWorld as World>⟧.state self.old).bytes i }
        ensures note { ⟦<MemoryWorld as World>⟧.note self.new ≡ ⟦<MemoryWorld as World>⟧.note self.old }
    {
        self.run.lent = None;
        self.run.beside = None;
        self.run.before = self.files.len();
        self.run.output = Vec::new(self.alloc);
        self.run.errors = Vec::new(self.alloc);
        self.run.stuck = 0;
        self.run.refusals = Refusals::none();
        self.plan = plan;
    }

    /// Loses its power: each file has what is on its disk, and so has the note.
    ///
    /// # Errors
    /// `NoMemory`, and then some files have it, and some have not.
    pub fn lose_power(&mut self) -> Result<(), NoMemory>
        ensures files { OnOk result ((n : ℕ)
            → ⟦<MemoryWorld as World>⟧.survives self.old n ((⟦<MemoryWorld as World>⟧.state self.new).bytes n)) }
        ensures note { OnOk result (⟦<MemoryWorld as World>⟧.note_survives self.old (⟦<MemoryWorld as World>⟧.note self.new)) }
    {
        let alloc = self.alloc;
        lose_all(alloc, self.files.as_mut_slice())?;
        self.run.note.bytes = copy_of(alloc, self.run.note.synced.as_slice())?;
        Ok(())
    }

    /// What the file of a name has; none where it leads to none.
    pub fn bytes_of(&self, name: &str) -> Option<&[u8]> {
        let number = file_named(self.files.as_slice(), self.entries.as_slice(), name)?;
        let file = self.files.get(number)?;
        Some(file.contents.bytes.as_slice())
    }

    /// What the note has; nothing where it is missing.
    pub fn note(&self) -> &[u8]
        ensures { result.now ≡ ⟦<MemoryWorld as World>⟧.note self.now }
    {
        self.run.note.bytes.as_slice()
    }

    /// What was written to standard output.
    pub fn output(&self) -> &[u8]
        ensures { result.now ≡ (⟦<MemoryWorld as World>⟧.state self.now).output }
    {
        self.run.output.as_slice()
    }

    /// What was written to standard error.
    pub fn errors(&self) -> &[u8]
        ensures { result.now ≡ (⟦<MemoryWorld as World>⟧.state self.now).errors }
    {
        self.run.errors.as_slice()
    }

    /// How many files a call didn't take away since the run began.
    pub fn stuck(&self) -> u64
        ensures { result ≡ (⟦<MemoryWorld as World>⟧.state self.now).stuck }
    {
        self.run.stuck
    }

    /// Whether a call was refused since the run began. What failed of a device, or of the note, is none.
    pub fn was_refused(&self) -> bool
        ensures { result ≡ not (self.now.run.refusals.calls.number == 0) }
    {
        self.run.refusals.is_any()
    }
}
