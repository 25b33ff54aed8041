//! Dumps that are read window by window, so that no more of the text is held than can still matter.
ghost use Rattle.std.specs.Prelude.{◌≡◌, ◌+◌, ◌^◌, ◌<◌, ◌≤◌, ◌++◌, [], ℕ, List, length, MatchResult, IfOk, IfErr};

mod joining;
mod lines;
mod unfinished;

use crate::fault::ReadFault;
use crate::window::lines::LinesRead;
use bx_text::Piece;
use std::alloc::{Allocator, Global};
use std::marker::Model;

/// What was read so far of a dump whose text comes in windows, which may be cut anywhere: contracts see it as a `DumpView`.
#[derive(Drop)]
pub struct DumpRead<A: Allocator = Global> {
    read: LinesRead<A>,
    // what stopped the reading
    fault: Option<ReadFault>,
}

impl<A: Allocator> Model for DumpRead<A> {
    ghost use Rattle.bx_read.specs.Text.{contents};
    ghost use Rattle.bx_read.specs.Window.{DumpView};

    ghost Value = { DumpView };

    ghost view = { λ r. record { runs = contents r.read.runs.items; lines = r.read.lines; held = r.read.held.items; fault = r.fault } };
}

impl<A: Allocator + Clone> DumpRead<A> {
    ghost use Rattle.bx_read.specs.Window.{ArePiecesRuns, IsDumpFault, HasReadDump};

    /// Nothing was read yet.
    pub fn new(alloc: &A) -> Result<DumpRead<A>, ReadFault>
        ensures read { IfOk result (HasReadDump []) }
        ensures count { IfOk result (λ r. r.lines + length r.held ≡ 0) }
        ensures fault { IfErr result (λ e. e ≡ ReadFault.NoMemory) }
    {
        Ok(DumpRead {
            read: LinesRead::new(alloc)?,
            fault: None,
        })
    }

    /// Reads the next window of the text. Of a line that is not whole yet no more is held than can still matter. After a fault, which
    /// is that of the first faulty line, nothing more is read.
    pub fn read_window(&mut self, alloc: &A, window: &[u8])
        requires countable { self.old.lines + length self.old.held + length window.now < 2 ^ 64 }
        ensures read { (text : List ℕ) → HasReadDump text self.old → HasReadDump (text ++ window.now) self.new }
        // Lines, and the bytes that are held, are together no more than the bytes that were given.
        ensures count { self.new.lines + length self.new.held ≤ self.old.lines + length self.old.held + length window.now }
        // However long a line is, little of it is held.
        ensures few { length self.old.held ≤ 1024 → length self.new.held ≤ 1024 }
    {
        if self.fault.is_some() {
            return;
        }
        match self.read.take_window(alloc, window) {
            Ok(()) => {}
            Err(fault) => {
                self.read.held.clear();
                self.fault = Some(fault);
            }
        }
    }

    /// What stopped the reading: the fault of the first faulty line, or want of memory.
    pub fn fault(&self) -> Option<ReadFault>
        ensures { result ≡ self.now.fault }
    {
        self.fault
    }

    /// The runs of the text that was given, whose last newline may be missing: what `read_runs` answers of it as one text.
    pub fn finish(self, alloc: &A) -> Result<Vec<Piece<A>, A>, ReadFault>
        requires countable { self.lines + length self.held < 2 ^ 64 }
        ensures exact { (text : List ℕ) → HasReadDump text self → MatchResult result (λ v. ArePiecesRuns text v.items) (IsDumpFault text) }
    {
        let DumpRead { read, fault } = self;
        if let Some(fault) = fault {
            return Err(fault);
        }
        read.take_last(alloc)
    }
}
