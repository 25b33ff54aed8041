//! Plain hexadecimal that is read window by window, so that no more than a window of the text is held.
ghost use Rattle.std.specs.Prelude.{◌≡◌, ◌+◌, ◌^◌, ◌<◌, ◌≤◌, ◌++◌, [], ℕ, List, length, Ok, MatchResult, IfOk};
ghost use Rattle.bx_read.specs.Plain.{plain_answer};

mod digits;

use crate::fault::ReadFault;
use crate::plain_window::digits::DigitsRead;
use std::alloc::{AllocError, Allocator, Global};
use std::marker::Model;

/// What was read so far of plain hexadecimal whose text comes in windows, which may be cut anywhere: contracts see it as a `PlainView`.
#[derive(Drop)]
pub struct PlainRead<A: Allocator = Global> {
    read: DigitsRead<A>,
}

impl<A: Allocator> Model for PlainRead<A> {
    ghost use Rattle.bx_read.specs.PlainWindow.{PlainView};

    ghost Value = { PlainView };

    ghost view = { λ r. record { bytes = r.read.bytes.items; half = r.read.half; passed = r.read.passed; last = r.read.last; fault = r.read.fault } };
}

impl<A: Allocator> PlainRead<A> {
    ghost use Rattle.bx_read.specs.PlainWindow.{HasReadPlain, IsPlainFault};

    /// Nothing was read yet.
    pub fn new(alloc: A) -> PlainRead<A>
        ensures read { HasReadPlain [] result }
        ensures count { result.passed ≡ 0 }
    {
        PlainRead {
            read: DigitsRead::begin(Vec::new(alloc)),
        }
    }

    /// The same with room for `count` bytes at once, where there is as much memory; else it grows as it reads.
    pub(crate) fn with_room(alloc: A, count: usize) -> PlainRead<A>
        ensures read { HasReadPlain [] result }
        ensures count { result.passed ≡ 0 }
    {
        let mut bytes = Vec::new(alloc);
        let _ = bytes.reserve_exact(count);
        PlainRead {
            read: DigitsRead::begin(bytes),
        }
    }

    /// The same with room for `capacity` bytes, without another growth.
    pub(crate) fn with_capacity(alloc: A, capacity: usize) -> Result<PlainRead<A>, AllocError>
        ensures read { IfOk result (λ read. HasReadPlain [] read) }
        ensures count { IfOk result (λ read. read.passed ≡ 0) }
    {
        Ok(PlainRead {
            read: DigitsRead::begin(Vec::with_capacity(alloc, capacity)?),
        })
    }

    /// Reads the next window of the text. After a fault, a byte that doesn't belong, nothing more is read.
    pub fn read_window(&mut self, window: &[u8])
        requires countable { self.old.passed + length window.now < 2 ^ 64 }
        ensures read { (text : List ℕ) → HasReadPlain text self.old → HasReadPlain (text ++ window.now) self.new }
        // No more newlines are passed than bytes.
        ensures count { self.new.passed ≤ self.old.passed + length window.now }
    {
        self.read.read_window(window);
    }

    /// What stopped the reading: a byte that doesn't belong, or want of memory.
    pub fn fault(&self) -> Option<ReadFault>
        ensures { result ≡ self.now.fault }
    {
        self.read.fault
    }

    /// The bytes of the text that was given: what `read_plain` answers of it as one text.
    pub fn finish(self) -> Result<Vec<u8, A>, ReadFault>
        ensures exact { (text : List ℕ) → HasReadPlain text self → MatchResult result (λ v. plain_answer text ≡ Ok v.items) (IsPlainFault text) }
    {
        self.read.finish()
    }
}
