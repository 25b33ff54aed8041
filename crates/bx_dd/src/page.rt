//! Output that waits in a page.
ghost use Rattle.std.specs.Prelude.{◌≡◌, ℕ, ◌+◌, ◌<◌, ◌≤◌, [], ◌++◌, length, replicate, vec_capacity, IfOk, IfErr, OnOk};
ghost use Rattle.std.specs.Io.KnownBytes.{Appends};
ghost use Rattle.bx_text.specs.Writing.{WritesFront};
ghost use Rattle.bx_dd.specs.private.Streaming.{Grows, written_by};

use bx_text::{IoFault, emit_after};
use std::alloc::{Allocator, Global};
use std::io::Write;

/// The most bytes that are written.
const LIMIT: u64 = 1 << 63;

/// The most bytes that wait.
pub const PAGE: usize = 131072;

/// How many spaces are put at once.
const SPACES: usize = 1024;

/// What waits to be written, and how much went out before it.
#[derive(Drop)]
pub struct Page<A: Allocator = Global> {
    /// What waits, at most 131,072 bytes. Its room is that of the page.
    pub bytes: Vec<u8, A>,
    /// How many bytes went out, at most 2^63.
    pub written: u64,
    ghost few: { written ≤ 9223372036854775808 },
    ghost near: { length bytes.items ≤ 131072 },
}

impl<A: Allocator> Page<A> {
    ghost use Rattle.bx_dd.specs.private.Paged.{Flushes, Puts, StopsFlush, StopsPut};

    /// A page without room, after `written` bytes that went out: what is put goes out at once.
    pub fn direct(alloc: A, written: u64) -> Page<A>
        requires { written ≤ 9223372036854775808 }
        ensures bytes { result.bytes.items ≡ [] }
        ensures written { result.written ≡ written }
    {
        Page {
            bytes: Vec::new(alloc),
            written,
        }
    }

    /// Puts bytes behind what waits. A page that has no room for them goes out first.
    pub fn put<W: Write>(&mut self, w: &mut W, bytes: &[u8]) -> Result<(), IoFault>
        ensures ok { Puts (W.contents w.old) (W.contents w.new) self.old self.new bytes.now result }
        ensures err { StopsPut (W.contents w.old) (W.contents w.new) self.old bytes.now result }
        ensures grows { Grows self.old.written self.new.written result }
    {
        if self.bytes.len() + bytes.len() < self.bytes.capacity().min(PAGE) {
            keep(&mut self.bytes, bytes);
            return Ok(());
        }
        match self.flush(w) {
            Ok(()) => {}
            Err(fault) => return Err(fault),
        }
        if bytes.len() < self.bytes.capacity().min(PAGE) {
            keep(&mut self.bytes, bytes);
            return Ok(());
        }
        match send(w, self.written, bytes) {
            Ok(written) => {
                self.written = written;
                Ok(())
            }
            Err(fault) => Err(fault),
        }
    }

    /// Writes what waits.
    pub fn flush<W: Write>(&mut self, w: &mut W) -> Result<(), IoFault>
        ensures none { OnOk result (self.new.bytes.items ≡ []) }
        ensures ok { Flushes (W.contents w.old) (W.contents w.new) self.old self.new result }
        ensures err { StopsFlush (W.contents w.old) (W.contents w.new) self.old result }
        ensures grows { Grows self.old.written self.new.written result }
    {
        match send(w, self.written, self.bytes.as_slice()) {
            Ok(written) => {
                self.written = written;
                self.bytes.clear();
                Ok(())
            }
            Err(fault) => Err(fault),
        }
    }

    /// Puts `count` spaces.
    pub fn put_spaces<W: Write>(&mut self, w: &mut W, count: usize) -> Result<(), IoFault>
        ensures ok { Puts (W.contents w.old) (W.contents w.new) self.old self.new (replicate count 32) result }
        ensures err { StopsPut (W.contents w.old) (W.contents w.new) self.old (replicate count 32) result }
        ensures grows { Grows self.old.written self.new.written result }
    {
        let spaces = [b' '; SPACES];
        let mut done = 0;
        while done < count {
            let n = (count - done).min(SPACES);
            match self.put(w, &spaces[..n]) {
                Ok(()) => done += n,
                Err(fault) => return Err(fault),
            }
        }
        Ok(())
    }
}

/// Writes bytes after `written` others, and answers how many those are together.
fn send<W: Write>(w: &mut W, written: u64, bytes: &[u8]) -> Result<u64, IoFault>
    requires { written ≤ 9223372036854775808 }
    ensures sum { IfOk result (λ n. (n ≡ written + length bytes.now) × (n ≤ 9223372036854775808)) }
    ensures ok { OnOk result (Appends (W.contents w.old) (W.contents w.new) bytes.now) }
    ensures err { IfErr result (WritesFront written (W.contents w.old) (W.contents w.new) bytes.now) }
    ensures least { IfErr result (λ e. written ≤ written_by e) }
{
    if bytes.len() as u64 > LIMIT - written {
        return Err(IoFault::WriteFailed { written });
    }
    match emit_after(w, written, bytes) {
        Ok(()) => Ok(written + bytes.len() as u64),
        Err(fault) => Err(fault),
    }
}

/// Appends bytes that there is room for.
pub fn keep<A: Allocator>(kept: &mut Vec<u8, A>, bytes: &[u8])
    requires { length kept.old.items + length bytes.now ≤ vec_capacity kept.old }
    ensures items { kept.new.items ≡ kept.old.items ++ bytes.now }
    ensures space { vec_capacity kept.old ≤ vec_capacity kept.new }
{
    kept.extend_from_slice(bytes).unwrap();
}
