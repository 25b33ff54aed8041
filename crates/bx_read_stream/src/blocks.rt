//! Bytes that go out in blocks.
ghost use Rattle.std.specs.Prelude.{◌≡◌, ◌+◌, ◌^◌, ◌<◌, ◌≤◌, ◌++◌, [], ℕ, List, length, replicate, Option, IfOk, IfErr, OnOk};
ghost use Rattle.bx_read_stream.specs.Writing.{FailsIn};
ghost use Rattle.bx_read_stream.specs.private.Blocks.{IsPending};

use bx_text::{IoFault, emit_after};
use std::alloc::{AllocError, Allocator};
use std::io::Write;

/// How many bytes are gathered at least before they are written.
const BLOCK: usize = 65536;

/// Zeros, as many as are put at a time.
const ZEROS: [u8; 4096] = [0; 4096];

/// Bytes that wait until a block is full.
#[derive(Drop)]
pub struct Blocks<A: Allocator> {
    /// How many bytes were written.
    pub sent: u64,
    /// The bytes behind them.
    pub pending: Vec<u8, A>,
}

impl<A: Allocator> Blocks<A> {
    /// Nothing was put yet.
    pub fn new(alloc: A) -> Result<Blocks<A>, AllocError>
        ensures sent { IfOk result (λ b. b.sent ≡ 0) }
        ensures pending { IfOk result (λ b. b.pending.items ≡ []) }
    {
        let pending = Vec::with_capacity(alloc, 2 * BLOCK)?;
        Ok(Blocks { sent: 0, pending })
    }

    /// How many bytes were put.
    #[inline]
    pub fn len(&self) -> u64
        requires { self.now.sent + length self.now.pending.items < 2 ^ 64 }
        ensures { result ≡ self.now.sent + length self.now.pending.items }
    {
        self.sent + self.pending.len() as u64
    }

    /// Puts bytes behind the others.
    #[inline]
    pub fn push<W: Write>(&mut self, w: &mut W, bytes: &[u8]) -> Result<(), IoFault>
        requires { self.old.sent + length self.old.pending.items + length bytes.now < 2 ^ 64 }
        ensures ok { OnOk result ((w0 : Option (List ℕ)) (x : List ℕ) → IsPending w0 (W.contents w.old) self.old.sent self.old.pending.items x
            → IsPending w0 (W.contents w.new) self.new.sent self.new.pending.items (x ++ bytes.now)) }
        ensures err { IfErr result (λ e. (w0 : Option (List ℕ)) (x : List ℕ) → IsPending w0 (W.contents w.old) self.old.sent self.old.pending.items x
            → FailsIn w0 (W.contents w.new) (x ++ bytes.now) e) }
        ensures count { OnOk result (self.new.sent + length self.new.pending.items ≡ self.old.sent + length self.old.pending.items + length bytes.now) }
    {
        if self.pending.extend_from_slice(bytes).is_err() {
            return Err(IoFault::NoMemory);
        }
        if self.pending.len() < BLOCK {
            return Ok(());
        }
        self.flush(w)
    }

    /// Puts zeros behind the others.
    pub fn push_zeros<W: Write>(&mut self, w: &mut W, count: u64) -> Result<(), IoFault>
        requires { self.old.sent + length self.old.pending.items + count < 2 ^ 64 }
        ensures ok { OnOk result ((w0 : Option (List ℕ)) (x : List ℕ) → IsPending w0 (W.contents w.old) self.old.sent self.old.pending.items x
            → IsPending w0 (W.contents w.new) self.new.sent self.new.pending.items (x ++ replicate count 0)) }
        ensures err { IfErr result (λ e. (w0 : Option (List ℕ)) (x : List ℕ) → IsPending w0 (W.contents w.old) self.old.sent self.old.pending.items x
            → FailsIn w0 (W.contents w.new) (x ++ replicate count 0) e) }
        ensures count { OnOk result (self.new.sent + length self.new.pending.items ≡ self.old.sent + length self.old.pending.items + count) }
    {
        let mut done = 0;
        while done < count {
            let part = (count - done).min(4096) as usize;
            match self.push(w, &ZEROS[..part]) {
                Ok(()) => done += part as u64,
                Err(fault) => return Err(fault),
            }
        }
        Ok(())
    }

    /// Puts zeros and then bytes behind the others.
    #[inline]
    pub fn push_behind<W: Write>(
        &mut self,
        w: &mut W,
        gap: u64,
        bytes: &[u8],
    ) -> Result<(), IoFault>
        requires { self.old.sent + length self.old.pending.items + gap + length bytes.now < 2 ^ 64 }
        ensures ok { OnOk result ((w0 : Option (List ℕ)) (x : List ℕ) → IsPending w0 (W.contents w.old) self.old.sent self.old.pending.items x
            → IsPending w0 (W.contents w.new) self.new.sent self.new.pending.items (x ++ replicate gap 0 ++ bytes.now)) }
        ensures err { IfErr result (λ e. (w0 : Option (List ℕ)) (x : List ℕ) → IsPending w0 (W.contents w.old) self.old.sent self.old.pending.items x
            → FailsIn w0 (W.contents w.new) (x ++ replicate gap 0 ++ bytes.now) e) }
        ensures count { OnOk result (self.new.sent + length self.new.pending.items ≡ self.old.sent + length self.old.pending.items + gap + length bytes.now) }
    {
        match self.push_zeros(w, gap) {
            Ok(()) => {}
            Err(fault) => return Err(fault),
        }
        match self.push(w, bytes) {
            Ok(()) => Ok(()),
            Err(fault) => Err(fault),
        }
    }

    /// Writes what is pending.
    pub fn flush<W: Write>(&mut self, w: &mut W) -> Result<(), IoFault>
        requires { self.old.sent + length self.old.pending.items < 2 ^ 64 }
        ensures ok { OnOk result ((w0 : Option (List ℕ)) (x : List ℕ) → IsPending w0 (W.contents w.old) self.old.sent self.old.pending.items x
            → IsPending w0 (W.contents w.new) self.new.sent self.new.pending.items x) }
        ensures err { IfErr result (λ e. (w0 : Option (List ℕ)) (x : List ℕ) → IsPending w0 (W.contents w.old) self.old.sent self.old.pending.items x
            → FailsIn w0 (W.contents w.new) x e) }
        ensures none { OnOk result (self.new.pending.items ≡ []) }
        ensures count { OnOk result (self.new.sent ≡ self.old.sent + length self.old.pending.items) }
    {
        match emit_after(w, self.sent, self.pending.as_slice()) {
            Ok(()) => {}
            Err(fault) => return Err(fault),
        }
        self.sent += self.pending.len() as u64;
        self.pending.clear();
        Ok(())
    }
}
