//! Records of a stream.
ghost use Rattle.std.specs.Prelude.{◌≡◌, ◌≢◌, ℕ, ◌+◌, ◌-◌, ◌^◌, ◌<◌, ◌≤◌, [], ◌∷◌, ◌++◌, length, take, vec_capacity, IfOk, OnOk};
ghost use Rattle.bx_dd.specs.private.Output.{fitted, line_of};
ghost use Rattle.bx_dd.specs.private.Standing.{HoldsText, last_of};
ghost use Rattle.bx_dd.specs.private.Streaming.{Grows};
ghost use Rattle.bx_dd.specs.private.Paged.{Pushes, PushesPieces, Puts, StopsPieces, StopsPush, StopsPut, output};
ghost use Rattle.bx_dd.specs.declared.form.Shape.TheVariants.{Flat, Block, Unblock};

use crate::form::{Form, Shape};
use crate::page::{Page, keep};
use bx_text::IoFault;
use memchr::memchr;
use std::alloc::Allocator;
use std::io::Write;

/// Whether the record that may go on was cut, and how many finished ones were.
#[derive(Clone, Copy)]
pub struct Tail {
    pub over: bool,
    pub cut: u64,
}

/// Takes bytes, which finish records.
pub fn push_shaped<W: Write, A: Allocator, B: Allocator>(
    page: &mut Page<B>,
    w: &mut W,
    held: &mut Vec<u8, A>,
    tail: Tail,
    bytes: &[u8],
    form: Form,
) -> Result<Tail, IoFault>
    requires room { length held.old.items ≤ form.cbs }
    requires space { form.shape ≢ Flat → form.cbs ≤ vec_capacity held.old }
    requires some { form.shape ≢ Flat → 0 < form.cbs }
    requires part { form.shape ≡ Unblock → length held.old.items < form.cbs }
    requires few { tail.cut + length bytes.now < 2 ^ 64 }
    ensures within { IfOk result (λ t. (length held.new.items ≤ form.cbs) × (t.cut ≤ tail.cut + length bytes.now)) }
    ensures part { IfOk result (λ t. form.shape ≡ Unblock → length held.new.items < form.cbs) }
    ensures space { vec_capacity held.old ≤ vec_capacity held.new }
    ensures ok { Pushes form.shape form.cbs (output (W.contents w.old) page.old held.old) (output (W.contents w.new) page.new held.new) tail bytes.now result }
    ensures err { StopsPush form.shape form.cbs (output (W.contents w.old) page.old held.old) (W.contents w.new) tail bytes.now result }
    ensures grows { Grows page.old.written page.new.written result }
{
    let size = form.cbs as usize;
    match form.shape {
        Shape::Flat => match page.put(w, bytes) {
            Ok(()) => Ok(tail),
            Err(fault) => Err(fault),
        },
        Shape::Block => push_text(page, w, held, tail, bytes, size),
        Shape::Unblock => match push_pieces(page, w, held, bytes, size) {
            Ok(()) => Ok(tail),
            Err(fault) => Err(fault),
        },
    }
}

/// Takes a text, whose newlines end records.
fn push_text<W: Write, A: Allocator, B: Allocator>(
    page: &mut Page<B>,
    w: &mut W,
    held: &mut Vec<u8, A>,
    tail: Tail,
    bytes: &[u8],
    size: usize,
) -> Result<Tail, IoFault>
    requires room { length held.old.items ≤ size }
    requires space { size ≤ vec_capacity held.old }
    requires some { 0 < size }
    requires few { tail.cut + length bytes.now < 2 ^ 64 }
    ensures within { IfOk result (λ t. (length held.new.items ≤ size) × (t.cut ≤ tail.cut + length bytes.now)) }
    ensures space { vec_capacity held.old ≤ vec_capacity held.new }
    ensures ok { Pushes Block size (output (W.contents w.old) page.old held.old) (output (W.contents w.new) page.new held.new) tail bytes.now result }
    ensures err { StopsPush Block size (output (W.contents w.old) page.old held.old) (W.contents w.new) tail bytes.now result }
    ensures grows { Grows page.old.written page.new.written result }
{
    let mut now = tail;
    let mut done = 0;
    while done < bytes.len() {
        let (_, rest) = bytes.split_at(done);
        match memchr(b'\n', rest) {
            None => {
                let over = hold(held, now.over, rest, size);
                return Ok(Tail { over, cut: now.cut });
            }
            Some(n) => {
                let over = hold(held, now.over, &rest[..n], size);
                match end_record(page, w, held, Tail { over, cut: now.cut }, size) {
                    Ok(ended) => {
                        now = ended;
                        done += n + 1;
                    }
                    Err(fault) => return Err(fault),
                }
            }
        }
    }
    Ok(now)
}

/// Keeps what fits of a record's next bytes, and tells whether the record was cut.
fn hold<A: Allocator>(held: &mut Vec<u8, A>, over: bool, text: &[u8], size: usize) -> bool
    requires room { length held.old.items ≤ size }
    requires space { size ≤ vec_capacity held.old }
    ensures within { length held.new.items ≤ size }
    ensures space { vec_capacity held.old ≤ vec_capacity held.new }
    ensures next { HoldsText size held.old.items held.new.items over result text.now }
{
    let room = size - held.len();
    if text.len() <= room {
        keep(held, text);
        over
    } else {
        keep(held, &text[..room]);
        true
    }
}

/// A newline: the record is finished, and counted where it was cut.
fn end_record<W: Write, A: Allocator, B: Allocator>(
    page: &mut Page<B>,
    w: &mut W,
    held: &mut Vec<u8, A>,
    tail: Tail,
    size: usize,
) -> Result<Tail, IoFault>
    requires room { length held.old.items ≤ size }
    requires some { 0 < size }
    requires few { tail.cut < 2 ^ 64 - 1 }
    ensures within { IfOk result (λ t. (held.new.items ≡ []) × (t.cut ≤ tail.cut + 1)) }
    ensures space { vec_capacity held.old ≤ vec_capacity held.new }
    ensures ok { Pushes Block size (output (W.contents w.old) page.old held.old) (output (W.contents w.new) page.new held.new) tail (10 ∷ []) result }
    ensures err { StopsPush Block size (output (W.contents w.old) page.old held.old) (W.contents w.new) tail (10 ∷ []) result }
    ensures grows { Grows page.old.written page.new.written result }
{
    match push_fitted(page, w, held.as_slice(), size) {
        Ok(()) => {}
        Err(fault) => return Err(fault),
    }
    held.clear();
    if tail.over {
        return Ok(Tail {
            over: false,
            cut: tail.cut + 1,
        });
    }
    Ok(Tail {
        over: false,
        cut: tail.cut,
    })
}

/// Puts a record, filled up with spaces.
fn push_fitted<W: Write, B: Allocator>(
    page: &mut Page<B>,
    w: &mut W,
    held: &[u8],
    size: usize,
) -> Result<(), IoFault>
    requires { length held.now ≤ size }
    ensures ok { Puts (W.contents w.old) (W.contents w.new) page.old page.new (fitted size held.now) result }
    ensures err { StopsPut (W.contents w.old) (W.contents w.new) page.old (fitted size held.now) result }
    ensures grows { Grows page.old.written page.new.written result }
{
    match page.put(w, held) {
        Ok(()) => page.put_spaces(w, size - held.len()),
        Err(fault) => Err(fault),
    }
}

/// Takes records of one size.
fn push_pieces<W: Write, A: Allocator, B: Allocator>(
    page: &mut Page<B>,
    w: &mut W,
    held: &mut Vec<u8, A>,
    bytes: &[u8],
    size: usize,
) -> Result<(), IoFault>
    requires room { length held.old.items < size }
    requires space { size ≤ vec_capacity held.old }
    ensures within { OnOk result (length held.new.items < size) }
    ensures space { vec_capacity held.old ≤ vec_capacity held.new }
    ensures ok { PushesPieces Unblock size (output (W.contents w.old) page.old held.old) (output (W.contents w.new) page.new held.new) bytes.now result }
    ensures err { StopsPieces Unblock size (output (W.contents w.old) page.old held.old) (W.contents w.new) bytes.now result }
    ensures grows { Grows page.old.written page.new.written result }
{
    let mut done = 0;
    while done < bytes.len() {
        let n = (size - held.len()).min(bytes.len() - done);
        match push_piece(page, w, held, &bytes[done..done + n], size) {
            Ok(()) => done += n,
            Err(fault) => return Err(fault),
        }
    }
    Ok(())
}

/// Takes bytes of one record.
fn push_piece<W: Write, A: Allocator, B: Allocator>(
    page: &mut Page<B>,
    w: &mut W,
    held: &mut Vec<u8, A>,
    bytes: &[u8],
    size: usize,
) -> Result<(), IoFault>
    requires room { length held.old.items < size }
    requires space { size ≤ vec_capacity held.old }
    requires fits { length held.old.items + length bytes.now ≤ size }
    ensures within { OnOk result (length held.new.items < size) }
    ensures space { vec_capacity held.old ≤ vec_capacity held.new }
    ensures ok { PushesPieces Unblock size (output (W.contents w.old) page.old held.old) (output (W.contents w.new) page.new held.new) bytes.now result }
    ensures err { StopsPieces Unblock size (output (W.contents w.old) page.old held.old) (W.contents w.new) bytes.now result }
    ensures grows { Grows page.old.written page.new.written result }
{
    keep(held, bytes);
    if held.len() < size {
        return Ok(());
    }
    match push_line(page, w, held.as_slice()) {
        Ok(()) => {
            held.clear();
            Ok(())
        }
        Err(fault) => Err(fault),
    }
}

/// Puts a line for a record.
fn push_line<W: Write, B: Allocator>(
    page: &mut Page<B>,
    w: &mut W,
    held: &[u8],
) -> Result<(), IoFault>
    ensures ok { Puts (W.contents w.old) (W.contents w.new) page.old page.new (line_of held.now) result }
    ensures err { StopsPut (W.contents w.old) (W.contents w.new) page.old (line_of held.now) result }
    ensures grows { Grows page.old.written page.new.written result }
{
    let end = trimmed(held);
    match page.put(w, &held[..end]) {
        Ok(()) => page.put(w, b"\n"),
        Err(fault) => Err(fault),
    }
}

/// How many bytes are left without the spaces at the end.
fn trimmed(held: &[u8]) -> usize
    ensures low { result ≤ length held.now }
    ensures line { take result held.now ++ 10 ∷ [] ≡ line_of held.now }
{
    let mut end = held.len();
    while end > 0 && held[end - 1] == b' ' {
        end -= 1;
    }
    end
}

/// What the input's end gives of a record that was kept.
pub fn push_rest<W: Write, B: Allocator>(
    page: &mut Page<B>,
    w: &mut W,
    held: &[u8],
    form: Form,
) -> Result<(), IoFault>
    requires { length held.now ≤ form.cbs }
    ensures ok { Puts (W.contents w.old) (W.contents w.new) page.old page.new (last_of form.shape form.cbs held.now) result }
    ensures err { StopsPut (W.contents w.old) (W.contents w.new) page.old (last_of form.shape form.cbs held.now) result }
    ensures grows { Grows page.old.written page.new.written result }
{
    if held.is_empty() {
        return Ok(());
    }
    match form.shape {
        Shape::Flat => Ok(()),
        Shape::Block => push_fitted(page, w, held, form.cbs as usize),
        Shape::Unblock => push_line(page, w, held),
    }
}
