//! What is written of a patch: its first line, once there is another one, the lines of a window at a time, and the last one.
ghost use Rattle.std.specs.Prelude.{◌≡◌, ◌≤◌, ◌+◌, ◌++◌, ℕ, List, Option, length, flat_map, codes, IfOk, IfErr, OnOk};
ghost use Rattle.std.specs.Io.KnownBytes.{Appends};
ghost use Rattle.bx_read.specs.private.Window.{newlines};
ghost use Rattle.bx_patch.specs.Text.{PatchLine, patch_end, headed, signed_line_text};
ghost use Rattle.bx_patch.specs.Diff.{counted};
ghost use Rattle.bx_patch.specs.private.Diff.{HasPut, IsWritingFault, PutsPart, WritesUpTo};

use crate::diff::fault::DiffFault;
use bx_text::{IoFault, ShortText, dec_field, emit};
use std::alloc::Allocator;
use std::io::Write;

/// Lines that are gathered, how many were written, and how many bytes that is.
#[derive(Drop)]
pub struct Writing<A: Allocator> {
    pub text: Vec<u8, A>,
    pub number: u64,
    pub written: u64,
}

/// How many newlines a text has.
fn newlines(text: &[u8]) -> u64
    ensures count { result ≡ newlines text.now }
    ensures within { result ≤ length text.now }
{
    let mut count = 0u64;
    for byte in text {
        if *byte == b'\n' {
            count += 1;
        }
    }
    count
}

/// The last line of a text that has `number` lines before it, with its newline.
fn end_line(number: u64) -> ShortText<32>
    ensures { result ≡ patch_end number ++ codes "\n" }
{
    let mut line = ShortText::new();
    line.push_all(b"end ");
    line.push_all(dec_field(number as i128, 0, b' ').as_bytes());
    line.push(b'\n');
    line
}

/// Writes bytes behind `before` others, and answers how many that are together.
fn put<W: Write>(out: &mut W, before: u64, bytes: &[u8]) -> Result<u64, DiffFault>
    ensures put { OnOk result (Appends (W.contents out.old) (W.contents out.new) bytes.now) }
    ensures count { IfOk result (λ n. n ≡ counted (before + length bytes.now)) }
    ensures part { IfErr result (PutsPart before (W.contents out.old) (W.contents out.new) bytes.now) }
    ensures kind { IfErr result IsWritingFault }
{
    match emit(out, bytes) {
        Ok(()) => Ok(before.saturating_add(bytes.len() as u64)),
        Err(IoFault::WriteFailed { written }) => Err(DiffFault::WriteFailed {
            written: before.saturating_add(written),
        }),
        Err(_) => Err(DiffFault::WriteFailed { written: before }),
    }
}

/// Writes the first line, unless it was written.
fn begin<W: Write, A: Allocator>(
    out: &mut W,
    writing: &mut Writing<A>,
    head: &[u8],
) -> Result<(), DiffFault>
    ensures put { (lines : List PatchLine) (first : Option (List ℕ))
        → HasPut head.now lines writing.old.number writing.old.written first (W.contents out.old)
        → OnOk result (Appends first (W.contents out.new) (head.now ++ flat_map signed_line_text lines)) }
    ensures count { (lines : List PatchLine) (first : Option (List ℕ))
        → HasPut head.now lines writing.old.number writing.old.written first (W.contents out.old)
        → OnOk result (writing.new.written ≡ counted (length (head.now ++ flat_map signed_line_text lines))) }
    ensures part { (lines : List PatchLine) (first : Option (List ℕ))
        → HasPut head.now lines writing.old.number writing.old.written first (W.contents out.old)
        → IfErr result (WritesUpTo first (W.contents out.new) (head.now ++ flat_map signed_line_text lines)) }
    ensures number { (lines : List PatchLine) (first : Option (List ℕ))
        → HasPut head.now lines writing.old.number writing.old.written first (W.contents out.old)
        → OnOk result (writing.new.number ≡ counted (newlines (head.now ++ flat_map signed_line_text lines))) }
    ensures text { OnOk result (writing.new.text.items ≡ writing.old.text.items) }
    ensures kind { IfErr result IsWritingFault }
{
    if writing.written > 0 {
        return Ok(());
    }
    match put(out, writing.written, head) {
        Ok(written) => {
            writing.written = written;
            writing.number = newlines(head);
            Ok(())
        }
        Err(fault) => Err(fault),
    }
}

/// Writes the lines that were gathered behind those that were written.
pub fn put_text<W: Write, A: Allocator>(
    out: &mut W,
    writing: &mut Writing<A>,
    head: &[u8],
) -> Result<(), DiffFault>
    ensures put { (lines more : List PatchLine) (first : Option (List ℕ)) → writing.old.text.items ≡ flat_map signed_line_text more
        → HasPut head.now lines writing.old.number writing.old.written first (W.contents out.old)
        → OnOk result (HasPut head.now (lines ++ more) writing.new.number writing.new.written first (W.contents out.new)) }
    ensures part { (lines more : List PatchLine) (first : Option (List ℕ)) → writing.old.text.items ≡ flat_map signed_line_text more
        → HasPut head.now lines writing.old.number writing.old.written first (W.contents out.old)
        → IfErr result (WritesUpTo first (W.contents out.new) (headed head.now (lines ++ more))) }
    ensures kind { IfErr result IsWritingFault }
{
    if writing.text.as_slice().is_empty() {
        return Ok(());
    }
    match begin(out, writing, head) {
        Ok(()) => put_lines(out, writing),
        Err(fault) => Err(fault),
    }
}

/// Writes the lines that were gathered, and counts them.
fn put_lines<W: Write, A: Allocator>(out: &mut W, writing: &mut Writing<A>) -> Result<(), DiffFault>
    ensures put { OnOk result (Appends (W.contents out.old) (W.contents out.new) writing.old.text.items) }
    ensures count { OnOk result (writing.new.written ≡ counted (writing.old.written + length writing.old.text.items)) }
    ensures part { IfErr result (PutsPart writing.old.written (W.contents out.old) (W.contents out.new) writing.old.text.items) }
    ensures number { OnOk result (writing.new.number ≡ counted (writing.old.number + newlines writing.old.text.items)) }
    ensures kind { IfErr result IsWritingFault }
{
    match put(out, writing.written, writing.text.as_slice()) {
        Ok(written) => {
            writing.written = written;
            let number = newlines(writing.text.as_slice());
            writing.number = writing.number.saturating_add(number);
            Ok(())
        }
        Err(fault) => Err(fault),
    }
}

/// Writes the last line of a text that has `number` lines before it, behind them, which have `written` bytes.
pub fn put_end<W: Write>(out: &mut W, number: u64, written: u64) -> Result<(), DiffFault>
    ensures put { OnOk result (Appends (W.contents out.old) (W.contents out.new) (patch_end number ++ codes "\n")) }
    ensures part { IfErr result (PutsPart written (W.contents out.old) (W.contents out.new) (patch_end number ++ codes "\n")) }
    ensures kind { IfErr result IsWritingFault }
{
    match put(out, written, end_line(number).as_bytes()) {
        Ok(_) => Ok(()),
        Err(fault) => Err(fault),
    }
}
