//! The declaration around the items of a C array.
ghost use Rattle.std.specs.Prelude.{◌≡◌, ◌+◌, ◌^◌, ◌<◌, ◌≤◌, ◌++◌, false, map, length, codes};
ghost use Rattle.std.specs.Fmt.{digits};
ghost use Rattle.bx_dump_columns.specs.Emitting.{Emits};
ghost use Rattle.bx_dump_columns.specs.Names.{c_name, name_front, name_byte, include_head, include_tail};

use bx_text::{IoFault, ShortText, dec_field, emit_after};
use std::io::Write;

/// The byte itself where it is an ASCII letter or digit, else an underscore.
#[inline]
fn name_char(byte: u8) -> u8
    ensures { result ≡ name_byte byte }
{
    if byte.is_ascii_alphanumeric() {
        byte
    } else {
        b'_'
    }
}

/// Writes some bytes, and answers how many were written with them.
pub fn emit_next<W: Write>(w: &mut W, before: u64, text: &[u8]) -> Result<u64, IoFault>
    requires { before + length text.now < 2 ^ 64 }
    ensures { Emits before (W.contents w.old) (W.contents w.new) text.now result }
{
    match emit_after(w, before, text) {
        Ok(()) => Ok(before + text.len() as u64),
        Err(fault) => Err(fault),
    }
}

/// Puts what stands for the bytes of a name.
fn put_name(text: &mut [u8], name: &[u8])
    requires { length text.old ≡ length name.now }
    ensures { text.new ≡ map name_byte name.now }
{
    for (i, byte) in name.iter().enumerate() {
        text[i] = name_char(*byte);
    }
}

/// Writes what stands for the bytes of a name, piece by piece.
fn emit_mapped<W: Write>(w: &mut W, before: u64, name: &[u8]) -> Result<u64, IoFault>
    requires { before + length name.now < 2 ^ 64 }
    ensures { Emits before (W.contents w.old) (W.contents w.new) (map name_byte name.now) result }
{
    let mut text = [0; 256];
    let mut done = 0;
    while done < name.len() {
        let size = (name.len() - done).min(256);
        let (piece, _) = text.split_at_mut(size);
        put_name(piece, &name[done..done + size]);
        if let Err(fault) = emit_after(w, before + done as u64, piece) {
            return Err(fault);
        }
        done += size;
    }
    Ok(before + done as u64)
}

/// What stands in front of a name.
fn front_of(name: &[u8]) -> &'static [u8]
    ensures { result.now ≡ name_front name.now }
{
    match name {
        [b'0'..=b'9', ..] => b"__",
        _ => b"",
    }
}

/// Writes a name as C has it.
fn emit_name<W: Write>(w: &mut W, before: u64, name: &[u8]) -> Result<u64, IoFault>
    requires { before + length name.now + 2 < 2 ^ 64 }
    ensures emits { Emits before (W.contents w.old) (W.contents w.new) (c_name name.now) result }
    ensures most { length (c_name name.now) ≤ length name.now + 2 }
{
    match emit_next(w, before, front_of(name)) {
        Ok(n) => emit_mapped(w, n, name),
        Err(fault) => Err(fault),
    }
}

/// Writes a name between two texts.
fn emit_named<W: Write>(
    w: &mut W,
    before: u64,
    front: &[u8],
    name: &[u8],
    back: &[u8],
) -> Result<u64, IoFault>
    requires { before + length front.now + length name.now + length back.now + 2 < 2 ^ 64 }
    ensures emits { Emits before (W.contents w.old) (W.contents w.new) (front.now ++ c_name name.now ++ back.now) result }
    ensures most { length (c_name name.now) ≤ length name.now + 2 }
{
    let n = match emit_next(w, before, front) {
        Ok(n) => n,
        Err(fault) => return Err(fault),
    };
    let n = match emit_name(w, n, name) {
        Ok(n) => n,
        Err(fault) => return Err(fault),
    };
    emit_next(w, n, back)
}

/// Writes what a declaration begins with.
pub fn emit_head<W: Write>(w: &mut W, name: &[u8]) -> Result<u64, IoFault>
    requires { length name.now ≤ 2 ^ 62 }
    ensures emits { Emits 0 (W.contents w.old) (W.contents w.new) (include_head name.now) result }
    ensures most { length (include_head name.now) ≤ 2 ^ 62 + 64 }
{
    emit_named(w, 0, b"unsigned char ", name, b"[] = {\n")
}

/// A count, and the end of its line.
fn count_line(count: u64) -> ShortText<24>
    ensures { result ≡ digits 10 false count ++ codes ";\n" }
{
    let mut line = ShortText::new();
    line.push_all(dec_field(count as i128, 0, b' ').as_bytes());
    line.push_all(b";\n");
    line
}

/// Writes what a declaration of `count` items ends with.
pub fn emit_tail<W: Write>(w: &mut W, before: u64, name: &[u8], count: u64) -> Result<u64, IoFault>
    requires name { length name.now ≤ 2 ^ 62 }
    requires before { before ≤ 2 ^ 63 }
    ensures { Emits before (W.contents w.old) (W.contents w.new) (include_tail name.now count) result }
{
    let n = match emit_named(w, before, b"};\nunsigned int ", name, b"_len = ") {
        Ok(n) => n,
        Err(fault) => return Err(fault),
    };
    emit_next(w, n, count_line(count).as_bytes())
}
