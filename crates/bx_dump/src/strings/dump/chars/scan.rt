//! The runs of characters of an input.
ghost use Rattle.std.specs.Prelude.{◌≡◌, ◌^◌, ◌≤◌, length, IfOk, IfErr};
ghost use Rattle.bx_dump.specs.Pages.{WritesAll, WritesFrontOf};
ghost use Rattle.bx_dump.specs.private.Chars.{HoldsBytes, ScansChars, StopsChars, chars_dump, nothing};

use crate::driver::pages::BLOCK;
use crate::strings::dump::chars::state::Chars;
use crate::strings::dump::{Dumped, PAGE};
use crate::strings::options::StringsOptions;
use bx_text::{IoFault, Meter, emit_after};
use std::io::{Read, Write};

/// Writes what is known of all that the reader gives.
fn scan_chars<R: Read, W: Write>(
    r: &mut R,
    w: &mut W,
    chars: &mut Chars,
    block: &mut [u8],
    page: &mut [u8],
) -> Result<Dumped, IoFault>
    requires fresh { HoldsBytes chars.old nothing }
    requires block { length block.old ≡ BLOCK }
    requires page { length page.old ≡ PAGE }
    ensures ok { IfOk result (ScansChars chars.old chars.new (R.remaining r.old) (R.remaining r.new) (W.contents w.old) (W.contents w.new)) }
    ensures err { IfErr result (StopsChars chars.old (R.remaining r.old) (R.remaining r.new) (W.contents w.old) (W.contents w.new)) }
    ensures least { chars.new.runs.least ≡ chars.old.runs.least }
    ensures few { IfOk result (λ d. d.written ≤ 2 ^ 46) }
{
    let mut meter = Meter::new(1 << 40);
    let mut written = 0u64;
    loop {
        let at = meter.taken();
        let n = match meter.fill(r, block) {
            Ok(n) => n,
            Err(fault) => return Err(fault),
        };
        let used = chars.put(page, at, &block[..n]);
        if let Err(fault) = emit_after(w, written, &page[..used]) {
            return Err(fault);
        }
        written += used as u64;
        if n < block.len() {
            return Ok(Dumped {
                read: meter.taken(),
                written,
            });
        }
    }
}

/// Writes the runs of characters.
#[inline(never)]
pub fn strings_of_chars<R: Read, W: Write>(
    r: &mut R,
    w: &mut W,
    o: &StringsOptions,
) -> Result<u64, IoFault>
    ensures ok { IfOk result (WritesAll (chars_dump o.now) (R.remaining r.old) (R.remaining r.new) (W.contents w.old) (W.contents w.new)) }
    ensures err { IfErr result (WritesFrontOf (chars_dump o.now) (R.remaining r.old) (R.remaining r.new) (W.contents w.old) (W.contents w.new)) }
{
    let mut chars = Chars::new(o);
    let done = match scan_chars(r, w, &mut chars, &mut [0; BLOCK], &mut [0; PAGE]) {
        Ok(done) => done,
        Err(fault) => return Err(fault),
    };
    if chars.is_short() {
        return Ok(done.read);
    }
    match emit_after(w, done.written, b"\n") {
        Ok(()) => Ok(done.read),
        Err(fault) => Err(fault),
    }
}
