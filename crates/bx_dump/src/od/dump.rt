//! od's dump.
ghost use Rattle.std.specs.Prelude.{◌≡◌, ◌⊎◌, ℕ, ◌+◌, ◌^◌, ◌<◌, true, Err, IfOk, IfErr, OnOk, OnErr};
ghost use Rattle.bx_text.specs.Stream.{Skips};
ghost use Rattle.bx_dump.specs.OdDump.{Reaches, StopsOd, od_of};
ghost use Rattle.bx_dump.specs.private.Pages.{streams_of};
ghost use Rattle.bx_dump.specs.private.OdDump.{DumpsLines, StopsShort, lines_with_rows, od_lines, shown_lines};
ghost use Rattle.bx_dump.specs.Pages.{WritesAll};

use crate::driver::pages::{LIMIT, Part, dump_pages, skip_front};
use crate::driver::wide::WidePages;
use crate::od::below::Column;
use crate::od::lines::{OdLines, end_line};
use crate::od::options::OdOptions;
use crate::od::rows::OdRows;
use bx_text::{IoFault, Meter, State, emit_after};
use std::io::{Read, Write};

/// Reads `count` bytes away, which the input must have.
fn reach<R: Read>(meter: &mut Meter, r: &mut R, count: u64) -> Result<(), IoFault>
    requires open { meter.old.state ≡ State.Open }
    requires first { meter.old.taken ≡ 0 }
    requires limit { meter.old.limit ≡ 2 ^ 40 }
    ensures limit { meter.new.limit ≡ 2 ^ 40 }
    ensures ok { OnOk result (Skips true count (2 ^ 40) (R.remaining r.old) (R.remaining r.new)) }
    ensures open { OnOk result ((meter.new.state ≡ State.Open) × (meter.new.taken ≡ count)) }
    ensures err { IfErr result (StopsShort count (R.remaining r.old) (R.remaining r.new)) }
{
    match skip_front(meter, r, count) {
        Ok(true) => Ok(()),
        Ok(false) => Err(IoFault::SkipPastEnd),
        Err(fault) => Err(fault),
    }
}

/// Writes the lines of what comes behind the bytes that are skipped.
fn dump_shown<R: Read, W: Write>(
    meter: &mut Meter,
    r: &mut R,
    w: &mut W,
    o: &OdOptions,
) -> Result<Part, IoFault>
    requires open { meter.old.state ≡ State.Open }
    requires limit { meter.old.limit ≡ 2 ^ 40 }
    ensures lines { DumpsLines (shown_lines o.now) meter.old.taken o.now.limit (streams_of R.remaining r.old r.new W.contents w.old w.new) result }
{
    if o.text {
        return dump_rows(meter, r, w, o);
    }
    if o.below.count > 0 {
        return dump_rows(meter, r, w, o);
    }
    dump_lines(meter, r, w, o)
}

/// The same of lines of rows.
fn dump_rows<R: Read, W: Write>(
    meter: &mut Meter,
    r: &mut R,
    w: &mut W,
    o: &OdOptions,
) -> Result<Part, IoFault>
    requires open { meter.old.state ≡ State.Open }
    requires limit { meter.old.limit ≡ 2 ^ 40 }
    ensures lines { DumpsLines (lines_with_rows o.now) meter.old.taken o.now.limit (streams_of R.remaining r.old r.new W.contents w.old w.new) result }
{
    let lines = OdRows {
        address: o.address,
        first: Column {
            kind: o.kind,
            text: o.text,
        },
        below: o.below,
        endian: o.endian,
        width: o.width,
    };
    let mut pages = WidePages::new(lines, o.all, o.first + o.skip);
    dump_pages(meter, r, w, &mut pages, o.limit, 0)
}

/// The same of lines of one type of values.
fn dump_lines<R: Read, W: Write>(
    meter: &mut Meter,
    r: &mut R,
    w: &mut W,
    o: &OdOptions,
) -> Result<Part, IoFault>
    requires open { meter.old.state ≡ State.Open }
    requires limit { meter.old.limit ≡ 2 ^ 40 }
    ensures lines { DumpsLines (od_lines o.now) meter.old.taken o.now.limit (streams_of R.remaining r.old r.new W.contents w.old w.new) result }
{
    let lines = OdLines {
        address: o.address,
        kind: o.kind,
        endian: o.endian,
        width: o.width,
    };
    let mut pages = WidePages::new(lines, o.all, o.first + o.skip);
    dump_pages(meter, r, w, &mut pages, o.limit, 0)
}

/// Writes od's text of the bytes from place `skip` on, at most `limit` of them, and answers how many they are.
///
/// Addresses count from `first`, that of the input's first byte, and the last line is the address behind the last byte, also where no byte is
/// dumped. An input that ends before `skip` bytes is `SkipPastEnd`, and then nothing is written. The input may have 2^40
/// bytes, those included that are skipped, and no more of it is read than is needed. Nothing is flushed. After another fault
/// a front of the text of the bytes that were read was written; `WriteFailed` counts it, and comes only behind the bytes
/// that are skipped, with at most 2^14 bytes read ahead of it.
#[inline(never)]
pub fn od<R: Read, W: Write>(r: &mut R, w: &mut W, o: &OdOptions) -> Result<u64, IoFault>
    ensures ok { IfOk result (WritesAll (od_of o.now) (R.remaining r.old) (R.remaining r.new) (W.contents w.old) (W.contents w.new)) }
    ensures reached { OnOk result (Reaches o.now.skip (R.remaining r.old) (R.remaining r.new)) }
    ensures behind { OnErr result ((W.contents w.new ≡ W.contents w.old) ⊎ Reaches o.now.skip (R.remaining r.old) (R.remaining r.new)) }
    ensures write { (n : ℕ) → result ≡ Err (IoFault.WriteFailed n) → Reaches o.now.skip (R.remaining r.old) (R.remaining r.new) }
    ensures err { IfErr result (StopsOd o.now (R.remaining r.old) (R.remaining r.new) (W.contents w.old) (W.contents w.new)) }
{
    let mut meter = Meter::new(LIMIT);
    if let Err(fault) = reach(&mut meter, r, o.skip) {
        return Err(fault);
    }
    let lines = match dump_shown(&mut meter, r, w, o) {
        Ok(lines) => lines,
        Err(fault) => return Err(fault),
    };
    let end = end_line(o.address, o.first + o.skip + lines.read);
    if let Err(fault) = emit_after(w, lines.written, end.as_bytes()) {
        return Err(fault);
    }
    Ok(lines.read)
}
