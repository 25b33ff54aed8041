//! xxd's dump.
ghost use Rattle.std.specs.Prelude.{◌≡◌, ℕ, ◌+◌, ◌^◌, ◌<◌, ◌≤◌, List, length, IfOk, IfErr};
ghost use Rattle.bx_dump.specs.Pages.{WritesAll, WritesFrontOf};
ghost use Rattle.bx_dump.specs.Styles.{group_of, include_items, lines_by, xxd_of, IsCountable};
ghost use Rattle.bx_dump.specs.private.Pages.{streams_of};
ghost use Rattle.bx_dump.specs.private.Styles.{columns_text, decimal_text, named_text, numbers_text, plain_text, unbroken_text};
ghost use Rattle.bx_dump.specs.private.XxdDump.{StopsFront, StopsItems, StopsKept, StopsLines, StopsStyle, WritesLines, WritesStyle, WritesText};

use crate::driver::pages::{Part, dump_part};
use crate::xxd::columns::{Columns, Digits};
use crate::xxd::decimal::Decimal;
use crate::xxd::lines::{LineForm, Lines};
use crate::xxd::options::{XxdOptions, XxdStyle};
use crate::xxd::rows::{Items, Plain, Unbroken};
use crate::xxd::words::Words;
use crate::xxd::zeros::SkippingPages;
use bx_dump_columns::xxd::names::{emit_head, emit_tail};
use bx_text::{IoFault, emit_after};
use std::io::{Read, Write};

/// Writes lines of a form, the first of them for an address, after `before` bytes that were written.
pub fn dump_lines<R: Read, W: Write, F: LineForm + Drop>(
    r: &mut R,
    w: &mut W,
    form: F,
    start: u64,
    o: &XxdOptions,
    before: u64,
) -> Result<Part, IoFault>
    requires start { start ≤ 2 ^ 63 }
    requires before { before ≤ 2 ^ 63 }
    ensures ok { IfOk result (WritesLines (F.line form) (F.cols form) start o.now (streams_of R.remaining r.old r.new W.contents w.old w.new)) }
    ensures err { StopsLines (F.line form) (F.cols form) start o.now before (streams_of R.remaining r.old r.new W.contents w.old w.new) result }
    ensures few { IfOk result (λ part. part.written ≤ 2 ^ 60) }
{
    let mut lines = Lines::new(form, start);
    dump_part(r, w, &mut lines, o.seek, o.limit, before)
}

/// The bytes of a group.
fn group_len(o: &XxdOptions) -> usize
    ensures value { result ≡ group_of o.now.cols o.now.group }
    ensures some { 0 < result }
    ensures most { result ≤ 256 }
{
    if o.group == 0 {
        o.cols as usize
    } else {
        o.group as usize
    }
}

/// Writes lines with addresses, or those of them that are shown where rows of zeros are left out.
fn dump_addressed<R: Read, W: Write, F: LineForm + Drop>(
    r: &mut R,
    w: &mut W,
    form: F,
    o: &XxdOptions,
) -> Result<Part, IoFault>
    requires star { 2 ≤ F.room form }
    requires thin { F.room form ≤ 4096 }
    requires short { (at : ℕ) (bytes : List ℕ) → length bytes ≤ F.cols form → length (F.line form at bytes) ≤ 2 ^ 12 }
    ensures ok { IfOk result (WritesText (lines_by o.now.autoskip (F.line form) (F.cols form) (o.now.seek + o.now.shift)) o.now
        (streams_of R.remaining r.old r.new W.contents w.old w.new)) }
    ensures err { IfErr result (StopsKept (lines_by o.now.autoskip (F.line form) (F.cols form) (o.now.seek + o.now.shift)) o.now
        (streams_of R.remaining r.old r.new W.contents w.old w.new)) }
{
    if o.autoskip {
        let mut pages = SkippingPages::new(Lines::new(form, o.seek + o.shift));
        return dump_part(r, w, &mut pages, o.seek, o.limit, 0);
    }
    dump_lines(r, w, form, o.seek + o.shift, o, 0)
}

/// Writes lines with columns of digits.
fn dump_columns<R: Read, W: Write>(
    r: &mut R,
    w: &mut W,
    digits: Digits,
    o: &XxdOptions,
) -> Result<Part, IoFault>
    ensures ok { IfOk result (WritesText (columns_text digits o.now) o.now (streams_of R.remaining r.old r.new W.contents w.old w.new)) }
    ensures err { IfErr result (StopsKept (columns_text digits o.now) o.now (streams_of R.remaining r.old r.new W.contents w.old w.new)) }
{
    let group = group_len(o);
    let form = Columns::new(digits, o.cols as usize, group);
    dump_addressed(r, w, form, o)
}

/// Writes lines with columns of digits, and addresses in decimal.
fn dump_decimal<R: Read, W: Write>(
    r: &mut R,
    w: &mut W,
    digits: Digits,
    o: &XxdOptions,
) -> Result<Part, IoFault>
    ensures ok { IfOk result (WritesText (decimal_text digits o.now) o.now (streams_of R.remaining r.old r.new W.contents w.old w.new)) }
    ensures err { IfErr result (StopsKept (decimal_text digits o.now) o.now (streams_of R.remaining r.old r.new W.contents w.old w.new)) }
{
    let columns = Columns::new(digits, o.cols as usize, group_len(o));
    dump_addressed(r, w, Decimal { columns }, o)
}

/// Writes lines of little-endian numbers.
fn dump_words<R: Read, W: Write>(
    r: &mut R,
    w: &mut W,
    decimal: bool,
    o: &XxdOptions,
) -> Result<Part, IoFault>
    ensures ok { IfOk result (WritesText (numbers_text decimal o.now) o.now (streams_of R.remaining r.old r.new W.contents w.old w.new)) }
    ensures err { IfErr result (StopsKept (numbers_text decimal o.now) o.now (streams_of R.remaining r.old r.new W.contents w.old w.new)) }
{
    let words = Words::new(decimal, o.upper, o.cols as usize, group_len(o));
    dump_addressed(r, w, words, o)
}

/// Writes lines of plain digits.
fn dump_plain<R: Read, W: Write>(r: &mut R, w: &mut W, o: &XxdOptions) -> Result<Part, IoFault>
    ensures ok { IfOk result (WritesText (plain_text o.now) o.now (streams_of R.remaining r.old r.new W.contents w.old w.new)) }
    ensures err { IfErr result (StopsFront (plain_text o.now) o.now (streams_of R.remaining r.old r.new W.contents w.old w.new)) }
{
    dump_lines(r, w, Plain::new(o.cols as usize, o.upper), 0, o, 0)
}

/// Writes plain digits on one line, which ends where the input does.
fn dump_unbroken<R: Read, W: Write>(r: &mut R, w: &mut W, o: &XxdOptions) -> Result<Part, IoFault>
    ensures ok { IfOk result (WritesText (unbroken_text o.now.upper) o.now (streams_of R.remaining r.old r.new W.contents w.old w.new)) }
    ensures err { IfErr result (StopsFront (unbroken_text o.now.upper) o.now (streams_of R.remaining r.old r.new W.contents w.old w.new)) }
{
    let mut digits = Unbroken { upper: o.upper };
    let line = match dump_part(r, w, &mut digits, o.seek, o.limit, 0) {
        Ok(line) => line,
        Err(fault) => return Err(fault),
    };
    if let Err(fault) = emit_after(w, line.written, b"\n") {
        return Err(fault);
    }
    Ok(Part {
        read: line.read,
        written: line.written + 1,
    })
}

/// Writes the items of a C array, after `before` bytes that were written.
fn dump_items<R: Read, W: Write>(
    r: &mut R,
    w: &mut W,
    o: &XxdOptions,
    before: u64,
) -> Result<Part, IoFault>
    requires before { before ≤ 2 ^ 62 + 64 }
    ensures ok { IfOk result (WritesText (include_items o.now.cols) o.now (streams_of R.remaining r.old r.new W.contents w.old w.new)) }
    ensures err { StopsItems o.now before (streams_of R.remaining r.old r.new W.contents w.old w.new) result }
    ensures few { IfOk result (λ part. part.written ≤ 2 ^ 60 + 1) }
{
    let lines = match dump_lines(r, w, Items::new(o.cols as usize), 0, o, before) {
        Ok(lines) => lines,
        Err(fault) => return Err(fault),
    };
    if lines.read == 0 {
        return Ok(lines);
    }
    if let Err(fault) = emit_after(w, before + lines.written, b"\n") {
        return Err(fault);
    }
    Ok(Part {
        read: lines.read,
        written: lines.written + 1,
    })
}

/// Writes the declaration of a C array.
fn dump_named<R: Read, W: Write>(
    r: &mut R,
    w: &mut W,
    o: &XxdOptions,
    name: &[u8],
) -> Result<Part, IoFault>
    requires name { length name.now ≤ 2 ^ 62 }
    ensures ok { IfOk result (WritesText (named_text name.now o.now.cols) o.now (streams_of R.remaining r.old r.new W.contents w.old w.new)) }
    ensures err { IfErr result (StopsFront (named_text name.now o.now.cols) o.now (streams_of R.remaining r.old r.new W.contents w.old w.new)) }
{
    let before = match emit_head(w, name) {
        Ok(before) => before,
        Err(fault) => return Err(fault),
    };
    let items = match dump_items(r, w, o, before) {
        Ok(items) => items,
        Err(fault) => return Err(fault),
    };
    match emit_tail(w, before + items.written, name, items.read) {
        Ok(written) => Ok(Part {
            read: items.read,
            written,
        }),
        Err(fault) => Err(fault),
    }
}

/// Writes the items of a C array, and its declaration where it has a name.
fn dump_include<R: Read, W: Write>(
    r: &mut R,
    w: &mut W,
    o: &XxdOptions,
    name: Option<&str>,
) -> Result<Part, IoFault>
    requires name { IsCountable (XxdStyle.Include name) }
    ensures ok { IfOk result (WritesStyle (XxdStyle.Include name.entry) o.now (streams_of R.remaining r.old r.new W.contents w.old w.new)) }
    ensures err { IfErr result (StopsStyle (XxdStyle.Include name.entry) o.now (streams_of R.remaining r.old r.new W.contents w.old w.new)) }
{
    match name {
        None => dump_items(r, w, o, 0),
        Some(name) => dump_named(r, w, o, name.as_bytes()),
    }
}

/// Writes the text of the style.
fn dump_styled<R: Read, W: Write>(
    r: &mut R,
    w: &mut W,
    style: XxdStyle<'_>,
    o: &XxdOptions,
) -> Result<Part, IoFault>
    requires name { IsCountable style }
    ensures ok { IfOk result (WritesStyle style.entry o.now (streams_of R.remaining r.old r.new W.contents w.old w.new)) }
    ensures err { IfErr result (StopsStyle style.entry o.now (streams_of R.remaining r.old r.new W.contents w.old w.new)) }
{
    match style {
        XxdStyle::Normal => dump_columns(r, w, Digits::Hexadecimal { upper: o.upper }, o),
        XxdStyle::Bits => dump_columns(r, w, Digits::Binary, o),
        XxdStyle::Plain => dump_plain(r, w, o),
        XxdStyle::Unbroken => dump_unbroken(r, w, o),
        XxdStyle::Decimal { bits: false } => {
            dump_decimal(r, w, Digits::Hexadecimal { upper: o.upper }, o)
        }
        XxdStyle::Decimal { bits: true } => dump_decimal(r, w, Digits::Binary, o),
        XxdStyle::Words { decimal } => dump_words(r, w, decimal, o),
        XxdStyle::Include(name) => dump_include(r, w, o, name),
    }
}

/// Writes xxd's text of the bytes from place `seek` on, at most `limit` of them, and answers how many they are.
///
/// A seek past the end of the input gives no bytes. The input may have 2^40 bytes, those included that are skipped, and no
/// more of it is read than is needed. Nothing is flushed. After a fault a front of the text of the bytes that were read
/// was written; `WriteFailed` counts it, and at most 2^14 bytes were read ahead of it. `upper` has no effect on `Bits`
/// and `Include`, nor have `group`, `shift` and `autoskip` on `Plain`, `Include` and `Unbroken`, nor has `cols` on `Unbroken`.
pub fn xxd<R: Read, W: Write>(
    r: &mut R,
    w: &mut W,
    style: XxdStyle<'_>,
    o: &XxdOptions,
) -> Result<u64, IoFault>
    requires name { IsCountable style }
    ensures ok { IfOk result (WritesAll (xxd_of style.entry o.now) (R.remaining r.old) (R.remaining r.new) (W.contents w.old) (W.contents w.new)) }
    ensures err { IfErr result (WritesFrontOf (xxd_of style.entry o.now) (R.remaining r.old) (R.remaining r.new) (W.contents w.old) (W.contents w.new)) }
{
    match dump_styled(r, w, style, o) {
        Ok(part) => Ok(part.read),
        Err(fault) => Err(fault),
    }
}
