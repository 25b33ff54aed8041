//! The runs of an input in each encoding.
ghost use Rattle.std.specs.Prelude.{IfOk, IfErr};
ghost use Rattle.bx_dump.specs.Pages.{WritesAll, WritesFrontOf};
ghost use Rattle.bx_dump.specs.Strings.{strings_of};

use crate::strings::dump::chars::scan::strings_of_chars;
use crate::strings::dump::strings_of_bytes;
use crate::strings::options::{Encoding, StringsOptions};
use bx_text::IoFault;
use std::io::{Read, Write};

/// Writes all maximal runs of at least `least` characters, by rising place, each on a line and where asked behind its place,
/// and answers how many bytes were read. Of a character the lowest byte is shown.
///
/// With seven bits a character is a byte that prints (0x20 to 0x7e). Else a tab prints, too (GNU strings), and where the bytes at
/// a place are no character the next one may begin at the second of them.
///
/// The input may have 2^40 bytes. Nothing is allocated or flushed. After a fault a front of the text of the bytes that
/// were read was written; `WriteFailed` counts it, and at most 2^14 bytes were read ahead of it.
#[inline(never)]
pub fn strings<R: Read, W: Write>(r: &mut R, w: &mut W, o: &StringsOptions) -> Result<u64, IoFault>
    ensures ok { IfOk result (WritesAll (strings_of o.now) (R.remaining r.old) (R.remaining r.new) (W.contents w.old) (W.contents w.new)) }
    ensures err { IfErr result (WritesFrontOf (strings_of o.now) (R.remaining r.old) (R.remaining r.new) (W.contents w.old) (W.contents w.new)) }
{
    match o.encoding {
        Encoding::SevenBits => strings_of_bytes(r, w, o),
        Encoding::EightBits | Encoding::SixteenBits { .. } | Encoding::ThirtyTwoBits { .. } => {
            strings_of_chars(r, w, o)
        }
    }
}
