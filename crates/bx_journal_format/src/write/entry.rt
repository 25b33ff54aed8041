//! The lines around what an entry saves.
ghost use Rattle.std.specs.Prelude.{◌≡◌, ◌<◌, length};
ghost use Rattle.bx_journal_format.specs.declared.format.version.Version.TheVariants.{Second};
ghost use Rattle.bx_journal_format.specs.Line.{start_line, end_line};
ghost use Rattle.bx_journal_format.specs.Entry.{end_text};

use crate::Version;
use crate::format::words::{Words, end_head, push_number, start_head};

/// The line that begins an entry, with the length of the image before the change.
#[tactic(auto, unfolding(crate::specs::Line::start_line))]
pub fn start_words(number: u32, len: u64) -> Words
    ensures text { result ≡ start_line Second number len }
    ensures short { length result < 34 }
{
    let mut line = start_head(Version::Second, number);
    push_number(&mut line, 16, len);
    line
}

/// The line that ends an entry, with the length of the image after the change.
#[tactic(auto, unfolding(crate::specs::Line::end_line))]
pub fn entry_end(number: u32, after: u64) -> Words
    ensures text { result ≡ end_text number after }
{
    let mut line = end_head(Version::Second, number);
    push_number(&mut line, 16, after);
    line.push(b'\n');
    line
}
