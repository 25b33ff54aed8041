//! The line of an image before a command that first recovers what is unfinished: what is known of it still holds behind both.
ghost use Rattle.std.specs.Prelude.{◌≡◌, ◌<◌, ◌≤◌, length, IfOk, IfErr};
ghost use Rattle.bx_image.specs.Power.{NoMore};
ghost use Rattle.bx_journal_format.specs.Shown.{shown};
ghost use Rattle.bx_journal_model.specs.Looking.{LooksAt, LooksThrough};
ghost use Rattle.bx_journal_read.specs.scan.Recovery.{FindFault};
ghost use Rattle.bx_journal_image.specs.Seal.{AreKeptAt, AreKeptBehind, IsOpenSeal, bare_line, open_line};

use crate::advice::NO_CHANGES;
use crate::judging::unfinished::strike_marked;
use crate::line::digest::Digest;
use crate::line::form::ImageLine;
use crate::line::marks::Marks;
use bx_journal_model::{Mark, SessionFault};
use bx_journal_read::{Found, read_text};
use bx_journal_store::TextStore;
use std::alloc::Allocator;

/// How many bytes of a text are read at a time.
const WINDOW: usize = 65_536;

/// The line that says nothing of an image.
fn bare_line() -> ImageLine
    ensures { result ≡ bare_line }
{
    let marks: Marks = [None; 32];
    ImageLine {
        changes: NO_CHANGES,
        undone: 0,
        length: 0,
        last: Digest { high: 0, low: 0 },
        next: Digest { high: 0, low: 0 },
        others: 0,
        least: 0,
        most: u64::MAX,
        marks,
    }
}

/// The line on the image that a line is on, on no texts, of any length, and of these blocks.
fn open_line(line: &ImageLine, marks: Marks) -> ImageLine
    ensures { result ≡ open_line line.now marks }
{
    ImageLine {
        changes: NO_CHANGES,
        undone: line.undone,
        length: line.length,
        last: line.last,
        next: line.next,
        others: line.others,
        least: 0,
        most: u64::MAX,
        marks,
    }
}

/// The blocks of a line, but for those that the record touches which stands at a mark of the journal; none where a line of the record
/// is longer than a window.
fn keep_marks<T: TextStore, A: Allocator + Clone>(
    alloc: &A,
    journal: &mut T,
    line: &ImageLine,
    mark: Mark,
) -> Result<Marks, SessionFault>
    requires countable { T.failures journal.old < u64.MAX }
    requires order { mark.lines ≤ mark.saved }
    requires within { T.faithful journal.old → mark.saved ≤ length (T.text journal.old) }
    ensures marks { T.faithful journal.old → IfOk result (AreKeptAt line.now (T.text journal.old) mark) }
    ensures looks { LooksThrough T.TextStore result journal.old journal.new }
{
    let mut room = vec![in alloc.clone()?; 0u8; WINDOW]?;
    match strike_marked(journal, room.as_mut_slice(), line, mark) {
        Ok(Some(marks)) => Ok(marks),
        Ok(None) => Ok([None; 32]),
        Err(_) => Err(SessionFault::DeviceFailed),
    }
}

/// The blocks of a line, but for those that the recovery of the journal may write.
fn marks_behind<T: TextStore, A: Allocator + Clone>(
    alloc: &A,
    journal: &mut T,
    line: &ImageLine,
) -> Result<Marks, SessionFault>
    requires { T.failures journal.old < u64.MAX }
    ensures marks { T.faithful journal.old → IfOk result (AreKeptBehind line.now (T.text journal.old)) }
    ensures fault { IfErr result (FindFault (T.faithful journal.old) (shown (T.text journal.old))) }
    ensures looks { LooksAt T.faithful T.text T.failures result journal.old journal.new }
    ensures survives { T.faithful journal.old → NoMore (T.survives journal.old) (T.survives journal.new) }
{
    let found = match read_text(alloc, journal) {
        Ok(found) => found,
        Err(fault) => return Err(fault),
    };
    let Found::Unfinished(torn) = found else {
        return Ok(line.marks);
    };
    let Some(mark) = torn.mark else {
        return Ok(line.marks);
    };
    match keep_marks(alloc, journal, line, mark) {
        Ok(marks) => Ok(marks),
        Err(fault) => Err(fault),
    }
}

/// The line before a command that first recovers what is unfinished in the journal, by the line that was found: what that tells of the
/// blocks which the recovery doesn't write. It is on no texts, and any length is one that the command leaves. It takes what reading the
/// journal takes, then 64 KiB, and only reads.
///
/// # Errors
/// As of reading the journal: `Damaged`, `NoMemory`, `DeviceFailed`.
pub fn seal_unfinished<T: TextStore, A: Allocator + Clone>(
    alloc: &A,
    journal: &mut T,
    line: Option<ImageLine>,
) -> Result<ImageLine, SessionFault>
    requires { T.failures journal.old < u64.MAX }
    ensures line { T.faithful journal.old → IfOk result (IsOpenSeal line (T.text journal.old)) }
    ensures fault { IfErr result (FindFault (T.faithful journal.old) (shown (T.text journal.old))) }
    ensures looks { LooksAt T.faithful T.text T.failures result journal.old journal.new }
    ensures survives { T.faithful journal.old → NoMore (T.survives journal.old) (T.survives journal.new) }
{
    let Some(line) = line else {
        return Ok(bare_line());
    };
    match marks_behind(alloc, journal, &line) {
        Ok(marks) => Ok(open_line(&line, marks)),
        Err(fault) => Err(fault),
    }
}
