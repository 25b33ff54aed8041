//! When the line advises against an undo or a redo.
ghost use Rattle.std.specs.Prelude.{◌≡◌};
ghost use Rattle.bx_journal_image.specs.Advice.{is_about, is_changed, is_older, is_redo_refused, is_undo_refused, on_no_texts, others_after};

use crate::line::digest::{Digest, is_same};
use crate::line::form::ImageLine;
use crate::line::marks::Marks;

/// A count of changes that no journal has: a line with it is on no texts.
pub const NO_CHANGES: u32 = u32::MAX;

/// What a command finds: how many changes stand and are undone, how long the image is, and the digests of what it has in the ranges
/// of the last change and of the one that was undone last.
#[derive(Clone, Copy, Debug, PartialEq, Eq)]
pub struct Standing {
    /// How many changes stand.
    pub changes: u32,
    /// How many are undone.
    pub undone: u32,
    /// How many bytes the image has.
    pub length: u64,
    /// The digest of what it has where the last change wrote.
    pub last: Digest,
    /// The same of the change that was undone last.
    pub next: Digest,
}

impl Standing {
    /// The same for a line that is on no texts.
    pub fn on_no_texts(self) -> Standing
        ensures { result ≡ on_no_texts self }
    {
        Standing {
            changes: NO_CHANGES,
            undone: self.undone,
            length: self.length,
            last: self.last,
            next: self.next,
        }
    }

    /// The line on it, and on the blocks of the image, which no command is changing.
    pub fn line(self, others: u32, marks: Marks) -> ImageLine
        ensures changes { result.changes ≡ self.changes }
        ensures undone { result.undone ≡ self.undone }
        ensures length { result.length ≡ self.length }
        ensures last { result.last ≡ self.last }
        ensures next { result.next ≡ self.next }
        ensures others { result.others ≡ others }
        ensures lengths { (result.least ≡ self.length) × (result.most ≡ self.length) }
        ensures marks { result.marks ≡ marks }
    {
        ImageLine {
            changes: self.changes,
            undone: self.undone,
            length: self.length,
            last: self.last,
            next: self.next,
            others,
            least: self.length,
            most: self.length,
            marks,
        }
    }
}

/// Whether the line is on these texts and an image of this length: one of others says nothing.
pub fn is_about(line: &ImageLine, now: &Standing) -> bool
    ensures { result ≡ is_about line.now now.now }
{
    line.changes == now.changes && line.undone == now.undone && line.length == now.length
}

/// Whether the texts are older than the line: an undo leaves no line that counts changes before it takes them from the journal, so only
/// an older text in the place of one makes them fewer.
pub fn is_older(line: &ImageLine, now: &Standing) -> bool
    ensures { result ≡ is_older line.now now.now }
{
    if line.changes == NO_CHANGES || now.changes >= line.changes {
        return false;
    }
    let all = now.changes as u64 + now.undone as u64;
    let counted = line.changes as u64 + line.undone as u64;
    all < counted && all > 0
}

/// Whether the image isn't the one that the last command on the texts left.
pub fn is_changed(line: &ImageLine, now: &Standing) -> bool
    ensures { result ≡ is_changed line.now now.now }
{
    is_older(line, now) || is_about(line, now) && !is_same(line.last, now.last)
}

/// Whether an undo of `count` changes is refused: the image was changed since, or some of them stand for another image. One of none,
/// or of more than stand, isn't.
pub fn is_undo_refused(line: &ImageLine, now: &Standing, count: u32) -> bool
    ensures { result ≡ is_undo_refused line.now now.now count }
{
    if count == 0 || count > now.changes {
        return false;
    }
    is_changed(line, now) || is_about(line, now) && now.changes - count < line.others
}

/// Whether a redo of `count` changes is refused: the texts are older than the line, or the image was changed since. One of none, or of
/// more than are undone, isn't.
pub fn is_redo_refused(line: &ImageLine, now: &Standing, count: u32) -> bool
    ensures { result ≡ is_redo_refused line.now now.now count }
{
    if count == 0 || count > now.undone {
        return false;
    }
    is_older(line, now) || is_about(line, now) && !is_same(line.next, now.next)
}

/// How many of the oldest changes stand for another image, once a command is done on what was found: all that stood where the image was
/// changed since, else as many as before.
pub fn others_after(line: &ImageLine, now: &Standing) -> u32
    ensures { result ≡ others_after line.now now.now }
{
    if is_changed(line, now) {
        return now.changes;
    }
    if is_about(line, now) { line.others } else { 0 }
}
