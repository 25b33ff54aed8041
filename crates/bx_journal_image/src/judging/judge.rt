//! Whether an image is the one that a line has the digests of.
ghost use Rattle.std.specs.Prelude.{◌≡◌, ◌+◌, ◌/◌, ◌^◌, ◌<◌, ◌≤◌, length, is_err, IfOk};
ghost use Rattle.bx_image.specs.Cached.{OnlyReadsImage};
ghost use Rattle.bx_journal_image.specs.Blocks.{AreWholeMarks, AreRead, IsBlockRead, IsJudged, block_at, block_digest, block_len, short_digest};

use crate::blocks::places::{block_at, block_len};
use crate::line::digest::digest_of;
use crate::line::form::ImageLine;
use crate::line::marks::{BLOCKS, Marks};
use bx_image::{Device, DeviceFailed};

/// What an image is by its blocks.
#[derive(Clone, Copy, Debug, PartialEq, Eq)]
pub enum Verdict {
    /// Each block that is known is as it was, and one is known.
    Same,
    /// One that is known is another.
    Other,
    /// None is known.
    Untold,
}

/// The digest of a block.
fn short_digest(bytes: &[u8]) -> u32
    ensures { result ≡ short_digest bytes.now }
{
    (digest_of(bytes).high >> 32) as u32
}

/// Reads a block into the room for one, and digests it.
fn read_block<D: Device>(
    image: &mut D,
    total: u64,
    i: usize,
    room: &mut [u8],
) -> Result<u32, DeviceFailed>
    requires countable { D.failures image.old < u64.MAX }
    requires block { i < 32 }
    requires room { length room.old ≡ 4096 }
    requires range { D.faithful image.old → block_at total i + block_len total ≤ length (D.image image.old) }
    ensures digest { D.faithful image.old → IfOk result (λ d. d ≡ block_digest total i (D.image image.old)) }
    ensures room { length room.new ≡ 4096 }
    ensures reads { OnlyReadsImage D.Device (is_err result) image.old image.new }
{
    let (bytes, _) = room.split_at_mut(block_len(total));
    image.read_at(block_at(total, i), bytes)?;
    Ok(short_digest(bytes))
}

/// Reads a block where it is known and an image of `len` bytes has it, and compares.
fn judge_block<D: Device>(
    image: &mut D,
    total: u64,
    len: u64,
    mark: Option<u32>,
    i: usize,
    room: &mut [u8],
) -> Result<Verdict, DeviceFailed>
    requires countable { D.failures image.old < u64.MAX }
    requires block { i < 32 }
    requires room { length room.old ≡ 4096 }
    requires long { D.faithful image.old → len ≡ length (D.image image.old) }
    ensures read { D.faithful image.old → IfOk result (IsBlockRead total mark i (D.image image.old)) }
    ensures room { length room.new ≡ 4096 }
    ensures reads { OnlyReadsImage D.Device (is_err result) image.old image.new }
{
    let Some(known) = mark else {
        return Ok(Verdict::Untold);
    };
    if block_at(total, i) + block_len(total) as u64 > len {
        return Ok(Verdict::Untold);
    }
    let found = read_block(image, total, i, room)?;
    if found == known {
        Ok(Verdict::Same)
    } else {
        Ok(Verdict::Other)
    }
}

/// What an image is by the digests of the blocks of one of `total` bytes. It is only read, a block at a time into the room for one;
/// blocks that it doesn't have say nothing.
pub fn judge_blocks<D: Device>(
    image: &mut D,
    total: u64,
    marks: &Marks,
    room: &mut [u8],
) -> Result<Verdict, DeviceFailed>
    requires countable { D.failures image.old < u64.MAX }
    requires room { length room.old ≡ 4096 }
    ensures verdict { D.faithful image.old → IfOk result (AreRead 32 total marks.now (D.image image.old)) }
    ensures room { length room.new ≡ 4096 }
    ensures reads { OnlyReadsImage D.Device (is_err result) image.old image.new }
{
    let len = image.len()?;
    let mut verdict = Verdict::Untold;
    for i in 0..BLOCKS {
        match judge_block(image, total, len, marks[i], i, room)? {
            Verdict::Other => return Ok(Verdict::Other),
            Verdict::Same => verdict = Verdict::Same,
            Verdict::Untold => {}
        }
    }
    Ok(verdict)
}

/// What an image is by a line, of whose blocks those are struck that a stopped command touches: another one also where that command
/// can't have made its length.
pub fn judge_image<D: Device>(
    image: &mut D,
    line: &ImageLine,
    marks: &Marks,
    room: &mut [u8],
) -> Result<Verdict, DeviceFailed>
    requires countable { D.failures image.old < u64.MAX }
    requires room { length room.old ≡ 4096 }
    ensures verdict { D.faithful image.old → IfOk result (IsJudged line.now marks.now (D.image image.old)) }
    ensures room { length room.new ≡ 4096 }
    ensures reads { OnlyReadsImage D.Device (is_err result) image.old image.new }
{
    let len = image.len()?;
    if len < line.least || line.most < len {
        return Ok(Verdict::Other);
    }
    judge_blocks(image, line.length, marks, room)
}

/// An image's length, and the digests of its blocks.
#[derive(Clone, Copy, Debug, PartialEq, Eq)]
pub struct Blocks {
    /// How many bytes the image has.
    pub total: u64,
    /// The digest of each block.
    pub marks: Marks,
}

/// Reads each block of an image of `total` bytes, one after another into the room for one.
fn mark_all<D: Device>(image: &mut D, total: u64, room: &mut [u8]) -> Result<Marks, DeviceFailed>
    requires countable { D.failures image.old < u64.MAX }
    requires room { length room.old ≡ 4096 }
    requires long { D.faithful image.old → total ≡ length (D.image image.old) }
    ensures marks { D.faithful image.old → IfOk result (AreWholeMarks (D.image image.old)) }
    ensures room { length room.new ≡ 4096 }
    ensures reads { OnlyReadsImage D.Device (is_err result) image.old image.new }
{
    let mut marks: Marks = [None; 32];
    for k in 0..BLOCKS {
        marks[k] = Some(read_block(image, total, k, room)?);
    }
    Ok(marks)
}

/// The digests of the blocks of an image that is here as a whole.
fn mark_bytes(bytes: &[u8]) -> Marks
    requires { length bytes.now ≤ 4096 }
    ensures { AreWholeMarks bytes.now result }
{
    let total = bytes.len() as u64;
    let size = block_len(total);
    let mut marks: Marks = [None; 32];
    for block in 0..BLOCKS {
        let at = block_at(total, block) as usize;
        marks[block] = Some(short_digest(&bytes[at..at + size]));
    }
    marks
}

/// Reads an image that is no longer than the room at once: its blocks are next to one another, and each read is a call of the system.
fn mark_short<D: Device>(image: &mut D, total: u64, room: &mut [u8]) -> Result<Marks, DeviceFailed>
    requires countable { D.failures image.old < u64.MAX }
    requires room { length room.old ≡ 4096 }
    requires few { total ≤ 4096 }
    requires long { D.faithful image.old → total ≡ length (D.image image.old) }
    ensures marks { D.faithful image.old → IfOk result (AreWholeMarks (D.image image.old)) }
    ensures room { length room.new ≡ 4096 }
    ensures reads { OnlyReadsImage D.Device (is_err result) image.old image.new }
{
    let (bytes, _) = room.split_at_mut(total as usize);
    image.read_at(0, bytes)?;
    Ok(mark_bytes(bytes))
}

/// The digests of the blocks of an image of `total` bytes.
fn mark_blocks<D: Device>(image: &mut D, total: u64, room: &mut [u8]) -> Result<Marks, DeviceFailed>
    requires countable { D.failures image.old < u64.MAX }
    requires room { length room.old ≡ 4096 }
    requires long { D.faithful image.old → total ≡ length (D.image image.old) }
    ensures marks { D.faithful image.old → IfOk result (AreWholeMarks (D.image image.old)) }
    ensures room { length room.new ≡ 4096 }
    ensures reads { OnlyReadsImage D.Device (is_err result) image.old image.new }
{
    if total <= 4096 {
        mark_short(image, total, room)
    } else {
        mark_all(image, total, room)
    }
}

/// The blocks of an image, which is only read.
pub fn mark_image<D: Device>(image: &mut D, room: &mut [u8]) -> Result<Blocks, DeviceFailed>
    requires countable { D.failures image.old < u64.MAX }
    requires room { length room.old ≡ 4096 }
    ensures total { D.faithful image.old → IfOk result (λ b. b.total ≡ length (D.image image.old)) }
    ensures marks { D.faithful image.old → IfOk result (λ b. AreWholeMarks (D.image image.old) b.marks) }
    ensures room { length room.new ≡ 4096 }
    ensures reads { OnlyReadsImage D.Device (is_err result) image.old image.new }
{
    let total = image.len()?;
    let marks = mark_blocks(image, total, room)?;
    Ok(Blocks { total, marks })
}
