//! What opening is to answer, by a slow reading of the format of journals and redo texts.
use crate::zeros::read_front;
use std::alloc::{AllocError, Global};

/// The greatest length of an image.
const MOST_LEN: u64 = (1 << 48) - 1;

const MOST_ENTRIES: usize = 65_535;

/// A longer image is not made in a test.
const LARGE: u64 = 1 << 16;

/// Bytes that one line saved.
#[derive(Drop)]
struct Saved {
    at: u64,
    bytes: Vec<u8>,
}

/// The length before a change, and what was saved, in the order of the lines; where it begins, and whether it is of the second
/// form.
#[derive(Drop)]
struct Entry {
    len: u64,
    saved: Vec<Saved>,
    line: u64,
    second: bool,
}

impl Entry {
    fn new(alloc: Global) -> Self {
        Entry {
            len: 0,
            saved: Vec::new(alloc),
            line: 0,
            second: false,
        }
    }
}

#[derive(Clone, Copy, PartialEq, Eq)]
enum Stage {
    Between,
    Saving,
    Ending,
}

/// What was read so far. `told` is the length that the last finished entry tells, `open` the entry that is not finished, `line`
/// the number of the next line, `kept` the bytes up to the end of the last finished entry.
#[derive(Drop)]
struct Reading {
    finished: Vec<Entry>,
    told: Option<u64>,
    stage: Stage,
    open: Entry,
    line: u64,
    kept: usize,
}

/// How a journal's text ends.
#[derive(Clone, Copy)]
pub enum Ending {
    /// Behind a finished entry, or before the first.
    Clean,
    /// In an entry whose change has not touched the image, or in zeros that a loss of power left.
    Dropped,
    /// In the entry of this number, which is taken back.
    Restored { number: u32 },
}

/// Why opening is refused. Lines are counted from 1.
#[derive(Clone, Copy)]
pub enum Refusal {
    Damaged { line: u64 },
    LengthDiffers { expected: u64 },
    RedoDamaged { line: u64 },
}

/// What opening finds and leaves.
#[derive(Drop)]
pub struct Finding {
    pub ending: Ending,
    /// How many changes stand, and how many undone ones can be made again.
    pub changes: u32,
    pub undone: u32,
    pub image: Vec<u8>,
    /// How many bytes of journal and redo text stay.
    pub kept: usize,
    pub kept_redo: usize,
    /// The image once all is undone, where none on the way is large.
    pub first: Option<Vec<u8>>,
}

/// What opening answers.
pub type Verdict = Result<Finding, Refusal>;

fn digit(byte: u8) -> Option<u64> {
    match byte {
        b'0'..=b'9' => Some((byte - b'0') as u64),
        b'a'..=b'f' => Some((byte - b'a') as u64 + 10),
        _ => None,
    }
}

fn any_digit(byte: u8) -> Option<u64> {
    digit(byte.to_ascii_lowercase())
}

/// The number that `width` lower-case digits give.
fn number(text: &[u8], width: usize) -> Option<u64> {
    if text.len() != width {
        return None;
    }
    let mut value = 0u64;
    for byte in text {
        value = value.wrapping_mul(16).wrapping_add(digit(*byte)?);
    }
    Some(value)
}

fn start_head(alloc: Global, second: bool, n: usize) -> Result<String, AllocError> {
    if second {
        format!(in alloc; "change2 {n:08x} ")
    } else {
        format!(in alloc; "change {n:08x} ")
    }
}

fn end_head(alloc: Global, second: bool, n: usize) -> Result<String, AllocError> {
    if second {
        format!(in alloc; "done2 {n:08x} ")
    } else {
        format!(in alloc; "done {n:08x}")
    }
}

fn first_line(alloc: Global, second: bool, n: usize, len: u64) -> Result<String, AllocError> {
    if second {
        format!(in alloc; "change2 {n:08x} {len:016x}")
    } else {
        format!(in alloc; "change {n:08x} {len:08x}")
    }
}

/// The least line that ends an entry.
fn least_end(alloc: Global, second: bool, n: usize) -> Result<String, AllocError> {
    if second {
        format!(in alloc; "done2 {n:08x} 0000000000000000")
    } else {
        format!(in alloc; "done {n:08x}")
    }
}

fn save_line(alloc: Global, n: usize) -> Result<String, AllocError> {
    format!(in alloc; "save {n:08x}")
}

fn width_of(second: bool) -> usize {
    if second { 16 } else { 8 }
}

/// A line that begins as is given, and goes on as another one.
fn completed(alloc: Global, front: &[u8], least: &[u8]) -> Result<Vec<u8>, AllocError> {
    let mut line = front.to_vec(alloc)?;
    let (_, behind) = least.split_at(front.len().min(least.len()));
    line.extend_from_slice(behind)?;
    Ok(line)
}

/// The hexadecimal digits in front, as a number, and what follows them.
fn address(line: &[u8]) -> Option<(u64, &[u8])> {
    let mut value = 0u64;
    let mut rest = line;
    let mut count = 0u32;
    for byte in line {
        let Some(d) = any_digit(*byte) else {
            break;
        };
        value = value.wrapping_mul(16).wrapping_add(d);
        count = count.saturating_add(1);
        let Some((_, behind)) = rest.split_first() else {
            return None;
        };
        rest = behind;
    }
    if count == 0 {
        return None;
    }
    if count > 16 {
        return None;
    }
    if value >= 1 << 62 {
        return None;
    }
    Some((value, rest))
}

fn pair(text: &[u8]) -> Option<(u8, &[u8])> {
    let (high, rest) = text.split_first()?;
    let (low, rest) = rest.split_first()?;
    let value = any_digit(*high)?
        .wrapping_mul(16)
        .wrapping_add(any_digit(*low)?);
    Some(((value % 256) as u8, rest))
}

/// The pair behind at most one space.
fn next_pair(text: &[u8]) -> Option<(u8, &[u8])> {
    match pair(text) {
        Some(found) => Some(found),
        None => pair(text.strip_prefix(b" ")?),
    }
}

/// The pairs of a line, behind its colon and space.
fn pairs(alloc: Global, text: &[u8]) -> Result<Option<Vec<u8>>, AllocError> {
    let mut bytes = Vec::new(alloc);
    let Some((first, behind)) = pair(text) else {
        return Ok(None);
    };
    bytes.push(first)?;
    let mut rest = behind;
    for _ in 0..text.len() {
        let Some((byte, behind)) = next_pair(rest) else {
            break;
        };
        bytes.push(byte)?;
        rest = behind;
    }
    if rest.is_empty() || rest == b" ".as_slice() || rest.starts_with(b"  ") {
        return Ok(Some(bytes));
    }
    Ok(None)
}

fn saved_line(alloc: Global, line: &[u8], len: u64) -> Result<Option<Saved>, AllocError> {
    let Some((at, rest)) = address(line) else {
        return Ok(None);
    };
    let Some(rest) = rest.strip_prefix(b": ") else {
        return Ok(None);
    };
    let Some(bytes) = pairs(alloc, rest)? else {
        return Ok(None);
    };
    let count = bytes.len() as u64;
    if count > 16 || at.saturating_add(count) > len {
        return Ok(None);
    }
    Ok(Some(Saved { at, bytes }))
}

impl Reading {
    fn new(alloc: Global) -> Self {
        Reading {
            finished: Vec::new(alloc),
            told: None,
            stage: Stage::Between,
            open: Entry::new(alloc),
            line: 1,
            kept: 0,
        }
    }

    /// The number of the next entry, or of the one that is not finished.
    fn number(&self) -> usize {
        self.finished.len().saturating_add(1)
    }

    /// Whether the next entry may tell this length.
    fn may_begin(&self, len: u64) -> bool {
        len == self.told.unwrap_or(len) && len <= MOST_LEN && self.number() <= MOST_ENTRIES
    }

    /// The length that a line of this form tells, where the next entry may begin with it.
    fn started(&self, alloc: Global, line: &[u8], second: bool) -> Result<Option<u64>, AllocError> {
        let head = start_head(alloc, second, self.number())?;
        let digits = line.strip_prefix(head.as_bytes()).unwrap_or(b"".as_slice());
        match number(digits, width_of(second)) {
            Some(len) if self.may_begin(len) => Ok(Some(len)),
            _ => Ok(None),
        }
    }

    /// Takes a line that begins an entry.
    fn start(&mut self, alloc: Global, line: &[u8]) -> Result<bool, AllocError> {
        for second in [false, true] {
            if let Some(len) = self.started(alloc, line, second)? {
                self.stage = Stage::Saving;
                self.open = Entry {
                    len,
                    saved: Vec::new(alloc),
                    line: self.line,
                    second,
                };
                return Ok(true);
            }
        }
        Ok(false)
    }

    /// Takes a line behind the first.
    fn save(&mut self, alloc: Global, line: &[u8]) -> Result<bool, AllocError> {
        if line == save_line(alloc, self.number())?.as_bytes() {
            self.stage = Stage::Ending;
            return Ok(true);
        }
        match saved_line(alloc, line, self.open.len)? {
            Some(saved) => {
                self.open.saved.push(saved)?;
                Ok(true)
            }
            None => Ok(false),
        }
    }

    /// The length that a line tells which ends the entry, or none where it is of the first form.
    fn ended(&self, alloc: Global, line: &[u8]) -> Result<Option<Option<u64>>, AllocError> {
        let head = end_head(alloc, self.open.second, self.number())?;
        match line.strip_prefix(head.as_bytes()) {
            Some(b"") if !self.open.second => Ok(Some(None)),
            Some(digits) if self.open.second => match number(digits, 16) {
                Some(len) if len <= MOST_LEN => Ok(Some(Some(len))),
                _ => Ok(None),
            },
            _ => Ok(None),
        }
    }

    /// Takes the line that ends an entry.
    fn end(&mut self, alloc: Global, line: &[u8]) -> Result<bool, AllocError> {
        let Some(told) = self.ended(alloc, line)? else {
            return Ok(false);
        };
        let entry = std::mem::replace(&mut self.open, Entry::new(alloc));
        self.finished.push(entry)?;
        self.told = told;
        self.stage = Stage::Between;
        Ok(true)
    }

    fn take(&mut self, alloc: Global, line: &[u8]) -> Result<bool, AllocError> {
        match self.stage {
            Stage::Between => self.start(alloc, line),
            Stage::Saving => self.save(alloc, line),
            Stage::Ending => self.end(alloc, line),
        }
    }

    /// Whether a line of this form that begins an entry may go on from this.
    fn may_start(&self, alloc: Global, rest: &[u8], second: bool) -> Result<bool, AllocError> {
        let least = first_line(alloc, second, self.number(), self.told.unwrap_or(0))?;
        let line = completed(alloc, rest, least.as_bytes())?;
        Ok(self.started(alloc, line.as_slice(), second)?.is_some())
    }

    /// Whether the line that ends the entry may go on from this.
    fn may_end(&self, alloc: Global, rest: &[u8]) -> Result<bool, AllocError> {
        let least = least_end(alloc, self.open.second, self.number())?;
        let line = completed(alloc, rest, least.as_bytes())?;
        Ok(self.ended(alloc, line.as_slice())?.is_some())
    }

    /// Whether this may stand behind the last newline.
    fn ends_with(&self, alloc: Global, rest: &[u8]) -> Result<bool, AllocError> {
        if rest.is_empty() {
            return Ok(true);
        }
        match self.stage {
            Stage::Between => {
                Ok(self.may_start(alloc, rest, false)? || self.may_start(alloc, rest, true)?)
            }
            Stage::Saving => {
                if rest.starts_with(b"s") {
                    let whole = save_line(alloc, self.number())?;
                    return Ok(whole.as_bytes().starts_with(rest));
                }
                Ok(rest.len() <= 75 && rest.iter().all(|b| *b >= 0x20 && *b <= 0x7e))
            }
            Stage::Ending => self.may_end(alloc, rest),
        }
    }
}

/// Puts bytes at a place; what lies between is zeros. No bytes do nothing.
fn put(image: &mut Vec<u8>, at: usize, bytes: &[u8]) -> Result<(), AllocError> {
    let end = at.saturating_add(bytes.len());
    if bytes.len() > 0 && image.len() < end {
        image.resize(end, 0)?;
    }
    for (i, byte) in bytes.iter().enumerate() {
        if let Some(place) = image.get_mut(at.saturating_add(i)) {
            *place = *byte;
        }
    }
    Ok(())
}

/// The image before a change.
fn restored(alloc: Global, entry: &Entry, image: &[u8]) -> Result<Vec<u8>, AllocError> {
    let mut bytes = image.to_vec(alloc)?;
    bytes.resize(entry.len.min(LARGE) as usize, 0)?;
    for saved in entry.saved.as_slice() {
        put(
            &mut bytes,
            saved.at.min(LARGE) as usize,
            saved.bytes.as_slice(),
        )?;
    }
    Ok(bytes)
}

/// The image once all is undone, where none on the way is large.
fn unwound(alloc: Global, entries: &[Entry], image: &[u8]) -> Result<Option<Vec<u8>>, AllocError> {
    let mut bytes = image.to_vec(alloc)?;
    for entry in entries.iter().rev() {
        if entry.len > LARGE {
            return Ok(None);
        }
        bytes = restored(alloc, entry, bytes.as_slice())?;
    }
    Ok(Some(bytes))
}

/// How a text that was read to its end is found, and the image that is left. `is_whole`: all of it was read.
fn left_of(
    alloc: Global,
    reading: &Reading,
    image: &[u8],
    rest: &[u8],
    is_whole: bool,
) -> Result<(Ending, Vec<u8>), AllocError> {
    match reading.stage {
        Stage::Between if rest.is_empty() && is_whole => Ok((Ending::Clean, image.to_vec(alloc)?)),
        Stage::Between | Stage::Saving => Ok((Ending::Dropped, image.to_vec(alloc)?)),
        Stage::Ending => {
            let number = reading.number().min(MOST_ENTRIES) as u32;
            Ok((
                Ending::Restored { number },
                restored(alloc, &reading.open, image)?,
            ))
        }
    }
}

/// Whether all of a text reads; else the reading ends at the damaged line. Answers what stands behind the last newline too.
fn read<'a>(
    alloc: Global,
    reading: &mut Reading,
    text: &'a [u8],
) -> Result<(bool, &'a [u8]), AllocError> {
    let mut done = 0usize;
    let mut rest = text;
    for part in text.split(|b| *b == b'\n') {
        rest = part;
        done = done.saturating_add(part.len()).saturating_add(1);
        if done > text.len() {
            break;
        }
        if !reading.take(alloc, part)? {
            return Ok((false, rest));
        }
        if reading.stage == Stage::Between {
            reading.kept = done;
        }
        reading.line = reading.line.saturating_add(1);
    }
    Ok((reading.ends_with(alloc, rest)?, rest))
}

/// Where a text that reads to its end has a tail behind its finished entries, which begins at this line.
fn tail_line(reading: &Reading, rest: &[u8]) -> Option<u64> {
    match reading.stage {
        Stage::Between if rest.is_empty() => None,
        Stage::Between => Some(reading.line),
        Stage::Saving | Stage::Ending => Some(reading.open.line),
    }
}

/// The first line of the first entry that is of the first form.
fn first_form_line(entries: &[Entry]) -> Option<u64> {
    let entry = entries.iter().find(|e| !e.second)?;
    Some(entry.line)
}

/// The first line of the first entry that is one too many beside `changes` changes.
fn excess_line(entries: &[Entry], changes: u32) -> Option<u64> {
    let most = MOST_ENTRIES.saturating_sub(changes as usize);
    Some(entries.get(most)?.line)
}

/// The last line, where it tells of an image of another length.
fn off_line(reading: &Reading, image: &[u8]) -> Option<u64> {
    match reading.told {
        Some(expected) if expected != image.len() as u64 => Some(reading.line.saturating_sub(1)),
        _ => None,
    }
}

/// The line at which a redo text is refused, of the causes in their order.
fn refused_line(reading: &Reading, image: &[u8], rest: &[u8], changes: u32) -> Option<u64> {
    let entries = reading.finished.as_slice();
    tail_line(reading, rest)
        .or(first_form_line(entries))
        .or(excess_line(entries, changes))
        .or(off_line(reading, image))
}

/// How many undone images opening is to find beside `changes` changes, where image and journal are in order.
fn judge_redo(
    alloc: Global,
    image: &[u8],
    redo: &[u8],
    changes: u32,
) -> Result<Result<u32, Refusal>, AllocError> {
    let mut reading = Reading::new(alloc);
    let (reads, rest) = read(alloc, &mut reading, redo)?;
    let refused = if reads {
        refused_line(&reading, image, rest, changes)
    } else {
        Some(reading.line)
    };
    match refused {
        Some(line) => Ok(Err(Refusal::RedoDamaged { line })),
        None => Ok(Ok(count_of(&reading))),
    }
}

fn count_of(reading: &Reading) -> u32 {
    reading.finished.len().min(MOST_ENTRIES) as u32
}

/// What opening is to find where the journal was read, and the image that is left has the length that it tells.
fn found(
    alloc: Global,
    reading: &Reading,
    ending: Ending,
    image: Vec<u8>,
    redo: &[u8],
) -> Result<Verdict, AllocError> {
    let changes = count_of(reading);
    let (undone, kept_redo) = match ending {
        Ending::Clean => match judge_redo(alloc, image.as_slice(), redo, changes)? {
            Ok(undone) => (undone, redo.len()),
            Err(fault) => return Ok(Err(fault)),
        },
        _ => (0, 0),
    };
    let first = unwound(alloc, reading.finished.as_slice(), image.as_slice())?;
    Ok(Ok(Finding {
        ending,
        changes,
        undone,
        image,
        kept: reading.kept,
        kept_redo,
        first,
    }))
}

/// What opening is to answer of an image, a journal and a redo text.
pub fn judge(
    alloc: Global,
    image: &[u8],
    journal: &[u8],
    redo: &[u8],
) -> Result<Verdict, AllocError> {
    let mut reading = Reading::new(alloc);
    let text = read_front(journal);
    let (reads, rest) = read(alloc, &mut reading, text)?;
    if !reads {
        return Ok(Err(Refusal::Damaged { line: reading.line }));
    }
    let is_whole = text.len() == journal.len();
    let (ending, left) = left_of(alloc, &reading, image, rest, is_whole)?;
    match reading.told {
        Some(expected) if expected != left.len() as u64 => {
            Ok(Err(Refusal::LengthDiffers { expected }))
        }
        _ => found(alloc, &reading, ending, left, redo),
    }
}
