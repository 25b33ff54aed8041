//! What of an input can fit onto a block device.
use bx_dd::{Plan, Shape};
use std::io::{self, Read};

/// What is counted of an input.
#[derive(Clone, Copy)]
enum Unit {
    Bytes,
    /// Bytes that are no spaces, and the ends of records.
    Kept,
    Newlines,
}

/// An input of dd that ends where what was read can't fit any more, whatever follows: an input without end is refused like one
/// that is too long.
#[derive(Drop)]
pub struct Fitting<I> {
    /// The input itself.
    pub input: I,
    // the bytes that dd skips
    skipped: u64,
    // what may be read behind them
    left: u64,
    unit: Unit,
    // the bytes of a record, and the place in the one that is being read
    cbs: u64,
    place: u64,
}

/// What of an input makes an output of more than `room` bytes: each byte makes one, but under `unblock` each that is no space and
/// the end of each record, and under `block` each line `cbs`.
fn enough(plan: &Plan, room: u64) -> (u64, Unit) {
    // A byte more than fits is read, to tell an input that is too long from one that just fits.
    let over = room.saturating_add(1);
    match plan.shape {
        Shape::Flat => (over, Unit::Bytes),
        Shape::Unblock => (over, Unit::Kept),
        Shape::Block => ((room / plan.cbs.max(1)).saturating_add(1), Unit::Newlines),
    }
}

impl<I> Fitting<I> {
    /// An input behind `passed` bytes, for an image that has this length and can't have another one; for any other image all of
    /// the input.
    pub fn new(input: I, plan: &Plan, passed: u64, length: Option<u64>) -> Fitting<I> {
        let skipped = plan.skip.saturating_mul(plan.ibs).saturating_sub(passed);
        let front = plan.seek.saturating_mul(plan.obs);
        let (left, unit) = match length {
            Some(length) => enough(plan, length.saturating_sub(front)),
            None => (u64::MAX, Unit::Bytes),
        };
        Fitting {
            input,
            skipped,
            left,
            unit,
            cbs: plan.cbs,
            place: 0,
        }
    }

    /// Whether all was read that can be.
    pub fn is_full(&self) -> bool {
        self.left == 0
    }

    /// How many bytes the next read may give.
    fn most(&self) -> u64 {
        if self.skipped > 0 {
            self.skipped
        } else if self.left > 0 && matches!(self.unit, Unit::Newlines) {
            u64::MAX
        } else {
            self.left
        }
    }

    /// Counts bytes that were read.
    fn count(&mut self, bytes: &[u8]) {
        let length = bytes.len() as u64;
        if self.skipped > 0 {
            self.skipped = self.skipped.saturating_sub(length);
        } else {
            let units = match self.unit {
                Unit::Bytes => length,
                Unit::Kept => self.kept(bytes),
                Unit::Newlines => newlines(bytes),
            };
            self.left = self.left.saturating_sub(units);
        }
    }

    /// The bytes that are no spaces, and the ends of records.
    fn kept(&mut self, bytes: &[u8]) -> u64 {
        let mut found = 0u64;
        for byte in bytes {
            if *byte != b' ' {
                found = found.saturating_add(1);
            }
            self.place = self.place.saturating_add(1);
            if self.place >= self.cbs {
                self.place = 0;
                found = found.saturating_add(1);
            }
        }
        found
    }
}

fn newlines(bytes: &[u8]) -> u64 {
    let mut found = 0u64;
    for byte in bytes {
        if *byte == b'\n' {
            found = found.saturating_add(1);
        }
    }
    found
}

impl<I: Read> Read for Fitting<I> {
    fn read(&mut self, buf: &mut [u8]) -> io::Result<usize> {
        let most = self.most().min(buf.len() as u64) as usize;
        if most == 0 {
            return Ok(0);
        }
        let found = self.input.read(&mut buf[..most])?;
        self.count(&buf[..found.min(most)]);
        Ok(found)
    }
}
