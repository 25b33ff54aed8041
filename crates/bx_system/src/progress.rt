//! How far long work is: one line on a terminal, from the first second on, which is erased at the end.
use crate::system::System;
use std::cell::Cell;
use std::io::{self, Read};
use std::time::{Clock, Duration, Instant};

/// Work that takes less time shows nothing, in milliseconds.
const FIRST: u64 = 1000;

/// The count of milliseconds after which the line is written again.
const AGAIN: u64 = 200;

/// The bytes that a part of the work has passed, and the line that shows them. Whoever counts holds a reference to it.
#[derive(Drop)]
pub struct Progress<'r, R> {
    rt: &'r R,
    // when the line is written next; none where it never is
    next: Cell<Option<Instant>>,
    done: Cell<u64>,
    total: Cell<Option<u64>>,
    is_shown: Cell<bool>,
    // whether the next part begins with the first write
    ends_at_write: Cell<bool>,
    /// Whether there is a line.
    pub shows: bool,
}

impl<'r, R: System> Progress<'r, R> {
    /// Nothing is passed yet of `total` bytes, where their number is known. `shows` says whether there is a line.
    pub fn new(rt: &'r R, shows: bool, total: Option<u64>) -> Progress<'r, R> {
        Progress {
            rt,
            next: Cell::new(if shows { after(rt, FIRST) } else { None }),
            done: Cell::new(0),
            total: Cell::new(total),
            is_shown: Cell::new(false),
            ends_at_write: Cell::new(false),
            shows,
        }
    }

    /// Counts bytes that were passed, and writes the line where it is time.
    pub fn pass(&self, count: u64) {
        let Some(next) = self.next.get() else {
            return;
        };
        self.done.set(self.done.get().saturating_add(count));
        if Instant::now(self.rt).is_ok_and(|now| now >= next) {
            self.is_shown.set(true);
            self.next.set(after(self.rt, AGAIN));
            self.write(self.done.get(), self.total.get());
        }
    }

    /// Counts bytes that were written, which may be the first of the next part.
    pub fn pass_written(&self, count: u64) {
        if self.ends_at_write.get() {
            self.begin(None);
        }
        self.pass(count);
    }

    /// Writes the line over the one before.
    fn write(&self, done: u64, total: Option<u64>) {
        let most = total.unwrap_or(done).max(done);
        let (tenth, name) = unit_of(most);
        let (whole, rest) = in_units(done, tenth);
        let _ = match total {
            Some(_) => {
                let (all, last) = in_units(most, tenth);
                eprint!(self.rt; "\r\x1b[Kbx: {whole}.{rest} of {all}.{last} {name}")
            }
            None => eprint!(self.rt; "\r\x1b[Kbx: {whole}.{rest} {name}"),
        };
    }

    /// Erases the line, where there is one: what follows begins where it stood.
    pub fn end(&self) {
        self.next.set(None);
        if self.is_shown.replace(false) {
            let _ = eprint!(self.rt; "\r\x1b[K");
        }
    }

    /// Ends this part of the work, and begins the next one, where nothing is passed yet.
    pub fn begin(&self, total: Option<u64>) {
        self.end();
        if self.shows {
            self.next.set(after(self.rt, FIRST));
        }
        self.done.set(0);
        self.total.set(total);
        self.ends_at_write.set(false);
    }

    /// The same, of a part in which nothing is written: the first write begins the one behind it.
    pub fn begin_reading(&self, total: Option<u64>) {
        self.begin(total);
        self.ends_at_write.set(true);
    }
}

/// The time in `millis` milliseconds; none where no clock tells.
fn after<C: Clock>(clock: &C, millis: u64) -> Option<Instant> {
    Instant::now(clock)
        .ok()?
        .checked_add(Duration::from_millis(millis))
}

/// A tenth of the unit in which `bytes` bytes are given, and the unit's name.
fn unit_of(bytes: u64) -> (u64, &'static str) {
    match bytes {
        0..=999_999 => (100, "kB"),
        1_000_000..=999_999_999 => (100_000, "MB"),
        1_000_000_000..=999_999_999_999 => (100_000_000, "GB"),
        _ => (100_000_000_000, "TB"),
    }
}

/// How many whole units bytes are, and the first digit behind the point.
fn in_units(bytes: u64, tenth: u64) -> (u64, u64) {
    let tenths = bytes / tenth.max(1);
    (tenths / 10, tenths % 10)
}

/// A reader whose bytes are counted.
#[derive(Drop)]
pub struct Counted<'p, 'r, I, R> {
    input: I,
    progress: &'p Progress<'r, R>,
}

impl<'p, 'r, I: Read, R: System> Counted<'p, 'r, I, R> {
    /// A reader of an input.
    pub fn new(input: I, progress: &'p Progress<'r, R>) -> Counted<'p, 'r, I, R> {
        Counted { input, progress }
    }
}

impl<I: Read, R: System> Read for Counted<'_, '_, I, R> {
    fn read(&mut self, buf: &mut [u8]) -> io::Result<usize> {
        let outcome = self.input.read(buf);
        if let Ok(count) = &outcome {
            self.progress.pass(*count as u64);
        }
        outcome
    }
}
