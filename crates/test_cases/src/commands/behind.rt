//! What is done with each thing that a stopped run left: its opening is stopped, or loses power; or the next command does.
use crate::commands::stops::{Behind, Calls, Run, stop_run};
use std::alloc::Global;
use test_case_files::{Answer, Ask, Left, Row, Write};
use test_case_sessions::report::compare::Wrong;
use test_case_sessions::session::devices::{Held, Texts};
use test_case_sessions::session::medium::{DEVICES, OPENING_WAYS, PageCache, Unsynced};
use test_case_sessions::session::places::Memory;
use test_case_sessions::sweep::images::Images;
use test_case_sessions::sweep::recovery::{is_seen, openings};

/// Nothing.
#[derive(Drop)]
pub struct Nothing;

impl Behind for Nothing {
    fn play(&mut self, _: Global, _: Held, _: &Images<'_>) -> Result<u32, Wrong> {
        Ok(0)
    }
}

/// Its opening is stopped at each call.
#[derive(Drop)]
pub struct Stopped {
    /// What was opened so far.
    pub seen: Vec<Held>,
}

impl Behind for Stopped {
    fn play(&mut self, alloc: Global, left: Held, expected: &Images<'_>) -> Result<u32, Wrong> {
        openings(alloc, &Memory, OPENING_WAYS, left, expected, &mut self.seen)
    }
}

/// The power is lost at each call of its opening.
#[derive(Drop)]
pub struct Lost {
    /// What was opened so far.
    pub seen: Vec<Held>,
}

impl Behind for Lost {
    fn play(&mut self, alloc: Global, left: Held, expected: &Images<'_>) -> Result<u32, Wrong> {
        openings(alloc, &PageCache, DEVICES, left, expected, &mut self.seen)
    }
}

/// It was left without waiting for the disk. The next command opens it, and the power is lost at each of its calls.
#[derive(Drop)]
pub struct Next<'a> {
    /// What is on the disk.
    pub disk: Texts<'a>,
    /// What was left so far.
    pub seen: Vec<Held>,
}

impl Behind for Next<'_> {
    fn play(&mut self, alloc: Global, left: Held, expected: &Images<'_>) -> Result<u32, Wrong> {
        if is_seen(self.seen.as_slice(), left.texts()) {
            return Ok(0);
        }
        let mut rows = Vec::new(alloc);
        rows.push(next_row(alloc, expected, self.seen.len())?)?;
        let run = Run {
            texts: left.texts(),
            rows: &rows,
            calls: Calls {
                ways: DEVICES,
                step: 1,
            },
        };
        let medium = Unsynced { disk: self.disk };
        let stops = match stop_run(alloc, &medium, run, expected, &mut Nothing) {
            Ok(stops) => stops,
            Err(failure) => return Err(failure.wrong),
        };
        self.seen.push(left)?;
        Ok(stops)
    }
}

/// A command, and what it leaves.
fn row_of(ask: Ask, answer: Answer, image: Vec<u8>) -> Row {
    Row {
        line: 0,
        ask,
        answer,
        left: Left {
            image,
            journal: None,
            redo: None,
            log: None,
        },
    }
}

/// The next command: in turn an undo, a redo, and a change, where there is something to undo or redo.
fn next_row(alloc: Global, images: &Images<'_>, turn: usize) -> Result<Row, Wrong> {
    let changes = images.changes.min(65_535) as u32;
    match turn.checked_rem(3) {
        Some(0) if changes > 0 => {
            let answer = Answer::Undone(changes.saturating_sub(1));
            Ok(row_of(Ask::Undo(1), answer, Vec::new(alloc)))
        }
        Some(1) if images.undone() > 0 => {
            let answer = Answer::Redone(changes.saturating_add(1));
            Ok(row_of(Ask::Redo(1), answer, Vec::new(alloc)))
        }
        _ => next_change(alloc, images, changes.saturating_add(1)),
    }
}

/// A change of the first byte, as the change of this number.
fn next_change(alloc: Global, images: &Images<'_>, number: u32) -> Result<Row, Wrong> {
    let mut image = match images.list.get(images.changes) {
        Some(image) => image.to_vec(alloc)?,
        None => return Err(Wrong::Unknown),
    };
    if image.is_empty() {
        image.push(0)?;
    }
    let mut writes = Vec::new(alloc);
    for byte in image.iter_mut().take(1) {
        *byte = !*byte;
        let bytes = vec![in alloc; *byte; 1]?;
        writes.push(Write { at: 0, bytes })?;
    }
    let ask = Ask::Change { base: None, writes };
    Ok(row_of(ask, Answer::Changed(number), image))
}
