//! Cases of commands, played row by row with nothing in their way.
use bx_image::Device;
use bx_journal::Session;
use bx_journal_store::TextStore;
use std::alloc::Global;
use test_case_files::{Answer, Ask, CommandsCase, Row};
use test_case_sessions::report::compare::Wrong;
use test_case_sessions::session::answers::{same_opening, same_reply};
use test_case_sessions::session::ask::{ask_for, lists};
use test_case_sessions::session::devices::{Held, Texts, Wanted};
use test_case_sessions::session::open::found_again;
use test_case_sessions::session::places::Place;
use test_case_sessions::session::standing::{Standing, again, again_with, opened};

/// What a case begins with.
pub fn first_texts(case: &CommandsCase) -> Texts<'_> {
    Texts {
        image: case.image.as_slice(),
        journal: case.journal.as_slice(),
        redo: case.redo.as_slice(),
    }
}

/// The session that a case begins with, opened as it tells, and again.
pub fn begun<D: Device + Drop, T: TextStore + Drop, P: Place<D, T>>(
    alloc: Global,
    place: &P,
    case: &CommandsCase,
) -> Result<Standing<D, T>, Wrong> {
    let devices = place.devices(alloc, first_texts(case))?;
    let session = opened(alloc, devices, case.opening)?;
    again(alloc, place, session)
}

/// Asks for what a row tells, and compares the reply and the log.
fn play_ask<D: Device + Drop, T: TextStore + Drop>(
    alloc: Global,
    session: &mut Session<D, T>,
    row: &Row,
) -> Result<(), Wrong> {
    let reply = ask_for(alloc, session, &row.ask, None)?;
    same_reply(alloc, &row.answer, reply)?;
    same_log(alloc, session, row)
}

/// The log is the one that a row tells.
fn same_log<D: Device + Drop, T: TextStore + Drop>(
    alloc: Global,
    session: &mut Session<D, T>,
    row: &Row,
) -> Result<(), Wrong> {
    let Some(log) = &row.left.log else {
        return Ok(());
    };
    if lists(alloc, alloc, session, log.as_slice())? {
        return Ok(());
    }
    Err(Wrong::NoMemory)
}

/// What a row leaves. A fault leaves the texts as they were.
fn left_by<'a>(row: &'a Row, before: &'a Held) -> Wanted<'a> {
    let kept = matches!(&row.answer, Answer::Refused(_));
    Wanted {
        image: Some(row.left.image.as_slice()),
        journal: wanted_text(&row.left.journal, &before.journal, kept),
        redo: wanted_text(&row.left.redo, &before.redo, kept),
    }
}

/// The text that is wanted, where the case says it, or it stays.
fn wanted_text<'a>(told: &'a Option<Vec<u8>>, before: &'a Vec<u8>, kept: bool) -> Option<&'a [u8]> {
    match told {
        Some(text) => Some(text.as_slice()),
        None if kept => Some(before.as_slice()),
        None => None,
    }
}

/// What a row tells of a session that was just opened.
fn answer<D: Device + Drop, T: TextStore + Drop>(
    alloc: Global,
    session: &mut Session<D, T>,
    row: &Row,
) -> Result<(), Wrong> {
    match (&row.ask, &row.answer) {
        (Ask::Open, Answer::Opened(wanted)) => same_opening(alloc, *wanted, found_again(session)),
        _ => play_ask(alloc, session, row),
    }
}

/// A row of a session that was just opened, and is opened again behind it.
pub fn play_row<D: Device + Drop, T: TextStore + Drop, P: Place<D, T>>(
    alloc: Global,
    place: &P,
    standing: Standing<D, T>,
    row: &Row,
) -> Result<Standing<D, T>, Wrong> {
    let Standing { session, held } = standing;
    let mut session = session;
    answer(alloc, &mut session, row)?;
    let behind = again(alloc, place, session)?;
    left_by(row, &held).same(alloc, behind.held.texts())?;
    Ok(behind)
}

/// The rows with the devices closed and opened behind each.
pub fn play_each<D: Device + Drop, T: TextStore + Drop, P: Place<D, T>>(
    alloc: Global,
    place: &P,
    case: &CommandsCase,
) -> Result<(), Wrong> {
    let mut standing = begun(alloc, place, case)?;
    for row in &case.rows {
        standing = play_row(alloc, place, standing, row)?;
    }
    Ok(())
}

/// The rows with the devices closed and opened behind this one alone, and at the end.
pub fn play_once<D: Device + Drop, T: TextStore + Drop, P: Place<D, T>>(
    alloc: Global,
    place: &P,
    case: &CommandsCase,
    behind: usize,
) -> Result<(), Wrong> {
    let Standing { session, .. } = begun(alloc, place, case)?;
    let mut session = session;
    for (i, row) in case.rows.iter().enumerate() {
        session = play_next(alloc, place, session, row, i == behind)?;
    }
    if let Some(row) = case.rows.last() {
        let _ = again_with(alloc, place, session, told_by(row))?;
    }
    Ok(())
}

/// A row of a session; the devices are closed and opened behind it where that is asked for, or the row tells it.
fn play_next<D: Device + Drop, T: TextStore + Drop, P: Place<D, T>>(
    alloc: Global,
    place: &P,
    session: Session<D, T>,
    row: &Row,
    is_closed: bool,
) -> Result<Session<D, T>, Wrong> {
    let is_open = matches!(&row.ask, Ask::Open);
    let mut session = session;
    if !is_open {
        play_ask(alloc, &mut session, row)?;
    }
    if is_open || is_closed {
        return again_with(alloc, place, session, told_by(row));
    }
    Ok(session)
}

/// What a row tells of the image and the journal.
fn told_by(row: &Row) -> Wanted<'_> {
    Wanted {
        image: Some(row.left.image.as_slice()),
        journal: match &row.left.journal {
            Some(journal) => Some(journal.as_slice()),
            None => None,
        },
        redo: None,
    }
}
