//! Cases of commands with each growth refused in turn.
use crate::commands::rows::{begun, play_row};
use bumpalo::Bump;
use bx_cli::Reply;
use bx_image::MemImage;
use bx_journal_store::MemText;
use std::alloc::Global;
use test_case_files::{Ask, CommandsCase, Row};
use test_case_sessions::report::compare::{Wrong, is_out_of_memory, same_bytes, unwanted};
use test_case_sessions::report::tally::{Failure, at};
use test_case_sessions::session::answers::same_reply;
use test_case_sessions::session::ask::{Limit, ask_for, eased, limit_to, lists};
use test_case_sessions::session::devices::{MemDevices, Texts, in_memory, unchanged};
use test_case_sessions::session::open::{MemSession, close, open};
use test_case_sessions::session::places::Memory;
use test_case_sessions::session::standing::Standing;
use test_case_sessions::sweep::hunt::{Call, each_growth};
use test_case_sessions::sweep::weight::is_swept;

/// Refuses each growth of each command of a case in turn, and of each log. Tells how many they were.
pub fn play_growths(alloc: Global, case: &CommandsCase) -> Result<u32, Failure> {
    let mut standing = begun(alloc, &Memory, case)?;
    let mut growths = 0u32;
    for (i, row) in case.rows.iter().enumerate() {
        let swept = is_swept(i, case.rows.len());
        match next_row(alloc, standing, row, swept, &mut growths) {
            Ok(next) => standing = next,
            Err(wrong) => return Err(at(growths, wrong)),
        }
    }
    Ok(growths)
}

/// Plays a row. Where it is swept, the growths of its command are refused before it, and those of its log behind it.
fn next_row(
    alloc: Global,
    standing: Standing<MemImage, MemText>,
    row: &Row,
    swept: bool,
    growths: &mut u32,
) -> Result<Standing<MemImage, MemText>, Wrong> {
    if swept {
        let more = row_growths(alloc, standing.held.texts(), row)?;
        *growths = growths.saturating_add(more);
    }
    let standing = play_row(alloc, &Memory, standing, row)?;
    if swept {
        let more = log_growths(alloc, standing.held.texts(), row)?;
        *growths = growths.saturating_add(more);
    }
    Ok(standing)
}

/// Refuses each growth of a command in turn. Tells how many they were.
fn row_growths(alloc: Global, texts: Texts<'_>, row: &Row) -> Result<u32, Wrong> {
    if matches!(&row.ask, Ask::Open) {
        return Ok(0);
    }
    each_growth(alloc, &Asking { texts, row })
}

/// A command on what devices hold.
#[derive(Clone, Copy)]
struct Asking<'a> {
    texts: Texts<'a>,
    row: &'a Row,
}

impl Call for Asking<'_> {
    fn make<'a>(
        &self,
        alloc: Global,
        bump: &'a Bump,
        limit: Limit<'_>,
    ) -> Result<Option<usize>, Wrong> {
        let mut session = opened_in(alloc, bump, self.texts)?;
        let reply = ask_for(bump, &mut session, &self.row.ask, limit)?;
        let has_room = had_room(alloc, self, reply, &close(session))?;
        Ok(eased(limit, !has_room))
    }
}

/// Whether there was memory for a command. It answered and left what the case tells, or left all as it was.
fn had_room<'a>(
    alloc: Global,
    asking: &Asking<'_>,
    reply: Reply,
    devices: &MemDevices<&'a Bump>,
) -> Result<bool, Wrong> {
    let row = asking.row;
    match reply {
        Reply::Refused(fault) if is_out_of_memory(fault) => {
            unchanged(alloc, asking.texts, devices)?;
            Ok(false)
        }
        _ => {
            same_reply(alloc, &row.answer, reply)?;
            let image = row.left.image.as_slice();
            same_bytes(alloc, "image", image, devices.image.as_slice())?;
            Ok(true)
        }
    }
}

/// The log of what devices hold.
#[derive(Clone, Copy)]
struct Listing<'a> {
    texts: Texts<'a>,
    log: &'a [u8],
}

impl Call for Listing<'_> {
    fn make<'a>(
        &self,
        alloc: Global,
        bump: &'a Bump,
        limit: Limit<'_>,
    ) -> Result<Option<usize>, Wrong> {
        let mut session = opened_in(alloc, bump, self.texts)?;
        let refused = listed(alloc, bump, &mut session, self.log, limit)?;
        if refused.is_some() {
            unchanged(alloc, self.texts, &close(session))?;
        }
        Ok(refused)
    }
}

/// Lists the changes of a session, and where there is too little memory again with enough.
fn listed<'a>(
    alloc: Global,
    bump: &'a Bump,
    session: &mut MemSession<&'a Bump>,
    log: &[u8],
    limit: Limit<'_>,
) -> Result<Option<usize>, Wrong> {
    limit_to(limit)?;
    let has_room = lists(alloc, bump, session, log)?;
    let refused = eased(limit, !has_room);
    if !has_room && !lists(alloc, bump, session, log)? {
        return Err(Wrong::NoMemory);
    }
    Ok(refused)
}

/// Refuses each growth of the log that a row tells in turn. Tells how many they were.
fn log_growths(alloc: Global, texts: Texts<'_>, row: &Row) -> Result<u32, Wrong> {
    match &row.left.log {
        Some(log) => {
            let log = log.as_slice();
            each_growth(alloc, &Listing { texts, log })
        }
        None => Ok(0),
    }
}

/// A session in an arena that has room.
fn opened_in<'a>(
    alloc: Global,
    bump: &'a Bump,
    texts: Texts<'_>,
) -> Result<MemSession<&'a Bump>, Wrong> {
    match open(bump, in_memory(bump, texts)?) {
        Ok((session, _)) => Ok(session),
        Err((_, fault)) => Err(unwanted(alloc, "opening", fault)),
    }
}
