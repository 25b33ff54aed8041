//! What was left is opened, stands for the images that are expected, and is stopped while it is opened.
use crate::report::compare::{Wrong, unwanted};
use crate::session::answers::{same_opening, same_replies};
use crate::session::ask::{redo, undo};
use crate::session::devices::{Held, Texts, Wanted, in_memory};
use crate::session::fuse::{Fused, found_of, fuse_at, in_fused, is_of_device};
use crate::session::medium::Medium;
use crate::session::open::{MemSession, found_again, open};
use crate::session::places::Memory;
use crate::session::standing::again_with;
use crate::sweep::images::Images;
use bx_cli::Reply;
use bx_image::Device;
use bx_journal_store::TextStore;
use std::alloc::Global;
use test_case_files::Opening;

/// More calls than any play makes, and more states than any leaves to be opened.
pub const MOST_CALLS: u64 = 10_000;

/// Makes the change again that was undone last.
fn redone(alloc: Global, session: &mut MemSession) -> Result<(), Wrong> {
    let changes = session.changes().saturating_add(1);
    let reply = redo(alloc, session, 1)?;
    same_replies(alloc, Reply::Redone { changes }, reply)
}

/// Takes the newest change back.
fn undone(alloc: Global, session: &mut MemSession) -> Result<(), Wrong> {
    let left = session.changes().saturating_sub(1);
    let reply = undo(alloc, session, 1)?;
    same_replies(alloc, Reply::Undone { left }, reply)
}

/// Makes the change again that was undone last. It leaves this image.
fn step_on(alloc: Global, session: MemSession, image: &[u8]) -> Result<MemSession, Wrong> {
    let mut session = session;
    redone(alloc, &mut session)?;
    let wanted = left_by(session.changes(), image);
    again_with(alloc, &Memory, session, wanted)
}

/// What `changes` changes leave: this image, and of none no journal.
fn left_by(changes: u32, image: &[u8]) -> Wanted<'_> {
    Wanted {
        image: Some(image),
        journal: if changes == 0 { Some(b"") } else { None },
        redo: None,
    }
}

/// Takes the newest change back, where there is one. The image before is this one.
fn step_back(alloc: Global, session: MemSession, image: &[u8]) -> Result<MemSession, Wrong> {
    let wanted = left_by(session.changes(), image);
    let mut session = again_with(alloc, &Memory, session, wanted)?;
    if session.changes() > 0 {
        undone(alloc, &mut session)?;
    }
    Ok(session)
}

/// Makes all changes again that were undone, one by one. No redo text is left.
fn all_made(
    alloc: Global,
    session: MemSession,
    expected: &Images<'_>,
) -> Result<MemSession, Wrong> {
    let mut session = session;
    for image in expected
        .list
        .iter()
        .skip(expected.changes.saturating_add(1))
    {
        session = step_on(alloc, session, image)?;
    }
    let wanted = Wanted {
        image: None,
        journal: None,
        redo: Some(b""),
    };
    again_with(alloc, &Memory, session, wanted)
}

/// A session that was opened is the one that is expected: what was undone is made again, and all changes are taken back, one
/// by one.
pub fn stands_for(alloc: Global, session: MemSession, expected: &Images<'_>) -> Result<(), Wrong> {
    same_opening(alloc, expected.opening(), found_again(&session))?;
    let mut session = all_made(alloc, session, expected)?;
    for image in expected.list.iter().rev() {
        session = step_back(alloc, session, image)?;
    }
    Ok(())
}

/// Opens what was left in memory.
pub fn recovered(alloc: Global, texts: Texts<'_>) -> Result<(MemSession, Opening), Wrong> {
    match open(alloc, in_memory(alloc, texts)?) {
        Ok(found) => Ok(found),
        Err((_, fault)) => Err(unwanted(alloc, "opening", fault)),
    }
}

/// Stops an opening at one call. Answers what may be found then, if it was stopped.
fn stopped_opening<D: Device + Drop, T: TextStore + Drop, M: Medium<D, T>>(
    alloc: Global,
    medium: &M,
    texts: Texts<'_>,
    fused: Fused,
) -> Result<Option<Vec<Held>>, Wrong> {
    match open(alloc, in_fused(alloc, medium, texts, fused)?) {
        Ok(_) => Ok(None),
        Err((devices, fault)) => {
            if !is_of_device(fault) {
                return Err(unwanted(alloc, "opening", fault));
            }
            Ok(Some(found_of(alloc, medium, devices)?))
        }
    }
}

/// What was left, opened, is what is expected.
fn still_stands(alloc: Global, texts: Texts<'_>, expected: &Images<'_>) -> Result<(), Wrong> {
    let (session, _) = recovered(alloc, texts)?;
    stands_for(alloc, session, expected)
}

/// What a stopped opening left stays what is expected. It is added to the list, where nothing left the same bytes.
fn add_found(
    alloc: Global,
    left: Held,
    expected: &Images<'_>,
    list: &mut Vec<Held>,
    opened: &[Held],
) -> Result<(), Wrong> {
    if is_seen(list.as_slice(), left.texts()) || is_seen(opened, left.texts()) {
        return Ok(());
    }
    still_stands(alloc, left.texts(), expected)?;
    list.push(left)?;
    Ok(())
}

/// The same of all that may be found. Tells how many they are.
fn add_each(
    alloc: Global,
    found: Vec<Held>,
    expected: &Images<'_>,
    list: &mut Vec<Held>,
    opened: &[Held],
) -> Result<u32, Wrong> {
    let mut count = 0u32;
    for left in found {
        add_found(alloc, left, expected, list, opened)?;
        count = count.saturating_add(1);
    }
    Ok(count)
}

/// Stops an opening in one way at each call, and adds what each leaves to the list. Tells how often it was stopped.
fn stop_kind<D: Device + Drop, T: TextStore + Drop, M: Medium<D, T>>(
    alloc: Global,
    medium: &M,
    texts: Texts<'_>,
    expected: &Images<'_>,
    kind: u32,
    list: &mut Vec<Held>,
    opened: &[Held],
) -> Result<u32, Wrong> {
    let mut stops = 0u32;
    for pass in 0..MOST_CALLS {
        let Some(found) = stopped_opening(alloc, medium, texts, fuse_at(kind, pass))? else {
            break;
        };
        stops = stops.saturating_add(add_each(alloc, found, expected, list, opened)?);
    }
    Ok(stops)
}

/// Stops an opening in each way at each call of each device.
fn stop_each<D: Device + Drop, T: TextStore + Drop, M: Medium<D, T>>(
    alloc: Global,
    medium: &M,
    ways: u32,
    texts: Texts<'_>,
    expected: &Images<'_>,
    list: &mut Vec<Held>,
    opened: &[Held],
) -> Result<u32, Wrong> {
    let mut stops = 0u32;
    for kind in 0..ways {
        let more = stop_kind(alloc, medium, texts, expected, kind, list, opened)?;
        stops = stops.saturating_add(more);
    }
    Ok(stops)
}

/// Whether these bytes were opened before.
pub fn is_seen(seen: &[Held], texts: Texts<'_>) -> bool {
    seen.iter().any(|held| {
        held.image.as_slice() == texts.image
            && held.journal.as_slice() == texts.journal
            && held.redo.as_slice() == texts.redo
    })
}

/// Stops the opening of what was left at each call, in `ways` ways, then that of what is left each time, and so on: each once.
/// Tells how often.
pub fn openings<D: Device + Drop, T: TextStore + Drop, M: Medium<D, T>>(
    alloc: Global,
    medium: &M,
    ways: u32,
    left: Held,
    expected: &Images<'_>,
    seen: &mut Vec<Held>,
) -> Result<u32, Wrong> {
    let mut stops = 0u32;
    let before = seen.len();
    let mut list = Vec::new(alloc);
    list.push(left)?;
    for _ in 0..MOST_CALLS {
        let Some(left) = list.pop() else {
            return Ok(stops);
        };
        let more = stop_new(alloc, medium, ways, left, expected, &mut list, seen, before)?;
        stops = stops.saturating_add(more);
    }
    Err(Wrong::Unknown)
}

/// Stops the opening of what was left at each call, where it wasn't opened before. What was opened behind the first `before`
/// is expected to stand for the same. Tells how often.
fn stop_new<D: Device + Drop, T: TextStore + Drop, M: Medium<D, T>>(
    alloc: Global,
    medium: &M,
    ways: u32,
    left: Held,
    expected: &Images<'_>,
    list: &mut Vec<Held>,
    seen: &mut Vec<Held>,
    before: usize,
) -> Result<u32, Wrong> {
    if is_seen(seen.as_slice(), left.texts()) {
        return Ok(0);
    }
    let (_, opened) = seen.as_slice().split_at(before.min(seen.len()));
    let more = stop_each(alloc, medium, ways, left.texts(), expected, list, opened)?;
    seen.push(left)?;
    Ok(more)
}
