//! Texts that are cut off or changed, opened beside the slow judge.
use bx_cli::Fault;
use bx_journal::SessionFault;
use std::alloc::Global;
use test_case_files::Opening;
use test_case_sessions::report::compare::{Wrong, differs, front, same_faults, unwanted};
use test_case_sessions::session::answers::same_opening;
use test_case_sessions::session::ask::undo;
use test_case_sessions::session::devices::{Texts, Wanted, in_memory, texts_in, unchanged};
use test_case_sessions::session::open::{MemSession, close, open};
use test_case_sessions::session::places::Memory;
use test_case_sessions::session::standing::again_with;
use test_case_sessions::sweep::weight::{change_step, is_taken};
use test_oracle::judge::{Ending, Finding, Refusal, Verdict, judge};

/// Undoing all leaves this image, and no journal.
fn unwinds(alloc: Global, session: MemSession, first: &[u8]) -> Result<(), Wrong> {
    let mut session = session;
    let changes = session.changes();
    let _ = undo(alloc, &mut session, changes)?;
    let wanted = Wanted {
        image: Some(first),
        journal: Some(b""),
        redo: None,
    };
    wanted.same(alloc, texts_in(&close(session)))
}

/// What is left: the image, and so much of the texts.
fn left_of<'a>(texts: Texts<'a>, wanted: &'a Finding) -> Wanted<'a> {
    Wanted {
        image: Some(wanted.image.as_slice()),
        journal: Some(front(texts.journal, wanted.kept)),
        redo: Some(front(texts.redo, wanted.kept_redo)),
    }
}

/// How the judge finds it.
fn opening_by(wanted: &Finding) -> Opening {
    let changes = wanted.changes;
    match wanted.ending {
        Ending::Clean => Opening::Clean {
            changes,
            undone: wanted.undone,
        },
        Ending::Dropped => Opening::Dropped { changes },
        Ending::Restored { number } => Opening::Restored { number, changes },
    }
}

/// The fault for which the judge refuses.
fn fault_by(refusal: Refusal) -> SessionFault {
    match refusal {
        Refusal::Damaged { line } => SessionFault::Damaged { line },
        Refusal::LengthDiffers { expected } => SessionFault::LengthDiffers { expected },
        Refusal::RedoDamaged { line } => SessionFault::RedoDamaged { line },
    }
}

/// Opening found what the judge said, and leaves it.
fn found_so(
    alloc: Global,
    session: MemSession,
    found: Opening,
    texts: Texts<'_>,
    verdict: &Verdict,
) -> Result<(), Wrong> {
    let Ok(wanted) = verdict else {
        return Err(differs(alloc, "opening", "a refusal", "no fault"));
    };
    same_opening(alloc, opening_by(wanted), found)?;
    let session = again_with(alloc, &Memory, session, left_of(texts, wanted))?;
    match &wanted.first {
        Some(first) => unwinds(alloc, session, first.as_slice()),
        None => Ok(()),
    }
}

/// A refusal is the one that the judge said.
fn refused_so(alloc: Global, verdict: &Verdict, found: Fault) -> Result<(), Wrong> {
    match verdict {
        Err(wanted) => same_faults(alloc, Fault::Session(fault_by(*wanted)), found),
        Ok(_) => Err(unwanted(alloc, "opening", found)),
    }
}

/// The judge makes no image that is so long. What calls for one isn't opened.
const LONG: usize = 1 << 16;

fn is_long(verdict: &Verdict) -> bool {
    match verdict {
        Ok(found) => found.image.len() >= LONG,
        Err(_) => false,
    }
}

/// Opening answers this.
fn opens_so(alloc: Global, texts: Texts<'_>, verdict: &Verdict) -> Result<(), Wrong> {
    match open(alloc, in_memory(alloc, texts)?) {
        Ok((session, found)) => found_so(alloc, session, found, texts, verdict),
        Err((devices, fault)) => {
            unchanged(alloc, texts, &devices)?;
            refused_so(alloc, verdict, fault)
        }
    }
}

/// Opening answers what the judge answers; where it refuses, nothing changes.
pub fn judged(alloc: Global, texts: Texts<'_>) -> Result<(), Wrong> {
    let verdict = judge(alloc, texts.image, texts.journal, texts.redo)?;
    if is_long(&verdict) {
        return Ok(());
    }
    opens_so(alloc, texts, &verdict)
}

/// The text that is cut off or changed: the journal's, or that of what was undone where there is any.
fn text_of<'a>(texts: Texts<'a>) -> &'a [u8] {
    if texts.redo.is_empty() {
        texts.journal
    } else {
        texts.redo
    }
}

/// The same with another text in its place.
fn with_text<'a>(texts: Texts<'a>, text: &'a [u8]) -> Texts<'a> {
    if texts.redo.is_empty() {
        Texts {
            journal: text,
            ..texts
        }
    } else {
        Texts {
            redo: text,
            ..texts
        }
    }
}

/// Opens each front of the text, or of a long one some. Tells how many they are.
pub fn fronts(alloc: Global, texts: Texts<'_>) -> Result<u32, Wrong> {
    let text = text_of(texts);
    let mut count = 0u32;
    for n in 0..=text.len() {
        if is_taken(n, text.len()) {
            judged(alloc, with_text(texts, front(text, n)))?;
            count = count.saturating_add(1);
        }
    }
    Ok(count)
}

/// Opens the text with each byte changed, in all 255 ways, or in some that lie a step apart. Tells how often.
pub fn changed_bytes(alloc: Global, texts: Texts<'_>, all: bool) -> Result<u32, Wrong> {
    let len = text_of(texts).len();
    let step = if all { 1 } else { change_step(len) };
    let mut count = 0u32;
    for place in 0..len {
        if is_taken(place, len) {
            count = count.saturating_add(changed_byte(alloc, texts, place, step)?);
        }
    }
    Ok(count)
}

/// Opens the text with one byte changed, in one of each `step` ways. Tells how often.
fn changed_byte(alloc: Global, texts: Texts<'_>, place: usize, step: usize) -> Result<u32, Wrong> {
    let mut count = 0u32;
    let first = place.checked_rem(step).unwrap_or(0);
    let mut changed = text_of(texts).to_vec(alloc)?;
    for turn in 1..=255u8 {
        if (turn as usize).checked_rem(step).unwrap_or(0) == first {
            turn_byte(&mut changed, place, turn);
            judged(alloc, with_text(texts, changed.as_slice()))?;
            turn_byte(&mut changed, place, turn);
            count = count.saturating_add(1);
        }
    }
    Ok(count)
}

/// Turns these bits of a byte.
fn turn_byte(text: &mut Vec<u8>, place: usize, turn: u8) {
    if let Some(byte) = text.get_mut(place) {
        *byte ^= turn;
    }
}
