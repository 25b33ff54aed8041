//! Texts that are longer than two windows, in the memory of one or two.
use crate::journal::rows::{Calls, Left, Row, play};
use crate::journal::sessions::{ALL, Finds, Held, NO_STEP, held, open};
use bumpalo::Bump;
use bx_image::MemImage;
use bx_journal::{RecoveryOutcome, Session, SessionFault};
use bx_journal_store::MemText;
use std::alloc::{AllocError, Global};
use std::process::Abort;
use std::test::Fail;
use test_arena::ration;

/// The count of bytes that were overwritten.
pub const LEN: usize = 131_072;

/// Many more than a window has.
const LONGER: usize = 720_896;

/// Full lines begin here, behind single bytes.
const FIRST_ROW: usize = 68;

/// How long a full line is.
pub const LINE: usize = 68;

/// Puts `count` lines of one saved byte behind the others.
fn push_bytes(alloc: Global, text: &mut Vec<u8>, count: usize) -> Result<(), AllocError> {
    for i in 0..count {
        let at = format!(in alloc; "{i:07x}0: ")?;
        text.extend_from_slice(at.as_bytes())?;
        text.extend_from_slice(b"78                                       x\n")?;
    }
    Ok(())
}

/// Puts full lines behind the others, up to this place.
fn push_rows(alloc: Global, text: &mut Vec<u8>, end: usize) -> Result<(), AllocError> {
    for row in FIRST_ROW..end / 16 {
        let at = format!(in alloc; "{row:07x}0: ")?;
        text.extend_from_slice(at.as_bytes())?;
        text.extend_from_slice(b"7878 7878 7878 7878 7878 7878 7878 7878  xxxxxxxxxxxxxxxx\n")?;
    }
    Ok(())
}

/// The journal of a change of an image of `len` bytes, at least `LEN`, that saved `bytes` single bytes and full lines behind
/// them: an entry that is longer than two windows. Each of the bytes moves the windows' ends to another place in a full line.
pub fn long_entry(alloc: Global, len: usize, bytes: usize) -> Result<Vec<u8>, AllocError> {
    let mut text = Vec::new(alloc);
    let first = format!(in alloc; "change2 00000001 {len:016x}\n")?;
    text.extend_from_slice(first.as_bytes())?;
    push_bytes(alloc, &mut text, bytes)?;
    push_rows(alloc, &mut text, len)?;
    let last = format!(in alloc; "save 00000001\ndone2 00000001 {len:016x}\n")?;
    text.extend_from_slice(last.as_bytes())?;
    Ok(text)
}

fn undoes<'a>(session: &mut Session<MemImage, MemText, &'a Bump>) -> bool {
    if session.faults() > 0 {
        return false;
    }
    session.undo(1) == Ok(0)
}

/// What goes through in the memory of an arena.
#[derive(Clone, Copy)]
enum Goal {
    Opening,
    Undo,
    Rollback,
}

fn reaches<'a>(
    alloc: Global,
    bump: &'a Bump,
    start: Held<'_>,
    goal: Goal,
) -> Result<bool, AllocError> {
    match open(bump, held(alloc, start)?) {
        Ok((mut session, found)) => Ok(match goal {
            Goal::Opening => found.changes == 1,
            Goal::Undo => undoes(&mut session),
            Goal::Rollback => found.how == RecoveryOutcome::Restored { number: 1 },
        }),
        Err(_) => Ok(false),
    }
}

fn reaches_in(
    alloc: Global,
    len: usize,
    journal: &[u8],
    bytes: usize,
    goal: Goal,
) -> Result<bool, AllocError> {
    let image = vec![in alloc; b'y'; len]?;
    let bump = ration(alloc, bytes)?;
    reaches(alloc, &bump, (image.as_slice(), journal, b""), goal)
}

// A journal that is longer than two windows is opened in the memory of one.
#[test]
fn long_journal_in_a_window(rt: HostRuntime) -> Result<(), Fail> {
    let text = long_entry(rt.alloc(), LEN, 0)?;
    let opens = reaches_in(rt.alloc(), LEN, text.as_slice(), 270_000, Goal::Opening)?;
    assert!(rt; opens);
    Ok(())
}

// A long entry is taken back in the memory of what it saved, of what is overwritten, of four windows, of the parts of one and of a page,
// where nothing is given back: less than its text alone has, so whoever reads that whole is refused.
#[test]
fn long_entry_in_windows(rt: HostRuntime) -> Result<(), Fail> {
    let text = long_entry(rt.alloc(), LONGER, 0)?;
    assert!(rt; text.len() > 3_000_000);
    let undoes = reaches_in(rt.alloc(), LONGER, text.as_slice(), 2_880_000, Goal::Undo)?;
    assert!(rt; undoes);
    Ok(())
}

// Where that entry has no end line it is rolled back in the memory of two windows and of the lines in one, also with zeros behind its
// `save` line that are longer than a window: less than its text alone has.
#[test]
fn long_rollback_in_windows(rt: HostRuntime) -> Result<(), Fail> {
    let alloc = rt.alloc();
    let mut text = long_entry(alloc, LONGER, 0)?;
    text.truncate(text.len().saturating_sub(32));
    assert!(rt; reaches_in(alloc, LONGER, text.as_slice(), 1_000_000, Goal::Rollback)?);
    text.resize(3_600_000, 0)?;
    assert!(rt; reaches_in(alloc, LONGER, text.as_slice(), 1_000_000, Goal::Rollback)?);
    Ok(())
}

/// Whether opening answers this fault in the memory of an arena of `bytes` bytes.
fn fails_in(
    alloc: Global,
    start: Held<'_>,
    bytes: usize,
    fault: SessionFault,
) -> Result<bool, AllocError> {
    let bump = ration(alloc, bytes)?;
    let held = held(alloc, start)?;
    match open(&bump, held) {
        Ok(_) => Ok(false),
        Err((_, _, _, found)) => Ok(found == fault),
    }
}

/// An entry's first line, and behind it a line without an end that begins so.
fn endless(alloc: Global, front: &[u8], byte: u8) -> Result<Vec<u8>, AllocError> {
    let mut text = Vec::new(alloc);
    text.extend_from_slice(b"change2 00000001 0000000000000001\n")?;
    text.extend_from_slice(front)?;
    text.resize(1_500_000, byte)?;
    Ok(text)
}

// A line without an end that can't be in place is found damaged in the memory of two windows: less than the line has.
#[test]
fn long_damage_in_windows(rt: HostRuntime) -> Result<(), Fail> {
    let alloc = rt.alloc();
    let zeros = vec![in alloc; 0u8; 1_500_000]?;
    let first = SessionFault::Damaged { line: 1 };
    assert!(rt; fails_in(alloc, (b"A", zeros.as_slice(), b""), 600_000, first)?);
    let text = endless(alloc, b"", b'7')?;
    let second = SessionFault::Damaged { line: 2 };
    assert!(rt; fails_in(alloc, (b"A", text.as_slice(), b""), 600_000, second)?);
    let undone = SessionFault::RedoDamaged { line: 1 };
    assert!(rt; fails_in(alloc, (b"A", b"", zeros.as_slice()), 600_000, undone)?);
    let undone = SessionFault::RedoDamaged { line: 2 };
    assert!(rt; fails_in(alloc, (b"A", b"", text.as_slice()), 600_000, undone)?);
    Ok(())
}

// So is one that may be in place up to its end, as a saved line with much text beside its digits.
#[test]
fn long_saved_line_in_windows(rt: HostRuntime) -> Result<(), Fail> {
    let alloc = rt.alloc();
    let text = endless(alloc, b"00000000: 41  ", b'A')?;
    let damaged = SessionFault::Damaged { line: 2 };
    assert!(rt; fails_in(alloc, (b"A", text.as_slice(), b""), 600_000, damaged)?);
    let undone = SessionFault::RedoDamaged { line: 2 };
    assert!(rt; fails_in(alloc, (b"A", b"", text.as_slice()), 600_000, undone)?);
    Ok(())
}

/// An entry of one byte whose saved line has a text column of four megabytes.
fn wide_entry(alloc: Global) -> Result<Vec<u8>, AllocError> {
    let mut text = Vec::new(alloc);
    text.extend_from_slice(b"change2 00000001 0000000000000001\n00000000: 41  ")?;
    text.resize(4_000_000, b'A')?;
    text.extend_from_slice(b"\nsave 00000001\ndone2 00000001 0000000000000001\n")?;
    Ok(text)
}

// One that is in place is opened, taken back and rolled back in the memory of some windows: less than it has.
#[test]
fn wide_line_in_windows(rt: HostRuntime) -> Result<(), Fail> {
    let alloc = rt.alloc();
    let mut text = wide_entry(alloc)?;
    assert!(rt; reaches_in(alloc, 1, text.as_slice(), 300_000, Goal::Opening)?);
    assert!(rt; reaches_in(alloc, 1, text.as_slice(), 2_000_000, Goal::Undo)?);
    text.truncate(text.len().saturating_sub(32));
    assert!(rt; reaches_in(alloc, 1, text.as_slice(), 1_000_000, Goal::Rollback)?);
    Ok(())
}

// A redo text that isn't damaged, but unfinished or of the older form, is refused in the memory of three windows: less than it has.
#[test]
fn unfit_redo_in_windows(rt: HostRuntime) -> Result<(), Fail> {
    let alloc = rt.alloc();
    let first = SessionFault::RedoDamaged { line: 1 };
    let mut text = long_entry(alloc, LONGER, 0)?;
    text.truncate(text.len().saturating_sub(32));
    assert!(rt; fails_in(alloc, (b"A", b"", text.as_slice()), 900_000, first)?);
    let fourth = SessionFault::RedoDamaged { line: 4 };
    let mut older = Vec::new(alloc);
    older.extend_from_slice(b"change2 00000001 00000000000b0000\nsave 00000001\n")?;
    older.extend_from_slice(b"done2 00000001 00000000000b0000\nchange 00000002 000b0000\n")?;
    push_rows(alloc, &mut older, LONGER)?;
    older.extend_from_slice(b"save 00000002\ndone 00000002\n")?;
    assert!(rt; fails_in(alloc, (b"A", b"", older.as_slice()), 900_000, fourth)?);
    Ok(())
}

// A text with a zero, behind which a line of letters ends at this place, and an end line stands behind it.
fn hidden_entry(alloc: Global, ends: usize) -> Result<Vec<u8>, AllocError> {
    let mut text = Vec::new(alloc);
    text.extend_from_slice(b"change2 00000001 0000000000000001\n\0")?;
    text.resize(ends.saturating_sub(1), b'a')?;
    text.extend_from_slice(b"\ndone2 00000001 0000000000000001\n")?;
    Ok(text)
}

const DAMAGED: &[Row] = &[(
    Calls::Image,
    (u64::MAX - 1, u64::MAX),
    ALL,
    Finds::Fails(SessionFault::Damaged { line: 2 }),
    NO_STEP,
    Left::Same,
)];

// What follows a zero is read in windows that begin there, here at 34. Wherever a window's end cuts the end line it is seen, so no loss of
// power left this text.
#[test]
fn end_lines_over_a_window(rt: HostRuntime) -> Result<(), Fail> {
    let alloc = rt.alloc();
    for ends in 262_172..262_180 {
        let text = hidden_entry(alloc, ends)?;
        play(alloc, &rt, (b"A", text.as_slice(), b""), DAMAGED)?;
    }
    Ok(())
}
