//! Texts of as many entries as there may be.
use crate::journal::rows::assert_held;
use crate::journal::sessions::{ALL, Ask, Finds, Held, NO_STEP, Step, Stops, left_by};
use bx_journal::SessionFault::{JournalFull, RedoDamaged};
use std::alloc::{AllocError, Global};
use std::process::Abort;
use std::test::Fail;

/// The most changes, those that are undone with them.
const MOST: u32 = 65_535;

/// A text of `count` changes of nothing on the empty image.
fn entries(alloc: Global, count: u32) -> Result<Vec<u8>, AllocError> {
    let mut text = Vec::new(alloc);
    for n in 1..=count {
        let entry = format!(in alloc;
            "change2 {n:08x} 0000000000000000\nsave {n:08x}\ndone2 {n:08x} 0000000000000000\n"
        )?;
        text.extend_from_slice(entry.as_bytes())?;
    }
    Ok(text)
}

/// How many changes a journal has, and a redo text; what opening finds, what is asked for, and answered. Nothing is changed.
type Full = (u32, u32, Finds, Step);

// The first entry that makes more than 65,535 changes and undone ones in all is refused.
static BEYOND: [Full; 3] = [
    (MOST, 1, Finds::Fails(RedoDamaged { line: 1 }), NO_STEP),
    (MOST - 1, 2, Finds::Fails(RedoDamaged { line: 4 }), NO_STEP),
    (
        1,
        MOST,
        Finds::Fails(RedoDamaged { line: 196_603 }),
        NO_STEP,
    ),
];

static FULL: [Full; 3] = [
    (MOST - 1, 1, Finds::Clean(MOST - 1, 1), NO_STEP),
    (0, MOST, Finds::Clean(0, MOST), NO_STEP),
    (
        MOST,
        0,
        Finds::Clean(MOST, 0),
        (Ask::Same, Err(JournalFull)),
    ),
];

fn assert_full(rt: &impl Abort, alloc: Global, full: &Full) -> Result<(), AllocError> {
    let (journal, redo) = (entries(alloc, full.0)?, entries(alloc, full.1)?);
    let start: Held<'_> = (b"", journal.as_slice(), redo.as_slice());
    let left = left_by(alloc, rt, start, Stops::Reads(ALL), full.2, full.3)?;
    assert_held(rt, &left, start);
    Ok(())
}

#[test]
fn redo_text_beside_too_many(rt: HostRuntime) -> Result<(), Fail> {
    for full in &BEYOND {
        assert_full(&rt, rt.alloc(), full)?;
    }
    Ok(())
}

#[test]
fn full_texts(rt: HostRuntime) -> Result<(), Fail> {
    for full in &FULL {
        assert_full(&rt, rt.alloc(), full)?;
    }
    Ok(())
}
