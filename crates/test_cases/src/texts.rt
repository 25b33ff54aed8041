//! Cases of texts that are opened.
mod damage;
mod growths;
mod zeros;

use crate::texts::damage::{changed_bytes, fronts};
use crate::texts::growths::OpeningOf;
use crate::texts::zeros::fronts_with_zeros;
use bx_image::Device;
use bx_journal_store::TextStore;
use std::alloc::Global;
use test_case_files::TextCase;
use test_case_sessions::report::compare::{Wrong, differs, same_bytes};
use test_case_sessions::session::answers::found_so;
use test_case_sessions::session::devices::{Held, Texts, Wanted, in_memory};
use test_case_sessions::session::medium::{DEVICES, Medium, OPENING_WAYS, PageCache};
use test_case_sessions::session::open::open;
use test_case_sessions::session::places::{Files, Memory, Pages, Place};
use test_case_sessions::session::standing::{again_with, hold};
use test_case_sessions::sweep::hunt::each_growth;
use test_case_sessions::sweep::images::{History, Images, history_of};
use test_case_sessions::sweep::recovery::openings;

/// The ways in which a text is opened.
pub static SWEEPS: [&str; 10] = [
    "in memory",
    "in pages",
    "in files",
    "all undone",
    "growths refused",
    "openings stopped",
    "power lost",
    "fronts",
    "changed bytes",
    "fronts with zeros",
];

/// Opens a text in one way. Tells how often.
pub fn play_text(rt: &HostRuntime, case: &TextCase, sweep: usize) -> Result<u32, Wrong> {
    let alloc = rt.alloc();
    let wanted = &case.outcome.found;
    let texts = texts_of(case);
    match sweep {
        0 => opens(alloc, &Memory, case),
        1 => opens(alloc, &Pages, case),
        2 => opens(alloc, &Files::new(rt), case),
        3 => all_undone(alloc, case),
        4 => each_growth(alloc, &OpeningOf { wanted, texts }),
        5 => stopped(alloc, &Memory, OPENING_WAYS, case),
        6 => stopped(alloc, &PageCache, DEVICES, case),
        7 => fronts(alloc, texts),
        8 => changed_bytes(alloc, texts, case.all_changes),
        _ => fronts_with_zeros(alloc, texts),
    }
}

/// What is opened.
fn texts_of(case: &TextCase) -> Texts<'_> {
    Texts {
        image: case.image.as_slice(),
        journal: case.journal.as_slice(),
        redo: case.redo.as_slice(),
    }
}

/// What the case says, or what was there before.
fn or_before<'a>(told: &'a Option<Vec<u8>>, before: &'a Vec<u8>) -> &'a [u8] {
    match told {
        Some(bytes) => bytes.as_slice(),
        None => before.as_slice(),
    }
}

/// What is left.
fn left_of(case: &TextCase) -> Wanted<'_> {
    Wanted {
        image: Some(or_before(&case.outcome.image, &case.image)),
        journal: Some(or_before(&case.outcome.journal, &case.journal)),
        redo: Some(or_before(&case.outcome.redo, &case.redo)),
    }
}

/// Opens the text at a place.
fn opens<D: Device + Drop, T: TextStore + Drop, P: Place<D, T>>(
    alloc: Global,
    place: &P,
    case: &TextCase,
) -> Result<u32, Wrong> {
    match open(alloc, place.devices(alloc, texts_of(case))?) {
        Ok((session, found)) => {
            found_so(alloc, &case.outcome.found, Ok(found))?;
            let _ = again_with(alloc, place, session, left_of(case))?;
        }
        Err((devices, fault)) => {
            let mut devices = devices;
            found_so(alloc, &case.outcome.found, Err(fault))?;
            hold(alloc, &mut devices, left_of(case))?;
        }
    }
    Ok(1)
}

/// The images of what is opened; none where it isn't opened.
fn history(alloc: Global, case: &TextCase) -> Result<Option<History>, Wrong> {
    match open(alloc, in_memory(alloc, texts_of(case))?) {
        Ok((session, _)) => Ok(Some(history_of(alloc, session)?)),
        Err(_) => Ok(None),
    }
}

/// The image below all changes is this one.
fn same_first(alloc: Global, wanted: &[u8], history: &History) -> Result<(), Wrong> {
    match history.images.first() {
        Some(image) => same_bytes(alloc, "first image", wanted, image.as_slice()),
        None => Err(Wrong::Unknown),
    }
}

/// Undoes all that stands.
fn all_undone(alloc: Global, case: &TextCase) -> Result<u32, Wrong> {
    let Some(first) = &case.outcome.first else {
        return Ok(0);
    };
    match history(alloc, case)? {
        Some(history) => same_first(alloc, first.as_slice(), &history)?,
        None => return Err(differs(alloc, "first image", "an opening", "a fault")),
    }
    Ok(1)
}

/// Stops the opening at each call of each device, in `ways` ways, and what is left again.
fn stopped<D: Device + Drop, T: TextStore + Drop, M: Medium<D, T>>(
    alloc: Global,
    medium: &M,
    ways: u32,
    case: &TextCase,
) -> Result<u32, Wrong> {
    let Some(history) = history(alloc, case)? else {
        return Ok(0);
    };
    let expected = Images::of(alloc, &history)?;
    let left = Held::new(alloc, texts_of(case))?;
    let mut seen = Vec::new(alloc);
    openings(alloc, medium, ways, left, &expected, &mut seen)
}
