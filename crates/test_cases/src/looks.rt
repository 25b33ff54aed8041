//! Cases of looks at an image's changes.
mod growths;
mod shown;

use crate::looks::growths::LookOf;
use crate::looks::shown::{show, shown_so};
use bx_cli::list_ranges;
use bx_image::Device;
use bx_journal_store::TextStore;
use std::alloc::Global;
use test_case_files::{Look, LooksCase, Shows};
use test_case_sessions::report::compare::{Wrong, same_bytes, same_fault};
use test_case_sessions::session::MANY;
use test_case_sessions::session::devices::{Devices, Texts};
use test_case_sessions::session::fuse::{LOCKED, fuse};
use test_case_sessions::session::places::{Files, Memory, Pages, Place};
use test_case_sessions::sweep::hunt::each_growth;

/// Of a longer journal no growths are refused.
const MOST_SQUEEZED: usize = 8192;

/// The ways in which the looks of a case are played.
pub static SWEEPS: [&str; 4] = ["in memory", "in pages", "in files", "growths refused"];

/// Plays the looks of a case in one way. Tells how often.
pub fn play_looks(rt: &HostRuntime, case: &LooksCase, sweep: usize) -> Result<u32, Wrong> {
    let alloc = rt.alloc();
    match sweep {
        0 => all(alloc, &Memory, case),
        1 => all(alloc, &Pages, case),
        2 => all(alloc, &Files::new(rt), case),
        _ => all_growths(alloc, case),
    }
}

/// What is looked at.
fn texts_of(case: &LooksCase) -> Texts<'_> {
    Texts {
        image: case.image.as_slice(),
        journal: case.journal.as_slice(),
        redo: case.redo.as_slice(),
    }
}

/// The log with ranges, and then each look.
fn all<D: Device + Drop, T: TextStore + Drop, P: Place<D, T>>(
    alloc: Global,
    place: &P,
    case: &LooksCase,
) -> Result<u32, Wrong> {
    let mut plays = ranges(alloc, place, case)?;
    for look in &case.looks {
        plays = plays.saturating_add(look_at(alloc, place, case, look)?);
    }
    Ok(plays)
}

/// The log with ranges, where the case tells it.
fn ranges<D: Device + Drop, T: TextStore + Drop, P: Place<D, T>>(
    alloc: Global,
    place: &P,
    case: &LooksCase,
) -> Result<u32, Wrong> {
    let Some(wanted) = &case.ranges else {
        return Ok(0);
    };
    let Devices { journal, .. } = place.devices(alloc, texts_of(case))?;
    let mut journal = journal;
    if journal.faults() > MANY {
        return Err(Wrong::Unknown);
    }
    let mut found = Vec::new(alloc);
    if let Err(fault) = list_ranges(&alloc, &mut journal, &mut found) {
        same_fault(alloc, "no fault", fault)?;
    }
    same_bytes(alloc, "ranges", wanted.as_slice(), found.as_slice())?;
    Ok(1)
}

/// One look, and where the case tells it the one beside what the image has.
fn look_at<D: Device + Drop, T: TextStore + Drop, P: Place<D, T>>(
    alloc: Global,
    place: &P,
    case: &LooksCase,
    look: &Look,
) -> Result<u32, Wrong> {
    once(alloc, place, case, look, false)?;
    if let Shows::Text { compared: None, .. } = &look.shows {
        return Ok(1);
    }
    once(alloc, place, case, look, true)?;
    Ok(2)
}

/// One look, at devices that refuse each write.
fn once<D: Device + Drop, T: TextStore + Drop, P: Place<D, T>>(
    alloc: Global,
    place: &P,
    case: &LooksCase,
    look: &Look,
    compares: bool,
) -> Result<(), Wrong> {
    let devices = fuse(place.devices(alloc, texts_of(case))?, LOCKED)?;
    let mut found = Vec::new(alloc);
    let outcome = show(alloc, devices, look, compares, &mut found);
    shown_so(alloc, look, compares, found.as_slice(), outcome)
}

/// Refuses each growth of each look in turn.
fn all_growths(alloc: Global, case: &LooksCase) -> Result<u32, Wrong> {
    if case.journal.len() > MOST_SQUEEZED {
        return Ok(0);
    }
    let texts = texts_of(case);
    let mut growths = 0u32;
    for look in &case.looks {
        growths = growths.saturating_add(each_growth(alloc, &LookOf { look, texts })?);
    }
    Ok(growths)
}
