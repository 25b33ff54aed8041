//! Cases of patches.
mod apply;
mod fronts;
mod growths;
mod read;
mod write;

use crate::patches::apply::makes_new;
use crate::patches::fronts::{of_read, of_written};
use crate::patches::growths::{ReadOf, WriteOf};
use crate::patches::read::read_once;
use crate::patches::write::{calls, whole};
use bx_patch::Extent;
use std::alloc::Global;
use test_case_files::{PatchCase, PatchWritten};
use test_case_sessions::report::compare::Wrong;
use test_case_sessions::sweep::hunt::each_growth;

/// Of larger images no growths are refused.
const MOST_SQUEEZED: usize = 4096;

/// The ways in which a case of patches is played.
pub static SWEEPS: [&str; 6] = [
    "written or read",
    "put onto the old image",
    "bytes one by one",
    "writes failing",
    "growths refused",
    "fronts refused",
];

/// Plays a case in one way. Tells how often.
pub fn play_patch(alloc: Global, case: &PatchCase, sweep: usize) -> Result<u32, Wrong> {
    match case {
        PatchCase::Written(case) => play_written(alloc, case, sweep),
        PatchCase::Read(case) => match sweep {
            0 => read_once(alloc, case),
            4 => each_growth(alloc, &ReadOf { case }),
            5 => of_read(alloc, case),
            _ => Ok(0),
        },
    }
}

/// Plays a case of two images in one way.
fn play_written(alloc: Global, case: &PatchWritten, sweep: usize) -> Result<u32, Wrong> {
    match sweep {
        0 => both(alloc, case, usize::MAX),
        1 => makes_new(alloc, case),
        2 => both(alloc, case, 1),
        3 if case.sum.is_none() => calls(alloc, case),
        4 if is_small(case) => each_growth(alloc, &WriteOf { case }),
        5 if case.sum.is_none() => of_written(alloc, case),
        _ => Ok(0),
    }
}

/// The patch, and where the case says it the one with whole rows, to a writer that takes `each` bytes a call.
fn both(alloc: Global, case: &PatchWritten, each: usize) -> Result<u32, Wrong> {
    whole(alloc, case, Extent::Bytes, each)?;
    if case.rows.is_none() {
        return Ok(1);
    }
    whole(alloc, case, Extent::Rows, each)?;
    Ok(2)
}

/// Whether each growth is refused: the images are small, and the case has what is written.
fn is_small(case: &PatchWritten) -> bool {
    case.sum.is_none() && case.old.len().saturating_add(case.new.len()) <= MOST_SQUEEZED
}
