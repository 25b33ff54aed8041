//! Plays comparisons of two named files: the image, and the one of the journal's name.
use crate::oddities::{ODDS, Odd, Oddity};
use crate::report::Wrong;
use crate::seen::asked::Asked;
use crate::seen::told::Told;
use crate::seen::{Asking, play_each};
use crate::setting::{Held, names};
use crate::sweeps::Failing;
use bx_patch::Extent;
use bx_world::{FileRole, Names, OpenError};
use std::alloc::Global;
use test_case_files::{Case, PatchCase, PatchWritten, Test};

/// What fails in turn.
const EACH: [Failing; 3] = [Failing::World, Failing::ImageReads, Failing::Output];

/// What is asked of files that hold the two, and what has to come of it.
fn asking_of<'a>(
    alloc: Global,
    names: &'a Names,
    case: &'a PatchWritten,
    extent: Extent,
    text: &'a [u8],
) -> Asking<'a> {
    Asking {
        alloc,
        names,
        held: Held {
            image: case.old.as_slice(),
            journal: case.new.as_slice(),
            redo: b"",
        },
        odd: None,
        asked: Asked::Diff(extent),
        told: Told::Text(text, None),
    }
}

/// The two that a case has, and what is written of them.
fn written_of(case: &Case) -> Result<&PatchWritten, Wrong> {
    match &case.test {
        Test::Patch(PatchCase::Written(written)) => Ok(written),
        _ => Err(Wrong::Unknown),
    }
}

/// Plays a case, by bytes and by rows. Tells whether all are right.
fn play_case(rt: &HostRuntime, case: &Case, names: &Names) -> Result<bool, Wrong> {
    let written = written_of(case)?;
    let _ = print!(rt; "{}, diff", case.name);
    let bytes = written.output.as_slice();
    let asking = asking_of(rt.alloc(), names, written, Extent::Bytes, bytes);
    let right = play_each(rt, &asking, &EACH);
    let Some(rows) = &written.rows else {
        return Err(Wrong::Unknown);
    };
    let _ = print!(rt; "{}, diff --rows", case.name);
    let asking = asking_of(rt.alloc(), names, written, Extent::Rows, rows.as_slice());
    Ok(play_each(rt, &asking, &EACH) && right)
}

/// Whether a comparison can have such a file: one that is missing, or that may be an image or not.
fn is_of_diff(odd: &Odd) -> bool {
    let (_, which, oddity, _) = *odd;
    let is_one = which == FileRole::Image || which == FileRole::Journal;
    is_one
        && matches!(
            oddity,
            Oddity::Missing | Oddity::Folder | Oddity::Mounted | Oddity::ReadOnly
        )
}

/// What has to come of a comparison where a file is odd: it isn't opened, but for a device that may be read.
fn told_of_odd<'a>(told: Told<'a>, odd: &Odd) -> Told<'a> {
    let (_, which, oddity, why) = *odd;
    match oddity {
        Oddity::Mounted | Oddity::ReadOnly => told,
        _ => Told::Unopened(OpenError { which, why }),
    }
}

/// Plays a case where each of its files is odd. Tells whether all are right.
fn play_odds(rt: &HostRuntime, case: &Case, names: &Names) -> Result<bool, Wrong> {
    let written = written_of(case)?;
    let bytes = written.output.as_slice();
    let whole = asking_of(rt.alloc(), names, written, Extent::Bytes, bytes);
    let mut right = true;
    for odd in &ODDS {
        if is_of_diff(odd) {
            let (name, _, _, _) = *odd;
            let _ = print!(rt; "{name}, diff");
            let asking = whole.of_odd(odd, told_of_odd(whole.told, odd));
            right = play_each(rt, &asking, &EACH) && right;
        }
    }
    Ok(right)
}

/// Plays the first case where each file is odd, and then all cases. Tells whether all are right.
pub fn play_diffs(rt: &HostRuntime, cases: &[Case]) -> Result<bool, Wrong> {
    let names = names(rt.alloc())?;
    let Some(first) = cases.first() else {
        return Err(Wrong::Unknown);
    };
    let mut right = play_odds(rt, first, &names)?;
    for case in cases {
        right = play_case(rt, case, &names)? && right;
    }
    Ok(right)
}
