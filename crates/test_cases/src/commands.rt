//! Cases of commands, and the ways in which one is played.
mod behind;
mod follower;
mod growths;
mod rows;
mod stops;

use crate::commands::behind::{Lost, Next, Nothing, Stopped};
use crate::commands::growths::play_growths;
use crate::commands::rows::{first_texts, play_each, play_once};
use crate::commands::stops::{Calls, play_stops};
use bx_image::Device;
use bx_journal_store::TextStore;
use std::alloc::Global;
use test_case_files::CommandsCase;
use test_case_sessions::report::tally::{Failure, at};
use test_case_sessions::session::medium::{DEVICES, PageCache, WAYS};
use test_case_sessions::session::places::{Files, Memory, Pages, Place};
use test_case_sessions::sweep::weight::{
    is_large, is_swept, loss_step, odd, opening_step, stop_step,
};

/// The ways in which a case of commands is played.
pub static SWEEPS: [&str; 9] = [
    "in memory",
    "in pages",
    "in files",
    "growths refused",
    "calls failing",
    "openings stopped",
    "power lost",
    "power lost again",
    "power lost behind unsynced commands",
];

/// Plays a case in one way. Tells how often.
pub fn play_commands(rt: &HostRuntime, case: &CommandsCase, sweep: usize) -> Result<u32, Failure> {
    let alloc = rt.alloc();
    match sweep {
        3..=8 if is_large(case) => Ok(0),
        0 => play_at(alloc, &Memory, case),
        1 => play_at(alloc, &Pages, case),
        2 => play_at(alloc, &Files::new(rt), case),
        3 => play_growths(alloc, case),
        _ => play_stopped(alloc, case, sweep),
    }
}

/// Plays a case that is stopped at its calls.
fn play_stopped(alloc: Global, case: &CommandsCase, sweep: usize) -> Result<u32, Failure> {
    let (ways, step) = match sweep {
        4 => (WAYS, stop_step(case)),
        5 => (WAYS, opening_step(case)),
        6 => (DEVICES, odd(stop_step(case))),
        _ => (DEVICES, loss_step(case)),
    };
    let calls = Calls { ways, step };
    let seen = Vec::new(alloc);
    match sweep {
        4 => play_stops(alloc, &Memory, case, calls, &mut Nothing),
        5 => play_stops(alloc, &Memory, case, calls, &mut Stopped { seen }),
        6 => play_stops(alloc, &PageCache, case, calls, &mut Nothing),
        7 => play_stops(alloc, &PageCache, case, calls, &mut Lost { seen }),
        _ => {
            let disk = first_texts(case);
            play_stops(alloc, &Memory, case, calls, &mut Next { disk, seen })
        }
    }
}

/// Plays a case at a place, with the devices opened again behind each command; and where it isn't large behind any one of
/// them, and at the end alone.
fn play_at<D: Device + Drop, T: TextStore + Drop, P: Place<D, T>>(
    alloc: Global,
    place: &P,
    case: &CommandsCase,
) -> Result<u32, Failure> {
    play_each(alloc, place, case)?;
    if is_large(case) {
        return Ok(1);
    }
    let mut plays = 1u32;
    for behind in 0..case.rows.len() {
        if is_swept(behind, case.rows.len()) {
            if let Err(wrong) = play_once(alloc, place, case, behind) {
                return Err(at(plays, wrong));
            }
            plays = plays.saturating_add(1);
        }
    }
    Ok(plays)
}
