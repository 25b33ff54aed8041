//! Cases on devices that fail at each of their calls: what is left is opened again, and stands for images that it may.
use crate::commands::follower::Follower;
use crate::commands::rows::{begun, first_texts};
use bx_image::Device;
use bx_journal_store::TextStore;
use std::alloc::Global;
use test_case_files::{Ask, CommandsCase, Opening, Row};
use test_case_sessions::report::compare::{Wrong, differs, unwanted};
use test_case_sessions::report::tally::{Failure, at};
use test_case_sessions::session::ask::ask_for;
use test_case_sessions::session::devices::{Held, Texts};
use test_case_sessions::session::fuse::{
    Fused, FusedDevices, FusedSession, found_of, fuse_at, in_fused, is_of_device,
};
use test_case_sessions::session::medium::Medium;
use test_case_sessions::session::open::{close, open};
use test_case_sessions::session::places::Memory;
use test_case_sessions::session::standing::Standing;
use test_case_sessions::sweep::images::{History, Images, history_of};
use test_case_sessions::sweep::recovery::{MOST_CALLS, recovered, stands_for};

/// Asks for what a row tells, if the list of images can follow it.
fn run_row<'a, D: Device + Drop, T: TextStore + Drop>(
    alloc: Global,
    session: &mut FusedSession<D, T>,
    row: &'a Row,
    follower: &mut Follower<'a>,
) -> Result<(), Wrong> {
    if matches!(&row.ask, Ask::Open) || !follower.can_follow(row) {
        return Ok(());
    }
    let reply = ask_for(alloc, session, &row.ask, None)?;
    follower.follow(alloc, row, reply)
}

/// Runs rows on devices that were opened, or not. Hands the devices back.
fn run_rows<'a, D: Device + Drop, T: TextStore + Drop>(
    alloc: Global,
    devices: FusedDevices<D, T>,
    rows: &'a Vec<Row>,
    follower: &mut Follower<'a>,
) -> Result<FusedDevices<D, T>, Wrong> {
    match open(alloc, devices) {
        Ok((session, _)) => {
            let mut session = session;
            run_each(alloc, &mut session, rows, follower)?;
            Ok(close(session))
        }
        Err((devices, fault)) => {
            if !is_of_device(fault) {
                return Err(unwanted(alloc, "opening", fault));
            }
            follower.refuse();
            Ok(devices)
        }
    }
}

/// Runs rows.
fn run_each<'a, D: Device + Drop, T: TextStore + Drop>(
    alloc: Global,
    session: &mut FusedSession<D, T>,
    rows: &'a Vec<Row>,
    follower: &mut Follower<'a>,
) -> Result<(), Wrong> {
    for row in rows {
        run_row(alloc, session, row, follower)?;
    }
    Ok(())
}

/// Another number of changes stands than may.
fn too_many(alloc: Global, least: usize, most: usize, changes: usize) -> Wrong {
    let Ok(wanted) = format!(in alloc; "{least} to {most}") else {
        return Wrong::NoMemory;
    };
    match format!(in alloc; "{changes}") {
        Ok(found) => differs(alloc, "changes", wanted.as_str(), found.as_str()),
        Err(_) => Wrong::NoMemory,
    }
}

/// Opens what a run left: the changes that stand are within the follower's bounds. Answers the images that it stands for.
fn follows<'a>(alloc: Global, left: &Held, follower: &Follower<'a>) -> Result<Images<'a>, Wrong> {
    let (session, found) = recovered(alloc, left.texts())?;
    if follower.is_at_rest() && !matches!(found, Opening::Clean { .. }) {
        return Err(differs(alloc, "opening", "finished entries", "others"));
    }
    let changes = session.changes() as usize;
    let (least, most) = follower.bounds();
    if changes < least || changes > most {
        return Err(too_many(alloc, least, most, changes));
    }
    let expected = follower.expected(alloc, found, changes)?;
    stands_for(alloc, session, &expected)?;
    Ok(expected)
}

/// The images that a case begins with.
fn first_of(alloc: Global, case: &CommandsCase) -> Result<History, Wrong> {
    let Standing { session, .. } = begun(alloc, &Memory, case)?;
    history_of(alloc, session)
}

/// What is done with each thing that a stopped run left.
pub trait Behind {
    /// What was left stands for these images. Tells how often it was stopped.
    fn play(&mut self, alloc: Global, left: Held, expected: &Images<'_>) -> Result<u32, Wrong>;
}

/// Which calls fail.
#[derive(Clone, Copy)]
pub struct Calls {
    /// In how many ways.
    pub ways: u32,
    /// Between two of them: how far the second is behind the first.
    pub step: u64,
}

/// A run: what devices hold, what is asked for, and which calls fail.
#[derive(Clone, Copy)]
pub struct Run<'a, 'b> {
    pub texts: Texts<'a>,
    pub rows: &'b Vec<Row>,
    pub calls: Calls,
}

/// A run on devices where one fails, and what it leaves opened again. Tells how often it was stopped, if a call failed: once
/// for each thing that may be found, and how often these were.
fn one_stop<D: Device + Drop, T: TextStore + Drop, M: Medium<D, T>, B: Behind>(
    alloc: Global,
    medium: &M,
    run: Run<'_, '_>,
    images: &Images<'_>,
    fused: Fused,
    behind: &mut B,
) -> Result<Option<u32>, Wrong> {
    let mut follower = Follower::new(Images::lent(alloc, images)?);
    let devices = in_fused(alloc, medium, run.texts, fused)?;
    let devices = run_rows(alloc, devices, run.rows, &mut follower)?;
    let stops = reopened(alloc, found_of(alloc, medium, devices)?, &follower, behind)?;
    Ok(if follower.is_whole() {
        None
    } else {
        Some(stops)
    })
}

/// All that a run leaves opened again. Tells how often it was stopped.
fn reopened<B: Behind>(
    alloc: Global,
    found: Vec<Held>,
    follower: &Follower<'_>,
    behind: &mut B,
) -> Result<u32, Wrong> {
    let mut stops = 0u32;
    for left in found {
        let expected = follows(alloc, &left, follower)?;
        if !follower.is_whole() {
            let more = behind.play(alloc, left, &expected)?;
            stops = stops.saturating_add(more).saturating_add(1);
        }
    }
    Ok(stops)
}

/// Stops a run in one way at each call that its step takes. Tells how often.
fn stop_kind<D: Device + Drop, T: TextStore + Drop, M: Medium<D, T>, B: Behind>(
    alloc: Global,
    medium: &M,
    run: Run<'_, '_>,
    images: &Images<'_>,
    kind: u32,
    behind: &mut B,
) -> Result<u32, Failure> {
    let mut stops = 0u32;
    for turn in 0..MOST_CALLS {
        let pass = run.calls.place(kind, turn);
        match one_stop(alloc, medium, run, images, fuse_at(kind, pass), behind) {
            Ok(None) => break,
            Ok(Some(more)) => stops = stops.saturating_add(more),
            Err(wrong) => return Err(at(call_of(kind, pass), wrong)),
        }
    }
    Ok(stops)
}

impl Calls {
    /// The call that fails at this turn. The ways begin at calls that are spread over a step.
    fn place(self, kind: u32, turn: u64) -> u64 {
        let first = (kind as u64).saturating_mul(self.step);
        let first = first.checked_div(self.ways as u64).unwrap_or(0);
        turn.saturating_mul(self.step).saturating_add(first)
    }
}

/// How a failure names the call: its way and device, and how many calls came before.
fn call_of(kind: u32, pass: u64) -> u32 {
    kind.saturating_mul(100_000)
        .saturating_add(pass.min(99_999) as u32)
}

/// Stops a run at the calls of each device. Tells how often.
pub fn stop_run<D: Device + Drop, T: TextStore + Drop, M: Medium<D, T>, B: Behind>(
    alloc: Global,
    medium: &M,
    run: Run<'_, '_>,
    images: &Images<'_>,
    behind: &mut B,
) -> Result<u32, Failure> {
    let mut stops = 0u32;
    for kind in 0..run.calls.ways {
        let more = stop_kind(alloc, medium, run, images, kind, behind)?;
        stops = stops.saturating_add(more);
    }
    Ok(stops)
}

/// Stops a case at these calls. Tells how often.
pub fn play_stops<D: Device + Drop, T: TextStore + Drop, M: Medium<D, T>, B: Behind>(
    alloc: Global,
    medium: &M,
    case: &CommandsCase,
    calls: Calls,
    behind: &mut B,
) -> Result<u32, Failure> {
    let first = first_of(alloc, case)?;
    let images = Images::of(alloc, &first)?;
    let run = Run {
        texts: first_texts(case),
        rows: &case.rows,
        calls,
    };
    stop_run(alloc, medium, run, &images, behind)
}
