//! Rows of sessions that are stopped, each at a call of one device.
use crate::journal::sessions::{ALL, Finds, Held, MemTrio, NO_STEP, Passes, Step, Stops, left_by};
use std::alloc::{AllocError, Global};
use std::process::Abort;

/// The calls that stop a session.
#[derive(Clone, Copy)]
pub enum Calls {
    /// The reads of the image.
    Image,
    /// Those of the journal.
    Journal,
    /// Those of the redo text.
    Redo,
    /// The calls that write to the journal.
    Writes,
}

/// What a session leaves.
#[derive(Clone, Copy)]
pub enum Left {
    /// What there was.
    Same,
    /// What opening finds so.
    Found(Finds),
}

/// Sessions: the calls that stop them, how many of these pass (from this number up to before that one, a session each), how many of the
/// other reads do, what opening finds, what is asked for and answered, and what is left.
pub type Row = (Calls, (u64, u64), Passes, Finds, Step, Left);

/// What stops a session behind `pass` calls.
fn stops_of(row: &Row, pass: u64) -> Stops {
    let (calls, _, (image, journal, redo), _, _, _) = *row;
    match calls {
        Calls::Image => Stops::Reads((pass, journal, redo)),
        Calls::Journal => Stops::Reads((image, pass, redo)),
        Calls::Redo => Stops::Reads((image, journal, pass)),
        Calls::Writes => Stops::Writes(pass),
    }
}

fn bytes_of(left: &MemTrio) -> Held<'_> {
    (left.0.as_slice(), left.1.as_slice(), left.2.as_slice())
}

/// These are the bytes of the three.
pub fn assert_held(rt: &impl Abort, left: &MemTrio, wanted: Held<'_>) {
    let (image, journal, redo) = bytes_of(left);
    assert!(rt; image == wanted.0 && journal == wanted.1 && redo == wanted.2);
}

/// What was left is right.
fn assert_left(
    alloc: Global,
    rt: &impl Abort,
    left: &MemTrio,
    start: Held<'_>,
    wanted: Left,
) -> Result<(), AllocError> {
    match wanted {
        Left::Same => assert_held(rt, left, start),
        Left::Found(finds) => {
            let stops = Stops::Reads(ALL);
            let _opened = left_by(alloc, rt, bytes_of(left), stops, finds, NO_STEP)?;
        }
    }
    Ok(())
}

/// Plays a row behind `pass` calls.
fn play_once(
    alloc: Global,
    rt: &impl Abort,
    start: Held<'_>,
    row: &Row,
    pass: u64,
) -> Result<(), AllocError> {
    let (_, _, _, finds, step, wanted) = *row;
    let left = left_by(alloc, rt, start, stops_of(row, pass), finds, step)?;
    assert_left(alloc, rt, &left, start, wanted)
}

fn play_row(alloc: Global, rt: &impl Abort, start: Held<'_>, row: &Row) -> Result<(), AllocError> {
    let (from, to) = row.1;
    for pass in from..to {
        play_once(alloc, rt, start, row, pass)?;
    }
    Ok(())
}

/// Plays the rows, each on these three.
pub fn play(
    alloc: Global,
    rt: &impl Abort,
    start: Held<'_>,
    rows: &[Row],
) -> Result<(), AllocError> {
    for row in rows {
        play_row(alloc, rt, start, row)?;
    }
    Ok(())
}
