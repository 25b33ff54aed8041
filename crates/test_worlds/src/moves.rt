//! Undos and redos, as a case asks for them.
use crate::report::Wrong;
use crate::setting::CAREFUL;
use bx_journal::Direction;
use bx_run::{Done, Failure, Request, run_request};
use bx_world::Names;
use std::alloc::Global;
use std::io::{Empty, sink};
use test_case_files::{Ask, Row};
use test_world::{MemoryWorld, Plan};

/// Which way a line moves changes; none where it is no move.
pub fn way_of(row: &Row) -> Option<Direction> {
    match &row.ask {
        Ask::Undo(_) => Some(Direction::Undo),
        Ask::Redo(_) => Some(Direction::Redo),
        Ask::Revert { .. }
        | Ask::Plain { .. }
        | Ask::Dd { .. }
        | Ask::Patch { .. }
        | Ask::Change { .. }
        | Ask::Open => None,
    }
}

/// How many changes a line moves.
pub fn count_of(row: &Row) -> u32 {
    match &row.ask {
        Ask::Undo(count) | Ask::Redo(count) => *count,
        Ask::Revert { .. }
        | Ask::Plain { .. }
        | Ask::Dd { .. }
        | Ask::Patch { .. }
        | Ask::Change { .. }
        | Ask::Open => 0,
    }
}

/// How many changes these lines move, all of them this way.
pub fn count_of_all(rows: &[Row], way: Direction) -> Result<u32, Wrong> {
    let mut count = 0u32;
    for row in rows {
        if way_of(row) != Some(way) {
            return Err(Wrong::Unknown);
        }
        count = count.saturating_add(count_of(row));
    }
    Ok(count)
}

/// The image behind the first `steps` changes that these lines move, one after another.
pub fn image_behind<'a>(rows: &'a [Row], steps: u32) -> Option<&'a [u8]> {
    let mut moved = 0u32;
    for row in rows {
        moved = moved.saturating_add(count_of(row));
        if moved == steps {
            return Some(row.left.image.as_slice());
        }
    }
    None
}

/// Takes changes back or makes them again in a world that does what its plan says.
pub fn move_in(
    world: &mut MemoryWorld,
    alloc: Global,
    names: &Names,
    plan: Plan,
    way: Direction,
    count: u32,
) -> Result<Done, Failure> {
    world.begin(plan);
    let request: Request<'_, Empty> = Request::Move {
        names,
        guard: CAREFUL,
        way,
        count,
    };
    run_request(world, alloc, request, &mut sink())
}
