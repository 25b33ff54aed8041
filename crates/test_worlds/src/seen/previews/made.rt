//! What files hold once the change of a case is made, and once it is taken back.
use crate::changes::copied;
use crate::report::Wrong;
use crate::setting::{CAREFUL, Held, Kept, held_by, world_of};
use bx_journal::Direction;
use bx_run::{Edit, Request, run_request};
use bx_world::Names;
use std::alloc::Global;
use std::io::{Empty, sink};
use test_case_files::PatchWritten;
use test_world::{MemoryWorld, Plan};

/// Makes what a request asks for in a world, and answers what its files then hold.
fn held_behind(
    alloc: Global,
    mut world: MemoryWorld,
    request: Request<'_, Empty>,
) -> Result<Kept, Wrong> {
    world.begin(Plan::NOTHING);
    match run_request(&mut world, alloc, request, &mut sink()) {
        Ok(_) => Ok(Kept::of(alloc, held_by(&world))?),
        Err(_) => Err(Wrong::Outcome),
    }
}

/// What files hold behind the change that makes the one file of a case of the other.
pub fn changed(alloc: Global, names: &Names, case: &PatchWritten) -> Result<Kept, Wrong> {
    let world = world_of(
        alloc,
        Held {
            image: case.old.as_slice(),
            journal: b"",
            redo: b"",
        },
    )?;
    let read = copied(alloc, "of=disk", case.new.as_slice(), false)?;
    let request = Request::Change {
        names,
        guard: CAREFUL,
        edit: Edit::Read(read),
    };
    held_behind(alloc, world, request)
}

/// What files hold behind an undo of one change.
pub fn taken_back(alloc: Global, names: &Names, held: Held<'_>) -> Result<Kept, Wrong> {
    let world = world_of(alloc, held)?;
    let request = Request::Move {
        names,
        guard: CAREFUL,
        way: Direction::Undo,
        count: 1,
    };
    held_behind(alloc, world, request)
}
