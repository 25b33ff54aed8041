//! The jobs that take changes back, and that make them again.
use crate::devices::left::{recovered, stopped};
use crate::files::look::refuse_without_journal;
use crate::files::names::{guard_of, names_of, world_of};
use crate::history::told::told;
use crate::progress::progress_of_input;
use bx_cli::StepsJob;
use bx_hints::{Remarks, Stopped};
use bx_journal::Direction;
use bx_run::{Request, run_request};
use bx_system::System;
use std::io::{self, Empty};

/// Takes changes back or makes undone ones again, and shows how many changes then stand.
pub fn take_steps<'a, R: System>(
    rt: &R,
    way: Direction,
    job: &'a StepsJob,
    remarks: &mut Remarks,
) -> Result<(), Stopped<'a>> {
    let target = &job.target;
    refuse_without_journal(rt, target)?;
    remarks.look_at_times(rt, target);
    let names = names_of(rt.alloc(), target)?;
    let progress = progress_of_input(rt, remarks);
    let mut world = world_of(rt, target, &progress)?;
    let request: Request<'_, Empty> = Request::Move {
        names: &names,
        guard: guard_of(target),
        way,
        count: job.count,
    };
    let answer = run_request(&mut world, rt.alloc(), request, &mut io::sink());
    drop(names);
    let how = recovered(&answer);
    remarks.look_at_recovered(how);
    remarks.tell_behind_recovery(rt, way, job, how);
    remarks.look_at_note(world.is_without_note);
    match answer {
        Ok(_) => Ok(()),
        Err(failure) => Err(told(rt, target, way, stopped(rt, target, &world, failure))),
    }
}
