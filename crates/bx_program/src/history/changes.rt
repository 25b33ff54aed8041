//! Changes of an image by the names of its files.
use crate::devices::left::{recovered, stopped};
use crate::files::look::{is_missing, refuse_without_journal};
use crate::files::names::{guard_of, names_of, world_of};
use crate::history::told::told;
use bx_cli::Target;
use bx_hints::{Remarks, Stopped};
use bx_journal::Direction;
use bx_run::{Done, Edit, Failure, Request, Step, run_request};
use bx_system::{Progress, System, SystemWorld};
use std::io::{self, Empty, Read};

/// Changes an image, which is made where it is missing, as its texts are.
pub fn change_image<'a, R: System, I: Read + Drop>(
    rt: &R,
    target: &'a Target,
    edit: Edit<I>,
    progress: &Progress<'_, R>,
    remarks: &mut Remarks,
) -> Result<Done, Stopped<'a>> {
    refuse_without_journal(rt, target)?;
    let names = names_of(rt.alloc(), target)?;
    let mut world = world_of(rt, target, progress)?;
    let request = Request::Change {
        names: &names,
        guard: guard_of(target),
        edit,
    };
    let answer = run_request(&mut world, rt.alloc(), request, &mut io::sink());
    drop(names);
    answered(rt, target, &world, answer, remarks)
}

/// What became of a change, by what was answered.
fn answered<'a, R: System>(
    rt: &R,
    target: &'a Target,
    world: &SystemWorld<'_, '_, R>,
    answer: Result<Done, Failure>,
    remarks: &mut Remarks,
) -> Result<Done, Stopped<'a>> {
    remarks.look_at_recovered(recovered(&answer));
    remarks.look_at_note(world.is_without_note);
    match answer {
        Ok(done) => Ok(done),
        Err(failure) => Err(told(
            rt,
            target,
            Direction::Undo,
            stopped(rt, target, world, failure),
        )),
    }
}

/// Drops the history of an image, where it has one, and then changes it; one that is missing is made. Nothing is dropped where a file may
/// not be changed.
pub fn change_anew<'a, R: System>(
    rt: &R,
    target: &'a Target,
    edit: Edit<Empty>,
    progress: &Progress<'_, R>,
    remarks: &mut Remarks,
) -> Result<Done, Stopped<'a>> {
    // Without both texts there is no history to drop; a redo file without its journal is dropped as one.
    if is_missing(rt, target.texts.journal.as_str()) && is_missing(rt, target.texts.redo.as_str()) {
        return change_image(rt, target, edit, progress, remarks);
    }
    renew_image(rt, target, edit, progress, remarks)
}

/// Drops the history of an image, and then changes it.
fn renew_image<'a, R: System>(
    rt: &R,
    target: &'a Target,
    edit: Edit<Empty>,
    progress: &Progress<'_, R>,
    remarks: &mut Remarks,
) -> Result<Done, Stopped<'a>> {
    refuse_without_journal(rt, target)?;
    let mut world = world_of(rt, target, progress)?;
    let names = names_of(rt.alloc(), target)?;
    let request = Request::Renew {
        names: &names,
        guard: guard_of(target),
        edit,
    };
    match run_request(&mut world, rt.alloc(), request, &mut io::sink()) {
        Err(failure) if failure.step == Step::Dropping => Err(told(
            rt,
            target,
            Direction::Undo,
            stopped(rt, target, &world, failure),
        )),
        answer => answered(rt, target, &world, answer, remarks),
    }
}
