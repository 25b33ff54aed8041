//! The history of an image: what is unfinished is recovered, and all of it is dropped.
pub mod changes;
pub mod forget;
pub mod told;

use crate::devices::left::{is_unfinished, stopped};
use crate::files::names::{guard_to_recover, names_of, world_of};
use bx_cli::{Fault, Target};
use bx_hints::Stopped;
use bx_journal::{Direction, Steps};
use bx_run::{Report, Request, run_request};
use bx_system::{Progress, System};
use std::io::{self, Empty};

/// Recovers what is unfinished of an image, by an undo of no change, where the third text tells that the image is the one, or
/// it goes on anyway; and says on standard error what it was. A redo text that is missing stays so.
///
/// # Errors
/// As of an undo; `ChangedSince` unless the note says that the image is the one.
pub fn recover_image<'a, R: System>(
    rt: &R,
    target: &'a Target,
    anyway: bool,
    progress: &Progress<'_, R>,
) -> Result<(), Stopped<'a>> {
    let names = names_of(rt.alloc(), target)?;
    let mut world = world_of(rt, target, progress)?;
    let request: Request<'_, Empty> = Request::Recover {
        names: &names,
        guard: guard_to_recover(target, anyway),
    };
    match run_request(&mut world, rt.alloc(), request, &mut io::sink()) {
        Ok(_) => Ok(()),
        Err(failure) => Err(stopped(rt, target, &world, failure).unrecovered()),
    }
}

/// Recovers what is unfinished of an image, if something is, and the note says that it is the one. What else hinders that is said
/// by the command behind it.
///
/// # Errors
/// As of an undo.
pub fn settle_image<'a, R: System>(
    rt: &R,
    target: &'a Target,
    progress: &Progress<'_, R>,
) -> Result<(), Stopped<'a>> {
    let nothing = Report::Show(Steps {
        way: Direction::Undo,
        count: 0,
        changes: 0,
        compares: false,
    });
    let names = names_of(rt.alloc(), target)?;
    let mut world = world_of(rt, target, progress)?;
    let request: Request<'_, Empty> = Request::Look {
        names: &names,
        report: nothing,
    };
    match run_request(&mut world, rt.alloc(), request, &mut io::sink()) {
        Err(failure) if is_unfinished(failure) => {
            match recover_image(rt, target, false, progress) {
                Err(stopped) if stopped.fault == Fault::ChangedSince => Ok(()),
                outcome => outcome,
            }
        }
        Ok(_) | Err(_) => Ok(()),
    }
}
