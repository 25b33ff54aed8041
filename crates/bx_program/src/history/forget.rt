//! An image whose history is dropped: all changes are accepted, and nothing can be undone then.
use crate::devices::left::{is_unfinished, stopped};
use crate::files::look::refuse_without_journal;
use crate::files::names::{guard_of, names_of, world_of};
use crate::history::recover_image;
use crate::history::told::told;
use crate::progress::progress_of_input;
use bx_cli::Target;
use bx_hints::{Remarks, Stopped};
use bx_journal::Direction;
use bx_run::{Request, run_request};
use bx_system::{Progress, System};
use std::io::{self, Empty};

/// Drops the history of an image, of whose texts one is there. None of the three is made, and the image is opened to be read alone; only
/// where something is unfinished that was begun on it, it is recovered before.
///
/// # Errors
/// As of a look at the changes, but for texts that are damaged behind their first line or don't fit the image; `ChangedSince` where
/// something is unfinished and nothing tells whether it was begun on this image, or another one is named by `-J`.
pub fn forget<'a, R: System>(
    rt: &R,
    target: &'a Target,
    remarks: &Remarks,
) -> Result<(), Stopped<'a>> {
    let progress = progress_of_input(rt, remarks);
    refuse_without_journal(rt, target)?;
    if !drop_history(rt, target, &progress, true)? {
        recover_image(rt, target, false, &progress)?;
        drop_history(rt, target, &progress, false)?;
    }
    Ok(())
}

/// Drops the history of an image, and answers whether it is dropped. `may_recover` says whether somebody recovers what is unfinished;
/// else that is a fault.
fn drop_history<'a, R: System>(
    rt: &R,
    target: &'a Target,
    progress: &Progress<'_, R>,
    may_recover: bool,
) -> Result<bool, Stopped<'a>> {
    let names = names_of(rt.alloc(), target)?;
    let mut world = world_of(rt, target, progress)?;
    let request: Request<'_, Empty> = Request::Forget {
        names: &names,
        guard: guard_of(target),
    };
    match run_request(&mut world, rt.alloc(), request, &mut io::sink()) {
        Ok(_) => Ok(true),
        Err(failure) if may_recover && is_unfinished(failure) => Ok(false),
        Err(failure) => {
            let stopped = stopped(rt, target, &world, failure);
            Err(told(rt, target, Direction::Undo, stopped))
        }
    }
}
