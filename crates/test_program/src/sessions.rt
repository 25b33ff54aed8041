//! Sessions in memory, and commands on them.
ghost use Rattle.std.specs.Prelude.{All};
ghost use Rattle.bx_cli_commands.specs.Command.{IsNear};

use bx_cli::{Command, Fault, Reply, run_all};
use bx_image::MemImage;
use bx_journal::{Recovered, Session, SessionFault};
use bx_journal_store::MemText;
use std::alloc::{AllocError, Allocator, Global};
use std::io::Read;

/// An image, its journal and its redo text.
pub type Trio = (MemImage, MemText, MemText);

/// The bytes of three.
pub type Held<'a> = (&'a [u8], &'a [u8], &'a [u8]);

/// Three of these bytes.
pub fn trio(alloc: Global, held: Held<'_>) -> Result<Trio, AllocError> {
    let image = MemImage::from_vec(held.0.to_vec(alloc)?);
    let text = MemText::from_vec(held.1.to_vec(alloc)?);
    Ok((image, text, MemText::from_vec(held.2.to_vec(alloc)?)))
}

/// A session whose own memory is of `A`.
pub type MemSession<A = Global> = Session<MemImage, MemText, A>;

/// Opens a session, or hands the three back.
pub fn open<A: Allocator + Clone>(
    alloc: A,
    trio: Trio,
) -> Result<(MemSession<A>, Recovered), (Trio, Fault)> {
    let (image, text, redo_text) = trio;
    match Session::open(alloc, image, text, redo_text) {
        Ok(found) => Ok(found),
        Err((image, text, redo_text, fault)) => Err(((image, text, redo_text), Fault::from(fault))),
    }
}

/// Runs the commands in order.
pub fn run<R: Read + Drop, A: Allocator + Clone>(
    alloc: A,
    session: &mut MemSession<A>,
    list: &mut [Command<R, A>],
) -> Result<Vec<Reply, A>, Fault>
    requires { All IsNear list.old }
{
    if session.faults() > 1000 {
        return Err(Fault::Session(SessionFault::DeviceFailed));
    }
    if list.len() > 1000 {
        return Err(Fault::Session(SessionFault::TooLarge));
    }
    Ok(run_all(alloc, session, list)?)
}
