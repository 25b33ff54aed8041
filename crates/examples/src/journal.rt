//! Changes, undo and redo on an image in memory and on one in a file: bx_journal.
ghost use Rattle.std.specs.Prelude.{◌≡◌, ◌+◌, ◌<◌, OnOk};

use crate::image::patch;
use anyhow::Result;
use bx_image::{Change, Device, FileImage, MemImage, SystemFile};
use bx_journal::{FileText, MemText, Session, SessionFault, TextStore};
use std::alloc::{Allocator, Global};
use std::fs::File;
use std::io::{self, Write};
use std::rt::Files;

/// Makes a change, takes it back, and makes it again.
fn make_undo_redo<D: Device, T: TextStore, A: Allocator + Clone>(
    session: &mut Session<D, T, A>,
    change: &Change<A>,
) -> Result<u32, SessionFault>
    requires image { D.failures session.old.image < u64.MAX }
    requires journal { T.failures session.old.journal < u64.MAX }
    requires redo { T.failures session.old.redo < u64.MAX }
{
    session.perform(change)?;
    session.undo(1)?;
    session.redo(1)
}

/// Opens a session on an image and two empty texts, and makes, undoes and redoes a change; the three are handed back.
pub fn session_on<D: Device + Drop, T: TextStore + Drop>(
    alloc: Global,
    image: D,
    journal: T,
    redo: T,
) -> Result<(D, T, T), SessionFault>
    requires image { D.failures image ≡ 0 }
    requires journal { T.failures journal ≡ 0 }
    requires redo { T.failures redo ≡ 0 }
{
    let change = patch(alloc, 4, b"WARE")?;
    match Session::open(alloc, image, journal, redo) {
        Ok((mut session, _)) => {
            make_undo_redo(&mut session, &change)?;
            Ok(session.close())
        }
        Err((_, _, _, fault)) => Err(fault),
    }
}

/// A new file that is read and written; `named` is where it stands.
fn new_file<R: Files<File = File>>(rt: &R, name: &str) -> io::Result<SystemFile> {
    let mut how = File::options();
    how.read(true).write(true).create(true).truncate(true);
    Ok(SystemFile::new(how.open(rt, name)?))
}

fn in_memory<R: Print + AllocGlobal>(rt: &R) -> Result<()> {
    let image = MemImage::from_vec(b"firmware\n".to_vec(rt.alloc())?);
    let journal = MemText::new(rt.alloc());
    let redo = MemText::new(rt.alloc());
    let (image, journal, _) = session_on(rt.alloc(), image, journal, redo)?;
    io::writer(rt).write_all(image.as_slice())?;
    io::writer(rt).write_all(journal.as_slice())?;
    Ok(())
}

fn in_files<R: Files<File = File> + Print + AllocGlobal>(rt: &R) -> Result<()> {
    let mut file = new_file(rt, "image")?;
    file.file.write_all(b"firmware\n")?;
    let journal = FileText::new(new_file(rt, "image.bxj")?);
    let redo = FileText::new(new_file(rt, "image.bxj.redo")?);
    session_on(rt.alloc(), FileImage::new(file), journal, redo)?;
    let image = std::fs::read(rt, "image")?;
    io::writer(rt).write_all(image.as_slice())?;
    Ok(())
}

pub fn show<R: Files<File = File> + Print + AllocGlobal>(rt: &R) -> Result<()> {
    in_memory(rt)?;
    in_files(rt)
}
