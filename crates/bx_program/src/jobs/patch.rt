//! A patch, read and applied to an image.
use crate::devices::agreement::agree;
use crate::files::look::is_device;
use crate::history::told::look_for_others;
use crate::jobs::kept::{Manner, put_patch};
use crate::jobs::previews::preview_read;
use crate::jobs::states::tell_before_patch;
use crate::progress::{progress_of_input, progress_of_reading};
use crate::streams::input::{MOST_INPUT, Placed, whole};
use bx_cli::{Fault, PatchJob};
use bx_hints::{Remarks, Stopped};
use bx_patch::{Patch, PatchLengths};
use bx_run::ReadEdit;
use bx_system::{Counted, Noted, Progress, System};
use bx_text::{Bytes, Piece, Source};
use std::alloc::Global;
use std::io::Write;

/// Applies a patch to an image, or writes the patch that this would be. It is read to its end, and found right, before anything is opened.
pub fn patch<'a, R: System, W: Write>(
    rt: &R,
    job: &'a PatchJob,
    out: &mut W,
    remarks: &mut Remarks,
) -> Result<(), Stopped<'a>> {
    let edit = read_named(rt, job, remarks)?;
    let image = job.target.image.as_str();
    if changes_length(&edit) && is_device(rt, image) {
        return Err(Stopped::fixed(image));
    }
    let progress = progress_of_input(rt, remarks);
    if job.dry_run {
        return preview_read(rt, &job.target, edit, &progress, out);
    }
    if let Some(patch) = edit.patch() {
        if patch.changes_nothing() {
            remarks.look_at_no_change();
            return agree(rt, image, patch, &progress);
        }
    }
    apply(rt, job, edit, &progress, remarks)
}

/// Applies a patch that was read, and changes something. The history may begin anew with that change.
fn apply<'a, R: System>(
    rt: &R,
    job: &'a PatchJob,
    edit: ReadEdit,
    progress: &Progress<'_, R>,
    remarks: &mut Remarks,
) -> Result<(), Stopped<'a>> {
    let image = job.target.image.as_str();
    let is_applied = remarks.are_wanted() && is_applied(rt, image, &edit, progress);
    if let Some(patch) = edit.patch() {
        tell_before_patch(rt, &job.target, patch, remarks);
    }
    look_for_others(rt, &job.target, job.fresh, remarks);
    let manner = Manner {
        fresh: job.fresh,
        no_grow: job.no_grow,
    };
    match put_patch(rt, &job.target, manner, edit, progress, remarks) {
        Ok(_) => Ok(()),
        Err(stopped) if is_applied => Err(stopped.on_applied(image, job.reverse)),
        Err(stopped) => Err(stopped),
    }
}

/// Whether an image isn't what a patch expects, and has what it writes.
fn is_applied<R: System>(rt: &R, image: &str, edit: &ReadEdit, progress: &Progress<'_, R>) -> bool {
    let Some(patch) = edit.patch() else {
        return false;
    };
    if agree(rt, image, patch, progress).is_ok() {
        return false;
    }
    match written_by(rt.alloc(), patch) {
        Some(written) => agree(rt, image, &written, progress).is_ok(),
        None => false,
    }
}

/// A patch that expects what this one writes, and writes nothing; none without memory. It is smaller than the text that this one was read from.
fn written_by(alloc: Global, patch: &Patch) -> Option<Patch> {
    let mut expected = Vec::new(alloc);
    for piece in patch.written.as_slice() {
        let bytes = piece.bytes.as_slice().to_vec(alloc).ok()?;
        let copied = Piece {
            at: piece.at,
            bytes: Bytes::from_vec(bytes),
        };
        expected.push(copied).ok()?;
    }
    let lengths = match patch.lengths {
        Some(lengths) => Some(PatchLengths {
            old: lengths.new,
            new: lengths.old,
        }),
        None => None,
    };
    Some(Patch {
        lengths,
        expected,
        written: Vec::new(alloc),
    })
}

/// Whether a patch brings the image to another length.
fn changes_length(edit: &ReadEdit) -> bool {
    let Some(patch) = edit.patch() else {
        return false;
    };
    match patch.lengths {
        Some(lengths) => lengths.old != lengths.new,
        None => false,
    }
}

/// What the patch asks that a job names, or standard input, in the way of the job.
fn read_named<'a, R: System>(
    rt: &R,
    job: &'a PatchJob,
    remarks: &Remarks,
) -> Result<ReadEdit, Stopped<'a>> {
    let input = whole(rt, &job.patch)?;
    let name = input.name;
    let progress = progress_of_reading(rt, remarks, &job.patch, input.left);
    let text = text_of(rt.alloc(), input, &progress);
    progress.end();
    let text = text?;
    match ReadEdit::of_patch(rt.alloc(), job, text.as_slice()) {
        Ok(edit) => Ok(edit),
        Err(fault @ Fault::Patch(_)) if has_returns(text.as_slice()) => {
            Err(Stopped::from(fault).on_returns(name))
        }
        Err(fault) => Err(Stopped::from(fault)),
    }
}

/// All that an input gives.
fn text_of<'a, R: System>(
    alloc: Global,
    input: Placed<'a, R>,
    progress: &Progress<'_, R>,
) -> Result<Vec<u8>, Stopped<'a>> {
    let name = input.name;
    let mut reader = Noted::new(input.reader);
    let counted = Counted::new(&mut reader, progress);
    match Source::new(counted, MOST_INPUT).rest(alloc) {
        Ok(text) => Ok(text),
        Err(fault) => Err(Stopped::from(Fault::Io(fault)).on_input(name, reader.error)),
    }
}

/// Whether the first line of a text ends in CR LF.
fn has_returns(text: &[u8]) -> bool {
    match text.split(|byte| *byte == b'\n').next() {
        Some(line) => line.len() < text.len() && line.last() == Some(&b'\r'),
        None => false,
    }
}
