//! Changes with which a history may begin anew, and which may have to keep within their image's length.
use crate::devices::agreement::agree;
use crate::devices::left::length_of;
use crate::files::look::is_missing;
use crate::files::read::open_alone;
use crate::history::changes::{change_anew, change_image};
use crate::history::settle_image;
use bx_cli::{Fault, Target, refuse_growth};
use bx_hints::{Remarks, Stopped};
use bx_image::MAX_LEN;
use bx_patch::Patch;
use bx_run::{Done, Edit, ReadEdit};
use bx_system::{Progress, System};
use std::io::Empty;

/// How a change is made.
#[derive(Clone, Copy)]
pub struct Manner {
    /// Whether the image's history is dropped before.
    pub fresh: bool,
    /// Whether it is refused where it makes the image longer.
    pub no_grow: bool,
}

/// Makes the change that was read on an image, or refuses it for its text's fault. Nothing is dropped for one that has a fault, or would make the
/// image longer, once that is recovered.
pub fn put_change<'a, R: System>(
    rt: &R,
    target: &'a Target,
    manner: Manner,
    edit: ReadEdit,
    progress: &Progress<'_, R>,
    remarks: &mut Remarks,
) -> Result<Done, Stopped<'a>> {
    let has_change = edit.change().is_some();
    if has_change && manner.fresh && manner.no_grow {
        settle_image(rt, target, progress)?;
        let image = target.image.as_str();
        if let Some(change) = edit.change() {
            refused(image, refuse_growth(change, length_named(rt, image)?))?;
        }
    }
    let edit: Edit<Empty> = Edit::Read(edit);
    if has_change && manner.fresh {
        change_anew(rt, target, edit, progress, remarks)
    } else {
        change_image(rt, target, edit, progress, remarks)
    }
}

/// Makes the change of a patch on an image. Nothing is dropped for a patch with which the image doesn't agree, or which would make it
/// longer, once it is recovered.
pub fn put_patch<'a, R: System>(
    rt: &R,
    target: &'a Target,
    manner: Manner,
    edit: ReadEdit,
    progress: &Progress<'_, R>,
    remarks: &mut Remarks,
) -> Result<Done, Stopped<'a>> {
    if !manner.fresh {
        let edit: Edit<Empty> = Edit::Read(edit);
        return change_image(rt, target, edit, progress, remarks);
    }
    let image = target.image.as_str();
    settle_image(rt, target, progress)?;
    if let Some(patch) = edit.patch() {
        agree(rt, image, patch, progress)?;
        if manner.no_grow {
            refused(image, refuse_longer(patch, length_named(rt, image)?))?;
        }
    }
    change_anew(rt, target, Edit::Read(edit), progress, remarks)
}

/// What stopped a change that would make its image longer.
fn refused(image: &str, growth: Result<(), Fault>) -> Result<(), Stopped<'_>> {
    match growth {
        Ok(()) => Ok(()),
        Err(fault) => Err(Stopped::from(fault).on_growth(image)),
    }
}

/// Refuses a patch that makes an image of `has` bytes longer, with which that agrees.
fn refuse_longer(patch: &Patch, has: u64) -> Result<(), Fault> {
    let wanted = length_behind(patch, has);
    if wanted > has && wanted <= MAX_LEN {
        Err(Fault::Grows { has, wanted })
    } else {
        Ok(())
    }
}

/// The length of an image of `has` bytes behind a patch: the one that the patch tells, behind which it writes nothing, or else its own up
/// to the last byte that is written.
fn length_behind(patch: &Patch, has: u64) -> u64 {
    if let Some(lengths) = patch.lengths {
        return lengths.new;
    }
    let mut longest = has;
    for piece in patch.written.as_slice() {
        let count = piece.bytes.as_slice().len() as u64;
        if count > 0 {
            longest = longest.max(piece.at.saturating_add(count));
        }
    }
    longest
}

/// How many bytes the image of this name has; one that is missing has none.
fn length_named<'a, R: System>(rt: &R, image: &'a str) -> Result<u64, Stopped<'a>> {
    if is_missing(rt, image) {
        return Ok(0);
    }
    match length_of(&open_alone(rt, image)?) {
        Ok(has) => Ok(has),
        Err(error) => Err(Stopped::unopened(image, error)),
    }
}
