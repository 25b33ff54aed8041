//! What the hints on a job rest on, as far as a file is read for it: nothing else rests on it.
use crate::files::read::{length_by_name, open_if_there};
use crate::files::tail::standing_of;
use bx_cli::{ChangeJob, DdImageJob, Job, Target};
use bx_hints::{Remarks, saved_by_dd, saved_by_patch, tell_of_cost};
use bx_image::Change;
use bx_patch::Patch;
use bx_system::System;

/// Looks, before a job opens a file, what its image is, and what stands and is undone.
pub fn look_before<R: System>(rt: &R, job: &Job, remarks: &mut Remarks) {
    remarks.look_before(rt, job);
    if remarks.are_wanted() {
        if let Some(target) = job.target() {
            remarks.look_at_standing(standing_of(rt, target));
        }
    }
}

/// Writes what there is to say of a job that was done, and looks before what stands behind an undo or a redo.
pub fn tell_behind<R: System>(rt: &R, job: &Job, remarks: &mut Remarks) {
    if remarks.are_wanted() {
        if let Job::Change(ChangeJob::Undo(steps) | ChangeJob::Redo(steps)) = job {
            remarks.look_behind(standing_of(rt, &steps.target));
        }
    }
    remarks.tell(rt, job);
}

/// Looks what the change of a dump will make of the image, which is not yet written, and says what it will cost.
pub fn look_at_change<R: System>(rt: &R, target: &Target, change: &Change, remarks: &mut Remarks) {
    if remarks.are_wanted() {
        if let Ok(image) = open_if_there(rt, target.image.as_str()) {
            remarks.look_at_change(rt, target, &image, change);
        }
    }
}

/// Says what a patch will cost.
pub fn tell_before_patch<R: System>(rt: &R, target: &Target, patch: &Patch, remarks: &Remarks) {
    if remarks.are_wanted() {
        if let Some(length) = length_by_name(rt, target.image.as_str()) {
            tell_of_cost(rt, target, saved_by_patch(patch, length));
        }
    }
}

/// Says what dd will cost, whose input has at most as many bytes as are left, where that is known.
pub fn tell_before_copy<R: System>(rt: &R, job: &DdImageJob, left: Option<u64>, remarks: &Remarks) {
    if remarks.are_wanted() {
        if let Some(length) = length_by_name(rt, job.target.image.as_str()) {
            tell_of_cost(rt, &job.target, saved_by_dd(&job.plan, length, left));
        }
    }
}
