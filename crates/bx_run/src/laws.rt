//! Laws of files, of edits, of changes and their undo, and of a history that is dropped, over their definitions alone.
ghost use Rattle.bx_journal.specs.ThreeDevices.{AreBelow};
ghost use Rattle.bx_run.specs.History.{AddsOne, AsksChange, ChangeAddsOne, IsDone, RedoGivesBackByNames, UndoGivesBackByNames, UndoGivesBackRenewed};
ghost use Rattle.bx_run.specs.Laws.{EditIsPut, MissingIsEmpty, MissingIsUnchanged};
ghost use Rattle.bx_run.specs.Loss.{ForgetsDevices, LossInForgetting, LossInRenewal};

use bx_image::{Device, FuseImage};
use bx_journal::laws::{empty_is_redo, empty_text_is_sound};
use bx_journal::{Devices, SessionFault, forget_devices};
use bx_journal_store::{FuseText, TextStore};
use std::alloc::Allocator;
use std::io::Read;

/// Files that are missing hold the images of no change: of the image that is there, and where it is missing too of an empty one. So what
/// is said of a task on files that hold images is said where it makes them.
pub fn missing_is_empty()
    ensures unchanged { MissingIsUnchanged }
    ensures empty { MissingIsEmpty }
{
    empty_text_is_sound();
    empty_is_redo();
}

/// **A loss of power inside the dropping of a history.** Three faithful devices are put behind fuses, which pass some calls and fail all others, and
/// `forget_devices` is called on them. Whatever the fuses pass, the image that is then found below them is the one that was there; or the call was refused
/// before it wrote anything, and nothing new is found. Where neither text is found cut in part, opening finds the images that it found before, these with
/// nothing undone, or the image alone.
pub fn loss_in_forgetting<D: Device, T: TextStore>()
    ensures { LossInForgetting D.Device T.TextStore ⟦<FuseImage<D> as Device>⟧ ⟦<FuseText<T> as TextStore>⟧ }
{}

/// A loss of power inside a change with which a history begins anew: behind a dropping that was done the devices are opened, and one call is made, all
/// behind such fuses. What is then found of the devices below them is the image alone, or what the call's step leads to from there.
pub fn loss_in_renewal<D: Device, T: TextStore, R: Read, A: Allocator>()
    ensures { LossInRenewal D.Device T.TextStore ⟦<FuseImage<D> as Device>⟧ ⟦<FuseText<T> as TextStore>⟧ R A R.remaining }
{}

/// The premise of both laws is what `forget_devices` promises.
fn forget_as_promised<D: Device, T: TextStore>(
    devices: &mut Devices<D, T>,
) -> Result<(), SessionFault>
    requires countable { AreBelow D.Device T.TextStore u64.MAX devices.old }
    ensures { ForgetsDevices D.Device T.TextStore devices.old devices.new result }
{
    forget_devices(devices)
}

/// Wherever the contract of the one call has the step of an edit's task, this is the step that puts the input onto the image that the edit is made
/// of.
pub fn edit_is_put<R: Read>()
    ensures { EditIsPut R.remaining }
{}

/// **Undo is exact, by names.** On files that hold images: behind k changes by `run_request`, each answered as done, an undo of k that is answered as done
/// gives back the image of the name, its bytes and its length, and the stack of images before them. The changes are reverts, patches and transfers of dd, in
/// any order. Each call opens the files anew, so they may be of one process or of many, and between two of them anything may be done that leaves the three
/// files as they are. A change that is done puts one image on the stack, so changes whose inputs are of other types may stand among them.
pub fn undo_gives_back_by_names<R: Read, S: Read>()
    ensures back { UndoGivesBackByNames (λ names. IsDone R.remaining (AsksChange names)) S.remaining }
    ensures adds { ChangeAddsOne R.remaining }
    ensures mixed { UndoGivesBackByNames AddsOne S.remaining }
{}

/// Redo is exact, by names: on files that hold images, an undo of k and a redo of k behind it that are both answered as done give back the image, its bytes
/// and its length, and all images, those that stand and those that were undone before.
pub fn redo_gives_back_by_names<R: Read>()
    ensures { RedoGivesBackByNames R.remaining }
{}

/// A change with which the history begins anew can be undone: behind it an undo of 1, both answered as done, gives back the newest of the images that the files
/// held before, and it then stands alone.
pub fn undo_gives_back_renewed<R: Read, S: Read>()
    ensures { UndoGivesBackRenewed R.remaining S.remaining }
{}
