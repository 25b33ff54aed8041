//! A diff, then a patch, in the user's words: the calls one after another, and what the three devices hold before and after them.
ghost use Rattle.std.specs.Prelude.{◌≡◌, ◌<◌, IfSome};
ghost use Rattle.std.specs.List.{All};
ghost use Rattle.bx_journal.specs.Images.{Images};
ghost use Rattle.bx_journal.specs.Opened.{OfAll};
ghost use Rattle.bx_journal.specs.SessionView.{devices_of};
ghost use Rattle.bx_journal.specs.ThreeDevices.{AreBelow};
ghost use Rattle.bx_patch.specs.Diff.{AreShort};
ghost use Rattle.bx_patch.specs.Read.{asked_of};
ghost use Rattle.bx_patch.specs.Text.{patch_text};
ghost use Rattle.bx_cli_commands.specs.PatchTrip.{DiffsAndPatches, IsPatched, IsReadBack};
ghost use Rattle.bx_cli_commands.specs.RoundTrip.{RestsIn};
ghost use Rattle.bx_cli_commands.specs.Standing.{CountsBelow};

use super::{changed, closed, open_clean};
use bx_image::Device;
use bx_journal::{Devices, Session};
use bx_journal_store::TextStore;
use bx_patch::{Extent, Patch, Unknown, read_patch, write_patch};
use std::alloc::Allocator;

/// The text of the patch from one device to another.
fn text_between<E: Device, F: Device, A: Allocator + Clone>(
    alloc: &A,
    old: &mut E,
    new: &mut F,
    extent: Extent,
) -> Option<Vec<u8, A>>
    requires old_countable { E.failures old.old < u64.MAX }
    requires new_countable { F.failures new.old < u64.MAX }
    ensures { E.faithful old.old → F.faithful new.old → IfSome result (λ text. AreShort (E.image old.old) (F.image new.old)
        × (text.items ≡ patch_text extent (E.image old.old) (F.image new.old))) }
{
    let memory = match alloc.clone() {
        Ok(memory) => memory,
        Err(_) => return None,
    };
    let mut text = Vec::new(memory);
    match write_patch(alloc, old, new, &mut text, extent, &Unknown) {
        Ok(()) => Some(text),
        Err(_) => None,
    }
}

/// The patch that a text is, turned round where that is asked for.
fn read_back<A: Allocator + Clone>(alloc: &A, text: &[u8], reverse: bool) -> Option<Patch<A>>
    ensures { IfSome result (λ patch. IsReadBack text.now reverse (asked_of patch)) }
{
    let memory = match alloc.clone() {
        Ok(memory) => memory,
        Err(_) => return None,
    };
    match read_patch(memory, text) {
        Ok(patch) => {
            if reverse {
                patch.reversed()
            } else {
                Some(patch)
            }
        }
        Err(_) => None,
    }
}

/// Makes the change of a patch where the image agrees with it, and says whether it did.
fn patched<D: Device + Drop, T: TextStore + Drop, A: Allocator + Clone>(
    session: Session<D, T, A>,
    patch: Patch<A>,
) -> Option<(Session<D, T, A>, bool)>
    requires countable { CountsBelow D.Device T.TextStore u64.MAX session }
    ensures { (i : Images) → RestsIn D.Device T.TextStore session i
        → IfSome result (λ r. IsPatched D.Device T.TextStore A (asked_of patch) (devices_of session) (devices_of r.0) r.1) }
{
    let mut session = session;
    match session.find_other(&patch) {
        Ok(None) => match changed(session, &patch.into_change()) {
            Some(session) => Some((session, true)),
            None => None,
        },
        Ok(Some(_)) => Some((session, false)),
        Err(_) => None,
    }
}

/// **A diff, then a patch.** Writes the patch from one device to another, reads it back, turns it round where `reverse` asks for that,
/// opens an image with its journal and its redo text, and makes the patch's change on it, if it agrees; the second answer says whether it
/// did. An image of the first device's bytes then has those of the second, the other way round one of the second's has those of the
/// first, and of one that disagrees nothing changes. None where another call is refused, or something is unfinished.
pub fn diff_and_patch<
    E: Device,
    F: Device,
    D: Device + Drop,
    T: TextStore + Drop,
    A: Allocator + Clone,
>(
    alloc: &A,
    old: &mut E,
    new: &mut F,
    extent: Extent,
    devices: Devices<D, T>,
    reverse: bool,
) -> Option<(Devices<D, T>, bool)>
    requires old_countable { E.failures old.old < u64.MAX }
    requires new_countable { F.failures new.old < u64.MAX }
    requires countable { AreBelow D.Device T.TextStore u64.MAX devices }
    ensures { E.faithful old.old → F.faithful new.old → All (λ b. b < 256) (E.image old.old) → All (λ b. b < 256) (F.image new.old)
        → OfAll D.Device T.TextStore devices (IfSome result (λ r.
        DiffsAndPatches D.Device T.TextStore (E.image old.old) (F.image new.old) reverse devices r.0 r.1)) }
{
    let text = text_between(alloc, old, new, extent)?;
    let patch = read_back(alloc, text.as_slice(), reverse)?;
    let session = open_clean(alloc, devices)?;
    let (session, made) = patched(session, patch)?;
    Some((closed(session), made))
}
