//! What a session's image is, beside what a patch expects of it: the image is only read.
ghost use Rattle.std.specs.Prelude.{◌≡◌, ◌⊎◌, ◌<◌, length, IfOk, IfErr};
ghost use Rattle.bx_journal.specs.Looking.{OnlyLooks};
ghost use Rattle.bx_patch.specs.Other.{FindsOther};
ghost use Rattle.bx_patch.specs.Read.{asked_of};

use crate::Session;
use bx_image::Device;
use bx_journal_model::SessionFault;
use bx_journal_store::TextStore;
use bx_patch::{Other, Patch, find_other};
use std::alloc::Allocator;

impl<D: Device, T: TextStore, A: Allocator> Session<D, T, A> {
    ghost use Rattle.bx_journal_model.specs.Power.{NothingNew};
    ghost use Rattle.bx_journal_model.specs.Session.{FailsSafely};

    /// What the image has otherwise than a patch expects, the first in the order of the text; none where it agrees with the patch.
    /// Nothing is changed, and no memory is taken.
    ///
    /// # Errors
    /// `Broken`, and `DeviceFailed` of reading the image.
    pub fn find_other<B: Allocator>(
        &mut self,
        patch: &Patch<B>,
    ) -> Result<Option<Other>, SessionFault>
        requires { D.failures self.old.image < u64.MAX }
        ensures found { D.faithful self.old.image → IfOk result (FindsOther (asked_of patch.now) (D.image self.old.image)) }

        // Nothing is changed, and nothing more is to be found after a loss of power. A broken session isn't even read.
        ensures looks { OnlyLooks D.Device T.TextStore self.old self.new }
        ensures safe { FailsSafely D.Device T.TextStore self.old self.new result }
        ensures found_before { NothingNew D.Device T.TextStore self.old self.new }
        ensures fault { IfErr result (λ e. (e ≡ SessionFault.Broken) ⊎ (e ≡ SessionFault.DeviceFailed)) }
    {
        if self.is_broken {
            return Err(SessionFault::Broken);
        }
        match find_other(&mut self.devices.image, patch) {
            Ok(found) => Ok(found),
            Err(_) => Err(SessionFault::DeviceFailed),
        }
    }
    /// How many bytes the image has. Nothing is changed, and no memory is taken.
    ///
    /// # Errors
    /// `Broken`, and `DeviceFailed` of asking the image.
    pub fn image_len(&mut self) -> Result<u64, SessionFault>
        requires { D.failures self.old.image < u64.MAX }
        ensures len { D.faithful self.old.image → IfOk result (λ n. n ≡ length (D.image self.old.image)) }
        ensures looks { OnlyLooks D.Device T.TextStore self.old self.new }
        ensures safe { FailsSafely D.Device T.TextStore self.old self.new result }
        ensures found_before { NothingNew D.Device T.TextStore self.old self.new }
        ensures fault { IfErr result (λ e. (e ≡ SessionFault.Broken) ⊎ (e ≡ SessionFault.DeviceFailed)) }
    {
        if self.is_broken {
            return Err(SessionFault::Broken);
        }
        match self.devices.image.len() {
            Ok(len) => Ok(len),
            Err(_) => Err(SessionFault::DeviceFailed),
        }
    }
}
