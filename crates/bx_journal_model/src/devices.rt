//! The three devices of a session in one hand.
ghost use Rattle.std.specs.Prelude.{◌≡◌, max};

use bx_image::Device;
use bx_journal_store::TextStore;

/// An image, the journal of its changes, and the redo text of those that were undone.
#[derive(Drop)]
pub struct Devices<D: Device, T: TextStore> {
    pub image: D,
    pub journal: T,
    pub redo: T,
}

impl<D: Device, T: TextStore> Devices<D, T> {
    /// The greatest of the three counts of failed calls.
    pub fn faults(&self) -> u64
        ensures { result ≡ max (max (D.failures self.now.image) (T.failures self.now.journal)) (T.failures self.now.redo) }
    {
        let pair = self.image.faults().max(self.journal.faults());
        pair.max(self.redo.faults())
    }
}
