//! What a session tells of itself, and what it hands back.
ghost use Rattle.std.specs.Prelude.{◌≡◌, max};

use crate::Session;
use bx_image::Device;
use bx_journal_model::Devices;
use bx_journal_store::TextStore;
use std::alloc::Allocator;

impl<D: Device, T: TextStore, A: Allocator> Session<D, T, A> {
    /// How many changes stand. Of a broken session it is the number before the call that broke it.
    pub fn changes(&self) -> u32
        ensures { result ≡ self.now.count }
    {
        self.count
    }

    /// How many changes are undone, and can be made again. Of a broken session it is the number before the call that
    /// broke it.
    pub fn undone(&self) -> u32
        ensures { result ≡ self.now.undone }
    {
        self.undone
    }

    /// The greatest of the three counts of failed device calls.
    pub fn faults(&self) -> u64
        ensures { result ≡ max (max (D.failures self.now.image) (T.failures self.now.journal)) (T.failures self.now.redo) }
    {
        self.devices.faults()
    }

    /// Hands the three devices back as they are: the image's, the journal's, and the redo text's.
    pub fn close(self) -> (D, T, T)
        ensures image { result.0 ≡ self.image }
        ensures journal { result.1 ≡ self.journal }
        ensures redo { result.2 ≡ self.redo }
    {
        let Devices {
            image,
            journal,
            redo,
        } = self.devices;
        (image, journal, redo)
    }
}
