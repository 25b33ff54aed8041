//! Opening an image with its journal and its redo text, with recovery.
ghost use Rattle.std.specs.Prelude.{◌≡◌, ◌<◌};
ghost use Rattle.bx_journal_model.specs.ThreeDevices.{AreBelow};

use crate::Session;
use crate::recovery::recover;
use bx_image::Device;
use bx_journal_model::{Devices, Recovered, SessionFault};
use bx_journal_store::TextStore;
use std::alloc::Allocator;

impl<D: Device, T: TextStore, A: Allocator + Clone> Session<D, T, A> {
    ghost use Rattle.bx_journal.specs.Opened.{OpensDevices, opening_of};

    /// Opens an image with its journal and its redo text. An unfinished entry is dropped, or its change is taken back;
    /// the redo text is then emptied first. Where a loss of power left zeros at the journal's end, what stands before them is
    /// read, and the rest is dropped. An `Err` hands all three back.
    ///
    /// The faults come in this order: `DeviceFailed` and `NoMemory` of reading the journal, and `Damaged`. Beside
    /// finished entries alone `DeviceFailed` and `NoMemory` of reading the redo text, `DeviceFailed` of the image's length
    /// and `LengthDiffers`, `NoMemory` where the redo text is read entry by entry, and `RedoDamaged`. Beside anything else
    /// `DeviceFailed` of the length and `LengthDiffers`, `NoMemory` of reserving, `DeviceFailed` of putting the three on the
    /// disk, and `Interrupted` from the first write on. Each but the last changes nothing, and after that one the three can
    /// be opened again.
    pub fn open_devices(
        alloc: A,
        devices: Devices<D, T>,
    ) -> Result<(Self, Recovered), (Devices<D, T>, SessionFault)>
        requires countable { AreBelow D.Device T.TextStore u64.MAX devices }
        ensures { OpensDevices D.Device T.TextStore devices result }
    {
        let mut devices = devices;
        match recover(&alloc, &mut devices) {
            Ok(recovered) => {
                let count = recovered.changes;
                let undone = recovered.undone;
                Ok((
                    Session {
                        alloc,
                        devices,
                        count,
                        undone,
                        is_broken: false,
                    },
                    recovered,
                ))
            }
            Err(fault) => Err((devices, fault)),
        }
    }

    /// Opens an image with its journal and its redo text, which are handed over one by one, as `open_devices` does.
    pub fn open(
        alloc: A,
        image: D,
        journal: T,
        redo: T,
    ) -> Result<(Self, Recovered), (D, T, T, SessionFault)>
        requires image_countable { D.failures image < u64.MAX }
        requires journal_countable { T.failures journal < u64.MAX }
        requires redo_countable { T.failures redo < u64.MAX }
        ensures { OpensDevices D.Device T.TextStore (record { image = image; journal = journal; redo = redo }) (opening_of result) }
    {
        let devices = Devices {
            image,
            journal,
            redo,
        };
        match Session::open_devices(alloc, devices) {
            Ok(opened) => Ok(opened),
            Err((devices, fault)) => {
                let Devices {
                    image,
                    journal,
                    redo,
                } = devices;
                Err((image, journal, redo, fault))
            }
        }
    }
}
