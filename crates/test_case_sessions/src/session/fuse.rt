//! Devices, one failing; the ways in which it does, and what is found then.
use crate::report::compare::Wrong;
use crate::session::devices::{Devices, Held, Texts};
use crate::session::medium::{DEVICES, Medium};
use bx_cli::Fault;
use bx_image::{Device, FuseImage, Part};
use bx_journal::{Session, SessionFault};
use bx_journal_store::{FuseText, TextStore};
use std::alloc::Global;

/// The device that fails behind `pass` calls.
pub fn fuse_at(kind: u32, pass: u64) -> Fused {
    let way = kind / DEVICES;
    Fused {
        device: kind % DEVICES,
        reads: way == 3,
        part: match way {
            0 | 4 => Part::Nothing,
            1 | 5 => Part::Half,
            _ => Part::All,
        },
        once: way > 3,
        pass,
    }
}

/// In place of a device: each of them.
const EACH: u32 = DEVICES;

/// Devices that refuse each write. An opening may sync each once before it, as one of files that may only be read does.
pub const LOCKED: Fused = Fused {
    device: EACH,
    reads: false,
    part: Part::Nothing,
    once: false,
    pass: 1,
};

/// Which calls of a device fail: its reads, or else its writes; those behind `pass`, or the one behind them alone; and how
/// much of a write takes effect.
#[derive(Clone, Copy)]
pub struct Fused {
    pub device: u32,
    pub reads: bool,
    pub part: Part,
    pub once: bool,
    pub pass: u64,
}

impl Fused {
    /// How many calls this device passes.
    fn passed(self, device: u32) -> u64 {
        if self.device == device || self.device == EACH {
            self.pass
        } else {
            u64::MAX
        }
    }
}

/// Whether a fault is that of a device's call that failed.
pub fn is_of_device(fault: Fault) -> bool {
    matches!(
        fault,
        Fault::Session(SessionFault::DeviceFailed | SessionFault::Interrupted)
    )
}

/// Devices where one may fail.
pub type FusedDevices<D, T> = Devices<FuseImage<D>, FuseText<T>>;

pub type FusedSession<D, T> = Session<FuseImage<D>, FuseText<T>>;

/// An image that fails so, if it is this device.
fn fused_image<D: Device + Drop>(image: D, fused: Fused) -> Result<FuseImage<D>, Wrong> {
    if image.faults() > 0 {
        return Err(Wrong::Unknown);
    }
    let pass = fused.passed(0);
    if fused.reads {
        return Ok(FuseImage::on_reads(image, pass));
    }
    Ok(FuseImage::new(image, pass, fused.part, fused.once))
}

/// A text that fails so, if it is this device.
fn fused_text<T: TextStore + Drop>(
    text: T,
    device: u32,
    fused: Fused,
) -> Result<FuseText<T>, Wrong> {
    if text.faults() > 0 {
        return Err(Wrong::Unknown);
    }
    let pass = fused.passed(device);
    if fused.reads {
        return Ok(FuseText::on_reads(text, pass));
    }
    Ok(FuseText::new(text, pass, fused.part, fused.once))
}

/// Devices that fail so.
pub fn fuse<D: Device + Drop, T: TextStore + Drop>(
    devices: Devices<D, T>,
    fused: Fused,
) -> Result<FusedDevices<D, T>, Wrong> {
    let Devices {
        image,
        journal,
        redo,
    } = devices;
    Ok(Devices {
        image: fused_image(image, fused)?,
        journal: fused_text(journal, 1, fused)?,
        redo: fused_text(redo, 2, fused)?,
    })
}

/// Devices that hold this, where one fails.
pub fn in_fused<D: Device + Drop, T: TextStore + Drop, M: Medium<D, T>>(
    alloc: Global,
    medium: &M,
    texts: Texts<'_>,
    fused: Fused,
) -> Result<FusedDevices<D, T>, Wrong> {
    fuse(medium.devices(alloc, texts)?, fused)
}

/// What may be found of devices that failed.
pub fn found_of<D: Device + Drop, T: TextStore + Drop, M: Medium<D, T>>(
    alloc: Global,
    medium: &M,
    devices: FusedDevices<D, T>,
) -> Result<Vec<Held>, Wrong> {
    let Devices {
        image,
        journal,
        redo,
    } = devices;
    let devices = Devices {
        image: image.into_inner(),
        journal: journal.into_inner(),
        redo: redo.into_inner(),
    };
    medium.found(alloc, devices)
}
