//! Images of bytes on devices, and changes to them that can be taken back.
//!
//! A change that is made on a device, and taken back by the undo record that `save` read before it:
//!
//! ```
//! apply(device, change)?;
//! apply(device, &saved.into_change())?;
//! ```
//!
//! `docs/CALLING.md` has the whole caller, which the gate proves and runs.
//!
//! `docs/DECISIONS.md` argues for devices and changes ("Devices and files"), and `docs/PROMISES.md` has what they promise.
#![tactic(auto)]

mod cached;
mod change;
mod device;
pub mod laws;
mod record;

pub use bx_text::NoMemory;
pub use cached::{Cached, keep_cached};
pub use change::{Change, MAX_LEN, apply, check};
pub use device::access::{RandomAccess, Stop};
pub use device::file::{FileImage, counted, read_full, resize_to, size_of, sync_full, write_full};
pub use device::fuse::{Fuse, FuseImage, Part};
pub use device::memory::MemImage;
pub use device::pages::PagedImage;
pub use device::system::{FailedCall, Operation, SystemFile};
pub use device::{Device, DeviceFailed, ImageFault, TooLarge};
pub use record::Saved;
pub use record::fill::{room, zeros_over};
pub use record::save::save;
pub use record::spans::{Span, touched_by, touched_to_restore};
pub use record::zeros::touched_but_zeros;
