//! Texts that grow and are cut at their end, on stores that may fail.
//!
//! `docs/SAFETY.md` says what of a text may be lost with the power; `docs/DECISIONS.md` argues for stores ("Devices and files").
#![tactic(auto)]

mod counted;
mod fault;
mod file;
mod fuse;
mod memory;
mod store;

pub use bx_image::DeviceFailed;
pub use bx_text::NoMemory;
pub use counted::CountedText;
pub use fault::TextFault;
pub use file::FileText;
pub use fuse::FuseText;
pub use memory::MemText;
pub use store::{MOST, TextStore};
