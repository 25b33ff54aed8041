//! Patches that can be read: the text of what differs between two images, what such a text asks of an image, and an image behind changes that aren't made.
//!
//! `docs/FORMATS.md` has the text ("Patches"), and `docs/DECISIONS.md` why it has an end and one fault ("Patches").
#![tactic(auto)]

mod diff;
pub mod laws;
mod other;
mod preview;
mod read;

pub use diff::alike::{Alike, Unknown};
pub use diff::fault::DiffFault;
pub use diff::row::Extent;
pub use diff::write_patch;
pub use other::{Other, find_other};
pub use preview::{ChangedImage, PieceIndex, Untouched};
pub use read::fault::PatchFault;
pub use read::lengths::PatchLengths;
pub use read::patch::Patch;
pub use read::read_patch;
