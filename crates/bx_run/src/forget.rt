//! Accepts all changes of an image, and drops their history. `docs/DECISIONS.md` argues for it ("History that is dropped").
mod forgotten;
mod judging;

pub use forgotten::{forget_files, take_note};
