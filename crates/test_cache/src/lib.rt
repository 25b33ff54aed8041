//! A file in memory behind a write-back cache: a faithful file that a loss of power takes bytes from.
//!
//! What may be found of it after a loss of power is defined by its changes since the last sync, as all that the clauses of
//! `RandomAccess` allow: no faithful file loses more (`laws`). An image in it (`FileImage`) is a device and a text in it
//! (`FileText`) a store that lose as much.
//!
//! `docs/DECISIONS.md` says why it is there ("Devices and files").
#![tactic(auto)]

mod cached;
pub mod laws;
mod unsynced;

pub use cached::CachedFile;
pub use unsynced::Unsynced;
