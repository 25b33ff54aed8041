//! Changes that are not on the disk yet.

/// A change of a file since its last sync.
#[derive(Drop)]
pub enum Unsynced {
    /// The bytes were written from the address on.
    Write(u64, Vec<u8>),
    /// The file was given this length.
    Resize(u64),
}
