//! The line that is put on the disk before a command writes.
pub(crate) mod lengths;
pub(crate) mod resealing;
pub(crate) mod seal;
pub(crate) mod steps;
