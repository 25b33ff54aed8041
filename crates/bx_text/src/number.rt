//! Numbers read, and numbers and other short texts written.
pub(crate) mod field;
pub(crate) mod read;
pub(crate) mod size;
