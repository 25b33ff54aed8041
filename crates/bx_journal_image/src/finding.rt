//! What a command finds of an image beside finished texts: what it has where the last entry of each wrote.
pub(crate) mod entry;
pub(crate) mod rest;
pub(crate) mod summed;
pub(crate) mod written;
