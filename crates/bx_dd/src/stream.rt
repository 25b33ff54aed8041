//! Whole inputs: taken block by block, converted and counted.
pub(crate) mod copy;
pub(crate) mod transfer;
