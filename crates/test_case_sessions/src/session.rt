//! Sessions: the one place that knows how many devices they have, how these are made, and how they are opened.
pub mod answers;
pub mod ask;
pub mod cache;
pub mod devices;
pub mod fuse;
pub mod loss;
pub mod medium;
pub mod open;
pub mod places;
pub mod standing;

/// More failed calls than any play comes near.
pub const MANY: u64 = 100_000;
