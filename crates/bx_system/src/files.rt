//! Files that are looked at, opened, made, lent as devices, and taken away.
pub mod counted_file;
pub mod devices;
pub mod left;
pub mod links;
pub mod locks;
pub mod look;
pub mod mode;
pub mod open;
pub mod opened;
