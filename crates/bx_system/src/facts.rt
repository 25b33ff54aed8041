//! What the system tells of files, devices and folders.
pub mod alias;
pub mod dev;
pub mod holders;
pub mod mounts;
pub mod stat;
pub mod tables;
