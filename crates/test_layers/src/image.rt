//! Images: which calls a change makes, files, fuses, and pages that are refused.
mod device_tests;
mod file_tests;
pub mod guarded;
mod pages_tests;
