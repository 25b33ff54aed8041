//! Where bytes print, and the place of a run.
pub mod lanes;
pub mod places;
