//! The devices of a session: which of them stopped it, and whether an image has what a patch expects.
pub mod agreement;
pub mod left;
