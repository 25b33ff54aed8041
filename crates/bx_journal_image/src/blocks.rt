//! The blocks of an image whose digests a line has, and which of them a change touches.
pub(crate) mod places;
pub(crate) mod strikes;
