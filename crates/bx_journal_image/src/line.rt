//! What the line of an image has: digests of its bytes and of its blocks, how it is written and read, and what an entry ends with.
pub(crate) mod digest;
pub(crate) mod form;
pub(crate) mod marks;
pub(crate) mod ranges;
