//! The text of an entry, put to a store page by page.
pub(crate) mod entry;
pub(crate) mod first;
pub(crate) mod head;
pub(crate) mod look;
pub(crate) mod page;
pub(crate) mod ranges;
