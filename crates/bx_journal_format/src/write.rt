//! The text of an entry, as it is put into a page.
pub(crate) mod entry;
pub(crate) mod page;
pub(crate) mod rows;
