//! The steps that write to an image, its journal (the undo record before the image, the commit mark after it) and its redo text,
//! and the rollback of an unfinished entry.
pub(crate) mod entry;
pub(crate) mod fill;
pub(crate) mod image;
pub(crate) mod redo_entry;
pub(crate) mod redo_text;
pub(crate) mod restore;
pub(crate) mod rollback;
pub(crate) mod undo_entry;
