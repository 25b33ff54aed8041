//! What stands in a text, read a window at a time: its entries, what is unfinished at its end, and where records stand. It changes nothing.
pub(crate) mod count;
pub(crate) mod damage;
pub(crate) mod entries;
pub(crate) mod journal;
pub(crate) mod newlines;
pub(crate) mod shown;
pub(crate) mod torn;
pub(crate) mod unfit;
pub(crate) mod whole;
pub(crate) mod windows;
