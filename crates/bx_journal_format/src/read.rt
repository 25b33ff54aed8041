//! A journal's text, read line by line into entries and the stage at its end, or only counted.
pub(crate) mod classify;
pub(crate) mod count;
pub(crate) mod damage;
pub(crate) mod lines;
pub(crate) mod long;
pub(crate) mod marks;
pub(crate) mod parts;
pub(crate) mod ranges;
pub(crate) mod rows;
pub(crate) mod runs;
pub(crate) mod shown;
pub(crate) mod tail;
pub(crate) mod take_line;
pub(crate) mod types;
pub(crate) mod whole;
pub(crate) mod window;
