//! Full saved lines that go on with a run, taken many at a time: in a text that is read in its own memory, or in a window.
pub(crate) mod extend;
pub(crate) mod full_lines;
pub(crate) mod gather;
pub(crate) mod reuse_text;
pub(crate) mod text;
