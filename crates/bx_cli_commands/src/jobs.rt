//! Jobs, the values of their options, read from words, and the dumps and copies that jobs make.
pub(crate) mod diff;
pub(crate) mod dump;
pub(crate) mod dumps;
pub(crate) mod images;
pub(crate) mod job;
pub(crate) mod labels;
pub mod laws;
pub(crate) mod lay;
pub(crate) mod rest;
pub(crate) mod skip;
pub(crate) mod target;
pub(crate) mod values;
