//! The six kinds of cases, and what they share.
pub mod commands;
pub mod looks;
pub mod patches;
pub mod reading;
pub mod texts;
pub mod told;
pub mod words;
