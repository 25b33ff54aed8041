//! What hints and remarks are made of: quoted names, commands as they are typed, counts of changes.
pub mod commands;
pub mod quoted;
pub mod steps;
