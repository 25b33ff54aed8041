//! What was found is compared with what a case says, counted and reported.
pub mod compare;
pub mod tally;
