//! The standard streams, and what is read of them.
pub mod chained;
pub mod closed;
pub mod fitting;
pub mod input;
pub mod labelled;
pub mod paged;
pub mod part;
