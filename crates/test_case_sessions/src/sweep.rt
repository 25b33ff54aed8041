//! What the sweeps of several kinds of cases share.
pub mod hunt;
pub mod images;
pub mod recovery;
pub mod weight;
