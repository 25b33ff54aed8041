//! What opening is to answer, by a slow reading of the format. No product code.
//!
//! `docs/FORMATS.md` has the format ("The journal"); it stands on no crate of the product, so that it can't share a mistake.
#![tactic(auto)]

pub mod judge;
mod zeros;
