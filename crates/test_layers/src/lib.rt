//! Tests of the layers up to the journal: texts, readers of dumps, images, stores, the journal.
//!
//! `docs/CASES.md` says which of them shows what ("What is only tested").
#![tactic(auto)]

#[cfg(test)]
mod growths;
#[cfg(test)]
mod image;
#[cfg(test)]
mod journal;
#[cfg(test)]
mod shared;
#[cfg(test)]
mod slow;
#[cfg(test)]
mod store;
#[cfg(test)]
mod text;
#[cfg(test)]
mod windows;
