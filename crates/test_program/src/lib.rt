//! Tests of the tools and of the program, and those that cross crates. No product code.
//!
//! `docs/CASES.md` says which of them shows what ("What is only tested").
#![tactic(auto)]

#[cfg(test)]
mod beside;
#[cfg(test)]
mod dd;
#[cfg(test)]
mod dumps;
#[cfg(test)]
mod expected;
#[cfg(test)]
mod faults;
#[cfg(test)]
mod heaps;
#[cfg(test)]
mod program;
#[cfg(test)]
mod ranges;
#[cfg(test)]
mod sessions;
