//! What all parts of the one call name: what stands before a command and behind it, and commands that end in the fault of a
//! device. It has no code. An inner part of `bx_run`.
//!
//! `docs/HEADLINE.md` begins with the contract that they are for.
#![tactic(auto)]
