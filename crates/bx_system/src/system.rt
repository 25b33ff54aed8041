//! What a runtime has that the program runs in.
use std::fs::File;
use std::rt::Files;
use std::time::Clock;

/// Files, the standard streams, a clock and memory: all that the program asks of the system. The runtime of `main` has them.
pub trait System: Files<File = File> + Input + Print + Eprint + Clock + AllocGlobal {}

impl<R: Files<File = File> + Input + Print + Eprint + Clock + AllocGlobal> System for R {}
