//! The head of an entry that is begun: what of its text is made, and where the rest goes on.
use std::alloc::{Allocator, Global};

/// Where the lines of some ranges go on: the index of a range, and how many of its bytes are done. At the end of all ranges the
/// index is their number.
#[derive(Clone, Copy)]
pub struct Place {
    pub range: usize,
    pub done: u64,
}

/// The number of an entry, the page that its text begins with, where in the ranges that it keeps its lines go on, and a window to
/// read the image in.
#[derive(Drop)]
pub struct Head<A: Allocator = Global> {
    pub number: u32,
    pub place: Place,
    pub page: Vec<u8, A>,
    pub window: Vec<u8, A>,
}
