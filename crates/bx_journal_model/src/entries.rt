//! Entries of a journal's text that were read.
use bx_journal_format::EntryRead;
use std::alloc::{Allocator, Global};

/// How many bytes a text of finished entries alone has, and those entries, or the last of them.
#[derive(Drop)]
pub struct FinishedRead<A: Allocator = Global> {
    pub len: u64,
    pub entries: Vec<EntryRead<A>, A>,
}
