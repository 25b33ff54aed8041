//! Where entries that are to be taken back stand in their text.
ghost use Rattle.std.specs.Prelude.{◌≡◌, ◌<◌, ◌^◌, map, IfOk, IfErr};
ghost use Rattle.bx_journal_protocol.specs.before.Overwritten.{AreOrdered, IsOrdered, place_in};

use crate::Placed;
use bx_journal_format::EntryRead;
use bx_journal_model::{Mark, SessionFault, start_size};
use std::alloc::Allocator;

/// What the type of a place says of it.
fn is_countable(place: u64)
    ensures { place < 2 ^ 64 }
{}

/// Where an entry stands in its text.
fn place_of<A: Allocator>(entry: &EntryRead<A>) -> Placed
    requires { IsOrdered entry.now }
    ensures { result ≡ place_in entry.now }
{
    is_countable(entry.saved);
    Placed {
        begins: entry.begins,
        mark: Mark {
            lines: entry.begins + start_size(entry.version) + 1,
            saved: entry.saved,
            len: entry.kept.len,
        },
    }
}

/// Where each of the entries stands, in their order.
pub fn places<A: Allocator + Clone>(
    alloc: &A,
    entries: &[EntryRead<A>],
) -> Result<Vec<Placed, A>, SessionFault>
    requires order { AreOrdered entries.now }
    ensures places { IfOk result (λ ps. ps.items ≡ map place_in entries.now) }
    ensures kind { IfErr result (λ e. e ≡ SessionFault.NoMemory) }
{
    let mut placed = Vec::with_capacity(alloc.clone()?, entries.len())?;
    for entry in entries {
        if placed.push(place_of(entry)).is_err() {
            return Err(SessionFault::NoMemory);
        }
    }
    Ok(placed)
}
