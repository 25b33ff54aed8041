//! Runs, by the bytes of pieces that go on with one another.
use bx_text::Piece;
use std::alloc::{Allocator, Global};
use test_case_sessions::report::compare::{Wrong, differs, same_bytes, same_number};

/// Bytes and their addresses.
type Placed = Vec<(u64, Vec<u8>)>;

/// The pieces that were found, joined where one goes on with the one before, are the runs that are wanted, joined in the same way.
pub fn same_runs<A: Allocator>(
    alloc: Global,
    wanted: &[(u64, Vec<u8>)],
    found: &[Piece<A>],
) -> Result<(), Wrong> {
    let mut runs = Vec::new(alloc);
    for piece in found {
        put(alloc, &mut runs, piece.at, piece.bytes.as_slice())?;
    }
    same_placed(alloc, joined(alloc, wanted)?.as_slice(), runs.as_slice())
}

/// What was found is what is wanted, joined where one goes on with the one before.
pub fn are_runs_of<A: Allocator>(
    alloc: Global,
    wanted: &[(u64, Vec<u8>)],
    found: &[Piece<A>],
) -> Result<(), Wrong> {
    let wanted = joined(alloc, wanted)?;
    same_number(alloc, "runs", wanted.len() as u64, found.len() as u64)?;
    for (wanted, found) in wanted.iter().zip(found.iter()) {
        same_run(alloc, wanted, found.at, found.bytes.as_slice())?;
    }
    Ok(())
}

fn joined(alloc: Global, pieces: &[(u64, Vec<u8>)]) -> Result<Placed, Wrong> {
    let mut runs = Vec::new(alloc);
    for piece in pieces {
        put(alloc, &mut runs, piece.0, piece.1.as_slice())?;
    }
    Ok(runs)
}

/// Puts bytes behind others.
fn put(alloc: Global, runs: &mut Placed, at: u64, bytes: &[u8]) -> Result<(), Wrong> {
    if let Some(last) = runs.last_mut() {
        if last.0.saturating_add(last.1.len() as u64) == at {
            last.1.extend_from_slice(bytes)?;
            return Ok(());
        }
    }
    runs.push((at, Vec::from_slice(alloc, bytes)?))?;
    Ok(())
}

fn same_placed(
    alloc: Global,
    wanted: &[(u64, Vec<u8>)],
    found: &[(u64, Vec<u8>)],
) -> Result<(), Wrong> {
    same_number(alloc, "runs", wanted.len() as u64, found.len() as u64)?;
    for (wanted, found) in wanted.iter().zip(found.iter()) {
        same_run(alloc, wanted, found.0, found.1.as_slice())?;
    }
    Ok(())
}

fn same_run(alloc: Global, wanted: &(u64, Vec<u8>), at: u64, bytes: &[u8]) -> Result<(), Wrong> {
    same_number(alloc, "address", wanted.0, at)?;
    same_bytes(alloc, "run", wanted.1.as_slice(), bytes)
}
