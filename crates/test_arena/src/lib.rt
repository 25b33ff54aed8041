//! An arena whose memory runs out at a byte that a test chooses.
//!
//! `docs/CASES.md` has the tests in which each growth is refused; they use it.
#![tactic(auto)]

use bumpalo::Bump;
use std::alloc::{AllocError, Global};

/// Budgets that are multiples of it tell growths apart.
pub const ALIGN: usize = 16;

const FIRST: usize = 64;

const PAGE: [u8; 4096] = [0; 4096];

/// An arena of two chunks, with no limit yet. It takes no block back and grows none in place.
pub fn arena(alloc: Global) -> Result<Bump, AllocError> {
    let bump = Bump::try_with_capacity(alloc, FIRST)?;
    let first = bump.chunk_capacity().min(PAGE.len());
    let _ballast = bump.try_alloc_slice_copy(&PAGE[..first])?;
    let _second = bump.try_alloc_slice_copy(&PAGE)?;
    Ok(bump)
}

/// From here on the arena hands out `bytes` bytes: each growth has a number at which it is the first to be refused.
///
/// A chunk has twice the bytes of the one before, so one of `bytes` bytes comes before twice as many were handed out.
pub fn squeeze(bump: &Bump, bytes: usize) -> Result<(), AllocError> {
    for _ in 0..bytes / PAGE.len() * 2 + 128 {
        if bump.chunk_capacity() >= bytes {
            break;
        }
        let _ballast = bump.try_alloc_slice_copy(&PAGE)?;
    }
    bump.set_allocation_limit(Some(bump.allocated_bytes()));
    for _ in 0..bump.chunk_capacity() / PAGE.len() + 1 {
        let spare = bump.chunk_capacity().saturating_sub(bytes).min(PAGE.len());
        if spare == 0 {
            break;
        }
        let _ballast = bump.try_alloc_slice_copy(&PAGE[..spare])?;
    }
    Ok(())
}

/// An arena that hands out `bytes` bytes in all.
pub fn ration(alloc: Global, bytes: usize) -> Result<Bump, AllocError> {
    let bump = arena(alloc)?;
    squeeze(&bump, bytes)?;
    Ok(bump)
}

/// How many of the bytes were handed out.
pub fn used(bump: &Bump, bytes: usize) -> usize {
    bytes.saturating_sub(bump.chunk_capacity())
}
