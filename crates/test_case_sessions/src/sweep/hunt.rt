//! The number of bytes at which each growth is the first to be refused.
use crate::report::compare::Wrong;
use crate::session::ask::Limit;
use bumpalo::Bump;
use std::alloc::Global;
use test_arena::arena;

/// A call that takes memory.
pub trait Call {
    /// Makes the call in an arena, with memory that gets short once it is made. Tells how many bytes it had taken when it was
    /// refused, if it was.
    fn make<'a>(
        &self,
        alloc: Global,
        bump: &'a Bump,
        limit: Limit<'_>,
    ) -> Result<Option<usize>, Wrong>;
}

/// No growth is smaller.
const STEP: usize = 8;

/// More tries than any search takes.
const MOST_TRIES: u32 = 100_000;

/// What is known of a run that is tried with more and more bytes: with `low` the last growth that was found is refused.
#[derive(Clone, Copy)]
struct Hunt {
    taken: usize,
    low: usize,
    gap: usize,
    /// The count of bytes with which another growth is refused, or none is; and what was taken then.
    high: Option<(usize, Option<usize>)>,
    /// How many growths were found.
    growths: u32,
}

impl Hunt {
    /// With no bytes the first growth is refused, when `taken` bytes were taken.
    fn new(taken: usize) -> Self {
        Hunt {
            taken,
            low: 0,
            gap: STEP,
            high: None,
            growths: 1,
        }
    }

    /// How many bytes are tried next.
    fn bytes(&self) -> usize {
        match self.high {
            Some((high, _)) => {
                let steps = high.saturating_sub(self.low) / STEP;
                self.low.saturating_add((steps / 2).saturating_mul(STEP))
            }
            None => self.low.saturating_add(self.gap),
        }
    }

    /// What came of `bytes` bytes: how many were taken when a growth was refused, if one was. Tells whether any is left.
    fn goes_on(&mut self, bytes: usize, taken: Option<usize>) -> bool {
        if taken == Some(self.taken) {
            self.low = bytes;
            self.gap = self.gap.saturating_mul(2);
        } else {
            self.high = Some((bytes, taken));
        }
        match self.high {
            Some((high, found)) if high.saturating_sub(self.low) <= STEP => self.leap(high, found),
            _ => true,
        }
    }

    /// With `high` bytes the next growth is the first to be refused, or none is.
    fn leap(&mut self, high: usize, found: Option<usize>) -> bool {
        match found {
            Some(taken) => {
                self.taken = taken;
                self.low = high;
                self.gap = STEP;
                self.high = None;
                self.growths = self.growths.saturating_add(1);
                true
            }
            None => false,
        }
    }
}

/// The call with `bytes` bytes, in an arena of its own, and where that is too little again with enough.
fn once<C: Call>(alloc: Global, call: &C, bytes: usize) -> Result<Option<usize>, Wrong> {
    let bump = arena(alloc)?;
    let refused = call.make(alloc, &bump, Some((&bump, bytes)))?;
    if refused.is_some() && call.make(alloc, &bump, None)?.is_some() {
        return Err(Wrong::NoMemory);
    }
    Ok(refused)
}

/// Refuses each growth of a call in turn. Tells how many they were.
pub fn each_growth<C: Call>(alloc: Global, call: &C) -> Result<u32, Wrong> {
    let Some(taken) = once(alloc, call, 0)? else {
        return Ok(0);
    };
    let mut hunt = Hunt::new(taken);
    for _ in 0..MOST_TRIES {
        let bytes = hunt.bytes();
        let taken = once(alloc, call, bytes)?;
        if !hunt.goes_on(bytes, taken) {
            return Ok(hunt.growths);
        }
    }
    Err(Wrong::NoMemory)
}
