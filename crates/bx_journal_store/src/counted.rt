//! A text whose failures count from a number.
ghost use Rattle.std.specs.Prelude.{◌≡◌, ◌↔◌, ◌+◌, ◌≤◌};
ghost use Rattle.bx_image.specs.Power.{NoMore};

use crate::{DeviceFailed, NoMemory, TextFault, TextStore};
use std::alloc::Allocator;
use std::marker::Model;

/// A store whose failures count from a number that is given, so that a count tells two stores of one type apart. In all else it
/// is the store within.
#[derive(Drop)]
pub struct CountedText<T: TextStore> {
    store: T,
    first: u64,
}

impl<T: TextStore> Model for CountedText<T> {
    ghost use Rattle.std.specs.Prelude.{◌+◌, ◌-◌, ◌^◌, ◌≤◌};
    ghost use Rattle.bx_journal_store.specs.Counting.{Counting};

    ghost Value = { Counting T };

    ghost view = { λ c. record { within = c.store; first = c.first } };

    ghost invariant = { λ c. c.first + T.failures c.store ≤ 2 ^ 64 - 1 };
}

impl<T: TextStore> CountedText<T> {
    /// The text of a store that has not failed yet, whose failures count from `first` on.
    pub fn new(store: T, first: u64) -> Self
        requires { T.failures store ≡ 0 }
        ensures counting { result ≡ record { within = store; first = first } }
        ensures failures { ⟦<CountedText<T> as TextStore>⟧.failures result ≡ first }
    {
        CountedText { store, first }
    }

    /// The store within, as it is.
    pub fn into_inner(self) -> T
        ensures { result ≡ self.within }
    {
        self.store
    }
}

impl<T: TextStore> TextStore for CountedText<T> {
    ghost text = { λ c. T.text c.within };

    ghost faithful = { λ c. T.faithful c.within };

    ghost room = { λ c. T.room c.within };

    ghost failures = { λ c. c.first + T.failures c.within };

    ghost survives = { λ c. T.survives c.within };

    ghost empties_at_once = { T.empties_at_once };

    ghost present = { λ c. T.present c.within };

    fn len(&mut self) -> Result<u64, DeviceFailed> {
        self.store.len()
    }

    fn read_all<A: Allocator>(&mut self, alloc: A) -> Result<Vec<u8, A>, TextFault> {
        self.store.read_all(alloc)
    }

    fn read_at(&mut self, at: u64, buf: &mut [u8]) -> Result<(), DeviceFailed> {
        self.store.read_at(at, buf)
    }

    fn append(&mut self, bytes: &[u8]) -> Result<(), DeviceFailed> {
        self.store.append(bytes)
    }

    fn cut(&mut self, n: u64) -> Result<(), DeviceFailed> {
        self.store.cut(n)
    }

    fn sync(&mut self) -> Result<(), DeviceFailed> {
        self.store.sync()
    }

    fn reserve(&mut self, n: u64) -> Result<(), NoMemory> {
        self.store.reserve(n)
    }

    fn reserved(&self) -> u64 {
        self.store.reserved()
    }

    fn faults(&self) -> u64 {
        self.first + self.store.faults()
    }
}
