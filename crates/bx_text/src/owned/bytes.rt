//! Bytes that are owned.
ghost use Rattle.std.specs.Prelude.{◌≡◌, ◌<◌, List, ℕ};
ghost use Rattle.std.specs.Borrow.{sem, Lends, Array, u8 as byte};
ghost use Rattle.bx_text.specs.Lending.{overwritten};
ghost use Rattle.bx_text.specs.contracts.owned.bytes.Bytes.{the_row};

use std::alloc::{Allocator, Global};
use std::marker::Model;

/// A list of bytes.
#[derive(Drop)]
pub struct Bytes<A: Allocator = Global> {
    items: Vec<u8, A>,
}

impl<A: Allocator> Model for Bytes<A> {
    ghost use Rattle.std.specs.Prelude.{List, ℕ};

    ghost Value = { List ℕ };

    ghost view = { λ b. b.items.items };
}

impl<A: Allocator> Bytes<A> {
    /// The bytes of the vector, in their order.
    pub fn from_vec(items: Vec<u8, A>) -> Self
        ensures { result ≡ items.items }
    {
        Bytes { items }
    }

    /// Gives the vector of the bytes back.
    pub fn into_vec(self) -> Vec<u8, A>
        ensures { result.items ≡ self }
    {
        let Bytes { items } = self;
        items
    }

    /// All the bytes.
    pub fn as_slice(&self) -> &[u8]
        ensures { result.now ≡ self.now }
    {
        self.items.as_slice()
    }

    /// What is written through it then stands in the list.
    pub fn as_mut_slice(&mut self) -> &mut [u8]
        ensures* writes_back { sem 𝓛 (Lends (the_row A.row A.Allocator) (Array byte 0) self.entry result (overwritten self.old)) }
        ensures value { result.now ≡ self.old }
    {
        self.items.as_mut_slice()
    }
}
